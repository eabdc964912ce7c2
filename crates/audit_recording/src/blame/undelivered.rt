//! That a datagram of a transfer did not arrive.

use audit_flows::lines::{Address, Endpoint};

/// A datagram that a host could not be given, as ICMP tells (RFC 792; RFC 4443, section 3.1).
#[derive(Clone, Copy)]
pub struct Undelivered {
    /// The frame that tells it, from 1.
    pub frame: u64,
    /// The host that tells it: the datagram's target, or one on its way.
    pub host: Address,
    /// Why: 3 is the port of IPv4, and 4 that of IPv6.
    pub code: u8,
    /// Where the datagram came from.
    pub source: Endpoint,
    /// Where it was to go.
    pub target: Endpoint,
}
