use audit_flows::lines::Endpoint;
use tftp_packet::hosts::Host;

/// An end of a datagram, and what its host is called in a capture text.
#[derive(Clone, Copy, Debug)]
pub struct Party {
    /// The host's address and the port there.
    pub end: Endpoint,
    /// The host's name: the same for the same address.
    pub host: Host,
}
