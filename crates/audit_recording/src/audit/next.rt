//! What comes next in a recording.

use audit_flows::transfers::{Attributed, AttributionFault};
use net_pcap::PcapFault;

/// What was read of a recording.
#[derive(Clone, Copy, Debug, PartialEq, Eq)]
pub enum NextFrame {
    /// It has ended.
    End,
    /// A frame that has given no datagram.
    Nothing,
    /// A frame that has given a datagram: where that belongs, and what it makes doubtful.
    Datagram(Attributed),
}

/// Why a recording is audited no further.
#[derive(Clone, Copy, Debug, PartialEq, Eq)]
pub enum AuditFault {
    /// It is read no further. What the judges were given before stands.
    Recording(PcapFault),
    /// The judges take no datagram any more.
    Judges(AttributionFault),
}
