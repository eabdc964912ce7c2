use crate::views::party::Party;
use audit_flows::lines::Place;
use tftp_packet::Bytes;

/// A datagram that is held until it is known who the server is.
#[derive(Drop)]
pub struct Held {
    /// Where it belongs.
    pub place: Place,
    /// Where it came from.
    pub source: Party,
    /// Where it went.
    pub target: Party,
    /// What it carried.
    pub payload: Bytes,
}
