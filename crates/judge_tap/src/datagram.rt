use tftp_packet::Bytes;
use tftp_packet::hosts::Peer;

/// A datagram that passed between the ends: where it came from, where it went, and what it carried (RFC 768; RFC 1350, section
/// 4).
#[derive(Drop)]
pub struct TapDatagram {
    /// Where it came from.
    pub source: Peer,
    /// Where it went.
    pub destination: Peer,
    /// What it carried, at most 65,527 bytes.
    pub payload: Bytes,
}
