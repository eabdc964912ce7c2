ghost use Rattle.std.specs.Prelude.{◌≡◌, ◌↔◌, IsTrue};
ghost use Rattle.tftp_packet.specs.{meaning};
ghost use Rattle.law_model.specs.Rules.{author_of as author_by_way};
ghost use Rattle.law_end.specs.{IsWrongKind};

use tftp_packet::hosts::Dir;
use tftp_packet::{End, Packet, Side};

/// The end that sent what went this way at the named end (RFC 1350, section 1).
pub fn author_of(named: End, dir: Dir) -> End
    ensures { result ≡ author_by_way named dir }
{
    match (dir, named) {
        (Dir::Out, _) => named,
        (Dir::In, End::Client) => End::Server,
        (Dir::In, End::Server) => End::Client,
    }
}

/// Whether an end has nothing of this kind to send (RFC 1350, sections 2 and 4; RFC 2347).
pub fn is_wrong_kind(author: End, side: Side, packet: &Packet<'_>) -> bool
    ensures { IsTrue result ↔ IsWrongKind author side (meaning packet.now) }
{
    match (author, side, packet) {
        (End::Client, Side::Get, Packet::Data { .. }) => true,
        (End::Client, Side::Put, Packet::Ack { .. }) => true,
        (End::Client, _, Packet::Oack(_)) => true,
        (End::Server, Side::Get, Packet::Ack { .. }) => true,
        (End::Server, Side::Put, Packet::Data { .. }) => true,
        (End::Server, _, Packet::Request(_)) => true,
        _ => false,
    }
}
