//! What tells a host that a datagram did not arrive.

ghost use Rattle.std.specs.Prelude.{◌≡◌, ℕ, List, MatchOption};
ghost use Rattle.net_udp.specs.Frames.Unreachable.{CarriesWhole, Quotes, Tells, TellsUnreachable, icmp_number, unreachable_type};
ghost use Rattle.net_udp.specs.declared.frames.unreachable.Quoted.{Quoted as QuotedValue};
ghost use Rattle.net_udp.specs.declared.frames.unreachable.Unreachable.{Unreachable as UnreachableValue};

use crate::frames::extension::UDP;
use crate::frames::ip::{has_header, hosts, reach};
use crate::frames::link::{Network, link_type};
use crate::frames::number::pair_at;
use crate::frames::tunnel::read_carried;
use std::net::IpAddr;

/// That a UDP datagram did not arrive (RFC 792; RFC 4443, section 3.1).
#[derive(Clone, Copy)]
pub struct Unreachable {
    /// The host that says so.
    pub from: IpAddr,
    /// Why: 3 is the port of IPv4, and 4 that of IPv6.
    pub code: u8,
    /// The datagram.
    pub quoted: Quoted,
}

/// The ends of a datagram that is quoted.
#[derive(Clone, Copy)]
pub struct Quoted {
    /// The host that sent it.
    pub source: IpAddr,
    /// Its port.
    pub source_port: u16,
    /// The host to which it went.
    pub target: IpAddr,
    /// That one's port.
    pub target_port: u16,
}

/// What a frame tells of a UDP datagram that did not arrive, in an ICMP message that is no fragment; none where it tells nothing.
/// The message may be cut behind the ports that it quotes. Checksums are not looked at.
pub fn read_unreachable(link_number: u32, frame: &[u8]) -> Option<Unreachable>
    ensures { MatchOption result
        ((u : UnreachableValue) → TellsUnreachable link_number frame.now u → ⊥)
        (λ u. TellsUnreachable link_number frame.now u) }
{
    let Some(link) = link_type(link_number) else {
        return None;
    };
    let Some(carried) = read_carried(link, frame) else {
        return None;
    };
    let Some(network) = carried.network else {
        return None;
    };
    told_in(network, carried.content)
}

/// What a packet tells so.
fn told_in(network: Network, bytes: &[u8]) -> Option<Unreachable>
    ensures { MatchOption result
        ((u : UnreachableValue) → Tells network bytes.now u → ⊥)
        (λ u. Tells network bytes.now u) }
{
    let Some(message) = carried_in(network, bytes, number_of(network)) else {
        return None;
    };
    if message.len() < 8 || message[0] != type_of(network) {
        return None;
    }
    let Some(quoted) = quoted_in(network, message.split_at(8).1) else {
        return None;
    };
    Some(Unreachable {
        from: hosts(network, bytes).0,
        code: message[1],
        quoted,
    })
}

/// The ends of the datagram with which bytes begin.
fn quoted_in(network: Network, bytes: &[u8]) -> Option<Quoted>
    ensures { MatchOption result
        ((q : QuotedValue) → Quotes network bytes.now q → ⊥)
        (λ q. Quotes network bytes.now q) }
{
    let Some(udp) = carried_in(network, bytes, UDP) else {
        return None;
    };
    if udp.len() < 4 {
        return None;
    }
    let (source, target) = hosts(network, bytes);
    Some(Quoted {
        source,
        source_port: pair_at(udp, 0),
        target,
        target_port: pair_at(udp, 2),
    })
}

/// What the packet with which bytes begin carries of this protocol, where it is no fragment.
fn carried_in(network: Network, bytes: &[u8], protocol: u8) -> Option<&[u8]>
    ensures { MatchOption result
        ((content : List ℕ) → CarriesWhole network bytes.now protocol content → ⊥)
        (λ content. CarriesWhole network bytes.now protocol content.now) }
{
    if !has_header(network, bytes) {
        return None;
    }
    let Some(upper) = reach(network, bytes) else {
        return None;
    };
    if upper.protocol != protocol || upper.fragment.is_some() {
        return None;
    }
    Some(upper.content)
}

/// The number of ICMP among the protocols of IP.
fn number_of(network: Network) -> u8
    ensures { result ≡ icmp_number network }
{
    match network {
        Network::Ipv4 => 1,
        Network::Ipv6 => 58,
    }
}

/// The type of a message that a datagram did not arrive.
fn type_of(network: Network) -> u8
    ensures { result ≡ unreachable_type network }
{
    match network {
        Network::Ipv4 => 3,
        Network::Ipv6 => 1,
    }
}
