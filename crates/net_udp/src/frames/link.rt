ghost use Rattle.std.specs.Prelude.{◌≡◌, ◌≤◌, length, MatchOption};
ghost use Rattle.net_udp.specs.Frames.Link.{index_of, link_named, least, Linked, Carries, SpellsLink, CarriesTyped, packet_direction, type_network, family_network, version_network, null_network};
ghost use Rattle.net_udp.specs.Frames.Parts.{linked};

use crate::frames::number::{four_at, pair_at};
use crate::frames::packet::Direction;
use crate::frames::tag::skip_tags;

/// How the frames of a recording begin, by the number that the recording gives (tcpdump.org/linktypes.html).
#[derive(Clone, Copy, Debug, PartialEq, Eq)]
pub enum LinkType {
    /// BSD NULL: the address family, in the byte order of the host that recorded.
    Null,
    /// Ethernet (IEEE 802.3).
    Ethernet,
    /// An IP packet alone, whose version its first byte tells.
    Raw,
    /// BSD LOOP: the address family, the most significant byte first.
    Loop,
    /// Linux cooked, version 1.
    Cooked,
    /// An IPv4 packet alone.
    RawIpv4,
    /// An IPv6 packet alone.
    RawIpv6,
    /// Linux cooked, version 2.
    CookedTwo,
}

/// The version of IP that a frame carries.
#[derive(Clone, Copy, Debug, PartialEq, Eq)]
pub enum Network {
    /// Version 4 (RFC 791).
    Ipv4,
    /// Version 6 (RFC 8200).
    Ipv6,
}

/// What a link's header says, and the bytes after it.
#[derive(Clone, Copy, Debug)]
pub struct LinkContent<'a> {
    /// Which way the frame went, where the link says it.
    pub direction: Direction,
    /// None where the frame carries neither IPv4 nor IPv6.
    pub network: Option<Network>,
    /// All bytes after the link's header and its tags.
    pub content: &'a [u8],
}

/// The link type of a number; none of one that is not read.
#[inline]
pub fn link_type(number: u32) -> Option<LinkType>
    ensures { result ≡ link_named number }
{
    match number {
        0 => Some(LinkType::Null),
        1 => Some(LinkType::Ethernet),
        12 | 101 => Some(LinkType::Raw),
        108 => Some(LinkType::Loop),
        113 => Some(LinkType::Cooked),
        228 => Some(LinkType::RawIpv4),
        229 => Some(LinkType::RawIpv6),
        276 => Some(LinkType::CookedTwo),
        _ => None,
    }
}

/// The number of the interface that a frame's link header names, by the number of the link type in the recording: that of
/// Linux cooked, version 2, has one, of the host that recorded. It is 0 where the header is cut or names none, as that of
/// version 1 (tcpdump.org/linktypes.html).
#[inline]
pub fn interface_index(link_number: u32, frame: &[u8]) -> u32
    ensures { result ≡ index_of link_number frame.now }
{
    if link_number == 276 && frame.len() >= 20 {
        four_at(frame, 4)
    } else {
        0
    }
}

/// The network of a type (IEEE 802.3, clause 3.2.6).
#[inline]
fn network_of_type(kind: u16) -> Option<Network>
    ensures { result ≡ type_network kind }
{
    match kind {
        0x0800 => Some(Network::Ipv4),
        0x86dd => Some(Network::Ipv6),
        _ => None,
    }
}

/// The network of an address family: 2 is IPv4, and 24, 28 and 30 are IPv6, by system.
#[inline]
fn network_of_family(family: u32) -> Option<Network>
    ensures { result ≡ family_network family }
{
    match family {
        2 => Some(Network::Ipv4),
        24 | 28 | 30 => Some(Network::Ipv6),
        _ => None,
    }
}

/// The network of an IP packet's first byte.
#[inline]
fn network_of_version(first: u8) -> Option<Network>
    ensures { result ≡ version_network first }
{
    match first / 16 {
        4 => Some(Network::Ipv4),
        6 => Some(Network::Ipv6),
        _ => None,
    }
}

/// The direction of a packet type of Linux cooked.
#[inline]
fn direction_of(packet_type: u16) -> Direction
    ensures { result ≡ packet_direction packet_type }
{
    match packet_type {
        0 => Direction::In,
        4 => Direction::Out,
        _ => Direction::Unknown,
    }
}

/// The least bytes that a link's header has.
#[inline]
pub fn least_length(link: LinkType) -> usize
    ensures { result ≡ least link }
{
    match link {
        LinkType::RawIpv4 | LinkType::RawIpv6 => 0,
        LinkType::Raw => 1,
        LinkType::Null | LinkType::Loop => 4,
        LinkType::Ethernet => 14,
        LinkType::Cooked => 16,
        LinkType::CookedTwo => 20,
    }
}

/// What a frame carries after a type and any tags; none where it ends in them.
#[inline]
pub fn read_typed(direction: Direction, kind: u16, after: &[u8]) -> Option<LinkContent<'_>>
    ensures { MatchOption result
        ((c : Linked) → CarriesTyped kind after.now c → ⊥)
        (λ found. CarriesTyped kind after.now (linked found) × (found.direction ≡ direction)) }
{
    let Some((last, content)) = skip_tags(kind, after) else {
        return None;
    };
    Some(LinkContent {
        direction,
        network: network_of_type(last),
        content,
    })
}

/// The network of a BSD NULL header, whose family stands in either byte order.
#[inline]
fn network_of_null(frame: &[u8]) -> Option<Network>
    requires { 4 ≤ length frame.now }
    ensures { result ≡ null_network frame.now }
{
    let family = four_at(frame, 0);
    match network_of_family(family) {
        Some(network) => Some(network),
        None => network_of_family(family.swap_bytes()),
    }
}

/// What a frame of a link carries; none where it ends in the link's header.
#[inline]
pub fn read_link(link: LinkType, frame: &[u8]) -> Option<LinkContent<'_>>
    ensures { MatchOption result
        ((c : Linked) → SpellsLink link frame.now c → ⊥)
        (λ found. SpellsLink link frame.now (linked found)) }
{
    if frame.len() < least_length(link) {
        return None;
    }
    match link {
        LinkType::Ethernet => read_typed(
            Direction::Unknown,
            pair_at(frame, 12),
            frame.split_at(14).1,
        ),
        LinkType::Cooked => read_typed(
            direction_of(pair_at(frame, 0)),
            pair_at(frame, 14),
            frame.split_at(16).1,
        ),
        LinkType::CookedTwo => read_typed(
            direction_of(u16::from(frame[10])),
            pair_at(frame, 0),
            frame.split_at(20).1,
        ),
        LinkType::Raw => Some(plain(network_of_version(frame[0]), frame)),
        LinkType::RawIpv4 => Some(plain(Some(Network::Ipv4), frame)),
        LinkType::RawIpv6 => Some(plain(Some(Network::Ipv6), frame)),
        LinkType::Null => Some(plain(network_of_null(frame), frame.split_at(4).1)),
        LinkType::Loop => Some(plain(network_of_family(four_at(frame, 0)), frame.split_at(4).1)),
    }
}

/// What a link carries that says no direction.
#[inline]
fn plain(network: Option<Network>, content: &[u8]) -> LinkContent<'_>
    ensures { linked result ≡ record { direction = Direction.Unknown; network = network; content = content.now } }
{
    LinkContent {
        direction: Direction::Unknown,
        network,
        content,
    }
}
