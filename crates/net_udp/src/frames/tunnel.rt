ghost use Rattle.std.specs.Prelude.{◌≡◌, ◌≤◌, true, length, Some, MatchOption};
ghost use Rattle.net_udp.specs.Frames.Link.{Linked};
ghost use Rattle.net_udp.specs.Frames.Extension.{Reached};
ghost use Rattle.net_udp.specs.Frames.Tunnel.{IsTunnel, network_in_ip, gre_size, has_number, is_gre_read, is_mirror, is_mirror_read, is_type_in_gre, mirror_size, IsInGre, IsInUdp, IsInside, IsMirrored, IsOfType, LeadsIn, IsCarried};
ghost use Rattle.net_udp.specs.Frames.Parts.{linked, reached};
ghost use Rattle.net_udp.specs.declared.frames.link.Network.{Network};

use crate::frames::extension::{UDP, Upper, is_opened};
use crate::frames::ip::{has_header, reach};
use crate::frames::link::{LinkContent, LinkType, Network, read_link, read_typed};
use crate::frames::number::{byte_at, pair_at};
use crate::frames::over_udp::{ETHERNET, over_udp_size, over_udp_type, payload_of};
use crate::frames::packet::Direction;

/// The number of GRE among the protocols of IP (RFC 2784).
const GRE: u8 = 47;

/// The type of ERSPAN, types I and II, in GRE.
const MIRROR: u16 = 0x88be;

/// What the packet carries with which bytes begin, where it is one of a tunnel.
#[inline]
fn tunnel_of(network: Network, bytes: &[u8]) -> Option<Upper<'_>>
    ensures { MatchOption result
        ((r : Reached) → IsTunnel network bytes.now r → ⊥)
        (λ found. IsTunnel network bytes.now (reached found)) }
{
    if !has_header(network, bytes) {
        return None;
    }
    let Some(upper) = reach(network, bytes) else {
        return None;
    };
    if is_opened(&upper) { Some(upper) } else { None }
}

/// The network of a packet in IP (RFC 2003; RFC 4213).
#[inline]
fn network_in_ip(protocol: u8) -> Option<Network>
    ensures { result ≡ network_in_ip protocol }
{
    match protocol {
        4 => Some(Network::Ipv4),
        41 => Some(Network::Ipv6),
        _ => None,
    }
}

/// How many bytes a header of GRE has (RFC 2784, section 2; RFC 2890, section 2).
#[inline]
fn gre_size(header: &[u8]) -> usize
    requires { 4 ≤ length header.now }
    ensures is { result ≡ gre_size header.now }
{
    let flags = usize::from(header[0]);
    4 + (flags / 128 + flags / 32 % 2 + flags / 16 % 2) * 4
}

/// Whether a header of GRE is read: the other flags and the version are 0 (RFC 2784, section 2.3).
#[inline]
fn is_gre_read(header: &[u8]) -> bool
    requires { 4 ≤ length header.now }
    ensures { result ≡ is_gre_read header.now }
{
    header[0] / 64 % 2 == 0 && header[0] / 4 % 4 == 0 && header[1] % 8 == 0
}

/// Whether what is of a type is read in GRE and in Geneve: IPv4, IPv6, Ethernet and MPLS.
#[inline]
fn is_type_in_gre(kind: u16) -> bool
    ensures { result ≡ is_type_in_gre kind }
{
    kind == 0x0800 || kind == 0x86dd || kind == 0x6558 || kind == 0x8847 || kind == 0x8848
}

/// Whether a type in GRE is that of ERSPAN.
#[inline]
fn is_mirror(kind: u16) -> bool
    ensures { result ≡ is_mirror kind }
{
    kind == MIRROR || kind == 0x22eb
}

/// Whether a header of GRE has a number (RFC 2890, section 2).
#[inline]
fn has_number(header: &[u8]) -> bool
    requires { 4 ≤ length header.now }
    ensures { result ≡ has_number header.now }
{
    header[0] / 16 % 2 == 1
}

/// How many bytes ERSPAN has before the frame.
#[inline]
fn mirror_size(kind: u16, is_counted: bool, bytes: &[u8]) -> usize
    ensures { result ≡ mirror_size kind is_counted bytes.now }
{
    if kind == MIRROR {
        return if is_counted { 8 } else { 0 };
    }
    if byte_at(bytes, 11) % 2 == 0 { 12 } else { 20 }
}

/// Whether ERSPAN is read: by its version, and of type III by the link of its frame.
#[inline]
fn is_mirror_read(kind: u16, is_counted: bool, bytes: &[u8]) -> bool
    ensures { result ≡ is_mirror_read kind is_counted bytes.now }
{
    if kind == MIRROR {
        return !is_counted || byte_at(bytes, 0) / 16 == 1;
    }
    byte_at(bytes, 0) / 16 == 2 && byte_at(bytes, 10) / 4 % 32 == 0
}

/// What stands in ERSPAN; none where it is cut or not read.
#[inline]
fn read_mirror(
    direction: Direction,
    kind: u16,
    is_counted: bool,
    bytes: &[u8],
) -> Option<LinkContent<'_>>
    requires { is_mirror kind ≡ true }
    ensures { MatchOption result
        ((c : Linked) → IsMirrored kind is_counted bytes.now c → ⊥)
        (λ found. IsMirrored kind is_counted bytes.now (linked found) × (found.direction ≡ direction)) }
{
    let size = mirror_size(kind, is_counted, bytes);
    if bytes.len() < size || !is_mirror_read(kind, is_counted, bytes) {
        return None;
    }
    read_typed(direction, ETHERNET, bytes.split_at(size).1)
}

/// What stands behind the header of GRE; none where it is cut or not read.
#[inline]
fn read_of_type(
    direction: Direction,
    kind: u16,
    is_counted: bool,
    bytes: &[u8],
) -> Option<LinkContent<'_>>
    ensures { MatchOption result
        ((c : Linked) → IsOfType kind is_counted bytes.now c → ⊥)
        (λ found. IsOfType kind is_counted bytes.now (linked found) × (found.direction ≡ direction)) }
{
    if is_mirror(kind) {
        return read_mirror(direction, kind, is_counted, bytes);
    }
    if is_type_in_gre(kind) {
        read_typed(direction, kind, bytes)
    } else {
        None
    }
}

/// What stands in GRE; none where it is cut or not read.
#[inline]
fn read_gre(direction: Direction, bytes: &[u8]) -> Option<LinkContent<'_>>
    ensures { MatchOption result
        ((c : Linked) → IsInGre bytes.now c → ⊥)
        (λ found. IsInGre bytes.now (linked found) × (found.direction ≡ direction)) }
{
    if bytes.len() < 4 || !is_gre_read(bytes) {
        return None;
    }
    let size = gre_size(bytes);
    if bytes.len() < size {
        return None;
    }
    read_of_type(
        direction,
        pair_at(bytes, 2),
        has_number(bytes),
        bytes.split_at(size).1,
    )
}

/// What stands in a tunnel over UDP; none where it is cut or not read.
#[inline]
fn read_over_udp(direction: Direction, bytes: &[u8]) -> Option<LinkContent<'_>>
    ensures { MatchOption result
        ((c : Linked) → IsInUdp bytes.now c → ⊥)
        (λ found. IsInUdp bytes.now (linked found) × (found.direction ≡ direction)) }
{
    if bytes.len() < 8 {
        return None;
    }
    let payload = payload_of(bytes);
    let size = over_udp_size(bytes, payload);
    if payload.len() < size {
        return None;
    }
    let kind = over_udp_type(bytes, payload);
    if !is_type_in_gre(kind) {
        return None;
    }
    read_typed(direction, kind, payload.split_at(size).1)
}

/// What stands in the packet of a tunnel; none where its header is cut or not read.
#[inline]
fn inside<'a>(direction: Direction, upper: Upper<'a>) -> Option<LinkContent<'a>>
    ensures { MatchOption result
        ((c : Linked) → IsInside (reached upper.entry) c → ⊥)
        (λ found. IsInside (reached upper.entry) (linked found) × (found.direction ≡ direction)) }
{
    if upper.protocol == GRE {
        return read_gre(direction, upper.content);
    }
    if upper.protocol == UDP {
        return read_over_udp(direction, upper.content);
    }
    Some(LinkContent {
        direction,
        network: network_in_ip(upper.protocol),
        content: upper.content,
    })
}

/// What the packet of a tunnel carries with which a link's content begins.
#[inline]
fn opened<'a>(carried: LinkContent<'a>) -> Option<Upper<'a>>
    ensures { MatchOption result
        ((network : Network) (r : Reached) → carried.entry.network ≡ Some network → IsTunnel network carried.entry.content.now r → ⊥)
        (λ found. (network : Network) × (carried.entry.network ≡ Some network) × IsTunnel network carried.entry.content.now (reached found)) }
{
    let Some(network) = carried.network else {
        return None;
    };
    tunnel_of(network, carried.content)
}

/// What stands in all tunnels, one in another; none where the header of one is cut or not read. Each is shorter than the one
/// around it.
#[inline]
fn open_tunnels(carried: LinkContent<'_>) -> Option<LinkContent<'_>>
    ensures { MatchOption result
        ((c : Linked) → LeadsIn (linked carried.entry) c → ⊥)
        (λ found. LeadsIn (linked carried.entry) (linked found)) }
{
    let mut inner = carried;
    'tunnels: while let Some(upper) = opened(inner) {
        let Some(next) = inside(inner.direction, upper) else {
            return None;
        };
        inner = next;
    }
    Some(inner)
}

/// What a frame of a link carries, over all tunnels; none where it ends before, or is not read.
#[inline]
pub fn read_carried(link: LinkType, frame: &[u8]) -> Option<LinkContent<'_>>
    ensures { MatchOption result
        ((c : Linked) → IsCarried link frame.now c → ⊥)
        (λ found. IsCarried link frame.now (linked found)) }
{
    let Some(outer) = read_link(link, frame) else {
        return None;
    };
    open_tunnels(outer)
}
