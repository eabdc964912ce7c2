ghost use Rattle.std.specs.Prelude.{◌≡◌, ◌≢◌, ◌≤◌, length, ◌↔◌, IsTrue, MatchOption};
ghost use Rattle.net_udp.specs.Frames.Extension.{Reached, ReachesOver, is_tunnel, is_hiding, is_wrapping, is_extension, is_of_units, is_read_part, is_skippable, is_atomic, is_opened, is_first, begins_over_udp, is_hidden_in, leads_on, IsSkipped, skipped_size, fragment_of, fragment_header};
ghost use Rattle.net_udp.specs.Frames.Parts.{reached};

use crate::frames::number::{four_at, pair_at};
use crate::frames::over_udp::{is_over_udp, is_tunnel_port};
use crate::frames::packet::Fragment;

/// The number of UDP among the protocols of IP.
pub const UDP: u8 = 17;

/// The number of a fragment header of IPv6 (RFC 8200, section 4.5).
pub const FRAGMENT: u8 = 44;

/// The number of a routing header of IPv6 (RFC 8200, section 4.4).
pub const ROUTING: u8 = 43;

/// The number of an authentication header (RFC 4302).
pub const AUTHENTICATION: u8 = 51;

/// What a packet carries after its headers.
#[derive(Clone, Copy, Debug)]
pub struct Upper<'a> {
    /// With what the content begins: the number of a protocol, in a fragment perhaps of an extension header.
    pub protocol: u8,
    /// None where the packet is whole.
    pub fragment: Option<Fragment>,
    /// The bytes that it has.
    pub content: &'a [u8],
}

/// Whether a protocol is that of a tunnel: IPv4 in IP (RFC 2003), IPv6 in IP (RFC 4213; RFC 2473) or GRE (RFC 2784).
#[inline]
pub fn is_tunnel(protocol: u8) -> bool
    ensures { result ≡ is_tunnel protocol }
{
    protocol == 4 || protocol == 41 || protocol == 47
}

/// Whether a protocol hides what it carries: ESP (RFC 4303), minimal encapsulation (RFC 2004), Ethernet in IP (RFC 3378; RFC 8986),
/// IPComp (RFC 3173), L2TP (RFC 3931) and MPLS in IP (RFC 4023).
#[inline]
fn is_hiding(protocol: u8) -> bool
    ensures { result ≡ is_hiding protocol }
{
    protocol == 50
        || protocol == 55
        || protocol == 97
        || protocol == 108
        || protocol == 115
        || protocol == 137
        || protocol == 143
}

/// Whether a protocol may hold another packet.
#[inline]
pub fn is_wrapping(protocol: u8) -> bool
    ensures { result ≡ is_wrapping protocol }
{
    is_tunnel(protocol) || is_hiding(protocol) || protocol == AUTHENTICATION
}

/// Whether a header is an extension header other than a fragment header: hop-by-hop options, routing, destination options (RFC 8200, section 4), authentication (RFC 4302), mobility (RFC 6275), host
/// identity (RFC 7401) and shim6 (RFC 5533); or one that hides the rest.
#[inline]
fn is_extension_header(next: u8) -> bool
    ensures { result ≡ is_extension next }
{
    (next == 0
        || next == ROUTING
        || next == 60
        || next == AUTHENTICATION
        || next == 135
        || next == 139
        || next == 140)
        || is_hiding(next)
}

/// Whether an extension header is skipped by its length: one of options, of authentication, or a routing header with no segments
/// left, whose packet has come to its last host (RFC 8200, section 4.4).
#[inline]
fn is_skippable(next: u8, header: &[u8]) -> bool
    requires { 8 ≤ length header.now }
    ensures { result ≡ is_skippable next header.now }
{
    (next == 0 || next == 60)
        || ((next == AUTHENTICATION && header[1] > 0) || (next == ROUTING && header[3] == 0))
}

/// Whether a fragment header is that of a packet which is whole (RFC 6946).
#[inline]
pub fn is_whole(header: &[u8]) -> bool
    requires { 8 ≤ length header.now }
    ensures { result ≡ is_atomic header.now }
{
    let field = pair_at(header, 2);
    field / 8 == 0 && field % 2 == 0
}

/// Whether a fragment, from its header on, is one that none follows, or is of whole units of 8 bytes (RFC 8200, section 4.5).
#[inline]
fn is_of_units(bytes: &[u8]) -> bool
    requires { 8 ≤ length bytes.now }
    ensures { result ≡ is_of_units bytes.now }
{
    pair_at(bytes, 2) % 2 == 0 || bytes.len() % 8 == 0
}

/// Whether a fragment, from its header on, is one that is read: not one of what may hold another packet.
#[inline]
fn is_read_part(bytes: &[u8]) -> bool
    requires { 8 ≤ length bytes.now }
    ensures { result ≡ is_read_part bytes.now }
{
    is_of_units(bytes) && !is_wrapping(bytes[0])
}

/// How many bytes a header has that is none of a fragment (RFC 8200, section 4; RFC 4302, section 2.2).
#[inline]
fn header_size(next: u8, header: &[u8]) -> usize
    requires long { 8 ≤ length header.now }
    requires other { next ≢ fragment_header }
    ensures is { result ≡ skipped_size next header.now }
    ensures some { 8 ≤ result }
{
    if next == AUTHENTICATION {
        (usize::from(header[1]) + 2) * 4
    } else {
        (usize::from(header[1]) + 1) * 8
    }
}

/// The length of the header that is skipped; none where none is, or not all its bytes are there.
#[inline]
pub fn skipped_length(next: u8, bytes: &[u8]) -> Option<usize>
    ensures { MatchOption result (IsSkipped next bytes.now → ⊥) (λ size. IsSkipped next bytes.now × (size ≡ skipped_size next bytes.now)) }
{
    if bytes.len() < 8 {
        return None;
    }
    if next == FRAGMENT {
        return if is_whole(bytes) { Some(8) } else { None };
    }
    let size = header_size(next, bytes);
    if is_skippable(next, bytes) && size <= bytes.len() {
        Some(size)
    } else {
        None
    }
}

/// What stands after the headers that are skipped, where no header is cut, and none stands there that is not read, nor one of a
/// fragment that is not.
#[inline]
pub fn skip_extensions(next: u8, bytes: &[u8]) -> Option<Upper<'_>>
    ensures { MatchOption result
        ((r : Reached) → ReachesOver next bytes.now r → ⊥)
        (λ found. ReachesOver next bytes.now (reached found)) }
{
    let mut kind = next;
    let mut rest = bytes;
    'headers: while let Some(size) = skipped_length(kind, rest) {
        kind = rest[0];
        rest = rest.split_at(size).1;
    }
    if kind != FRAGMENT {
        return if is_extension_header(kind) {
            None
        } else {
            Some(Upper {
                protocol: kind,
                fragment: None,
                content: rest,
            })
        };
    }
    if rest.len() < 8 {
        return None;
    }
    if !is_read_part(rest) {
        return None;
    }
    Some(Upper {
        protocol: rest[0],
        fragment: Some(read_fragment(rest)),
        content: rest.split_at(8).1,
    })
}

/// Whether what is reached is a tunnel: of IP, or over UDP, whose datagram is whole.
#[inline]
pub fn is_opened(upper: &Upper<'_>) -> bool
    ensures { result ≡ is_opened (reached upper.now) }
{
    is_tunnel(upper.protocol)
        || (upper.protocol == UDP && !upper.fragment.is_some() && is_over_udp(upper.content))
}

/// Whether what is reached is a fragment or a tunnel.
#[inline]
pub fn is_hidden_in(upper: &Upper<'_>) -> bool
    ensures { result ≡ is_hidden_in (reached upper.now) }
{
    upper.fragment.is_some() || is_opened(upper)
}

/// Whether a fragment is the first one of its packet.
#[inline]
fn is_first(fragment: Option<Fragment>) -> bool
    ensures { result ≡ is_first fragment }
{
    match fragment {
        Some(part) => part.place == 0,
        None => false,
    }
}

/// Whether what is reached is the first fragment of a datagram to the port of a tunnel over UDP.
#[inline]
fn begins_over_udp(upper: &Upper<'_>) -> bool
    ensures { result ≡ begins_over_udp (reached upper.now) }
{
    if upper.protocol != UDP || !is_first(upper.fragment) {
        return false;
    }
    upper.content.len() > 3 && is_tunnel_port(pair_at(upper.content, 2))
}

/// Whether what is reached is a fragment that begins with a header over which another packet may stand.
#[inline]
pub fn leads_on(upper: &Upper<'_>) -> bool
    ensures { result ≡ leads_on (reached upper.now) }
{
    (upper.fragment.is_some() && is_extension_header(upper.protocol)) || begins_over_udp(upper)
}

/// What a fragment header of IPv6 says (RFC 8200, section 4.5).
#[inline]
fn read_fragment(header: &[u8]) -> Fragment
    requires { 8 ≤ length header.now }
    ensures { result ≡ fragment_of header.now }
{
    let field = pair_at(header, 2);
    Fragment {
        id: four_at(header, 4),
        place: u32::from(field / 8) * 8,
        more: field % 2 == 1,
    }
}
