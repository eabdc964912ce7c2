ghost use Rattle.std.specs.Prelude.{◌≡◌, ◌≤◌, length, MatchOption};
ghost use Rattle.net_udp.specs.Frames.Link.{least};
ghost use Rattle.net_udp.specs.Frames.Unread.{HasUnread, IsSealed, IsSealedIn, IsUnreadInIp, IsUnreadInside, IsUnreadOver, UnreadInIpv4, header_name, hidden_by, hidden_part, routed_on, sealed_by, type_in, unread_by};
ghost use Rattle.net_udp.specs.declared.frames.unread.UnreadHeader.{UnreadHeader as Header};

use crate::frames::extension::{AUTHENTICATION, FRAGMENT, ROUTING, is_whole, skipped_length};
use crate::frames::ip::{has_header, held, part};
use crate::frames::link::{LinkType, Network, least_length, link_type};
use crate::frames::number::pair_at;
use crate::frames::tag::passed;
use crate::frames::tunnel::read_carried;

/// A header behind which a datagram may stand, and that is not read.
#[derive(Clone, Copy, Debug, PartialEq, Eq)]
pub enum UnreadHeader {
    /// MACsec, whose frames may be enciphered (IEEE 802.1AE).
    MacSec,
    /// That of a provider's backbone (IEEE 802.1ah).
    Backbone,
    /// The tag of a port extender (IEEE 802.1BR).
    PortExtension,
    /// TRILL (RFC 6325).
    Trill,
    /// NSH (RFC 8300).
    ServiceHeader,
    /// The tag of one of Marvell's switches, as Linux has it.
    SwitchTag,
    /// ESP, which enciphers what it carries (RFC 4303).
    Esp,
    /// Minimal encapsulation in IP (RFC 2004).
    MinimalEncapsulation,
    /// A frame of Ethernet in IP (RFC 3378; RFC 8986).
    EthernetInIp,
    /// IPComp, which compresses what it carries (RFC 3173).
    IpComp,
    /// L2TP in IP (RFC 3931).
    L2tp,
    /// MPLS in IP (RFC 4023).
    LabelsInIp,
    /// A mobility header of IPv6 (RFC 6275).
    Mobility,
    /// That of the Host Identity Protocol (RFC 7401).
    HostIdentity,
    /// Shim6 (RFC 5533).
    Shim6,
    /// A routing header of IPv6 with segments left, whose packet is not where it goes (RFC 8200, section 4.4).
    Routing,
}

impl UnreadHeader {
    /// Its name as it is told, and the standard that has it.
    pub fn name(self) -> &'static str
        ensures { result.now ≡ header_name self }
    {
        match self {
            UnreadHeader::MacSec => "MACsec (IEEE 802.1AE)",
            UnreadHeader::Backbone => "IEEE 802.1ah",
            UnreadHeader::PortExtension => "IEEE 802.1BR",
            UnreadHeader::Trill => "TRILL (RFC 6325)",
            UnreadHeader::ServiceHeader => "NSH (RFC 8300)",
            UnreadHeader::SwitchTag => "a tag of Marvell's switches",
            UnreadHeader::Esp => "ESP (RFC 4303)",
            UnreadHeader::MinimalEncapsulation => "minimal encapsulation (RFC 2004)",
            UnreadHeader::EthernetInIp => "Ethernet in IP (RFC 3378, RFC 8986)",
            UnreadHeader::IpComp => "IPComp (RFC 3173)",
            UnreadHeader::L2tp => "L2TP (RFC 3931)",
            UnreadHeader::LabelsInIp => "MPLS in IP (RFC 4023)",
            UnreadHeader::Mobility => "a mobility header (RFC 6275)",
            UnreadHeader::HostIdentity => "HIP (RFC 7401)",
            UnreadHeader::Shim6 => "Shim6 (RFC 5533)",
            UnreadHeader::Routing => "a routing header with segments left (RFC 8200)",
        }
    }
}

/// The header of a type behind which nothing is read; none of any other type.
#[inline]
fn sealed_by(kind: u16) -> Option<UnreadHeader>
    ensures { result ≡ sealed_by kind }
{
    match kind {
        0x88e5 => Some(UnreadHeader::MacSec),
        0x88e7 => Some(UnreadHeader::Backbone),
        0x893f => Some(UnreadHeader::PortExtension),
        0x22f3 => Some(UnreadHeader::Trill),
        0x894f => Some(UnreadHeader::ServiceHeader),
        0xdada => Some(UnreadHeader::SwitchTag),
        _ => None,
    }
}

/// The header that is not read to which a type leads, over all that is read.
#[inline]
fn sealed_behind(kind: u16, after: &[u8]) -> Option<UnreadHeader>
    ensures { MatchOption result
        ((u : Header) → IsSealed kind after.now u → ⊥)
        (λ u. IsSealed kind after.now u) }
{
    let mut next = kind;
    let mut rest = after;
    'tags: while let Some((named, behind)) = passed(next, rest) {
        next = named;
        rest = behind;
    }
    sealed_by(next)
}

/// The type in a link's header; none where it has none.
#[inline]
fn type_in(link: LinkType, frame: &[u8]) -> Option<u16>
    requires { least link ≤ length frame.now }
    ensures { result ≡ type_in link frame.now }
{
    match link {
        LinkType::Ethernet => Some(pair_at(frame, 12)),
        LinkType::Cooked => Some(pair_at(frame, 14)),
        LinkType::CookedTwo => Some(pair_at(frame, 0)),
        _ => None,
    }
}

/// The header that is not read on the frame's own link.
#[inline]
fn sealed_in(link: LinkType, frame: &[u8]) -> Option<UnreadHeader>
    ensures { MatchOption result
        ((u : Header) → IsSealedIn link frame.now u → ⊥)
        (λ u. IsSealedIn link frame.now u) }
{
    let size = least_length(link);
    if frame.len() < size {
        return None;
    }
    let Some(kind) = type_in(link, frame) else {
        return None;
    };
    sealed_behind(kind, frame.split_at(size).1)
}

/// The header of a protocol of IP that hides the rest; none of any other protocol.
#[inline]
fn hidden_by(protocol: u8) -> Option<UnreadHeader>
    ensures { result ≡ hidden_by protocol }
{
    match protocol {
        50 => Some(UnreadHeader::Esp),
        55 => Some(UnreadHeader::MinimalEncapsulation),
        97 | 143 => Some(UnreadHeader::EthernetInIp),
        108 => Some(UnreadHeader::IpComp),
        115 => Some(UnreadHeader::L2tp),
        137 => Some(UnreadHeader::LabelsInIp),
        _ => None,
    }
}

/// A routing header that leads on to another host.
#[inline]
fn routed_on(bytes: &[u8]) -> Option<UnreadHeader>
    ensures { result ≡ routed_on bytes.now }
{
    if bytes.len() > 7 && bytes[3] > 0 {
        Some(UnreadHeader::Routing)
    } else {
        None
    }
}

/// What hides the content of a fragment's packet, as the fragment's header names it.
#[inline]
fn hidden_part(bytes: &[u8]) -> Option<UnreadHeader>
    ensures { result ≡ hidden_part bytes.now }
{
    if bytes.len() > 7 && !is_whole(bytes) {
        hidden_by(bytes[0])
    } else {
        None
    }
}

/// The header with which bytes begin, by its number, if it is one that is not read.
#[inline]
fn unread_by(next: u8, bytes: &[u8]) -> Option<UnreadHeader>
    ensures { result ≡ unread_by next bytes.now }
{
    if next == ROUTING {
        return routed_on(bytes);
    }
    if next == FRAGMENT {
        return hidden_part(bytes);
    }
    match next {
        135 => Some(UnreadHeader::Mobility),
        139 => Some(UnreadHeader::HostIdentity),
        140 => Some(UnreadHeader::Shim6),
        _ => hidden_by(next),
    }
}

/// The header that is not read, over all that are skipped.
#[inline]
fn unread_over(next: u8, bytes: &[u8]) -> Option<UnreadHeader>
    ensures { MatchOption result
        ((u : Header) → IsUnreadOver next bytes.now u → ⊥)
        (λ u. IsUnreadOver next bytes.now u) }
{
    let mut kind = next;
    let mut rest = bytes;
    'headers: while let Some(size) = skipped_length(kind, rest) {
        kind = rest[0];
        rest = rest.split_at(size).1;
    }
    unread_by(kind, rest)
}

/// The header that is not read in a packet of IPv4, of that content.
#[inline]
fn unread_in_ipv4(bytes: &[u8], content: &[u8]) -> Option<UnreadHeader>
    requires { 20 ≤ length bytes.now }
    ensures { MatchOption result
        ((u : Header) → UnreadInIpv4 bytes.now content.now u → ⊥)
        (λ u. UnreadInIpv4 bytes.now content.now u) }
{
    if bytes[9] != AUTHENTICATION {
        return hidden_by(bytes[9]);
    }
    if part(bytes).is_some() {
        return None;
    }
    unread_over(AUTHENTICATION, content)
}

/// The header that is not read in the packet of IP with which bytes begin.
#[inline]
fn unread_in(network: Network, bytes: &[u8]) -> Option<UnreadHeader>
    ensures { MatchOption result
        ((u : Header) → IsUnreadInIp network bytes.now u → ⊥)
        (λ u. IsUnreadInIp network bytes.now u) }
{
    if !has_header(network, bytes) {
        return None;
    }
    let content = held(network, bytes);
    match network {
        Network::Ipv4 => unread_in_ipv4(bytes, content),
        Network::Ipv6 => unread_over(bytes[6], content),
    }
}

/// The header that is not read in the innermost packet of IP that a frame carries.
#[inline]
fn unread_inside(link: LinkType, frame: &[u8]) -> Option<UnreadHeader>
    ensures { MatchOption result
        ((u : Header) → IsUnreadInside link frame.now u → ⊥)
        (λ u. IsUnreadInside link frame.now u) }
{
    let Some(carried) = read_carried(link, frame) else {
        return None;
    };
    let Some(network) = carried.network else {
        return None;
    };
    unread_in(network, carried.content)
}

/// The header at which the reading of a frame ends, though a datagram may stand behind it: one on the frame's own link, or in the
/// innermost packet of IP that it carries. None where it ends for another reason: the frame is cut, what PPP, GRE or a tunnel over UDP
/// carries is not read, or what is not read stands on the link of a frame in a tunnel. How long the packet is makes no difference.
pub fn unread_header(link_number: u32, frame: &[u8]) -> Option<UnreadHeader>
    ensures { MatchOption result
        ((u : Header) → HasUnread link_number frame.now u → ⊥)
        (λ u. HasUnread link_number frame.now u) }
{
    let Some(link) = link_type(link_number) else {
        return None;
    };
    match sealed_in(link, frame) {
        Some(header) => Some(header),
        None => unread_inside(link, frame),
    }
}
