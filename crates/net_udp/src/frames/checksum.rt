ghost use Rattle.std.specs.Prelude.{◌≡◌, ◌≤◌, ◌+◌, ◌*◌, ◌%◌, ℕ, List, IfSome, MatchOption, length, slice_index, take};
ghost use Rattle.std.specs.declared.net.ip_addr.IpAddr.{IpAddr as Host};
ghost use Rattle.net_udp.specs.Frames.Checksums.{address_bytes, checksum_of, headed_wrong, in_ones_complement, is_headed_right, is_left, is_right, is_unsummed, none_made, pseudo_sum, udp_checksum, udp_sum, verdict, word_sum};
ghost use Rattle.net_udp.specs.Frames.Number.{pair};
ghost use Rattle.net_udp.specs.Frames.Parts.{shown};
ghost use Rattle.net_udp.specs.Frames.UdpDatagrams.{HasUdp, IsSized};

use crate::frames::number::pair_at;
use crate::frames::packet::IpPacket;
use crate::frames::udp::udp_bytes;
use std::net::IpAddr;

/// What the checksums of a datagram and of its packet say.
#[derive(Clone, Copy, Debug, PartialEq, Eq)]
pub enum Checksum {
    /// Its sender made none over UDP, and that of the IPv4 header is right.
    Absent,
    /// All are right.
    Right,
    /// One was left to the sender's network card, which makes it after the recording: that of UDP is the sum of the pseudo
    /// header alone, not complemented, or the one of the IPv4 header is 0 where another would be right.
    Partial,
    /// One is wrong: a host discards the packet (RFC 1122, sections 3.2.1.2 and 4.1.3.4). A recording that was made at the
    /// sender may have anything in the place of what its network card makes.
    Wrong,
}

impl IpPacket<'_> {
    /// What the checksums of the datagram say that the content is, which begins with a header of the number `protocol`; of a
    /// packet in fragments the content of all, and the IPv4 header of this one. Where the content is no datagram it is Absent.
    /// A packet that is routed by its source names another target than the checksum has: it is taken for wrong.
    pub fn checksum(&self, protocol: u8, content: &[u8]) -> Checksum
        ensures { (bytes : List ℕ) → HasUdp protocol content.now bytes → IsSized bytes → result ≡ checksum_of (shown self.now) (take (pair bytes 4) bytes) }
    {
        let Some(bytes) = udp_bytes(protocol, content) else {
            return Checksum::Absent;
        };
        let Some(udp) = sized(bytes) else {
            return Checksum::Absent;
        };
        if is_headed_right(self.source, self.packet) {
            return udp_checksum(self.source, self.target, udp);
        }
        self.headed_wrong(udp)
    }

    /// What the checksums say where that of the IPv4 header is not right.
    fn headed_wrong(&self, udp: &[u8]) -> Checksum
        requires enough { 8 ≤ length udp.now }
        requires few { length udp.now ≤ 65535 }
        ensures { result ≡ headed_wrong (shown self.now) udp.now }
    {
        if is_unsummed(self.packet) || is_left(self.source, self.target, udp) {
            Checksum::Partial
        } else {
            Checksum::Wrong
        }
    }
}

/// As many bytes of UDP as the length says; none where it says too few or too many.
#[inline]
fn sized(bytes: &[u8]) -> Option<&[u8]>
    ensures sized { MatchOption result (IsSized bytes.now → ⊥) (λ found. found.now ≡ take (pair bytes.now 4) bytes.now) }
    ensures bounds { IfSome result (λ found. (8 ≤ length found.now) × (length found.now ≤ 65535)) }
{
    if bytes.len() < 8 {
        return None;
    }
    let length = usize::from(pair_at(bytes, 4));
    if length < 8 || bytes.len() < length {
        return None;
    }
    Some(bytes.split_at(length).0)
}

/// Whether the checksum of the IP header is right, or it has none.
fn is_headed_right(source: IpAddr, packet: &[u8]) -> bool
    ensures { result ≡ is_headed_right source packet.now }
{
    match source {
        IpAddr::V4(_) => is_right(word_sum(header_of(packet))),
        IpAddr::V6(_) => true,
    }
}

/// Whether the checksum of an IPv4 packet's header is 0.
#[inline]
fn is_unsummed(packet: &[u8]) -> bool
    ensures { result ≡ is_unsummed packet.now }
{
    packet.len() >= 12 && pair_at(packet, 10) == 0
}

/// The header of an IPv4 packet.
#[inline]
fn header_of(packet: &[u8]) -> &[u8]
    ensures is { result.now ≡ take (4 * (slice_index packet.now 0 % 16)) packet.now }
    ensures short { length result.now ≤ 60 }
{
    let Some(first) = packet.first() else {
        return packet;
    };
    let size = usize::from(*first % 16) * 4;
    packet.split_at(size.min(packet.len())).0
}

/// What the checksum of a datagram says, from its header on.
fn udp_checksum(source: IpAddr, target: IpAddr, udp: &[u8]) -> Checksum
    requires enough { 8 ≤ length udp.now }
    requires few { length udp.now ≤ 65535 }
    ensures { result ≡ udp_checksum source target udp.now }
{
    if pair_at(udp, 6) == 0 {
        return none_made(source);
    }
    let sum = pseudo_sum(source, target, udp) + word_sum(udp);
    verdict(is_right(sum), is_left(source, target, udp))
}

/// The sum of the pseudo header of a datagram.
#[inline]
fn pseudo_sum(source: IpAddr, target: IpAddr, udp: &[u8]) -> u64
    requires { length udp.now ≤ 65535 }
    ensures sum { result ≡ pseudo_sum source target udp.now }
    ensures few { result ≤ 8590000142 }
{
    address_sum(source) + address_sum(target) + 17 + udp.len() as u64
}

/// Whether the checksum of a datagram is the sum of its pseudo header alone, which its sender left to its network card.
#[inline]
fn is_left(source: IpAddr, target: IpAddr, udp: &[u8]) -> bool
    requires enough { 8 ≤ length udp.now }
    requires few { length udp.now ≤ 65535 }
    ensures { result ≡ is_left source target udp.now }
{
    u64::from(pair_at(udp, 6)) == in_ones_complement(pseudo_sum(source, target, udp))
}

/// What a checksum of 0 says.
#[inline]
fn none_made(source: IpAddr) -> Checksum
    ensures { result ≡ none_made source }
{
    match source {
        IpAddr::V4(_) => Checksum::Absent,
        IpAddr::V6(_) => Checksum::Wrong,
    }
}

/// What a checksum says that is not 0.
#[inline]
fn verdict(is_right: bool, is_left: bool) -> Checksum
    ensures { result ≡ verdict is_right is_left }
{
    match (is_right, is_left) {
        (true, _) => Checksum::Right,
        (false, true) => Checksum::Partial,
        (false, false) => Checksum::Wrong,
    }
}

/// Whether a sum of words is all bits 1 in ones' complement.
#[inline]
fn is_right(sum: u64) -> bool
    ensures { result ≡ is_right sum }
{
    sum != 0 && sum % 0xffff == 0
}

/// A sum of words in ones' complement.
#[inline]
fn in_ones_complement(sum: u64) -> u64
    ensures { result ≡ in_ones_complement sum }
{
    if sum == 0 {
        return 0;
    }
    match sum % 0xffff {
        0 => 0xffff,
        rest => rest,
    }
}

/// The sum of an address's words.
#[inline]
fn address_sum(address: IpAddr) -> u64
    ensures sum { result ≡ word_sum (address_bytes address) }
    ensures few { result ≤ 4294967295 }
{
    match address {
        IpAddr::V4(address) => word_sum(&address.octets()),
        IpAddr::V6(address) => word_sum(&address.octets()),
    }
}

/// The sum of words of 16 bits, eight bytes at a time.
fn word_sum(bytes: &[u8]) -> u64
    requires { length bytes.now ≤ 65535 }
    ensures sum { result ≡ word_sum bytes.now }
    ensures few { result ≤ 65535 * length bytes.now }
{
    let mut rest = bytes;
    let mut sum: u64 = 0;
    'words: loop {
        match rest {
            [a, b, c, d, e, f, g, h, after @ ..] => {
                sum = sum + word(*a, *b) + word(*c, *d) + word(*e, *f) + word(*g, *h);
                rest = after;
            }
            [high, low, after @ ..] => {
                sum += word(*high, *low);
                rest = after;
            }
            [last] => return sum + word(*last, 0),
            [] => return sum,
        }
    }
}

/// A word of two bytes.
#[inline]
fn word(high: u8, low: u8) -> u64
    ensures { result ≡ 256 * high + low }
{
    u64::from(u16::from_be_bytes([high, low]))
}
