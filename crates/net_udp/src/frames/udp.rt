ghost use Rattle.std.specs.Prelude.{◌≡◌, ◌↔◌, ◌≤◌, IfOk, IsOkAnd, ℕ, List, MatchOption, length};
ghost use Rattle.net_udp.specs.Frames.UdpDatagrams.{Udp, IsSound, SpellsUdp, HasUdp, HoldsUdp, JudgesUdp, datagram};
ghost use Rattle.net_udp.specs.declared.frames.fault.UdpFault.{UdpFault};

use crate::frames::extension::{UDP, is_hidden_in, skip_extensions};
use crate::frames::fault::UdpFault;
use crate::frames::number::pair_at;
use crate::frames::over_udp::is_over_udp;
use crate::frames::packet::UdpDatagram;

/// The UDP datagram that the content of a whole packet is (RFC 768). The content begins with a header of the number
/// `protocol`: 17, or that of an extension header, which a packet of IPv6 in fragments may begin with. The checksum is not
/// looked at.
pub fn read_udp(protocol: u8, content: &[u8]) -> Result<UdpDatagram<'_>, UdpFault>
    ensures found { IfOk result (λ d. SpellsUdp protocol content.now (datagram d)) }
    ensures only { (d : Udp) → SpellsUdp protocol content.now d → IsOkAnd result (λ found. datagram found ≡ d) }
    ensures fault { (f : UdpFault) → (result ≡ Err f) ↔ HoldsUdp f protocol content.now }
    ensures sound { IfOk result (λ d. IsSound (datagram d)) }
{
    judge_udp(protocol, content)
}

/// The bytes of UDP in a content; none where it has none, or these are of a tunnel.
#[inline]
pub(crate) fn udp_bytes(protocol: u8, content: &[u8]) -> Option<&[u8]>
    ensures { MatchOption result
        ((bytes : List ℕ) → HasUdp protocol content.now bytes → ⊥)
        (λ found. HasUdp protocol content.now found.now) }
{
    let Some(upper) = skip_extensions(protocol, content) else {
        return None;
    };
    if upper.protocol == UDP && upper.fragment.is_none() && !is_over_udp(upper.content) {
        Some(upper.content)
    } else {
        None
    }
}

/// Why a content has no bytes of UDP.
#[inline]
fn unread(protocol: u8, content: &[u8]) -> UdpFault
    requires { (bytes : List ℕ) → HasUdp protocol content.now bytes → ⊥ }
    ensures { HoldsUdp result protocol content.now }
{
    let Some(upper) = skip_extensions(protocol, content) else {
        return UdpFault::Extension;
    };
    if is_hidden_in(&upper) {
        UdpFault::Extension
    } else {
        UdpFault::Protocol
    }
}

/// The datagram, or the fault.
#[inline]
fn judge_udp(protocol: u8, content: &[u8]) -> Result<UdpDatagram<'_>, UdpFault>
    ensures judges { JudgesUdp protocol content.now result }
    ensures sound { IfOk result (λ d. IsSound (datagram d)) }
{
    let Some(bytes) = udp_bytes(protocol, content) else {
        return Err(unread(protocol, content));
    };
    if bytes.len() < 8 {
        return Err(UdpFault::Header);
    }
    let length = usize::from(pair_at(bytes, 4));
    if length < 8 || bytes.len() < length {
        return Err(UdpFault::Length);
    }
    let source_port = pair_at(bytes, 0);
    let target_port = pair_at(bytes, 2);
    if source_port == 0 || target_port == 0 {
        return Err(UdpFault::Port);
    }
    let payload = bytes.split_at(8).1.split_at(length - 8).0;
    Ok(datagram_of(source_port, target_port, payload))
}

/// The datagram of these ports, of which none is 0.
#[inline]
fn datagram_of(source_port: u16, target_port: u16, payload: &[u8]) -> UdpDatagram<'_>
    requires source { 1 ≤ source_port }
    requires target { 1 ≤ target_port }
    requires fits { length payload.now ≤ 65527 }
    ensures is { datagram result ≡ record { source_port = source_port; target_port = target_port; payload = payload.now } }
    ensures sound { IsSound (datagram result) }
{
    UdpDatagram {
        source_port,
        target_port,
        payload,
    }
}
