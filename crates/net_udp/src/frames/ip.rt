ghost use Rattle.std.specs.Prelude.{◌≡◌, ◌+◌, ◌≤◌, length, ◌↔◌, IsTrue, MatchOption, MatchResult};
ghost use Rattle.net_udp.specs.Frames.Extension.{Reached};
ghost use Rattle.net_udp.specs.Frames.Ip.{HasHeader, size_of, total_of, source_of, target_of, identification_of, ipv4_address, ipv6_address, part_of, held_of, Reaches, ReachesInIpv4, TellsHosts, may_be_udp, IsWhole};
ghost use Rattle.net_udp.specs.Frames.Faults.{JudgesIp, IsNotWhole};
ghost use Rattle.net_udp.specs.Frames.Parts.{reached};

use crate::frames::extension::{UDP, Upper, is_wrapping, leads_on, skip_extensions};
use crate::frames::fault::FrameFault;
use crate::frames::link::Network;
use crate::frames::number::pair_at;
use crate::frames::packet::{Direction, Fragment, IpPacket};
use std::net::{IpAddr, Ipv4Addr, Ipv6Addr};

/// Whether bytes begin with a whole header.
#[inline]
pub fn has_header(network: Network, bytes: &[u8]) -> bool
    ensures { IsTrue result ↔ HasHeader network bytes.now }
{
    match network {
        Network::Ipv4 => {
            bytes.len() >= 20
                && bytes[0] / 16 == 4
                && bytes[0] % 16 >= 5
                && bytes.len() >= usize::from(bytes[0] % 16) * 4
        }
        Network::Ipv6 => bytes.len() >= 40 && bytes[0] / 16 == 6,
    }
}

/// How many bytes the header has, without extension headers.
#[inline]
fn header_length(network: Network, bytes: &[u8]) -> usize
    requires { HasHeader network bytes.now }
    ensures { result ≡ size_of network bytes.now }
{
    match network {
        Network::Ipv4 => usize::from(bytes[0] % 16) * 4,
        Network::Ipv6 => 40,
    }
}

/// How many bytes the packet has, by its header.
#[inline]
fn total_length(network: Network, bytes: &[u8]) -> usize
    requires { HasHeader network bytes.now }
    ensures { result ≡ total_of network bytes.now }
{
    match network {
        Network::Ipv4 => usize::from(pair_at(bytes, 2)),
        Network::Ipv6 => usize::from(pair_at(bytes, 4)) + 40,
    }
}

/// An IPv4 address that stands at a place.
#[inline]
fn ipv4_at(bytes: &[u8], place: usize) -> IpAddr
    requires { place + 4 ≤ length bytes.now }
    ensures { result ≡ ipv4_address bytes.now place }
{
    IpAddr::V4(Ipv4Addr::new(
        bytes[place],
        bytes[place + 1],
        bytes[place + 2],
        bytes[place + 3],
    ))
}

/// An IPv6 address that stands at a place.
#[inline]
fn ipv6_at(bytes: &[u8], place: usize) -> IpAddr
    requires { place + 16 ≤ length bytes.now }
    ensures { result ≡ ipv6_address bytes.now place }
{
    IpAddr::V6(Ipv6Addr::new(
        pair_at(bytes, place),
        pair_at(bytes, place + 2),
        pair_at(bytes, place + 4),
        pair_at(bytes, place + 6),
        pair_at(bytes, place + 8),
        pair_at(bytes, place + 10),
        pair_at(bytes, place + 12),
        pair_at(bytes, place + 14),
    ))
}

/// The host that sent a packet, and the one to which it went.
#[inline]
pub fn hosts(network: Network, bytes: &[u8]) -> (IpAddr, IpAddr)
    requires { HasHeader network bytes.now }
    ensures { result ≡ (source_of network bytes.now, target_of network bytes.now) }
{
    match network {
        Network::Ipv4 => (ipv4_at(bytes, 12), ipv4_at(bytes, 16)),
        Network::Ipv6 => (ipv6_at(bytes, 8), ipv6_at(bytes, 24)),
    }
}

/// The hosts that the header with which bytes begin names, if it is whole, and what stands over its extension headers is reached.
pub fn hosts_of(network: Network, bytes: &[u8]) -> Option<(IpAddr, IpAddr)>
    ensures { MatchOption result
        (TellsHosts network bytes.now → ⊥)
        (λ hosts. TellsHosts network bytes.now × (hosts ≡ (source_of network bytes.now, target_of network bytes.now))) }
{
    if !has_header(network, bytes) {
        return None;
    }
    let Some(upper) = reach(network, bytes) else {
        return None;
    };
    if leads_on(&upper) {
        return None;
    }
    Some(hosts(network, bytes))
}

/// The identification in a packet's header.
#[inline]
fn identification(network: Network, bytes: &[u8]) -> Option<u16>
    requires { HasHeader network bytes.now }
    ensures { result ≡ identification_of network bytes.now }
{
    match network {
        Network::Ipv4 => Some(pair_at(bytes, 4)),
        Network::Ipv6 => None,
    }
}

/// Which part of a packet an IPv4 header says that it heads.
#[inline]
pub fn part(bytes: &[u8]) -> Option<Fragment>
    requires { 20 ≤ length bytes.now }
    ensures { result ≡ part_of bytes.now }
{
    let field = pair_at(bytes, 6);
    if field % 0x4000 == 0 {
        return None;
    }
    Some(Fragment {
        id: u32::from(pair_at(bytes, 4)),
        place: u32::from(field % 0x2000) * 8,
        more: field / 0x2000 % 2 == 1,
    })
}

/// What is there of the bytes after a packet's header, without what pads the frame.
#[inline]
pub fn held(network: Network, bytes: &[u8]) -> &[u8]
    requires { HasHeader network bytes.now }
    ensures { result.now ≡ held_of network bytes.now }
{
    let size = header_length(network, bytes);
    let total = total_length(network, bytes);
    let body = bytes.split_at(size).1;
    body.split_at(total.saturating_sub(size).min(body.len())).0
}

/// What a packet of IPv4 carries, of that content; none where a header is cut or not read, or a fragment is of what may hold
/// another packet.
#[inline]
fn reach_in_ipv4<'a>(bytes: &[u8], content: &'a [u8]) -> Option<Upper<'a>>
    requires { 20 ≤ length bytes.now }
    ensures { MatchOption result
        ((r : Reached) → ReachesInIpv4 bytes.now content.now r → ⊥)
        (λ found. ReachesInIpv4 bytes.now content.now (reached found)) }
{
    let protocol = bytes[9];
    let fragment = part(bytes);
    if !is_wrapping(protocol) {
        return Some(Upper {
            protocol,
            fragment,
            content,
        });
    }
    if fragment.is_some() {
        return None;
    }
    skip_extensions(protocol, content)
}

/// What a packet carries; none where a header before it is cut or not read.
#[inline]
pub fn reach(network: Network, bytes: &[u8]) -> Option<Upper<'_>>
    requires { HasHeader network bytes.now }
    ensures { MatchOption result
        ((r : Reached) → Reaches network bytes.now r → ⊥)
        (λ found. Reaches network bytes.now (reached found)) }
{
    let content = held(network, bytes);
    match network {
        Network::Ipv4 => reach_in_ipv4(bytes, content),
        Network::Ipv6 => skip_extensions(bytes[6], content),
    }
}

/// Whether what a packet carries is UDP, or may turn out to be when its fragments are put together: in IPv6 the first of
/// them tells (RFC 8200, section 4.5).
#[inline]
fn is_udp(network: Network, upper: &Upper<'_>) -> bool
    ensures { result ≡ may_be_udp network (reached upper.now) }
{
    match network {
        Network::Ipv4 => upper.protocol == UDP,
        Network::Ipv6 => upper.protocol == UDP || upper.fragment.is_some(),
    }
}

/// Whether the length that a header says is that of the header or more, and all its bytes are there.
#[inline]
fn check_length(network: Network, bytes: &[u8]) -> Result<(), FrameFault>
    requires { HasHeader network bytes.now }
    ensures { MatchResult result (λ _. IsWhole network bytes.now) (λ fault. IsNotWhole fault network bytes.now) }
{
    let total = total_length(network, bytes);
    if total < header_length(network, bytes) {
        return Err(FrameFault::Length);
    }
    if bytes.len() < total {
        return Err(FrameFault::Cut);
    }
    Ok(())
}

/// The packet with which bytes begin, or the first fault.
#[inline]
pub fn read_ip(
    direction: Direction,
    network: Network,
    bytes: &[u8],
) -> Result<IpPacket<'_>, FrameFault>
    ensures { JudgesIp direction network bytes.now result }
{
    if !has_header(network, bytes) {
        return Err(FrameFault::Header);
    }
    let Some(upper) = reach(network, bytes) else {
        check_length(network, bytes)?;
        return Err(FrameFault::Extension);
    };
    if !is_udp(network, &upper) {
        return Err(FrameFault::Protocol);
    }
    check_length(network, bytes)?;
    let (source, target) = hosts(network, bytes);
    Ok(IpPacket {
        direction,
        source,
        target,
        protocol: upper.protocol,
        identification: identification(network, bytes),
        fragment: upper.fragment,
        content: upper.content,
        packet: bytes.split_at(total_length(network, bytes)).0,
    })
}
