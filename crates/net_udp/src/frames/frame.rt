ghost use Rattle.std.specs.Prelude.{◌≡◌, ◌↔◌, IfOk, IsOkAnd, MatchOption};
ghost use Rattle.std.specs.declared.net.ip_addr.IpAddr.{IpAddr as Host};
ghost use Rattle.net_udp.specs.Frames.Ip.{Packet};
ghost use Rattle.net_udp.specs.Frames.Frame.{IsBetween, SpellsFrame};
ghost use Rattle.net_udp.specs.Frames.Faults.{FirstFault, Judges};
ghost use Rattle.net_udp.specs.Frames.Parts.{shown};
ghost use Rattle.net_udp.specs.declared.frames.fault.FrameFault.{FrameFault};

use crate::frames::fault::FrameFault;
use crate::frames::ip::{hosts_of, read_ip};
use crate::frames::link::link_type;
use crate::frames::packet::IpPacket;
use crate::frames::tunnel::read_carried;
use std::net::IpAddr;

/// The IP packet, or the fragment of one, that a frame carries and that is of UDP, or may be. The number is that of the
/// link type in the recording. It borrows the frame, and takes no memory. Checksums are not looked at.
pub fn read_frame(link_number: u32, frame: &[u8]) -> Result<IpPacket<'_>, FrameFault>
    ensures found { IfOk result (λ p. SpellsFrame link_number frame.now (shown p)) }
    ensures only { (p : Packet) → SpellsFrame link_number frame.now p → IsOkAnd result (λ found. shown found ≡ p) }
    ensures fault { (f : FrameFault) → (result ≡ Err f) ↔ FirstFault link_number frame.now f }
{
    judge_frame(link_number, frame)
}

/// The hosts between which a frame's IP packet went: who sent it, and to whom. The rest of the packet may be cut, wrong or of
/// any protocol; none where the frame has no whole IP header, nor where an extension header of IPv6 is cut or not read: one of
/// routing may lead on to another host (RFC 8200, section 4.4).
pub fn read_hosts(link_number: u32, frame: &[u8]) -> Option<(IpAddr, IpAddr)>
    ensures { MatchOption result
        ((source target : Host) → IsBetween link_number frame.now source target → ⊥)
        (λ hosts. IsBetween link_number frame.now hosts.0 hosts.1) }
{
    let Some(link) = link_type(link_number) else {
        return None;
    };
    let Some(carried) = read_carried(link, frame) else {
        return None;
    };
    let Some(network) = carried.network else {
        return None;
    };
    hosts_of(network, carried.content)
}

/// The packet, or the first fault.
#[inline]
fn judge_frame(link_number: u32, frame: &[u8]) -> Result<IpPacket<'_>, FrameFault>
    ensures { Judges link_number frame.now result }
{
    let Some(link) = link_type(link_number) else {
        return Err(FrameFault::Link);
    };
    let Some(carried) = read_carried(link, frame) else {
        return Err(FrameFault::Frame);
    };
    let Some(network) = carried.network else {
        return Err(FrameFault::Network);
    };
    read_ip(carried.direction, network, carried.content)
}
