ghost use Rattle.std.specs.Prelude.{◌≡◌, ◌≤◌, ◌∷◌, ◌++◌, ℕ, List, take, drop, Some, false};
ghost use Rattle.std.specs.declared.net.ip_addr.IpAddr.{IpAddr};
ghost use Rattle.net_udp.specs.Frames.OverUdp.{is_over_udp, payload_of};
ghost use Rattle.net_udp.specs.Frames.Link.{Linked, SpellsLink, link_named};
ghost use Rattle.net_udp.specs.Frames.Extension.{Reached};
ghost use Rattle.net_udp.specs.Frames.Ip.{Reaches};
ghost use Rattle.net_udp.specs.Frames.Frame.{IsBetween, IsLinked, SpellsFrame};
ghost use Rattle.net_udp.specs.Frames.Faults.{FirstFault};
ghost use Rattle.net_udp.specs.Frames.UdpDatagrams.{HoldsUdp};
ghost use Rattle.net_udp.specs.Frames.Worked.{ipv4_bytes, ipv4_packet};
ghost use Rattle.net_udp.specs.Frames.WorkedTunnels.{mirrored_one, mirrored_two, mirrored_three, mirrored_longer, mirrored_packet, in_vxlan, in_vxlan_reserved, arp_in_vxlan, part_of_vxlan, in_geneve, arp_in_geneve, in_geneve_with_options, ack_to_vxlan, ack_to_geneve, ring_head, stream_head, secured_head, switched_head, reserved_packet};
ghost use Rattle.net_udp.specs.declared.frames.link.LinkType.{LinkType};
ghost use Rattle.net_udp.specs.declared.frames.link.Network.{Network};
ghost use Rattle.net_udp.specs.declared.frames.fault.FrameFault.{FrameFault};
ghost use Rattle.net_udp.specs.declared.frames.fault.UdpFault.{UdpFault};
ghost use Rattle.net_udp.specs.declared.frames.packet.Direction.{Direction};

/// No packet of TFTP is taken for a tunnel, to whatever port it goes: each begins with 0 and a number from 1 to 6 (RFC 1350, section
/// 5; RFC 2347). So a frame of a link that carries one, over no other tunnel, carries the packet of IP in which it stands.
pub fn tftp_opens_no_tunnel()
    ensures none { (bytes rest : List ℕ) (code : ℕ) → payload_of bytes ≡ 0 ∷ code ∷ rest → 1 ≤ code → code ≤ 6 → is_over_udp bytes ≡ false }
    ensures itself { (number : ℕ) (frame rest : List ℕ) (code : ℕ) (link : LinkType) (c : Linked) (network : Network) (r : Reached) → link_named number ≡ Some link → SpellsLink link frame c
        → c.network ≡ Some network → Reaches network c.content r → r.protocol ≡ 17 → payload_of r.content ≡ 0 ∷ code ∷ rest → 1 ≤ code → code ≤ 6 → IsLinked number frame c }
{}

/// Worked examples: a packet in a frame that a switch handed on in ERSPAN of each type, the last with 8 bytes more; and type III with a
/// packet where a frame may stand, which is not read.
pub fn worked_mirrors()
    ensures one { SpellsFrame 228 mirrored_one (ipv4_packet Direction.Unknown ipv4_bytes) }
    ensures two { SpellsFrame 228 mirrored_two (ipv4_packet Direction.Unknown ipv4_bytes) }
    ensures three { SpellsFrame 228 mirrored_three (ipv4_packet Direction.Unknown ipv4_bytes) }
    ensures longer { SpellsFrame 228 mirrored_longer (ipv4_packet Direction.Unknown ipv4_bytes) }
    ensures another { FirstFault 228 mirrored_packet FrameFault.Frame }
{}

/// Worked examples: a packet in VXLAN and in Geneve, also with an option and a frame; an acknowledgement of TFTP to the port of each, and
/// what has a reserved bit in VXLAN, which are datagrams as any other.
pub fn worked_over_udp()
    ensures vxlan { SpellsFrame 228 in_vxlan (ipv4_packet Direction.Unknown ipv4_bytes) }
    ensures geneve { SpellsFrame 228 in_geneve (ipv4_packet Direction.Unknown ipv4_bytes) }
    ensures options { SpellsFrame 228 in_geneve_with_options (ipv4_packet Direction.Unknown ipv4_bytes) }
    ensures ack_to_vxlan { SpellsFrame 228 ack_to_vxlan (record (ipv4_packet Direction.Unknown ack_to_vxlan) { content = drop 20 ack_to_vxlan }) }
    ensures ack_to_geneve { SpellsFrame 228 ack_to_geneve (record (ipv4_packet Direction.Unknown ack_to_geneve) { content = drop 20 ack_to_geneve }) }
    ensures reserved { SpellsFrame 228 in_vxlan_reserved reserved_packet }
{}

/// Worked examples of tunnels that are not read: one over UDP that ends in its header, of another type, and of no IP; and one whose
/// datagram comes in fragments, of which the first tells no hosts, and the content that they give is none.
pub fn worked_closed_tunnels()
    ensures cut { FirstFault 228 (take 32 in_vxlan) FrameFault.Frame }
    ensures another { FirstFault 228 arp_in_geneve FrameFault.Frame }
    ensures arp { FirstFault 228 arp_in_vxlan FrameFault.Network }
    ensures part { (source target : IpAddr) → IsBetween 228 part_of_vxlan source target → ⊥ }
    ensures whole { HoldsUdp UdpFault.Extension 17 (drop 20 in_vxlan) }
{}

/// Worked examples: a packet behind the tags of HSR (IEC 62439-3) and FRER (IEEE 802.1CB); and what is not read, though the packet
/// stands behind it in plain bytes: MACsec (IEEE 802.1AE), and the tag of a Marvell switch.
pub fn worked_paths()
    ensures ring { SpellsFrame 1 (ring_head ++ ipv4_bytes) (ipv4_packet Direction.Unknown ipv4_bytes) }
    ensures stream { SpellsFrame 1 (stream_head ++ ipv4_bytes) (ipv4_packet Direction.Unknown ipv4_bytes) }
    ensures secured { FirstFault 1 (secured_head ++ 8 ∷ 0 ∷ ipv4_bytes) FrameFault.Frame }
    ensures switched { FirstFault 1 (switched_head ++ ipv4_bytes) FrameFault.Frame }
{}
