ghost use Rattle.std.specs.Prelude.{◌≡◌, ◌↔◌, ◌∷◌, ◌++◌, [], ℕ, List, codes, take, drop, Some, None, true, false};
ghost use Rattle.std.specs.Net.Addr.{IsIpv4Addr, IsIpv6Addr, MatchIp};
ghost use Rattle.std.specs.Net.Text.{ip_text};
ghost use Rattle.std.specs.declared.net.ip_addr.IpAddr.{IpAddr};
ghost use Rattle.std.specs.declared.net.ip_addr.IpAddr.TheVariants.{V4, V6};
ghost use Rattle.net_udp.specs.Frames.Link.{index_of, null_network};
ghost use Rattle.net_udp.specs.Frames.Ip.{Packet, is_identified};
ghost use Rattle.net_udp.specs.Frames.Frame.{SpellsFrame};
ghost use Rattle.net_udp.specs.Frames.Told.{echo_bytes, no_port, no_port_ipv6, unreachable_bytes, unreachable_cut, unreachable_ipv6_bytes};
ghost use Rattle.net_udp.specs.Frames.Unreachable.{TellsUnreachable};
ghost use Rattle.net_udp.specs.declared.frames.unreachable.Unreachable.{Unreachable};
ghost use Rattle.net_udp.specs.Frames.Checksums.{checksum_of, in_ones_complement, word_sum};
ghost use Rattle.net_udp.specs.declared.frames.checksum.Checksum.{Checksum};
ghost use Rattle.net_udp.specs.Frames.Faults.{Holds, FirstFault};
ghost use Rattle.net_udp.specs.Frames.UdpDatagrams.{Udp, SpellsUdp, HoldsUdp};
ghost use Rattle.net_udp.specs.Frames.Worked.{udp_bytes, ipv4_bytes, ipv4_with_options, ipv4_fragment, ipv6_with_extensions, ipv6_authenticated, ipv6_fragment, ipv6_fragment_of_icmp, ipv6_of_no_units, ipv6_routed, two_old_tags, two_tags, udp_bytes_of_ipv6, udp_left, udp_left_of_ipv6, udp_of_three, cooked_head, cooked_two_head, null_head, snap_head, session_head, labels_head, ipv4_authenticated, ipv4_in_ipv4, ipv6_in_ipv4, ipv4_in_gre, ethernet_in_gre, ipv4_in_two, enciphered, ipv4_packet, ipv4_part, ipv6_packet, ipv6_part, acknowledgement, host, host_of_ipv6};
ghost use Rattle.net_udp.specs.declared.frames.fault.FrameFault.{FrameFault};
ghost use Rattle.net_udp.specs.declared.frames.fault.UdpFault.{UdpFault};
ghost use Rattle.net_udp.specs.declared.frames.link.Network.{Network};
ghost use Rattle.net_udp.specs.declared.frames.packet.Direction.{Direction};

/// A frame is one packet at most.
pub fn frame_spells_one_packet()
    ensures { (number : ℕ) (frame : List ℕ) (p q : Packet) → SpellsFrame number frame p → SpellsFrame number frame q → p ≡ q }
{}

/// A frame has at most one first fault.
pub fn first_fault_is_one()
    ensures { (number : ℕ) (frame : List ℕ) (f g : FrameFault) → FirstFault number frame f → FirstFault number frame g → f ≡ g }
{}

/// A frame that is a packet has none of the faults.
pub fn spelled_frame_has_no_fault()
    ensures { (number : ℕ) (frame : List ℕ) (p : Packet) (f : FrameFault) → SpellsFrame number frame p → Holds f number frame → ⊥ }
{}

/// A content is one datagram or has one fault, and never both.
pub fn content_is_one_datagram()
    ensures one { (protocol : ℕ) (content : List ℕ) (d e : Udp) → SpellsUdp protocol content d → SpellsUdp protocol content e → d ≡ e }
    ensures fault { (protocol : ℕ) (content : List ℕ) (f g : UdpFault) → HoldsUdp f protocol content → HoldsUdp g protocol content → f ≡ g }
    ensures apart { (protocol : ℕ) (content : List ℕ) (d : Udp) (f : UdpFault) → SpellsUdp protocol content d → HoldsUdp f protocol content → ⊥ }
{}

/// Two addresses are one exactly if the same is written of them.
pub fn addresses_are_one_if_written_the_same()
    ensures { (a b : IpAddr) → MatchIp a IsIpv4Addr IsIpv6Addr → MatchIp b IsIpv4Addr IsIpv6Addr → (a ≡ b) ↔ (ip_text a ≡ ip_text b) }
{}

/// Worked examples of what is written (RFC 5952, sections 1, 4.2.2, 4.2.3 and 5).
pub fn worked_addresses()
    ensures ipv4 { ip_text (host 7) ≡ codes "192.0.2.7" }
    ensures ipv6 { ip_text (host_of_ipv6 1) ≡ codes "2001:db8::1" }
    ensures one_zero { ip_text (V6 (record { segments = 8193 ∷ 3512 ∷ 0 ∷ 1 ∷ 1 ∷ 1 ∷ 1 ∷ 1 ∷ [] })) ≡ codes "2001:db8:0:1:1:1:1:1" }
    ensures longest { ip_text (V6 (record { segments = 8193 ∷ 0 ∷ 0 ∷ 1 ∷ 0 ∷ 0 ∷ 0 ∷ 1 ∷ [] })) ≡ codes "2001:0:0:1::1" }
    ensures first { ip_text (V6 (record { segments = 8193 ∷ 3512 ∷ 0 ∷ 0 ∷ 1 ∷ 0 ∷ 0 ∷ 1 ∷ [] })) ≡ codes "2001:db8::1:0:0:1" }
    ensures mapped { ip_text (V6 (record { segments = 0 ∷ 0 ∷ 0 ∷ 0 ∷ 0 ∷ 65535 ∷ 49152 ∷ 513 ∷ [] })) ≡ codes "::ffff:192.0.2.1" }
{}

/// Worked examples: a packet in Ethernet with two tags and two bytes of padding, with an old tag, in Linux cooked, with options, and a
/// fragment; and the same of IPv6, also with a routing header that has led to its last host, and of a fragment that names ICMP
/// (58) and is not the first.
pub fn worked_frames()
    ensures tags { SpellsFrame 1 (two_tags ++ ipv4_bytes ++ 0 ∷ 0 ∷ []) (ipv4_packet Direction.Unknown ipv4_bytes) }
    ensures old_tags { SpellsFrame 1 (two_old_tags ++ ipv4_bytes) (ipv4_packet Direction.Unknown ipv4_bytes) }
    ensures cooked { SpellsFrame 113 (cooked_head ++ ipv4_bytes) (ipv4_packet Direction.Out ipv4_bytes) }
    ensures cooked_two { SpellsFrame 276 (cooked_two_head ++ ipv4_bytes) (ipv4_packet Direction.In ipv4_bytes) }
    ensures options { SpellsFrame 101 ipv4_with_options (ipv4_packet Direction.Unknown ipv4_with_options) }
    ensures part { SpellsFrame 228 ipv4_fragment ipv4_part }
    ensures extensions { SpellsFrame 229 ipv6_with_extensions ipv6_packet }
    ensures ipv6_part { SpellsFrame 0 (null_head ++ ipv6_fragment) ipv6_part }
    ensures routed { SpellsFrame 229 (ipv6_routed 0) (record ipv6_packet { packet = ipv6_routed 0 }) }
    ensures another { SpellsFrame 229 ipv6_fragment_of_icmp (record ipv6_part { protocol = 58; packet = ipv6_fragment_of_icmp }) }
{}

/// Worked examples: a packet in Ethernet behind LLC and SNAP (RFC 1042), PPPoE (RFC 2516) and two labels of MPLS (RFC 3032); and
/// behind an authentication header (RFC 4302), in IPv4 and in IPv6.
pub fn worked_shims()
    ensures snap { SpellsFrame 1 (snap_head ++ ipv4_bytes) (ipv4_packet Direction.Unknown ipv4_bytes) }
    ensures session { SpellsFrame 1 (session_head 33 ++ ipv4_bytes) (ipv4_packet Direction.Unknown ipv4_bytes) }
    ensures labels { SpellsFrame 1 (labels_head ++ ipv4_bytes) (ipv4_packet Direction.Unknown ipv4_bytes) }
    ensures authenticated { SpellsFrame 228 ipv4_authenticated (ipv4_packet Direction.Unknown ipv4_authenticated) }
    ensures authenticated_ipv6 { SpellsFrame 229 ipv6_authenticated (record ipv6_packet { packet = ipv6_authenticated }) }
{}

/// Worked examples: a packet in IP (RFC 2003; RFC 4213), in GRE with all its fields (RFC 2890), in Ethernet in GRE, and in IP in GRE.
/// What is read is the innermost packet, and none of the tunnel's hosts is in it.
pub fn worked_tunnels()
    ensures in_ip { SpellsFrame 228 ipv4_in_ipv4 (ipv4_packet Direction.Unknown ipv4_bytes) }
    ensures six_in_four { SpellsFrame 228 ipv6_in_ipv4 ipv6_packet }
    ensures in_gre { SpellsFrame 228 ipv4_in_gre (ipv4_packet Direction.Unknown ipv4_bytes) }
    ensures ethernet { SpellsFrame 228 ethernet_in_gre (ipv4_packet Direction.Unknown ipv4_bytes) }
    ensures two { SpellsFrame 228 ipv4_in_two (ipv4_packet Direction.Unknown ipv4_bytes) }
{}

/// Worked examples: that nobody has port 69 is told in IPv4 and in IPv6; an answer to an echo tells nothing, nor does a message that is
/// cut before the second port, or a datagram.
pub fn worked_unreachable()
    ensures port { TellsUnreachable 228 unreachable_bytes no_port }
    ensures port_ipv6 { TellsUnreachable 229 unreachable_ipv6_bytes no_port_ipv6 }
    ensures echo { (u : Unreachable) → TellsUnreachable 228 echo_bytes u → ⊥ }
    ensures cut { (u : Unreachable) → TellsUnreachable 228 unreachable_cut u → ⊥ }
    ensures datagram { (u : Unreachable) → TellsUnreachable 228 ipv4_bytes u → ⊥ }
{}

/// Worked examples: the first fault of a packet whose last byte was not recorded, of one of TCP (protocol 6), of ARP
/// (0x0806) in Ethernet, and of a frame that ends in its first tag; and of a packet of IPv6 with a routing header that leads on
/// to another host (RFC 8200, section 4.4), which is not read; and of a fragment of seven bytes that more follow (RFC 8200,
/// section 4.5); and of what is not read: ESP (RFC 4303), also in IPv6, a fragment of a tunnel's packet, GRE of version 1 (RFC 2637),
/// what PPP compresses (protocol 0xfd), and a label before none of IP.
pub fn worked_faults()
    ensures cut { FirstFault 101 (take 31 ipv4_bytes) FrameFault.Cut }
    ensures tcp { FirstFault 101 (take 9 ipv4_bytes ++ 6 ∷ drop 10 ipv4_bytes) FrameFault.Protocol }
    ensures arp { FirstFault 1 (take 12 two_tags ++ 8 ∷ 6 ∷ []) FrameFault.Network }
    ensures tag { FirstFault 1 (take 16 two_tags) FrameFault.Frame }
    ensures routed { FirstFault 229 (ipv6_routed 1) FrameFault.Extension }
    ensures units { FirstFault 229 ipv6_of_no_units FrameFault.Extension }
    ensures esp { FirstFault 228 enciphered FrameFault.Extension }
    ensures esp_ipv6 { FirstFault 229 (take 6 ipv6_authenticated ++ 50 ∷ drop 7 ipv6_authenticated) FrameFault.Extension }
    ensures tunnel_part { FirstFault 228 (take 9 ipv4_fragment ++ 4 ∷ drop 10 ipv4_fragment) FrameFault.Extension }
    ensures gre { FirstFault 228 (take 21 ipv4_in_gre ++ 1 ∷ drop 22 ipv4_in_gre) FrameFault.Frame }
    ensures ppp { FirstFault 1 (session_head 253 ++ ipv4_bytes) FrameFault.Frame }
    ensures label { FirstFault 1 (labels_head ++ 0 ∷ []) FrameFault.Frame }
{}

/// Worked examples: the acknowledgement, with what follows it in the packet left out (RFC 768), and behind a header of
/// destination options, as the whole content of an IPv6 packet has it; port 0; and IPv6 in IP behind a limit of tunnels (RFC 2473,
/// section 5.1).
pub fn worked_datagrams()
    ensures plain { SpellsUdp 17 (udp_bytes ++ 255 ∷ 255 ∷ []) acknowledgement }
    ensures behind { SpellsUdp 60 (17 ∷ 0 ∷ 1 ∷ 4 ∷ 0 ∷ 0 ∷ 0 ∷ 0 ∷ udp_bytes) acknowledgement }
    ensures port { HoldsUdp UdpFault.Port 17 (0 ∷ 0 ∷ drop 2 udp_bytes) }
    ensures tunnel { HoldsUdp UdpFault.Extension 60 (41 ∷ 0 ∷ 4 ∷ 1 ∷ 4 ∷ 1 ∷ 0 ∷ 0 ∷ ipv6_fragment) }
{}

/// Worked examples: the number of the interface in a header of Linux cooked, version 2; one that is cut; version 1, which has
/// none; and Ethernet.
pub fn worked_indexes()
    ensures cooked_two { index_of 276 (cooked_two_head ++ ipv4_bytes) ≡ 2 }
    ensures cut { index_of 276 (take 19 cooked_two_head) ≡ 0 }
    ensures cooked { index_of 113 (cooked_head ++ ipv4_bytes) ≡ 0 }
    ensures ethernet { index_of 1 (two_tags ++ ipv4_bytes) ≡ 0 }
{}

/// Worked examples: the families that stand in a header of BSD NULL (tcpdump.org/linktypes.html): 2 is IPv4, in either order;
/// IPv6 is 24 in NetBSD and OpenBSD, 28 in FreeBSD and 30 in macOS; 10 is that of Linux, which writes no such header, and 23 is
/// that of IPX.
pub fn worked_families()
    ensures ipv4 { null_network (2 ∷ 0 ∷ 0 ∷ 0 ∷ []) ≡ Some Network.Ipv4 }
    ensures ipv4_turned { null_network (0 ∷ 0 ∷ 0 ∷ 2 ∷ []) ≡ Some Network.Ipv4 }
    ensures netbsd { null_network (24 ∷ 0 ∷ 0 ∷ 0 ∷ []) ≡ Some Network.Ipv6 }
    ensures freebsd { null_network (28 ∷ 0 ∷ 0 ∷ 0 ∷ []) ≡ Some Network.Ipv6 }
    ensures macos { null_network (30 ∷ 0 ∷ 0 ∷ 0 ∷ []) ≡ Some Network.Ipv6 }
    ensures macos_turned { null_network (0 ∷ 0 ∷ 0 ∷ 30 ∷ []) ≡ Some Network.Ipv6 }
    ensures linux { null_network (10 ∷ 0 ∷ 0 ∷ 0 ∷ []) ≡ None }
    ensures ipx { null_network (23 ∷ 0 ∷ 0 ∷ 0 ∷ []) ≡ None }
{}

/// Worked examples: a packet of IPv4, the same with identification 0, and a whole one and a fragment of IPv6.
pub fn worked_identifications()
    ensures ipv4 { is_identified (ipv4_packet Direction.Unknown ipv4_bytes) ≡ true }
    ensures zero { is_identified (record (ipv4_packet Direction.Unknown ipv4_bytes) { identification = Some 0 }) ≡ false }
    ensures whole { is_identified ipv6_packet ≡ false }
    ensures part { is_identified ipv6_part ≡ true }
{}

/// Worked examples: the sum in RFC 1071, section 3; the acknowledgement over IPv4 and IPv6; one of three bytes; one whose last
/// byte was changed on the way, whose packet's identification was, and without a checksum, which is one over IPv4 alone; and
/// as a sender leaves them to its network card: that of UDP over IPv4 and IPv6, and that of the IPv4 header.
pub fn worked_checksums()
    ensures sum { in_ones_complement (word_sum (0 ∷ 1 ∷ 242 ∷ 3 ∷ 244 ∷ 245 ∷ 246 ∷ 247 ∷ [])) ≡ 56818 }
    ensures ipv4 { checksum_of (ipv4_packet Direction.Unknown ipv4_bytes) udp_bytes ≡ Checksum.Right }
    ensures ipv6 { checksum_of ipv6_packet udp_bytes_of_ipv6 ≡ Checksum.Right }
    ensures odd { checksum_of (ipv4_packet Direction.Unknown ipv4_bytes) udp_of_three ≡ Checksum.Right }
    ensures changed { checksum_of (ipv4_packet Direction.Unknown ipv4_bytes) (take 11 udp_bytes ++ 2 ∷ []) ≡ Checksum.Wrong }
    ensures header { checksum_of (ipv4_packet Direction.Unknown (take 5 ipv4_bytes ++ 8 ∷ drop 6 ipv4_bytes)) udp_bytes ≡ Checksum.Wrong }
    ensures absent { checksum_of (ipv4_packet Direction.Unknown ipv4_bytes) (take 6 udp_bytes ++ 0 ∷ 0 ∷ drop 8 udp_bytes) ≡ Checksum.Absent }
    ensures none { checksum_of ipv6_packet (take 6 udp_bytes_of_ipv6 ++ 0 ∷ 0 ∷ drop 8 udp_bytes_of_ipv6) ≡ Checksum.Wrong }
    ensures left { checksum_of (ipv4_packet Direction.Unknown ipv4_bytes) udp_left ≡ Checksum.Partial }
    ensures left_ipv6 { checksum_of ipv6_packet udp_left_of_ipv6 ≡ Checksum.Partial }
    ensures left_both { checksum_of (ipv4_packet Direction.Unknown (take 10 ipv4_bytes ++ 0 ∷ 0 ∷ drop 12 ipv4_bytes)) udp_left ≡ Checksum.Partial }
    ensures left_header { checksum_of (ipv4_packet Direction.Unknown (take 10 ipv4_bytes ++ 0 ∷ 0 ∷ drop 12 ipv4_bytes)) udp_bytes ≡ Checksum.Partial }
    ensures left_changed { checksum_of (ipv4_packet Direction.Unknown ipv4_bytes) (take 7 udp_left ++ 39 ∷ drop 8 udp_left) ≡ Checksum.Wrong }
{}
