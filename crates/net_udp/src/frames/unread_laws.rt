ghost use Rattle.std.specs.Prelude.{◌≡◌, ◌∷◌, ◌++◌, ℕ, List};
ghost use Rattle.std.specs.Option.{is_some};
ghost use Rattle.net_udp.specs.Frames.Tag.{is_sealed};
ghost use Rattle.net_udp.specs.Frames.Extension.{is_hiding};
ghost use Rattle.net_udp.specs.Frames.Ip.{Packet};
ghost use Rattle.net_udp.specs.Frames.Frame.{SpellsFrame};
ghost use Rattle.net_udp.specs.Frames.Unread.{HasUnread, hidden_by, sealed_by};
ghost use Rattle.net_udp.specs.Frames.Worked.{enciphered, ipv4_bytes, ipv6_routed};
ghost use Rattle.net_udp.specs.Frames.WorkedTunnels.{ring_head, secured_head, switched_head};
ghost use Rattle.net_udp.specs.Frames.WorkedUnread.{enciphered_authenticated, enciphered_part, mobile, secured_behind_tags};
ghost use Rattle.net_udp.specs.declared.frames.unread.UnreadHeader.{UnreadHeader};

/// Each type behind which nothing is read has a name, and so has each protocol of IP that hides the rest; no other has one.
pub fn what_hides_has_a_name()
    ensures sealed { (type : ℕ) → is_some (sealed_by type) ≡ is_sealed type }
    ensures hidden { (protocol : ℕ) → is_some (hidden_by protocol) ≡ is_hiding protocol }
{}

/// A frame has one header at most that is not read, and none if a packet of UDP, or a part of one, is read in it.
pub fn unread_header_is_one()
    ensures one { (number : ℕ) (frame : List ℕ) (u v : UnreadHeader) → HasUnread number frame u → HasUnread number frame v → u ≡ v }
    ensures none { (number : ℕ) (frame : List ℕ) (u : UnreadHeader) (p : Packet) → HasUnread number frame u → SpellsFrame number frame p → ⊥ }
{}

/// Worked examples on a frame's link: MACsec (IEEE 802.1AE), also behind two tags, and the tag of a Marvell switch; and a tag of HSR,
/// which is read.
pub fn worked_unread_on_links()
    ensures secured { HasUnread 1 (secured_head ++ 8 ∷ 0 ∷ ipv4_bytes) UnreadHeader.MacSec }
    ensures tagged { HasUnread 1 (secured_behind_tags ++ 8 ∷ 0 ∷ ipv4_bytes) UnreadHeader.MacSec }
    ensures switched { HasUnread 1 (switched_head ++ ipv4_bytes) UnreadHeader.SwitchTag }
    ensures ring { (u : UnreadHeader) → HasUnread 1 (ring_head ++ ipv4_bytes) u → ⊥ }
{}

/// Worked examples in packets of IP: ESP (RFC 4303), of a fragment too, and behind an authentication header (RFC 4302); a mobility header
/// behind destination options (RFC 6275), and a routing header with a segment left (RFC 8200, section 4.4).
pub fn worked_unread_in_packets()
    ensures esp { HasUnread 228 enciphered UnreadHeader.Esp }
    ensures part { HasUnread 228 enciphered_part UnreadHeader.Esp }
    ensures behind { HasUnread 228 enciphered_authenticated UnreadHeader.Esp }
    ensures mobile { HasUnread 229 mobile UnreadHeader.Mobility }
    ensures routed { HasUnread 229 (ipv6_routed 1) UnreadHeader.Routing }
{}
