//! Laws of the naming in `specs/`. Each is the contract of a function that does nothing.

ghost use Rattle.std.specs.Prelude.{◌≡◌, ◌↔◌, ◌∷◌, [], codes, true};
ghost use Rattle.std.specs.Net.Text.{ip_text};
ghost use Rattle.std.specs.declared.net.ip_addr.IpAddr.{IpAddr};
ghost use Rattle.tftp_packet.specs.Hosts.{IsHost};
ghost use Rattle.audit_views.specs.Parties.Naming.{IsAddress, address_of, host_name};
ghost use Rattle.audit_flows.specs.Lines.{same_address};
ghost use Rattle.audit_flows.specs.{Address, V4, V6};

/// Two addresses are the same exactly if their hosts are called the same; and what a host is called may stand in a capture
/// text.
pub fn hosts_are_one_if_called_the_same()
    ensures one { (a b : Address) → IsAddress a → IsAddress b → (same_address a b ≡ true) ↔ (host_name a ≡ host_name b) }
    ensures host { (a : Address) → IsAddress a → IsHost (host_name a) }
{}

/// A host is called what is written of its address (RFC 5952).
pub fn hosts_are_called_as_written()
    ensures { (a : IpAddr) → host_name (address_of a) ≡ ip_text a }
{}

/// Worked names (RFC 5952, sections 1 and 5).
pub fn worked_names()
    ensures ipv4 { host_name (V4 (192 ∷ 0 ∷ 2 ∷ 7 ∷ [])) ≡ codes "192.0.2.7" }
    ensures ipv6 { host_name (V6 (32 ∷ 1 ∷ 13 ∷ 184 ∷ 0 ∷ 0 ∷ 0 ∷ 0 ∷ 0 ∷ 0 ∷ 0 ∷ 0 ∷ 0 ∷ 0 ∷ 0 ∷ 1 ∷ [])) ≡ codes "2001:db8::1" }
    ensures mapped { host_name (V6 (0 ∷ 0 ∷ 0 ∷ 0 ∷ 0 ∷ 0 ∷ 0 ∷ 0 ∷ 0 ∷ 0 ∷ 255 ∷ 255 ∷ 192 ∷ 0 ∷ 2 ∷ 1 ∷ [])) ≡ codes "::ffff:192.0.2.1" }
{}
