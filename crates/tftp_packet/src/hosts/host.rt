ghost use Rattle.std.specs.Prelude.{◌≡◌, ◌↔◌, ℕ, List, IsTrue, MatchOption, bytes_eq};
ghost use Rattle.std.specs.List.{AllByRecursion};
ghost use Rattle.tftp_packet.specs.Hosts.Host.{IsHost, IsSign, no_host};

use std::cmp::Ordering;
use std::marker::Model;

/// The most bytes that name a host.
const LONGEST_HOST: usize = 45;

/// The other host, seen as the bytes that name it. It is copied, and takes no memory.
#[derive(Clone, Copy, Debug)]
pub struct Host {
    bytes: [u8; 45],
    len: u8,
}

impl Model for Host {
    ghost use Rattle.std.specs.Prelude.{ℕ, List};

    ghost Value = { List ℕ };

    ghost use Rattle.tftp_packet.specs.Hosts.Host.{held_bytes, held_as, held_again, Holds};

    ghost view = { held_bytes };

    ghost invariant = { Holds };

    ghost inverse = { held_as };

    ghost inverse_ok = { held_again };
}

/// Whether the bytes are signs that are seen, and no space.
fn are_signs(bytes: &[u8]) -> bool
    ensures { IsTrue result ↔ AllByRecursion IsSign bytes.now }
{
    bytes.iter().all(|byte| byte.is_ascii_graphic())
}

impl Host {
    /// The host that the bytes name, if they name one.
    pub fn new(bytes: &[u8]) -> Option<Self>
        ensures { MatchOption result (IsHost bytes.now → ⊥) (λ host. IsHost bytes.now × (host ≡ bytes.now)) }
    {
        if bytes.is_empty() || bytes.len() > LONGEST_HOST || !are_signs(bytes) {
            return None;
        }
        let mut held = [0; LONGEST_HOST];
        held[..bytes.len()].copy_from_slice(bytes);
        Some(Host {
            bytes: held,
            len: bytes.len() as u8,
        })
    }

    /// The host `-`, where none is named.
    pub fn none() -> Self
        ensures { result ≡ no_host }
    {
        let mut bytes = [0; LONGEST_HOST];
        bytes[0] = b'-';
        Host { bytes, len: 1 }
    }

    /// The bytes that name it.
    #[inline]
    pub fn bytes(&self) -> &[u8]
        ensures value { result.now ≡ self.now }
        ensures host { IsHost self.now }
    {
        &self.bytes[..usize::from(self.len)]
    }
}

impl PartialEq for Host {
    ghost use Rattle.std.specs.Prelude.{bytes_eq};
    ghost use Rattle.std.specs.Cmp.{partial_equiv_from_equiv};
    ghost use Rattle.std.specs.Cmp.Lexicographic.{nat_list_eq_equiv};

    ghost eq = { bytes_eq };

    ghost laws = { partial_equiv_from_equiv nat_list_eq_equiv };

    fn eq(&self, other: &Host) -> bool {
        self.bytes() == other.bytes()
    }
}

impl Eq for Host {
    ghost use Rattle.std.specs.Cmp.Lexicographic.{nat_list_eq_equiv};

    ghost laws = { nat_list_eq_equiv };
}

impl PartialOrd for Host {
    ghost use Rattle.std.specs.Ordering.{nat_cmp, as_partial_cmp};
    ghost use Rattle.std.specs.Cmp.{partial_order_from_own_ties};
    ghost use Rattle.std.specs.Cmp.Lexicographic.{slice_cmp};
    ghost use Rattle.std.proofs.Common.{rules};
    ghost use Rattle.std.specs.Cmp.Rules.{comparing};

    ghost partial_cmp = { as_partial_cmp (slice_cmp nat_cmp) };

    ghost laws = { partial_order_from_own_ties (Prim.search (comparing, rules)) (Prim.search (comparing, rules)) };

    fn partial_cmp(&self, other: &Host) -> Option<Ordering> {
        Some(self.cmp(other))
    }
}

impl Ord for Host {
    ghost use Rattle.std.specs.Ordering.{nat_cmp};
    ghost use Rattle.std.specs.Cmp.Lexicographic.{slice_cmp};
    ghost use Rattle.std.proofs.Common.{rules};
    ghost use Rattle.std.specs.Cmp.Rules.{comparing};

    ghost cmp = { slice_cmp nat_cmp };

    ghost total = { Prim.search (comparing, rules) };

    ghost matches_partial_cmp = { Prim.search (comparing, rules) };

    ghost matches_eq = { Prim.search (comparing, rules) };

    fn cmp(&self, other: &Host) -> Ordering {
        self.bytes().cmp(other.bytes())
    }
}
