//! The ends between which a datagram went.

ghost use Rattle.std.specs.Prelude.{◌≡◌};
ghost use Rattle.audit_flows.specs.Lines.Recording.{bytes_of, version_of};

use std::cmp::Ordering;

/// An IP address.
#[derive(Clone, Copy, Debug)]
pub enum Address {
    /// Of IP version 4 (RFC 791).
    V4([u8; 4]),
    /// Of IP version 6 (RFC 8200).
    V6([u8; 16]),
}

/// A host and a UDP port there (RFC 768), which is a transfer id (RFC 1350, section 4). Ordered by the port first, since many
/// endpoints of a recording are at one host.
#[derive(Clone, Copy, Debug, PartialEq, Eq, PartialOrd, Ord)]
pub struct Endpoint {
    /// The port there.
    pub port: u16,
    /// The host's address.
    pub address: Address,
}

impl Address {
    /// The IP version, 4 or 6.
    pub fn version(&self) -> u8
        ensures { result ≡ version_of self.now }
    {
        match self {
            Address::V4(_) => 4,
            Address::V6(_) => 6,
        }
    }

    /// Its 4 or 16 bytes, in network order.
    pub fn bytes(&self) -> &[u8]
        ensures { result.now ≡ bytes_of self.now }
    {
        match self {
            Address::V4(bytes) => bytes.as_slice(),
            Address::V6(bytes) => bytes.as_slice(),
        }
    }
}

impl PartialEq for Address {
    ghost use Rattle.std.proofs.Common.{rules};
    ghost use Rattle.std.specs.Cmp.Rules.{comparing};
    ghost use Rattle.audit_flows.specs.Lines.Recording.{same_address};

    ghost eq = { same_address };

    ghost laws = { Prim.search (comparing, rules) };

    fn eq(&self, other: &Address) -> bool {
        self.version() == other.version() && self.bytes() == other.bytes()
    }
}

impl Eq for Address {
    ghost use Rattle.std.proofs.Common.{rules};
    ghost use Rattle.std.specs.Cmp.Rules.{comparing};

    ghost laws = { Prim.search (comparing, rules) };
}

impl PartialOrd for Address {
    ghost use Rattle.std.specs.Cmp.{partial_order_from_own_ties};
    ghost use Rattle.std.proofs.Common.{rules};
    ghost use Rattle.std.specs.Cmp.Rules.{comparing};
    ghost use Rattle.std.specs.Ordering.{as_partial_cmp};
    ghost use Rattle.audit_flows.specs.Lines.Recording.{address_cmp};

    ghost partial_cmp = { as_partial_cmp address_cmp };

    ghost laws = { partial_order_from_own_ties (Prim.search (comparing, rules)) (Prim.search (comparing, rules)) };

    fn partial_cmp(&self, other: &Address) -> Option<Ordering> {
        Some(self.cmp(other))
    }
}

/// By the IP version first.
impl Ord for Address {
    ghost use Rattle.std.proofs.Common.{rules};
    ghost use Rattle.std.specs.Cmp.Rules.{comparing};
    ghost use Rattle.audit_flows.specs.Lines.Recording.{address_cmp};

    ghost cmp = { address_cmp };

    ghost total = { Prim.search (comparing, rules) };

    ghost matches_partial_cmp = { Prim.search (comparing, rules) };

    ghost matches_eq = { Prim.search (comparing, rules) };

    fn cmp(&self, other: &Address) -> Ordering {
        match self.version().cmp(&other.version()) {
            Ordering::Equal => self.bytes().cmp(other.bytes()),
            unequal => unequal,
        }
    }
}
