use std::cmp::Ordering;
use std::net::IpAddr;

/// Which packet a fragment is of, among those that are under way at one time (RFC 791, section 3.2; RFC 8200, section 4.5).
#[derive(Clone, Copy, Debug)]
pub struct Key {
    /// The host that sent it.
    pub source: IpAddr,
    /// The host to which it went.
    pub target: IpAddr,
    /// The number of the protocol that it carries, in IPv4. None in IPv6, where only the first fragment of a packet tells it.
    pub protocol: Option<u8>,
    /// Its identification: 16 bits in IPv4, 32 in IPv6.
    pub id: u32,
}

impl PartialEq for Key {
    ghost use Rattle.std.specs.Cmp.{eq_by_cmp_equiv, partial_equiv_from_equiv};
    ghost use Rattle.net_udp.specs.Fragments.Key.{same_key};
    ghost use Rattle.net_udp.specs.Fragments.KeyOrder.{key_total};

    ghost eq = { same_key };

    ghost laws = { partial_equiv_from_equiv (eq_by_cmp_equiv key_total) };

    fn eq(&self, other: &Key) -> bool {
        self.cmp(other) == Ordering::Equal
    }
}

impl Eq for Key {
    ghost use Rattle.std.specs.Cmp.{eq_by_cmp_equiv};
    ghost use Rattle.net_udp.specs.Fragments.KeyOrder.{key_total};

    ghost laws = { eq_by_cmp_equiv key_total };
}

impl PartialOrd for Key {
    ghost use Rattle.std.specs.Cmp.{partial_order_from_total};
    ghost use Rattle.std.specs.Ordering.{as_partial_cmp};
    ghost use Rattle.net_udp.specs.Fragments.Key.{key_cmp};
    ghost use Rattle.net_udp.specs.Fragments.KeyOrder.{key_total};

    ghost partial_cmp = { as_partial_cmp key_cmp };

    ghost laws = { partial_order_from_total key_total };

    fn partial_cmp(&self, other: &Key) -> Option<Ordering> {
        Some(self.cmp(other))
    }
}

/// By the identification first, which tells most packets apart.
impl Ord for Key {
    ghost use Rattle.std.proofs.Common.{refl};
    ghost use Rattle.net_udp.specs.Fragments.Key.{key_cmp};
    ghost use Rattle.net_udp.specs.Fragments.KeyOrder.{key_total};

    ghost cmp = { key_cmp };

    ghost total = { key_total };

    ghost matches_partial_cmp = { λ x y. refl };

    ghost matches_eq = { λ x y. refl };

    fn cmp(&self, other: &Key) -> Ordering {
        self.id
            .cmp(&other.id)
            .then(self.protocol.cmp(&other.protocol))
            .then(self.source.cmp(&other.source))
            .then(self.target.cmp(&other.target))
    }
}
