ghost use Rattle.std.specs.Prelude.{◌≡◌, ◌||◌, false, [], OnOk, OnErr};
ghost use Rattle.law_tap.specs.TapPorts.{WayIds, same_way, is_noted};

use std::alloc::{AllocError, Global};
use std::collections::BTreeSet;
use std::marker::Model;
use tftp_packet::hosts::Peer;

/// From where to where a datagram goes.
#[derive(Clone, Copy, PartialEq, Eq, PartialOrd, Ord)]
pub struct Way {
    /// Where it comes from.
    pub from: Peer,
    /// Where it goes.
    pub to: Peer,
}

impl Model for Way {
    ghost use Rattle.law_tap.specs.TapPorts.{WayIds};

    ghost Value = { WayIds };

    ghost view = { λ w. record { from = w.from; to = w.to } };

    ghost inverse = { λ v. record { from = v.from; to = v.to } };
}

/// The ways that datagrams went.
#[derive(Drop)]
pub struct Ways {
    ways: BTreeSet<Way>,
}

impl Model for Ways {
    ghost use Rattle.std.specs.Prelude.{List};
    ghost use Rattle.law_tap.specs.TapPorts.{WayIds};

    ghost Value = { List WayIds };

    ghost view = { λ s. s.ways.keys };
}

impl Ways {
    /// No way. Takes no memory.
    pub fn new(alloc: Global) -> Self
        ensures { result ≡ [] }
    {
        Ways {
            ways: BTreeSet::new(alloc),
        }
    }

    /// Whether a datagram went this way.
    pub fn have(&self, way: Way) -> bool
        ensures { result ≡ is_noted way self.now }
    {
        self.ways.contains(&way)
    }

    /// Notes that a datagram went this way. Takes memory only for a way that was not noted.
    pub fn note(&mut self, way: Way) -> Result<(), AllocError>
        ensures ok { OnOk result ((other : WayIds) → is_noted other self.new ≡ (same_way way other || is_noted other self.old)) }
        ensures err { OnErr result (self.new ≡ self.old) }
        ensures absent { OnErr result (is_noted way self.old ≡ false) }
    {
        self.ways.insert(way)?;
        Ok(())
    }
}
