ghost use Rattle.std.specs.Prelude.{◌≡◌, ℕ, List, [], ◌∷◌, false, OnOk, OnErr};
ghost use Rattle.tftp_packet.specs.{opcode_of};
ghost use Rattle.law_tap.specs.TapCapture.{TapDatagram, TapSides};
ghost use Rattle.law_tap.specs.TapRoutes.{has_gone, tap_route};
ghost use Rattle.law_tap.specs.TapPorts.{StandsForTap};

use crate::route::TapRoute;
use crate::sides::{Passing, Sides};
use crate::ways::{Way, Ways};
use std::alloc::{AllocError, Global};
use std::marker::Model;
use tftp_packet::hosts::Peer;
use tftp_packet::rounds::Rollover;

/// The ports of a tap: the sides of one transfer, and from where to where datagrams have gone (RFC 1350, section 4).
#[derive(Drop)]
pub struct TapPorts {
    sides: Sides,
    ways: Ways,
}

impl Model for TapPorts {
    ghost use Rattle.law_tap.specs.TapPorts.{KnownWays};

    ghost Value = { KnownWays };

    ghost view = { λ p. record { sides = p.sides; ways = p.ways } };
}

impl TapPorts {
    /// Before the first datagram of a transfer with these sides. Takes no memory.
    pub fn new(alloc: Global, sides: Sides) -> Self
        ensures { StandsForTap result sides [] }
    {
        TapPorts {
            sides,
            ways: Ways::new(alloc),
        }
    }

    /// What comes after block 65535, where anything does.
    pub fn rollover(&self) -> Option<Rollover>
        ensures { result ≡ self.now.sides.rollover }
    {
        self.sides.rollover
    }

    /// Where a datagram belongs that goes from here to there, after those that have passed; its opcode is the first two bytes of
    /// its payload, as a number, and 0 where it has none.
    pub fn route(&self, source: Peer, destination: Peer, opcode: u16) -> TapRoute
        ensures { (s : TapSides) (earlier : List TapDatagram) (payload : List ℕ) → StandsForTap self.now s earlier → opcode_of payload ≡ opcode
            → result ≡ tap_route s earlier (record { source = source; destination = destination; payload = payload }) }
    {
        let answers = self.ways.have(Way {
            from: destination,
            to: source,
        });
        let answered = self.ways.have(Way {
            from: self.sides.server,
            to: self.sides.client,
        });
        let passing = Passing {
            source,
            destination,
            opcode,
            answers,
        };
        self.sides.route(&passing, answered)
    }

    /// Notes a datagram that has passed. Takes memory only for one that goes a way that none has gone; after want of it nothing
    /// has changed.
    pub fn note(&mut self, source: Peer, destination: Peer) -> Result<(), AllocError>
        ensures ok { (s : TapSides) (earlier : List TapDatagram) (payload : List ℕ) → StandsForTap self.old s earlier
            → OnOk result (StandsForTap self.new s (record { source = source; destination = destination; payload = payload } ∷ earlier)) }
        ensures err { OnErr result (self.new ≡ self.old) }
        ensures absent { (s : TapSides) (earlier : List TapDatagram) → StandsForTap self.old s earlier
            → OnErr result (has_gone source destination earlier ≡ false) }
    {
        self.ways.note(Way {
            from: source,
            to: destination,
        })?;
        Ok(())
    }
}
