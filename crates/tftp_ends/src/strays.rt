ghost use Rattle.std.specs.Prelude.{◌≡◌, ◌↔◌, ◌||◌, ℕ, List, [], false, IsTrue, OnOk, OnErr};
ghost use Rattle.tftp_packet.specs.{Message, Spells};
ghost use Rattle.tftp_packet.specs.Hosts.{PeerId, same_peer};
ghost use Rattle.tftp_ends.specs.Known.{is_noted};

use crate::linked::{Linked, add, is_full, is_linked, mark};
use std::alloc::{AllocError, Global};
use std::collections::BTreeSet;
use std::marker::Model;
use tftp_packet::hosts::Peer;
use tftp_packet::{Packet, read_packet};

/// The peers that strays came from, each in a row that its hash leads to, or in a tree where that row is full.
#[derive(Drop)]
pub struct Strays {
    alloc: Global,
    /// Of each row how many peers are linked up to its latest one, or 0.
    latest: Vec<u32>,
    links: Vec<Linked>,
    others: BTreeSet<Peer>,
}

impl Model for Strays {
    ghost use Rattle.std.specs.Prelude.{List, ◌++◌};
    ghost use Rattle.tftp_packet.specs.Hosts.Capture.{PeerId};
    ghost use Rattle.tftp_ends.specs.Rows.{IsLinked, peers_of};

    ghost Value = { List PeerId };

    ghost view = { λ s. peers_of s.links.items ++ s.others.keys };

    ghost invariant = { λ s. IsLinked s.latest.items s.links.items };
}

impl Strays {
    /// No peer. Takes no memory.
    pub fn new(alloc: Global) -> Self
        ensures { result ≡ [] }
    {
        Strays {
            alloc,
            latest: Vec::new(alloc),
            links: Vec::new(alloc),
            others: BTreeSet::new(alloc),
        }
    }

    /// Whether a stray came from this peer.
    pub fn have(&self, peer: Peer) -> bool
        ensures { result ≡ is_noted peer self.now }
    {
        is_linked(&self.latest, &self.links, &peer, mark(&peer)) || self.others.contains(&peer)
    }

    /// Notes that a stray came from this peer. Takes memory only for a peer that was not noted.
    pub fn note(&mut self, peer: Peer) -> Result<(), AllocError>
        ensures ok { OnOk result ((other : PeerId) → is_noted other self.new ≡ (same_peer peer other || is_noted other self.old)) }
        ensures err { OnErr result (self.new ≡ self.old) }
        ensures absent { OnErr result (is_noted peer self.old ≡ false) }
    {
        let mark = mark(&peer);
        if is_linked(&self.latest, &self.links, &peer, mark) {
            return Ok(());
        }
        if is_full(&self.latest, &self.links, mark) {
            self.others.insert(peer)?;
            return Ok(());
        }
        if self.others.contains(&peer) {
            return Ok(());
        }
        add(self.alloc, &mut self.latest, &mut self.links, peer, mark)?;
        Ok(())
    }
}

/// Whether a payload is ERROR 5, "Unknown transfer ID", by which a stray may be answered (RFC 1350, sections 4 and 5).
pub fn says_unknown_id(payload: &[u8]) -> bool
    ensures { IsTrue result ↔ ((text : List ℕ) × Spells payload.now (Message.Error 5 text)) }
{
    match read_packet(payload) {
        Ok(packet) => matches!(packet, Packet::Error { code: 5, .. }),
        Err(_) => false,
    }
}
