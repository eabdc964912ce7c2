ghost use Rattle.std.specs.Prelude.{◌≡◌, ◌↔◌, ◌≤◌, List, ◌∷◌, IsTrue, true, Err, OnOk, OnErr};
ghost use Rattle.tftp_packet.specs.{meaning};
ghost use Rattle.tftp_packet.specs.Hosts.{Datagram};
ghost use Rattle.law_model.specs.Model.Roles.{sender_of as sends};
ghost use Rattle.tftp_ends.specs.Blocks.{nothing_held};
ghost use Rattle.law_model.specs.Rules.{IsHigh};
ghost use Rattle.tftp_ends.specs.Rejections.{IsFound};
ghost use Rattle.tftp_ends.specs.States.{has_stopped, IsBeforeBlocks, IsBlockOrAck, IsNewBlock, IsOfItsAuthor, Says};
ghost use Rattle.tftp_ends.specs.NamedEnds.{terms_of, held_of, IsEndAfter, IsEndDone, HoldsBlock, HoldsWire};
ghost use Rattle.tftp_ends.specs.declared.rejection.Rejection.{Rejection as RejectionKind};

use crate::blocks::Delivered;
use crate::receiver_state::ReceiverState;
use crate::rejection::Rejection;
use crate::sender_state::SenderState;
use law_model::rules::Terms;
use std::alloc::Global;
use std::marker::Model;
use tftp_packet::hosts::Dir;
use tftp_packet::{End, Packet, Side};

/// Which role the named end has.
#[derive(Drop)]
enum Role<D: Delivered> {
    Sends(SenderState<D>),
    Receives(ReceiverState<D>),
}

/// The end where a capture is taken, from when the request is answered: the sender or the receiver.
#[derive(Drop)]
pub struct NamedEnd<D: Delivered> {
    role: Role<D>,
}

impl<D: Delivered> Model for NamedEnd<D> {
    ghost use Rattle.tftp_ends.specs.NamedEnds.{NamedEnd};
    ghost use Rattle.tftp_ends.specs.Roles.{end_of, named_end_code};

    ghost Value = { NamedEnd };

    ghost coded = { named_end_code };

    ghost view = { λ e. end_of e.role };
}

impl<D: Delivered> NamedEnd<D> {
    /// The end of a transfer whose request was answered, with these terms. `stopped` tells whether an ERROR has come in
    /// before (RFC 1350, section 7). Takes no memory.
    pub fn new(terms: Terms, store: D, stopped: bool) -> Self
        requires blksize { 8 ≤ terms.blksize }
        requires windowsize { 1 ≤ terms.windowsize }
        requires empty { D.held store ≡ nothing_held }
        requires block_size { D.block_size store ≡ terms.blksize }
        requires window { D.window store ≡ terms.windowsize }
        ensures terms { terms_of result ≡ terms }
        ensures before { (passed : List Datagram) → IsBeforeBlocks passed → has_stopped passed ≡ stopped → IsEndAfter result passed }
    {
        let role = if terms.named == sender_of(terms.side) {
            Role::Sends(SenderState::new(terms, store, stopped))
        } else {
            Role::Receives(ReceiverState::new(terms, store, stopped))
        };
        NamedEnd { role }
    }

    /// Keeps a packet that passes this way, or tells the first rule that it breaks: a block or an ACK, since other packets
    /// break none of these rules (RFC 1350, sections 2, 4 and 5; RFC 2347; RFC 2348; RFC 2349; RFC 7440, section 4). Memory
    /// is taken for a block that is not held alone.
    #[inline(always)]
    pub fn pass(&mut self, alloc: Global, dir: Dir, packet: &Packet<'_>) -> Result<(), Rejection>
        ensures found { (passed : List Datagram) → IsEndAfter self.old passed → IsFound (terms_of self.old) passed (meaning packet.now) result }
        ensures after { (passed : List Datagram) (d : Datagram) → IsEndAfter self.old passed → Says d dir (meaning packet.now)
            → IsOfItsAuthor (terms_of self.old) dir (meaning packet.now) → OnOk result (IsEndAfter self.new (d ∷ passed)) }
        ensures memory { result ≡ Err RejectionKind.Memory → IsNewBlock (held_of self.old) (meaning packet.now) }
        ensures others { OnErr result (IsBlockOrAck (meaning packet.now)) }
        ensures err { OnErr result (self.new ≡ self.old) }
        ensures terms { terms_of self.new ≡ terms_of self.old }
    {
        match &mut self.role {
            Role::Sends(sender) => sender.pass(alloc, dir, packet),
            Role::Receives(receiver) => receiver.pass(alloc, dir, packet),
        }
    }

    /// Whether the transfer is over at this end (RFC 1350, section 6).
    pub fn done(&self) -> bool
        ensures done { (passed : List Datagram) → IsEndAfter self.now passed → (IsTrue result ↔ IsEndDone self.now passed) }
        ensures whole { (passed : List Datagram) → IsEndAfter self.now passed → result ≡ true → HoldsWire self.now passed }
    {
        match &self.role {
            Role::Sends(sender) => sender.done(),
            Role::Receives(receiver) => receiver.done(),
        }
    }

    /// The highest block that has passed, or 0.
    pub fn highest(&self) -> u32
        ensures highest { (passed : List Datagram) → IsEndAfter self.now passed → IsHigh passed result }
        ensures low { result ≤ (terms_of self.now).greatest }
    {
        match &self.role {
            Role::Sends(sender) => sender.highest(),
            Role::Receives(receiver) => receiver.highest(),
        }
    }

    /// Whether this end has sent this block, with these bytes (RFC 1350, section 2). A receiver has sent none, whatever it
    /// holds.
    pub fn has_sent(&self, number: u32, bytes: &[u8]) -> bool
        ensures { IsTrue result ↔ HoldsBlock self.now number bytes.now }
    {
        match &self.role {
            Role::Sends(sender) => sender.has_sent(number, bytes),
            Role::Receives(_) => false,
        }
    }

    /// The store with the blocks that have passed.
    pub fn into_store(self) -> D
        ensures { D.held result ≡ held_of self }
    {
        let NamedEnd { role } = self;
        match role {
            Role::Sends(sender) => sender.into_store(),
            Role::Receives(receiver) => receiver.into_store(),
        }
    }
}

/// The end that sends the file (RFC 1350, section 1).
fn sender_of(side: Side) -> End
    ensures { result ≡ sends side }
{
    match side {
        Side::Get => End::Server,
        Side::Put => End::Client,
    }
}
