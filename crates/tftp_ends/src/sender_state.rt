ghost use Rattle.std.specs.Prelude.{◌≡◌, ◌↔◌, ℕ, ◌≤◌, List, ◌∷◌, None, Some, IsTrue, true, Err, OnOk, OnErr, IfErr};
ghost use Rattle.std.specs.FinMap as map;
ghost use Rattle.tftp_packet.specs.{Data, Ack, Error, meaning};
ghost use Rattle.tftp_packet.specs.Hosts.{Datagram};
ghost use Rattle.tftp_packet.specs.{In, Out};
ghost use Rattle.tftp_ends.specs.Blocks.{nothing_held};
ghost use Rattle.law_model.specs.Rules.{IsSender, FirstEndBroken, IsHigh};
ghost use Rattle.tftp_ends.specs.NamedEnds.{Sends, HoldsWire};
ghost use Rattle.tftp_ends.specs.Rejections.{IsFound, NoneBroken};
ghost use Rattle.tftp_ends.specs.States.{
  has_stopped,
  stopped_sender,
  IsSenderAfter,
  IsBeforeBlocks,
  IsAllAnswered,
  IsBlockOrAck,
  IsNewBlock,
  IsOfItsAuthor,
  Says,
};
ghost use Rattle.tftp_ends.specs.declared.rejection.Rejection.{Rejection as RejectionKind};

use crate::block_rules::{ack_zero_waits, hold_block, last_block, may_open};
use crate::blocks::Delivered;
use crate::rejection::Rejection;
use law_model::rules::{EndRule, Terms};
use std::alloc::Global;
use std::marker::Model;
use tftp_packet::Packet;
use tftp_packet::hosts::Dir;

/// The end that sends the file, from when the request is answered. It keeps the blocks and a few numbers, and no list of
/// what has passed.
#[derive(Drop)]
pub struct SenderState<D: Delivered> {
    terms: Terms,
    // the blocks that went out
    store: D,
    // the highest ACK that came in
    answered: u32,
    // whether an ACK 0 came in
    zero: bool,
    // the highest block that went out before an ERROR came in
    usable_top: u32,
    // whether an ERROR came in
    stopped: bool,
}

impl<D: Delivered> Model for SenderState<D> {
    ghost use Rattle.std.specs.Prelude.{◌≡◌};
    ghost use Rattle.tftp_ends.specs.States.{Sender};
    ghost use Rattle.tftp_ends.specs.StatesKept.{sender_code, IsSoundSender};

    ghost Value = { Sender };

    ghost coded = { sender_code };

    ghost view = { λ s. record { terms = s.terms; held = D.held s.store; answered = s.answered; zero = s.zero; usable_top = s.usable_top; stopped = s.stopped } };

    ghost invariant = { λ s. IsSoundSender (record { terms = s.terms; held = D.held s.store; answered = s.answered; zero = s.zero; usable_top = s.usable_top; stopped = s.stopped })
        × (D.block_size s.store ≡ s.terms.blksize) × (D.window s.store ≡ s.terms.windowsize) };
}

impl<D: Delivered> SenderState<D> {
    /// The sender of a transfer whose request was answered, with these terms. `stopped` tells whether an ERROR has come in
    /// before (RFC 1350, section 7). Takes no memory.
    pub fn new(terms: Terms, store: D, stopped: bool) -> Self
        requires sends { IsSender terms }
        requires blksize { 8 ≤ terms.blksize }
        requires windowsize { 1 ≤ terms.windowsize }
        requires empty { D.held store ≡ nothing_held }
        requires block_size { D.block_size store ≡ terms.blksize }
        requires window { D.window store ≡ terms.windowsize }
        ensures terms { result.terms ≡ terms }
        ensures before { (passed : List Datagram) → IsBeforeBlocks passed → has_stopped passed ≡ stopped → IsSenderAfter result passed }
    {
        SenderState {
            terms,
            store,
            answered: 0,
            zero: false,
            usable_top: 0,
            stopped,
        }
    }

    /// Keeps a packet that passes here, or tells the first rule that it breaks (RFC 1350, sections 2, 4 and 5; RFC 2347;
    /// RFC 2348; RFC 2349; RFC 7440, section 4). Memory is taken for a block that is not held alone.
    #[inline(always)]
    pub fn pass(&mut self, alloc: Global, dir: Dir, packet: &Packet<'_>) -> Result<(), Rejection>
        ensures found { (passed : List Datagram) → IsSenderAfter self.old passed → IsFound self.old.terms passed (meaning packet.now) result }
        ensures after { (passed : List Datagram) (d : Datagram) → IsSenderAfter self.old passed → Says d dir (meaning packet.now)
            → IsOfItsAuthor self.old.terms dir (meaning packet.now) → OnOk result (IsSenderAfter self.new (d ∷ passed)) }
        ensures memory { result ≡ Err RejectionKind.Memory → IsNewBlock self.old.held (meaning packet.now) }
        ensures others { OnErr result (IsBlockOrAck (meaning packet.now)) }
        ensures err { OnErr result (self.new ≡ self.old) }
        ensures terms { self.new.terms ≡ self.old.terms }
    {
        match packet {
            Packet::Data { block, bytes } => self.pass_data(alloc, *block, bytes)?,
            Packet::Ack { block } => self.pass_ack(*block)?,
            Packet::Error { .. } => {
                if dir == Dir::In {
                    self.peer_stopped();
                }
            }
            Packet::Request(_) => {}
            Packet::Oack(_) => {}
        }
        Ok(())
    }

    /// Keeps a block that goes out, as `pass` says it.
    #[inline(never)]
    fn pass_data(&mut self, alloc: Global, number: u32, bytes: &[u8]) -> Result<(), Rejection>
        ensures found { (passed : List Datagram) → IsSenderAfter self.old passed → IsFound self.old.terms passed (Data number bytes.now) result }
        ensures after { (passed : List Datagram) (d : Datagram) → IsSenderAfter self.old passed → Says d Out (Data number bytes.now)
            → OnOk result (IsSenderAfter self.new (d ∷ passed)) }
        ensures memory { result ≡ Err RejectionKind.Memory → map.get self.old.held number ≡ None }
        ensures err { OnErr result (self.new ≡ self.old) }
        ensures terms { self.new.terms ≡ self.old.terms }
        ensures sends { IsSender self.old.terms }
    {
        let top = self.store.highest();
        may_open(
            &self.terms,
            &self.store,
            top,
            self.zero,
            self.answered,
            number,
            bytes.len(),
        )?;
        if u64::from(top) + 1 < u64::from(number) {
            return Err(Rejection::Broken(EndRule::BlockSkipped));
        }
        if self.terms.windowsize == 1 && number < top {
            return Err(Rejection::Broken(EndRule::GoneBack));
        }
        hold_block(&mut self.store, alloc, number, bytes)?;
        if !self.stopped {
            self.usable_top = self.usable_top.max(number);
        }
        Ok(())
    }

    /// Notes an ACK that comes in, as `pass` says it.
    fn pass_ack(&mut self, number: u32) -> Result<(), EndRule>
        ensures lawful { (passed : List Datagram) → IsSenderAfter self.old passed
            → OnOk result (NoneBroken self.old.terms passed (Ack number)) }
        ensures first { (passed : List Datagram) → IsSenderAfter self.old passed
            → IfErr result (FirstEndBroken self.old.terms passed (Ack number)) }
        ensures after { (passed : List Datagram) (d : Datagram) → IsSenderAfter self.old passed → Says d In (Ack number)
            → OnOk result (IsSenderAfter self.new (d ∷ passed)) }
        ensures err { OnErr result (self.new ≡ self.old) }
        ensures terms { self.new.terms ≡ self.old.terms }
        ensures sends { IsSender self.old.terms }
    {
        if self.usable_top < number {
            return Err(EndRule::AckAhead);
        }
        if number == 0 && ack_zero_waits(&self.terms, self.usable_top > 0) {
            return Err(EndRule::AckZero);
        }
        self.answered = self.answered.max(number);
        if number == 0 {
            self.zero = true;
        }
        Ok(())
    }

    /// Notes that an ERROR comes in. What goes out from then on the other end can't have used (RFC 1350, section 7).
    /// Takes no memory, and a second call changes nothing.
    pub fn peer_stopped(&mut self)
        ensures after { (passed : List Datagram) (d : Datagram) (code : ℕ) (text : List ℕ) → IsSenderAfter self.old passed
            → Says d In (Error code text) → IsSenderAfter self.new (d ∷ passed) }
        ensures value { self.new ≡ stopped_sender self.old }
        ensures again { self.old.stopped ≡ true → self.new ≡ self.old }
    {
        self.stopped = true;
    }

    /// Whether all blocks are acknowledged (RFC 1350, section 6).
    pub fn done(&self) -> bool
        ensures done { (passed : List Datagram) → IsSenderAfter self.now passed
            → (IsTrue result ↔ IsAllAnswered self.now.terms passed) }
        ensures whole { (passed : List Datagram) → IsSenderAfter self.now passed → result ≡ true → HoldsWire (Sends self.now) passed }
    {
        match last_block(&self.terms, &self.store) {
            Some(last) => last == u64::from(self.answered),
            None => false,
        }
    }

    /// Whether this block went out, with these bytes (RFC 1350, section 2).
    pub fn has_sent(&self, number: u32, bytes: &[u8]) -> bool
        ensures { IsTrue result ↔ (map.get self.now.held number ≡ Some bytes.now) }
    {
        match self.store.block(number) {
            Some(held) => held == bytes,
            None => false,
        }
    }

    /// The highest block that went out, or 0.
    pub fn highest(&self) -> u32
        ensures highest { (passed : List Datagram) → IsSenderAfter self.now passed → IsHigh passed result }
        ensures low { result ≤ self.now.terms.greatest }
    {
        self.store.highest()
    }

    /// The store with the blocks that went out.
    pub fn store(&self) -> &D
        ensures held { D.held result.now ≡ self.now.held }
        ensures block_size { D.block_size result.now ≡ self.now.terms.blksize }
        ensures window { D.window result.now ≡ self.now.terms.windowsize }
    {
        &self.store
    }

    /// The store with the blocks that went out.
    pub fn into_store(self) -> D
        ensures held { D.held result ≡ self.held }
        ensures block_size { D.block_size result ≡ self.terms.blksize }
        ensures window { D.window result ≡ self.terms.windowsize }
    {
        let SenderState { store, .. } = self;
        store
    }
}
