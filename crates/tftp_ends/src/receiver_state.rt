ghost use Rattle.std.specs.Prelude.{◌≡◌, ◌↔◌, ℕ, ◌≤◌, List, ◌∷◌, None, IsTrue, true, Err, OnOk, OnErr, IfErr};
ghost use Rattle.std.specs.FinMap as map;
ghost use Rattle.tftp_packet.specs.{Data, Ack, Error, meaning};
ghost use Rattle.tftp_packet.specs.Hosts.{Datagram};
ghost use Rattle.tftp_packet.specs.{In, Out};
ghost use Rattle.tftp_ends.specs.Blocks.{nothing_held};
ghost use Rattle.law_model.specs.Rules.{IsReceiver, FirstEndBroken, IsHigh};
ghost use Rattle.tftp_ends.specs.NamedEnds.{Receives, HoldsWire};
ghost use Rattle.tftp_ends.specs.Rejections.{IsFound, NoneBroken};
ghost use Rattle.tftp_ends.specs.States.{
  has_stopped,
  stopped_receiver,
  IsReceiverAfter,
  IsBeforeBlocks,
  IsAllTaken,
  IsBlockOrAck,
  IsNewBlock,
  IsOfItsAuthor,
  Says,
};
ghost use Rattle.tftp_ends.specs.declared.rejection.Rejection.{Rejection as RejectionKind};

use crate::block_rules::{ack_zero_waits, hold_block, last_block, may_open};
use crate::blocks::Delivered;
use crate::rejection::Rejection;
use law_model::rules::{EndRule, Terms};
use std::alloc::Global;
use std::marker::Model;
use tftp_packet::Packet;
use tftp_packet::hosts::Dir;

/// The end that gets the file, from when the request is answered. It keeps the blocks and a few numbers, and no list of
/// what has passed.
#[derive(Drop)]
pub struct ReceiverState<D: Delivered> {
    terms: Terms,
    // the blocks that came in
    store: D,
    // the highest ACK that went out
    acked: u32,
    // the highest ACK that went out before an ERROR came in
    usable_acked: u32,
    // whether an ACK 0 went out before an ERROR came in
    zero: bool,
    // whether an ERROR came in
    stopped: bool,
}

impl<D: Delivered> Model for ReceiverState<D> {
    ghost use Rattle.std.specs.Prelude.{◌≡◌};
    ghost use Rattle.tftp_ends.specs.States.{Receiver};
    ghost use Rattle.tftp_ends.specs.StatesKept.{receiver_code, IsSoundReceiver};

    ghost Value = { Receiver };

    ghost coded = { receiver_code };

    ghost view = { λ r. record { terms = r.terms; held = D.held r.store; acked = r.acked; usable_acked = r.usable_acked; zero = r.zero; stopped = r.stopped } };

    ghost invariant = { λ r. IsSoundReceiver (record { terms = r.terms; held = D.held r.store; acked = r.acked; usable_acked = r.usable_acked; zero = r.zero; stopped = r.stopped })
        × (D.block_size r.store ≡ r.terms.blksize) × (D.window r.store ≡ r.terms.windowsize) };
}

impl<D: Delivered> ReceiverState<D> {
    /// The receiver of a transfer whose request was answered, with these terms. `stopped` tells whether an ERROR has come in
    /// before (RFC 1350, section 7). Takes no memory.
    pub fn new(terms: Terms, store: D, stopped: bool) -> Self
        requires receives { IsReceiver terms }
        requires blksize { 8 ≤ terms.blksize }
        requires windowsize { 1 ≤ terms.windowsize }
        requires empty { D.held store ≡ nothing_held }
        requires block_size { D.block_size store ≡ terms.blksize }
        requires window { D.window store ≡ terms.windowsize }
        ensures terms { result.terms ≡ terms }
        ensures before { (passed : List Datagram) → IsBeforeBlocks passed → has_stopped passed ≡ stopped → IsReceiverAfter result passed }
    {
        ReceiverState {
            terms,
            store,
            acked: 0,
            usable_acked: 0,
            zero: false,
            stopped,
        }
    }

    /// Keeps a packet that passes here, or tells the first rule that it breaks (RFC 1350, sections 2, 4 and 5; RFC 2347;
    /// RFC 2348; RFC 2349; RFC 7440, section 4). Memory is taken for a block that is not held alone.
    #[inline(always)]
    pub fn pass(&mut self, alloc: Global, dir: Dir, packet: &Packet<'_>) -> Result<(), Rejection>
        ensures found { (passed : List Datagram) → IsReceiverAfter self.old passed → IsFound self.old.terms passed (meaning packet.now) result }
        ensures after { (passed : List Datagram) (d : Datagram) → IsReceiverAfter self.old passed → Says d dir (meaning packet.now)
            → IsOfItsAuthor self.old.terms dir (meaning packet.now) → OnOk result (IsReceiverAfter self.new (d ∷ passed)) }
        ensures memory { result ≡ Err RejectionKind.Memory → IsNewBlock self.old.held (meaning packet.now) }
        ensures others { OnErr result (IsBlockOrAck (meaning packet.now)) }
        ensures err { OnErr result (self.new ≡ self.old) }
        ensures terms { self.new.terms ≡ self.old.terms }
    {
        match packet {
            Packet::Data { block, bytes } => self.pass_data(alloc, *block, bytes)?,
            Packet::Ack { block } => self.pass_ack(*block)?,
            Packet::Error { .. } => {
                if dir == Dir::In {
                    self.peer_stopped();
                }
            }
            Packet::Request(_) => {}
            Packet::Oack(_) => {}
        }
        Ok(())
    }

    /// Keeps a block that comes in, as `pass` says it.
    #[inline(never)]
    fn pass_data(&mut self, alloc: Global, number: u32, bytes: &[u8]) -> Result<(), Rejection>
        ensures found { (passed : List Datagram) → IsReceiverAfter self.old passed → IsFound self.old.terms passed (Data number bytes.now) result }
        ensures after { (passed : List Datagram) (d : Datagram) → IsReceiverAfter self.old passed → Says d In (Data number bytes.now)
            → OnOk result (IsReceiverAfter self.new (d ∷ passed)) }
        ensures memory { result ≡ Err RejectionKind.Memory → map.get self.old.held number ≡ None }
        ensures err { OnErr result (self.new ≡ self.old) }
        ensures terms { self.new.terms ≡ self.old.terms }
        ensures receives { IsReceiver self.old.terms }
    {
        may_open(
            &self.terms,
            &self.store,
            self.store.highest(),
            self.zero,
            self.usable_acked,
            number,
            bytes.len(),
        )?;
        hold_block(&mut self.store, alloc, number, bytes)?;
        Ok(())
    }

    /// Notes an ACK that goes out, as `pass` says it.
    fn pass_ack(&mut self, number: u32) -> Result<(), EndRule>
        ensures lawful { (passed : List Datagram) → IsReceiverAfter self.old passed
            → OnOk result (NoneBroken self.old.terms passed (Ack number)) }
        ensures first { (passed : List Datagram) → IsReceiverAfter self.old passed
            → IfErr result (FirstEndBroken self.old.terms passed (Ack number)) }
        ensures after { (passed : List Datagram) (d : Datagram) → IsReceiverAfter self.old passed → Says d Out (Ack number)
            → OnOk result (IsReceiverAfter self.new (d ∷ passed)) }
        ensures err { OnErr result (self.new ≡ self.old) }
        ensures terms { self.new.terms ≡ self.old.terms }
        ensures receives { IsReceiver self.old.terms }
    {
        if self.store.front() < number {
            return Err(EndRule::AckAhead);
        }
        if number == 0 && ack_zero_waits(&self.terms, self.store.highest() > 0) {
            return Err(EndRule::AckZero);
        }
        self.acked = self.acked.max(number);
        if self.stopped {
            return Ok(());
        }
        self.usable_acked = self.usable_acked.max(number);
        if number == 0 {
            self.zero = true;
        }
        Ok(())
    }

    /// Notes that an ERROR comes in. What goes out from then on the other end can't have used (RFC 1350, section 7).
    /// Takes no memory, and a second call changes nothing.
    pub fn peer_stopped(&mut self)
        ensures after { (passed : List Datagram) (d : Datagram) (code : ℕ) (text : List ℕ) → IsReceiverAfter self.old passed
            → Says d In (Error code text) → IsReceiverAfter self.new (d ∷ passed) }
        ensures value { self.new ≡ stopped_receiver self.old }
        ensures again { self.old.stopped ≡ true → self.new ≡ self.old }
    {
        self.stopped = true;
    }

    /// Whether all blocks have come and are acknowledged (RFC 1350, section 6).
    pub fn done(&self) -> bool
        ensures done { (passed : List Datagram) → IsReceiverAfter self.now passed
            → (IsTrue result ↔ IsAllTaken self.now.terms passed) }
        ensures whole { (passed : List Datagram) → IsReceiverAfter self.now passed → result ≡ true → HoldsWire (Receives self.now) passed }
    {
        match last_block(&self.terms, &self.store) {
            Some(last) => { last == u64::from(self.store.front()) && last == u64::from(self.acked) }
            None => false,
        }
    }

    /// The highest block that came in, or 0.
    pub fn highest(&self) -> u32
        ensures highest { (passed : List Datagram) → IsReceiverAfter self.now passed → IsHigh passed result }
        ensures low { result ≤ self.now.terms.greatest }
    {
        self.store.highest()
    }

    /// The store with the blocks that came in.
    pub fn store(&self) -> &D
        ensures held { D.held result.now ≡ self.now.held }
        ensures block_size { D.block_size result.now ≡ self.now.terms.blksize }
        ensures window { D.window result.now ≡ self.now.terms.windowsize }
    {
        &self.store
    }

    /// The store with the blocks that came in.
    pub fn into_store(self) -> D
        ensures held { D.held result ≡ self.held }
        ensures block_size { D.block_size result ≡ self.terms.blksize }
        ensures window { D.window result ≡ self.terms.windowsize }
    {
        let ReceiverState { store, .. } = self;
        store
    }
}
