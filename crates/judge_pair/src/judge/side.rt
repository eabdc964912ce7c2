ghost use Rattle.std.specs.Prelude.{◌≡◌, ◌↔◌, ◌+◌, ◌^◌, ◌<◌, ◌≤◌, ℕ, List, [], ◌∷◌, length, IsTrue, false, true, None, Some, is_some, Err, OnOk, IfOk, IfErr, IfNone, IfSome, ◌⊎◌};
ghost use Rattle.tftp_capture.specs.{datagram_of, header_of};
ghost use Rattle.tftp_packet.specs.Hosts.{Datagram as DatagramParts, Header as HeaderParts};
ghost use Rattle.tftp_packet.specs.{Out, Rollover as RolloverKind, meaning};
ghost use Rattle.law_model.specs.Rules.{IsHigh, Passed, is_of_transfer, route_of, transfer_of};
ghost use Rattle.law_rollover.specs.{IsTaken};
ghost use Rattle.law_end.specs.{Passes};
ghost use Rattle.tftp_judge.specs.{IsJudgeAfter, Refuses, AreFlags, Refusal as RefusalKind};
ghost use Rattle.judge_pair.specs.Blocks.{at_block, with_block};
ghost use Rattle.judge_pair.specs.Counts.{AreCounted, AreLostBetween, AreRepeatedBetween};
ghost use Rattle.judge_pair.specs.Judge.Merging.{AreMergedBut, IsAskedAgain, IsWaitFor, WasSent, with_held};
ghost use Rattle.judge_pair.specs.Judge.Flags.{HasRoom, flags_in};
ghost use Rattle.judge_pair.specs.Judge.Kept.{AreSidesAfter, CountsOn, HasSame, IsNumbered, IsSideAfter};

use crate::blocks::{block_by, block_in, packet_by};
use crate::counts::{Carried, Counts};
use crate::judge::acks::AckFlags;
use crate::judge::waiting::Wait;
use std::alloc::{AllocError, Global};
use std::marker::Model;
use std::mem;
use tftp_capture::{Datagram, Header};
use tftp_ends::blocks::Delivered;
use tftp_judge::{Judge, Refusal};
use tftp_packet::hosts::Dir;
use tftp_packet::rounds::Rollover;
use tftp_packet::{Packet, ack_of, block_of};

/// A datagram that was accepted.
#[derive(Clone, Copy, Debug, PartialEq, Eq)]
pub struct Accepted {
    /// Whether it is one of the transfer.
    pub of_transfer: bool,
    /// The block that its number was read as, where numbers begin again.
    pub block: Option<u32>,
}

/// One end of a pair: its judge, the ACKs that it has sent, and its last datagram where that came in and waits for what the
/// other end sends.
#[derive(Drop)]
pub struct Side<D: Delivered + Drop> {
    judge: Judge<D>,
    acks: AckFlags,
    /// The highest block that was sent or taken, or 0.
    highest: u32,
    waits: bool,
    /// The datagram that waits, or memory for one.
    kept: Datagram,
    /// The block that its number was read as, where numbers begin again.
    block: Option<u32>,
    /// How often each packet passed; none once memory ran out for it.
    counts: Option<Counts>,
}

impl<D: Delivered + Drop> Model for Side<D> {
    ghost use Rattle.std.specs.Prelude.{Some, None, if◌then◌else◌};
    ghost use Rattle.std.specs.Coded.{codes};
    ghost use Rattle.tftp_capture.specs.Fields.{datagram_of};
    ghost use Rattle.tftp_ends.specs.StatesKept.{sender_code, receiver_code};
    ghost use Rattle.tftp_packet.specs.Owned.{options_code, parts_code};
    ghost use Rattle.judge_pair.specs.Blocks.{at_block};
    ghost use Rattle.judge_pair.specs.Judge.Kept.{Side};

    ghost Value = { Side };

    ghost coded = { Prim.hlevel (codes, sender_code, receiver_code, options_code, parts_code) };

    ghost view = { λ s. record {
      judge = s.judge;
      acks = s.acks;
      highest = s.highest;
      held = if s.waits then Some (at_block s.block (datagram_of s.kept)) else None;
      counts = s.counts;
    } };
}

impl<D: Delivered + Drop> Side<D> {
    /// An end of which nothing was read, of a capture with this header. Takes no memory.
    pub fn new(alloc: Global, header: &Header) -> Self
        ensures after { IsSideAfter result (header_of header.now) [] }
        ensures free { result.held ≡ None }
        ensures goes_on { result.judge.refused ≡ None }
    {
        Side::of(alloc, header, AckFlags::of_numbers())
    }

    /// The same with a flag for each block, so that it can be fed where numbers begin again.
    pub fn new_numbered(alloc: Global, header: &Header) -> Result<Self, AllocError>
        ensures after { IfOk result (λ side. IsSideAfter side (header_of header.now) []) }
        ensures free { IfOk result (λ side. side.held ≡ None) }
        ensures goes_on { IfOk result (λ side. side.judge.refused ≡ None) }
        ensures numbered { IfOk result IsNumbered }
    {
        let acks = AckFlags::of_blocks(alloc)?;
        Ok(Side::of(alloc, header, acks))
    }

    /// The same with these flags, of which none is set.
    pub fn of(alloc: Global, header: &Header, acks: AckFlags) -> Self
        requires none { (j : ℕ) → flags_in acks j ≡ false }
        ensures after { IsSideAfter result (header_of header.now) [] }
        ensures free { result.held ≡ None }
        ensures goes_on { result.judge.refused ≡ None }
        ensures acks { result.acks ≡ acks }
    {
        Side {
            judge: Judge::new(alloc, header),
            acks,
            highest: 0,
            waits: false,
            kept: Datagram::empty(alloc),
            block: None,
            counts: Some(Counts::new(alloc)),
        }
    }

    /// Whether the last datagram that was read waits.
    #[inline]
    pub fn waits(&self) -> bool
        ensures { result ≡ is_some self.now.held }
    {
        self.waits
    }

    /// How many datagrams the judge has accepted.
    #[inline]
    pub fn fed(&self) -> u64
        ensures { result ≡ self.now.judge.fed }
    {
        self.judge.fed()
    }

    /// How many datagrams are merged: all that the judge has accepted, but the one that waits.
    #[inline]
    pub fn merged(&self) -> u64
        ensures { (part : List DatagramParts) → self.now.judge.fed ≡ length (with_held self.now.held part) → result ≡ length part }
    {
        self.judge.fed().saturating_sub(u64::from(self.waits))
    }

    /// The judge of this end, and how often each packet passed; None once memory ran out for that.
    pub fn into_parts(self) -> (Judge<D>, Option<Counts>)
        ensures judge { result.0 ≡ self.judge }
        ensures counts { result.1 ≡ self.counts }
    {
        (self.judge, self.counts)
    }

    /// Why the datagram that waits here does, where the other end has read all that it is to.
    pub fn why(&self, other: &Self) -> Option<Wait>
        ensures { (h : HeaderParts) (read : List DatagramParts) → IsSideAfter other.now h read
            → IsWaitFor self.now.held (transfer_of h read) result }
    {
        if !self.waits {
            return None;
        }
        if other.has_sent(self.block, self.kept.payload.as_slice()) {
            Some(Wait::SentLater)
        } else {
            Some(Wait::Unsent)
        }
    }

    /// Whether this end has sent what a payload says that was read by this block (RFC 1350, section 2).
    fn has_sent(&self, block: Option<u32>, payload: &[u8]) -> bool
        ensures { (h : HeaderParts) (read : List DatagramParts) → IsSideAfter self.now h read
            → (IsTrue result ↔ WasSent (with_block block payload.now) (transfer_of h read)) }
    {
        match packet_by(block, payload) {
            Ok(packet) => self.has_sent_packet(&packet),
            Err(_) => false,
        }
    }

    /// Whether this end has sent this packet, the same message.
    fn has_sent_packet(&self, packet: &Packet<'_>) -> bool
        ensures { (h : HeaderParts) (read : List DatagramParts) → IsSideAfter self.now h read
            → (IsTrue result ↔ Passed Out (meaning packet.now) (transfer_of h read)) }
    {
        match packet {
            Packet::Ack { block } => self.acks.has(*block),
            _ => self.judge.has_sent(self.acks.numbers(), packet),
        }
    }

    /// Notes a datagram of the transfer that was read by this block: an ACK that went out, how often its packet passed, and the
    /// highest block.
    fn note(&mut self, block: Option<u32>, datagram: &Datagram)
        requires room { HasRoom self.old.acks block }
        ensures acks { (passed : List DatagramParts) → AreFlags (flags_in self.old.acks) passed
            → AreFlags (flags_in self.new.acks) (at_block block (datagram_of datagram.now) ∷ passed) }
        ensures counted { (passed : List DatagramParts) → AreCounted self.old.counts passed
            → AreCounted self.new.counts (at_block block (datagram_of datagram.now) ∷ passed) }
        ensures counting { CountsOn self.old.counts self.new.counts (at_block block (datagram_of datagram.now)) }
        ensures high { (passed : List DatagramParts) → IsHigh passed self.old.highest
            → IsHigh (at_block block (datagram_of datagram.now) ∷ passed) self.new.highest }
        ensures judge { self.new.judge ≡ self.old.judge }
        ensures held { self.new.held ≡ self.old.held }
        ensures room { is_some self.new.acks.blocks ≡ is_some self.old.acks.blocks }
    {
        self.note_ack(block, datagram);
        self.count(block, datagram);
        self.raise(block, datagram.payload.as_slice());
    }

    /// Notes an ACK that went out.
    fn note_ack(&mut self, block: Option<u32>, datagram: &Datagram)
        requires room { HasRoom self.old.acks block }
        ensures acks { (passed : List DatagramParts) → AreFlags (flags_in self.old.acks) passed
            → AreFlags (flags_in self.new.acks) (at_block block (datagram_of datagram.now) ∷ passed) }
        ensures judge { self.new.judge ≡ self.old.judge }
        ensures highest { self.new.highest ≡ self.old.highest }
        ensures held { self.new.held ≡ self.old.held }
        ensures counts { self.new.counts ≡ self.old.counts }
        ensures room { is_some self.new.acks.blocks ≡ is_some self.old.acks.blocks }
    {
        match datagram.dir {
            Dir::Out => self.note_sent(block, datagram.payload.as_slice()),
            Dir::In => {}
        }
    }

    /// Notes a payload that went out, where it is an ACK.
    fn note_sent(&mut self, block: Option<u32>, payload: &[u8])
        requires room { HasRoom self.old.acks block }
        ensures acks { (passed : List DatagramParts) (d : DatagramParts) → d.dir ≡ Out → d.payload ≡ with_block block payload.now
            → AreFlags (flags_in self.old.acks) passed → AreFlags (flags_in self.new.acks) (d ∷ passed) }
        ensures judge { self.new.judge ≡ self.old.judge }
        ensures highest { self.new.highest ≡ self.old.highest }
        ensures held { self.new.held ≡ self.old.held }
        ensures counts { self.new.counts ≡ self.old.counts }
        ensures room { is_some self.new.acks.blocks ≡ is_some self.old.acks.blocks }
    {
        if let Some(number) = ack_of(payload) {
            self.acks.note(number, block);
        }
    }

    /// Counts a datagram of the transfer, while there is memory for it.
    fn count(&mut self, block: Option<u32>, datagram: &Datagram)
        requires room { HasRoom self.old.acks block }
        ensures counted { (passed : List DatagramParts) → AreCounted self.old.counts passed
            → AreCounted self.new.counts (at_block block (datagram_of datagram.now) ∷ passed) }
        ensures counting { CountsOn self.old.counts self.new.counts (at_block block (datagram_of datagram.now)) }
        ensures judge { self.new.judge ≡ self.old.judge }
        ensures acks { self.new.acks ≡ self.old.acks }
        ensures highest { self.new.highest ≡ self.old.highest }
        ensures held { self.new.held ≡ self.old.held }
    {
        let counts = self.counts.take();
        self.counts = Counts::note_block(counts, datagram.dir, datagram.payload.as_slice(), block);
    }

    /// Keeps the highest block, with that of a payload of the transfer.
    fn raise(&mut self, block: Option<u32>, payload: &[u8])
        ensures high { (passed : List DatagramParts) (d : DatagramParts) → d.payload ≡ with_block block payload.now
            → IsHigh passed self.old.highest → IsHigh (d ∷ passed) self.new.highest }
        ensures judge { self.new.judge ≡ self.old.judge }
        ensures acks { self.new.acks ≡ self.old.acks }
        ensures held { self.new.held ≡ self.old.held }
        ensures counts { self.new.counts ≡ self.old.counts }
    {
        if let Some((number, _)) = block_of(payload) {
            self.highest = self.highest.max(block_by(number, block));
        }
    }

    /// What the network lost and repeated of what this end and the other have sent each other; None once memory ran out for
    /// that.
    pub fn carried(&self, other: &Self) -> Option<Carried>
        ensures none { (h k : HeaderParts) (read other_read : List DatagramParts) → IsSideAfter self.now h read → IsSideAfter other.now k other_read
            → IfNone result ((self.now.counts ≡ None) ⊎ (other.now.counts ≡ None)) }
        ensures lost { IfSome result (λ carried. (h k : HeaderParts) (read other_read : List DatagramParts) → IsSideAfter self.now h read
            → IsSideAfter other.now k other_read → AreLostBetween (transfer_of h read) (transfer_of k other_read) carried.lost) }
        ensures repeated { IfSome result (λ carried. (h k : HeaderParts) (read other_read : List DatagramParts) → IsSideAfter self.now h read
            → IsSideAfter other.now k other_read → AreRepeatedBetween (transfer_of h read) (transfer_of k other_read) carried.repeated) }
    {
        match &self.counts {
            Some(counts) => match &other.counts {
                Some(others) => Carried::between(counts, others),
                None => None,
            },
            None => None,
        }
    }

    /// Takes the next datagram of this end, by the rules at this end alone, whose numbers begin again or do not. Tells whether it is
    /// one of the transfer, and the block that it was read as.
    pub fn feed(
        &mut self,
        alloc: Global,
        rollover: Option<Rollover>,
        datagram: &Datagram,
    ) -> Result<Accepted, Refusal>
        requires few { self.old.judge.fed < 2 ^ 40 }
        requires short { length datagram.now.payload ≤ 65527 }
        requires numbered { (r : RolloverKind) → rollover ≡ Some r → IsNumbered self.old }
        ensures accepts { (h : HeaderParts) (read : List DatagramParts) (d : DatagramParts) → IsSideAfter self.old h read
            → IsTaken rollover (transfer_of h read) (datagram_of datagram.now) d
            → IfOk result (λ accepted. Passes h read d × IsSideAfter self.new h (d ∷ read)
            × (is_of_transfer (route_of h read d) ≡ accepted.of_transfer) × (d ≡ at_block accepted.block (datagram_of datagram.now))) }
        ensures refuses { (h : HeaderParts) (read : List DatagramParts) (d : DatagramParts) → IsSideAfter self.old h read
            → IsTaken rollover (transfer_of h read) (datagram_of datagram.now) d → self.old.judge.refused ≡ None → IfErr result (Refuses h read d) }
        ensures stays { (h : HeaderParts) (read : List DatagramParts) → IsSideAfter self.old h read
            → IfErr result (λ refusal. IsSideAfter self.new h read) }
        ensures keeps { IfErr result (λ refusal. self.new.judge.refused ≡ Some refusal) }
        ensures goes_on { self.old.judge.refused ≡ None → OnOk result (self.new.judge.refused ≡ None) }
        ensures for_good { (refusal : RefusalKind) → self.old.judge.refused ≡ Some refusal → (result ≡ Err refusal) × (self.new ≡ self.old) }
        ensures held { self.new.held ≡ self.old.held }
        ensures counts { OnOk result (self.new.judge.fed ≡ self.old.judge.fed + 1) }
        ensures counting { rollover ≡ None → CountsOn self.old.counts self.new.counts (datagram_of datagram.now) }
        ensures counting_block { (h : HeaderParts) (read : List DatagramParts) (d : DatagramParts) → IsSideAfter self.old h read
            → IsTaken rollover (transfer_of h read) (datagram_of datagram.now) d → CountsOn self.old.counts self.new.counts d }
        ensures room { is_some self.new.acks.blocks ≡ is_some self.old.acks.blocks }
    {
        let block = block_in(rollover, self.highest, datagram.payload.as_slice());
        judge_next(&mut self.judge, alloc, rollover, datagram)?;
        let of_transfer = self.judge.last_was_of_transfer();
        if of_transfer {
            self.note(block, datagram);
        }
        Ok(Accepted { of_transfer, block })
    }

    /// Keeps a datagram that waits, with the block that it was read as, and gives the memory of an earlier one for it.
    fn hold(&mut self, block: Option<u32>, datagram: &mut Datagram)
        ensures held { self.new.held ≡ Some (at_block block (datagram_of datagram.old)) }
        ensures rest { HasSame self.old self.new }
    {
        mem::swap(&mut self.kept, datagram);
        self.block = block;
        self.waits = true;
    }

    /// Lets go on what waits here, where the other end has sent it by now.
    fn ask_again(&mut self, other: &Self)
        ensures asked { (h : HeaderParts) (read : List DatagramParts) → IsSideAfter other.now h read
            → IsAskedAgain self.old.held self.new.held (transfer_of h read) }
        ensures rest { HasSame self.old self.new }
    {
        if self.waits && other.has_sent(self.block, self.kept.payload.as_slice()) {
            self.waits = false;
        }
    }

    /// Merges the datagram that this end was just fed, and what waited for it at the other end; or it waits.
    fn merge(&mut self, other: &mut Self, block: Option<u32>, datagram: &mut Datagram)
        requires free { self.old.held ≡ None }
        ensures merges { (h k : HeaderParts) (read other_read : List DatagramParts) (d : DatagramParts) → d ≡ at_block block (datagram_of datagram.old)
            → IsSideAfter self.old h (d ∷ read) → IsSideAfter other.old k other_read → AreMergedBut None other.old.held h read k other_read
            → is_of_transfer (route_of h read d) ≡ true → AreSidesAfter self.new other.new h (d ∷ read) k other_read }
        ensures rest { HasSame self.old self.new }
        ensures other { HasSame other.old other.new }
    {
        match datagram.dir {
            Dir::Out => other.ask_again(self),
            Dir::In => {
                if !other.has_sent(block, datagram.payload.as_slice()) {
                    self.hold(block, datagram);
                }
            }
        }
    }

    /// Takes the next datagram of this end, whose numbers begin again or do not, and merges it as far as the other end lets it.
    pub fn take(
        &mut self,
        alloc: Global,
        rollover: Option<Rollover>,
        other: &mut Self,
        datagram: &mut Datagram,
    ) -> Result<(), Refusal>
        requires few { self.old.judge.fed < 2 ^ 40 }
        requires short { length datagram.old.payload ≤ 65527 }
        requires free { self.old.held ≡ None }
        requires numbered { (r : RolloverKind) → rollover ≡ Some r → IsNumbered self.old }
        ensures accepts { (h k : HeaderParts) (read other_read : List DatagramParts) (d : DatagramParts) → AreSidesAfter self.old other.old h read k other_read
            → IsTaken rollover (transfer_of h read) (datagram_of datagram.old) d
            → OnOk result (Passes h read d × AreSidesAfter self.new other.new h (d ∷ read) k other_read) }
        ensures refuses { (h k : HeaderParts) (read other_read : List DatagramParts) (d : DatagramParts) → AreSidesAfter self.old other.old h read k other_read
            → IsTaken rollover (transfer_of h read) (datagram_of datagram.old) d → self.old.judge.refused ≡ None → IfErr result (Refuses h read d) }
        ensures stays { (h k : HeaderParts) (read other_read : List DatagramParts) → AreSidesAfter self.old other.old h read k other_read
            → IfErr result (λ refusal. AreSidesAfter self.new other.new h read k other_read) }
        ensures keeps { IfErr result (λ refusal. self.new.judge.refused ≡ Some refusal) }
        ensures goes_on { self.old.judge.refused ≡ None → OnOk result (self.new.judge.refused ≡ None) }
        ensures for_good { (refusal : RefusalKind) → self.old.judge.refused ≡ Some refusal
            → (result ≡ Err refusal) × (self.new ≡ self.old) × (other.new ≡ other.old) }
        ensures held { IfErr result (λ refusal. self.new.held ≡ None) }
        ensures other { HasSame other.old other.new }
        ensures counts { OnOk result (self.new.judge.fed ≡ self.old.judge.fed + 1) }
        ensures counting { rollover ≡ None → CountsOn self.old.counts self.new.counts (datagram_of datagram.old) }
        ensures counting_block { (h : HeaderParts) (read : List DatagramParts) (d : DatagramParts) → IsSideAfter self.old h read
            → IsTaken rollover (transfer_of h read) (datagram_of datagram.old) d → CountsOn self.old.counts self.new.counts d }
        ensures room { is_some self.new.acks.blocks ≡ is_some self.old.acks.blocks }
    {
        let accepted = self.feed(alloc, rollover, datagram)?;
        if accepted.of_transfer {
            self.merge(other, accepted.block, datagram);
        }
        Ok(())
    }
}

/// Feeds a judge the next datagram, whose numbers begin again or do not.
pub fn judge_next<D: Delivered + Drop>(
    judge: &mut Judge<D>,
    alloc: Global,
    rollover: Option<Rollover>,
    datagram: &Datagram,
) -> Result<(), Refusal>
    requires few { judge.old.fed < 2 ^ 40 }
    requires short { length datagram.now.payload ≤ 65527 }
    ensures accepts { (h : HeaderParts) (earlier : List DatagramParts) (d : DatagramParts) → IsJudgeAfter judge.old h earlier
        → IsTaken rollover (transfer_of h earlier) (datagram_of datagram.now) d
        → OnOk result (Passes h earlier d × IsJudgeAfter judge.new h (d ∷ earlier)) }
    ensures refuses { (h : HeaderParts) (earlier : List DatagramParts) (d : DatagramParts) → IsJudgeAfter judge.old h earlier
        → IsTaken rollover (transfer_of h earlier) (datagram_of datagram.now) d → IfErr result (Refuses h earlier d) }
    ensures keeps { IfErr result (λ refusal. judge.new.refused ≡ Some refusal) }
    ensures for_good { (refusal : RefusalKind) → judge.old.refused ≡ Some refusal → (result ≡ Err refusal) × (judge.new ≡ judge.old) }
    ensures goes_on { judge.old.refused ≡ None → OnOk result (judge.new.refused ≡ None) }
    ensures counts { OnOk result (judge.new.fed ≡ judge.old.fed + 1) }
    ensures counted { IfErr result (λ _. judge.new.fed ≡ judge.old.fed) }
    ensures routed { (h : HeaderParts) (earlier : List DatagramParts) (d : DatagramParts) → IsJudgeAfter judge.old h earlier
        → IsTaken rollover (transfer_of h earlier) (datagram_of datagram.now) d
        → OnOk result (judge.new.state.of_transfer ≡ is_of_transfer (route_of h earlier d)) }
    ensures stays { IfErr result (λ _. judge.new.state.transfer ≡ judge.old.state.transfer) }
{
    match rollover {
        Some(rollover) => judge.feed_numbered(alloc, rollover, datagram),
        None => judge.feed(alloc, datagram),
    }
}
