//! A transfer as it is seen between its two ends, judged in one pass over a recording.

ghost use Rattle.std.specs.Prelude.{◌≡◌, ◌+◌, ◌^◌, ◌<◌, ◌≤◌, ◌∷◌, ℕ, List, [], All, length, map, reverse, IfSome, Option, OnOk, OnErr, Ok, Err, None, Some, true, false};
ghost use Rattle.std.specs.VecDeque.{deque_len};
ghost use Rattle.audit_recording.specs.Between.Captured.{between_capture, is_to_itself, sides_by, sides_of};
ghost use Rattle.audit_recording.specs.Between.Judged.{IsBetweenFoundBy, IsBetweenVerdict};
ghost use Rattle.audit_recording.specs.Between.Kept.{AreHeld, HasPassed, IsBetweenAfter, IsBetweenAfterBy, IsJudgedIfApart, counted_by, given_to, has_refused};
ghost use Rattle.audit_views.specs.Parties.{host_name};
ghost use Rattle.tftp_packet.specs.{Rollover};
ghost use Rattle.law_tap.specs.{AreApart, TapDatagram as Passing};
ghost use Rattle.judge_tap.specs.{TapDatagram as Owned, TapRefusal as RefusalKind};
ghost use Rattle.audit_flows.specs.Lines.{Placed, is_of};
ghost use Rattle.audit_flows.specs.Transfers.{is_settled, client_view};
ghost use Rattle.audit_views.specs.Views.{IsFed, held_of};

use crate::between::passing::{passed, sides_of};
use crate::between::sides_judge::SidesJudge;
use audit_flows::lines::Transfer;
use audit_flows::transfers::TransferEnds;
use audit_views::views::Fed;
use judge_tap::{TapDatagram, TapRefusal};
use law_tap::Sides;
use std::alloc::{AllocError, Global};
use std::collections::VecDeque;
use std::marker::Model;
use std::mem;
use tftp_ends::blocks::Delivered;
use tftp_judge::Meaning;
use tftp_packet::rounds::Rollover;

/// The judge of a transfer between its two ends (RFC 1350, section 4), fed with a recording from its first datagram to its
/// last. Until it is known who the server is it holds the transfer's datagrams; then it gives them to the judge, and holds
/// none. What passed beside the server, with others than the client, is none of them.
#[derive(Drop)]
pub struct BetweenView<D: Delivered + Drop> {
    transfer: Transfer,
    rollover: Option<Rollover>,
    ends: TransferEnds,
    held: VecDeque<TapDatagram>,
    judge: Option<SidesJudge<D>>,
}

impl<D: Delivered + Drop> Model for BetweenView<D> {
    ghost use Rattle.std.specs.Coded.{codes};
    ghost use Rattle.std.specs.Prelude.{◌≡◌, ◌^◌, ◌≤◌, All, length};
    ghost use Rattle.std.specs.VecDeque.{deque_len};
    ghost use Rattle.audit_recording.specs.Between.Kept.{View};
    ghost use Rattle.tftp_ends.specs.StatesKept.{sender_code, receiver_code};
    ghost use Rattle.tftp_packet.specs.Owned.{options_code, parts_code};
    ghost use Rattle.judge_tap.specs.declared.datagram.TapDatagram.{TapDatagram as Owned};

    ghost Value = { View };

    ghost coded = { Prim.hlevel (codes, sender_code, receiver_code, options_code, parts_code) };

    ghost view = { λ v. record { transfer = v.transfer; rollover = v.rollover; ends = v.ends; held = v.held.items; judge = v.judge } };

    ghost invariant = { λ v. (v.ends.number ≡ v.transfer.number) × (deque_len v.held ≤ 2 ^ 40) × All (λ (d : Owned). length d.payload ≤ 65527) v.held.items };
}

impl<D: Delivered + Drop> BetweenView<D> {
    /// Of this transfer, before any datagram; its blocks go up to 65535. Takes no memory.
    pub fn new(alloc: Global, transfer: Transfer) -> Self
        ensures after { IsBetweenAfter result [] }
        ensures transfer { result.transfer ≡ transfer }
        ensures none { given_to result ≡ 0 }
    {
        BetweenView::by(alloc, transfer, None)
    }

    /// The same where this comes after block 65535 (RFC 1350, section 5, gives numbers two bytes and says no more).
    pub fn by(alloc: Global, transfer: Transfer, rollover: Option<Rollover>) -> Self
        ensures after { IsBetweenAfterBy rollover result [] }
        ensures transfer { result.transfer ≡ transfer }
        ensures none { given_to result ≡ 0 }
    {
        BetweenView {
            transfer,
            rollover,
            ends: TransferEnds::new(transfer.number),
            held: VecDeque::new(alloc),
            judge: None,
        }
    }

    /// Takes the next datagram of the recording, of this transfer or of another, which belongs there. Where there is no
    /// memory for it, it was not taken. A refusal is kept, and after it no datagram takes memory.
    pub fn feed(&mut self, alloc: Global, fed: &Fed<'_>) -> Result<(), AllocError>
        requires few { given_to self.old < 2 ^ 40 }
        requires short { length fed.now.payload.now ≤ 65527 }
        ensures after { (p : Placed) (older : List Placed) → IsBetweenAfter self.old older
            → IsFed host_name p (held_of fed.now) → OnOk result (IsBetweenAfter self.new (p ∷ older)) }
        ensures by_rollover { (rollover : Option Rollover) (p : Placed) (older : List Placed) → IsBetweenAfterBy rollover self.old older
            → IsFed host_name p (held_of fed.now) → OnOk result (IsBetweenAfterBy rollover self.new (p ∷ older)) }
        ensures others { (p : Placed) → fed.now.place.now ≡ p.place → is_of self.old.transfer.number p ≡ false
            → (result ≡ Ok tt) × (self.new ≡ self.old) }
        ensures same { OnErr result (self.new ≡ self.old) }
        ensures counts { given_to self.new ≤ given_to self.old + 1 }
        ensures transfer { self.new.transfer ≡ self.old.transfer }
        ensures for_good { (refusal : RefusalKind) → has_refused self.old ≡ Some refusal → has_refused self.new ≡ Some refusal }
        ensures rests { (refusal : RefusalKind) → has_refused self.old ≡ Some refusal → (result ≡ Ok tt) × (self.new ≡ self.old) }
    {
        if !self.ends.is_at_client(fed.place) {
            return Ok(());
        }
        if let Some(judge) = &mut self.judge {
            return judge.put(alloc, fed);
        }
        self.wait(alloc, fed)
    }

    /// Holds one of the transfer's datagrams, until it is known who the server is.
    fn wait(&mut self, alloc: Global, fed: &Fed<'_>) -> Result<(), AllocError>
        requires waits { self.old.judge ≡ None }
        requires few { length self.old.held < 2 ^ 40 }
        requires short { length fed.now.payload.now ≤ 65527 }
        ensures after { (rollover : Option Rollover) (p : Placed) (older : List Placed) → IsBetweenAfterBy rollover self.old older
            → IsFed host_name p (held_of fed.now) → is_of self.old.transfer.number p ≡ true
            → OnOk result (IsBetweenAfterBy rollover self.new (p ∷ older)) }
        ensures same { OnErr result (self.new ≡ self.old) }
        ensures counts { given_to self.new ≤ given_to self.old + 1 }
        ensures transfer { self.new.transfer ≡ self.old.transfer }
    {
        self.held.push_back(passed(alloc, fed)?)?;
        self.ends
            .note(fed.place, fed.source.end, fed.target.end, fed.payload);
        if self.ends.is_settled() {
            let held = mem::replace(&mut self.held, VecDeque::new(alloc));
            let sides = sides_of(&self.transfer, self.rollover, &self.ends);
            self.judge = Some(judge_of(alloc, sides, held));
        }
        Ok(())
    }

    /// How many datagrams are held.
    pub fn held(&self) -> usize
        ensures held { result ≡ length self.now.held }
        ensures settled { (rollover : Option Rollover) (placed : List Placed) → IsBetweenAfterBy rollover self.now placed → is_settled self.now.transfer.number placed ≡ true
            → result ≡ 0 }
        ensures own { (rollover : Option Rollover) (placed : List Placed) → IsBetweenAfterBy rollover self.now placed
            → result ≤ length (client_view self.now.transfer.number placed) }
    {
        self.held.len()
    }

    /// How many datagrams are held, or were accepted.
    pub fn fed(&self) -> u64
        ensures { result ≡ given_to self.now }
    {
        match &self.judge {
            Some(judge) => judge.fed(),
            None => self.held.len() as u64,
        }
    }

    /// What a datagram was refused for, or that memory ran out for one, where it is known by now: what `finish` will
    /// answer. It is none where the client is the server too.
    pub fn refused(&self) -> Option<TapRefusal>
        ensures refused { result ≡ has_refused self.now }
        ensures apart { IfSome self.now.judge IsJudgedIfApart }
    {
        match &self.judge {
            Some(judge) => judge.refused(),
            None => None,
        }
    }

    /// The transfer that is judged.
    pub fn transfer(&self) -> Transfer
        ensures { result ≡ self.now.transfer }
    {
        self.transfer
    }

    /// What there is to say of the transfer by the whole that was fed, as a tap at its client saw it. Of a client that asked
    /// itself nothing is said but how many datagrams there are.
    pub fn finish(self, alloc: Global) -> Result<Meaning, TapRefusal>
        ensures judged { (whole : List Placed) → IsBetweenAfter self whole → AreApart (sides_of self.transfer whole)
            → IsBetweenVerdict (sides_of self.transfer whole) (between_capture self.transfer whole) result }
        ensures by_rollover { (rollover : Option Rollover) (whole : List Placed) → IsBetweenAfterBy rollover self whole → AreApart (sides_of self.transfer whole)
            → IsBetweenFoundBy rollover (sides_of self.transfer whole) (between_capture self.transfer whole) result }
        ensures to_itself { (rollover : Option Rollover) (whole : List Placed) → IsBetweenAfterBy rollover self whole → is_to_itself self.transfer whole ≡ true
            → result ≡ Err (RefusalKind.Incomplete (given_to self)) }
        ensures all { (rollover : Option Rollover) (whole : List Placed) → IsBetweenAfterBy rollover self whole → is_to_itself self.transfer whole ≡ true
            → given_to self ≡ length (between_capture self.transfer whole) }
        ensures for_good { (refusal : RefusalKind) → has_refused self ≡ Some refusal → result ≡ Err refusal }
    {
        let BetweenView {
            transfer,
            rollover,
            ends,
            held,
            judge,
        } = self;
        match judge {
            Some(judge) => judge.finish(alloc),
            None => {
                judge_of::<D>(alloc, sides_of(&transfer, rollover, &ends), held).finish(alloc)
            }
        }
    }
}

/// The judge of these sides, given what was held.
fn judge_of<D: Delivered + Drop>(
    alloc: Global,
    sides: Sides,
    mut held: VecDeque<TapDatagram>,
) -> SidesJudge<D>
    requires few { deque_len held ≤ 2 ^ 40 }
    requires short { All (λ (d : Owned). length d.payload ≤ 65527) held.items }
    ensures passed { (given : List Passing) → AreHeld held.items given → HasPassed result given }
    ensures counts { counted_by result ≤ deque_len held }
    ensures sides { result.sides ≡ sides }
{
    let mut judge = SidesJudge::new(alloc, sides);
    while let Some(next) = held.pop_front() {
        judge.take(alloc, next);
    }
    judge
}
