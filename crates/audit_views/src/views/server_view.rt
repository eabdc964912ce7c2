//! The server's view of a transfer, judged in one pass over a recording.

ghost use Rattle.std.specs.Prelude.{◌≡◌, ◌+◌, ◌^◌, ◌<◌, ◌≤◌, ◌∷◌, ℕ, List, [], All, filter, length, reverse, Option, OnOk, OnErr, Ok, Err, None, Some, true, false};
ghost use Rattle.std.specs.VecDeque.{deque_len};
ghost use Rattle.law_end.specs.{IsEnded};
ghost use Rattle.tftp_packet.specs.{Rollover};
ghost use Rattle.law_model.specs.Rules.{transfer_of};
ghost use Rattle.tftp_judge.specs.{TakesForJoin, Refusal as RefusalKind};
ghost use Rattle.audit_flows.specs.Transfers.{AreEndsAfter, is_settled, is_about};
ghost use Rattle.audit_flows.specs.Lines.{Placed};
ghost use Rattle.audit_views.specs.Views.Captured.{Naming, server_capture, server_header};
ghost use Rattle.audit_views.specs.Views.Judged.{HoldsOf, IsFoundBy, IsJudgedWith};
ghost use Rattle.audit_views.specs.Views.Kept.{AreHeld, IsFed, IsServerAfterBy, IsViewAfter, IsViewAfterBy, Server, fed_to, has_refused, held_of};

use crate::views::fed::Fed;
use crate::views::held::Held;
use crate::views::server::ServerJudge;
use audit_flows::lines::Transfer;
use audit_flows::transfers::TransferEnds;
use std::alloc::{AllocError, Global};
use std::collections::VecDeque;
use std::marker::Model;
use std::mem;
use tftp_ends::blocks::Delivered;
use tftp_judge::{Meaning, Refusal};
use tftp_packet::rounds::Rollover;

/// The judge of a transfer at its server (RFC 1350, section 2), fed with a recording from its first datagram to its last.
/// Until it is known who the server is it holds the transfer's datagrams; then it gives them to the judge, and holds none.
#[derive(Drop)]
pub struct ServerView<D: Delivered + Drop> {
    transfer: Transfer,
    rollover: Option<Rollover>,
    ends: TransferEnds,
    held: VecDeque<Held>,
    judge: Option<ServerJudge<D>>,
}

impl<D: Delivered + Drop> Model for ServerView<D> {
    ghost use Rattle.std.specs.Coded.{codes};
    ghost use Rattle.std.specs.Prelude.{◌≡◌, ◌^◌, ◌≤◌, All, length};
    ghost use Rattle.std.specs.VecDeque.{deque_len};
    ghost use Rattle.tftp_ends.specs.StatesKept.{sender_code, receiver_code};
    ghost use Rattle.tftp_packet.specs.Owned.{options_code, parts_code};
    ghost use Rattle.audit_views.specs.Views.Kept.{View};
    ghost use Rattle.audit_views.specs.declared.views.held.Held.{Held};

    ghost Value = { View };

    ghost coded = { Prim.hlevel (codes, sender_code, receiver_code, options_code, parts_code) };

    ghost view = { λ v. record { transfer = v.transfer; rollover = v.rollover; ends = v.ends; held = v.held.items; judge = v.judge } };

    ghost invariant = { λ v. (v.ends.number ≡ v.transfer.number) × (deque_len v.held ≤ 2 ^ 40) × All (λ (h : Held). length h.payload ≤ 65527) v.held.items };
}

impl<D: Delivered + Drop> ServerView<D> {
    /// Of this transfer, before any datagram; its blocks go up to 65535. Takes no memory.
    pub fn new(alloc: Global, transfer: Transfer) -> Self
        ensures after { (name : Naming) → IsViewAfter result name [] }
        ensures transfer { result.transfer ≡ transfer }
        ensures none { fed_to result ≡ 0 }
    {
        ServerView::by(alloc, transfer, None)
    }

    /// The same where this comes after block 65535 (RFC 1350, section 5, gives numbers two bytes and says no more).
    pub fn by(alloc: Global, transfer: Transfer, rollover: Option<Rollover>) -> Self
        ensures after { (name : Naming) → IsViewAfterBy rollover result name [] }
        ensures transfer { result.transfer ≡ transfer }
        ensures none { fed_to result ≡ 0 }
    {
        ServerView {
            transfer,
            rollover,
            ends: TransferEnds::new(transfer.number),
            held: VecDeque::new(alloc),
            judge: None,
        }
    }

    /// Takes the next datagram of the recording, of this transfer or of another, which belongs there. Memory is wanted of each
    /// of its own that is held, and then of one whose payload is longer than that of the one before it; where there is none, it
    /// was not taken. A refusal is kept.
    pub fn feed(&mut self, alloc: Global, fed: &Fed<'_>) -> Result<(), AllocError>
        requires few { fed_to self.old < 2 ^ 40 }
        requires short { length fed.now.payload.now ≤ 65527 }
        ensures after { (name : Naming) (p : Placed) (older : List Placed) → IsViewAfter self.old name older
            → IsFed name p (held_of fed.now) → OnOk result (IsViewAfter self.new name (p ∷ older)) }
        ensures by_rollover { (rollover : Option Rollover) (name : Naming) (p : Placed) (older : List Placed) → IsViewAfterBy rollover self.old name older
            → IsFed name p (held_of fed.now) → OnOk result (IsViewAfterBy rollover self.new name (p ∷ older)) }
        ensures others { (p : Placed) → fed.now.place.now ≡ p.place → is_about self.old.transfer.number p ≡ false
            → (result ≡ Ok tt) × (self.new ≡ self.old) }
        ensures longer { (judge : Server) → self.old.judge ≡ Some judge → OnErr result (judge.end.room < length fed.now.payload.now) }
        ensures same { OnErr result (self.new ≡ self.old) }
        ensures counts { fed_to self.new ≤ fed_to self.old + 1 }
        ensures for_good { (refusal : RefusalKind) → has_refused self.old ≡ Some refusal → has_refused self.new ≡ Some refusal }
        ensures transfer { self.new.transfer ≡ self.old.transfer }
    {
        if !self.ends.is_about(fed.place) {
            return Ok(());
        }
        if let Some(judge) = &mut self.judge {
            return judge.feed(alloc, fed);
        }
        self.wait(alloc, fed)
    }

    /// Holds one of the transfer's datagrams, until it is known who the server is.
    fn wait(&mut self, alloc: Global, fed: &Fed<'_>) -> Result<(), AllocError>
        requires waits { self.old.judge ≡ None }
        requires few { length self.old.held < 2 ^ 40 }
        requires short { length fed.now.payload.now ≤ 65527 }
        ensures after { (rollover : Option Rollover) (name : Naming) (p : Placed) (older : List Placed) → IsViewAfterBy rollover self.old name older
            → IsFed name p (held_of fed.now) → is_about self.old.transfer.number p ≡ true
            → OnOk result (IsViewAfterBy rollover self.new name (p ∷ older)) }
        ensures same { OnErr result (self.new ≡ self.old) }
        ensures counts { fed_to self.new ≤ fed_to self.old + 1 }
        ensures transfer { self.new.transfer ≡ self.old.transfer }
    {
        self.held.push_back(fed.held(alloc)?)?;
        self.ends
            .note(fed.place, fed.source.end, fed.target.end, fed.payload);
        if self.ends.is_settled() {
            let held = mem::replace(&mut self.held, VecDeque::new(alloc));
            self.judge = Some(judge_of(alloc, self.transfer, self.rollover, self.ends, held));
        }
        Ok(())
    }

    /// How many datagrams are held.
    pub fn held(&self) -> usize
        ensures held { result ≡ length self.now.held }
        ensures settled { (name : Naming) (placed : List Placed) → IsViewAfter self.now name placed
            → is_settled self.now.transfer.number placed ≡ true → result ≡ 0 }
        ensures own { (name : Naming) (placed : List Placed) → IsViewAfter self.now name placed
            → result ≤ length (filter (is_about self.now.transfer.number) placed) }
    {
        self.held.len()
    }

    /// How many datagrams are held, or of the server's view were accepted.
    pub fn fed(&self) -> u64
        ensures { result ≡ fed_to self.now }
    {
        match &self.judge {
            Some(judge) => judge.fed(),
            None => self.held.len() as u64,
        }
    }

    /// What a datagram of the server's view was refused for, or that memory ran out for one, where it is known by now:
    /// what `finish` will answer.
    pub fn refused(&self) -> Option<Refusal>
        ensures { result ≡ has_refused self.now }
    {
        match &self.judge {
            Some(judge) => judge.refused(),
            None => None,
        }
    }

    /// What there is to say of the server's view of the whole that was fed: the verdict of the text that has just it, or want
    /// of memory.
    pub fn finish(self, alloc: Global) -> Result<Meaning, Refusal>
        ensures judged { (name : Naming) (whole : List Placed) → IsViewAfter self name whole
            → IsJudgedWith (server_header self.transfer) (server_capture name self.transfer whole whole) result }
        ensures by_rollover { (rollover : Option Rollover) (name : Naming) (whole : List Placed) → IsViewAfterBy rollover self name whole
            → IsFoundBy rollover (server_header self.transfer) (server_capture name self.transfer whole whole) result }
        ensures for_good { (refusal : RefusalKind) → has_refused self ≡ Some refusal → result ≡ Err refusal }
        ensures memory { (rollover : Option Rollover) (name : Naming) (whole : List Placed) (judge : Server) (count : ℕ) → IsViewAfterBy rollover self name whole
            → self.judge ≡ Some judge → judge.end.judge.refused ≡ None → result ≡ Err (RefusalKind.Memory count)
            → HoldsOf rollover (λ k taken. IsEnded k taken × TakesForJoin D.join_takes (transfer_of k taken)) (server_header self.transfer) (server_capture name self.transfer whole whole) }
    {
        let ServerView {
            transfer,
            rollover,
            ends,
            held,
            judge,
        } = self;
        match judge {
            Some(judge) => judge.finish(alloc),
            None => judge_of::<D>(alloc, transfer, rollover, ends, held).finish(alloc),
        }
    }
}

/// The judge of the server's view, given what was held.
fn judge_of<D: Delivered + Drop>(
    alloc: Global,
    transfer: Transfer,
    rollover: Option<Rollover>,
    ends: TransferEnds,
    mut held: VecDeque<Held>,
) -> ServerJudge<D>
    requires number { ends.number ≡ transfer.number }
    requires few { deque_len held ≤ 2 ^ 40 }
    requires short { All (λ (h : Held). length h.payload ≤ 65527) held.items }
    ensures after { (name : Naming) (whole part : List Placed) → AreEndsAfter ends whole → AreHeld name held.items (reverse part)
        → IsServerAfterBy rollover result name whole part }
    ensures counts { result.end.judge.fed ≤ deque_len held }
    ensures transfer { result.transfer ≡ transfer }
{
    let mut judge = ServerJudge::new(alloc, transfer, rollover, ends);
    while let Some(next) = held.pop_front() {
        judge.take(alloc, next);
    }
    judge
}
