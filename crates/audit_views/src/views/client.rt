//! The judge of a transfer's client, fed with a recording.

ghost use Rattle.std.specs.Prelude.{◌≡◌, ◌+◌, ◌^◌, ◌<◌, ◌≤◌, ◌∷◌, ℕ, List, [], length, Option, OnOk, OnErr, Ok, Err, None, Some, true, false};
ghost use Rattle.law_model.specs.Rules.{transfer_of};
ghost use Rattle.tftp_judge.specs.{TakesForJoin, Refusal as RefusalKind};
ghost use Rattle.law_end.specs.{IsEnded};
ghost use Rattle.tftp_packet.specs.{Rollover};
ghost use Rattle.audit_flows.specs.Lines.{Placed, is_of};
ghost use Rattle.audit_views.specs.Views.Captured.{Naming, client_capture, client_header};
ghost use Rattle.audit_views.specs.Views.Judged.{HoldsOf, IsFoundBy, IsJudgedWith};
ghost use Rattle.audit_views.specs.Views.Kept.{IsClientAfter, IsClientAfterBy, IsFed, held_of};

use crate::views::end_judge::EndJudge;
use crate::views::fed::Fed;
use crate::views::ways::way_at_client;
use audit_flows::lines::{Place, Transfer};
use std::alloc::{AllocError, Global};
use std::marker::Model;
use tftp_capture::Header;
use tftp_ends::blocks::Delivered;
use tftp_judge::{Meaning, Refusal};
use tftp_packet::End;
use tftp_packet::rounds::Rollover;

/// The judge of a transfer at its client (RFC 1350, section 2): it picks the client's view out of a recording.
#[derive(Drop)]
pub struct ClientJudge<D: Delivered + Drop> {
    transfer: Transfer,
    judge: EndJudge<D>,
}

impl<D: Delivered + Drop> Model for ClientJudge<D> {
    ghost use Rattle.std.specs.Coded.{codes};
    ghost use Rattle.tftp_ends.specs.StatesKept.{sender_code, receiver_code};
    ghost use Rattle.tftp_packet.specs.Owned.{options_code, parts_code};
    ghost use Rattle.audit_views.specs.Views.Kept.{Client};

    ghost Value = { Client };

    ghost coded = { Prim.hlevel (codes, sender_code, receiver_code, options_code, parts_code) };

    ghost view = { λ c. record { transfer = c.transfer; end = c.judge } };
}

impl<D: Delivered + Drop> ClientJudge<D> {
    /// Of this transfer, before any datagram; its blocks go up to 65535. Takes no memory.
    pub fn new(alloc: Global, transfer: Transfer) -> Self
        ensures after { (name : Naming) → IsClientAfter result name [] }
        ensures transfer { result.transfer ≡ transfer }
        ensures none { result.end.judge.fed ≡ 0 }
        ensures goes_on { result.end.judge.refused ≡ None }
    {
        ClientJudge::by(alloc, transfer, None)
    }

    /// The same where this comes after block 65535 (RFC 1350, section 5, gives numbers two bytes and says no more).
    pub fn by(alloc: Global, transfer: Transfer, rollover: Option<Rollover>) -> Self
        ensures after { (name : Naming) → IsClientAfterBy rollover result name [] }
        ensures transfer { result.transfer ≡ transfer }
        ensures none { result.end.judge.fed ≡ 0 }
        ensures goes_on { result.end.judge.refused ≡ None }
    {
        let header = Header {
            named: End::Client,
            service: transfer.asked.port,
            rollover,
        };
        ClientJudge {
            transfer,
            judge: EndJudge::new(alloc, &header),
        }
    }

    /// Takes the next datagram of the recording, of this transfer or of another, which belongs there. Memory is wanted only
    /// of one whose payload is longer than that of the one before it, and then it was not taken. A refusal is kept.
    pub fn feed(&mut self, alloc: Global, fed: &Fed<'_>) -> Result<(), AllocError>
        requires few { self.old.end.judge.fed < 2 ^ 40 }
        requires short { length fed.now.payload.now ≤ 65527 }
        ensures after { (name : Naming) (p : Placed) (older : List Placed) → IsClientAfter self.old name older
            → IsFed name p (held_of fed.now) → OnOk result (IsClientAfter self.new name (p ∷ older)) }
        ensures by_rollover { (rollover : Option Rollover) (name : Naming) (p : Placed) (older : List Placed) → IsClientAfterBy rollover self.old name older
            → IsFed name p (held_of fed.now) → OnOk result (IsClientAfterBy rollover self.new name (p ∷ older)) }
        ensures others { (p : Placed) → fed.now.place.now ≡ p.place → is_of self.old.transfer.number p ≡ false
            → (result ≡ Ok tt) × (self.new ≡ self.old) }
        ensures longer { OnErr result (self.old.end.room < length fed.now.payload.now) }
        ensures same { OnErr result (self.new ≡ self.old) }
        ensures counts { self.new.end.judge.fed ≤ self.old.end.judge.fed + 1 }
        ensures for_good { (refusal : RefusalKind) → self.old.end.judge.refused ≡ Some refusal → self.new.end.judge ≡ self.old.end.judge }
        ensures transfer { self.new.transfer ≡ self.old.transfer }
    {
        if !self.is_at_client(fed.place) {
            return Ok(());
        }
        let dir = way_at_client(&self.transfer, fed.source.end);
        self.judge.put(alloc, dir, fed)
    }

    fn is_at_client(&self, place: &Place) -> bool
        ensures { (p : Placed) → place.now ≡ p.place → result ≡ is_of self.now.transfer.number p }
    {
        match place.transfer() {
            None => false,
            Some(transfer) => transfer.number == self.transfer.number,
        }
    }

    /// The transfer that is judged.
    pub fn transfer(&self) -> Transfer
        ensures { result ≡ self.now.transfer }
    {
        self.transfer
    }

    /// How many datagrams of the client's view were accepted.
    pub fn fed(&self) -> u64
        ensures { result ≡ self.now.end.judge.fed }
    {
        self.judge.fed()
    }

    /// What a datagram of the client's view was refused for, or that memory ran out for one: what `finish` will answer.
    pub fn refused(&self) -> Option<Refusal>
        ensures { result ≡ self.now.end.judge.refused }
    {
        self.judge.refused()
    }

    /// What there is to say of the client's view: the verdict of the text that has just it, or being out of memory.
    pub fn finish(self, alloc: Global) -> Result<Meaning, Refusal>
        ensures judged { (name : Naming) (placed : List Placed) → IsClientAfter self name placed
            → IsJudgedWith (client_header self.transfer) (client_capture name self.transfer placed) result }
        ensures by_rollover { (rollover : Option Rollover) (name : Naming) (placed : List Placed) → IsClientAfterBy rollover self name placed
            → IsFoundBy rollover (client_header self.transfer) (client_capture name self.transfer placed) result }
        ensures for_good { (refusal : RefusalKind) → self.end.judge.refused ≡ Some refusal → result ≡ Err refusal }
        ensures memory { (rollover : Option Rollover) (name : Naming) (placed : List Placed) (count : ℕ) → IsClientAfterBy rollover self name placed
            → self.end.judge.refused ≡ None → result ≡ Err (RefusalKind.Memory count)
            → HoldsOf rollover (λ k taken. IsEnded k taken × TakesForJoin D.join_takes (transfer_of k taken)) (client_header self.transfer) (client_capture name self.transfer placed) }
    {
        let ClientJudge { transfer: _, judge } = self;
        judge.finish(alloc)
    }
}
