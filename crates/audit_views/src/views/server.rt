//! The judge of a transfer's server, fed with a recording once it is known who the server is.

ghost use Rattle.std.specs.Prelude.{◌≡◌, ◌+◌, ◌^◌, ◌<◌, ◌≤◌, ◌∷◌, ℕ, List, [], length, Option, OnOk, OnErr, Ok, Err, None, Some, true, false};
ghost use Rattle.law_model.specs.Rules.{transfer_of};
ghost use Rattle.tftp_judge.specs.{TakesForJoin, Refusal as RefusalKind};
ghost use Rattle.law_end.specs.{IsEnded};
ghost use Rattle.tftp_packet.specs.{Rollover};
ghost use Rattle.audit_flows.specs.Transfers.{AreEndsAfter, is_settled, is_at_server};
ghost use Rattle.audit_flows.specs.Lines.{Placed};
ghost use Rattle.audit_views.specs.Views.Captured.{Naming, server_capture, server_header};
ghost use Rattle.audit_views.specs.Views.Judged.{HoldsOf, IsFoundBy};
ghost use Rattle.audit_views.specs.Views.Kept.{IsFed, IsServerAfterBy, held_of};

use crate::views::end_judge::EndJudge;
use crate::views::fed::Fed;
use crate::views::held::Held;
use crate::views::ways::{captured, way_at_server};
use audit_flows::lines::Transfer;
use audit_flows::transfers::TransferEnds;
use std::alloc::{AllocError, Global};
use std::marker::Model;
use tftp_capture::Header;
use tftp_ends::blocks::Delivered;
use tftp_judge::{Meaning, Refusal};
use tftp_packet::End;
use tftp_packet::rounds::Rollover;

/// The judge of a transfer at its server (RFC 1350, section 2): it picks the server's view out of a recording.
#[derive(Drop)]
pub struct ServerJudge<D: Delivered + Drop> {
    transfer: Transfer,
    ends: TransferEnds,
    judge: EndJudge<D>,
}

impl<D: Delivered + Drop> Model for ServerJudge<D> {
    ghost use Rattle.std.specs.Coded.{codes};
    ghost use Rattle.tftp_ends.specs.StatesKept.{sender_code, receiver_code};
    ghost use Rattle.tftp_packet.specs.Owned.{options_code, parts_code};
    ghost use Rattle.audit_views.specs.Views.Kept.{Server};

    ghost Value = { Server };

    ghost coded = { Prim.hlevel (codes, sender_code, receiver_code, options_code, parts_code) };

    ghost view = { λ s. record { transfer = s.transfer; ends = s.ends; end = s.judge } };
}

impl<D: Delivered + Drop> ServerJudge<D> {
    /// Of this transfer, whose ends are known, before any datagram; the rollover is what comes after block 65535, where anything
    /// does. Takes no memory.
    pub fn new(
        alloc: Global,
        transfer: Transfer,
        rollover: Option<Rollover>,
        ends: TransferEnds,
    ) -> Self
        requires number { ends.number ≡ transfer.number }
        ensures after { (name : Naming) (whole : List Placed) → AreEndsAfter ends whole → IsServerAfterBy rollover result name whole [] }
        ensures transfer { result.transfer ≡ transfer }
        ensures none { result.end.judge.fed ≡ 0 }
        ensures goes_on { result.end.judge.refused ≡ None }
    {
        let header = Header {
            named: End::Server,
            service: transfer.asked.port,
            rollover,
        };
        ServerJudge {
            transfer,
            ends,
            judge: EndJudge::new(alloc, &header),
        }
    }

    /// Takes the next datagram of the recording, from its first on, of this transfer or of another, which belongs there; or, as
    /// the recording comes, where it is known who the server is. Memory is wanted only of one whose payload is longer than that
    /// of the one before it, and then it was not taken. A refusal is kept.
    pub fn feed(&mut self, alloc: Global, fed: &Fed<'_>) -> Result<(), AllocError>
        requires few { self.old.end.judge.fed < 2 ^ 40 }
        requires short { length fed.now.payload.now ≤ 65527 }
        ensures after { (rollover : Option Rollover) (name : Naming) (whole : List Placed) (p : Placed) (part : List Placed) → IsServerAfterBy rollover self.old name whole part
            → IsFed name p (held_of fed.now) → OnOk result (IsServerAfterBy rollover self.new name whole (p ∷ part)) }
        ensures goes_on { (rollover : Option Rollover) (name : Naming) (p : Placed) (older : List Placed) → IsServerAfterBy rollover self.old name older older
            → is_settled self.old.transfer.number older ≡ true → IsFed name p (held_of fed.now)
            → OnOk result (IsServerAfterBy rollover self.new name (p ∷ older) (p ∷ older)) }
        ensures settled { (p : Placed) (older : List Placed) → is_settled self.old.transfer.number older ≡ true
            → is_settled self.new.transfer.number (p ∷ older) ≡ true }
        ensures others { (rollover : Option Rollover) (name : Naming) (whole : List Placed) (p : Placed) (part : List Placed) → IsServerAfterBy rollover self.old name whole part
            → IsFed name p (held_of fed.now) → is_at_server self.old.transfer.number whole p ≡ false
            → (result ≡ Ok tt) × (self.new ≡ self.old) }
        ensures longer { OnErr result (self.old.end.room < length fed.now.payload.now) }
        ensures same { OnErr result (self.new ≡ self.old) }
        ensures counts { self.new.end.judge.fed ≤ self.old.end.judge.fed + 1 }
        ensures for_good { (refusal : RefusalKind) → self.old.end.judge.refused ≡ Some refusal → self.new.end.judge ≡ self.old.end.judge }
        ensures transfer { self.new.transfer ≡ self.old.transfer }
    {
        if !self
            .ends
            .is_at_server(fed.place, fed.source.end, fed.target.end)
        {
            return Ok(());
        }
        let dir = way_at_server(&self.transfer, &self.ends, fed.place, fed.source.end);
        self.judge.put(alloc, dir, fed)
    }

    /// The same as `feed`, of one that was held, whose memory it takes over.
    pub fn take(&mut self, alloc: Global, held: Held)
        requires few { self.old.end.judge.fed < 2 ^ 40 }
        requires short { length held.payload ≤ 65527 }
        ensures after { (rollover : Option Rollover) (name : Naming) (whole : List Placed) (p : Placed) (part : List Placed) → IsServerAfterBy rollover self.old name whole part
            → IsFed name p held → IsServerAfterBy rollover self.new name whole (p ∷ part) }
        ensures counts { self.new.end.judge.fed ≤ self.old.end.judge.fed + 1 }
        ensures transfer { self.new.transfer ≡ self.old.transfer }
    {
        if !self
            .ends
            .is_at_server(&held.place, held.source.end, held.target.end)
        {
            return;
        }
        let dir = way_at_server(&self.transfer, &self.ends, &held.place, held.source.end);
        let Held {
            source,
            target,
            payload,
            ..
        } = held;
        self.judge
            .give(alloc, captured(dir, &source, &target, payload));
    }

    /// How many datagrams of the server's view were accepted.
    pub fn fed(&self) -> u64
        ensures { result ≡ self.now.end.judge.fed }
    {
        self.judge.fed()
    }

    /// What a datagram of the server's view was refused for, or that memory ran out for one: what `finish` will answer.
    pub fn refused(&self) -> Option<Refusal>
        ensures { result ≡ self.now.end.judge.refused }
    {
        self.judge.refused()
    }

    /// What there is to say of the server's view, once the whole was fed: the verdict of the text that has just it, or want
    /// of memory.
    pub fn finish(self, alloc: Global) -> Result<Meaning, Refusal>
        ensures judged { (rollover : Option Rollover) (name : Naming) (whole part : List Placed) → IsServerAfterBy rollover self name whole part
            → IsFoundBy rollover (server_header self.transfer) (server_capture name self.transfer whole part) result }
        ensures for_good { (refusal : RefusalKind) → self.end.judge.refused ≡ Some refusal → result ≡ Err refusal }
        ensures memory { (rollover : Option Rollover) (name : Naming) (whole part : List Placed) (count : ℕ) → IsServerAfterBy rollover self name whole part
            → self.end.judge.refused ≡ None → result ≡ Err (RefusalKind.Memory count)
            → HoldsOf rollover (λ k taken. IsEnded k taken × TakesForJoin D.join_takes (transfer_of k taken)) (server_header self.transfer) (server_capture name self.transfer whole part) }
    {
        let ServerJudge { judge, .. } = self;
        judge.finish(alloc)
    }
}
