//! The judges of one transfer, beside each other.

ghost use Rattle.std.specs.Prelude.{◌≡◌, ◌≤◌, ◌∷◌, List, [], length, Option, Some, IfSome, IsErr, OnErr, OnOk, Ok, Err, MatchBool, is_some, true, false, unwrap_or};
ghost use Rattle.audit_recording.specs.Between.{between_capture, is_to_itself, sides_of, IsBetweenFoundBy};
ghost use Rattle.audit_views.specs.Parties.{host_name};
ghost use Rattle.audit_recording.specs.Judges.Kept.{AreAt, AreFew, AreJudgesAfter, AreOf, AreRefusalsTold, AreTold, AreWants, BetweenStands, ClientStands, IsCrowded, ServerStands, fed_at_client, fed_at_server, fed_between, refused_at_client, refused_at_server, refused_between};
ghost use Rattle.law_tap.specs.{AreApart};
ghost use Rattle.judge_tap.specs.{TapRefusal as RefusalKind};
ghost use Rattle.tftp_judge.specs.{Refusal as RefusalAtEnd};
ghost use Rattle.tftp_judge.specs.declared.refusal.Refusal.TheVariants.{Memory};
ghost use Rattle.audit_flows.specs.Lines.{Placed};
ghost use Rattle.audit_flows.specs.{Transfer};
ghost use Rattle.audit_flows.specs.Transfers.{is_about};
ghost use Rattle.tftp_packet.specs.{Rollover};
ghost use Rattle.audit_views.specs.Views.{Naming, client_capture, client_header, server_capture, server_header, IsFoundBy, IsFed, held_of};

use crate::between::BetweenView;
use crate::judges::judging::Points;
use crate::judges::point::{counted, feed};
use crate::judges::verdicts::Verdicts;
use audit_flows::lines::Transfer;
use audit_views::views::{ClientJudge, Fed, ServerView};
use judge_tap::TapRefusal;
use std::alloc::{AllocError, Global};
use std::marker::Model;
use tftp_ends::blocks::Delivered;
use tftp_judge::{Meaning, Refusal};
use tftp_packet::rounds::Rollover;

/// How many datagrams a judge can count.
const MOST: u64 = 1 << 40;

/// The judges of a transfer, each where it is judged.
#[derive(Drop)]
pub(crate) struct Judges<D: Delivered + Drop> {
    pub(crate) client: Option<ClientJudge<D>>,
    pub(crate) server: Option<ServerView<D>>,
    pub(crate) between: Option<BetweenView<D>>,
    failed: bool,
}

impl<D: Delivered + Drop> Model for Judges<D> {
    ghost use Rattle.std.specs.Coded.{codes};
    ghost use Rattle.tftp_ends.specs.StatesKept.{sender_code, receiver_code};
    ghost use Rattle.tftp_packet.specs.Owned.{options_code, parts_code};
    ghost use Rattle.audit_recording.specs.Judges.Kept.{Judges};

    ghost Value = { Judges };

    ghost coded = { Prim.hlevel (codes, sender_code, receiver_code, options_code, parts_code) };

    ghost view = { λ j. record { client = j.client; server = j.server; between = j.between; failed = j.failed } };
}

impl<D: Delivered + Drop> Judges<D> {
    /// Of this transfer at these points, before any datagram; this comes after block 65535. Takes no memory.
    pub(crate) fn new(
        alloc: Global,
        transfer: Transfer,
        points: Points,
        rollover: Option<Rollover>,
    ) -> Self
        ensures after { (name : Naming) → AreJudgesAfter rollover result transfer name [] }
        ensures points { AreAt result points }
        ensures none { IsCrowded result → ⊥ }
    {
        let at_client = ClientJudge::by(alloc, transfer, rollover);
        let at_server = ServerView::by(alloc, transfer, rollover);
        let between = BetweenView::by(alloc, transfer, rollover);
        Judges {
            client: points.client.then_some(at_client),
            server: points.server.then_some(at_server),
            between: points.between.then_some(between),
            failed: false,
        }
    }

    /// Gives the next datagram of the recording to each, of this transfer or of another, which belongs there. Where there is
    /// no memory for it at one of the points, they have failed for good.
    pub(crate) fn feed(&mut self, alloc: Global, fed: &Fed<'_>) -> Result<(), AllocError>
        requires few { AreFew self.old }
        requires short { length fed.now.payload.now ≤ 65527 }
        ensures after { (rollover : Option Rollover) (x : Transfer) (name : Naming) (p : Placed) (older : List Placed) → AreJudgesAfter rollover self.old x name older
            → IsFed name p (held_of fed.now) → OnOk result (AreJudgesAfter rollover self.new x name (p ∷ older)) }
        ensures others { (x : Transfer) (p : Placed) → fed.now.place.now ≡ p.place → AreOf self.old x → is_about x.number p ≡ false
            → self.old.failed ≡ false → (result ≡ Ok tt) × (self.new ≡ self.old) }
        ensures points { (points : Points) → AreAt self.old points → AreAt self.new points }
        ensures fails { OnErr result (self.new.failed ≡ true) }
        ensures for_good { self.old.failed ≡ true → IsErr result }
    {
        if self.failed {
            return Err(AllocError);
        }
        self.failed = true;
        feed(&mut self.client, alloc, fed)?;
        feed(&mut self.server, alloc, fed)?;
        feed(&mut self.between, alloc, fed)?;
        self.failed = false;
        Ok(())
    }

    /// Whether one of them has accepted, or holds, as many datagrams as can be counted.
    pub(crate) fn is_crowded(&self) -> bool
        ensures { MatchBool result (IsCrowded self.now) (AreFew self.now) }
    {
        counted(&self.client) >= MOST
            || counted(&self.server) >= MOST
            || counted(&self.between) >= MOST
    }

    /// What there is to say of the whole that was fed, at each point. What was refused there is told, also where memory ran out
    /// since.
    pub(crate) fn finish(self, alloc: Global) -> Verdicts
        ensures client { (rollover : Option Rollover) (x : Transfer) (name : Naming) (whole : List Placed) → AreJudgesAfter rollover self x name whole
            → IfSome result.client (IsFoundBy rollover (client_header x) (client_capture name x whole)) }
        ensures server { (rollover : Option Rollover) (x : Transfer) (name : Naming) (whole : List Placed) → AreJudgesAfter rollover self x name whole
            → IfSome result.server (IsFoundBy rollover (server_header x) (server_capture name x whole whole)) }
        ensures between { (rollover : Option Rollover) (x : Transfer) (whole : List Placed) → AreJudgesAfter rollover self x host_name whole → AreApart (sides_of x whole)
            → IfSome result.between (IsBetweenFoundBy rollover (sides_of x whole) (between_capture x whole)) }
        ensures to_itself { (rollover : Option Rollover) (x : Transfer) (whole : List Placed) → AreJudgesAfter rollover self x host_name whole → is_to_itself x whole ≡ true
            → IfSome result.between (λ said. said ≡ Err (RefusalKind.Incomplete (length (between_capture x whole)))) }
        ensures points { (points : Points) → AreAt self points → AreTold result points }
        ensures failed { self.failed ≡ true → AreWants self result }
        ensures refused { AreRefusalsTold self result }
    {
        let Judges {
            client,
            server,
            between,
            failed,
        } = self;
        Verdicts {
            client: said_at_client(client, alloc, failed),
            server: said_at_server(server, alloc, failed),
            between: said_between(between, alloc, failed),
        }
    }
}

/// What there is to say at the client, where it is judged there; or it failed for want of memory.
fn said_at_client<D: Delivered + Drop>(
    judge: Option<ClientJudge<D>>,
    alloc: Global,
    failed: bool,
) -> Option<Result<Meaning, Refusal>>
    ensures there { is_some result ≡ is_some judge }
    ensures found { (rollover : Option Rollover) (x : Transfer) (name : Naming) (whole : List Placed) → failed ≡ false → ClientStands rollover judge x name whole
        → IfSome result (IsFoundBy rollover (client_header x) (client_capture name x whole)) }
    ensures wants { failed ≡ true → IfSome result (λ said. said ≡ Err (unwrap_or (refused_at_client judge) (Memory (fed_at_client judge)))) }
    ensures refused { (refusal : RefusalAtEnd) → refused_at_client judge ≡ Some refusal → result ≡ Some (Err refusal) }
{
    match judge {
        Some(judge) => {
            if failed {
                return Some(Err(refused_or_wanting(judge.refused(), judge.fed())));
            }
            Some(judge.finish(alloc))
        }
        None => None,
    }
}

/// The same at the server.
fn said_at_server<D: Delivered + Drop>(
    judge: Option<ServerView<D>>,
    alloc: Global,
    failed: bool,
) -> Option<Result<Meaning, Refusal>>
    ensures there { is_some result ≡ is_some judge }
    ensures found { (rollover : Option Rollover) (x : Transfer) (name : Naming) (whole : List Placed) → failed ≡ false → ServerStands rollover judge x name whole
        → IfSome result (IsFoundBy rollover (server_header x) (server_capture name x whole whole)) }
    ensures wants { failed ≡ true → IfSome result (λ said. said ≡ Err (unwrap_or (refused_at_server judge) (Memory (fed_at_server judge)))) }
    ensures refused { (refusal : RefusalAtEnd) → refused_at_server judge ≡ Some refusal → result ≡ Some (Err refusal) }
{
    match judge {
        Some(view) => {
            if failed {
                return Some(Err(refused_or_wanting(view.refused(), view.fed())));
            }
            Some(view.finish(alloc))
        }
        None => None,
    }
}

/// The same between the ends.
fn said_between<D: Delivered + Drop>(
    judge: Option<BetweenView<D>>,
    alloc: Global,
    failed: bool,
) -> Option<Result<Meaning, TapRefusal>>
    ensures there { is_some result ≡ is_some judge }
    ensures found { (rollover : Option Rollover) (x : Transfer) (whole : List Placed) → failed ≡ false → BetweenStands rollover judge x host_name whole → AreApart (sides_of x whole)
        → IfSome result (IsBetweenFoundBy rollover (sides_of x whole) (between_capture x whole)) }
    ensures to_itself { (rollover : Option Rollover) (x : Transfer) (whole : List Placed) → failed ≡ false → BetweenStands rollover judge x host_name whole → is_to_itself x whole ≡ true
        → IfSome result (λ said. said ≡ Err (RefusalKind.Incomplete (length (between_capture x whole)))) }
    ensures wants { failed ≡ true → IfSome result (λ said. said ≡ Err (unwrap_or (refused_between judge) (RefusalKind.Memory (fed_between judge)))) }
    ensures refused { (refusal : RefusalKind) → refused_between judge ≡ Some refusal → result ≡ Some (Err refusal) }
{
    match judge {
        Some(judge) => {
            if failed {
                return Some(Err(refused_or_wanting_between(judge.refused(), judge.fed())));
            }
            Some(judge.finish(alloc))
        }
        None => None,
    }
}

/// What was refused, and else that memory ran out after so many datagrams.
fn refused_or_wanting(refused: Option<Refusal>, fed: u64) -> Refusal
    ensures { result ≡ unwrap_or refused (Memory fed) }
{
    match refused {
        Some(refusal) => refusal,
        None => Refusal::Memory(fed),
    }
}

/// The same between the ends.
fn refused_or_wanting_between(refused: Option<TapRefusal>, fed: u64) -> TapRefusal
    ensures { result ≡ unwrap_or refused (RefusalKind.Memory fed) }
{
    match refused {
        Some(refusal) => refusal,
        None => TapRefusal::Memory(fed),
    }
}
