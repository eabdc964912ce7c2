//! One transfer of a recording.

ghost use Rattle.std.specs.Prelude.{◌≡◌, ◌≤◌, ◌∷◌, ℕ, List, [], length, option_copied, IfSome, OnOk, Err, false, true};
ghost use Rattle.audit_recording.specs.Between.{between_capture, is_to_itself, sides_of, IsBetweenFoundBy};
ghost use Rattle.audit_views.specs.Parties.{host_name};
ghost use Rattle.audit_recording.specs.Judges.Kept.{AreRefusalsTold, AreTold, AreWants, IsCrowded, IsWatching};
ghost use Rattle.audit_recording.specs.Judges.Points.{points_of, rollover_of};
ghost use Rattle.audit_recording.specs.declared.judges.judging.Judging.{Judging as JudgingKind};
ghost use Rattle.law_tap.specs.{AreApart};
ghost use Rattle.judge_tap.specs.{TapRefusal};
ghost use Rattle.audit_flows.specs.Lines.{doubts_of, Placed};
ghost use Rattle.audit_flows.specs.{Transfer};
ghost use Rattle.audit_flows.specs.Transfers.{is_about};
ghost use Rattle.audit_flows.specs.{AttributionFault};
ghost use Rattle.audit_views.specs.Views.{Naming, client_capture, client_header, server_capture, server_header, IsFoundBy, IsFed, held_of};

use crate::between::BetweenView;
use crate::judges::judges::Judges;
use crate::judges::judging::Judging;
use crate::judges::verdicts::Verdicts;
use audit_flows::lines::Transfer;
use audit_flows::transfers::{Attributed, AttributionFault, TransferDoubts};
use audit_views::views::{ClientJudge, Fed, ServerView};
use std::alloc::Global;
use std::marker::Model;
use tftp_ends::blocks::Delivered;

/// A transfer of a recording: its judges, each at a point where it is judged, and what makes a refusal of it no accusation.
pub struct Watched<D: Delivered + Drop> {
    transfer: Transfer,
    judges: Judges<D>,
    doubts: TransferDoubts,
}

impl<D: Delivered + Drop> Drop for Watched<D> {
    // written out, since the prover takes a derived one apart again wherever a value is let go
    fn drop(self) {
        let Watched {
            transfer: _,
            judges: _,
            doubts: _,
        } = self;
    }
}

impl<D: Delivered + Drop> Model for Watched<D> {
    ghost use Rattle.std.specs.Coded.{codes};
    ghost use Rattle.tftp_ends.specs.StatesKept.{sender_code, receiver_code};
    ghost use Rattle.tftp_packet.specs.Owned.{options_code, parts_code};
    ghost use Rattle.audit_recording.specs.Judges.Kept.{Watched};

    ghost Value = { Watched };

    ghost coded = { Prim.hlevel (codes, sender_code, receiver_code, options_code, parts_code) };

    ghost view = { λ w. record { transfer = w.transfer; judges = w.judges; doubts = w.doubts } };
}

impl<D: Delivered + Drop> Watched<D> {
    /// A transfer before any datagram. Takes no memory.
    pub(crate) fn new(alloc: Global, transfer: Transfer, judging: Judging) -> Self
        ensures stands { (name : Naming) → IsWatching result judging transfer name [] }
        ensures none { IsCrowded result.judges → ⊥ }
    {
        Watched {
            transfer,
            judges: Judges::new(
                alloc,
                transfer,
                judging.points(&transfer),
                judging.rollover(),
            ),
            doubts: TransferDoubts::new(transfer.number),
        }
    }

    /// Takes the next datagram of the recording.
    pub(crate) fn take(
        &mut self,
        alloc: Global,
        found: &Attributed,
        fed: &Fed<'_>,
    ) -> Result<(), AttributionFault>
        requires short { length fed.now.payload.now ≤ 65527 }
        ensures stands { (judging : JudgingKind) (x : Transfer) (name : Naming) (p : Placed) (older : List Placed) → IsWatching self.old judging x name older
            → IsFed name p (held_of fed.now) → found.now.place ≡ p.place → found.now.doubts ≡ doubts_of p older
            → OnOk result (IsWatching self.new judging x name (p ∷ older)) }
        ensures full { result ≡ Err AttributionFault.TooMany → IsCrowded self.old.judges }
        ensures transfer { self.new.transfer ≡ self.old.transfer }
    {
        if self.judges.is_crowded() {
            return Err(AttributionFault::TooMany);
        }
        self.doubts.note(found);
        self.judges.feed(alloc, fed)?;
        Ok(())
    }

    /// Takes the next datagram of the recording, which is another transfer's, but may be this one's first answer.
    pub(crate) fn doubt(&mut self, found: &Attributed)
        ensures stands { (judging : JudgingKind) (x : Transfer) (name : Naming) (p : Placed) (older : List Placed) → IsWatching self.old judging x name older
            → found.now.place ≡ p.place → found.now.doubts ≡ doubts_of p older → is_about x.number p ≡ false
            → IsWatching self.new judging x name (p ∷ older) }
        ensures transfer { self.new.transfer ≡ self.old.transfer }
    {
        self.doubts.note(found);
    }

    /// The transfer.
    pub fn transfer(&self) -> Transfer
        ensures { result ≡ self.now.transfer }
    {
        self.transfer
    }

    /// The judge at its client, if it is judged there.
    pub fn client(&self) -> Option<&ClientJudge<D>>
        ensures { option_copied result ≡ self.now.judges.client }
    {
        self.judges.client.as_ref()
    }

    /// The judge at its server, if it is judged there.
    pub fn server(&self) -> Option<&ServerView<D>>
        ensures { option_copied result ≡ self.now.judges.server }
    {
        self.judges.server.as_ref()
    }

    /// The judge between its ends, if it is judged there.
    pub fn between(&self) -> Option<&BetweenView<D>>
        ensures { option_copied result ≡ self.now.judges.between }
    {
        self.judges.between.as_ref()
    }

    /// What is doubtful of it.
    pub fn doubts(&self) -> TransferDoubts
        ensures { result ≡ self.now.doubts }
    {
        self.doubts
    }

    /// What there is to say of all that was fed, at each point where it is judged: of each end's view the verdict of the text
    /// that has just it, and of what passed between two ends that of all of it; or being out of memory. Of a client that asked
    /// itself nothing is said between the ends but how many datagrams there are.
    pub fn finish(self, alloc: Global) -> Verdicts
        ensures client { (judging : JudgingKind) (x : Transfer) (name : Naming) (whole : List Placed) → IsWatching self judging x name whole
            → IfSome result.client (IsFoundBy (rollover_of judging) (client_header x) (client_capture name x whole)) }
        ensures server { (judging : JudgingKind) (x : Transfer) (name : Naming) (whole : List Placed) → IsWatching self judging x name whole
            → IfSome result.server (IsFoundBy (rollover_of judging) (server_header x) (server_capture name x whole whole)) }
        ensures between { (judging : JudgingKind) (x : Transfer) (whole : List Placed) → IsWatching self judging x host_name whole
            → AreApart (sides_of x whole)
            → IfSome result.between (IsBetweenFoundBy (rollover_of judging) (sides_of x whole) (between_capture x whole)) }
        ensures to_itself { (judging : JudgingKind) (x : Transfer) (whole : List Placed) → IsWatching self judging x host_name whole
            → is_to_itself x whole ≡ true
            → IfSome result.between (λ said. said ≡ Err (TapRefusal.Incomplete (length (between_capture x whole)))) }
        ensures points { (judging : JudgingKind) (x : Transfer) (name : Naming) (whole : List Placed) → IsWatching self judging x name whole
            → AreTold result (points_of judging x) }
        ensures failed { self.judges.failed ≡ true → AreWants self.judges result }
        ensures refused { AreRefusalsTold self.judges result }
    {
        let Watched {
            transfer: _,
            judges,
            doubts: _,
        } = self;
        judges.finish(alloc)
    }
}
