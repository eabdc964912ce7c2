//! A transfer's judge at one point, where it is judged there.

ghost use Rattle.std.specs.Prelude.{◌≡◌, ◌+◌, ◌^◌, ◌<◌, ◌≤◌, ◌∷◌, ℕ, List, Option, length, is_some, IfSome, OnOk, Ok, false};
ghost use Rattle.audit_recording.specs.Between.{IsBetweenAfterBy, given_to};
ghost use Rattle.audit_flows.specs.Lines.{Placed};
ghost use Rattle.audit_flows.specs.{Transfer};
ghost use Rattle.audit_views.specs.Parties.{host_name};
ghost use Rattle.audit_recording.specs.Judges.Kept.{StandsAs, fed_by};
ghost use Rattle.audit_flows.specs.Transfers.{is_about};
ghost use Rattle.tftp_packet.specs.{Rollover};
ghost use Rattle.audit_views.specs.Views.{IsClientAfterBy, IsFed, IsViewAfterBy, Naming, fed_to, held_of};

use crate::between::BetweenView;
use audit_views::views::{ClientJudge, Fed, ServerView};
use std::alloc::{AllocError, Global};
use tftp_ends::blocks::Delivered;

/// A judge of a transfer at one point.
pub(crate) trait PointJudge {
    /// The transfer that it judges.
    ghost judged: { Self → Transfer };

    /// How many datagrams it has accepted, or holds.
    ghost counted: { Self → ℕ };

    /// By what comes after block 65535, it was fed these datagrams of a recording, and nothing else.
    ghost stands: { Option Rollover → Self → Naming → List Placed → Type 0 };

    /// Takes the next datagram of the recording, of this transfer or of another, which belongs there.
    fn take(&mut self, alloc: Global, fed: &Fed<'_>) -> Result<(), AllocError>
        requires few { counted self.old < 2 ^ 40 }
        requires short { length fed.now.payload.now ≤ 65527 }
        ensures stands { (rollover : Option Rollover) (name : Naming) (p : Placed) (older : List Placed) → stands rollover self.old name older
            → IsFed name p (held_of fed.now) → OnOk result (stands rollover self.new name (p ∷ older)) }
        ensures others { (p : Placed) → fed.now.place.now ≡ p.place → is_about (judged self.old).number p ≡ false
            → (result ≡ Ok tt) × (self.new ≡ self.old) }
        ensures judged { judged self.new ≡ judged self.old }
        ensures counts { counted self.new ≤ counted self.old + 1 };

    /// How many datagrams it has accepted, or holds.
    fn counted(&self) -> u64
        ensures { result ≡ counted self.now };
}

impl<D: Delivered + Drop> PointJudge for ClientJudge<D> {
    ghost judged = { λ c. c.transfer };

    ghost counted = { λ c. c.end.judge.fed };

    ghost stands = { IsClientAfterBy };

    fn take(&mut self, alloc: Global, fed: &Fed<'_>) -> Result<(), AllocError> {
        self.feed(alloc, fed)
    }

    fn counted(&self) -> u64 {
        self.fed()
    }
}

impl<D: Delivered + Drop> PointJudge for ServerView<D> {
    ghost judged = { λ v. v.transfer };

    ghost counted = { fed_to };

    ghost stands = { IsViewAfterBy };

    fn take(&mut self, alloc: Global, fed: &Fed<'_>) -> Result<(), AllocError> {
        self.feed(alloc, fed)
    }

    fn counted(&self) -> u64 {
        self.fed()
    }
}

impl<D: Delivered + Drop> PointJudge for BetweenView<D> {
    ghost judged = { λ v. v.transfer };

    ghost counted = { given_to };

    ghost stands = { λ rollover v name placed. name ≡ host_name → IsBetweenAfterBy rollover v placed };

    fn take(&mut self, alloc: Global, fed: &Fed<'_>) -> Result<(), AllocError> {
        self.feed(alloc, fed)
    }

    fn counted(&self) -> u64 {
        self.fed()
    }
}

/// Gives the next datagram of the recording to the judge, if there is one.
pub(crate) fn feed<J: PointJudge>(
    judge: &mut Option<J>,
    alloc: Global,
    fed: &Fed<'_>,
) -> Result<(), AllocError>
    requires few { fed_by J.counted judge.old < 2 ^ 40 }
    requires short { length fed.now.payload.now ≤ 65527 }
    ensures stands { (rollover : Option Rollover) (x : Transfer) (name : Naming) (p : Placed) (older : List Placed) → StandsAs J.judged (J.stands rollover) judge.old x name older
        → IsFed name p (held_of fed.now) → OnOk result (StandsAs J.judged (J.stands rollover) judge.new x name (p ∷ older)) }
    ensures others { (p : Placed) → fed.now.place.now ≡ p.place → IfSome judge.old (λ j. is_about (J.judged j).number p ≡ false)
        → (result ≡ Ok tt) × (judge.new ≡ judge.old) }
    ensures there { is_some judge.new ≡ is_some judge.old }
    ensures counts { fed_by J.counted judge.new ≤ fed_by J.counted judge.old + 1 }
{
    match judge {
        Some(judge) => judge.take(alloc, fed),
        None => Ok(()),
    }
}

/// How many datagrams the judge has accepted, or holds; none where there is no judge.
pub(crate) fn counted<J: PointJudge>(judge: &Option<J>) -> u64
    ensures { result ≡ fed_by J.counted judge.now }
{
    match judge {
        Some(judge) => judge.counted(),
        None => 0,
    }
}
