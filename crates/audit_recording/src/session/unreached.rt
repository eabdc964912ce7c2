//! Datagrams of transfers that did not arrive, as ICMP tells.

ghost use Rattle.std.specs.Prelude.{◌≡◌, ◌==◌, ◌&&◌, ◌∷◌, ℕ, List, None, OnOk, Some, false, if◌then◌else◌};
ghost use Rattle.std.specs.BTreeMap.{get};
ghost use Rattle.std.specs.Ordering.{nat_cmp};
ghost use Rattle.net_udp.specs.Recording.{Step};
ghost use Rattle.audit_recording.specs.Blame.Frames.{Carried, whole_of};
ghost use Rattle.audit_recording.specs.declared.judges.judging.Judging.{Judging as JudgingKind};
ghost use Rattle.audit_recording.specs.Reasons.Unplaced.{is_it};
ghost use Rattle.audit_recording.specs.Session.Beside.{AreMarksKept};
ghost use Rattle.audit_recording.specs.Session.Heard.{AreUnreachedKept, IsFrameOf, is_of_trail, undelivered_by};
ghost use Rattle.audit_recording.specs.Session.Noted.{Noticed};
ghost use Rattle.audit_recording.specs.Session.Recording.{IsNoticedOf};
ghost use Rattle.audit_recording.specs.Session.Trails.{AreTrailsKept};

use crate::blame::{Trail, Undelivered};
use crate::session::unplaced::Unplaced;
use audit_views::parties::party_of;
use net_udp::frames::Unreachable;
use net_udp::recording::Event;
use std::alloc::{AllocError, Global};
use std::collections::BTreeMap;

/// The last one of each transfer, by the number of the transfer.
#[derive(Drop)]
pub struct Unreached {
    last: BTreeMap<u64, Undelivered>,
}

impl Unreached {
    /// Nothing was read.
    pub fn new(alloc: Global) -> Self
        ensures { (n : ℕ) → get nat_cmp result.last n ≡ None }
    {
        Unreached {
            last: BTreeMap::new(alloc),
        }
    }

    /// Notes one of the transfer with this number.
    pub fn note(&mut self, number: u64, undelivered: Undelivered) -> Result<(), AllocError>
        ensures { OnOk result ((n : ℕ) → get nat_cmp self.new.last n ≡ (if number == n then Some undelivered else get nat_cmp self.old.last n)) }
    {
        self.last.insert(number, undelivered)?;
        Ok(())
    }

    /// Hands out that of the transfer with this number, where there is one.
    pub fn take(&mut self, number: u64) -> Option<Undelivered>
        ensures is { result ≡ get nat_cmp self.old.last number }
        ensures gone { get nat_cmp self.new.last number ≡ None }
        ensures others { (n : ℕ) → (number == n) ≡ false → get nat_cmp self.new.last n ≡ get nat_cmp self.old.last n }
    {
        self.last.remove(&number)
    }
}

/// Notes of which transfers a datagram was that did not arrive, if the frame tells of one: of those that its ends opened last.
pub(crate) fn hear(
    unreached: &mut Unreached,
    trails: &BTreeMap<u64, Trail>,
    unplaced: &Unplaced,
    event: &Event,
) -> Result<(), AllocError>
    ensures { (judging : JudgingKind) (named out : List ℕ) (step : Step) (history : List Step) (carried : List Carried) (s : Noticed)
        → IsFrameOf step history event.now → IsNoticedOf named (step ∷ history) carried s → AreTrailsKept trails.now judging named out carried
        → AreMarksKept unplaced.now trails.now out s.beside → AreUnreachedKept unreached.old named out history carried
        → OnOk result (AreUnreachedKept unreached.new named out (step ∷ history) carried) }
{
    let Some(told) = event.unreachable() else {
        return Ok(());
    };
    let undelivered = undelivered_by(event.number(), &told);
    hear_at(
        unreached,
        trails,
        unplaced.newest(undelivered.source),
        undelivered,
    )?;
    hear_at(
        unreached,
        trails,
        unplaced.newest(undelivered.target),
        undelivered,
    )
}

/// Notes it at the transfer with this number, if one is named, and it was between the ends of that.
fn hear_at(
    unreached: &mut Unreached,
    trails: &BTreeMap<u64, Trail>,
    number: Option<u64>,
    undelivered: Undelivered,
) -> Result<(), AllocError>
    ensures { (judging : JudgingKind) (named out : List ℕ) (carried : List Carried) → AreTrailsKept trails.now judging named out carried
        → OnOk result ((n : ℕ) → get nat_cmp unreached.new.last n
        ≡ (if is_it n number && is_of_trail (get nat_cmp trails.now n) (whole_of named carried) undelivered then Some undelivered else get nat_cmp unreached.old.last n)) }
{
    let Some(number) = number else {
        return Ok(());
    };
    match trails.get(&number) {
        Some(trail) if trail.is_between_ends(&undelivered) => unreached.note(number, undelivered),
        _ => Ok(()),
    }
}

/// The datagram that did not arrive, as a frame tells.
fn undelivered_by(frame: u64, told: &Unreachable) -> Undelivered
    ensures { result ≡ undelivered_by frame told.now }
{
    Undelivered {
        frame,
        host: party_of(told.from, 0).end.address,
        code: told.code,
        source: party_of(told.quoted.source, told.quoted.source_port).end,
        target: party_of(told.quoted.target, told.quoted.target_port).end,
    }
}
