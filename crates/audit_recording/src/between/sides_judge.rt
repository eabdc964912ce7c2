//! The judge of what passes between two sides, where there are two.

ghost use Rattle.std.specs.Prelude.{◌≡◌, ◌+◌, ◌^◌, ◌<◌, ◌≤◌, ◌∷◌, ℕ, List, [], length, OnOk, OnErr, Ok, Err, None, Option, Some, false};
ghost use Rattle.audit_recording.specs.Between.Captured.{are_apart};
ghost use Rattle.audit_recording.specs.Between.Judged.{HasTappedBy, IsBetweenFoundBy};
ghost use Rattle.audit_recording.specs.Between.Kept.{HasPassed, IsJudgedIfApart, counted_by, passed_as, refused_by};
ghost use Rattle.tftp_packet.specs.{Rollover};
ghost use Rattle.law_tap.specs.{AreApart, TapDatagram as Passing, TapSides};
ghost use Rattle.judge_tap.specs.{passing_of, TapRefusal as RefusalKind};
ghost use Rattle.audit_views.specs.Views.{held_of};

use crate::between::passing::passed;
use audit_views::views::Fed;
use judge_tap::{TapDatagram, TapJudge, TapRefusal};
use law_tap::Sides;
use std::alloc::{AllocError, Global};
use std::marker::Model;
use tftp_ends::blocks::Delivered;
use tftp_judge::Meaning;
use tftp_packet::rounds::Rollover;

/// The judge of what passes between two sides. Where the client is the server too, or where it asks, there is none: then it
/// counts what passes, and refuses nothing. Where its sides say that numbers begin again after block 65535, it takes a number for
/// the block near the highest that has passed.
#[derive(Drop)]
pub struct SidesJudge<D: Delivered + Drop> {
    sides: Sides,
    judge: Option<TapJudge<D>>,
    counted: u64,
}

impl<D: Delivered + Drop> Model for SidesJudge<D> {
    ghost use Rattle.std.specs.Coded.{codes};
    ghost use Rattle.std.specs.Prelude.{◌≡◌, is_some};
    ghost use Rattle.audit_recording.specs.Between.Captured.{are_apart};
    ghost use Rattle.audit_recording.specs.Between.Kept.{Between};
    ghost use Rattle.tftp_ends.specs.StatesKept.{sender_code, receiver_code};
    ghost use Rattle.tftp_packet.specs.Owned.{options_code, parts_code};

    ghost Value = { Between };

    ghost coded = { Prim.hlevel (codes, sender_code, receiver_code, options_code, parts_code) };

    ghost view = { λ j. record { sides = j.sides; judge = j.judge; counted = j.counted } };

    ghost invariant = { λ j. is_some j.judge ≡ are_apart j.sides };
}

impl<D: Delivered + Drop> SidesJudge<D> {
    /// Of these sides, before any datagram. Takes no memory.
    pub fn new(alloc: Global, sides: Sides) -> Self
        ensures passed { HasPassed result [] }
        ensures sides { result.sides ≡ sides }
        ensures apart { IsJudgedIfApart result }
        ensures none { counted_by result ≡ 0 }
    {
        let is_one = sides.client == sides.server || sides.client == sides.asked;
        SidesJudge {
            sides,
            judge: if is_one {
                None
            } else {
                Some(TapJudge::new(alloc, sides))
            },
            counted: 0,
        }
    }

    /// Gives it the next datagram, which is copied only where it goes to a judge that has refused none.
    pub fn put(&mut self, alloc: Global, fed: &Fed<'_>) -> Result<(), AllocError>
        requires few { counted_by self.old < 2 ^ 40 }
        requires short { length fed.now.payload.now ≤ 65527 }
        ensures passed { (given : List Passing) → HasPassed self.old given
            → OnOk result (HasPassed self.new (passed_as (held_of fed.now) ∷ given)) }
        ensures same { OnErr result (self.new ≡ self.old) }
        ensures counts { counted_by self.new ≤ counted_by self.old + 1 }
        ensures sides { self.new.sides ≡ self.old.sides }
        ensures apart { IsJudgedIfApart self.new }
        ensures rests { (refusal : RefusalKind) → refused_by self.old ≡ Some refusal → (result ≡ Ok tt) × (self.new ≡ self.old) }
    {
        let rollover = self.sides.rollover;
        match &mut self.judge {
            None => self.counted += 1,
            Some(judge) => match judge.refused() {
                None => give(judge, alloc, rollover, passed(alloc, fed)?),
                Some(_) => {}
            },
        }
        Ok(())
    }

    /// Gives it the next datagram, whose memory it takes over.
    pub fn take(&mut self, alloc: Global, datagram: TapDatagram)
        requires few { counted_by self.old < 2 ^ 40 }
        requires short { length datagram.payload ≤ 65527 }
        ensures passed { (given : List Passing) → HasPassed self.old given → HasPassed self.new (passing_of datagram ∷ given) }
        ensures counts { counted_by self.new ≤ counted_by self.old + 1 }
        ensures sides { self.new.sides ≡ self.old.sides }
        ensures apart { IsJudgedIfApart self.new }
    {
        let rollover = self.sides.rollover;
        match &mut self.judge {
            None => self.counted += 1,
            Some(judge) => give(judge, alloc, rollover, datagram),
        }
    }

    /// How many the judge accepted, or were counted.
    pub fn fed(&self) -> u64
        ensures { result ≡ counted_by self.now }
    {
        match &self.judge {
            Some(judge) => judge.fed(),
            None => self.counted,
        }
    }

    /// What the judge refused a datagram for, or that memory ran out for one.
    pub fn refused(&self) -> Option<TapRefusal>
        ensures refused { result ≡ refused_by self.now }
        ensures apart { IsJudgedIfApart self.now }
    {
        match &self.judge {
            Some(judge) => judge.refused(),
            None => None,
        }
    }

    /// What there is to say of all that it was given: where there is no judge, that it is nothing whole.
    pub fn finish(self, alloc: Global) -> Result<Meaning, TapRefusal>
        ensures judged { (given : List Passing) → HasPassed self given → AreApart self.sides
            → IsBetweenFoundBy self.sides.rollover self.sides given result }
        ensures to_itself { are_apart self.sides ≡ false → result ≡ Err (RefusalKind.Incomplete (counted_by self)) }
        ensures all { (given : List Passing) → HasPassed self given → are_apart self.sides ≡ false → counted_by self ≡ length given }
        ensures for_good { (refusal : RefusalKind) → refused_by self ≡ Some refusal → result ≡ Err refusal }
    {
        let SidesJudge {
            sides: _,
            judge,
            counted,
        } = self;
        match judge {
            Some(judge) => judge.finish(alloc),
            None => Err(TapRefusal::Incomplete(counted)),
        }
    }
}

/// Gives a judge the next datagram, whose numbers begin again or do not; a refusal it keeps.
fn give<D: Delivered + Drop>(
    judge: &mut TapJudge<D>,
    alloc: Global,
    rollover: Option<Rollover>,
    datagram: TapDatagram,
)
    requires few { judge.old.fed < 2 ^ 40 }
    requires short { length datagram.payload ≤ 65527 }
    ensures tapped { (s : TapSides) (given : List Passing) → HasTappedBy rollover judge.old s given
        → HasTappedBy rollover judge.new s (passing_of datagram ∷ given) }
    ensures counts { judge.new.fed ≤ judge.old.fed + 1 }
{
    match rollover {
        Some(rollover) => {
            let _kept = judge.feed_numbered(alloc, rollover, datagram);
        }
        None => {
            let _kept = judge.feed(alloc, datagram);
        }
    }
}
