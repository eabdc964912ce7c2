//! The facts of the datagrams of a view, as far as its judge may still refuse them.

ghost use Rattle.std.specs.Prelude.{◌≡◌, ◌<◌, ◌-◌, ◌∷◌, [], List, Option, OnOk, filter, map, option_map, true};
ghost use Rattle.std.specs.List.{slice_get};
ghost use Rattle.tftp_packet.specs.{Rollover};
ghost use Rattle.audit_flows.specs.Lines.{Placed};
ghost use Rattle.audit_flows.specs.{Transfer};
ghost use Rattle.audit_flows.specs.Transfers.{AreEndsAfter};
ghost use Rattle.audit_recording.specs.Blame.Frames.{Framed, is_seen};
ghost use Rattle.audit_recording.specs.Blame.Kept.{Accepts, AreFactsOf, IsHeld, IsTold, Refuses, blamed_in, is_about_it, passed_of, placed_by};
ghost use Rattle.audit_recording.specs.declared.rows.row.Point.{Point as PointKind};

use crate::blame::blame::Blamed;
use crate::blame::passed::Passed;
use crate::blame::told::Told;
use crate::rows::Point;
use audit_flows::transfers::TransferEnds;
use std::alloc::{AllocError, Global};

/// The facts of the datagrams of a view, but for those that its judge refuses no more; and once it has refused one, those of that
/// one.
#[derive(Drop)]
pub struct ViewFacts {
    /// How many of the view came before those that are held.
    forgotten: u64,
    /// What has passed of the transfer since.
    held: Vec<Passed>,
    /// The one that is refused.
    refused: Option<Found>,
}

/// The datagram that is refused.
#[derive(Clone, Copy)]
pub struct Found {
    /// Its number in the view, from 1.
    pub number: u64,
    /// Its facts.
    pub blamed: Blamed,
}

impl ViewFacts {
    /// Before any datagram of the transfer.
    pub fn new(alloc: Global) -> Self
        ensures { (rollover : Option Rollover) (point : PointKind) (x : Transfer) (whole : List Placed) (frames : List Framed) → filter (is_about_it x.number) frames ≡ []
            → AreFactsOf rollover result point x whole frames }
    {
        ViewFacts {
            forgotten: 0,
            held: Vec::new(alloc),
            refused: None,
        }
    }

    /// Takes the next datagram about the transfer, of which the point's judge tells this.
    pub fn take(
        &mut self,
        point: Point,
        ends: &TransferEnds,
        passed: Passed,
        told: Told,
    ) -> Result<(), AllocError>
        ensures { (rollover : Option Rollover) (x : Transfer) (f : Framed) (whole : List Placed) (frames : List Framed) → AreFactsOf rollover self.old point x whole frames
            → passed ≡ passed_of x f → is_about_it x.number f ≡ true
            → ends.now.number ≡ x.number → AreEndsAfter ends.now (f.placed ∷ whole)
            → map (λ g. g.placed) frames ≡ whole
            → IsTold rollover point x (f.placed ∷ whole) told
            → OnOk result (AreFactsOf rollover self.new point x (f.placed ∷ whole) (f ∷ frames)) }
    {
        self.see(passed)?;
        self.note(point, ends, told);
        Ok(())
    }

    /// Holds a datagram, unless one is refused.
    fn see(&mut self, passed: Passed) -> Result<(), AllocError>
        ensures { (rollover : Option Rollover) (point : PointKind) (x : Transfer) (f : Framed) (whole : List Placed) (frames : List Framed) → AreFactsOf rollover self.old point x whole frames
            → passed ≡ passed_of x f → is_about_it x.number f ≡ true
            → OnOk result (AreFactsOf rollover self.new point x (f.placed ∷ whole) (f ∷ frames)) }
    {
        match self.refused {
            Some(_) => Ok(()),
            None => {
                self.held.push(passed)?;
                Ok(())
            }
        }
    }

    /// Forgets what the judge refuses no more, or all but the one that it refuses.
    fn note(&mut self, point: Point, ends: &TransferEnds, told: Told)
        ensures { (rollover : Option Rollover) (x : Transfer) (whole : List Placed) (frames : List Framed) → AreFactsOf rollover self.old point x whole frames
            → ends.now.number ≡ x.number → AreEndsAfter ends.now whole → map (λ g. g.placed) frames ≡ whole
            → IsTold rollover point x whole told → AreFactsOf rollover self.new point x whole frames }
    {
        match told {
            Told::Nothing => {}
            Told::Accepted(count) => self.forget(count),
            Told::Refused(number) => self.refuse(point, ends, number),
        }
    }

    /// Forgets what is held, since the judge has accepted so many: all of the view.
    fn forget(&mut self, count: u64)
        ensures { (rollover : Option Rollover) (point : PointKind) (x : Transfer) (whole : List Placed) (frames : List Framed) → AreFactsOf rollover self.old point x whole frames
            → map (λ g. g.placed) frames ≡ whole → Accepts rollover point x whole count → AreFactsOf rollover self.new point x whole frames }
    {
        match self.refused {
            Some(_) => {}
            None => {
                self.forgotten = count;
                self.held.clear();
            }
        }
    }

    /// Keeps the one that is refused alone.
    fn refuse(&mut self, point: Point, ends: &TransferEnds, number: u64)
        ensures { (rollover : Option Rollover) (x : Transfer) (whole : List Placed) (frames : List Framed) → AreFactsOf rollover self.old point x whole frames
            → ends.now.number ≡ x.number → AreEndsAfter ends.now whole
            → Refuses rollover point x whole number → AreFactsOf rollover self.new point x whole frames }
    {
        match (self.refused, self.find(point, ends, number)) {
            (None, Some(blamed)) => {
                self.refused = Some(Found { number, blamed });
                self.held.clear();
            }
            _ => {}
        }
    }

    /// The facts of the view's datagram with this number, from 1, where it is held.
    pub fn at(&self, point: Point, ends: &TransferEnds, number: u64) -> Option<Blamed>
        ensures { (rollover : Option Rollover) (x : Transfer) (whole : List Placed) (frames : List Framed) → AreFactsOf rollover self.now point x whole frames
            → ends.now.number ≡ x.number → AreEndsAfter ends.now whole
            → IsHeld self.now number → result ≡ blamed_in point x whole frames number }
    {
        match &self.refused {
            None => self.find(point, ends, number),
            Some(found) => {
                if found.number == number {
                    Some(found.blamed)
                } else {
                    None
                }
            }
        }
    }

    /// The same among those that are held.
    fn find(&self, point: Point, ends: &TransferEnds, number: u64) -> Option<Blamed>
        ensures { (whole : List Placed) → AreEndsAfter ends.now whole → self.now.forgotten < number
            → result ≡ option_map (λ q. q.blamed) (slice_get (filter (λ q. is_seen point ends.now.number whole (placed_by q)) self.now.held.items) (number - self.now.forgotten - 1)) }
    {
        if number <= self.forgotten {
            return None;
        }
        let mut left = number - self.forgotten;
        for one in self.held.iter() {
            if one.is_seen(point, ends) {
                if left <= 1 {
                    return Some(one.blamed);
                }
                left -= 1;
            }
        }
        None
    }
}
