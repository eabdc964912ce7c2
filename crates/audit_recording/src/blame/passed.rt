//! A datagram that is kept for a refusal.

ghost use Rattle.std.specs.Prelude.{◌≡◌, List};
ghost use Rattle.audit_flows.specs.Lines.{Placed};
ghost use Rattle.audit_flows.specs.Transfers.{AreEndsAfter};
ghost use Rattle.audit_recording.specs.Blame.Frames.{is_seen};
ghost use Rattle.audit_recording.specs.Blame.Kept.{placed_by};

use crate::blame::blame::Blamed;
use crate::rows::Point;
use audit_flows::lines::{Endpoint, Place};
use audit_flows::transfers::TransferEnds;

/// A datagram about a transfer, with the facts that a refusal of it is told by.
#[derive(Clone, Copy)]
pub struct Passed {
    /// These facts.
    pub blamed: Blamed,
    /// Where it belongs.
    pub place: Place,
    /// Where it went.
    pub target: Endpoint,
}

impl Passed {
    /// Whether it was seen at this point of the transfer, by the ends that all datagrams tell.
    pub fn is_seen(&self, point: Point, ends: &TransferEnds) -> bool
        ensures { (whole : List Placed) → AreEndsAfter ends.now whole → result ≡ is_seen point ends.now.number whole (placed_by self.now) }
    {
        match point {
            Point::Client => ends.is_at_client(&self.place),
            Point::Server => ends.is_at_server(&self.place, self.blamed.source, self.target),
            Point::Between => ends.is_at_client(&self.place),
        }
    }
}
