//! Datagrams that were left out, since their hosts discarded them.

ghost use Rattle.std.specs.Prelude.{◌≡◌, ◌∷◌, ℕ, List, [], Option, OnOk, option_map};
ghost use Rattle.audit_recording.specs.Session.Discards.{AreDiscardsAfter, Gone, before_opening, discarding, newest_at};

use crate::blame::Trail;
use crate::session::losses::SILENCE;
use audit_flows::lines::Endpoint;
use std::alloc::{AllocError, Global};
use std::collections::BTreeMap;

/// The newest datagram that was left out as discarded, of what came from an endpoint or went there.
#[derive(Drop)]
pub struct Discards {
    newest: BTreeMap<Endpoint, Discarded>,
}

/// A datagram that was left out as discarded.
#[derive(Clone, Copy)]
struct Discarded {
    /// Its frame, from 1.
    frame: u64,
    /// In nanoseconds since 1970.
    time: u64,
}

impl Discards {
    /// Nothing was read.
    pub fn new(alloc: Global) -> Self
        ensures { AreDiscardsAfter result [] }
    {
        Discards {
            newest: BTreeMap::new(alloc),
        }
    }

    /// Notes a datagram that was left out as discarded. After an error they stand for nothing.
    pub fn note(
        &mut self,
        source: Endpoint,
        target: Endpoint,
        frame: u64,
        time: u64,
    ) -> Result<(), AllocError>
        ensures { (gone : List Gone) → AreDiscardsAfter self.old gone
            → OnOk result (AreDiscardsAfter self.new (record { source = source; target = target; frame = frame; time = time } ∷ gone)) }
    {
        let discarded = Discarded { frame, time };
        self.newest.insert(source, discarded)?;
        self.newest.insert(target, discarded)?;
        Ok(())
    }

    /// Notes at a transfer that a request opens at this time what was left out as discarded in the 300 s before: it may have
    /// been of it.
    pub fn open(&self, trail: &mut Trail, time: u64)
        ensures is { (gone : List Gone) → AreDiscardsAfter self.now gone
            → trail.new ≡ discarding (before_opening time (newest_at trail.old.transfer.client gone)) trail.old }
        ensures only { (frame : Option ℕ) × (trail.new ≡ discarding frame trail.old) }
    {
        match self.latest_before(trail.transfer.client, time) {
            Some(frame) => trail.discard(frame),
            None => {}
        }
    }

    /// The frame of what was left out last at this endpoint, if it may have been of a transfer that is opened at this time.
    fn latest_before(&self, end: Endpoint, time: u64) -> Option<u64>
        ensures { (gone : List Gone) → AreDiscardsAfter self.now gone → result ≡ before_opening time (newest_at end gone) }
    {
        match self.newest.get(&end) {
            Some(latest) if time <= latest.time.saturating_add(SILENCE) => Some(latest.frame),
            _ => None,
        }
    }
}
