//! Which frames of one host are not there whole.

ghost use Rattle.std.specs.Prelude.{◌≡◌, ◌<◌, ◌≤◌, ℕ, IfSome, MatchBool, None, OnOk, Some, true};
ghost use Rattle.std.specs.BTreeMap.{get};
ghost use Rattle.std.specs.Ordering.{nat_cmp};
ghost use Rattle.audit_recording.specs.Losses.Noted.{IsFirst, IsTold, Since, is_soon};
ghost use Rattle.audit_recording.specs.Losses.Kept.{HasAskedIn, HasLost, HasWaited, IsKept, IsNoted, waits_at};

use crate::blame::least;
use crate::session::losses::{SILENCE, Stretch};
use std::alloc::{AllocError, Global};
use std::collections::BTreeMap;

/// The lost frames of one host, or of unknown ones, and when they passed, in nanoseconds.
#[derive(Drop)]
pub(crate) struct HostLosses {
    /// Of those that are lost the first after each request, at least.
    lost: BTreeMap<u64, u64>,
    /// Those that wait.
    waiting: BTreeMap<u64, u64>,
    /// The frame of the latest request of a client there; 0 before the first.
    asked: u64,
}

impl HostLosses {
    /// None.
    pub(crate) fn new(alloc: Global) -> Self
        ensures lost { (n : ℕ) → get nat_cmp result.lost n ≡ None }
        ensures waits { (n : ℕ) → get nat_cmp result.waiting n ≡ None }
        ensures asked { result.asked ≡ 0 }
    {
        HostLosses {
            lost: BTreeMap::new(alloc),
            waiting: BTreeMap::new(alloc),
            asked: 0,
        }
    }

    /// Notes a request in that frame, which comes after all that were noted.
    pub(crate) fn ask(&mut self, frame: u64)
        ensures { HasAskedIn (Some self.old) (Some self.new) frame }
    {
        self.asked = frame;
    }

    /// Notes a frame that waits.
    pub(crate) fn wait(&mut self, frame: u64, time: u64) -> Result<(), AllocError>
        ensures { OnOk result (HasWaited (Some self.old) (Some self.new) frame (Some time)) }
    {
        self.waiting.insert(frame, time)?;
        Ok(())
    }

    /// Notes that a frame waits no longer.
    pub(crate) fn end_wait(&mut self, frame: u64)
        ensures { HasWaited (Some self.old) (Some self.new) frame None }
    {
        self.waiting.remove(&frame);
    }

    /// Whether one waits.
    pub(crate) fn is_waiting(&self) -> bool
        ensures { MatchBool result ((n : ℕ) × (time : ℕ) × (waits_at (Some self.now) n ≡ Some time)) ((n : ℕ) → waits_at (Some self.now) n ≡ None) }
    {
        match self.waiting.first_key_value() {
            Some(_) => true,
            None => false,
        }
    }

    /// Notes a frame that is lost, unless one is noted that was lost before it and after the latest request.
    pub(crate) fn lose(&mut self, frame: u64, time: u64) -> Result<(), AllocError>
        ensures { OnOk result (HasLost (Some self.old) (Some self.new) frame time) }
    {
        if !self.is_noted(frame) {
            self.lost.insert(frame, time)?;
        }
        Ok(())
    }

    /// Whether one is noted that was lost before this frame and after the latest request.
    fn is_noted(&self, frame: u64) -> bool
        ensures { result ≡ true → IsNoted (Some self.now) frame }
    {
        match self.lost.last_key_value() {
            Some((last, _)) => self.asked <= *last && *last <= frame,
            None => false,
        }
    }

    /// The first frame that is lost or waits.
    pub(crate) fn first(&self) -> Option<u64>
        ensures { IsFirst (IsKept self.now) result }
    {
        least(first_of(&self.lost), first_of(&self.waiting))
    }

    /// The first of those since a transfer's request, if it stands among its datagrams or comes at most 300 s after them.
    pub(crate) fn first_since(&self, stretch: &Stretch) -> Option<u64>
        ensures { IsTold (Since (IsKept self.now) stretch.now) stretch.now result }
    {
        least(
            first_within(&self.lost, stretch),
            first_within(&self.waiting, stretch),
        )
    }
}

/// The first of some frames.
fn first_of(frames: &BTreeMap<u64, u64>) -> Option<u64>
    ensures { IsFirst (λ n time. get nat_cmp frames.now n ≡ Some time) result }
{
    match frames.first_key_value() {
        Some((frame, _)) => Some(*frame),
        None => None,
    }
}

/// The first of some frames from this one on, and when it passed.
fn first_from(frames: &BTreeMap<u64, u64>, first: u64) -> Option<(u64, u64)>
    ensures none { result ≡ None → (n time : ℕ) → get nat_cmp frames.now n ≡ Some time → n < first }
    ensures some { IfSome result (λ e. (get nat_cmp frames.now e.0 ≡ Some e.1) × (first ≤ e.0)) }
    ensures least { IfSome result (λ e. (n time : ℕ) → get nat_cmp frames.now n ≡ Some time → first ≤ n → e.0 ≤ n) }
{
    match frames.range(first..).next() {
        Some((frame, time)) => Some((*frame, *time)),
        None => None,
    }
}

/// The first of some frames since a transfer's request, if it stands among its datagrams or comes at most 300 s after them.
fn first_within(frames: &BTreeMap<u64, u64>, stretch: &Stretch) -> Option<u64>
    ensures { IsTold (Since (λ n time. get nat_cmp frames.now n ≡ Some time) stretch.now) stretch.now result }
{
    match first_from(frames, stretch.first) {
        Some((frame, time)) if is_soon(stretch, frame, time) => Some(frame),
        _ => None,
    }
}

/// Whether a frame stands among a transfer's datagrams, or passed at most 300 s after them.
fn is_soon(stretch: &Stretch, frame: u64, time: u64) -> bool
    ensures { result ≡ is_soon stretch.now frame time }
{
    frame <= stretch.last || time <= stretch.last_time.saturating_add(SILENCE)
}
