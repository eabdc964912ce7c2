//! How a transfer ended.

ghost use Rattle.std.specs.Prelude.{◌≡◌};
ghost use Rattle.audit_recording.specs.Endings.Told.{seconds_since};

use crate::blame::closing::Word;
use crate::blame::stop::Stop;

/// So many nanoseconds are a second.
const SECOND: u64 = 1_000_000_000;

/// How a transfer ended, as far as its recording goes.
#[derive(Clone, Copy)]
pub enum Ending<'a> {
    /// It is a whole transfer.
    Whole,
    /// By the first ERROR between its client and its server.
    Stopped(&'a Stop),
    /// With this datagram: for so many whole seconds neither of the two sent another.
    Quiet(Word, u64),
    /// Nothing of it was read.
    Unheard,
}

/// How many whole seconds have passed since a time, if it is told.
pub fn seconds_since(time: Option<u64>, now: u64) -> u64
    ensures { result ≡ seconds_since time now }
{
    match time {
        Some(time) => now.saturating_sub(time) / SECOND,
        None => 0,
    }
}
