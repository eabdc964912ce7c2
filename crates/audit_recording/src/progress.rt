//! How far a recording was read.

ghost use Rattle.std.specs.Prelude.{◌≡◌, ℕ, List, max};
ghost use Rattle.audit_recording.specs.Reasons.Clock.{IsClockAfter, last_of};

use crate::session::Session;

/// The moment up to which it was read, in nanoseconds since 1970: the time of its last UDP datagram, or a later one that two in a
/// row have reached.
pub fn read_until(session: &Session) -> u64
    ensures { (times : List ℕ) → IsClockAfter session.now.notes.clock times
        → result ≡ max (last_of times) session.now.notes.clock.reached }
{
    session.notes.clock.moment_of(None)
}
