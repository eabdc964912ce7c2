//! The time of a recording.

ghost use Rattle.std.specs.Prelude.{◌≡◌, ◌∷◌, ℕ, List, [], max, nat_lt, unwrap_or};
ghost use Rattle.audit_recording.specs.Reasons.Clock.{IsClockAfter, last_of};

/// The times of a recording's datagrams, in nanoseconds since 1970.
#[derive(Clone, Copy)]
pub struct Clock {
    /// That of the last one.
    last: u64,
    /// The greatest that two in a row have reached: one alone may have a wrong time.
    pub reached: u64,
}

impl Clock {
    /// Before any datagram.
    pub fn new() -> Self
        ensures { IsClockAfter result [] }
    {
        Clock {
            last: 0,
            reached: 0,
        }
    }

    /// Notes the time of the next datagram; whether it is older than the one before.
    pub fn pass(&mut self, time: u64) -> bool
        ensures stands { (times : List ℕ) → IsClockAfter self.old times → IsClockAfter self.new (time ∷ times) }
        ensures back { (times : List ℕ) → IsClockAfter self.old times → result ≡ nat_lt time (last_of times) }
    {
        let last = self.last;
        self.last = time;
        self.reached = self.reached.max(time.min(last));
        time < last
    }

    /// The time of a datagram: that of the one before, where the recording tells none.
    pub fn time_of(&self, time: Option<u64>) -> u64
        ensures { (times : List ℕ) → IsClockAfter self.now times → result ≡ unwrap_or time (last_of times) }
    {
        time.unwrap_or(self.last)
    }

    /// When a frame passed: at its time, but not before what the clock has reached.
    pub fn moment_of(&self, time: Option<u64>) -> u64
        ensures { (times : List ℕ) → IsClockAfter self.now times → result ≡ max (unwrap_or time (last_of times)) self.now.reached }
    {
        self.time_of(time).max(self.reached)
    }
}
