//! What a client and another endpoint said to each other: how far their transfers came.

ghost use Rattle.std.specs.Prelude.{◌≡◌, ◌+◌, ◌==◌, ◌&&◌, ◌||◌, ℕ, Bool, List, Option, None, Some, false, true, nat_le, max, if◌then◌else◌};
ghost use Rattle.audit_flows.specs.Lines.Recording.{number_of, passes_in};
ghost use Rattle.audit_flows.specs.Lines.Kept.{IsFurther, IsNextHistory, far_by, is_reached, is_within, kind_of};
ghost use Rattle.audit_flows.specs.declared.lines.history.History.{History};
ghost use Rattle.audit_flows.specs.declared.lines.history.Progress.{Progress};

use crate::lines::kind::Kind;
use crate::lines::place::Transfer;

/// How far transfers came: the greatest number of a block or an ACK that passed in a read, and in a write; 65,535 where a
/// window was asked for (RFC 7440), and none where nothing passed.
#[derive(Clone, Copy)]
pub struct Progress {
    /// In reads.
    pub reads: Option<u16>,
    /// In writes.
    pub writes: Option<u16>,
}

/// What a client and another endpoint said to each other in their transfers.
#[derive(Clone, Copy)]
pub struct History {
    /// The number of the transfer in which they talked last.
    pub number: u64,
    /// How far all came.
    pub whole: Progress,
    /// How far those came in which they had talked before that one.
    pub before: Progress,
}

impl Progress {
    /// Nothing has passed.
    pub(crate) fn none() -> Self
        ensures { (is_client : Bool) (payload : List ℕ) → is_within result is_client payload ≡ false }
    {
        Progress {
            reads: None,
            writes: None,
        }
    }

    /// After a datagram more, by which a file is written or read, and which came so far.
    pub(crate) fn after(&self, writes: bool, far: u16) -> Self
        ensures { IsFurther writes far (λ is_client payload. is_within self.now is_client payload) result }
    {
        if writes {
            return Progress {
                reads: self.reads,
                writes: further(self.writes, far),
            };
        }
        Progress {
            reads: further(self.reads, far),
            writes: self.writes,
        }
    }

    /// Whether such a datagram of this end may be of one of these transfers, and late.
    pub(crate) fn is_within(&self, kind: &Kind, is_client: bool) -> bool
        ensures { (payload : List ℕ) → kind.now ≡ kind_of payload → result ≡ is_within self.now is_client payload }
    {
        let written = kind.passes_in(true, is_client) && is_reached(kind.number, self.writes);
        let read = kind.passes_in(false, is_client) && is_reached(kind.number, self.reads);
        written || read
    }
}

impl History {
    /// After a datagram more, of this transfer and with this number, by which a file is written or read.
    pub(crate) fn after(
        before: Option<History>,
        transfer: &Transfer,
        writes: bool,
        number: u16,
    ) -> Self
        ensures { IsNextHistory before transfer.now writes number result }
    {
        let far = far_by(transfer, number);
        match before {
            None => History {
                number: transfer.number,
                whole: Progress::none().after(writes, far),
                before: Progress::none(),
            },
            Some(history) => History {
                number: transfer.number,
                whole: history.whole.after(writes, far),
                before: history.up_to(transfer.number),
            },
        }
    }

    /// How far those transfers came in which the two had talked before this one.
    pub(crate) fn up_to(&self, number: u64) -> Progress
        ensures { result ≡ (if self.now.number == number then self.now.before else self.now.whole) }
    {
        if self.number == number {
            self.before
        } else {
            self.whole
        }
    }
}

/// How far a datagram with this number came: anywhere, where a window was asked for.
fn far_by(transfer: &Transfer, number: u16) -> u16
    ensures { result ≡ far_by transfer.now number }
{
    if transfer.has_window {
        u16::MAX
    } else {
        number
    }
}

/// The greater of the two.
fn further(before: Option<u16>, far: u16) -> Option<u16>
    ensures { (number : ℕ) → is_reached number result ≡ (nat_le number (far + 1) || is_reached number before) }
{
    match before {
        None => Some(far),
        Some(before) => Some(before.max(far)),
    }
}

/// Whether a number is the next at the most.
fn is_reached(number: u16, far: Option<u16>) -> bool
    ensures { result ≡ is_reached number far }
{
    match far {
        None => false,
        Some(far) => u32::from(number) <= u32::from(far) + 1,
    }
}
