//! Which frames of a transfer may be missing.

ghost use Rattle.std.specs.Prelude.{◌≡◌};
ghost use Rattle.audit_recording.specs.Losses.Kept.{lesser};

/// Frames that may have been of a transfer's client, and are not there whole: numbers from 1.
#[derive(Clone, Copy, Debug, PartialEq, Eq)]
pub struct Missing {
    /// The first of its client's host in the recording.
    pub first: Option<u64>,
    /// The first since its request, up to 300 s after its last datagram.
    pub within: Option<u64>,
}

/// The lesser of two frames, where there is one.
pub fn least(one: Option<u64>, other: Option<u64>) -> Option<u64>
    ensures { result ≡ lesser one other }
{
    match (one, other) {
        (Some(one), Some(other)) => Some(one.min(other)),
        (one, None) => one,
        (None, other) => other,
    }
}
