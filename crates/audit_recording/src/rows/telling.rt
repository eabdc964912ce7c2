//! What a row tells, and whether it depends on the place where the recording was made.

ghost use Rattle.std.specs.Prelude.{◌≡◌, option_map};
ghost use Rattle.audit_recording.specs.Rows.Told.{depends_on_place, is_at_end, is_refused_too, same_frame, telling_depends};

use crate::rows::row::Point;
use crate::rows::said::Said;

/// What is said of a transfer in a row.
#[derive(Clone, Copy, Debug)]
pub struct Telling {
    /// The point at which it was judged so.
    pub point: Point,
    /// What is said there.
    pub said: Said,
    /// What is said between the ends, where it was judged there.
    pub between: Option<Said>,
}

impl Telling {
    /// Whether it is a refusal at an end that depends on the place: the transfer was judged between the ends too, and this is not
    /// refused there.
    pub fn depends_on_place(&self) -> bool
        ensures { result ≡ telling_depends self.now }
    {
        is_at_end(self.point) && depends_on_place(Some(&self.said), self.between.as_ref())
    }
}

/// Whether what is refused at an end depends on the place: it was judged between the ends too, and is not refused there.
pub(crate) fn depends_on_place(said: Option<&Said>, between: Option<&Said>) -> bool
    ensures { result ≡ depends_on_place (option_map (λ s. s.now) said.entry) (option_map (λ s. s.now) between.entry) }
{
    match (said, between) {
        (Some(said), Some(between)) => said.is_refused() && !is_refused_too(said, between),
        _ => false,
    }
}

/// Whether what is said between the ends refuses the same datagram, and no request that did not pass there explains it.
fn is_refused_too(said: &Said, between: &Said) -> bool
    ensures { result ≡ is_refused_too said.now between.now }
{
    is_same_frame(said.refused_frame(), between.refused_frame()) && !between.may_be_asked()
}

/// Whether they are one frame.
fn is_same_frame(one: Option<u64>, other: Option<u64>) -> bool
    ensures { result ≡ same_frame one other }
{
    match (one, other) {
        (Some(one), Some(other)) => one == other,
        _ => false,
    }
}

/// Whether it is the point of an end.
fn is_at_end(point: Point) -> bool
    ensures { result ≡ is_at_end point }
{
    match point {
        Point::Client => true,
        Point::Server => true,
        Point::Between => false,
    }
}
