//! The judge of a whole recording: it divides what passed into transfers, and judges each where that is wanted.

mod hands;
mod judges;
mod judging;
pub mod laws;
mod loopback;
mod point;
mod recording_judge;
mod verdicts;
mod watched;

pub use judging::{Judging, Points};
pub use loopback::is_loopback;
pub use recording_judge::RecordingJudge;
pub use verdicts::Verdicts;
pub use watched::Watched;
