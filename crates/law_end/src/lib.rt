//! What is lawful, and what a capture shows: by the runs of two ends, and by the rules at one end.
#![tactic(auto)]

mod aborted_by;
pub mod laws;
mod rule;
pub mod two_ends;

pub use aborted_by::AbortedBy;
pub use rule::Rule;
