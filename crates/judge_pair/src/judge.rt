//! The judge of two captures of one transfer, one of each end, read side by side: how far each is lawful at its end, and how
//! far the two go together.

pub(crate) mod acks;
pub mod laws;
mod matched;
mod pair;
mod rest;
pub(crate) mod side;
mod waiting;

pub use matched::Matched;
pub use pair::PairJudge;
pub use rest::{PairRest, PairVerdict};
pub use waiting::Wait;
