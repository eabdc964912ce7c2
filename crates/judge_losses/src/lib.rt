//! Which datagrams must be missing at an end, so that what was recorded there is lawful with them.
#![tactic(auto)]

mod clues;
mod course;
pub mod laws;
mod mender;
mod place;
mod supposed;
mod text;
mod unmended;

pub use clues::Clues;
pub use mender::Mender;
pub use place::Place;
pub use text::missing_of;
pub use unmended::Unmended;
