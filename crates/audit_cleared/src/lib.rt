//! Who is cleared at an end of a transfer is cleared between the ends too; what accuses an end is never taken back; and no row accuses where
//! ends are lawful.
#![tactic(auto)]

pub mod laws;
pub mod rows;
pub mod standing;
pub mod worked;
