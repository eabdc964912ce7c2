//! A recording, read frame by frame: its transfers judged at their ends and between them, the frame that is blamed, why a
//! refusal may be no accusation, and whom one accuses.
#![tactic(auto)]

pub mod audit;
pub mod between;
pub mod blame;
pub mod judges;
pub mod progress;
pub mod rows;
pub mod session;
