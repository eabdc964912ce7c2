//! The judge of captures that were taken between the two ends: which datagrams are lawful there one by one, and what they mean.
#![tactic(auto)]

mod datagram;
mod errors;
mod judging;
mod keeping;
pub mod laws;
mod lossy_judge;
mod lossy_refusal;
mod lossy_state;
mod notes;
mod pass_error;
mod reading;
mod receiving;
mod refusal;
mod said_blocks;
mod said_errors;
mod said_notes;
mod seen;
mod told;
mod transfer;
pub mod worked_losses;

pub use datagram::TapDatagram;
pub use judging::TapJudge;
pub use lossy_judge::LossyJudge;
pub use lossy_refusal::LossyRefusal;
pub use notes::TapNotes;
pub use refusal::TapRefusal;
pub use told::Told;
