//! The normal capture: the one that is written for a meaning.
#![tactic(auto)]

mod data_packets;
mod fault;
pub mod laws;
mod normal;
mod numbers;
mod transfer;
mod wire_blocks;
pub mod worked;
mod writing;

pub use fault::NormalFault;
pub use normal::{normal_capture, normal_count, normalise};
