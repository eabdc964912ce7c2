//! The judge of two captures of one transfer, one of each end, read side by side: how far each is lawful at its end, how
//! far the two go together, and what the network between them lost and repeated.
#![tactic(auto)]

mod blocks;
pub mod counts;
pub mod judge;
pub mod match_texts;
