//! The two ends of a transfer and the network between them: what each may send, the runs of both, what one end alone can
//! know, and what the rules at one end compare.
#![tactic(auto)]

pub mod model;
pub mod rules;
