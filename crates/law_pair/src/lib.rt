//! What a capture at the client and one at the server of one transfer show together: whether one run of the two ends shows
//! both.
#![tactic(auto)]

pub mod laws;
