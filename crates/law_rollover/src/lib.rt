//! Block numbers that begin again after 65535 (RFC 1350, section 5, gives them two bytes and says no more): when some run
//! shows the numbers that passed at an end.
#![tactic(auto)]

pub mod laws;
pub mod worked;
