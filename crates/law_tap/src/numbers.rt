//! What passes between the ends by block numbers that begin again (RFC 1350, section 5). There is no code here: definitions, and
//! laws of them.

pub mod laws;
pub mod worked;
