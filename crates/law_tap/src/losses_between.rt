//! What is lawful between the two ends where the recorder may have missed what passed. There is no code here: definitions, and
//! laws of them.

pub mod laws;
pub mod worked;
