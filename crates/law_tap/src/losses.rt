//! What is lawful at an end where the recorder may have missed datagrams. There is no code here: definitions, and laws of them.

pub mod laws;
pub mod worked;
