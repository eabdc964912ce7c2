//! What may be left out of a capture that is lawful.

pub mod laws;
