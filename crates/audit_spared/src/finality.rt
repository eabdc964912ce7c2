//! A transfer is final once its client has been silent for more than 300 s.

pub mod laws;
pub mod worked;
