//! Tests of the readers of capture texts.

mod faults;
pub mod outcomes;
mod reading;
mod reads;
mod texts;
mod told;
