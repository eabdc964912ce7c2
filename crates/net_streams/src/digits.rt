//! Hex digits, as `hex` reads and writes them, in memory that the caller has, and by vectors.

mod reading;
mod vectors;
mod writing;

pub use reading::{decode, decode_on};
pub use writing::encode;
