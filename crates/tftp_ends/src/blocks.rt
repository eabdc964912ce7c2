//! Stores of the blocks that have passed: which a window may take, and the file that they make.

mod delivered;
pub mod laws;
mod map_delivered;
mod ring_delivered;
mod waiting;

pub use delivered::{Delivered, PutOutcome};
pub use map_delivered::MapDelivered;
pub use ring_delivered::RingDelivered;
