//! How often each packet of a transfer passed at an end, and what the network between two ends lost and repeated of them.

mod carried;
mod counts;
pub mod laws;
mod packets;
mod table;

pub use carried::Carried;
pub use counts::Counts;
pub use packets::CountedPacket;
