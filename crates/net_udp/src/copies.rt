//! Copies of packets in a recording that was made at several interfaces of a host.

mod interface;
mod laws;
mod recent;

pub use interface::Interface;
pub use laws::{copy_came_before, near_packet_is_told, worked_copies};
pub use recent::Recent;
