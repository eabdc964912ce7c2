//! Which datagrams of a recording are one transfer: the definition, and the place of each datagram in one pass.

mod all_lines;
mod attribution;
mod doubted;
pub mod laws;
mod letting_go;
mod views;

pub use attribution::{Attributed, Attribution, AttributionFault};
pub use doubted::TransferDoubts;
pub use views::TransferEnds;
