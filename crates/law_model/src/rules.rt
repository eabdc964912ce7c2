//! What the rules at one end compare: where a datagram belongs by its ports, what is known of the transfer before its blocks,
//! and the rules of blocks and acknowledgements. The code that keeps to them is `tftp_ends`.

mod port_rule;
mod rule;
mod terms;

pub use port_rule::PortRule;
pub use rule::EndRule;
pub use terms::{Reply, Terms};
