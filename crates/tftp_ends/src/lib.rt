//! What one end of a capture alone keeps: the transfer ids, and the numbers that its rules go by.
#![tactic(auto)]

mod block_rules;
pub mod blocks;
mod linked;
mod named_end;
mod ports;
mod receiver_state;
mod rejection;
mod route;
mod sender_state;
pub mod state_laws;
mod strays;

pub use named_end::NamedEnd;
pub use ports::{PortFault, Ports};
pub use receiver_state::ReceiverState;
pub use rejection::Rejection;
pub use route::Route;
pub use sender_state::SenderState;
pub use strays::says_unknown_id;
