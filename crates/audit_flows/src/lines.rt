//! The line of one client, which is what passed at its endpoint since it was last silent: what is kept of it, and where a
//! datagram belongs by it.

mod doubts;
mod endpoint;
mod history;
mod kind;
mod line;
mod place;

pub use doubts::Doubts;
pub use endpoint::{Address, Endpoint};
pub use history::{History, Progress};
pub use kind::{Kind, Seen, other_end, spells_request};
pub use line::{Line, Talk, Talked, is_recent};
pub use place::{Place, Transfer};
