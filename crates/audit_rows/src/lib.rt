//! What a row says of a transfer: the verdict at a point, the datagram that is refused there, why that is doubtful, and whom it
//! accuses.
#![tactic(auto)]

mod charge;
mod found;
mod judged;
pub mod laws;
mod told;
mod viewed;

pub use charge::Charge;
pub use found::Found;
pub use judged::Judged;
pub use told::Told;
pub use viewed::Viewed;
