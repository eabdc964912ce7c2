//! `check --losses`: beside the verdict on a capture text, which datagrams must be missing so that it is lawful.

mod asked;
mod check;
mod line;

pub use asked::asks_for_losses;
pub use check::check_with_losses;
