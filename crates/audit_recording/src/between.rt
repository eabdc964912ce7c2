//! The judge of one transfer as it is seen between its two ends, fed with a recording datagram by datagram.

mod between_view;
pub mod laws;
mod passing;
mod sides_judge;

pub use between_view::BetweenView;
