//! The judges of one transfer's two ends, fed with a recording datagram by datagram.

mod client;
mod end_judge;
mod fed;
mod held;
pub mod laws;
mod party;
mod server;
mod server_view;
mod ways;

pub use client::ClientJudge;
pub use end_judge::EndJudge;
pub use fed::Fed;
pub use held::Held;
pub use party::Party;
pub use server::ServerJudge;
pub use server_view::ServerView;
pub use ways::{sides, way_at_client, way_at_server};
