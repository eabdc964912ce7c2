//! At which frame of a recording a transfer was refused, why a refusal may be no accusation, and how the transfer ended.

mod blame;
mod closing;
mod doubted;
mod ending;
pub mod endings;
mod facts;
pub mod frames;
pub mod laws;
mod missing;
mod named;
mod pace;
mod passed;
mod passing;
mod reason;
pub(crate) mod several;
mod stop;
mod told;
mod trail;
mod twice;
mod undelivered;

pub use blame::Blamed;
pub use closing::{Closing, Word};
pub use doubted::{Doubted, put_if};
pub use ending::Ending;
pub use missing::{Missing, least};
pub use named::Named;
pub use pace::{Pace, Repeats, Silence};
pub use passing::{Passing, about};
pub use reason::Reason;
pub use stop::Stop;
pub use trail::Trail;
pub use undelivered::Undelivered;
