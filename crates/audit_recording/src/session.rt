//! A recording as it is read, a frame after the other: its transfers, each judged where that is wanted, the capture texts
//! that are wanted, and what is to be told of the recording as a whole.

mod asked;
mod begun;
mod behind;
mod clock;
mod discards;
mod endpoint;
mod fault;
mod frames;
mod headed;
mod host_losses;
mod kept;
mod kinds;
pub mod laws;
mod losses;
mod missing;
mod notes;
mod opened;
mod plain;
mod requests;
mod session;
mod telling;
mod text;
mod trails;
mod unplaced;
mod unreached;

pub use endpoint::{shown, shown_host};
pub use fault::{ReadFault, TextFault};
pub use headed::is_recording;
pub use kept::{Kept, Wanted};
pub use notes::Notes;
pub use opened::{Opened, read_whole};
pub use plain::{put_number, put_plain};
pub use requests::{Asked, requests_of};
pub use session::{Ended, Session};
pub use telling::{ended, told};
pub use text::TextAt;
