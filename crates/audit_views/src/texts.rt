//! The capture text of one transfer of a recording, at an end.

mod comment;
pub mod laws;
mod noted;
mod transfer_text;

pub use comment::Comment;
pub use transfer_text::TransferText;
