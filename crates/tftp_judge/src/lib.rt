//! The judge of captures: the verdict on datagrams one by one, and on a capture text; and the file of a text.
#![tactic(auto)]

mod errors;
mod exchange;
mod extraction;
mod file;
mod first_oack;
mod judging;
mod keeping;
mod kinds;
pub mod laws;
mod meaning;
mod pass_error;
mod refusal;
mod sent_acks;
mod text;
mod transfer;
mod verdict;

pub use extraction::{OutFault, extract};
pub use file::FileBytes;
pub use judging::Judge;
pub use kinds::is_wrong_kind;
pub use law_end::{AbortedBy, Rule};
pub use meaning::{Meaning, MeaningParts};
pub use pass_error::PassError;
pub use refusal::Refusal;
pub use sent_acks::SentAcks;
pub use text::judge_text;
pub use verdict::Verdict;
