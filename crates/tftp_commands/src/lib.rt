//! The commands of the auditor: words and a capture text in, lines, a file or a normal text and a status out.
#![tactic(auto)]

mod check;
mod command;
mod count;
mod faults;
pub mod laws;
mod losses;
mod names;
mod numbers;
mod output;
mod session;
mod show;
mod status;
mod verdicts;
mod words;

pub use check::{say_accepted, say_verdict};
pub use losses::{asks_for_losses, check_with_losses};
pub use session::run;
pub use status::Status;
