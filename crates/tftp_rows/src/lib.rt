//! The rows that `tftp-transfers check` and `tftp-transfers list` print, as exact text: what each part says, and of what it is.
#![tactic(auto)]

pub mod accusing;
mod asked;
mod cells;
mod conclusion;
mod endpoint;
mod files;
mod laws;
mod list_reading;
mod lister;
mod listing;
mod machine;
mod members;
mod objects;
mod output;
mod plain;
mod premise;
mod printing;
mod reading;
mod reason;
mod remarks;
mod row;
mod teller;
mod texts;
mod times;
mod verdict;
pub mod whole;
mod worked_files;

pub use asked::AskedWords;
pub use cells::{pad, put_cell, put_number_cell};
pub use conclusion::{Conclusion, concluded, role_name};
pub use endpoint::{shown, shown_host};
pub use files::{Outside, check_files, files_are_printed_in_order, list_file};
pub use list_reading::list_recording;
pub use lister::Lister;
pub use listing::{ListRow, put_list_head};
pub use machine::Machine;
pub use members::{put_count, put_flag, put_some_count, put_text};
pub use output::Output;
pub use plain::{put_number, put_plain};
pub use printing::{Form, PrintFault, RowPrinter};
pub use reading::{
    TellFault, check_recording, recordings_are_told_as_they_are_read, tell_frames, tell_recording,
};
pub use reason::ReasonWords;
pub use remarks::Remarks;
pub use row::{VerdictRow, place_name, put_head};
pub use teller::Teller;
pub use texts::{TextsOf, write_text, write_texts};
pub use times::{Repeated, Times, times_told};
pub use verdict::{has_same_words, verdict_words, without_end};
