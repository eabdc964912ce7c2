//! The words of `tftp-transfers` and `tftp-match`: what a program is asked for, and what there is to tell of words that ask for nothing.
#![tactic(auto)]

mod args;
mod given;
mod help;
mod match_help;
mod match_request;
mod part;
mod point;
mod request;
mod telling;
mod words;

pub use match_request::MatchRequest;
pub use point::Point;
pub use request::{CheckRequest, ListRequest, Request, TextRequest, TextsRequest};
pub use telling::{own_words, tell_fault};
pub use words::{WordsFault, match_request_of, request_of};
