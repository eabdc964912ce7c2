//! What is read and written as a stream of bytes: readers that remember whether they have failed, what is read ahead, a
//! writer of lines, and hex digits in memory that the caller has.
#![tactic(auto)]

pub mod digits;
pub mod streams;
