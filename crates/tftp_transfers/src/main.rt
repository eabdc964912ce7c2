//! From a recording to its TFTP transfers, their capture texts and their verdicts.
#![tactic(auto)]

mod checking;
mod listing;
mod reasoned;
mod texts;

use crate::checking::check;
use crate::listing::list;
use crate::texts::{text, texts};
use anyhow::Result;
use audit_recording::session::{ended, told};
use std::process::ExitCode;
use tftp_words::{Request, own_words, request_of, tell_fault};

/// The name with which all begins that is told on standard error.
const PROGRAM: &str = "tftp-transfers";

/// Ends with status 0, 1 where a transfer is not accepted, 2 after a fault, or 3 where there is none to judge.
fn main(rt: HostRuntime) -> ExitCode {
    let Some(words) = own_words(rt) else {
        return ExitCode::from(2);
    };
    ended(rt, PROGRAM, answer(rt, words.as_slice()))
}

/// Does what the words ask for, and answers the status.
fn answer(rt: HostRuntime, words: &[String]) -> Result<u8> {
    match request_of(rt.alloc(), words) {
        Ok(Request::List(asked)) => status_of(rt, asked.file, list(rt, &asked)),
        Ok(Request::Text(asked)) => status_of(rt, asked.file, text(rt, &asked)),
        Ok(Request::Texts(asked)) => status_of(rt, asked.file, texts(rt, &asked)),
        Ok(Request::Check(asked)) => check(rt, &asked),
        Err(fault) => Ok(tell_fault(rt, PROGRAM, &fault)?),
    }
}

/// The status; a fault is told with the file that has it, and is 2.
fn status_of(rt: HostRuntime, file: &str, status: Result<u8>) -> Result<u8> {
    Ok(told(rt, PROGRAM, file, status)?.unwrap_or(2))
}
