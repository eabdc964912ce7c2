//! Two captures of one transfer, one of each end: what there is to say of each, and whether one run of the two ends has both.
#![tactic(auto)]

mod candidates;
mod choice;
mod choosing;
mod copies;
mod facts;
mod faults;
mod held;
mod judging;
mod laws;
mod lines;
mod matching;
mod members;
mod objects;
mod recorded;
mod saying;
mod sides;
mod source;
mod texts;
mod told;
mod unread;
mod verdict;

use crate::matching::match_files;
use anyhow::{Error, Result};
use audit_recording::session::ended;
use net_streams::streams::LineWriter;
use std::io;
use std::process::ExitCode;
use tftp_rows::{Machine, Remarks};
use tftp_words::{MatchRequest, match_request_of, own_words, tell_fault};

/// The name with which all begins that is told on standard error.
const PROGRAM: &str = "tftp-match";

/// Ends with status 0 where one run has both captures, 1 where none has, or 2 after a fault.
fn main(rt: HostRuntime) -> ExitCode {
    let Some(words) = own_words(rt) else {
        return ExitCode::from(2);
    };
    ended(rt, PROGRAM, answer(rt, words.as_slice()))
}

/// Does what the words ask for, and answers the status.
fn answer(rt: HostRuntime, words: &[String]) -> Result<u8> {
    match match_request_of(rt.alloc(), words) {
        Ok(request) => matched(rt, &request),
        Err(fault) => Ok(tell_fault(rt, PROGRAM, &fault)?),
    }
}

/// Matches the captures that are named; `-` is standard input.
fn matched(rt: HostRuntime, request: &MatchRequest<'_>) -> Result<u8> {
    let machine = Machine::new(rt);
    let mut writer = LineWriter::new(rt.alloc(), io::writer(&rt));
    let mut remarks = Remarks::new(PROGRAM, rt.stderr());
    let status = match_files::<Error, _, _, _>(
        rt.alloc(),
        &machine,
        request,
        &mut writer,
        &mut remarks,
    )?;
    Ok(status)
}
