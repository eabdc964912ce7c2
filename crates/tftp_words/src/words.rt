ghost use Rattle.std.specs.Prelude.{◌≡◌, ◌⊎◌, Err, IfErr, IfOk, IsOkAnd, map};
ghost use Rattle.tftp_words.specs.MatchRequests.{IsMatchRequest, match_asked};
ghost use Rattle.tftp_words.specs.Requests.{IsRequest, asked};
ghost use Rattle.tftp_words.specs.Told.{IsTold};

use crate::given::ReadFault;
use crate::help::command_line;
use crate::match_help::match_command_line;
use crate::match_request::{MatchRequest, match_requested};
use crate::request::{Request, requested};
use clap::error::ErrorKind;
use clap::{Command, Error};
use std::alloc::{AllocError, Global};
use std::convert::AsStr;
use thiserror::Error as Fault;

/// Why words make no request.
#[derive(Debug, Drop, Fault)]
pub enum WordsFault {
    /// They ask for help or for the version: the text is to be printed, and the status is 0.
    #[error("{0}")]
    Asked(Error),
    /// They are wrong: the text says in what, and the status is 2.
    #[error("{0}")]
    Wrong(Error),
    /// Memory was refused.
    #[error("out of memory")]
    Memory,
}

const NO_REQUEST: &str = "the words make no request";

const NO_END: &str = "--rollover wants --end client, --end server or --end between";

const TWO_INPUTS: &str = "one capture at most is standard input";

/// The request that the words of a command line make, the first of which is the program's name.
pub fn request_of<'a, S: AsStr>(alloc: Global, words: &'a [S]) -> Result<Request<'a>, WordsFault>
    ensures ok { IfOk result (λ r. IsRequest (asked r) (map S.text words.entry.now)) }
    ensures only { (a : _) → IsRequest a (map S.text words.entry.now) → IsOkAnd result (λ r. asked r ≡ a) ⊎ (result ≡ Err WordsFault.Memory) }
    ensures told { IfErr result IsTold }
{
    match requested(alloc, words) {
        Ok(request) => Ok(request),
        Err(fault) => Err(told(command_line(alloc), words, fault)),
    }
}

/// The match that the words of a command line ask for, the first of which is the program's name. At most one capture is
/// standard input.
pub fn match_request_of<'a, S: AsStr>(
    alloc: Global,
    words: &'a [S],
) -> Result<MatchRequest<'a>, WordsFault>
    ensures ok { IfOk result (λ r. IsMatchRequest (match_asked r) (map S.text words.entry.now)) }
    ensures only { (a : _) → IsMatchRequest a (map S.text words.entry.now) → IsOkAnd result (λ r. match_asked r ≡ a) ⊎ (result ≡ Err WordsFault.Memory) }
    ensures told { IfErr result IsTold }
{
    match match_requested(alloc, words) {
        Ok(request) => Ok(request),
        Err(fault) => Err(told(match_command_line(alloc), words, fault)),
    }
}

/// What there is to tell of words that make no request, by the command line that clap knows: why is what clap may not
/// know.
fn told<'a, S: AsStr>(
    command: Result<Command<'a>, AllocError>,
    words: &'a [S],
    fault: ReadFault,
) -> WordsFault
    ensures told { IsTold result }
    ensures memory { fault ≡ ReadFault.Memory → result ≡ WordsFault.Memory }
{
    let why = match fault {
        ReadFault::Memory => return WordsFault::Memory,
        ReadFault::Unknown => NO_REQUEST,
        ReadFault::NoEnd => NO_END,
        ReadFault::TwoInputs => TWO_INPUTS,
    };
    match refusal(command, words, why) {
        Ok(error) => fault_of(error),
        Err(error) => fault_of(error),
    }
}

/// What clap says, as a fault of the words.
fn fault_of(error: Error) -> WordsFault
    ensures { IsTold result }
{
    match error.kind() {
        ErrorKind::OutOfMemory => WordsFault::Memory,
        ErrorKind::DisplayHelp => WordsFault::Asked(error),
        ErrorKind::DisplayVersion => WordsFault::Asked(error),
        _ => WordsFault::Wrong(error),
    }
}

/// What clap says of the words; where it takes them all the same, why they make no request.
fn refusal<'a, S: AsStr>(
    command: Result<Command<'a>, AllocError>,
    words: &'a [S],
    why: &str,
) -> Result<Error, Error> {
    let mut command = command?;
    match command.try_get_matches_from_mut(words) {
        Ok(_) => Ok(command.error(ErrorKind::InvalidValue, why)?),
        Err(error) => Ok(error),
    }
}
