ghost use Rattle.std.specs.Prelude.{◌≡◌, ◌⊎◌, ◌↔◌, ℕ, Err, IfOk, IsOkAnd, IsTrue, MatchOption, map};
ghost use Rattle.tftp_words.specs.Parts.{Holds};
ghost use Rattle.tftp_words.specs.Requests.{Calls, Fits, IsJudgedAt, IsRequest, Names, asked};
ghost use Rattle.tftp_words.specs.declared.given.ReadFault.TheVariants.{Memory};

use crate::given::{Given, ReadFault, given_of, word_at};
use crate::part::{end_of, transfer_of};
use crate::point::Point;
use std::alloc::Global;
use std::convert::AsStr;
use tftp_packet::End;
use tftp_packet::rounds::Rollover;

/// What the program is asked for.
#[derive(Debug, Drop)]
pub enum Request<'a> {
    /// The transfers of a recording, a line each.
    List(ListRequest<'a>),
    /// The capture text of a transfer.
    Text(TextRequest<'a>),
    /// The capture texts of all transfers.
    Texts(TextsRequest<'a>),
    /// The verdict on each transfer.
    Check(CheckRequest<'a>),
}

/// Which transfers are to be listed.
#[derive(Debug, Drop)]
pub struct ListRequest<'a> {
    /// The ports that were named, to which requests go as they do to 69.
    pub services: Vec<u16>,
    /// Whether each line is a JSON object.
    pub json: bool,
    /// The recording; `-` is standard input.
    pub file: &'a str,
}

/// Of which transfer the text is wanted.
#[derive(Debug, Drop)]
pub struct TextRequest<'a> {
    /// Its number in the recording, from 1.
    pub number: u64,
    /// The end at which the text is that of the capture.
    pub end: End,
    /// The ports that were named, to which requests go as they do to 69.
    pub services: Vec<u16>,
    /// The recording; `-` is standard input.
    pub file: &'a str,
}

/// At which end the texts of all transfers are wanted.
#[derive(Debug, Drop)]
pub struct TextsRequest<'a> {
    /// The end at which each text is that of the capture.
    pub end: End,
    /// The ports that were named, to which requests go as they do to 69.
    pub services: Vec<u16>,
    /// The recording; `-` is standard input.
    pub file: &'a str,
}

/// Which transfers are to be judged.
#[derive(Debug, Drop)]
pub struct CheckRequest<'a> {
    /// Where the recordings were made, if that is said.
    pub end: Option<Point>,
    /// What comes after block 65535, if that is said: there is a point then.
    pub rollover: Option<Rollover>,
    /// The ports that were named, to which requests go as they do to 69.
    pub services: Vec<u16>,
    /// Whether each line is a JSON object.
    pub json: bool,
    /// The recordings, one or more; `-` is standard input.
    pub files: Vec<&'a str>,
}

/// What the program is told to do.
#[derive(Clone, Copy)]
enum Command {
    List,
    Text,
    Texts,
    Check,
}

/// The command that the word after the program's name tells, and how many words stand before its arguments. A word that
/// names none is the first argument of `list`.
fn command_of(word: &str) -> Option<(Command, usize)>
    ensures { MatchOption result ((command : _) (count : ℕ) → Names word.now command count → ⊥) (λ told. Names word.now told.0 told.1) }
{
    match word {
        "list" => Some((Command::List, 2)),
        "text" => Some((Command::Text, 2)),
        "texts" => Some((Command::Texts, 2)),
        "check" => Some((Command::Check, 2)),
        "--check" => Some((Command::Check, 2)),
        "help" => None,
        _ => Some((Command::List, 1)),
    }
}

/// Whether numbers may be judged there by what comes after block 65535: where a point is named.
fn is_judged_at(rollover: Option<Rollover>, at: Option<Point>) -> bool
    ensures { IsTrue result ↔ IsJudgedAt rollover at }
{
    match (rollover, at) {
        (None, _) | (Some(_), Some(_)) => true,
        (Some(_), None) => false,
    }
}

/// What a command asks for with what its arguments give.
fn request_by<'a>(command: Command, given: Given<'a>) -> Result<Request<'a>, ReadFault>
    ensures ok { (ps : _) → Holds given.entry ps → IfOk result (λ r. Calls command (asked r) × Fits (asked r) ps) }
    ensures only { (ps a : _) → Holds given.entry ps → Calls command a → Fits a ps → IsOkAnd result (λ r. asked r ≡ a) }
    ensures no_end { result ≡ Err ReadFault.NoEnd → IsJudgedAt given.entry.rollover given.entry.end → ⊥ }
{
    let (services, plain) = (given.services, given.plain);
    match command {
        Command::List => match (given.end, given.rollover, plain.as_slice()) {
            (None, None, [file]) => Ok(Request::List(ListRequest {
                services,
                json: given.json,
                file: *file,
            })),
            _ => Err(ReadFault::Unknown),
        },
        Command::Text => match (given.json, given.end, given.rollover, plain.as_slice()) {
            (false, None, None, [number, end, file]) => Ok(Request::Text(TextRequest {
                number: transfer_of(*number).ok_or(ReadFault::Unknown)?,
                end: end_of(*end).ok_or(ReadFault::Unknown)?,
                services,
                file: *file,
            })),
            _ => Err(ReadFault::Unknown),
        },
        Command::Texts => match (given.json, given.end, given.rollover, plain.as_slice()) {
            (false, None, None, [at, file]) => Ok(Request::Texts(TextsRequest {
                end: end_of(*at).ok_or(ReadFault::Unknown)?,
                services,
                file: *file,
            })),
            _ => Err(ReadFault::Unknown),
        },
        Command::Check if plain.is_empty() => Err(ReadFault::Unknown),
        Command::Check if !is_judged_at(given.rollover, given.end) => Err(ReadFault::NoEnd),
        Command::Check => Ok(Request::Check(CheckRequest {
            end: given.end,
            rollover: given.rollover,
            services,
            json: given.json,
            files: plain,
        })),
    }
}

/// The request that the words make, the first of which is the program's name.
pub fn requested<'a, S: AsStr>(alloc: Global, words: &'a [S]) -> Result<Request<'a>, ReadFault>
    ensures ok { IfOk result (λ r. IsRequest (asked r) (map S.text words.entry.now)) }
    ensures only { (a : _) → IsRequest a (map S.text words.entry.now) → IsOkAnd result (λ r. asked r ≡ a) ⊎ (result ≡ Err Memory) }
{
    let Some(word) = word_at(words, 1) else {
        return Err(ReadFault::Unknown);
    };
    let Some((command, count)) = command_of(word) else {
        return Err(ReadFault::Unknown);
    };
    let given = given_of(alloc, words.split_at(count).1)?;
    if !given.chooses_nothing() {
        return Err(ReadFault::Unknown);
    }
    request_by(command, given)
}
