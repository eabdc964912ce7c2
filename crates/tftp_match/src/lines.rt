//! What there is to say of two captures, in lines.

ghost use Rattle.std.specs.Prelude.{◌≡◌, ◌++◌, IfOk, OnOk, flat_map, option_map, string_bytes};
ghost use Rattle.tftp_match.specs.Copies.{copies_line as line_of_copies};
ghost use Rattle.tftp_match.specs.Lines.{all_lines, matched_line as line_of_matched, third_line as line_of_both, unmatched_line as line_of_unmatched, wrong_end_line as line_of_wrong_end};

use crate::copies::Copies;
use crate::facts::{First, are_matched, client_first, server_first};
use crate::verdict::verdict_line;
use judge_pair::counts::Carried;
use judge_pair::match_texts::{Apart, PairSaid, Wait};
use std::alloc::{AllocError, Global};
use std::fmt;
use tftp_packet::End;

/// The first datagram of a capture that is not matched, as it stands in the line of both.
#[derive(Clone, Copy)]
struct Place(Option<First>);

impl fmt::Display for Place {
    ghost use Rattle.std.specs.Prelude.{Some};
    ghost use Rattle.tftp_match.specs.Lines.{place_text};

    ghost output = { λ place. Some (place_text place.0) };

    fn fmt<W: fmt::Write>(&self, f: &mut fmt::Formatter<W>) -> fmt::Result {
        match self.0 {
            None => write!(f, "-"),
            Some(First { number, why }) => match why {
                None => write!(f, "{number}"),
                Some(Wait::Unsent) => write!(f, "{number} unsent"),
                Some(Wait::SentLater) => write!(f, "{number} waits"),
            },
        }
    }
}

/// The verdict on each capture, how far they go together, and how often each packet was sent and taken, where that is told.
pub fn lines_in(
    alloc: Global,
    said: &PairSaid,
    copies: &Option<Vec<Copies>>,
) -> Result<Vec<u8>, AllocError>
    ensures { IfOk result (λ text. text.items ≡ all_lines said.now (option_map (λ all. all.items) copies.now)) }
{
    let mut text = verdict_line(alloc, &said.client)?;
    let server = verdict_line(alloc, &said.server)?;
    let third = third_line(alloc, said)?;
    text.extend_from_slice(server.as_slice())?;
    text.extend_from_slice(third.as_bytes())?;
    if let Some(copies) = copies {
        add_copies(alloc, &mut text, copies.as_slice())?;
    }
    Ok(text)
}

/// Adds a line for each packet.
fn add_copies(alloc: Global, text: &mut Vec<u8>, all: &[Copies]) -> Result<(), AllocError>
    ensures { OnOk result (text.new.items ≡ text.old.items ++ flat_map line_of_copies all.now) }
{
    for copies in all {
        let line = copies_line(alloc, *copies)?;
        text.extend_from_slice(line.as_bytes())?;
    }
    Ok(())
}

/// How often a packet was sent and taken.
fn copies_line(alloc: Global, copies: Copies) -> Result<String, AllocError>
    ensures { IfOk result (λ line. string_bytes line ≡ line_of_copies copies) }
{
    format!(in alloc; "{copies}\n")
}

/// The line of both; empty where it is not told how far they go together.
fn third_line(alloc: Global, said: &PairSaid) -> Result<String, AllocError>
    ensures { IfOk result (λ line. string_bytes line ≡ line_of_both said.now) }
{
    match &said.together {
        Ok(matched) => {
            if are_matched(said) {
                matched_line(alloc, matched.carried)
            } else {
                unmatched_line(alloc, client_first(said), server_first(said))
            }
        }
        Err(Apart::WrongEnd(end)) => wrong_end_line(alloc, *end),
        Err(Apart::Stopped) => Ok(String::new(alloc)),
    }
}

/// That both are matched, and what the network lost and repeated at the least, where it was counted.
fn matched_line(alloc: Global, carried: Option<Carried>) -> Result<String, AllocError>
    ensures { IfOk result (λ line. string_bytes line ≡ line_of_matched carried) }
{
    match carried {
        Some(Carried { lost, repeated }) => {
            format!(in alloc; "matched lost {lost} repeated {repeated}\n")
        }
        None => format!(in alloc; "matched\n"),
    }
}

/// That they are not matched, with the first datagram of each that is not.
fn unmatched_line(
    alloc: Global,
    client: Option<First>,
    server: Option<First>,
) -> Result<String, AllocError>
    ensures { IfOk result (λ line. string_bytes line ≡ line_of_unmatched client server) }
{
    let client = Place(client);
    let server = Place(server);
    format!(in alloc; "unmatched client datagram {client} server datagram {server}\n")
}

/// That the capture of this end names the other one.
fn wrong_end_line(alloc: Global, end: End) -> Result<String, AllocError>
    ensures { IfOk result (λ line. string_bytes line ≡ line_of_wrong_end end) }
{
    match end {
        End::Client => format!(in alloc; "fault client WrongEnd\n"),
        End::Server => format!(in alloc; "fault server WrongEnd\n"),
    }
}
