//! The object that is printed of two captures as JSON (RFC 8259), and its parts.

ghost use Rattle.std.specs.Prelude.{◌≡◌, IfOk, OnOk, codes, flat_map, option_map, string_bytes};
ghost use Rattle.json.specs.Tree.{json_tokens};
ghost use Rattle.tftp_commands.specs.{checked};
ghost use Rattle.tftp_rows.specs.Members.{Adds, AddsMember};
ghost use Rattle.tftp_match.specs.Objects.{copies_json, counts_json, fault_word, json_line, number_in, numbers_json, pair_json, side_json, together_json, word_in, words_of};

use crate::copies::Copies;
use crate::facts::{First, are_matched, carried_of, client_first, server_first};
use crate::members::put_some_text;
use crate::verdict::verdict_line;
use json::Writer;
use judge_pair::counts::Carried;
use judge_pair::match_texts::{Apart, PairSaid};
use std::alloc::{AllocError, Global};
use tftp_judge::{Meaning, Verdict};
use tftp_packet::End;
use tftp_rows::{put_count, put_flag, put_some_count, put_text, without_end};

/// A capture as it is named.
#[derive(Clone, Copy)]
pub struct Captured<'a> {
    /// Its file; `-` is standard input.
    pub file: &'a str,
    /// The number of the transfer in the recording; none of a capture text.
    pub number: Option<u64>,
}

/// The line of the object of all that there is to say.
pub fn object_line(
    alloc: Global,
    captures: (Captured<'_>, Captured<'_>),
    said: &PairSaid,
    copies: &Option<Vec<Copies>>,
) -> Result<Vec<u8>, AllocError>
    ensures { IfOk result (λ line. line.items ≡ json_line captures.entry.0 captures.entry.1 said.now (option_map (λ all. all.items) copies.now)) }
{
    let mut out = Writer::new(Vec::new(alloc));
    put_pair(alloc, &mut out, captures, said, copies)?;
    let mut line = out.into_inner();
    line.push(b'\n')?;
    Ok(line)
}

/// Puts the object.
fn put_pair(
    alloc: Global,
    out: &mut Writer,
    captures: (Captured<'_>, Captured<'_>),
    said: &PairSaid,
    copies: &Option<Vec<Copies>>,
) -> Result<(), AllocError>
    ensures { OnOk result (Adds out.old out.new (json_tokens (pair_json captures.entry.0 captures.entry.1 said.now (option_map (λ all. all.items) copies.now)))) }
{
    let (client, server) = captures;
    out.begin_object()?;
    put_side(alloc, out, "client", client, &said.client)?;
    put_side(alloc, out, "server", server, &said.server)?;
    put_some_text(out, "fault", fault_of(said))?;
    put_together(out, said)?;
    put_counts(out, copies)?;
    out.end_object()
}

/// Puts what there is to say of one, as a member.
fn put_side(
    alloc: Global,
    out: &mut Writer,
    name: &str,
    captured: Captured<'_>,
    said: &Result<Meaning, Verdict>,
) -> Result<(), AllocError>
    ensures { OnOk result (AddsMember out.old out.new name.now (side_json captured.entry (checked said.now).bytes)) }
{
    let verdict = verdict_in(alloc, said)?;
    out.key(name)?;
    out.begin_object()?;
    put_text(out, "file", captured.file)?;
    put_some_count(out, "number", captured.number)?;
    put_text(out, "verdict", verdict.as_str())?;
    out.end_object()
}

/// The line of one capture, without its LF.
fn verdict_in(alloc: Global, said: &Result<Meaning, Verdict>) -> Result<String, AllocError>
    ensures { IfOk result (λ text. string_bytes text ≡ words_of (checked said.now).bytes) }
{
    let line = verdict_line(alloc, said)?;
    without_end(alloc, line.as_slice())
}

/// The capture that names the other end.
fn fault_of(said: &PairSaid) -> Option<&'static str>
    ensures { option_map (λ word. word.now) result ≡ fault_word said.now }
{
    match said.together {
        Err(Apart::WrongEnd(End::Client)) => Some("client WrongEnd"),
        Err(Apart::WrongEnd(End::Server)) => Some("server WrongEnd"),
        _ => None,
    }
}

/// Puts how far they go together, as a member.
fn put_together(out: &mut Writer, said: &PairSaid) -> Result<(), AllocError>
    ensures { OnOk result (AddsMember out.old out.new (codes "together") (together_json said.now)) }
{
    out.key("together")?;
    match &said.together {
        Ok(_) => put_numbers(out, said),
        Err(_) => out.null(),
    }
}

/// Puts the object of how far they go together.
fn put_numbers(out: &mut Writer, said: &PairSaid) -> Result<(), AllocError>
    ensures { OnOk result (Adds out.old out.new (json_tokens (numbers_json said.now))) }
{
    let client = client_first(said);
    let server = server_first(said);
    let carried = carried_of(said);
    out.begin_object()?;
    put_flag(out, "matched", are_matched(said))?;
    put_some_count(out, "lost", lost_in(carried))?;
    put_some_count(out, "repeated", repeated_in(carried))?;
    put_some_count(out, "client_datagram", number_of(client))?;
    put_some_count(out, "server_datagram", number_of(server))?;
    put_some_text(out, "client_why", word_of(client))?;
    put_some_text(out, "server_why", word_of(server))?;
    out.end_object()
}

fn lost_in(carried: Option<Carried>) -> Option<u64>
    ensures { result ≡ option_map (λ c. c.lost) carried }
{
    match carried {
        Some(carried) => Some(carried.lost),
        None => None,
    }
}

fn repeated_in(carried: Option<Carried>) -> Option<u64>
    ensures { result ≡ option_map (λ c. c.repeated) carried }
{
    match carried {
        Some(carried) => Some(carried.repeated),
        None => None,
    }
}

fn number_of(first: Option<First>) -> Option<u64>
    ensures { result ≡ number_in first }
{
    match first {
        Some(first) => Some(first.number),
        None => None,
    }
}

fn word_of(first: Option<First>) -> Option<&'static str>
    ensures { option_map (λ word. word.now) result ≡ word_in first }
{
    match first {
        Some(first) => first.word(),
        None => None,
    }
}

/// Puts how often each packet was sent and taken, as a member.
fn put_counts(out: &mut Writer, copies: &Option<Vec<Copies>>) -> Result<(), AllocError>
    ensures { OnOk result (AddsMember out.old out.new (codes "counts") (counts_json (option_map (λ all. all.items) copies.now))) }
{
    out.key("counts")?;
    let Some(copies) = copies else {
        return out.null();
    };
    out.begin_array()?;
    put_each(out, copies.as_slice())?;
    out.end_array()
}

fn put_each(out: &mut Writer, all: &[Copies]) -> Result<(), AllocError>
    ensures { OnOk result (Adds out.old out.new (flat_map (λ copies. json_tokens (copies_json copies)) all.now)) }
{
    for copies in all {
        put_copies(out, *copies)?;
    }
    Ok(())
}

/// Puts the object of a packet's copies.
fn put_copies(out: &mut Writer, copies: Copies) -> Result<(), AllocError>
    ensures { OnOk result (Adds out.old out.new (json_tokens (copies_json copies))) }
{
    out.begin_object()?;
    put_text(out, "from", copies.sender())?;
    put_text(out, "packet", copies.kind())?;
    put_some_count(out, "block", copies.block())?;
    put_count(out, "sent", copies.sent)?;
    put_count(out, "taken", copies.taken)?;
    out.end_object()
}
