//! The verdict on a transfer at a point, in words.

ghost use Rattle.std.specs.Prelude.{◌≡◌, ◌++◌, ◌∷◌, [], ℕ, List, bytes_eq, codes, IfOk, Ok, Err, string_bytes};
ghost use Rattle.std.specs.Str.{IsAscii};
ghost use Rattle.tftp_commands.specs.{checked};
ghost use Rattle.audit_rows.specs.Judging.{view_at};
ghost use Rattle.audit_rows.specs.Viewing.{found_in};
ghost use Rattle.audit_recording.specs.declared.rows.row.Point.TheVariants.{Client as ClientPoint, Server as ServerPoint};
ghost use Rattle.tftp_rows.specs.Verdicts.{aborted_line, between_line, has_same_words, refused_line, verdict_line};

use crate::conclusion::RoleWord;
use audit_recording::rows::Point;
use audit_rows::{Found, Judged};
use judge_tap::TapRefusal;
use net_streams::streams::{LineWriter, WriteFault};
use std::alloc::{AllocError, Global};
use tftp_commands::{say_accepted, say_verdict};
use tftp_judge::{Meaning, Refusal, Verdict};
use tftp_packet::End;

/// The words of a verdict: its line without the end.
pub fn verdict_words(alloc: Global, found: &Found) -> Result<String, AllocError>
    ensures { IfOk result (λ words. string_bytes words ++ codes "\n" ≡ verdict_line found.now) }
{
    let line = verdict_line(alloc, found)?;
    without_end(alloc, line.as_slice())
}

/// Whether the verdicts of both ends have the same words; not where one of them was not judged.
pub fn has_same_words(alloc: Global, judged: &Judged) -> Result<bool, AllocError>
    ensures { IfOk result (λ same. same ≡ has_same_words (found_in (view_at ClientPoint judged.now)) (found_in (view_at ServerPoint judged.now))) }
{
    match (judged.view(Point::Client), judged.view(Point::Server)) {
        (Some(client), Some(server)) => are_same_words(alloc, &client.found, &server.found),
        _ => Ok(false),
    }
}

/// Whether two verdicts have the same words.
fn are_same_words(alloc: Global, client: &Found, server: &Found) -> Result<bool, AllocError>
    ensures { IfOk result (λ same. same ≡ bytes_eq (verdict_line client.now) (verdict_line server.now)) }
{
    let client = verdict_line(alloc, client)?;
    let server = verdict_line(alloc, server)?;
    Ok(client.as_slice() == server.as_slice())
}

/// The line of a verdict.
fn verdict_line(alloc: Global, found: &Found) -> Result<Vec<u8>, AllocError>
    ensures { IfOk result (λ line. line.items ≡ verdict_line found.now) }
{
    match found {
        Found::AtEnd(Ok(meaning)) => accepted_line(alloc, meaning),
        Found::Between(Ok(meaning)) => accepted_line(alloc, meaning),
        Found::AtEnd(Err(refusal)) => refused_line(alloc, *refusal),
        Found::Between(Err(refusal)) => between_line(alloc, *refusal),
    }
}

/// That of an accepted transfer.
fn accepted_line(alloc: Global, meaning: &Meaning) -> Result<Vec<u8>, AllocError>
    ensures { IfOk result (λ line. line.items ≡ (checked (Ok meaning.now)).bytes) }
{
    let mut writer = LineWriter::new(alloc, Vec::new(alloc));
    say_accepted(&mut writer, meaning);
    match writer.finish() {
        (line, Ok(())) => Ok(line),
        (_, Err(WriteFault)) => Err(AllocError),
    }
}

/// That of one that is not accepted at an end.
fn refused_line(alloc: Global, refusal: Refusal) -> Result<Vec<u8>, AllocError>
    ensures { IfOk result (λ line. line.items ≡ refused_line refusal) }
{
    let mut writer = LineWriter::new(alloc, Vec::new(alloc));
    say_verdict(&mut writer, Verdict::Refused(refusal));
    match writer.finish() {
        (line, Ok(())) => Ok(line),
        (_, Err(WriteFault)) => Err(AllocError),
    }
}

/// That of one that is not accepted between the ends: in the words of an end's, but that an ERROR is told by its sender.
fn between_line(alloc: Global, refusal: TapRefusal) -> Result<Vec<u8>, AllocError>
    ensures { IfOk result (λ line. line.items ≡ between_line refusal) }
{
    match refusal {
        TapRefusal::Unlawful(number, rule, _) => refused_line(
            alloc,
            Refusal::Unlawful(number, rule),
        ),
        TapRefusal::Incomplete(count) => refused_line(alloc, Refusal::Incomplete(count)),
        TapRefusal::NormalTooLong => refused_line(alloc, Refusal::NormalTooLong),
        TapRefusal::Memory(count) => refused_line(alloc, Refusal::Memory(count)),
        TapRefusal::Aborted(role, code) => aborted_line(alloc, role, code),
    }
}

fn aborted_line(alloc: Global, role: End, code: u16) -> Result<Vec<u8>, AllocError>
    ensures { IfOk result (λ line. line.items ≡ aborted_line role code) }
{
    let line = aborted_text(alloc, role, code)?;
    Ok(line.into_bytes())
}

fn aborted_text(alloc: Global, role: End, code: u16) -> Result<String, AllocError>
    ensures { IfOk result (λ line. string_bytes line ≡ aborted_line role code) }
{
    let role = RoleWord(role);
    format!(in alloc; "aborted by {role} code {code}\n")
}

/// A line of ASCII without its end.
pub fn without_end(alloc: Global, line: &[u8]) -> Result<String, AllocError>
    ensures { (words : List ℕ) → line.now ≡ words ++ 10 ∷ [] → IsAscii words → IfOk result (λ text. string_bytes text ≡ words) }
{
    let words = &line[..line.len().saturating_sub(1)];
    String::from_utf8_lossy(alloc, words)
}
