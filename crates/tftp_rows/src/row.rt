//! A row of verdicts.

ghost use Rattle.std.specs.Prelude.{◌≡◌, ◌++◌, ℕ, List, IfOk, OnOk, Some, codes, flat_map, string_bytes};
ghost use Rattle.audit_flows.specs.{Transfer};
ghost use Rattle.audit_flows.specs.Lines.{follows_request};
ghost use Rattle.audit_flows.specs.Transfers.{some_of};
ghost use Rattle.audit_recording.specs.Blame.Frames.{Carried, whole_of};
ghost use Rattle.audit_recording.specs.Blame.Named.{named_in};
ghost use Rattle.tftp_rows.specs.Reasons.{reason_text};
ghost use Rattle.audit_recording.specs.Rows.Told.{refused_frame};
ghost use Rattle.tftp_rows.specs.Plain.{plain};
ghost use Rattle.audit_recording.specs.declared.judges.judging.Judging.{Judging as JudgingKind};
ghost use Rattle.audit_rows.specs.{IsJudgedOf};
ghost use Rattle.audit_rows.specs.Charging.{IsChargeOf, dropped_reasons, unless_listed};
ghost use Rattle.audit_rows.specs.Viewing.{IsStanding, bytes_in, said_in};
ghost use Rattle.tftp_rows.specs.Cells.{cell};
ghost use Rattle.tftp_rows.specs.Ended.{IsConclusionOf};
ghost use Rattle.tftp_rows.specs.Premises.{goes_beyond_once};
ghost use Rattle.tftp_rows.specs.Rows.{accused_text, column_heads, doubtful_text, frame_text, further_reason, head_text, place_name as name_of, reasons_text, row_text, verdict_text};
ghost use Rattle.tftp_rows.specs.Times.{AreTimesOf};
ghost use Rattle.tftp_rows.specs.Verdicts.{verdict_line};

use crate::cells::{put_cell, put_number_cell};
use crate::conclusion::{Conclusion, concluded, role_name};
use crate::endpoint::shown;
use crate::plain::put_plain;
use crate::premise::{goes_beyond_once, put_beyond, put_premise};
use crate::reason::ReasonWords;
use crate::times::{Times, times_told};
use crate::verdict::verdict_words;
use audit_recording::blame::Reason;
use audit_recording::rows::{Accused, Place};
use audit_rows::{Charge, Judged, Told};
use std::alloc::{AllocError, Global};
use tftp_packet::rounds::Rollover;

/// A row of verdicts.
pub struct VerdictRow<'a> {
    /// The recording's name.
    pub file: &'a str,
    /// The transfer's number there, from 1.
    pub number: u64,
    /// Where it was recorded.
    pub place: Place,
    /// That of the datagram that is refused; none where none is.
    pub frame: Option<u64>,
    /// The verdict's words.
    pub verdict: String,
    /// Why it is doubtful, and whom it accuses.
    pub charge: Charge,
    /// How the transfer ended.
    pub ended: Conclusion,
    /// Of what is refused, whether that stands whatever datagrams of the transfer were missed; nothing where that is not known.
    pub stands: Option<bool>,
    /// Whether it is refused by rule 20, since it goes on after block 65535, and numbers do not begin again there.
    pub goes_beyond: bool,
    /// What comes after block 65535, where anything does.
    pub rollover: Option<Rollover>,
    /// How it went in time.
    pub times: Times,
}

impl<'a> Drop for VerdictRow<'a> {
    // written out, since the prover takes a derived one apart again wherever a value is let go
    fn drop(self) {
        let VerdictRow {
            file: _,
            number: _,
            place: _,
            frame: _,
            verdict: _,
            charge: _,
            ended: _,
            stands: _,
            goes_beyond: _,
            rollover: _,
            times: _,
        } = self;
    }
}

/// Puts the line of the columns' heads, where that of files is so wide.
pub fn put_head(line: &mut String, width: usize) -> Result<(), AllocError>
    ensures { OnOk result (string_bytes line.new ≡ string_bytes line.old ++ head_text width) }
{
    put_cell(line, "file", width)?;
    put_column_heads(line)
}

#[tactic(auto, unfolding(crate::specs::Rows::column_heads))]
fn put_column_heads(line: &mut String) -> Result<(), AllocError>
    ensures { OnOk result (string_bytes line.new ≡ string_bytes line.old ++ column_heads) }
{
    line.push_str("number  place    frame     accused                 verdict\n")
}

impl<'a> VerdictRow<'a> {
    /// The row of what is told of the transfer with this number in a file.
    pub fn of(
        alloc: Global,
        file: &'a str,
        number: u64,
        judged: &Judged,
        told: &Told<'_>,
    ) -> Result<Self, AllocError>
        ensures file { IfOk result (λ row. row.file.now ≡ file.now) }
        ensures number { IfOk result (λ row. row.number ≡ number) }
        ensures place { IfOk result (λ row. row.place ≡ told.now.place) }
        ensures frame { IfOk result (λ row. row.frame ≡ refused_frame (said_in told.now.view.now)) }
        ensures verdict { IfOk result (λ row. string_bytes row.verdict ++ codes "\n" ≡ verdict_line told.now.view.now.found) }
        ensures charge { (judging : JudgingKind) (x : Transfer) (named : List ℕ) (carried : List Carried) → IsJudgedOf judged.now judging x named carried
            → IfOk result (λ row. IsChargeOf row.charge x (whole_of named carried) judged.now.doubted told.now.telling told.now.view.now) }
        ensures ended { (judging : JudgingKind) (x : Transfer) (named : List ℕ) (carried : List Carried) → IsJudgedOf judged.now judging x named carried
            → IfOk result (λ row. IsConclusionOf row.ended judged.now told.now x named carried) }
        ensures stands { (judging : JudgingKind) (x : Transfer) (named : List ℕ) (carried : List Carried) → IsJudgedOf judged.now judging x named carried
            → IfOk result (λ row. IsStanding told.now.telling.point x (some_of x.number follows_request (whole_of named carried)) (named_in x (whole_of named carried)) told.now.view.now row.stands) }
        ensures beyond { IfOk result (λ row. row.goes_beyond ≡ goes_beyond_once told.now.view.now) }
        ensures rollover { IfOk result (λ row. row.rollover ≡ told.now.view.now.rollover) }
        ensures times { (judging : JudgingKind) (x : Transfer) (named : List ℕ) (carried : List Carried) → IsJudgedOf judged.now judging x named carried
            → IfOk result (λ row. AreTimesOf row.times x (bytes_in told.now.view.now.found) named carried) }
    {
        let verdict = verdict_words(alloc, &told.view.found)?;
        let charge = judged.charge(alloc, told)?;
        let ended = concluded(alloc, judged, told)?;
        Ok(VerdictRow {
            file,
            number,
            place: told.place,
            frame: told.view.frame(),
            verdict,
            charge,
            ended,
            stands: judged.stands(told),
            goes_beyond: goes_beyond_once(told.view),
            rollover: told.view.rollover,
            times: times_told(judged, told),
        })
    }

    /// The same, where the recorder says at last that it lost so many packets: a refusal is doubtful then, and accuses nobody.
    pub fn with_dropped(self, dropped: u64) -> Result<Self, AllocError>
        ensures reasons { IfOk result (λ row. row.charge.reasons.items ≡ self.entry.charge.reasons.items ++ dropped_reasons self.entry.charge.is_refusal dropped) }
        ensures accused { IfOk result (λ row. row.charge.accused ≡ unless_listed (dropped_reasons self.entry.charge.is_refusal dropped) self.entry.charge.accused) }
        ensures rest { IfOk result (λ row. row ≡ record self.entry { charge = row.charge }) }
    {
        let VerdictRow {
            file,
            number,
            place,
            frame,
            verdict,
            charge,
            ended,
            stands,
            goes_beyond,
            rollover,
            times,
        } = self;
        let charge = charge.with_dropped(dropped)?;
        Ok(VerdictRow {
            file,
            number,
            place,
            frame,
            verdict,
            charge,
            ended,
            stands,
            goes_beyond,
            rollover,
            times,
        })
    }

    /// Puts the row, where the column of files is so wide.
    pub fn put(&self, alloc: Global, line: &mut String, width: usize) -> Result<(), AllocError>
        ensures { OnOk result (string_bytes line.new ≡ string_bytes line.old ++ row_text width self.now) }
    {
        put_plain_cell(alloc, line, self.file.as_bytes(), width)?;
        put_number_cell(line, self.number, 6)?;
        put_cell(line, place_name(self.place), 7)?;
        put_frame(line, self.frame)?;
        put_accused(alloc, line, self.charge.accused)?;
        self.put_verdict(alloc, line)
    }

    /// Puts the verdict, where it is doubtful why and else what it rests on, how the transfer ended that is not accepted, and how
    /// slow it was.
    fn put_verdict(&self, alloc: Global, line: &mut String) -> Result<(), AllocError>
        ensures { OnOk result (string_bytes line.new ≡ string_bytes line.old ++ verdict_text self.now) }
    {
        let reasons = self.charge.reasons.as_slice();
        put_doubtful(line, reasons)?;
        self.ended.put_before(line)?;
        line.push_str(self.verdict.as_str())?;
        put_premise(line, &self.charge, self.stands)?;
        put_reasons(line, reasons)?;
        put_beyond(line, self.goes_beyond)?;
        self.ended.put(alloc, line)?;
        self.times.put(line)
    }
}

/// The word for where a transfer was recorded.
pub fn place_name(place: Place) -> &'static str
    ensures { result.now ≡ name_of place }
{
    match place {
        Place::Client => "client",
        Place::Server => "server",
        Place::Both => "both",
        Place::Between => "between",
    }
}

fn put_plain_cell(
    alloc: Global,
    line: &mut String,
    bytes: &[u8],
    width: usize,
) -> Result<(), AllocError>
    ensures { OnOk result (string_bytes line.new ≡ string_bytes line.old ++ cell width (plain bytes.now)) }
{
    let mut text = String::new(alloc);
    put_plain(&mut text, bytes)?;
    put_cell(line, text.as_str(), width)
}

fn put_frame(line: &mut String, frame: Option<u64>) -> Result<(), AllocError>
    ensures { OnOk result (string_bytes line.new ≡ string_bytes line.old ++ cell 8 (frame_text frame)) }
{
    match frame {
        Some(frame) => put_number_cell(line, frame, 8),
        None => put_cell(line, "-", 8),
    }
}

/// Puts who is accused as a cell.
fn put_accused(alloc: Global, line: &mut String, accused: Option<Accused>) -> Result<(), AllocError>
    ensures { OnOk result (string_bytes line.new ≡ string_bytes line.old ++ cell 22 (accused_text accused)) }
{
    match accused {
        Some(accused) => {
            let words = accused_words(alloc, accused)?;
            put_cell(line, words.as_str(), 22)
        }
        None => put_cell(line, "-", 22),
    }
}

/// The role and the endpoint.
fn accused_words(alloc: Global, accused: Accused) -> Result<String, AllocError>
    ensures { IfOk result (λ words. string_bytes words ≡ accused_text (Some accused)) }
{
    let end = shown(alloc, accused.end)?;
    let (role, end) = (role_name(accused.role), end.as_str());
    format!(in alloc; "{role} {end}")
}

fn put_doubtful(line: &mut String, reasons: &[Reason]) -> Result<(), AllocError>
    ensures { OnOk result (string_bytes line.new ≡ string_bytes line.old ++ doubtful_text reasons.now) }
{
    if reasons.is_empty() {
        return Ok(());
    }
    line.push_str("doubtful ")
}

fn put_reasons(line: &mut String, reasons: &[Reason]) -> Result<(), AllocError>
    ensures { OnOk result (string_bytes line.new ≡ string_bytes line.old ++ reasons_text reasons.now) }
{
    match reasons {
        [] => Ok(()),
        [first, more @ ..] => {
            put_reason(line, ": ", *first)?;
            put_further(line, more)
        }
    }
}

fn put_further(line: &mut String, reasons: &[Reason]) -> Result<(), AllocError>
    ensures { OnOk result (string_bytes line.new ≡ string_bytes line.old ++ flat_map further_reason reasons.now) }
{
    for reason in reasons {
        put_reason(line, "; ", *reason)?;
    }
    Ok(())
}

/// Puts a reason behind what parts it from the words before.
fn put_reason(line: &mut String, before: &str, reason: Reason) -> Result<(), AllocError>
    ensures { OnOk result (string_bytes line.new ≡ string_bytes line.old ++ before.now ++ reason_text reason) }
{
    let words = ReasonWords(reason);
    write!(line, "{before}{words}")
}
