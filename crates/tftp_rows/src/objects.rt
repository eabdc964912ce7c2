//! The objects that are printed as JSON (RFC 8259), of rows and of their parts.

ghost use Rattle.std.specs.Prelude.{◌≡◌, IfOk, OnOk, codes, flat_map, map, option_map, string_bytes};
ghost use Rattle.json.specs.Tree.{json_tokens};
ghost use Rattle.tftp_rows.specs.Members.{Adds, AddsMember, array_of};
ghost use Rattle.tftp_rows.specs.Objects.{accused_json, code_in, ended_json, frame_in, how_word, is_before_in, message_in, next_number, reason_json, repeats_json, role_in, row_json, seconds_in, silence_json, times_json};

use crate::conclusion::{Conclusion, message_words, role_name, unreachable_words};
use crate::endpoint::shown_host;
use crate::members::{
    put_count, put_flag, put_some_count, put_some_flag, put_some_role, put_some_text, put_text,
};
use crate::reason::ReasonWords;
use crate::row::{VerdictRow, place_name};
use crate::times::{Repeated, Times};
use audit_recording::blame::{Reason, Silence};
use audit_recording::rows::Accused;
use json::Writer;
use std::alloc::{AllocError, Global};
use tftp_packet::End;
use tftp_packet::rounds::Rollover;

impl VerdictRow<'_> {
    /// Puts the object of a row.
    pub fn put_object(&self, alloc: Global, out: &mut Writer) -> Result<(), AllocError>
        ensures { OnOk result (Adds out.old out.new (json_tokens (row_json self.now))) }
    {
        out.begin_object()?;
        put_text(out, "file", self.file)?;
        put_count(out, "number", self.number)?;
        put_text(out, "place", place_name(self.place))?;
        put_some_count(out, "frame", self.frame)?;
        put_text(out, "verdict", self.verdict.as_str())?;
        put_accused(alloc, out, self.charge.accused)?;
        put_doubts(alloc, out, self.charge.reasons.as_slice())?;
        self.ended.put_member(alloc, out)?;
        put_some_flag(out, "stands", self.stands)?;
        self.times.put_member(out)?;
        put_some_count(out, "rollover", next_number(self.rollover))?;
        out.end_object()
    }
}

/// The number that comes after block 65535.
fn next_number(rollover: Option<Rollover>) -> Option<u64>
    ensures { result ≡ option_map next_number rollover }
{
    match rollover {
        Some(Rollover::Zero) => Some(0),
        Some(Rollover::One) => Some(1),
        None => None,
    }
}

impl Conclusion {
    /// Puts how a transfer ended, as a member.
    pub fn put_member(&self, alloc: Global, out: &mut Writer) -> Result<(), AllocError>
        ensures { OnOk result (AddsMember out.old out.new (codes "ended") (ended_json self.now)) }
    {
        let message = self.message(alloc)?;
        out.key("ended")?;
        out.begin_object()?;
        put_text(out, "how", self.how())?;
        put_some_role(out, "role", self.role())?;
        put_some_count(out, "code", self.code())?;
        put_some_text(out, "message", &message)?;
        put_some_count(out, "frame", self.frame())?;
        put_some_count(out, "seconds", self.seconds())?;
        put_flag(out, "before_refusal", self.is_before())?;
        out.end_object()
    }

    fn how(&self) -> &'static str
        ensures { result.now ≡ how_word self.now }
    {
        match self {
            Conclusion::Whole => "whole",
            Conclusion::Aborted(_, _) => "error",
            Conclusion::Unreached(_, _, _) => "unreachable",
            Conclusion::Silent(_, _, _) => "silent",
            Conclusion::Cut(_, _) => "recording",
            Conclusion::Quiet(_, _, _) | Conclusion::Unheard => "last",
        }
    }

    /// Who sent the ERROR or the last datagram, who is silent, or who was not reached.
    fn role(&self) -> Option<End>
        ensures { result ≡ role_in self.now }
    {
        match self {
            Conclusion::Aborted(stop, _) => Some(stop.role),
            Conclusion::Unreached(role, _, _) | Conclusion::Silent(role, _, _) => Some(*role),
            Conclusion::Cut(role, _) | Conclusion::Quiet(role, _, _) => Some(*role),
            Conclusion::Whole | Conclusion::Unheard => None,
        }
    }

    /// That of the ERROR, or of the ICMP message.
    fn code(&self) -> Option<u64>
        ensures { result ≡ code_in self.now }
    {
        match self {
            Conclusion::Aborted(stop, _) => Some(u64::from(stop.code)),
            Conclusion::Unreached(_, _, undelivered) => Some(u64::from(undelivered.code)),
            _ => None,
        }
    }

    fn message(&self, alloc: Global) -> Result<Option<String>, AllocError>
        ensures { IfOk result (λ message. option_map string_bytes message ≡ message_in self.now) }
    {
        match self {
            Conclusion::Aborted(stop, _) => {
                Ok(Some(message_words(alloc, stop.message.as_slice())?))
            }
            Conclusion::Unreached(_, _, undelivered) => {
                Ok(Some(unreachable_words(alloc, undelivered)?))
            }
            _ => Ok(None),
        }
    }

    /// That of the ERROR, of what tells that a datagram did not arrive, or of the last datagram.
    fn frame(&self) -> Option<u64>
        ensures { result ≡ frame_in self.now }
    {
        match self {
            Conclusion::Aborted(stop, _) => Some(stop.frame),
            Conclusion::Unreached(_, _, undelivered) => Some(undelivered.frame),
            Conclusion::Silent(_, _, frame) | Conclusion::Quiet(_, _, frame) => Some(*frame),
            Conclusion::Cut(_, frame) => Some(*frame),
            Conclusion::Whole | Conclusion::Unheard => None,
        }
    }

    fn seconds(&self) -> Option<u64>
        ensures { result ≡ seconds_in self.now }
    {
        match self {
            Conclusion::Unreached(_, seconds, _) | Conclusion::Silent(_, seconds, _) => {
                Some(*seconds)
            }
            Conclusion::Quiet(_, seconds, _) => Some(*seconds),
            Conclusion::Cut(_, _) => Some(0),
            _ => None,
        }
    }

    /// Whether the other end's ERROR came before what is refused.
    fn is_before(&self) -> bool
        ensures { result ≡ is_before_in self.now }
    {
        match self {
            Conclusion::Aborted(_, is_before) => *is_before,
            _ => false,
        }
    }
}

impl Times {
    /// Puts how a transfer went in time, as a member.
    pub fn put_member(&self, out: &mut Writer) -> Result<(), AllocError>
        ensures { OnOk result (AddsMember out.old out.new (codes "times") (times_json self.now)) }
    {
        out.key("times")?;
        out.begin_object()?;
        put_some_count(out, "nanoseconds", self.nanoseconds)?;
        put_some_count(out, "bytes_per_second", self.bytes_per_second)?;
        put_repeats(out, self.repeats)?;
        put_silence(out, self.silence)?;
        out.end_object()
    }
}

fn put_repeats(out: &mut Writer, repeats: Repeated) -> Result<(), AllocError>
    ensures { OnOk result (AddsMember out.old out.new (codes "repeats") (repeats_json repeats)) }
{
    out.key("repeats")?;
    out.begin_object()?;
    put_count(out, "client", repeats.client)?;
    put_count(out, "server", repeats.server)?;
    out.end_object()
}

fn put_silence(out: &mut Writer, silence: Option<Silence>) -> Result<(), AllocError>
    ensures { OnOk result (AddsMember out.old out.new (codes "silence") (silence_json silence)) }
{
    out.key("silence")?;
    let Some(
        Silence {
            nanoseconds,
            role,
            frame,
        },
    ) = silence
    else {
        return out.null();
    };
    out.begin_object()?;
    put_count(out, "nanoseconds", nanoseconds)?;
    put_text(out, "role", role_name(role))?;
    put_count(out, "frame", frame)?;
    out.end_object()
}

fn put_accused(alloc: Global, out: &mut Writer, accused: Option<Accused>) -> Result<(), AllocError>
    ensures { OnOk result (AddsMember out.old out.new (codes "accused") (accused_json accused)) }
{
    out.key("accused")?;
    let Some(Accused { role, end }) = accused else {
        return out.null();
    };
    let host = shown_host(alloc, end.address)?;
    out.begin_object()?;
    put_text(out, "role", role_name(role))?;
    put_text(out, "host", host.as_str())?;
    put_count(out, "port", u64::from(end.port))?;
    out.end_object()
}

/// Puts what each reason says.
fn put_doubts(alloc: Global, out: &mut Writer, reasons: &[Reason]) -> Result<(), AllocError>
    ensures { OnOk result (AddsMember out.old out.new (codes "doubts") (array_of (map reason_json reasons.now))) }
{
    out.key("doubts")?;
    out.begin_array()?;
    put_reasons(alloc, out, reasons)?;
    out.end_array()
}

fn put_reasons(alloc: Global, out: &mut Writer, reasons: &[Reason]) -> Result<(), AllocError>
    ensures { OnOk result (Adds out.old out.new (flat_map (λ reason. json_tokens (reason_json reason)) reasons.now)) }
{
    for reason in reasons {
        put_reason(alloc, out, *reason)?;
    }
    Ok(())
}

fn put_reason(alloc: Global, out: &mut Writer, reason: Reason) -> Result<(), AllocError>
    ensures { OnOk result (Adds out.old out.new (json_tokens (reason_json reason))) }
{
    let words = format!(in alloc; "{}", ReasonWords(reason))?;
    out.string(words.as_str())
}
