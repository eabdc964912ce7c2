//! How a transfer ended, beside the verdict on it.

ghost use Rattle.std.specs.Prelude.{◌≡◌, ◌++◌, ℕ, List, IfOk, OnOk, option_map, string_bytes};
ghost use Rattle.audit_flows.specs.{Transfer};
ghost use Rattle.audit_recording.specs.Blame.Frames.{Carried, whole_of};
ghost use Rattle.audit_recording.specs.Endings.Told.{sent_of};
ghost use Rattle.audit_recording.specs.Endings.Pace.{other_end};
ghost use Rattle.audit_recording.specs.declared.judges.judging.Judging.{Judging as JudgingKind};
ghost use Rattle.audit_rows.specs.{IsJudgedOf};
ghost use Rattle.tftp_rows.specs.Plain.{host_text};
ghost use Rattle.tftp_rows.specs.Ended.{Concludes, IsConclusionOf, is_before, quiet_after};
ghost use Rattle.tftp_rows.specs.Endings.{abort_text, before_text, coded_text, cut_text, ended_text, fault_text, message_byte, message_text, pause_text, quiet_text, role_name as name_of, silent_text, stop_text, unreachable_name, unreachable_text, unreached_text};

use crate::endpoint::shown_host;
use crate::plain::put_plain;
use audit_flows::lines::Address;
use audit_recording::blame::{Ending, Stop, Undelivered, Word};
use audit_rows::{Judged, Told};
use std::alloc::{AllocError, Global};
use std::fmt;
use tftp_packet::End;

/// How a transfer ended, as it is told.
#[derive(Drop)]
pub enum Conclusion {
    /// It is a whole transfer.
    Whole,
    /// By an ERROR; and whether that came before the datagram that is refused, and from the other end.
    Aborted(Stop, bool),
    /// With a datagram that did not reach this end, so many seconds before the recording ended.
    Unreached(End, u64, Undelivered),
    /// This end was to go on, and was silent for so many seconds after that frame.
    Silent(End, u64, u64),
    /// This end's datagram in that frame stands at the recording's end: who was to go on had no time.
    Cut(End, u64),
    /// For so many seconds nothing passed after this end's datagram in that frame.
    Quiet(End, u64, u64),
    /// Nothing of it was read.
    Unheard,
}

/// How the transfer ended, by what a row says.
pub fn concluded(alloc: Global, judged: &Judged, told: &Told<'_>) -> Result<Conclusion, AllocError>
    ensures { (judging : JudgingKind) (x : Transfer) (named : List ℕ) (carried : List Carried) → IsJudgedOf judged.now judging x named carried
        → IfOk result (λ conclusion. IsConclusionOf conclusion judged.now told.now x named carried) }
{
    let ending = judged.ending(told);
    let is_before = is_before(judged, told, ending);
    let undelivered = judged.trail().undelivered();
    let stops_early = told.view.found.stops_early();
    Conclusion::of(alloc, ending, stops_early, is_before, undelivered)
}

/// Whether what ended it is an ERROR that came before the datagram that is refused, and from the other end.
fn is_before(judged: &Judged, told: &Told<'_>, ending: Ending<'_>) -> bool
    ensures { (judging : JudgingKind) (x : Transfer) (named : List ℕ) (carried : List Carried) → IsJudgedOf judged.now judging x named carried
        → result ≡ is_before x (whole_of named carried) ending.entry told.now.view.now.blamed }
{
    match ending {
        Ending::Stopped(stop) => judged.comes_before(stop, told),
        _ => false,
    }
}

impl Conclusion {
    /// How a transfer ended that stops early, or whose end no judge has seen; whether what is refused follows an ERROR of the
    /// other end; and which datagram did not arrive at last.
    pub fn of(
        alloc: Global,
        ending: Ending<'_>,
        stops_early: bool,
        before_refusal: bool,
        undelivered: Option<(End, Undelivered)>,
    ) -> Result<Self, AllocError>
        ensures { IfOk result (Concludes ending.entry stops_early before_refusal undelivered) }
    {
        match ending {
            Ending::Whole => Ok(Conclusion::Whole),
            Ending::Stopped(stop) => {
                let own = copy_of(alloc, stop)?;
                Ok(Conclusion::Aborted(own, before_refusal))
            }
            Ending::Quiet(word, seconds) => match undelivered {
                Some((role, undelivered)) => Ok(Conclusion::Unreached(role, seconds, undelivered)),
                None => Ok(Conclusion::quiet(word, seconds, stops_early)),
            },
            Ending::Unheard => Ok(Conclusion::Unheard),
        }
    }

    /// With this datagram. Only of what stops early is it known that an end was to go on.
    fn quiet(word: Word, seconds: u64, stops_early: bool) -> Self
        ensures { result ≡ quiet_after stops_early word seconds }
    {
        if !stops_early {
            return Conclusion::Quiet(word.role, seconds, word.frame);
        }
        if seconds == 0 {
            return Conclusion::Cut(word.role, word.frame);
        }
        Conclusion::Silent(other(word.role), seconds, word.frame)
    }

    /// Puts that the other end's ERROR came before what is refused, if it did.
    pub fn put_before(&self, line: &mut String) -> Result<(), AllocError>
        ensures { OnOk result (string_bytes line.new ≡ string_bytes line.old ++ before_text self.now) }
    {
        match self {
            Conclusion::Aborted(stop, true) => put_abort(line, stop.role, stop.code),
            _ => Ok(()),
        }
    }

    /// Puts how it ended, unless it is whole.
    pub fn put(&self, alloc: Global, line: &mut String) -> Result<(), AllocError>
        ensures { OnOk result (string_bytes line.new ≡ string_bytes line.old ++ ended_text self.now) }
    {
        match self {
            Conclusion::Silent(role, seconds, frame) => put_silent(line, *role, *seconds, *frame),
            Conclusion::Cut(_, frame) => put_cut(line, *frame),
            Conclusion::Quiet(role, seconds, frame) => put_quiet(line, *role, *seconds, *frame),
            conclusion => conclusion.put_fault(alloc, line),
        }
    }

    /// Puts the ERROR that ended it, or that a datagram did not arrive at last.
    pub fn put_fault(&self, alloc: Global, line: &mut String) -> Result<(), AllocError>
        ensures { OnOk result (string_bytes line.new ≡ string_bytes line.old ++ fault_text self.now) }
    {
        match self {
            Conclusion::Aborted(stop, _) => put_stop(alloc, line, stop),
            Conclusion::Unreached(_, _, undelivered) => put_unreached(alloc, line, undelivered),
            _ => Ok(()),
        }
    }
}

/// An end in a word.
#[derive(Clone, Copy)]
pub(crate) struct RoleWord(pub(crate) End);

impl fmt::Display for RoleWord {
    ghost use Rattle.std.specs.Prelude.{Some};
    ghost use Rattle.tftp_rows.specs.Endings.{role_name};

    ghost output = { λ word. Some (role_name word.0) };

    fn fmt<W: fmt::Write>(&self, f: &mut fmt::Formatter<W>) -> fmt::Result {
        f.write_str(role_name(self.0))
    }
}

/// The word for an end.
pub fn role_name(role: End) -> &'static str
    ensures { result.now ≡ name_of role }
{
    match role {
        End::Client => "client",
        End::Server => "server",
    }
}

fn copy_of(alloc: Global, stop: &Stop) -> Result<Stop, AllocError>
    ensures { IfOk result (λ own. sent_of own ≡ sent_of stop.now) }
{
    let message = Vec::from_slice(alloc, stop.message.as_slice())?;
    Ok(Stop {
        role: stop.role,
        frame: stop.frame,
        code: stop.code,
        message,
    })
}

fn other(role: End) -> End
    ensures { result ≡ other_end role }
{
    match role {
        End::Client => End::Server,
        End::Server => End::Client,
    }
}

fn put_abort(line: &mut String, role: End, code: u16) -> Result<(), AllocError>
    ensures { OnOk result (string_bytes line.new ≡ string_bytes line.old ++ abort_text role code) }
{
    let role = RoleWord(role);
    write!(line, "aborted by {role} code {code}, and then ")
}

fn put_stop(alloc: Global, line: &mut String, stop: &Stop) -> Result<(), AllocError>
    ensures { OnOk result (string_bytes line.new ≡ string_bytes line.old ++ stop_text stop.now) }
{
    let message = message_words(alloc, stop.message.as_slice())?;
    let (role, code, frame) = (role_name(stop.role), stop.code, stop.frame);
    let message = message.as_str();
    write!(
        line,
        "; ended: {role} ERROR {code} \"{message}\" frame {frame}"
    )
}

fn put_unreached(
    alloc: Global,
    line: &mut String,
    undelivered: &Undelivered,
) -> Result<(), AllocError>
    ensures { OnOk result (string_bytes line.new ≡ string_bytes line.old ++ unreached_text undelivered.now) }
{
    let words = unreachable_words(alloc, undelivered)?;
    let (words, frame) = (words.as_str(), undelivered.frame);
    write!(line, "; ended: {words} frame {frame}")
}

fn put_silent(line: &mut String, role: End, seconds: u64, frame: u64) -> Result<(), AllocError>
    ensures { OnOk result (string_bytes line.new ≡ string_bytes line.old ++ silent_text role seconds frame) }
{
    let role = RoleWord(role);
    write!(
        line,
        "; ended: {role} silent for {seconds} s after frame {frame}"
    )
}

fn put_cut(line: &mut String, frame: u64) -> Result<(), AllocError>
    ensures { OnOk result (string_bytes line.new ≡ string_bytes line.old ++ cut_text frame) }
{
    write!(line, "; ended: with the recording after frame {frame}")
}

fn put_quiet(line: &mut String, role: End, seconds: u64, frame: u64) -> Result<(), AllocError>
    ensures { OnOk result (string_bytes line.new ≡ string_bytes line.old ++ quiet_text role seconds frame) }
{
    if seconds == 0 {
        return Ok(());
    }
    put_pause(line, role, seconds, frame)
}

fn put_pause(line: &mut String, role: End, seconds: u64, frame: u64) -> Result<(), AllocError>
    ensures { OnOk result (string_bytes line.new ≡ string_bytes line.old ++ pause_text role seconds frame) }
{
    let role = RoleWord(role);
    write!(
        line,
        "; ended: nothing for {seconds} s after frame {frame} of the {role}"
    )
}

/// What an ICMP message says, and the host that sent it.
pub(crate) fn unreachable_words(
    alloc: Global,
    undelivered: &Undelivered,
) -> Result<String, AllocError>
    ensures { IfOk result (λ words. string_bytes words ≡ unreachable_text undelivered.now) }
{
    let host = shown_host(alloc, undelivered.host)?;
    unreachable_by(alloc, host.as_str(), undelivered)
}

/// That by the shown host.
fn unreachable_by(
    alloc: Global,
    host: &str,
    undelivered: &Undelivered,
) -> Result<String, AllocError>
    ensures { host.now ≡ host_text undelivered.now.host → IfOk result (λ words. string_bytes words ≡ unreachable_text undelivered.now) }
{
    let code = undelivered.code;
    match code_name(undelivered.host, code) {
        Some(name) => format!(in alloc; "ICMP {name} from {host}"),
        None => coded_by(alloc, host, code),
    }
}

/// That with a code that has no name here.
fn coded_by(alloc: Global, host: &str, code: u8) -> Result<String, AllocError>
    ensures { IfOk result (λ words. string_bytes words ≡ coded_text code host.now) }
{
    format!(in alloc; "ICMP unreachable, code {code}, from {host}")
}

/// What a code of "destination unreachable" says (RFC 792; RFC 1812, section 5.2.7.1; RFC 4443, section 3.1).
fn code_name(host: Address, code: u8) -> Option<&'static str>
    ensures { option_map (λ name. name.now) result ≡ unreachable_name host code }
{
    match (host, code) {
        (Address::V4(_), 3) | (Address::V6(_), 4) => Some("port unreachable"),
        (Address::V4(_), 0) | (Address::V6(_), 0) => Some("network unreachable"),
        (Address::V4(_), 1) | (Address::V6(_), 3) => Some("host unreachable"),
        (Address::V4(_), 9 | 10 | 13) | (Address::V6(_), 1) => Some("prohibited"),
        _ => None,
    }
}

/// An ERROR's message as a person may read it: its spaces stay, and what else is no plain sign of ASCII is escaped.
pub(crate) fn message_words(alloc: Global, message: &[u8]) -> Result<String, AllocError>
    ensures { IfOk result (λ words. string_bytes words ≡ message_text message.now) }
{
    let mut words = String::new(alloc);
    let put = put_message(&mut words, message);
    put?;
    Ok(words)
}

fn put_message(line: &mut String, message: &[u8]) -> Result<(), AllocError>
    ensures { OnOk result (string_bytes line.new ≡ string_bytes line.old ++ message_text message.now) }
{
    for byte in message {
        put_message_byte(line, *byte)?;
    }
    Ok(())
}

fn put_message_byte(line: &mut String, byte: u8) -> Result<(), AllocError>
    ensures { OnOk result (string_bytes line.new ≡ string_bytes line.old ++ message_byte byte) }
{
    if byte == b' ' {
        return line.push(' ');
    }
    put_plain(line, &[byte])
}
