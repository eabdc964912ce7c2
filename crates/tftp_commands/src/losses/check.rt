ghost use Rattle.std.specs.Prelude.{◌≡◌, ◌+◌, ◌++◌, List, [], Err, false, IfOk, string_bytes};
ghost use Rattle.net_streams.specs.Streams.{Adds, IsFresh};
ghost use Rattle.judge_losses.specs.declared.place.Place.{Place as PlaceParts};
ghost use Rattle.tftp_commands.specs.Checked.{verdict_line};
ghost use Rattle.tftp_commands.specs.Losses.{IsCheckedWithLosses, IsFoundIn, IsRefusedWith, IsToldWithLosses, losses_line, newlines, says_unlawful};
ghost use Rattle.tftp_commands.specs.Outputs.{Output, Prints};
ghost use Rattle.tftp_commands.specs.Running.{Runs};

use crate::check::{say_accepted, say_verdict};
use crate::losses::line::{NONE_FOUND, line_of};
use crate::output::{say, write_out};
use crate::status::Status;
use crate::verdicts::{put_verdict, status_of};
use judge_losses::{Unmended, missing_of};
use net_streams::streams::{Latched, LineWriter, WriteFault};
use std::alloc::{AllocError, Global};
use std::io::{Read, Write};
use tftp_capture::CaptureFault;
use tftp_judge::{Refusal, Verdict, judge_text};

/// Says what `check` says of a capture text, and where that refuses a datagram, in one line more which datagrams must be missing so
/// that the text is lawful with them, or that none were found. The text is read to its end and held, since it is read again for them:
/// so a read that fails is told whatever comes before it, and it takes as much memory as the text has bytes.
pub fn check_with_losses<R: Read, W: Write>(
    alloc: Global,
    reader: &mut Latched<R>,
    writer: &mut LineWriter<W>,
) -> Status
    requires reading { reader.old.1 ≡ false }
    requires fresh { IsFresh writer.old }
    ensures { Runs R.remaining W.contents IsCheckedWithLosses reader.old reader.new writer.old writer.new result }
{
    let mut held = Vec::new(alloc);
    let read = reader.read_to_end(&mut held);
    let text = held.as_slice();
    if reader.failed() {
        let line = last_line(text);
        return say_verdict(writer, Verdict::Capture(CaptureFault::Read(line)));
    }
    if read.is_err() {
        return say(writer, b"fault memory\n");
    }
    say_text(alloc, writer, text)
}

/// The line on which a text ends, counted from 1.
fn last_line(text: &[u8]) -> u64
    ensures { result ≡ 1 + newlines text.now }
{
    let ended = text.iter().filter(|byte| **byte == b'\n').count();
    1 + ended as u64
}

/// Says it of a text that is held.
fn say_text<W: Write>(alloc: Global, writer: &mut LineWriter<W>, text: &[u8]) -> Status
    requires fresh { IsFresh writer.old }
    ensures { (output : Output) × IsToldWithLosses text.now output × Prints W.contents writer.old writer.new output result }
{
    let mut reader = Latched::new(text);
    let judged = judge_text(alloc, None, &mut reader);
    if reader.failed() {
        // no read of what is held fails
        return say(writer, b"fault memory\n");
    }
    match judged {
        Ok(meaning) => say_accepted(writer, &meaning),
        Err(verdict) => say_refused(alloc, writer, verdict, text),
    }
}

/// Whether a text is not accepted for an unlawful datagram.
fn is_unlawful(verdict: Verdict) -> bool
    ensures { result ≡ says_unlawful (Err verdict) }
{
    matches!(verdict, Verdict::Refused(Refusal::Unlawful(..)))
}

/// Says why a text is not accepted, and where that is for an unlawful datagram, what is missing of it.
fn say_refused<W: Write>(
    alloc: Global,
    writer: &mut LineWriter<W>,
    verdict: Verdict,
    text: &[u8],
) -> Status
    requires fresh { IsFresh writer.old }
    ensures { (output : Output) × IsRefusedWith verdict text.now output × Prints W.contents writer.old writer.new output result }
{
    if !is_unlawful(verdict) {
        return say_verdict(writer, verdict);
    }
    let Ok(line) = line_in(alloc, text) else {
        return say(writer, b"fault memory\n");
    };
    match put_further(writer, verdict, line.as_bytes()) {
        Ok(()) => write_out(writer, status_of(verdict)),
        Err(_) => Status::Fault,
    }
}

/// The line of what must be missing of a text.
fn line_in(alloc: Global, text: &[u8]) -> Result<String, AllocError>
    ensures { IfOk result (λ line. (found : List PlaceParts) × IsFoundIn text.now found × (string_bytes line ≡ losses_line found)) }
{
    match missing_of(alloc, text) {
        Ok(places) => line_of(alloc, places.as_slice()),
        Err(why) => line_without(alloc, why),
    }
}

/// The line of a text of which nothing was found to be missing, unless memory ran out.
fn line_without(alloc: Global, why: Unmended) -> Result<String, AllocError>
    ensures { IfOk result (λ line. string_bytes line ≡ losses_line []) }
{
    match why {
        Unmended::Memory | Unmended::Capture(CaptureFault::Memory(_)) => Err(AllocError),
        _ => String::from_str(alloc, NONE_FOUND),
    }
}

/// Adds the line of a text that is not accepted, and a further one.
fn put_further<W: Write>(
    writer: &mut LineWriter<W>,
    verdict: Verdict,
    line: &[u8],
) -> Result<(), WriteFault>
    ensures adds { Adds W.contents writer.old writer.new result (verdict_line verdict ++ line.now) }
{
    put_verdict(writer, verdict)?;
    writer.add(line)
}
