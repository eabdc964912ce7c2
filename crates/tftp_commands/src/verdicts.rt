ghost use Rattle.std.specs.Prelude.{◌≡◌, ◌++◌};
ghost use Rattle.net_streams.specs.Streams.{Adds};
ghost use Rattle.tftp_judge.specs.{Refusal};
ghost use Rattle.tftp_commands.specs.Checked.{accepted_line, detail, refusal_line, verdict_line, verdict_status};

use crate::faults::put_fault;
use crate::names::{by_name, mode_name, packet_fault_name, side_name};
use crate::status::Status;
use itoa::Buffer;
use net_streams::streams::{LineWriter, WriteFault};
use std::io::Write;
use tftp_judge::{AbortedBy, Meaning, Refusal, Rule, Verdict};

/// The status that goes with a text that is not accepted.
pub fn status_of(verdict: Verdict) -> Status
    ensures { result ≡ verdict_status verdict }
{
    match verdict {
        Verdict::Capture(_) | Verdict::Refused(Refusal::Memory(_)) => Status::Fault,
        Verdict::Refused(Refusal::Unlawful(..) | Refusal::Aborted(..)) => Status::Refused,
        Verdict::Refused(Refusal::Incomplete(_) | Refusal::NormalTooLong) => Status::Refused,
    }
}

/// Adds the line of a text that is not accepted.
pub fn put_verdict<W: Write>(writer: &mut LineWriter<W>, verdict: Verdict) -> Result<(), WriteFault>
    ensures adds { Adds W.contents writer.old writer.new result (verdict_line verdict) }
{
    match verdict {
        Verdict::Capture(fault) => put_fault(writer, fault),
        Verdict::Refused(refusal) => put_refusal(writer, refusal),
    }
}

/// Adds the line of a text that is accepted.
pub fn put_accepted<W: Write>(
    writer: &mut LineWriter<W>,
    meaning: &Meaning,
) -> Result<(), WriteFault>
    ensures adds { Adds W.contents writer.old writer.new result (accepted_line meaning.now) }
{
    let mut blocks_buffer = Buffer::new();
    let mut bytes_buffer = Buffer::new();
    writer.add_all(&[
        b"accepted ",
        side_name(meaning.request().side()),
        b" ",
        mode_name(meaning.request().mode()),
        b" blocks ",
        blocks_buffer.format(meaning.blocks()).as_bytes(),
        b" bytes ",
        bytes_buffer.format(meaning.file_len()).as_bytes(),
        b"\n",
    ])
}

fn put_refusal<W: Write>(writer: &mut LineWriter<W>, refusal: Refusal) -> Result<(), WriteFault>
    ensures adds { Adds W.contents writer.old writer.new result (refusal_line refusal) }
{
    match refusal {
        Refusal::Unlawful(index, rule) => put_unlawful(writer, index, rule),
        Refusal::Aborted(by, code) => put_aborted(writer, by, code),
        Refusal::Incomplete(count) => put_incomplete(writer, count),
        Refusal::NormalTooLong => writer.add(b"too long when normal\n"),
        Refusal::Memory(_) => writer.add(b"fault memory\n"),
    }
}

fn put_unlawful<W: Write>(
    writer: &mut LineWriter<W>,
    index: u64,
    rule: Rule,
) -> Result<(), WriteFault>
    ensures adds { Adds W.contents writer.old writer.new result (refusal_line (Refusal.Unlawful index rule)) }
{
    let mut index_buffer = Buffer::new();
    let mut number_buffer = Buffer::new();
    let (space, fault) = detail_of(rule);
    writer.add_all(&[
        b"refused datagram ",
        index_buffer.format(index).as_bytes(),
        b" rule ",
        number_buffer.format(rule.number()).as_bytes(),
        b" ",
        rule.name().as_bytes(),
        space,
        fault,
        b"\n",
    ])
}

/// What stands behind the rule's name: a space, and what is wrong with the payload, where that is the rule.
fn detail_of(rule: Rule) -> (&'static [u8], &'static [u8])
    ensures { result.0.now ++ result.1.now ≡ detail rule }
{
    match rule {
        Rule::Malformed(fault) => (b" ", packet_fault_name(fault)),
        _ => (b"", b""),
    }
}

#[tactic(auto, using(crate::proofs::AbortedLine::aborted_pieces))]
fn put_aborted<W: Write>(
    writer: &mut LineWriter<W>,
    by: AbortedBy,
    code: u16,
) -> Result<(), WriteFault>
    ensures adds { Adds W.contents writer.old writer.new result (refusal_line (Refusal.Aborted by code)) }
{
    let mut buffer = Buffer::new();
    writer.add_all(&[
        b"aborted by ",
        by_name(by),
        b" code ",
        buffer.format(code).as_bytes(),
        b"\n",
    ])
}

fn put_incomplete<W: Write>(writer: &mut LineWriter<W>, count: u64) -> Result<(), WriteFault>
    ensures adds { Adds W.contents writer.old writer.new result (refusal_line (Refusal.Incomplete count)) }
{
    let mut buffer = Buffer::new();
    writer.add_all(&[b"incomplete after ", buffer.format(count).as_bytes(), b"\n"])
}
