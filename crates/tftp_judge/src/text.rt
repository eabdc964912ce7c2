ghost use Rattle.std.specs.Prelude.{◌≡◌, ◌⊎◌, ℕ, List, Some, true, false, Result};
ghost use Rattle.std.specs.Io.KnownBytes.{Consumes, IsAtEnd};
ghost use Rattle.law_model.specs.Model.{Meaning as MeaningParts};
ghost use Rattle.tftp_capture.specs.{header_of};
ghost use Rattle.tftp_judge.specs.TakenAs.{header_by};
ghost use Rattle.tftp_judge.specs.TextVerdict.{EndsText, IsOfText, IsReadVerdictBy, IsTextVerdictBy, SaysReadFailed, WantsMemory};
ghost use Rattle.tftp_judge.specs.declared.verdict.Verdict.{Verdict as VerdictKind};

use crate::judging::Judge;
use crate::meaning::Meaning;
use crate::verdict::Verdict;
use net_streams::streams::Latched;
use std::alloc::Global;
use std::io::Read;
use tftp_capture::{CaptureReader, Datagram, Header};
use tftp_ends::blocks::RingDelivered;
use tftp_packet::rounds::Rollover;

/// What a capture text means, or why it is not accepted, by the runs of two ends (RFC 1350; RFC 2347; RFC 7440): the first
/// unlawful datagram on the lines before the text's first fault, else that fault, else what there is to say of its
/// datagrams. A fault is the text's first, a failed read, or being out of memory, with its line, counted from 1; where it is the
/// judge that wants memory, how many datagrams came before is told in place of the line. Each datagram is judged when it is
/// read, and nothing is read after a refusal. The text may have 2^40 bytes; held are the blocks, a
/// line and the datagram on it, into whose memory the next one is read. A text does not say what comes after block 65535:
/// none does where `rollover` says nothing, and else each number is the block near the highest that has passed.
pub fn judge_text<R: Read>(
    alloc: Global,
    rollover: Option<Rollover>,
    reader: &mut Latched<R>,
) -> Result<Meaning, Verdict>
    requires clean { reader.old.1 ≡ false }
    ensures judged { (read : List ℕ) × Consumes (R.remaining reader.old.0) (R.remaining reader.new.0) read × IsReadVerdictBy rollover read result }
    ensures ended { EndsText result → IsAtEnd (R.remaining reader.new.0) }
    ensures read { SaysReadFailed result → reader.new.1 ≡ true }
    ensures tally { reader.new.1 ≡ true → SaysReadFailed result }
    ensures whole { (text : List ℕ) → R.remaining reader.old.0 ≡ Some text → reader.new.1 ≡ false → IsTextVerdictBy rollover text result }
    ensures exact { (text : List ℕ) (said : Result MeaningParts VerdictKind) → R.remaining reader.old.0 ≡ Some text → reader.new.1 ≡ false
        → IsOfText said → IsTextVerdictBy rollover text said → (result ≡ said) ⊎ WantsMemory result }
{
    let mut capture = CaptureReader::begin(alloc, reader)?;
    let header = with_rollover(capture.header(), rollover);
    let mut judge: Judge<RingDelivered> = Judge::new(alloc, &header);
    let mut datagram = Datagram::empty(alloc);
    while capture.next_into(reader, &mut datagram)? {
        judge.take(alloc, rollover, &datagram)?;
    }
    Ok(judge.finish(alloc)?)
}

/// The header of a text, with what comes after block 65535 where anything does.
fn with_rollover(header: &Header, rollover: Option<Rollover>) -> Header
    ensures { header_of result ≡ header_by rollover (header_of header.now) }
{
    match rollover {
        None => *header,
        Some(_) => Header {
            rollover,
            ..*header
        },
    }
}
