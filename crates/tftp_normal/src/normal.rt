//! The calls that write normal texts, and the one that counts.

ghost use Rattle.std.specs.Prelude.{◌≡◌, ◌++◌, ℕ, List, Option, Some, length, true, false, Result, Ok, Err, OnOk};
ghost use Rattle.std.specs.FinMap as map;
ghost use Rattle.std.specs.Io.KnownBytes.{Appends, Consumes, IsAtEnd};
ghost use Rattle.tftp_packet.specs.{Rollover as RolloverKind};
ghost use Rattle.law_model.specs.Model.{Meaning as Parts};
ghost use Rattle.law_end.specs.{IsWritable};
ghost use Rattle.tftp_judge.specs.{EndsText, IsReadVerdictBy, IsTextVerdictBy, NormalTooLong, Refused, SaysReadFailed, Verdict as VerdictKind};
ghost use Rattle.tftp_normal.specs.Accepted.{IsAcceptedBy};
ghost use Rattle.tftp_normal.specs.Normal.{normal_count as count_of, normal_datagrams_by, normal_text_by, opening_count};
ghost use Rattle.tftp_normal.specs.Normalised.{Normalises, WritesNormal};
ghost use Rattle.tftp_normal.specs.{NormalFault as NormalFaultKind};

use crate::fault::NormalFault;
use crate::transfer::{Transfer, window_size_of};
use crate::writing::write_normal;
use net_streams::streams::{Latched, LineWriter};
use std::alloc::Global;
use std::io::{Read, Write};
use tftp_judge::{Meaning, MeaningParts, Refusal, Verdict, judge_text};
use tftp_packet::Side;
use tftp_packet::rounds::{Rollover, greatest_block};

/// Writes the normal text of a meaning, and nothing else. It takes all memory that it needs before it writes, so with
/// `Memory` nothing was written. Blocks are numbered by what comes after block 65535, where anything does. It answers `Verdict`
/// only of a meaning of more blocks than are numbered then, 65535 or 8388607.
pub fn normal_capture<W: Write>(
    alloc: Global,
    rollover: Option<Rollover>,
    meaning: Meaning,
    writer: &mut LineWriter<W>,
) -> Result<(), NormalFault>
    ensures normalises { IsWritable rollover meaning → Normalises rollover W.contents writer.old writer.new (Ok meaning) result }
    ensures too_long { (IsWritable rollover meaning → ⊥) → (result ≡ Err (NormalFaultKind.Verdict (Refused NormalTooLong))) × (writer.new ≡ writer.old) }
{
    let MeaningParts {
        request,
        agreed,
        file,
        blocks,
    } = meaning.into_parts();
    if blocks > greatest_block(rollover) {
        return Err(NormalFault::Verdict(Verdict::Refused(Refusal::NormalTooLong)));
    }
    let transfer = Transfer::of(&request, &agreed, &file, blocks);
    write_normal(alloc, rollover, &transfer, writer)
}

/// Writes the normal text of a capture text that is accepted, and nothing of any other. The whole text is judged, and all
/// memory is taken, before the first byte is written. It is judged and written by what comes after block 65535, where anything does.
pub fn normalise<R: Read, W: Write>(
    alloc: Global,
    rollover: Option<Rollover>,
    reader: &mut Latched<R>,
    writer: &mut LineWriter<W>,
) -> Result<(), NormalFault>
    requires reading { reader.old.1 ≡ false }
    ensures normalises { (read : List ℕ) × (said : Result Parts VerdictKind) × Consumes (R.remaining reader.old.0) (R.remaining reader.new.0) read
        × IsReadVerdictBy rollover read said × (EndsText said → IsAtEnd (R.remaining reader.new.0)) × (SaysReadFailed said → reader.new.1 ≡ true)
        × (reader.new.1 ≡ true → SaysReadFailed said) × Normalises rollover W.contents writer.old writer.new said result }
    ensures whole { (text : List ℕ) → R.remaining reader.old.0 ≡ Some text → reader.new.1 ≡ false
        → (said : Result Parts VerdictKind) × IsTextVerdictBy rollover text said × Normalises rollover W.contents writer.old writer.new said result }
    ensures accepted { (text : List ℕ) → R.remaining reader.old.0 ≡ Some text
        → OnOk result ((m : Parts) × IsAcceptedBy rollover text m × Appends (W.contents writer.old.inner) (W.contents writer.new.inner) (writer.old.waits ++ normal_text_by rollover m)) }
    ensures exact { (text : List ℕ) (m : Parts) → R.remaining reader.old.0 ≡ Some text → reader.new.1 ≡ false → IsAcceptedBy rollover text m
        → WritesNormal rollover W.contents writer.old writer.new m result }
{
    let meaning = judge_text(alloc, rollover, reader)?;
    normal_capture(alloc, rollover, meaning, writer)
}

/// How many datagrams the normal capture of a meaning has, whatever comes after block 65535. It takes no memory.
pub fn normal_count(meaning: &Meaning) -> u64
    ensures count { result ≡ count_of meaning.now }
    ensures datagrams { (rollover : Option RolloverKind) → result ≡ length (normal_datagrams_by rollover meaning.now) }
{
    let blocks = u64::from(meaning.blocks());
    opening_len(meaning) + blocks + blocks.div_ceil(window_size_of(meaning.agreed()))
}

/// How many datagrams pass before the first block.
fn opening_len(meaning: &Meaning) -> u64
    ensures { result ≡ opening_count meaning.now.side (map.len meaning.now.agreed) }
{
    match (meaning.request().side(), meaning.agreed().is_empty()) {
        (Side::Get, true) => 1,
        (Side::Get, false) => 3,
        (Side::Put, _) => 2,
    }
}
