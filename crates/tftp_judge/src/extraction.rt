ghost use Rattle.std.specs.Prelude.{◌≡◌, ℕ, List, Some, true, false, Result, Ok};
ghost use Rattle.std.specs.Io.KnownBytes.{Consumes, IsAtEnd};
ghost use Rattle.law_model.specs.Model.{Meaning};
ghost use Rattle.tftp_judge.specs.Extracted.{Extracts, WritesFile};
ghost use Rattle.tftp_judge.specs.TextVerdict.{EndsText, IsReadVerdictBy, IsTextVerdictBy, SaysReadFailed};
ghost use Rattle.tftp_judge.specs.declared.verdict.Verdict.{Verdict as Refused};

use crate::text::judge_text;
use crate::verdict::Verdict;
use net_streams::streams::{Latched, LineWriter, WriteFault};
use std::alloc::Global;
use std::convert::From;
use std::io::{Read, Write};
use tftp_packet::rounds::Rollover;

/// Why a file was not written, or not whole.
#[derive(Clone, Copy, Debug, PartialEq, Eq)]
pub enum OutFault {
    /// The text is not accepted, and nothing was written.
    Verdict(Verdict),
    /// A write failed. A part of what waited and of the file, from their start, was written.
    Write,
}

impl From<Verdict> for OutFault {
    ghost use Rattle.std.specs.Prelude.{◌≡◌};
    ghost use Rattle.tftp_judge.specs.declared.extraction.OutFault.{OutFault};

    ghost from_gives = { λ verdict fault. fault ≡ OutFault.Verdict verdict };

    fn from(verdict: Verdict) -> Self {
        OutFault::Verdict(verdict)
    }
}

impl From<WriteFault> for OutFault {
    ghost use Rattle.std.specs.Prelude.{◌≡◌};
    ghost use Rattle.tftp_judge.specs.declared.extraction.OutFault.{OutFault};

    ghost from_gives = { λ _ fault. fault ≡ OutFault.Write };

    fn from(_fault: WriteFault) -> Self {
        OutFault::Write
    }
}

/// Writes the file of a capture text that is accepted, and nothing of any other (RFC 1350, section 1). The whole text is
/// judged before the first byte is written, by what comes after block 65535, where anything does.
pub fn extract<R: Read, W: Write>(
    alloc: Global,
    rollover: Option<Rollover>,
    reader: &mut Latched<R>,
    writer: &mut LineWriter<W>,
) -> Result<(), OutFault>
    requires reading { reader.old.1 ≡ false }
    ensures extracts { (read : List ℕ) × (said : Result Meaning Refused) × Consumes (R.remaining reader.old.0) (R.remaining reader.new.0) read
        × IsReadVerdictBy rollover read said × (EndsText said → IsAtEnd (R.remaining reader.new.0)) × (SaysReadFailed said → reader.new.1 ≡ true)
        × (reader.new.1 ≡ true → SaysReadFailed said) × Extracts W.contents writer.old writer.new said result }
    ensures whole { (text : List ℕ) → R.remaining reader.old.0 ≡ Some text → reader.new.1 ≡ false
        → (said : Result Meaning Refused) × IsTextVerdictBy rollover text said × Extracts W.contents writer.old writer.new said result }
    ensures exact { (text : List ℕ) (m : Meaning) → R.remaining reader.old.0 ≡ Some text → reader.new.1 ≡ false → IsTextVerdictBy rollover text (Ok m)
        → WritesFile W.contents writer.old writer.new m result }
{
    let meaning = judge_text(alloc, rollover, reader)?;
    let file = meaning.into_file();
    writer.write(file.as_slice())?;
    Ok(())
}
