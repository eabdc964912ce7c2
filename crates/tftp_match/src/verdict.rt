//! The verdict on one capture, in words.

ghost use Rattle.std.specs.Prelude.{◌≡◌, IfOk};
ghost use Rattle.net_streams.specs.Streams.{IsFresh};
ghost use Rattle.tftp_commands.specs.{Prints, checked};

use net_streams::streams::{LineWriter, WriteFault};
use std::alloc::{AllocError, Global};
use std::io::Write;
use tftp_commands::{Status, say_accepted, say_verdict};
use tftp_judge::{Meaning, Verdict};

/// The line of one capture alone, with its LF.
pub fn verdict_line(alloc: Global, said: &Result<Meaning, Verdict>) -> Result<Vec<u8>, AllocError>
    ensures { IfOk result (λ line. line.items ≡ (checked said.now).bytes) }
{
    let mut writer = LineWriter::new(alloc, Vec::new(alloc));
    say_one(&mut writer, said);
    match writer.finish() {
        (line, Ok(())) => Ok(line),
        (_, Err(WriteFault)) => Err(AllocError),
    }
}

/// Says the line of one capture.
fn say_one<W: Write>(writer: &mut LineWriter<W>, said: &Result<Meaning, Verdict>) -> Status
    requires fresh { IsFresh writer.old }
    ensures { Prints W.contents writer.old writer.new (checked said.now) result }
{
    match said {
        Ok(meaning) => say_accepted(writer, meaning),
        Err(verdict) => say_verdict(writer, *verdict),
    }
}
