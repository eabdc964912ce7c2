ghost use Rattle.std.specs.Prelude.{◌≡◌, ℕ, List, Some, false, map};
ghost use Rattle.std.specs.Io.KnownBytes.{Consumes};
ghost use Rattle.net_streams.specs.Streams.{IsFresh};
ghost use Rattle.tftp_commands.specs.Outputs.{Output, Prints};
ghost use Rattle.tftp_commands.specs.Run.{IsOutput};
ghost use Rattle.tftp_commands.specs.Sources.{given, so_far};
ghost use Rattle.tftp_commands.specs.Words.{IsNoCommand};

use crate::command::run_command;
use crate::output::say;
use crate::status::Status;
use crate::words::{UsageFault, action_of};
use net_streams::streams::{Latched, LineWriter};
use std::alloc::Global;
use std::convert::AsStr;
use std::io::{Read, Write};

/// Runs the command that the words name, the first of which is the program's name: reads a capture text, and writes
/// lines, a file or a normal text. After a write that fails nothing more is written.
pub fn run<S: AsStr, R: Read, W: Write>(
    alloc: Global,
    words: &[S],
    reader: &mut Latched<R>,
    writer: &mut LineWriter<W>,
) -> Status
    requires reading { reader.old.1 ≡ false }
    requires fresh { IsFresh writer.old }

    // Whatever the reader, the writer and the memory do: bytes were read, and the output is one that there is of the
    // words and of these. It was written, and its status is the run's; or, where a write failed, a part of it was. Of a
    // command it is out of memory's only before any byte was read, or for the last datagram on the lines that were taken;
    // or where `normal` was to write what is accepted.
    ensures said { (read : List ℕ) × (output : Output) × Consumes (R.remaining reader.old.0) (R.remaining reader.new.0) read
        × IsOutput (map S.text words.now) (so_far read (R.remaining reader.new.0) reader.new.1) writer.new.failed output
        × Prints W.contents writer.old writer.new output result }

    // Where no read fails, it is the output on exactly the text that the reader had.
    ensures whole { (text : List ℕ) → R.remaining reader.old.0 ≡ Some text → reader.new.1 ≡ false
        → (output : Output) × IsOutput (map S.text words.now) (given text) writer.new.failed output
        × Prints W.contents writer.old writer.new output result }

    // Where the words are no command, nothing is read. Their output is that of a usage fault, whatever the memory does.
    ensures untouched { IsNoCommand (map S.text words.now) → reader.new ≡ reader.old }
{
    match action_of(alloc, words) {
        Ok(action) => run_command(alloc, action, reader, writer),
        Err(UsageFault::Usage) => say(writer, b"fault usage\n"),
        Err(UsageFault::Memory) => say(writer, b"fault memory\n"),
        Err(UsageFault::Silent) => Status::Fault,
    }
}
