ghost use Rattle.std.specs.Prelude.{◌≡◌, false};
ghost use Rattle.net_streams.specs.Streams.{IsFresh};
ghost use Rattle.tftp_commands.specs.Outputs.{Output, Prints};

use crate::status::Status;
use net_streams::streams::LineWriter;
use std::io::Write;

/// Writes what waits, and answers the status, or that of a fault where a write failed.
pub fn write_out<W: Write>(writer: &mut LineWriter<W>, status: Status) -> Status
    requires clean { writer.old.failed ≡ false }
    ensures { Prints W.contents writer.old writer.new (record { bytes = writer.old.waits; status = status }) result }
{
    match writer.flush() {
        Ok(()) => status,
        Err(_) => Status::Fault,
    }
}

/// Writes the line of a fault.
pub fn say<W: Write>(writer: &mut LineWriter<W>, line: &[u8]) -> Status
    requires fresh { IsFresh writer.old }
    ensures { Prints W.contents writer.old writer.new (record { bytes = line.now; status = Status.Fault }) result }
{
    match writer.write(line) {
        Ok(()) | Err(_) => Status::Fault,
    }
}
