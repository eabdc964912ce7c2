ghost use Rattle.std.specs.Prelude.{Ok, Err};
ghost use Rattle.net_streams.specs.Streams.{IsFresh};
ghost use Rattle.tftp_commands.specs.Checked.{checked};
ghost use Rattle.tftp_commands.specs.Outputs.{Prints};

use crate::output::write_out;
use crate::status::Status;
use crate::verdicts::{put_accepted, put_verdict, status_of};
use net_streams::streams::LineWriter;
use std::io::Write;
use tftp_judge::{Meaning, Verdict};

/// Says what a text means that is accepted.
pub fn say_accepted<W: Write>(writer: &mut LineWriter<W>, meaning: &Meaning) -> Status
    requires fresh { IsFresh writer.old }
    ensures { Prints W.contents writer.old writer.new (checked (Ok meaning.now)) result }
{
    match put_accepted(writer, meaning) {
        Ok(()) => write_out(writer, Status::Success),
        Err(_) => Status::Fault,
    }
}

/// Says why a text is not accepted.
pub fn say_verdict<W: Write>(writer: &mut LineWriter<W>, verdict: Verdict) -> Status
    requires fresh { IsFresh writer.old }
    ensures { Prints W.contents writer.old writer.new (checked (Err verdict)) result }
{
    match put_verdict(writer, verdict) {
        Ok(()) => write_out(writer, status_of(verdict)),
        Err(_) => Status::Fault,
    }
}
