ghost use Rattle.std.specs.Prelude.{Ok};
ghost use Rattle.net_streams.specs.Streams.{Adds, IsFresh};
ghost use Rattle.tftp_commands.specs.Counted.{counted, counted_line};
ghost use Rattle.tftp_commands.specs.Outputs.{Prints};

use crate::output::write_out;
use crate::status::Status;
use itoa::Buffer;
use net_streams::streams::{LineWriter, WriteFault};
use std::io::Write;
use tftp_judge::Meaning;
use tftp_normal::normal_count;

/// Says how many datagrams the normal capture has.
pub fn say_counted<W: Write>(writer: &mut LineWriter<W>, meaning: &Meaning) -> Status
    requires fresh { IsFresh writer.old }
    ensures { Prints W.contents writer.old writer.new (counted (Ok meaning.now)) result }
{
    match put_count(writer, meaning) {
        Ok(()) => write_out(writer, Status::Success),
        Err(_) => Status::Fault,
    }
}

/// Adds the line of the count.
fn put_count<W: Write>(writer: &mut LineWriter<W>, meaning: &Meaning) -> Result<(), WriteFault>
    ensures adds { Adds W.contents writer.old writer.new result (counted_line meaning.now) }
{
    let mut buffer = Buffer::new();
    let number = buffer.format(normal_count(meaning));
    writer.add_all(&[b"normal datagrams ", number.as_bytes(), b"\n"])
}
