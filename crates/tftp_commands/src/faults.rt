ghost use Rattle.std.specs.Prelude.{◌≡◌, ◌++◌};
ghost use Rattle.net_streams.specs.Streams.{Adds};
ghost use Rattle.tftp_commands.specs.Outputs.{fault_line};

use crate::names::text_fault_name;
use itoa::Buffer;
use net_streams::streams::{LineWriter, WriteFault};
use std::io::Write;
use tftp_capture::CaptureFault;

/// Adds the line of a fault.
pub fn put_fault<W: Write>(
    writer: &mut LineWriter<W>,
    fault: CaptureFault,
) -> Result<(), WriteFault>
    ensures adds { Adds W.contents writer.old writer.new result (fault_line fault) }
{
    let mut buffer = Buffer::new();
    match fault {
        CaptureFault::Text(line, fault) => writer.add_all(&[
            b"fault line ",
            buffer.format(line).as_bytes(),
            b" ",
            text_fault_name(fault),
            b"\n",
        ]),
        CaptureFault::Read(line) => writer.add_all(&[
            b"fault line ",
            buffer.format(line).as_bytes(),
            b" Read\n",
        ]),
        CaptureFault::Memory(_) => writer.add(b"fault memory\n"),
    }
}
