ghost use Rattle.std.specs.Prelude.{◌≡◌, ◌<◌, ◌^◌, ◌++◌, ℕ, List, [], true, false, codes, decimal, OnOk};
ghost use Rattle.tftp_packet.specs.{meaning};
ghost use Rattle.tftp_capture.specs.{datagram_of};
ghost use Rattle.net_streams.specs.Streams.{Adds, IsFresh};
ghost use Rattle.tftp_commands.specs.Beside.{beside, block_text};
ghost use Rattle.tftp_commands.specs.Outputs.{Prints};
ghost use Rattle.tftp_commands.specs.Running.{Runs};
ghost use Rattle.tftp_commands.specs.Shown.{message_text, ending_of, last_line, status_of, IsDatagramLine, IsPayloadText, IsShown};

use crate::faults::put_fault;
use crate::names::{dir_name, packet_fault_name, request_name};
use crate::numbers::Numbers;
use crate::output::write_out;
use crate::status::Status;
use itoa::Buffer;
use net_streams::streams::{Latched, LineWriter, WriteFault};
use std::alloc::Global;
use std::io::{Read, Write};
use tftp_capture::{CaptureFault, CaptureReader, Datagram};
use tftp_packet::rounds::Rollover;
use tftp_packet::{Packet, read_packet};

/// Shows the datagrams of a capture text, up to its end or its first fault, as they come: a line each, numbered from
/// 1. Nothing is judged. Where numbers begin again after block 65535, the block that a number is of stands beside it, if
/// it is another than the number. At most one line of the text, 65,536 bytes read ahead and 16,384 bytes to be written
/// are held. Where the next datagram may have to be waited for, as from a pipe, nothing is held back.
pub fn show<R: Read, W: Write>(
    alloc: Global,
    rollover: Option<Rollover>,
    reader: &mut Latched<R>,
    writer: &mut LineWriter<W>,
) -> Status
    requires reading { reader.old.1 ≡ false }
    requires fresh { IsFresh writer.old }
    ensures { Runs R.remaining W.contents (λ source. IsShown rollover source writer.new.failed) reader.old reader.new writer.old writer.new result }
{
    let mut capture = match CaptureReader::begin(alloc, reader) {
        Ok(capture) => capture,
        Err(fault) => return finish(writer, Some(fault)),
    };
    let mut numbers = Numbers::new(rollover, capture.header());
    let mut datagram = Datagram::empty(alloc);
    let mut number = 0;
    loop {
        match capture.next_into(reader, &mut datagram) {
            Ok(true) => {}
            Ok(false) => return finish(writer, None),
            Err(fault) => return finish(writer, Some(fault)),
        }
        number += 1;
        let wait = capture.may_wait();
        if show_datagram(writer, number, &numbers, &datagram, wait).is_err() {
            return Status::Fault;
        }
        numbers.pass(&datagram);
    }
}

/// Adds the line of the datagram with this number; before a wait all is written.
fn show_datagram<W: Write>(
    writer: &mut LineWriter<W>,
    number: u64,
    numbers: &Numbers,
    datagram: &Datagram,
    wait: bool,
) -> Result<(), WriteFault>
    requires few { numbers.now.highest < 2 ^ 60 }
    ensures adds { (line : List ℕ) × IsDatagramLine numbers.now.rollover numbers.now.highest number (datagram_of datagram.now) line × Adds W.contents writer.old writer.new result line }
    ensures early { wait ≡ true → OnOk result (writer.new.waits ≡ []) }
{
    put_datagram(writer, number, numbers, datagram)?;
    if wait {
        return writer.flush();
    }
    Ok(())
}

/// Adds the line of the fault, if there is one, and writes what waits.
fn finish<W: Write>(writer: &mut LineWriter<W>, fault: Option<CaptureFault>) -> Status
    requires clean { writer.old.failed ≡ false }
    ensures { Prints W.contents writer.old writer.new
        (record { bytes = writer.old.waits ++ last_line (ending_of fault); status = status_of (ending_of fault) }) result }
{
    let Some(fault) = fault else {
        return write_out(writer, Status::Success);
    };
    match put_fault(writer, fault) {
        Ok(()) => write_out(writer, Status::Fault),
        Err(_) => Status::Fault,
    }
}

/// Adds the line of the datagram with this number.
fn put_datagram<W: Write>(
    writer: &mut LineWriter<W>,
    number: u64,
    numbers: &Numbers,
    datagram: &Datagram,
) -> Result<(), WriteFault>
    requires few { numbers.now.highest < 2 ^ 60 }
    ensures adds { (line : List ℕ) × IsDatagramLine numbers.now.rollover numbers.now.highest number (datagram_of datagram.now) line × Adds W.contents writer.old writer.new result line }
{
    let packet = read_packet(datagram.payload.as_slice());
    let mut buffer = Buffer::new();
    writer.add_all(&[
        buffer.format(number).as_bytes(),
        b" ",
        dir_name(datagram.dir),
        b" ",
    ])?;
    match packet {
        Ok(packet) => put_packet(writer, numbers, &packet),
        Err(fault) => writer.add_all(&[b"malformed ", packet_fault_name(fault), b"\n"]),
    }
}

/// Adds what there is to say of a packet, and the line's end.
fn put_packet<W: Write>(
    writer: &mut LineWriter<W>,
    numbers: &Numbers,
    packet: &Packet<'_>,
) -> Result<(), WriteFault>
    requires few { numbers.now.highest < 2 ^ 60 }
    ensures adds { Adds W.contents writer.old writer.new result
        (message_text (meaning packet.now) ++ beside numbers.now.rollover numbers.now.highest (meaning packet.now) ++ codes "\n") }
{
    match packet {
        Packet::Request(request) => writer.add_all(&[request_name(request.side()), b"\n"]),
        Packet::Data { block, bytes } => {
            put_data(writer, *block, bytes.len(), numbers.other_block(*block))
        }
        Packet::Ack { block } => put_ack(writer, *block, numbers.other_block(*block)),
        Packet::Error { code, message: _ } => put_error(writer, *code),
        Packet::Oack(_) => writer.add(b"OACK\n"),
    }
}

/// Adds what there is to say of a block, and the line's end; the length is that of its data.
fn put_data<W: Write>(
    writer: &mut LineWriter<W>,
    number: u32,
    length: usize,
    block: Option<u64>,
) -> Result<(), WriteFault>
    ensures adds { Adds W.contents writer.old writer.new result
        (codes "DATA " ++ decimal number ++ codes " " ++ decimal length ++ block_text block ++ codes "\n") }
{
    let mut number_buffer = Buffer::new();
    let mut length_buffer = Buffer::new();
    let mut block_buffer = Buffer::new();
    let (word, block) = block_words(block, &mut block_buffer);
    writer.add_all(&[
        b"DATA ",
        number_buffer.format(number).as_bytes(),
        b" ",
        length_buffer.format(length).as_bytes(),
        word,
        block,
        b"\n",
    ])
}

/// Adds what there is to say of an ACK, and the line's end.
fn put_ack<W: Write>(
    writer: &mut LineWriter<W>,
    number: u32,
    block: Option<u64>,
) -> Result<(), WriteFault>
    ensures adds { Adds W.contents writer.old writer.new result (codes "ACK " ++ decimal number ++ block_text block ++ codes "\n") }
{
    let mut number_buffer = Buffer::new();
    let mut block_buffer = Buffer::new();
    let (word, block) = block_words(block, &mut block_buffer);
    writer.add_all(&[
        b"ACK ",
        number_buffer.format(number).as_bytes(),
        word,
        block,
        b"\n",
    ])
}

/// What names a block: a word, and its number.
fn block_words(block: Option<u64>, buffer: &mut Buffer) -> (&'static [u8], &[u8])
    ensures { result.0.now ++ result.1.now ≡ block_text block }
{
    match block {
        Some(block) => (b" block ", buffer.format(block).as_bytes()),
        None => (b"", b""),
    }
}

/// Adds what there is to say of an ERROR, and the line's end.
fn put_error<W: Write>(writer: &mut LineWriter<W>, code: u16) -> Result<(), WriteFault>
    ensures adds { Adds W.contents writer.old writer.new result (codes "ERROR " ++ decimal code ++ codes "\n") }
{
    let mut buffer = Buffer::new();
    writer.add_all(&[b"ERROR ", buffer.format(code).as_bytes(), b"\n"])
}
