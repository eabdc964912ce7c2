//! The normal capture, written datagram by datagram.

ghost use Rattle.std.specs.Prelude.{◌≡◌, ◌≢◌, ◌+◌, ◌-◌, ◌*◌, ◌^◌, ◌≤◌, [], ◌∷◌, ◌++◌, length, drop, true, false, Ok, OnOk, None};
ghost use Rattle.std.specs.FinMap as map;
ghost use Rattle.tftp_packet.specs.{Message, canonical, End};
ghost use Rattle.tftp_packet.specs.Rounds.{greatest_of};
ghost use Rattle.net_streams.specs.Streams.{Writes};
ghost use Rattle.law_model.specs.Model.{Meaning, request_of, blksize_of, windowsize_of};
ghost use Rattle.law_model.specs.Model.Machines.{sender_of};
ghost use Rattle.law_end.specs.{wire_of, blocks_of, CanBeWritten};
ghost use Rattle.tftp_normal.specs.Normal.{opening, blocks_after, windows_after, windows_of, normal_count, normal_text_by, number_by};
ghost use Rattle.tftp_normal.specs.Normalised.{Normalises};
ghost use Rattle.tftp_normal.specs.Writing.{asked_by, dir_from, sent_by, datagrams_of, Puts};

use crate::data_packets::DataPackets;
use crate::fault::NormalFault;
use crate::numbers::number_of;
use crate::transfer::Transfer;
use net_streams::streams::{LineWriter, WriteFault};
use std::alloc::Global;
use std::io::Write;
use tftp_capture::{CaptureWriter, Header};
use tftp_packet::hosts::Dir;
use tftp_packet::rounds::Rollover;
use tftp_packet::{End, Side};

/// The client's own port.
const CLIENT_PORT: u16 = 50_000;

/// The server's own port (RFC 1350, section 4).
const SERVER_PORT: u16 = 50_001;

/// The port at which a server is asked (RFC 1350, section 4).
const SERVICE_PORT: u16 = 69;

/// The acknowledgement of block 0, as one number, so that its bytes are stored at once (RFC 1350, section 5).
const ACK: u32 = 4 << 16;

/// Which way a datagram of this end goes, at the client.
fn dir_from(author: End) -> Dir
    ensures { result ≡ dir_from author }
{
    match author {
        End::Client => Dir::Out,
        End::Server => Dir::In,
    }
}

/// Puts a datagram between the two ends' own ports.
#[tactic(auto, using(crate::proofs::Putting::put_one))]
fn put_from<W: Write>(
    author: End,
    payload: &[u8],
    capture: &mut CaptureWriter,
    writer: &mut LineWriter<W>,
) -> Result<(), WriteFault>
    requires few { capture.old + 1 ≤ 2 ^ 40 }
    requires short { length payload.now ≤ 65527 }
    ensures { Puts W.contents writer.old writer.new result capture.old capture.new (sent_by author payload.now ∷ []) }
{
    capture.put(writer, dir_from(author), CLIENT_PORT, SERVER_PORT, payload)
}

/// Puts a DATA packet between the two ends' own ports, with its block where it lies.
#[tactic(auto, using(crate::proofs::Putting::put_one))]
fn put_data<W: Write>(
    author: End,
    head: &[u8],
    block: &[u8],
    capture: &mut CaptureWriter,
    writer: &mut LineWriter<W>,
) -> Result<(), WriteFault>
    requires few { capture.old + 1 ≤ 2 ^ 40 }
    requires short { length (head.now ++ block.now) ≤ 65527 }
    ensures { Puts W.contents writer.old writer.new result capture.old capture.new (sent_by author (head.now ++ block.now) ∷ []) }
{
    capture.put_parts(
        writer,
        dir_from(author),
        CLIENT_PORT,
        SERVER_PORT,
        head,
        block,
    )
}

/// Puts the acknowledgement with this number (RFC 1350, section 5).
fn put_ack<W: Write>(
    author: End,
    number: u16,
    capture: &mut CaptureWriter,
    writer: &mut LineWriter<W>,
) -> Result<(), WriteFault>
    requires few { capture.old + 1 ≤ 2 ^ 40 }
    ensures { Puts W.contents writer.old writer.new result capture.old capture.new (sent_by author (canonical (Message.Ack number)) ∷ []) }
{
    let payload = (ACK + u32::from(number)).to_be_bytes();
    put_from(author, &payload, capture, writer)
}

/// Puts the blocks of a window, after one block and up to another.
fn put_blocks<W: Write>(
    rollover: Option<Rollover>,
    transfer: &Transfer<'_>,
    packets: &mut DataPackets<'_>,
    acked: u32,
    last: u32,
    capture: &mut CaptureWriter,
    writer: &mut LineWriter<W>,
) -> Result<(), WriteFault>
    requires clean { writer.old.failed ≡ false }
    requires order { acked ≤ last }
    requires numbered { last ≤ greatest_of rollover }
    requires few { capture.old + (last - acked) ≤ 2 ^ 40 }
    requires size { packets.old.size ≡ blksize_of transfer.now }
    requires left { packets.old.left ≡ drop (acked * blksize_of transfer.now) (wire_of transfer.now) }
    ensures puts { Puts W.contents writer.old writer.new result capture.old capture.new (datagrams_of rollover transfer.now (blocks_after acked (last - acked))) }
    ensures size { packets.new.size ≡ packets.old.size }
    ensures left { OnOk result (packets.new.left ≡ drop (last * blksize_of transfer.now) (wire_of transfer.now)) }
{
    let author = match transfer.side() {
        Side::Get => End::Server,
        Side::Put => End::Client,
    };
    let mut block = acked;
    while block < last {
        block += 1;
        packets.fill(number_of(rollover, block));
        put_data(author, packets.head(), packets.block(), capture, writer)?;
    }
    Ok(())
}

/// Puts the windows one after another, each with the acknowledgement of its last block (RFC 7440, section 4).
fn put_windows<W: Write>(
    rollover: Option<Rollover>,
    transfer: &Transfer<'_>,
    packets: &mut DataPackets<'_>,
    capture: &mut CaptureWriter,
    writer: &mut LineWriter<W>,
) -> Result<(), WriteFault>
    requires clean { writer.old.failed ≡ false }
    requires window { 1 ≤ windowsize_of transfer.now }
    requires numbered { blocks_of transfer.now ≤ greatest_of rollover }
    requires few { capture.old + length (datagrams_of rollover transfer.now (windows_after (windowsize_of transfer.now) (blocks_of transfer.now) 0 (windows_of transfer.now))) ≤ 2 ^ 40 }
    requires size { packets.old.size ≡ blksize_of transfer.now }
    requires left { packets.old.left ≡ wire_of transfer.now }
    ensures { Puts W.contents writer.old writer.new result capture.old capture.new (datagrams_of rollover transfer.now (windows_after (windowsize_of transfer.now) (blocks_of transfer.now) 0 (windows_of transfer.now))) }
{
    let author = match transfer.side() {
        Side::Get => End::Client,
        Side::Put => End::Server,
    };
    let mut acked = 0;
    while acked < transfer.blocks() {
        let last = transfer.window_end(acked);
        put_blocks(rollover, transfer, packets, acked, last, capture, writer)?;
        put_ack(author, number_of(rollover, last), capture, writer)?;
        acked = last;
    }
    Ok(())
}

/// Puts the request and what answers it (RFC 1350, section 4; RFC 2347), of which an ACK is of block 0.
fn put_opening<W: Write>(
    transfer: &Transfer<'_>,
    request: &[u8],
    oack: &[u8],
    capture: &mut CaptureWriter,
    writer: &mut LineWriter<W>,
) -> Result<(), WriteFault>
    requires few { capture.old + 3 ≤ 2 ^ 40 }
    requires request { request.now ≡ canonical (Message.Request (request_of transfer.now)) }
    requires request_short { length request.now ≤ 65527 }
    requires oack { oack.now ≡ canonical (Message.Oack transfer.now.agreed) }
    requires oack_short { map.len transfer.now.agreed ≢ 0 → length oack.now ≤ 65527 }
    ensures { Puts W.contents writer.old writer.new result capture.old capture.new (datagrams_of None transfer.now (opening transfer.now)) }
{
    put_request(request, capture, writer)?;
    match (transfer.side(), transfer.is_plain()) {
        (Side::Get, true) => Ok(()),
        (Side::Get, false) => {
            put_from(End::Server, oack, capture, writer)?;
            put_ack(End::Client, 0, capture, writer)
        }
        (Side::Put, true) => put_ack(End::Server, 0, capture, writer),
        (Side::Put, false) => put_from(End::Server, oack, capture, writer),
    }
}

/// Puts the request, which goes to the service port.
#[tactic(auto, using(crate::proofs::Putting::put_one))]
fn put_request<W: Write>(
    request: &[u8],
    capture: &mut CaptureWriter,
    writer: &mut LineWriter<W>,
) -> Result<(), WriteFault>
    requires few { capture.old + 1 ≤ 2 ^ 40 }
    requires short { length request.now ≤ 65527 }
    ensures { Puts W.contents writer.old writer.new result capture.old capture.new (asked_by request.now ∷ []) }
{
    capture.put(writer, Dir::Out, CLIENT_PORT, SERVICE_PORT, request)
}

/// Writes a normal capture whose packets are at hand. It wants no memory.
fn write_capture<W: Write>(
    rollover: Option<Rollover>,
    transfer: &Transfer<'_>,
    request: &[u8],
    oack: &[u8],
    packets: &mut DataPackets<'_>,
    writer: &mut LineWriter<W>,
) -> Result<(), WriteFault>
    requires window { 1 ≤ windowsize_of transfer.now }
    requires numbered { blocks_of transfer.now ≤ greatest_of rollover }
    requires few { normal_count transfer.now ≤ 2 ^ 24 + 1 }
    requires size { packets.old.size ≡ blksize_of transfer.now }
    requires left { packets.old.left ≡ wire_of transfer.now }
    requires request { request.now ≡ canonical (Message.Request (request_of transfer.now)) }
    requires request_short { length request.now ≤ 65527 }
    requires oack { oack.now ≡ canonical (Message.Oack transfer.now.agreed) }
    requires oack_short { map.len transfer.now.agreed ≢ 0 → length oack.now ≤ 65527 }
    ensures { Writes W.contents writer.old writer.new result (normal_text_by rollover transfer.now) }
{
    let header = Header {
        named: End::Client,
        service: SERVICE_PORT,
        rollover: None,
    };
    let mut capture = CaptureWriter::begin(writer, &header)?;
    put_opening(transfer, request, oack, &mut capture, writer)?;
    put_windows(rollover, transfer, packets, &mut capture, writer)?;
    capture.close(writer)
}

/// Writes the normal capture of a transfer. It takes all memory that it needs before it writes.
pub(crate) fn write_normal<W: Write>(
    alloc: Global,
    rollover: Option<Rollover>,
    transfer: &Transfer<'_>,
    writer: &mut LineWriter<W>,
) -> Result<(), NormalFault>
    requires can { CanBeWritten rollover transfer.now }
    ensures normalises { Normalises rollover W.contents writer.old writer.new (Ok transfer.now) result }
{
    let request = transfer.request_payload(alloc)?;
    let oack = transfer.oack_payload(alloc)?;
    let mut packets = DataPackets::new(alloc, transfer.wire(), transfer.block_size())?;
    write_capture(
        rollover,
        transfer,
        request.as_slice(),
        oack.as_slice(),
        &mut packets,
        writer,
    )?;
    Ok(())
}
