//! One work of the libraries alone with what standard input has, so that it can be measured.

use crate::stores::{Order, fill_stores};
use crate::strays::count_strays;
use memchr::{memchr, memrchr};
use net_streams::streams::{Latched, LineWriter};
use net_udp::recording::{Event, Fate, RecordingReader};
use std::alloc::{AllocError, Global};
use std::io;
use std::io::{ErrorKind, Read, Write};
use tftp_capture::{CaptureReader, CaptureWriter, Datagram, Header};
use tftp_ends::blocks::{MapDelivered, RingDelivered};
use tftp_netascii::{Decoder, encode};
use tftp_packet::End;
use tftp_packet::hosts::Dir;

/// The most bytes that are read at once.
const PIECE: usize = 65_536;

/// How many bytes a large block has: 65,535 of them are 100 MB.
const LARGE: u16 = 1526;

/// How many bytes a small block has, the fewest that may be agreed (RFC 2348).
const SMALL: u16 = 8;

/// How many bytes the largest block has (RFC 2348).
const LARGEST: usize = 65_464;

/// The most datagrams that are written.
const MOST: u64 = 1 << 40;

/// What becomes of each piece of the input.
#[derive(Clone, Copy)]
enum Way {
    Decode,
    Encode,
    Copy,
}

/// Does the work that the word names: `netascii-decode`, `netascii-encode`, `copy`, `capture`, `recording`, `write`, `hex`,
/// `strays`, or a store and how it is filled, `map-large`, `map-small`, `map-reversed`, `ring-large`, `ring-small` or
/// `ring-reversed`.
pub fn work(rt: HostRuntime, word: &str) -> io::Result<()> {
    let alloc = rt.alloc();
    let mut reader = rt.reader();
    let mut writer = io::writer(&rt);
    match word {
        "netascii-decode" => translate(alloc, &mut reader, &mut writer, Way::Decode),
        "netascii-encode" => translate(alloc, &mut reader, &mut writer, Way::Encode),
        "copy" => translate(alloc, &mut reader, &mut writer, Way::Copy),
        "write" => {
            write_datagrams(alloc, &mut reader, writer)?;
            Ok(())
        }
        _ => {
            let (count, things) = counted(alloc, reader, word);
            println!(rt; "{} {things}", count?)
        }
    }
}

/// How many things a work that counts has found, and what they are.
fn counted<R: Read + Drop>(
    alloc: Global,
    mut reader: R,
    word: &str,
) -> (io::Result<u64>, &'static str) {
    match word {
        "capture" => (count_datagrams(alloc, reader), "datagrams"),
        "recording" => (count_recorded(alloc, reader), "datagrams"),
        "hex" => (decode_digits(alloc, &mut reader), "fields of digits"),
        "strays" => (count_strays(alloc, &mut reader), "datagrams of strays"),
        _ => (fill_named(alloc, &mut reader, word), "blocks"),
    }
}

/// Fills the stores that the word names: with large blocks or small ones in order, or with small ones in reversed
/// windows.
fn fill_named<R: Read>(alloc: Global, reader: &mut R, word: &str) -> io::Result<u64> {
    match word {
        "map-large" => fill_stores::<MapDelivered, R>(alloc, reader, LARGE, Order::Rising),
        "map-small" => fill_stores::<MapDelivered, R>(alloc, reader, SMALL, Order::Rising),
        "map-reversed" => fill_stores::<MapDelivered, R>(alloc, reader, SMALL, Order::Reversed),
        "ring-large" => fill_stores::<RingDelivered, R>(alloc, reader, LARGE, Order::Rising),
        "ring-small" => fill_stores::<RingDelivered, R>(alloc, reader, SMALL, Order::Rising),
        "ring-reversed" => fill_stores::<RingDelivered, R>(alloc, reader, SMALL, Order::Reversed),
        _ => Err(io::Error::from(ErrorKind::InvalidInput)),
    }
}

/// Writes what the input becomes, piece by piece. The pieces and what they become stand in the same
/// buffers, whatever the way; `encode` alone takes memory for each piece.
fn translate<R: Read, W: Write>(
    alloc: Global,
    reader: &mut R,
    writer: &mut W,
    way: Way,
) -> io::Result<()> {
    let mut piece = vec![in alloc; 0u8; PIECE]?;
    let mut out = Vec::with_capacity(alloc, 2 * PIECE)?;
    let mut decoder = Decoder::new();
    for _ in 0..u64::MAX {
        let count = reader.read(&mut piece)?;
        if count == 0 {
            break;
        }
        turn(alloc, &piece[..count], &mut out, &mut decoder, way)?;
        writer.write_all(&out)?;
        out.clear();
    }
    decoder.finish(&mut out)?;
    writer.write_all(&out)
}

/// Appends what a piece becomes; where it is encoded, puts that in its place.
fn turn(
    alloc: Global,
    piece: &[u8],
    out: &mut Vec<u8>,
    decoder: &mut Decoder,
    way: Way,
) -> Result<(), AllocError> {
    match way {
        Way::Decode => decoder.feed(piece, out)?,
        Way::Encode => *out = encode(alloc, piece)?,
        Way::Copy => out.extend_from_slice(piece)?,
    }
    Ok(())
}

/// How many datagrams the capture reader gives.
fn count_datagrams<R: Read + Drop>(alloc: Global, reader: R) -> io::Result<u64> {
    let mut reader = Latched::new(reader);
    let Ok(mut capture) = CaptureReader::begin(alloc, &mut reader) else {
        return Err(io::Error::from(ErrorKind::InvalidData));
    };
    let mut datagram = Datagram::empty(alloc);
    for count in 0..u64::MAX {
        match capture.next_into(&mut reader, &mut datagram) {
            Ok(true) => {}
            Ok(false) => return Ok(count),
            Err(_) => break,
        }
    }
    Err(io::Error::from(ErrorKind::InvalidData))
}

/// Counts the datagrams of a recording.
fn count_recorded<R: Read + Drop>(alloc: Global, reader: R) -> io::Result<u64> {
    let mut reader = Latched::new(reader);
    let Ok(mut recording) = RecordingReader::begin(alloc, &mut reader) else {
        return Err(io::Error::from(ErrorKind::InvalidData));
    };
    let mut event = Event::empty(alloc);
    let mut count: u64 = 0;
    for _ in 0..u64::MAX {
        match recording.next_into(alloc, &mut reader, &mut event) {
            Ok(true) => {}
            Ok(false) => return Ok(count),
            Err(_) => break,
        }
        if let Fate::Datagram(_) = event.fate() {
            count = count.saturating_add(1);
        }
    }
    Err(io::Error::from(ErrorKind::InvalidData))
}

/// Writes a capture whose datagrams carry the input, as many bytes each as a block may have at most (RFC 2348), and
/// counts them.
fn write_datagrams<R: Read, W: Write + Drop>(
    alloc: Global,
    reader: &mut R,
    writer: W,
) -> io::Result<u64> {
    let mut writer = LineWriter::new(alloc, writer);
    let header = Header {
        named: End::Client,
        service: 69,
        rollover: None,
    };
    let Ok(mut capture) = CaptureWriter::begin(&mut writer, &header) else {
        return Err(io::Error::from(ErrorKind::Other));
    };
    let mut piece = [0u8; LARGEST];
    for count in 0..MOST {
        let size = reader.read(&mut piece)?;
        if size == 0 {
            return match capture.close(&mut writer) {
                Ok(()) => Ok(count),
                Err(_) => Err(io::Error::from(ErrorKind::Other)),
            };
        }
        let payload = &piece[..size];
        if capture
            .put(&mut writer, Dir::In, 40_000, 41_000, payload)
            .is_err()
        {
            break;
        }
    }
    Err(io::Error::from(ErrorKind::Other))
}

/// Decodes the last field of each line by the hex crate into one buffer, and counts those that are
/// hex. Lines and fields are found by memchr, and nothing else is looked at. A line longer than two
/// pieces ends the work.
fn decode_digits<R: Read>(alloc: Global, reader: &mut R) -> io::Result<u64> {
    let mut held = vec![in alloc; 0u8; 2 * PIECE]?;
    let mut bytes = vec![in alloc; 0u8; PIECE]?;
    let mut len = 0;
    let mut fields = 0u64;
    for _ in 0..u64::MAX {
        let count = reader.read(&mut held[len..])?;
        if count == 0 {
            break;
        }
        len += count;
        let mut start = 0;
        while let Some(size) = memchr(b'\n', &held[start..len]) {
            if ends_in_hex(&held[start..start + size], &mut bytes) {
                fields = fields.saturating_add(1);
            }
            start += size + 1;
        }
        held.copy_within(start..len, 0);
        len -= start;
    }
    Ok(fields)
}

/// Whether the line's last field is hex, which is then decoded.
fn ends_in_hex(line: &[u8], bytes: &mut [u8]) -> bool {
    let Some(at) = memrchr(b' ', line) else {
        return false;
    };
    let digits = &line[at + 1..];
    let Some(out) = bytes.get_mut(..digits.len() / 2) else {
        return false;
    };
    hex::decode_to_slice(digits, out).is_ok()
}
