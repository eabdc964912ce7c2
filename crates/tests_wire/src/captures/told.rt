//! Datagrams that are read into one that is held, whose memory is used again: what is told of them.

use crate::captures::outcomes::{Outcome, read_out};
use crate::captures::reading::Reading;
use crate::captures::texts::{BLOCKS, Line, changed};
use crate::trials::comparing::is_so;
use crate::trials::drip::DripReader;
use crate::trials::texts::{NAMED, READ, long};
use std::alloc::{AllocError, Global};
use std::test::Fail;
use tftp_capture::{CaptureFault, TextFault};

/// A text, a line of it that is changed, what is told of its datagrams, and the outcome.
type Row = (&'static str, Line, &'static [u8], Outcome);

/// An empty payload between others; a third line as it stands, as long as the second, which begins as that does, and others;
/// and hosts.
const ROWS: &[Row] = &[
    (
        READ,
        (1, b"tftp-capture 1", (b' ', 0)),
        b"o\x9c\x40\x00\x45-\0\x01a\0octet\0\ni\x9c\x40\xa0\x28-\0\x03\0\x01hi\no\x9c\x40\xa0\x28-\0\x04\0\x01\n",
        Ok((3, 15)),
    ),
    (
        READ,
        (5, b"in 1 2 -", (b' ', 0)),
        b"o\x9c\x40\x00\x45-\0\x01a\0octet\0\ni\x00\x01\x00\x02-\no\x9c\x40\xa0\x28-\0\x04\0\x01\n",
        Ok((3, 15)),
    ),
    (
        READ,
        (5, b"in 1 2 0g", (b' ', 0)),
        b"o\x9c\x40\x00\x45-\0\x01a\0octet\0\n",
        Err(CaptureFault::Text(5, TextFault::BadHex)),
    ),
    (
        BLOCKS,
        (6, b"in 40000 41000 000300036e4F7071", (b' ', 0)),
        b"i\x9c\x40\xa0\x28-\0\x03\0\x01abcd\ni\x9c\x40\xa0\x28-\0\x03\0\x02jklm\ni\x9c\x40\xa0\x28-\0\x03\0\x03nOpq\n",
        Ok((3, 15)),
    ),
    (
        BLOCKS,
        (6, b"in 40000 41000 000300036e6f", (b' ', 0)),
        b"i\x9c\x40\xa0\x28-\0\x03\0\x01abcd\ni\x9c\x40\xa0\x28-\0\x03\0\x02jklm\ni\x9c\x40\xa0\x28-\0\x03\0\x03no\n",
        Ok((3, 15)),
    ),
    (
        BLOCKS,
        (6, b"in 40000 41000 000300036e6f70717273", (b' ', 0)),
        b"i\x9c\x40\xa0\x28-\0\x03\0\x01abcd\ni\x9c\x40\xa0\x28-\0\x03\0\x02jklm\ni\x9c\x40\xa0\x28-\0\x03\0\x03nopqrs\n",
        Ok((3, 15)),
    ),
    (
        BLOCKS,
        (6, b"in 40000 41000 -", (b' ', 0)),
        b"i\x9c\x40\xa0\x28-\0\x03\0\x01abcd\ni\x9c\x40\xa0\x28-\0\x03\0\x02jklm\ni\x9c\x40\xa0\x28-\n",
        Ok((3, 15)),
    ),
    (
        BLOCKS,
        (6, b"in 40000 41001 000300036e6f7071", (b' ', 0)),
        b"i\x9c\x40\xa0\x28-\0\x03\0\x01abcd\ni\x9c\x40\xa0\x28-\0\x03\0\x02jklm\ni\x9c\x40\xa0\x29-\0\x03\0\x03nopq\n",
        Ok((3, 15)),
    ),
    (
        BLOCKS,
        (6, b"in 40000 41000 000300036e\n#f7071", (b' ', 0)),
        b"i\x9c\x40\xa0\x28-\0\x03\0\x01abcd\ni\x9c\x40\xa0\x28-\0\x03\0\x02jklm\ni\x9c\x40\xa0\x28-\0\x03\0\x03n\n",
        Ok((3, 15)),
    ),
    (
        BLOCKS,
        (6, b"in 40000 41000 000300036\n#6f7071", (b' ', 0)),
        b"i\x9c\x40\xa0\x28-\0\x03\0\x01abcd\ni\x9c\x40\xa0\x28-\0\x03\0\x02jklm\n",
        Err(CaptureFault::Text(6, TextFault::BadHex)),
    ),
    (
        BLOCKS,
        (6, b"in 40000 41000 000300036e6f707", (b' ', 0)),
        b"i\x9c\x40\xa0\x28-\0\x03\0\x01abcd\ni\x9c\x40\xa0\x28-\0\x03\0\x02jklm\n",
        Err(CaptureFault::Text(6, TextFault::BadHex)),
    ),
    (
        BLOCKS,
        (6, b"in 40000 41000 000300036e6g7071", (b' ', 0)),
        b"i\x9c\x40\xa0\x28-\0\x03\0\x01abcd\ni\x9c\x40\xa0\x28-\0\x03\0\x02jklm\n",
        Err(CaptureFault::Text(6, TextFault::BadHex)),
    ),
    (
        BLOCKS,
        (6, b"in 40000 41000 000300036e 67071", (b' ', 0)),
        b"i\x9c\x40\xa0\x28-\0\x03\0\x01abcd\ni\x9c\x40\xa0\x28-\0\x03\0\x02jklm\n",
        Err(CaptureFault::Text(6, TextFault::BadLine)),
    ),
    (
        BLOCKS,
        (7, b"total 4", (b' ', 0)),
        b"i\x9c\x40\xa0\x28-\0\x03\0\x01abcd\ni\x9c\x40\xa0\x28-\0\x03\0\x02jklm\ni\x9c\x40\xa0\x28-\0\x03\0\x03efgh\n",
        Err(CaptureFault::Text(7, TextFault::TotalWrong)),
    ),
    (
        NAMED,
        (3, b"service 69\n# frame 7", (b' ', 0)),
        b"o\x9c\x40\x00\x4510.0.0.1\0\x01a\0octet\0\ni\x9c\x40\xa0\x2810.0.0.1\0\x03\0\x01hi\no\x9c\x40\xa0\x2810.0.0.1\0\x04\0\x01\n",
        Ok((3, 18)),
    ),
    (
        NAMED,
        (4, b"out 40000 a.example 69 00", (b' ', 0)),
        b"o\x9c\x40\x00\x45a.example\x00\ni\x9c\x40\xa0\x2810.0.0.1\0\x03\0\x01hi\no\x9c\x40\xa0\x2810.0.0.1\0\x04\0\x01\n",
        Ok((3, 15)),
    ),
    (
        NAMED,
        (5, b"in 40000 # 41000 -", (b' ', 0)),
        b"o\x9c\x40\x00\x4510.0.0.1\0\x01a\0octet\0\ni\x9c\x40\xa0\x28#\no\x9c\x40\xa0\x2810.0.0.1\0\x04\0\x01\n",
        Ok((3, 15)),
    ),
];

/// Fails unless that is told of the text, and that is its outcome, in pieces of any size.
fn tells(rt: &HostRuntime, (text, line, wanted, outcome): &Row) -> Result<(), Fail> {
    let text = changed(rt, *text, line)?;
    for piece in 1..40usize {
        let mut told = Vec::new(rt.alloc());
        let drip = DripReader::new(text.as_slice(), piece, 0, None);
        let (found, _) = read_out(rt.alloc(), drip, &mut told)?;
        is_so(
            found == *outcome && told.as_slice() == *wanted,
            "another outcome, or other datagrams",
        )?;
    }
    Ok(())
}

#[test]
fn a_held_datagram_is_filled_anew(rt: HostRuntime) -> Result<(), Fail> {
    for row in ROWS {
        tells(&rt, row)?;
    }
    Ok(())
}

/// The beginning of a text, and that of the line of a block.
const BEGINNING: &[u8] = b"tftp-capture 1\nend client\nservice 69\n";

const BLOCK: &[u8] = b"in 40000 41000 ";

/// How many digits a block has that is longer than two reads, with its opcode and number.
const LONG_BLOCK: usize = 131_052;

/// A text of four long blocks.
fn long_blocks(alloc: Global) -> Result<Vec<u8>, AllocError> {
    let line = long(alloc, BLOCK, (b'0', LONG_BLOCK))?;
    let mut text = Vec::from_slice(alloc, BEGINNING)?;
    for _ in 0..4u8 {
        text.extend_from_slice(&line)?;
        text.push(b'\n')?;
    }
    text.extend_from_slice(b"total 4\n")?;
    Ok(text)
}

/// Whether four datagrams are read, of which the first two leave something that need not be waited for, and no more.
fn are_four(reading: &mut Reading<'_>) -> bool {
    for waits in [false, false, true, true] {
        if reading.fill() != Ok(true) || reading.waits() != waits {
            return false;
        }
    }
    reading.fill() == Ok(false)
}

/// Of a long line that is like the one before it no more is read than it has: nothing of the next one is held, though the
/// reader gives all that is asked for.
#[test]
fn no_more_is_read_than_a_long_line_has(rt: HostRuntime) -> Result<(), Fail> {
    let text = long_blocks(rt.alloc())?;
    let drip = DripReader::new(text.as_slice(), usize::MAX, 0, None);
    match Reading::begin(rt.alloc(), drip) {
        Ok(mut reading) => is_so(are_four(&mut reading), "more, or less"),
        Err(_) => Err(Fail::new("begin")),
    }
}
