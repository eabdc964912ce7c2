//! What is written of whole texts, and what of it where a write fails.

use crate::captures::outcomes;
use crate::trials::comparing::{is_same, is_so};
use crate::trials::drip::DripWriter;
use crate::trials::texts::{READ, long};
use crate::writers::writing::{Row, Written, write};
use net_streams::streams::WriteFault;
use std::test::Fail;
use tftp_capture::Header;
use tftp_packet::End;
use tftp_packet::hosts::Dir;

/// The header of `READ` and `NAMED`.
pub const HEADER: Header = Header {
    named: End::Client,
    service: 69,
    rollover: None,
};

/// Their datagrams.
pub const DATAGRAMS: &[Row<'static>] = &[
    (Dir::Out, 40_000, 69, b"\x00\x01a\x00octet\x00"),
    (Dir::In, 40_000, 41_000, b"\x00\x03\x00\x01hi"),
    (Dir::Out, 40_000, 41_000, b"\x00\x04\x00\x01"),
];

/// Fails unless that was written, with this answer: a write failed where it is a fault.
pub fn has_written(
    (drip, answer, failed): &Written,
    wanted: Result<(), WriteFault>,
    text: &[u8],
) -> Result<(), Fail> {
    if *answer != wanted || *failed != wanted.is_err() {
        return Err(Fail::from((*answer, *failed)));
    }
    is_same(drip.taken(), text)
}

/// Fails unless that is written there of `READ`, with this answer.
fn gives(
    rt: &HostRuntime,
    drip: DripWriter,
    wanted: Result<(), WriteFault>,
    text: &[u8],
) -> Result<(), Fail> {
    has_written(&write(rt.alloc(), drip, &HEADER, DATAGRAMS), wanted, text)
}

#[test]
fn a_read_is_written(rt: HostRuntime) -> Result<(), Fail> {
    for piece in &[usize::MAX, 1, 5] {
        let drip = DripWriter::new(rt.alloc(), READ.len(), *piece, 0, false)?;
        gives(&rt, drip, Ok(()), READ.as_bytes())?;
    }
    Ok(())
}

/// Fails unless so many bytes stay where the write after them fails, by an error or by taking none.
fn stays_written(rt: &HostRuntime, count: usize, none: bool) -> Result<(), Fail> {
    let write_fails = (count as u64).saturating_add(1);
    let drip = DripWriter::new(rt.alloc(), READ.len(), 1, write_fails, none)?;
    let text = READ.as_bytes();
    gives(rt, drip, Err(WriteFault), text.get(..count).unwrap_or(text))
}

#[test]
fn each_write_fails_in_turn(rt: HostRuntime) -> Result<(), Fail> {
    for count in 0..READ.len() {
        stays_written(&rt, count, false)?;
        stays_written(&rt, count, true)?;
    }
    Ok(())
}

/// At a server.
const AT_SERVER: Header = Header {
    named: End::Server,
    service: 6969,
    rollover: None,
};

/// How a text begins there of an empty payload and one of bytes `ab`.
const START: &[u8] = b"tftp-capture 1\nend server\nservice 6969\nin 1 65535 -\nout 65535 1 ab";

/// Fails unless a text begins so and has the digits of 65,527 bytes, and gives its two datagrams.
fn has_both(rt: &HostRuntime, (drip, answer, _): &Written) -> Result<(), Fail> {
    let text = drip.taken();
    is_so(*answer == Ok(()), "a write failed")?;
    is_so(text.starts_with(START), "another start")?;
    is_so(text.len() == START.len() + 2 * 65_526 + 9, "another length")?;
    outcomes::gives(rt.alloc(), text, Ok((2, 9)))
}

/// Writes a text of an empty payload and this one.
fn write_both(rt: &HostRuntime, drip: DripWriter, payload: &[u8]) -> Written {
    let rows: &[Row<'_>] = &[(Dir::In, 1, 65_535, b""), (Dir::Out, 65_535, 1, payload)];
    write(rt.alloc(), drip, &AT_SERVER, rows)
}

#[test]
fn an_empty_and_the_longest_payload_are_written(rt: HostRuntime) -> Result<(), Fail> {
    let payload = long(rt.alloc(), b"", (b'\xab', 65_527))?;
    let drip = DripWriter::new(rt.alloc(), 200_000, 1000, 0, false)?;
    has_both(&rt, &write_both(&rt, drip, payload.as_slice()))
}
