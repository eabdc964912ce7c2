//! Pieces and digits that are gathered before they are written.

use crate::trials::drip::DripWriter;
use crate::trials::texts::long;
use crate::writers::writes::has_written;
use crate::writers::writing::{Written, written};
use net_streams::streams::{LineWriter, WriteFault};
use std::alloc::AllocError;
use std::test::Fail;

/// Adds the bytes in pieces of 100, of 16,384, of 16,385 and of what is left; what waits is written.
fn take_pieces(writer: &mut LineWriter<DripWriter>, bytes: &[u8]) -> Result<(), WriteFault> {
    let (short, rest) = bytes.split_at(bytes.len().min(100));
    let (full, rest) = rest.split_at(rest.len().min(16_384));
    let (long, rest) = rest.split_at(rest.len().min(16_385));
    writer.add(short)?;
    writer.add_all(&[full, long, b"", rest])?;
    writer.flush()
}

/// Adds two lines, of two bytes and the others in either order, and the others' digits; what waits is written.
fn take_lines(writer: &mut LineWriter<DripWriter>, bytes: &[u8]) -> Result<(), WriteFault> {
    writer.add_hex_line(b"- ", b"\x00\x1f", bytes)?;
    writer.add_hex_line(b"- ", bytes, b"\x00\x1f")?;
    writer.add_hex(bytes)?;
    writer.flush()
}

/// Gathers lines there.
fn lines_gathered(rt: &HostRuntime, drip: DripWriter, bytes: &[u8]) -> Written {
    let mut writer = LineWriter::new(rt.alloc(), drip);
    let answer = take_lines(&mut writer, bytes);
    written(writer, answer)
}

/// Gathers pieces there.
fn pieces_gathered(rt: &HostRuntime, drip: DripWriter, bytes: &[u8]) -> Written {
    let mut writer = LineWriter::new(rt.alloc(), drip);
    let answer = take_pieces(&mut writer, bytes);
    written(writer, answer)
}

/// Adds so many times the digits of a byte.
fn add_digits(text: &mut Vec<u8>, count: usize) -> Result<(), AllocError> {
    for _ in 0..count {
        text.extend_from_slice(b"ab")?;
    }
    Ok(())
}

/// A line of the digits of two bytes and so many times another, a line that has them last, and those of the other.
fn two_lines(rt: &HostRuntime, count: usize) -> Result<Vec<u8>, AllocError> {
    let mut text = Vec::from_slice(rt.alloc(), b"- 001f")?;
    add_digits(&mut text, count)?;
    text.extend_from_slice(b"\n- ")?;
    add_digits(&mut text, count)?;
    text.extend_from_slice(b"001f\n")?;
    add_digits(&mut text, count)?;
    Ok(text)
}

/// Fails unless a byte so many times is gathered as two lines where each write takes so many bytes.
fn are_lines_in(rt: &HostRuntime, piece: usize, count: usize) -> Result<(), Fail> {
    let bytes = long(rt.alloc(), b"", (0xab, count))?;
    let text = two_lines(rt, count)?;
    let drip = DripWriter::new(rt.alloc(), text.len(), piece, 0, false)?;
    has_written(
        &lines_gathered(rt, drip, bytes.as_slice()),
        Ok(()),
        text.as_slice(),
    )
}

/// Lines of any length: such as wait together, and longer ones.
#[test]
fn bytes_are_gathered_as_lines(rt: HostRuntime) -> Result<(), Fail> {
    for count in &[0, 1, 4064, 4065, 8188, 8189, 17_000] {
        are_lines_in(&rt, usize::MAX, *count)?;
        are_lines_in(&rt, 7, *count)?;
    }
    Ok(())
}

/// Bytes that repeat after 251.
fn other_bytes(rt: &HostRuntime) -> Result<Vec<u8>, AllocError> {
    let mut bytes = Vec::new(rt.alloc());
    for index in 0..32_879u32 {
        bytes.push((index % 251) as u8)?;
    }
    Ok(bytes)
}

/// How many bytes each write takes, the write that fails, and how many bytes are taken then.
type Row = (usize, u64, usize);

/// Writes of any size, and such that fail.
const ROWS: &[Row] = &[
    (usize::MAX, 0, 32_879),
    (1000, 0, 32_879),
    (7, 0, 32_879),
    (usize::MAX, 1, 0),
    (usize::MAX, 2, 100),
    (usize::MAX, 3, 16_484),
    (usize::MAX, 4, 32_869),
];

/// Fails unless so many bytes are taken, and all where no write fails: by an error, or by taking none.
fn takes(
    rt: &HostRuntime,
    bytes: &[u8],
    (piece, fails_at, taken): &Row,
    none: bool,
) -> Result<(), Fail> {
    let drip = DripWriter::new(rt.alloc(), bytes.len(), *piece, *fails_at, none)?;
    let wanted = if *fails_at == 0 {
        Ok(())
    } else {
        Err(WriteFault)
    };
    let front = bytes.get(..*taken).unwrap_or(b"");
    has_written(&pieces_gathered(rt, drip, bytes), wanted, front)
}

#[test]
fn pieces_of_any_length_are_gathered(rt: HostRuntime) -> Result<(), Fail> {
    let bytes = other_bytes(&rt)?;
    for row in ROWS {
        takes(&rt, bytes.as_slice(), row, false)?;
        takes(&rt, bytes.as_slice(), row, true)?;
    }
    Ok(())
}
