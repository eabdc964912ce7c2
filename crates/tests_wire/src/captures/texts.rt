//! Texts with a line that is changed, and what they give where a growth is refused.

use crate::captures::reads;
use crate::trials::texts::{NAMED, READ};
use std::alloc::AllocError;
use std::test::Fail;
use tftp_capture::{CaptureFault, TextFault};

/// Blocks that go the same way between the same ports, so that the third line may be known by the second.
pub const BLOCKS: &str =
    "tftp-capture 1\nend client\nservice 69\nin 40000 41000 0003000161626364\nin 40000 41000 000300026A6b6C6d\nin 40000 41000 0003000365666768\ntotal 3\n";

/// A line of a text, by its number, counted from 1, changed to this start and that many of one byte.
pub type Line = (usize, &'static [u8], (u8, usize));

/// What stands before a line of a text, by its number, and what stands behind it, from its end on.
fn around(text: &[u8], number: usize) -> Option<(&[u8], &[u8])> {
    let mut line = 1usize;
    let mut start = 0usize;
    for (index, byte) in text.iter().enumerate() {
        if *byte == b'\n' {
            if line == number {
                return Some((text.get(..start)?, text.get(index..)?));
            }
            line = line.saturating_add(1);
            start = index.saturating_add(1);
        }
    }
    None
}

/// The text with one of its lines changed.
pub fn changed(
    rt: &HostRuntime,
    text: &str,
    (number, start, (byte, count)): &Line,
) -> Result<Vec<u8>, AllocError> {
    let (before, behind) = around(text.as_bytes(), *number).unwrap_or((b"", b""));
    let mut text = Vec::from_slice(rt.alloc(), before)?;
    text.extend_from_slice(*start)?;
    text.resize(text.len().saturating_add(*count), *byte)?;
    text.extend_from_slice(behind)?;
    Ok(text)
}

/// With a growth refused the answer is the text's own, or being out of memory on one of its lines.
#[test]
fn texts_with_a_growth_refused(rt: HostRuntime) -> Result<(), Fail> {
    let bad: &[u8] = b"tftp-capture 1\nend client\nservice 69\nout 1 2 0g\n";
    let fault = CaptureFault::Text(4, TextFault::BadHex);
    reads::gives_or_wants(&rt, READ.as_bytes(), Ok((3, 15)), 7)?;
    reads::gives_or_wants(&rt, NAMED.as_bytes(), Ok((3, 15)), 7)?;
    reads::gives_or_wants(&rt, BLOCKS.as_bytes(), Ok((3, 15)), 7)?;
    reads::gives_or_wants(&rt, bad, Err(fault), 4)
}
