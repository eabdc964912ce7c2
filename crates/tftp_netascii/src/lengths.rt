//! How long a file is, and the text that is written for it, by a text that reads as the file.

ghost use Rattle.std.specs.Prelude.{◌≡◌, ◌≤◌, ◌+◌, ◌++◌, ℕ, List, length};
ghost use Rattle.tftp_netascii.specs.Netascii.{canonical_wire, file_of};
ghost use Rattle.tftp_netascii.specs.Counts.{count_after, begins_control, is_second};

use crate::runs::{CR, LF, NUL};

/// How many bytes are counted at once.
const PIECE: usize = 192;

/// How many bytes a file has, and the text that `encode` makes of it.
#[derive(Clone, Copy, Debug, PartialEq, Eq)]
pub struct Lengths {
    /// The bytes of the file, at most those of any text that reads as it.
    pub file: u64,
    /// Those of its text, at most twice the file's.
    pub encoded: u64,
}

/// What is counted of a piece, and its last byte.
#[derive(Clone, Copy)]
struct Counts {
    seconds: u8,
    controls: u8,
    last: u8,
}

/// The lengths of the file that a whole netascii text reads as (RFC 1350, section 1, and RFC 764), counted in one pass in
/// which nothing is written.
pub fn file_lengths(wire: &[u8]) -> Lengths
    ensures file { result.file ≡ length (file_of wire.now) }
    ensures encoded { result.encoded ≡ length (canonical_wire (file_of wire.now)) }
{
    let mut seconds = 0;
    let mut controls = 0;
    let mut before = NUL;
    let mut rest = wire;
    while !rest.is_empty() {
        let (piece, after) = rest.split_at(rest.len().min(PIECE));
        let counts = counts_in(before, piece);
        seconds += usize::from(counts.seconds);
        controls += usize::from(counts.controls);
        before = counts.last;
        rest = after;
    }
    let file = (wire.len() - seconds) as u64;
    Lengths {
        file,
        encoded: file + controls as u64,
    }
}

/// What is counted of a piece that comes after this byte. The counts fit a byte, so that the processor looks at many bytes
/// at once.
fn counts_in(before: u8, piece: &[u8]) -> Counts
    requires { length piece.now ≤ 192 }
    ensures seconds { (rest : List ℕ) → result.seconds + count_after is_second result.last rest
        ≡ count_after is_second before (piece.now ++ rest) }
    ensures controls { (rest : List ℕ) → result.controls + count_after begins_control result.last rest
        ≡ count_after begins_control before (piece.now ++ rest) }
{
    let mut seconds = 0;
    let mut controls = 0;
    let mut last = before;
    for byte in piece {
        seconds += u8::from(last == CR && (*byte == LF || *byte == NUL));
        controls += u8::from(*byte == CR || (*byte == LF && last != CR));
        last = *byte;
    }
    Counts {
        seconds,
        controls,
        last,
    }
}
