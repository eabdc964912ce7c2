//! Writing netascii for the wire.

ghost use Rattle.std.specs.Prelude.{◌≡◌, ◌==◌, ◌||◌, ◌≤◌, [], count_by, length, IfOk, IsOk};
ghost use Rattle.tftp_netascii.specs.Netascii.{canonical_wire, lf, cr};

use crate::runs::{CR, LF, NUL, split_at_control};
use std::alloc::{AllocError, Global};

/// How many bytes are counted at once.
const PIECE: usize = 255;

/// The text that a file is sent as: each LF as CR LF, and each CR as CR NUL (RFC 764). An empty
/// file takes no memory.
pub fn encode(alloc: Global, file: &[u8]) -> Result<Vec<u8>, AllocError>
    ensures wire { IfOk result (λ wire. wire.items ≡ canonical_wire file.now) }
    ensures succeeds { file.now ≡ [] → IsOk result }
{
    let mut wire = Vec::with_capacity(alloc, encoded_len(file) as usize)?;
    let mut rest = file;
    while let Some((run, control, after)) = split_at_control(rest) {
        wire.extend_from_slice(run)?;
        let spelling = if control == LF { [CR, LF] } else { [CR, NUL] };
        wire.extend_from_slice(&spelling)?;
        rest = after;
    }
    wire.extend_from_slice(rest)?;
    Ok(wire)
}

/// How many bytes `encode` makes of a file, at most twice the file's.
pub fn encoded_len(file: &[u8]) -> u64
    ensures { result ≡ length (canonical_wire file.now) }
{
    file.len() as u64 + control_count(file) as u64
}

/// How many bytes of a file take two bytes on the wire.
fn control_count(file: &[u8]) -> usize
    ensures { result ≡ count_by (λ byte. byte == lf || byte == cr) file.now }
{
    let mut count = 0;
    let mut rest = file;
    while !rest.is_empty() {
        let (piece, after) = rest.split_at(rest.len().min(PIECE));
        count += usize::from(controls_in(piece));
        rest = after;
    }
    count
}

/// The same of a piece. The count fits a byte, so that the processor looks at many bytes at once.
fn controls_in(piece: &[u8]) -> u8
    requires { length piece.now ≤ 255 }
    ensures { result ≡ count_by (λ byte. byte == lf || byte == cr) piece.now }
{
    let mut count = 0;
    for byte in piece {
        count += u8::from(*byte == LF || *byte == CR);
    }
    count
}
