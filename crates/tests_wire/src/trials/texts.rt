//! Capture texts that several tests change, write or judge.

use std::alloc::{AllocError, Global};

/// A read of the file `a`, which is `hi`, in one block (RFC 1350, sections 4 and 5).
pub const READ: &str =
    "tftp-capture 1\nend client\nservice 69\nout 40000 69 000161006f6374657400\nin 40000 41000 000300016869\nout 40000 41000 00040001\ntotal 3\n";

/// The same from a host that is named.
pub const NAMED: &str =
    "tftp-capture 2\nend client\nservice 69\nout 40000 10.0.0.1 69 000161006f6374657400\nin 40000 10.0.0.1 41000 000300016869\nout 40000 10.0.0.1 41000 00040001\ntotal 3\n";

/// The text `NAMED` with a comment before its datagrams.
pub const COMMENTED: &str =
    "tftp-capture 2\nend client\nservice 69\n# frame 7\nout 40000 10.0.0.1 69 000161006f6374657400\nin 40000 10.0.0.1 41000 000300016869\nout 40000 10.0.0.1 41000 00040001\ntotal 3\n";

/// These bytes, and that many of one more.
pub fn long(
    alloc: Global,
    start: &[u8],
    (byte, count): (u8, usize),
) -> Result<Vec<u8>, AllocError> {
    let mut line = Vec::from_slice(alloc, start)?;
    line.resize(line.len().saturating_add(count), byte)?;
    Ok(line)
}
