//! Which of the options that tell how blocks are sent the datagrams of a transfer name.

ghost use Rattle.std.specs.Prelude.{◌≡◌, codes, false};
ghost use Rattle.audit_recording.specs.Blame.Named.{names_option, with_named};

use tftp_packet::opcode;

/// The opcode of a block, in which nothing is named (RFC 1350, section 5).
const BLOCK: u16 = 3;

/// The options that tell how blocks are sent, as far as some datagram names them.
#[derive(Clone, Copy)]
pub struct Named {
    /// Windows (RFC 7440, section 3).
    pub windows: bool,
    /// Block sizes (RFC 2348).
    pub sizes: bool,
}

impl Named {
    /// Before any datagram.
    pub fn none() -> Self
        ensures { result ≡ record { windows = false; sizes = false } }
    {
        Named {
            windows: false,
            sizes: false,
        }
    }

    /// With what this payload names.
    pub fn with(self, payload: &[u8]) -> Self
        ensures { result ≡ with_named payload.now self }
    {
        Named {
            windows: names_windows(payload) || self.windows,
            sizes: names_sizes(payload) || self.sizes,
        }
    }
}

/// Whether one of its strings is the name of the option of windows, in letters of any case.
fn names_windows(payload: &[u8]) -> bool
    ensures { result ≡ names_option (codes "windowsize") payload.now }
{
    opcode(payload) != BLOCK
        && payload
            .split(|byte| *byte == 0)
            .any(|word| word.eq_ignore_ascii_case(b"windowsize"))
}

/// Whether one of its strings is the name of the option of block sizes, in letters of any case.
fn names_sizes(payload: &[u8]) -> bool
    ensures { result ≡ names_option (codes "blksize") payload.now }
{
    opcode(payload) != BLOCK
        && payload
            .split(|byte| *byte == 0)
            .any(|word| word.eq_ignore_ascii_case(b"blksize"))
}
