//! Why a recording is not read, or a text not written.

use net_pcap::FaultKind;
use std::alloc::AllocError;
use std::convert::From;
use thiserror::Error;

/// Why a recording is not read.
#[derive(Debug, Drop, Error)]
pub enum ReadFault {
    /// It is none; what it is instead, where its first bytes tell that.
    #[error("no recording{0}")]
    NoRecording(&'static str),
    /// It does not begin as a recording that is read here.
    #[error("{0}")]
    Format(FaultKind),
    /// Memory was refused: so many of its frames were read, and what they brought was taken.
    #[error("out of memory after frame {0}")]
    Memory(u64),
    /// It has more datagrams than can be counted.
    #[error("too many datagrams")]
    TooMany,
}

/// Why there is no text of a transfer.
#[derive(Debug, Drop, Error)]
pub enum TextFault {
    /// There is no transfer with this number among so many.
    #[error("there is no transfer {0}: the recording has 1 to {1}")]
    NoTransfer(u64, usize),
    /// Datagrams of its client may be missing.
    #[error("nothing is written, since the recording is not whole")]
    NotWhole,
    /// No comment is as long as the file's name.
    #[error("the file's name is too long for a text")]
    LongName,
    /// Memory was refused.
    #[error(transparent)]
    Alloc(AllocError),
}

impl From<AllocError> for TextFault {
    ghost use Rattle.std.specs.Prelude.{◌≡◌};
    ghost use Rattle.audit_recording.specs.declared.session.fault.TextFault.{TextFault};

    ghost from_gives = { λ error fault. fault ≡ TextFault.Alloc error };

    fn from(error: AllocError) -> Self {
        TextFault::Alloc(error)
    }
}
