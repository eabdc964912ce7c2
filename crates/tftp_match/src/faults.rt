//! Why two captures are not judged.

use std::alloc::AllocError;
use std::convert::From;
use tftp_rows::TellFault;
use thiserror::Error;

/// Why two captures are not judged.
#[derive(Debug, Drop, Error)]
pub enum MatchFault {
    /// Memory was refused.
    #[error(transparent)]
    Alloc(AllocError),
    /// Memory ran out while captures were judged.
    #[error("out of memory")]
    Memory,
    /// What there is to tell on standard error is not told.
    #[error(transparent)]
    Tell(TellFault),
    /// The packets are not counted, for want of memory.
    #[error("the packets are not counted: out of memory")]
    Uncounted,
    /// What there is to say is not written.
    #[error("standard output: a write failed")]
    Output,
    /// A transfer is named of two texts.
    #[error("a transfer is named, and there is no recording")]
    NoRecording,
    /// A transfer at the server is named, whose capture is a text.
    #[error("a transfer at the server is named, and there is no recording of it")]
    NoServerRecording,
    /// A transfer at the client is named, whose capture is a text.
    #[error("a transfer at the client is named, and there is no recording of it")]
    NoClientRecording,
}

impl From<AllocError> for MatchFault {
    ghost use Rattle.std.specs.Prelude.{◌≡◌};
    ghost use Rattle.tftp_match.specs.declared.faults.MatchFault.{MatchFault};

    ghost from_gives = { λ error fault. fault ≡ MatchFault.Alloc error };

    fn from(error: AllocError) -> Self {
        MatchFault::Alloc(error)
    }
}

impl From<TellFault> for MatchFault {
    ghost use Rattle.std.specs.Prelude.{◌≡◌};
    ghost use Rattle.tftp_match.specs.declared.faults.MatchFault.{MatchFault};

    ghost from_gives = { λ error fault. fault ≡ MatchFault.Tell error };

    fn from(error: TellFault) -> Self {
        MatchFault::Tell(error)
    }
}
