//! Why a capture is not read, and what people read of that.

ghost use Rattle.std.specs.Prelude.{IsSome, refl};

use audit_recording::session::ReadFault;
use std::alloc::{AllocError, AllocFailed};
use std::convert::From;
use std::fmt::Display;
use std::io;
use tftp_capture::CaptureFault;
use thiserror::Error;

/// Why a capture is not read.
#[derive(Debug, Drop, Error)]
pub enum UnreadFault {
    /// Memory was refused.
    #[error(transparent)]
    Alloc(AllocError),
    /// A read failed.
    #[error(transparent)]
    Input(io::Error),
    /// It begins as a recording, and is not read as one.
    #[error(transparent)]
    Recording(ReadFault),
    /// It is a text whose first datagram is wanted, and that is not read.
    #[error(transparent)]
    Text(CaptureFault),
}

impl<T: Drop> From<AllocFailed<T>> for UnreadFault {
    ghost use Rattle.std.specs.Prelude.{◌≡◌, alloc_error};
    ghost use Rattle.tftp_match.specs.declared.unread.UnreadFault.{UnreadFault};

    ghost from_gives = { λ _ fault. fault ≡ UnreadFault.Alloc alloc_error };

    fn from(_failed: AllocFailed<T>) -> Self {
        UnreadFault::Alloc(AllocError)
    }
}

impl From<io::Error> for UnreadFault {
    ghost use Rattle.std.specs.Prelude.{◌≡◌};
    ghost use Rattle.tftp_match.specs.declared.unread.UnreadFault.{UnreadFault};

    ghost from_gives = { λ error fault. fault ≡ UnreadFault.Input error };

    fn from(error: io::Error) -> Self {
        UnreadFault::Input(error)
    }
}

impl From<ReadFault> for UnreadFault {
    ghost use Rattle.std.specs.Prelude.{◌≡◌};
    ghost use Rattle.tftp_match.specs.declared.unread.UnreadFault.{UnreadFault};

    ghost from_gives = { λ error fault. fault ≡ UnreadFault.Recording error };

    fn from(error: ReadFault) -> Self {
        UnreadFault::Recording(error)
    }
}

impl From<CaptureFault> for UnreadFault {
    ghost use Rattle.std.specs.Prelude.{◌≡◌};
    ghost use Rattle.tftp_match.specs.declared.unread.UnreadFault.{UnreadFault};

    ghost from_gives = { λ error fault. fault ≡ UnreadFault.Text error };

    fn from(error: CaptureFault) -> Self {
        UnreadFault::Text(error)
    }
}

/// A fault as people read it, once it was made of the reason why a capture is not read.
pub trait Worded: Display + Drop + From<UnreadFault> {
    // Its words are known.
    ghost is_worded: { (fault : Self) → IsSome (Self.output fault) };
}

impl Worded for anyhow::Error {
    ghost is_worded = { λ fault. refl };
}
