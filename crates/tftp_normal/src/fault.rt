use net_streams::streams::WriteFault;
use std::alloc::AllocError;
use std::convert::From;
use tftp_judge::Verdict;
use thiserror::Error;

/// Why a normal text was not written, or not whole.
#[derive(Clone, Copy, Debug, PartialEq, Eq, Error)]
pub enum NormalFault {
    /// The text is not accepted, being out of memory while it was judged included; nothing was written.
    #[error("the text is not accepted")]
    Verdict(Verdict),
    /// A write failed, or took no byte. A part of the normal text, from its start, was written.
    #[error("a write failed")]
    Write,
    /// Memory was refused, before anything was written.
    #[error("out of memory")]
    Memory,
}

impl From<Verdict> for NormalFault {
    ghost use Rattle.std.specs.Prelude.{◌≡◌};
    ghost use Rattle.tftp_normal.specs.declared.fault.NormalFault.{NormalFault};

    ghost from_gives = { λ verdict fault. fault ≡ NormalFault.Verdict verdict };

    fn from(verdict: Verdict) -> Self {
        NormalFault::Verdict(verdict)
    }
}

impl From<WriteFault> for NormalFault {
    ghost use Rattle.std.specs.Prelude.{◌≡◌};
    ghost use Rattle.tftp_normal.specs.declared.fault.NormalFault.{NormalFault};

    ghost from_gives = { λ _ fault. fault ≡ NormalFault.Write };

    fn from(_fault: WriteFault) -> Self {
        NormalFault::Write
    }
}

impl From<AllocError> for NormalFault {
    ghost use Rattle.std.specs.Prelude.{◌≡◌};
    ghost use Rattle.tftp_normal.specs.declared.fault.NormalFault.{NormalFault};

    ghost from_gives = { λ _ fault. fault ≡ NormalFault.Memory };

    fn from(_fault: AllocError) -> Self {
        NormalFault::Memory
    }
}
