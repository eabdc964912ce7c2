use std::alloc::AllocError;
use std::convert::From;
use tftp_capture::CaptureFault;
use tftp_judge::Refusal;

/// Why no missing datagrams are told.
#[derive(Clone, Copy, Debug, PartialEq, Eq)]
pub enum Unmended {
    /// None were found with which the datagrams are lawful.
    Unexplained,
    /// The text's first fault, or a failed read.
    Capture(CaptureFault),
    /// Memory ran out.
    Memory,
}

impl From<AllocError> for Unmended {
    ghost use Rattle.std.specs.Prelude.{◌≡◌};
    ghost use Rattle.judge_losses.specs.declared.unmended.Unmended.{Unmended};

    ghost from_gives = { λ _ why. why ≡ Unmended.Memory };

    fn from(_error: AllocError) -> Self {
        Unmended::Memory
    }
}

impl From<CaptureFault> for Unmended {
    ghost use Rattle.std.specs.Prelude.{◌≡◌};
    ghost use Rattle.judge_losses.specs.declared.unmended.Unmended.{Unmended};

    ghost from_gives = { λ fault why. why ≡ Unmended.Capture fault };

    fn from(fault: CaptureFault) -> Self {
        Unmended::Capture(fault)
    }
}

impl From<Refusal> for Unmended {
    ghost use Rattle.std.specs.Prelude.{◌≡◌};
    ghost use Rattle.judge_losses.specs.Mended.{unmended_by};

    ghost from_gives = { λ refusal why. why ≡ unmended_by refusal };

    fn from(refusal: Refusal) -> Self {
        match refusal {
            Refusal::Memory(_) => Unmended::Memory,
            _ => Unmended::Unexplained,
        }
    }
}
