use crate::refusal::Refusal;
use std::convert::From;
use tftp_capture::CaptureFault;

/// Why a capture text is not accepted.
#[derive(Clone, Copy, Debug, PartialEq, Eq)]
pub enum Verdict {
    /// The text's first fault, a failed read, or being out of memory, with its line.
    Capture(CaptureFault),
    /// What its datagrams are refused for.
    Refused(Refusal),
}

impl From<CaptureFault> for Verdict {
    ghost use Rattle.std.specs.Prelude.{◌≡◌};
    ghost use Rattle.tftp_judge.specs.declared.verdict.Verdict.{Verdict};

    ghost from_gives = { λ fault verdict. verdict ≡ Verdict.Capture fault };

    fn from(fault: CaptureFault) -> Self {
        Verdict::Capture(fault)
    }
}

impl From<Refusal> for Verdict {
    ghost use Rattle.std.specs.Prelude.{◌≡◌};
    ghost use Rattle.tftp_judge.specs.declared.verdict.Verdict.{Verdict};

    ghost from_gives = { λ refusal verdict. verdict ≡ Verdict.Refused refusal };

    fn from(refusal: Refusal) -> Self {
        Verdict::Refused(refusal)
    }
}
