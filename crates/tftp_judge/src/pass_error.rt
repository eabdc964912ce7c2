use law_end::Rule;
use std::alloc::AllocError;
use std::convert::From;
use tftp_ends::Rejection;

/// Why a datagram does not pass.
#[derive(Clone, Copy, Debug, PartialEq, Eq)]
pub enum PassError {
    /// The first rule that it breaks.
    Broken(Rule),
    /// A growth was refused.
    Memory,
}

impl From<AllocError> for PassError {
    ghost use Rattle.std.specs.Prelude.{◌≡◌};
    ghost use Rattle.tftp_judge.specs.declared.pass_error.PassError.{PassError};

    ghost from_gives = { λ _ stop. stop ≡ PassError.Memory };

    fn from(_error: AllocError) -> Self {
        PassError::Memory
    }
}

impl From<Rejection> for PassError {
    ghost use Rattle.std.specs.Prelude.{◌≡◌};
    ghost use Rattle.tftp_judge.specs.Found.{error_of_rejection};

    ghost from_gives = { λ rejection stop. stop ≡ error_of_rejection rejection };

    fn from(rejection: Rejection) -> Self {
        match rejection {
            Rejection::Broken(rule) => PassError::Broken(Rule::Block(rule)),
            Rejection::Memory => PassError::Memory,
        }
    }
}
