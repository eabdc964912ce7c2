use law_model::rules::EndRule;
use std::alloc::AllocError;
use std::convert::From;

/// Why a packet does not pass at an end.
#[derive(Clone, Copy, Debug, PartialEq, Eq)]
pub enum Rejection {
    /// The first rule of blocks and acknowledgements that it breaks.
    Broken(EndRule),
    /// A growth was refused.
    Memory,
}

impl From<EndRule> for Rejection {
    ghost use Rattle.std.specs.Prelude.{◌≡◌};
    ghost use Rattle.tftp_ends.specs.declared.rejection.Rejection.{Rejection};

    ghost from_gives = { λ rule rejection. rejection ≡ Rejection.Broken rule };

    fn from(rule: EndRule) -> Self {
        Rejection::Broken(rule)
    }
}

impl From<AllocError> for Rejection {
    ghost use Rattle.std.specs.Prelude.{◌≡◌};
    ghost use Rattle.tftp_ends.specs.declared.rejection.Rejection.{Rejection};

    ghost from_gives = { λ _ rejection. rejection ≡ Rejection.Memory };

    fn from(_error: AllocError) -> Self {
        Rejection::Memory
    }
}
