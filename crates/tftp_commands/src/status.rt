ghost use Rattle.std.specs.Prelude.{◌≡◌};
ghost use Rattle.tftp_commands.specs.Outputs.{code_of};

/// How a run ended.
#[derive(Clone, Copy, Debug, PartialEq, Eq)]
pub enum Status {
    /// The capture was accepted, and its file, normal text or count written where that was asked; or it was shown to its
    /// end.
    Success,
    /// The capture breaks a rule, is no whole transfer, or has a text that no capture can carry in its canonical form.
    Refused,
    /// There was no verdict, or not all was shown or written.
    Fault,
}

impl Status {
    /// The status that the process ends with: 0, 1 or 2.
    pub fn code(self) -> u8
        ensures { result ≡ code_of self }
    {
        match self {
            Status::Success => 0,
            Status::Refused => 1,
            Status::Fault => 2,
        }
    }
}
