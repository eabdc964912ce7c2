ghost use Rattle.std.specs.Prelude.{◌≡◌};
ghost use Rattle.law_model.specs.Rules.EndNames.{end_name};
ghost use Rattle.law_model.specs.Rules.Rules.{end_number};

/// A rule of blocks and acknowledgements, in the order in which they are tried.
#[derive(Clone, Copy, Debug, PartialEq, Eq)]
pub enum EndRule {
    /// A block before the request is answered, or the answer is taken (RFC 1350, section 4; RFC 2347).
    NotStarted,
    /// Blocks are numbered from 1 (RFC 1350, section 5).
    BlockZero,
    /// The greatest block, 65535 by two bytes (RFC 1350, section 5), and it is not the last; or a block above it.
    BeyondBlock65535,
    /// A length that the block can't have at its place (RFC 1350, section 2; RFC 2348; RFC 2349).
    BlockLength,
    /// More than a window ahead of what was acknowledged (RFC 7440, section 4).
    WindowOverrun,
    /// The sender left a block out (RFC 1350, section 2).
    BlockSkipped,
    /// In lock step the sender went back (RFC 1350, section 2).
    GoneBack,
    /// A block came again with other bytes (RFC 1350, section 2).
    BlockChanged,
    /// An ACK of what has not come, or was not sent (RFC 1350, section 2; RFC 7440, section 4).
    AckAhead,
    /// An ACK 0 that answers nothing (RFC 1350, section 4; RFC 2347).
    AckZero,
}

impl EndRule {
    /// The rule's place among all rules, 18 to 27.
    pub fn number(self) -> u8
        ensures { result ≡ end_number self }
    {
        match self {
            EndRule::NotStarted => 18,
            EndRule::BlockZero => 19,
            EndRule::BeyondBlock65535 => 20,
            EndRule::BlockLength => 21,
            EndRule::WindowOverrun => 22,
            EndRule::BlockSkipped => 23,
            EndRule::GoneBack => 24,
            EndRule::BlockChanged => 25,
            EndRule::AckAhead => 26,
            EndRule::AckZero => 27,
        }
    }

    /// The rule's name as it is printed.
    pub fn name(self) -> &'static str
        ensures { result.now ≡ end_name self }
    {
        match self {
            EndRule::NotStarted => "NotStarted",
            EndRule::BlockZero => "BlockZero",
            EndRule::BeyondBlock65535 => "BeyondBlock65535",
            EndRule::BlockLength => "BlockLength",
            EndRule::WindowOverrun => "WindowOverrun",
            EndRule::BlockSkipped => "BlockSkipped",
            EndRule::GoneBack => "GoneBack",
            EndRule::BlockChanged => "BlockChanged",
            EndRule::AckAhead => "AckAhead",
            EndRule::AckZero => "AckZero",
        }
    }
}
