ghost use Rattle.std.specs.Prelude.{◌≡◌, Option, Result};
ghost use Rattle.audit_recording.specs.Rows.Told.{is_refused, may_be_asked, refused_frame, said_between, said_of, status_of};

use judge_tap::TapRefusal;
use law_model::rules::PortRule;
use tftp_judge::{Meaning, Refusal, Rule};

/// What is said of a transfer at one of the points where it was judged.
#[derive(Clone, Copy, Debug)]
pub enum Said {
    /// It is a complete transfer.
    Accepted,
    /// A datagram breaks this rule: the one in the frame with this number, from 1.
    Refused(Rule, Option<u64>),
    /// It is lawful, and no complete transfer: it stops early, an ERROR ended it (RFC 1350, section 7), or its normal text
    /// would be too long.
    NotWhole,
    /// There was no memory to judge it.
    Memory,
}

impl Said {
    /// What the judge of an end found; a datagram that it refused is in that frame.
    pub fn of(found: &Result<Meaning, Refusal>, frame: Option<u64>) -> Self
        ensures { result ≡ said_of found.now frame }
    {
        match found {
            Ok(_) => Said::Accepted,
            Err(Refusal::Unlawful(_, rule)) => Said::Refused(*rule, frame),
            Err(Refusal::Memory(_)) => Said::Memory,
            Err(Refusal::Aborted(_, _)) => Said::NotWhole,
            Err(Refusal::Incomplete(_)) => Said::NotWhole,
            Err(Refusal::NormalTooLong) => Said::NotWhole,
        }
    }

    /// What the judge between the ends found; a datagram that it refused is in that frame.
    pub fn between(found: &Result<Meaning, TapRefusal>, frame: Option<u64>) -> Self
        ensures { result ≡ said_between found.now frame }
    {
        match found {
            Ok(_) => Said::Accepted,
            Err(TapRefusal::Unlawful(_, rule, _)) => Said::Refused(*rule, frame),
            Err(TapRefusal::Memory(_)) => Said::Memory,
            Err(TapRefusal::Aborted(_, _)) => Said::NotWhole,
            Err(TapRefusal::Incomplete(_)) => Said::NotWhole,
            Err(TapRefusal::NormalTooLong) => Said::NotWhole,
        }
    }

    /// Whether a datagram is refused.
    pub fn is_refused(&self) -> bool
        ensures { result ≡ is_refused self.now }
    {
        matches!(self, Said::Refused(_, _))
    }

    /// The frame of the datagram that is refused.
    pub fn refused_frame(&self) -> Option<u64>
        ensures { result ≡ refused_frame self.now }
    {
        match self {
            Said::Refused(_, frame) => *frame,
            Said::Accepted => None,
            Said::NotWhole => None,
            Said::Memory => None,
        }
    }

    /// Whether, where it is said between the ends, a request that did not pass there may explain what is refused: then it is the
    /// answer to what looks like a stray (RFC 1350, section 4).
    pub fn may_be_asked(&self) -> bool
        ensures { result ≡ may_be_asked self.now }
    {
        matches!(self, Said::Refused(Rule::Port(PortRule::BadAnswer), _))
    }

    /// The exit status that a program has which says it: 0 where it is accepted, 2 where memory ran out, and else 1.
    pub fn status(&self) -> u8
        ensures { result ≡ status_of self.now }
    {
        match self {
            Said::Accepted => 0,
            Said::Refused(_, _) => 1,
            Said::NotWhole => 1,
            Said::Memory => 2,
        }
    }
}
