//! What each reason says.

ghost use Rattle.std.specs.Prelude.{◌≡◌};
ghost use Rattle.tftp_rows.specs.Reasons.{words_of};

use audit_recording::blame::Reason;
use std::fmt;

/// A reason in words.
#[derive(Clone, Copy)]
pub struct ReasonWords(pub Reason);

impl fmt::Display for ReasonWords {
    ghost use Rattle.std.specs.Prelude.{Some};
    ghost use Rattle.tftp_rows.specs.Reasons.{reason_text};

    ghost output = { λ words. Some (reason_text words.0) };

    fn fmt<W: fmt::Write>(&self, f: &mut fmt::Formatter<W>) -> fmt::Result {
        match self.0 {
            Reason::LeftOut(frame) => {
                write!(
                    f,
                    "frame {frame} is out of order, and by its time may be of this transfer"
                )
            }
            Reason::Lost(frame) => write!(f, "frame {frame} is not there whole"),
            Reason::Copied(frame) => write!(f, "frame {frame} may be a copy of the one before"),
            Reason::Damaged(frame) => {
                write!(
                    f,
                    "frame {frame} was received with an error, so that its host discarded it"
                )
            }
            Reason::Discarded(frame) => {
                write!(
                    f,
                    "frame {frame} has a wrong checksum, so that its host may have discarded it"
                )
            }
            Reason::Joined(frame) => {
                write!(
                    f,
                    "frame {frame} may be several datagrams that were recorded as one"
                )
            }
            Reason::Dropped(1) => f.write_str("the recorder lost 1 packet"),
            Reason::Dropped(count) => write!(f, "the recorder lost {count} packets"),
            reason => f.write_str(words_of(reason)),
        }
    }
}

/// The words of a reason that names no frame.
fn words_of(reason: Reason) -> &'static str
    ensures { result.now ≡ words_of reason }
{
    match reason {
        Reason::Unplaced => {
            "it may have been recorded between its two ends: name the place with --end"
        }
        Reason::Unseen => { "its client may have asked again, by a request that did not pass here" }
        Reason::Disordered => "its datagrams are not in the order of their times",
        Reason::OneWay => "nothing that came to its client is there: one direction only",
        Reason::AskedAgain => {
            "its client had asked the same and sent nothing else since: the transfer before goes on"
        }
        Reason::FollowsStrays => {
            "something passed at its client's endpoint before its request: another transfer was under way, it may be"
        }
        Reason::FollowsUnanswered => {
            "nobody had answered for sure what its client asked for before: what comes may be the late answer"
        }
        Reason::LedAstray => "its client did not go on with who sent it something first",
        Reason::TurnedAway => {
            "its client had asked before, and sent an ERROR alone to who sent it something first"
        }
        Reason::UnknownId => {
            "it is an ERROR 5, by which an end answers what is none of its transfer"
        }
        Reason::SpeaksFirst => "its client had heard nothing from there",
        Reason::FirstWord => {
            "its client spoke before anything came to it: the recording began later, it may be"
        }
        Reason::AnsweredApart => {
            "a DATA 1 from where an earlier transfer was served may be its answer"
        }
        Reason::GoesOver => "it may come of an earlier transfer between the same two ports",
        Reason::Late => "its client's endpoint had asked again",
        Reason::Beside => {
            "it passed with another than the client, whose request may not have been recorded"
        }
        Reason::Stranger => "neither its client nor its server sent the datagram",
        Reason::Twice => "each of its datagrams stands beside its equal: recorded twice",
        Reason::LeftOut(_) | Reason::Lost(_) | Reason::Copied(_) => "",
        Reason::Damaged(_) | Reason::Discarded(_) => "",
        Reason::Joined(_) | Reason::Dropped(_) => "",
    }
}
