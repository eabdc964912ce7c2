//! What there is to say of two captures, by what was found of them.

ghost use Rattle.std.specs.Prelude.{◌≡◌, option_map};
ghost use Rattle.tftp_commands.specs.{checked};
ghost use Rattle.tftp_match.specs.Firsts.{carried, client_first as first_at_client, first_of, is_judged_whole as is_whole, is_matched, refused_first, server_first as first_at_server, told_why as why_told};
ghost use Rattle.tftp_match.specs.Objects.{first_word};
ghost use Rattle.tftp_match.specs.Status.{is_fault, status_of as status_for};

use judge_pair::counts::Carried;
use judge_pair::match_texts::{PairSaid, Wait};
use tftp_judge::{Meaning, Refusal, Verdict};

/// The first datagram of a capture that is not matched.
#[derive(Clone, Copy, Debug, PartialEq, Eq)]
pub struct First {
    /// Counted from 1.
    pub number: u64,
    /// Why it waits; none where it is refused, and where the other end may have sent it in what is refused there, or behind
    /// that.
    pub why: Option<Wait>,
}

impl First {
    /// The word that tells why it waits.
    pub fn word(&self) -> Option<&'static str>
        ensures { option_map (λ word. word.now) result ≡ first_word self.now }
    {
        match self.why {
            Some(Wait::Unsent) => Some("unsent"),
            Some(Wait::SentLater) => Some("waits"),
            None => None,
        }
    }
}

/// The first datagram of the client's capture that is not matched, if there is one.
pub fn client_first(said: &PairSaid) -> Option<First>
    ensures { result ≡ first_at_client said.now }
{
    let Ok(matched) = &said.together else {
        return None;
    };
    if matched.client_matched < matched.client_lawful {
        return Some(First {
            number: matched.client_matched + 1,
            why: told_why(&said.server, matched.client_why),
        });
    }
    refused(&said.client)
}

/// The first datagram of the server's capture that is not matched, if there is one.
pub fn server_first(said: &PairSaid) -> Option<First>
    ensures { result ≡ first_at_server said.now }
{
    let Ok(matched) = &said.together else {
        return None;
    };
    if matched.server_matched < matched.server_lawful {
        return Some(First {
            number: matched.server_matched + 1,
            why: told_why(&said.client, matched.server_why),
        });
    }
    refused(&said.server)
}

/// Whether one run of the two ends has both captures.
pub fn are_matched(said: &PairSaid) -> bool
    ensures { result ≡ is_matched said.now }
{
    said.is_matched()
}

/// What the network lost and repeated, where the captures are matched and it was counted.
pub fn carried_of(said: &PairSaid) -> Option<Carried>
    ensures { result ≡ carried said.now }
{
    match &said.together {
        Ok(matched) if are_matched(said) => matched.carried,
        _ => None,
    }
}

/// Why a datagram waits, as it is told beside what is said of the other capture.
fn told_why(other: &Result<Meaning, Verdict>, why: Option<Wait>) -> Option<Wait>
    ensures { result ≡ why_told other.now why }
{
    match why {
        Some(Wait::Unsent) => {
            if is_judged_whole(other) {
                Some(Wait::Unsent)
            } else {
                None
            }
        }
        Some(Wait::SentLater) => Some(Wait::SentLater),
        None => None,
    }
}

/// Whether a text was judged to its end.
fn is_judged_whole(said: &Result<Meaning, Verdict>) -> bool
    ensures { result ≡ is_whole said.now }
{
    match said {
        Ok(_) => true,
        Err(Verdict::Refused(Refusal::Unlawful(..) | Refusal::Memory(_))) => false,
        Err(Verdict::Refused(_)) => true,
        Err(Verdict::Capture(_)) => false,
    }
}

/// The datagram that is refused, if there is one.
fn refused(said: &Result<Meaning, Verdict>) -> Option<First>
    ensures { result ≡ refused_first said.now }
{
    match said {
        Err(Verdict::Refused(Refusal::Unlawful(number, _))) => Some(First {
            number: *number,
            why: None,
        }),
        _ => None,
    }
}

/// The status with which the program ends.
pub fn status_of(said: &PairSaid) -> u8
    ensures { result ≡ status_for said.now }
{
    if is_of_fault(&said.client) || is_of_fault(&said.server) {
        return 2;
    }
    match &said.together {
        Ok(_) => { if said.is_matched() { 0 } else { 1 } }
        Err(_) => 2,
    }
}

/// Whether a text has a fault, or could not be judged.
fn is_of_fault(said: &Result<Meaning, Verdict>) -> bool
    ensures { result ≡ is_fault (checked said.now).status }
{
    match said {
        Ok(_) => false,
        Err(Verdict::Refused(Refusal::Memory(_))) => true,
        Err(Verdict::Refused(_)) => false,
        Err(Verdict::Capture(_)) => true,
    }
}
