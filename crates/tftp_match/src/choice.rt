//! Which of several pairs of transfers is taken.

ghost use Rattle.std.specs.Prelude.{◌≡◌, ◌⊎◌, ◌↔◌, IsNone, IsTrue, IfSome};
ghost use Rattle.tftp_judge.specs.{WantsMemory};
ghost use Rattle.tftp_match.specs.Choice.{matched_in, sole};
ghost use Rattle.tftp_match.specs.Firsts.{is_matched};

use crate::facts::are_matched;
use judge_pair::match_texts::PairSaid;
use tftp_capture::CaptureFault;
use tftp_judge::{Meaning, Refusal, Verdict};

/// A pair of transfers that was tried: the captures of both were judged together.
#[derive(Clone, Copy, Debug, PartialEq, Eq)]
pub struct Tried {
    /// The number of the transfer in the client's capture.
    pub client: u64,
    /// The number of the transfer in the server's capture.
    pub server: u64,
    /// Whether one run of the two ends has both.
    pub is_matched: bool,
}

/// A pair of transfers, and what there is to say of its captures.
#[derive(Drop)]
pub struct Judged {
    /// The number of the transfer in the client's capture.
    pub client: u64,
    /// The number of the transfer in the server's capture.
    pub server: u64,
    /// What there is to say of both.
    pub said: PairSaid,
}

/// Which pair is taken of two captures.
#[derive(Drop)]
pub enum Choice {
    /// This one, which was judged.
    Taken(Judged),
    /// None.
    Nothing(Untaken),
}

/// Why no pair is taken.
#[derive(Drop)]
pub enum Untaken {
    /// So many have one request, too many to try each.
    TooMany(usize),
    /// Of these, which were tried, none goes together, or more than one does.
    NotAlone(Vec<Tried>),
}

impl Tried {
    /// The pair that was judged; none where memory ran out.
    pub fn of(judged: &Judged) -> Option<Self>
        ensures is { IfSome result (λ pair. pair ≡ record { client = judged.now.client; server = judged.now.server; is_matched = is_matched judged.now.said }) }
        ensures wanting { IsNone result ↔ (WantsMemory judged.now.said.client ⊎ WantsMemory judged.now.said.server) }
    {
        let said = &judged.said;
        if wants_memory(&said.client) {
            return None;
        }
        if wants_memory(&said.server) {
            return None;
        }
        Some(Tried {
            client: judged.client,
            server: judged.server,
            is_matched: are_matched(said),
        })
    }
}

/// Whether memory ran out while a text was judged.
fn wants_memory(said: &Result<Meaning, Verdict>) -> bool
    ensures { IsTrue result ↔ WantsMemory said.now }
{
    match said {
        Err(Verdict::Capture(CaptureFault::Memory(_))) => true,
        Err(Verdict::Refused(Refusal::Memory(_))) => true,
        _ => false,
    }
}

/// The pair that alone goes together, of those that were tried; none where none does, or several do.
pub fn chosen(tried: &[Tried]) -> Option<Tried>
    ensures { result ≡ sole (matched_in tried.now) }
{
    let mut found = None;
    for one in tried {
        if one.is_matched {
            match found {
                None => found = Some(*one),
                Some(_) => return None,
            }
        }
    }
    found
}
