ghost use Rattle.std.specs.Prelude.{◌≡◌, ◌⊎◌, Err, IfOk, IsOkAnd, map};
ghost use Rattle.tftp_words.specs.MatchRequests.{Compares, IsMatchRequest, match_asked};
ghost use Rattle.tftp_words.specs.Parts.{Holds};
ghost use Rattle.tftp_words.specs.declared.given.ReadFault.TheVariants.{Memory};

use crate::given::{Given, ReadFault, given_of};
use std::alloc::Global;
use std::convert::AsStr;
use tftp_packet::rounds::Rollover;

/// What `tftp-match` is asked for.
#[derive(Debug, Drop)]
pub struct MatchRequest<'a> {
    /// The capture at the client, and that at the server: texts or recordings; `-` is standard input.
    pub client: &'a str,
    pub server: &'a str,
    /// The number of the transfer in the client's recording, or in the one that there is.
    pub transfer: Option<u64>,
    /// The number of the transfer in the server's recording.
    pub server_transfer: Option<u64>,
    /// The ports to which requests go, beside 69.
    pub services: Vec<u16>,
    /// What comes after block 65535, where numbers begin again.
    pub rollover: Option<Rollover>,
    /// Whether it is wanted how often each packet was sent and taken.
    pub counts: bool,
    /// Whether the answer is wanted in JSON.
    pub json: bool,
}

/// The match that is asked for with what the arguments give.
fn match_by<'a>(given: Given<'a>) -> Result<MatchRequest<'a>, ReadFault>
    ensures ok { (ps : _) → Holds given.entry ps → IfOk result (λ r. Compares (match_asked r) ps) }
    ensures only { (ps a : _) → Holds given.entry ps → Compares a ps → IsOkAnd result (λ r. match_asked r ≡ a) }
{
    match (given.end, given.plain.as_slice()) {
        (None, ["-", "-"]) => Err(ReadFault::TwoInputs),
        (None, [client, server]) => Ok(MatchRequest {
            client: *client,
            server: *server,
            transfer: given.transfer,
            server_transfer: given.server_transfer,
            services: given.services,
            rollover: given.rollover,
            counts: given.counts,
            json: given.json,
        }),
        _ => Err(ReadFault::Unknown),
    }
}

/// The match that the words ask for, the first of which is the program's name.
pub fn match_requested<'a, S: AsStr>(
    alloc: Global,
    words: &'a [S],
) -> Result<MatchRequest<'a>, ReadFault>
    ensures ok { IfOk result (λ r. IsMatchRequest (match_asked r) (map S.text words.entry.now)) }
    ensures only { (a : _) → IsMatchRequest a (map S.text words.entry.now) → IsOkAnd result (λ r. match_asked r ≡ a) ⊎ (result ≡ Err Memory) }
{
    if words.is_empty() {
        return Err(ReadFault::Unknown);
    }
    let given = given_of(alloc, words.split_at(1).1)?;
    match_by(given)
}
