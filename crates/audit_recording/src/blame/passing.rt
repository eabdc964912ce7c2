//! A datagram of a recording.

ghost use Rattle.std.specs.Prelude.{◌≡◌, ℕ};
ghost use Rattle.audit_flows.specs.Lines.{Placed};
ghost use Rattle.audit_flows.specs.Transfers.{is_about, is_it};

use audit_flows::lines::{Endpoint, Place};

/// A datagram as it passed in a recording.
#[derive(Clone, Copy)]
pub struct Passing<'a> {
    /// The number of its frame, from 1.
    pub frame: u64,
    /// In nanoseconds since 1970, where the recording tells it.
    pub time: Option<u64>,
    /// Whether it may be a copy of the datagram before it.
    pub is_doubtful: bool,
    /// Whether it was received with an error of its link, so that its host discarded it.
    pub has_error: bool,
    /// Whether its checksum or that of its IP header is wrong, so that its host may have discarded it (RFC 1122, sections 3.2.1.2
    /// and 4.1.3.4). One that was left to its sender's network card is not.
    pub has_wrong_checksum: bool,
    /// Whether it may be several datagrams that were recorded as one, before their checksums were made.
    pub is_joined: bool,
    /// Where it came from.
    pub source: Endpoint,
    /// Where it went.
    pub target: Endpoint,
    /// What it carried.
    pub payload: &'a [u8],
}

/// The number of the transfer of which a datagram there is, at its client or beside its server.
pub fn about(place: &Place) -> Option<u64>
    ensures { (p : Placed) → place.now ≡ p.place → (n : ℕ) → is_about n p ≡ is_it n result }
{
    match place {
        Place::Opens(transfer) => Some(transfer.number),
        Place::Repeats(transfer) => Some(transfer.number),
        Place::Talks(transfer) => Some(transfer.number),
        Place::Beside(transfer) => Some(transfer.number),
        Place::Apart(_) => None,
        Place::Nowhere => None,
    }
}
