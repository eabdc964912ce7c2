ghost use Rattle.std.specs.Prelude.{◌≡◌, List};
ghost use Rattle.audit_flows.specs.Lines.{Placed};
ghost use Rattle.audit_flows.specs.Transfers.{AreEndsAfter};
ghost use Rattle.audit_recording.specs.Rows.Accusing.{accused_in_row, accused_of, is_servers, role_at};

use crate::rows::telling::Telling;
use audit_flows::lines::{Endpoint, Transfer};
use audit_flows::transfers::TransferEnds;
use tftp_packet::End;

/// The end of a transfer that a refusal accuses.
#[derive(Clone, Copy, Debug, PartialEq, Eq)]
pub struct Accused {
    /// Whether it is the client or the server.
    pub role: End,
    /// Where it sent from: its transfer id and its host (RFC 1350, section 4).
    pub end: Endpoint,
}

/// Which end of a transfer is at this endpoint; none where a stranger is. The ends are those of this transfer, after all of
/// its datagrams.
pub fn role_at(transfer: &Transfer, ends: &TransferEnds, end: Endpoint) -> Option<End>
    ensures { (whole : List Placed) → AreEndsAfter ends.now whole → ends.now.number ≡ transfer.now.number
        → result ≡ role_at transfer.now whole end }
{
    if end == transfer.client {
        return Some(End::Client);
    }
    if is_servers(transfer, ends, end) {
        return Some(End::Server);
    }
    None
}

/// Whether an endpoint is the server's, at the host that was asked or at another one of its own.
fn is_servers(transfer: &Transfer, ends: &TransferEnds, end: Endpoint) -> bool
    ensures { (whole : List Placed) → AreEndsAfter ends.now whole → ends.now.number ≡ transfer.now.number
        → result ≡ is_servers transfer.now whole end }
{
    match ends.server() {
        Some(server) => {
            let is_its_host = end.address == server.address;
            end.port == server.port && (is_its_host || end.address == transfer.asked.address)
        }
        None => false,
    }
}

/// Whom a row accuses that tells the refusal of a datagram from this endpoint; nobody where it tells none, where the refusal is
/// doubtful or depends on the place, or where a stranger sent the datagram.
pub fn accused_in_row(
    told: &Telling,
    transfer: &Transfer,
    ends: &TransferEnds,
    source: Endpoint,
    is_doubtful: bool,
) -> Option<Accused>
    ensures { (whole : List Placed) (p : Placed) → AreEndsAfter ends.now whole → ends.now.number ≡ transfer.now.number
        → p.datagram.source ≡ source → result ≡ accused_in_row transfer.now whole p told.now is_doubtful }
{
    if !told.said.is_refused() {
        return None;
    }
    accused_by(
        transfer,
        ends,
        source,
        told.depends_on_place() || is_doubtful,
    )
}

/// Whom the refusal of a datagram accuses that came from this endpoint; none where the refusal is doubtful, or where a
/// stranger sent it.
fn accused_by(
    transfer: &Transfer,
    ends: &TransferEnds,
    source: Endpoint,
    is_doubtful: bool,
) -> Option<Accused>
    ensures { (whole : List Placed) (p : Placed) → AreEndsAfter ends.now whole → ends.now.number ≡ transfer.now.number
        → p.datagram.source ≡ source → result ≡ accused_of transfer.now whole p is_doubtful }
{
    if is_doubtful {
        return None;
    }
    match role_at(transfer, ends, source) {
        Some(role) => Some(Accused { role, end: source }),
        None => None,
    }
}
