//! What is recorded, as a tap is given it.

ghost use Rattle.std.specs.Prelude.{◌≡◌, ℕ, List, length, IfOk};
ghost use Rattle.audit_recording.specs.Between.Captured.{peer_of, sides_by, sides_of};
ghost use Rattle.audit_recording.specs.Between.Kept.{passed_as, side_of};
ghost use Rattle.judge_tap.specs.{passing_of};
ghost use Rattle.audit_flows.specs.Transfers.{AreEndsAfter};
ghost use Rattle.audit_flows.specs.Lines.{Placed};
ghost use Rattle.audit_views.specs.Views.{held_of};

use audit_flows::lines::{Endpoint, Transfer};
use audit_flows::transfers::TransferEnds;
use audit_views::parties::host_of;
use audit_views::views::{Fed, Party};
use judge_tap::TapDatagram;
use law_tap::Sides;
use std::alloc::{AllocError, Global};
use tftp_packet::Bytes;
use tftp_packet::hosts::Peer;
use tftp_packet::rounds::Rollover;

/// The sides of a transfer whose ends are known, with what comes after block 65535: where no server is, it is whom the client
/// asked.
pub fn sides_of(transfer: &Transfer, rollover: Option<Rollover>, ends: &TransferEnds) -> Sides
    requires number { ends.now.number ≡ transfer.now.number }
    ensures { (placed : List Placed) → AreEndsAfter ends.now placed → result ≡ sides_by rollover (sides_of transfer.now placed) }
{
    let server = match ends.server() {
        Some(server) => server,
        None => transfer.asked,
    };
    Sides {
        client: peer_of(transfer.client),
        asked: peer_of(transfer.asked),
        server: peer_of(server),
        rollover,
    }
}

fn peer_of(end: Endpoint) -> Peer
    ensures { result ≡ peer_of end }
{
    Peer {
        host: host_of(&end.address),
        port: end.port,
    }
}

fn side_of(party: &Party) -> Peer
    ensures { result ≡ side_of party.now }
{
    Peer {
        host: party.host,
        port: party.end.port,
    }
}

/// A copy of a datagram, as it passed.
pub fn passed(alloc: Global, fed: &Fed<'_>) -> Result<TapDatagram, AllocError>
    ensures passed { IfOk result (λ d. passing_of d ≡ passed_as (held_of fed.now)) }
    ensures short { IfOk result (λ d. length d.payload ≡ length fed.now.payload.now) }
{
    Ok(TapDatagram {
        source: side_of(fed.source),
        destination: side_of(fed.target),
        payload: Bytes::of(Vec::from_slice(alloc, fed.payload)?),
    })
}
