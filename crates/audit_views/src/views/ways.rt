//! Which way a datagram passed an end of its transfer.

ghost use Rattle.std.specs.Prelude.{◌≡◌, ℕ, List, if◌then◌else◌};
ghost use Rattle.tftp_capture.specs.{datagram_of};
ghost use Rattle.tftp_packet.specs.{In, Out};
ghost use Rattle.audit_flows.specs.Transfers.{AreEndsAfter, is_end, server_of};
ghost use Rattle.audit_flows.specs.Lines.{Placed};
ghost use Rattle.audit_views.specs.Views.Captured.{captured_as, way_at_client, way_at_server};

use crate::views::party::Party;
use audit_flows::lines::{Endpoint, Place, Transfer};
use audit_flows::transfers::TransferEnds;
use tftp_capture::Datagram;
use tftp_packet::Bytes;
use tftp_packet::hosts::Dir;

/// At the client: what the client sent goes out.
pub fn way_at_client(transfer: &Transfer, source: Endpoint) -> Dir
    ensures { (p : Placed) → p.datagram.source ≡ source → result ≡ way_at_client transfer.now p }
{
    way(source == transfer.client)
}

/// At the server, where it belongs there: of a talk what the client did not send goes out, and of what passed beside what the
/// server sent. The ends are those of all datagrams.
pub fn way_at_server(
    transfer: &Transfer,
    ends: &TransferEnds,
    place: &Place,
    source: Endpoint,
) -> Dir
    ensures { (whole : List Placed) (p : Placed) → AreEndsAfter ends.now whole → ends.now.number ≡ transfer.now.number
        → place.now ≡ p.place → p.datagram.source ≡ source → result ≡ way_at_server transfer.now whole p }
{
    match place {
        Place::Talks(_) => way(source != transfer.client),
        Place::Beside(_) => way(is_server(ends, source)),
        _ => Dir::In,
    }
}

fn way(goes_out: bool) -> Dir
    ensures { result ≡ (if goes_out then Out else In) }
{
    if goes_out { Dir::Out } else { Dir::In }
}

fn is_server(ends: &TransferEnds, end: Endpoint) -> bool
    ensures { (whole : List Placed) → AreEndsAfter ends.now whole → result ≡ is_end end (server_of ends.now.number whole) }
{
    match ends.server() {
        None => false,
        Some(server) => end == server,
    }
}

/// The port of the end that a datagram passed this way, and the party at the other end.
pub fn sides(dir: Dir, source: &Party, target: &Party) -> (u16, Party)
    ensures { (payload : List ℕ) → captured_as dir source.now target.now payload
        ≡ record { dir = dir; local = result.0; host = result.1.host; remote = result.1.end.port; payload = payload } }
{
    match dir {
        Dir::Out => (source.end.port, *target),
        Dir::In => (target.end.port, *source),
    }
}

/// A datagram as the capture of the end that it passed this way has it.
pub(crate) fn captured(dir: Dir, source: &Party, target: &Party, payload: Bytes) -> Datagram
    ensures { datagram_of result ≡ captured_as dir source.now target.now payload }
{
    let (local_port, remote) = sides(dir, source, target);
    Datagram {
        dir,
        local_port,
        remote_host: remote.host,
        remote_port: remote.end.port,
        payload,
    }
}
