//! The lines of all clients, with one datagram more. Where none is kept of a client, only `open` notes anything; and after
//! being out of memory they may stand for no datagrams any more.

ghost use Rattle.std.specs.Prelude.{◌≡◌, ◌≢◌, ◌≤◌, ◌∷◌, ℕ, List, [], true, Some, OnOk};
ghost use Rattle.audit_flows.specs.Lines.{Recorded, is_between, Placed, live, line, clock, place_asked, AreLinesOf, IsRequestOf, seen_of, place_of_talk};
ghost use Rattle.audit_flows.specs.declared.lines.place.Place.{Place};
ghost use Rattle.audit_flows.specs.declared.lines.place.Transfer.{Transfer};

use crate::lines::{Endpoint, Line, Seen, Transfer, is_recent};
use crate::transfers::letting_go::Dated;
use std::alloc::{AllocError, Global};
use std::collections::BTreeMap;

/// What is kept of each client's line, by the client's endpoint.
pub(crate) type Lines = BTreeMap<Endpoint, Line>;

/// Notes what passed between a client and another endpoint: of a transfer, or apart.
pub(crate) fn note(
    lines: &mut Lines,
    client: Endpoint,
    other: Endpoint,
    talked: Option<Transfer>,
    seen: &Seen,
    now: u64,
) -> Result<(), AllocError>
    ensures { (older : List Placed) (d : Recorded) → AreLinesOf lines.old older → clock older ≤ now → seen.now ≡ seen_of d
        → is_between client other d ≡ true → ((x : Transfer) → talked ≡ Some x → x.client ≡ client)
        → live now (line client older) ≢ []
        → OnOk result (AreLinesOf lines.new (record { datagram = d; moment = now; place = place_of_talk client talked } ∷ older)) }
{
    match lines.get_mut(&client) {
        Some(line) => line.note(other, talked, seen, now),
        None => Ok(()),
    }
}

/// Notes a request that repeats the one before it.
pub(crate) fn repeat(
    lines: &mut Lines,
    client: Endpoint,
    time: u64,
    now: u64,
) -> Result<(), AllocError>
    ensures { (older : List Placed) (d : Recorded) (number : ℕ) (x : Transfer) → AreLinesOf lines.old older → clock older ≤ now
        → d.source ≡ client → d.time ≡ time → x.client ≡ client → place_asked number d (live now (line client older)) ≡ Place.Repeats x
        → OnOk result (AreLinesOf lines.new (record { datagram = d; moment = now; place = Place.Repeats x } ∷ older)) }
{
    match lines.get_mut(&client) {
        Some(line) => line.repeat(time, now),
        None => Ok(()),
    }
}

/// Notes a request that opens this transfer. Where its client's line has been silent or none is kept, a line begins.
pub(crate) fn open(
    lines: &mut Lines,
    alloc: Global,
    transfer: Transfer,
    payload: &[u8],
    time: u64,
    now: u64,
) -> Result<(), AllocError>
    ensures { (older : List Placed) (d : Recorded) → AreLinesOf lines.old older → clock older ≤ now → IsRequestOf transfer payload.now time d
        → OnOk result (AreLinesOf lines.new (record { datagram = d; moment = now; place = Place.Opens transfer } ∷ older)) }
{
    match lines.get_mut(&transfer.client) {
        Some(line) if is_recent(line.moment, now) => {
            line.open(alloc, transfer, payload, time, now)
        }
        _ => {
            let line = Line::begun(alloc, transfer, payload, time, now)?;
            lines.insert(transfer.client, line)?;
            Ok(())
        }
    }
}

impl Dated for Line {
    ghost moment = { λ line. line.moment };

    fn moment(&self) -> u64 {
        self.moment
    }
}
