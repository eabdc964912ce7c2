//! Datagrams of no transfer that may be of one by their times.

ghost use Rattle.std.specs.Prelude.{◌≡◌, ◌∷◌, List, [], IfOk, OnOk, if◌then◌else◌, option_map};
ghost use Rattle.std.specs.BTreeMap.{get};
ghost use Rattle.audit_flows.specs.{Endpoint as EndpointValue};
ghost use Rattle.audit_flows.specs.Lines.{endpoint_cmp, same_endpoint};
ghost use Rattle.audit_recording.specs.Reasons.Unplaced.{Event, IsUnplacedAfter, after, begins_so, is_it, is_later, later, latest_at, newest_of};
ghost use Rattle.audit_recording.specs.Reasons.Unplaced.Event.{Ends, Opens, Passes};

use crate::blame::Passing;
use audit_flows::lines::Endpoint;
use std::alloc::{AllocError, Global};
use std::collections::BTreeMap;

/// Where and when datagrams of no transfer passed.
#[derive(Drop)]
pub struct Unplaced {
    /// The one with the greatest time, of what came from an endpoint or went there.
    latest: BTreeMap<Endpoint, Moment>,
    /// The number of the newest transfer of each client.
    of_clients: BTreeMap<Endpoint, u64>,
}

/// When a frame passed.
#[derive(Clone, Copy)]
struct Moment {
    /// Its number, from 1.
    frame: u64,
    /// In nanoseconds since 1970.
    time: u64,
}

impl Unplaced {
    /// Nothing was read.
    pub fn new(alloc: Global) -> Self
        ensures { IsUnplacedAfter result [] }
    {
        Unplaced {
            latest: BTreeMap::new(alloc),
            of_clients: BTreeMap::new(alloc),
        }
    }

    /// Notes what belongs to no transfer, if it begins as a packet does (RFC 1350, section 5; RFC 2347).
    /// After an error it stands for nothing, here and below.
    pub fn note(&mut self, passing: &Passing<'_>, time: u64) -> Result<(), AllocError>
        ensures { (history : List Event) → IsUnplacedAfter self.old history
            → OnOk result (IsUnplacedAfter self.new (Passes passing.now.source passing.now.target passing.now.payload.now (record { frame = passing.now.frame; time = time }) ∷ history)) }
    {
        if !begins_so(passing.payload) {
            return Ok(());
        }
        let moment = Moment {
            frame: passing.frame,
            time,
        };
        note_at(&mut self.latest, passing.source, moment)?;
        note_at(&mut self.latest, passing.target, moment)
    }

    /// Notes the request of a client that opens a transfer at this time. Answers a frame before it that has a later time.
    pub fn open(
        &mut self,
        client: Endpoint,
        number: u64,
        time: u64,
    ) -> Result<Option<u64>, AllocError>
        ensures stands { (history : List Event) → IsUnplacedAfter self.old history → OnOk result (IsUnplacedAfter self.new (Opens client number ∷ history)) }
        ensures frame { (history : List Event) → IsUnplacedAfter self.old history → IfOk result (λ frame. frame ≡ after time (latest_at client history)) }
    {
        self.of_clients.insert(client, number)?;
        match self.latest.get(&client) {
            Some(latest) if latest.time > time => Ok(Some(latest.frame)),
            _ => Ok(None),
        }
    }

    /// The newest transfer of this client, if it has not ended.
    pub fn newest(&self, client: Endpoint) -> Option<u64>
        ensures { (history : List Event) → IsUnplacedAfter self.now history → result ≡ newest_of client history }
    {
        self.of_clients.get(&client).copied()
    }

    /// The transfer with this number has ended.
    pub fn end(&mut self, client: Endpoint, number: u64)
        ensures { (history : List Event) → IsUnplacedAfter self.old history → IsUnplacedAfter self.new (Ends client number ∷ history) }
    {
        if self.is_newest(client, number) {
            self.of_clients.remove(&client);
        }
    }

    /// Whether the newest transfer of this client has this number, and has not ended.
    fn is_newest(&self, client: Endpoint, number: u64) -> bool
        ensures { result ≡ is_it number (get endpoint_cmp self.now.of_clients client) }
    {
        match self.of_clients.get(&client) {
            Some(newest) => *newest == number,
            None => false,
        }
    }
}

/// Whether a payload begins as a packet does (RFC 1350, section 5; RFC 2347).
fn begins_so(payload: &[u8]) -> bool
    ensures { result ≡ begins_so payload.now }
{
    matches!(payload, [0, 1..=6, ..])
}

/// Notes what passed at an endpoint, if no later time is noted there.
fn note_at(
    latest: &mut BTreeMap<Endpoint, Moment>,
    end: Endpoint,
    moment: Moment,
) -> Result<(), AllocError>
    ensures { OnOk result ((e : EndpointValue) → get endpoint_cmp latest.new e
        ≡ (if same_endpoint end e then later (get endpoint_cmp latest.old e) moment else get endpoint_cmp latest.old e)) }
{
    if is_later(latest.get(&end), &moment) {
        latest.insert(end, moment)?;
    }
    Ok(())
}

/// Whether a moment is later than the one before, if there is one.
fn is_later(before: Option<&Moment>, moment: &Moment) -> bool
    ensures { result ≡ is_later (option_map (λ m. m.now) before.entry) moment.now }
{
    match before {
        Some(before) => before.time < moment.time,
        None => true,
    }
}
