//! The place of each datagram of a recording, in one pass.

ghost use Rattle.std.specs.Prelude.{◌≡◌, ◌≢◌, ◌≤◌, ◌+◌, ◌∷◌, ℕ, List, [], MatchBool, OnOk, IfOk, IsOk, Err, ◌^◌, ◌<◌, max, true, false, ◌&&◌, ◌||◌, not, is_some, nat_le, MatchOption, IfSome, Some, None, if◌then◌else◌};
ghost use Rattle.std.specs.BTreeMap.{get};
ghost use Rattle.audit_flows.specs.Lines.{Recorded, endpoint_cmp, Placed, live, line, clock, newest_of, silence, talk_in, place_asked, place_at, IsLineOf, AreLinesOf, seen_of, doubts_of, is_apart_from_lines, is_near, is_stray_at, may_be_tftp};
ghost use Rattle.audit_flows.specs.declared.lines.place.Place.{Place};
ghost use Rattle.audit_flows.specs.declared.lines.place.Transfer.{Transfer};
ghost use Rattle.audit_flows.specs.Transfers.Places.{is_client, is_service, asks, either, at_client, served_by, served_at, beside, beside_by, is_nowhere, or_talks, place_of, and_then};
ghost use Rattle.audit_flows.specs.Transfers.Kept.{IsAfter, AreServed, AreServices, AreStrays, IsRecorded, is_asked, takes_memory};
ghost use Rattle.audit_flows.specs.declared.transfers.attribution.AttributionFault.{AttributionFault};

use crate::lines::{
    Address, Doubts, Endpoint, Kind, Line, Place, Seen, Transfer, is_recent, other_end,
};
use crate::transfers::all_lines::{note, open, repeat};
use crate::transfers::letting_go::{Dated, let_some_go};
use std::alloc::{AllocError, Global};
use std::collections::{BTreeMap, BTreeSet};
use std::convert::From;

/// Why a datagram got no place.
#[derive(Clone, Copy, Debug, PartialEq, Eq)]
pub enum AttributionFault {
    /// No memory to keep it.
    Memory,
    /// More datagrams than can be counted: 2^64 - 1 have passed.
    TooMany,
}

impl From<AllocError> for AttributionFault {
    ghost use Rattle.audit_flows.specs.declared.transfers.attribution.AttributionFault.{AttributionFault};

    ghost from_gives = { λ _ fault. fault ≡ AttributionFault.Memory };

    fn from(_error: AllocError) -> Self {
        AttributionFault::Memory
    }
}

/// Where a datagram belongs, and what it makes doubtful.
#[derive(Clone, Copy, Debug, PartialEq, Eq)]
pub struct Attributed {
    /// Where it belongs.
    pub place: Place,
    /// What it makes doubtful.
    pub doubts: Doubts,
}

/// What an endpoint sent last to a client.
#[derive(Clone, Copy)]
pub(crate) struct Served {
    pub transfer: Transfer,
    pub moment: u64,
}

impl Dated for Served {
    ghost moment = { λ served. served.moment };

    fn moment(&self) -> u64 {
        self.moment
    }
}

/// When something of no line passed last at an endpoint.
#[derive(Clone, Copy)]
pub(crate) struct Strayed {
    pub moment: u64,
}

impl Dated for Strayed {
    ghost moment = { λ strayed. strayed.moment };

    fn moment(&self) -> u64 {
        self.moment
    }
}

/// What is kept of the datagrams before: the lines of the clients, and who served them.
#[derive(Drop)]
pub struct Attribution {
    /// Port 69, and those that were named.
    named: BTreeSet<u16>,
    /// These, and those to which requests went.
    services: BTreeSet<u16>,
    lines: BTreeMap<Endpoint, Line>,
    served: BTreeMap<Endpoint, Served>,
    strays: BTreeMap<Endpoint, Strayed>,
    /// The greatest time up to here.
    clock: u64,
    /// How many datagrams have passed.
    count: u64,
    /// Memory was wanting: it stands for no datagrams any more.
    failed: bool,
    /// The line that was looked at last, and the endpoints of the other two: whether they are to be let go.
    looked_at: LookedAt,
}

/// Where the search for what is to be let go stands.
#[derive(Clone, Copy)]
pub(crate) struct LookedAt {
    pub line: Endpoint,
    pub served: Endpoint,
    pub stray: Endpoint,
}

/// How many of each are kept.
#[derive(Clone, Copy)]
pub(crate) struct Counts {
    pub lines: usize,
    pub served: usize,
    pub strays: usize,
}

const FIRST: Endpoint = Endpoint {
    address: Address::V4([0; 4]),
    port: 0,
};

impl Attribution {
    /// Nothing has passed. Requests go to port 69 (RFC 1350, section 4) and to the ports that are named.
    pub fn new(alloc: Global, named: &[u16]) -> Result<Self, AllocError>
        ensures { IfOk result (λ a. IsAfter a named.now []) }
    {
        Ok(Attribution {
            named: services_of(alloc, named)?,
            services: services_of(alloc, named)?,
            lines: BTreeMap::new(alloc),
            served: BTreeMap::new(alloc),
            strays: BTreeMap::new(alloc),
            clock: 0,
            count: 0,
            failed: false,
            looked_at: LookedAt {
                line: FIRST,
                served: FIRST,
                stray: FIRST,
            },
        })
    }

    /// Where the next datagram of the recording belongs, and what it makes doubtful. Times are in nanoseconds; `is_spelled` says whether the payload
    /// spells a request from its first byte to its last. Once memory ran out, that is answered for good.
    pub fn feed(
        &mut self,
        alloc: Global,
        time: u64,
        source: Endpoint,
        target: Endpoint,
        payload: &[u8],
        is_spelled: bool,
    ) -> Result<Attributed, AttributionFault>
        ensures place { (named : List ℕ) (older : List Placed) (d : Recorded) → IsAfter self.old named older
            → IsRecorded d time source target payload.now is_spelled
            → IfOk result (λ found. found.place ≡ place_of named older (max time (clock older)) d) }
        ensures doubts { (named : List ℕ) (older : List Placed) (d : Recorded) → IsAfter self.old named older
            → IsRecorded d time source target payload.now is_spelled
            → IfOk result (λ found. found.doubts ≡ doubts_of (record { datagram = d; moment = max time (clock older); place = found.place }) older) }
        ensures stands { (named : List ℕ) (older : List Placed) (d : Recorded) → IsAfter self.old named older
            → IsRecorded d time source target payload.now is_spelled
            → OnOk result (IsAfter self.new named (and_then named older d)) }
        ensures full { result ≡ Err AttributionFault.TooMany → (self.old.count + 1 ≡ 2 ^ 64) × (self.new ≡ self.old) }
        ensures memory { result ≡ Err AttributionFault.Memory → self.new.failed ≡ true }
        ensures spare { (named : List ℕ) (older : List Placed) (d : Recorded) → IsAfter self.old named older
            → IsRecorded d time source target payload.now is_spelled
            → takes_memory (place_of named older (max time (clock older)) d) d ≡ false → result ≢ Err AttributionFault.Memory }
        ensures for_good { self.old.failed ≡ true → result ≡ Err AttributionFault.Memory }
    {
        if self.failed {
            return Err(AttributionFault::Memory);
        }
        if self.count == u64::MAX {
            return Err(AttributionFault::TooMany);
        }
        let now = time.max(self.clock);
        let kind = Kind::new(payload);
        let seen = Seen {
            source,
            target,
            time,
            kind,
        };
        let place = self.place_of(&seen, payload, is_spelled, now);
        let doubts = self.doubts(&place, &seen, payload, now);
        let before = Counts {
            lines: self.lines.len(),
            served: self.served.len(),
            strays: self.strays.len(),
        };
        match self.keep(alloc, &place, &seen, payload, now) {
            Ok(()) => {
                self.let_go(&before);
                Ok(Attributed { place, doubts })
            }
            Err(_) => {
                self.failed = true;
                Err(AttributionFault::Memory)
            }
        }
    }

    /// Lets go of what has been silent for more than 300 s: looks at two lines where there is one more than there were,
    /// and at two endpoints that served, or at which something of no line passed, likewise. So there are at most about twice
    /// as many as were not silent.
    fn let_go(&mut self, before: &Counts)
        ensures { (named : List ℕ) (older : List Placed) → IsAfter self.old named older → IsAfter self.new named older }
    {
        let at = &mut self.looked_at;
        let_some_go(&mut self.lines, before.lines, &mut at.line, self.clock);
        let_some_go(&mut self.served, before.served, &mut at.served, self.clock);
        let_some_go(&mut self.strays, before.strays, &mut at.stray, self.clock);
    }

    /// Keeps a datagram that belongs there.
    fn keep(
        &mut self,
        alloc: Global,
        place: &Place,
        seen: &Seen,
        payload: &[u8],
        now: u64,
    ) -> Result<(), AllocError>
        requires { self.old.count + 1 < 2 ^ 64 }
        ensures stands { (named : List ℕ) (older : List Placed) (d : Recorded) → IsAfter self.old named older → clock older ≤ now
            → seen.now ≡ seen_of d → d.payload ≡ payload.now → place.now ≡ place_of named older now d
            → OnOk result (IsAfter self.new named (record { datagram = d; moment = now; place = place.now } ∷ older)) }
        ensures spare { (d : Recorded) → seen.now ≡ seen_of d → takes_memory place.now d ≡ false → IsOk result }
    {
        self.keep_line(alloc, place, seen, payload, now)?;
        keep_served(&mut self.served, place, seen, now)?;
        keep_strays(&mut self.strays, place, seen, now)?;
        keep_service(&mut self.services, place, seen.target.port)?;
        self.clock = now;
        self.count += 1;
        Ok(())
    }

    /// Whether it is port 69, or was named.
    fn is_named(&self, port: u16) -> bool
        ensures { (named : List ℕ) (older : List Placed) → IsAfter self.now named older → result ≡ is_service named [] port }
    {
        self.named.contains(&port)
    }

    fn is_service(&self, port: u16) -> bool
        ensures { (named : List ℕ) (older : List Placed) → IsAfter self.now named older → result ≡ is_service named older port }
    {
        self.services.contains(&port)
    }

    /// What is kept of a client's line, unless it has been silent until now.
    fn line(&self, client: &Endpoint, now: u64) -> Option<&Line>
        ensures { (named : List ℕ) (older : List Placed) → IsAfter self.now named older → clock older ≤ now
            → MatchOption result (live now (line client.now older) ≡ [])
            (λ l. (l.now.latest.client ≡ client.now) × IsLineOf l.now (live now (line client.now older))) }
    {
        match self.lines.get(client) {
            Some(line) => {
                if is_recent(line.moment, now) {
                    Some(line)
                } else {
                    None
                }
            }
            None => None,
        }
    }

    /// Whether a client talks with this endpoint.
    fn talks(&self, client: &Endpoint, other: &Endpoint, now: u64) -> bool
        ensures { (named : List ℕ) (older : List Placed) → IsAfter self.now named older → clock older ≤ now
            → result ≡ is_some (talk_in client.now other.now (live now (line client.now older))) }
    {
        match self.line(client, now) {
            None => false,
            Some(line) => line.talks_with(other),
        }
    }

    /// Whether the endpoint is a client's that has asked, and has not been silent since.
    fn is_client(&self, end: &Endpoint, now: u64) -> bool
        ensures { (named : List ℕ) (older : List Placed) → IsAfter self.now named older → clock older ≤ now
            → result ≡ is_client older now end.now }
    {
        match self.line(end, now) {
            None => false,
            Some(_) => true,
        }
    }

    /// Whether it is a request.
    fn asks(&self, seen: &Seen, is_spelled: bool, now: u64) -> bool
        ensures { (named : List ℕ) (older : List Placed) (d : Recorded) → IsAfter self.now named older → clock older ≤ now
            → seen.now ≡ seen_of d → d.is_spelled ≡ is_spelled → result ≡ asks named older now d }
    {
        if !seen.kind.begins_request {
            return false;
        }
        if self.is_named(seen.target.port) {
            return true;
        }
        let is_client = self.is_client(&seen.target, now);
        let is_service = self.is_service(seen.target.port);
        let talks = self.talks(&seen.source, &seen.target, now);
        goes_to_service(is_client, is_service, is_spelled, talks)
    }

    /// Where a request belongs.
    fn place_asked(&self, seen: &Seen, payload: &[u8], now: u64) -> Place
        ensures { (named : List ℕ) (older : List Placed) (d : Recorded) → IsAfter self.now named older → clock older ≤ now
            → seen.now ≡ seen_of d → d.payload ≡ payload.now
            → result ≡ place_asked self.now.count d (live now (line d.source older)) }
    {
        match self.line(&seen.source, now) {
            None => Place::Opens(Transfer::opened(self.count, seen.source, seen.target, payload)),
            Some(line) => line.place_asked(self.count, seen.target, payload),
        }
    }

    /// Where a datagram between a client and another belongs, by the client's line.
    fn place_at(&self, client: &Endpoint, other: &Endpoint, seen: &Seen, now: u64) -> Place
        ensures { (named : List ℕ) (older : List Placed) (d : Recorded) → IsAfter self.now named older → clock older ≤ now
            → seen.now ≡ seen_of d
            → result ≡ place_at client.now other.now (live now (line client.now older)) d }
    {
        match self.line(client, now) {
            None => Place::Nowhere,
            Some(line) => line.place_at(*other, seen),
        }
    }

    /// Where it belongs by the lines of both its ends.
    fn at_client(&self, seen: &Seen, now: u64) -> Place
        ensures { (named : List ℕ) (older : List Placed) (d : Recorded) → IsAfter self.now named older → clock older ≤ now
            → seen.now ≡ seen_of d → result ≡ at_client older now d }
    {
        either(
            self.place_at(&seen.source, &seen.target, seen, now),
            self.place_at(&seen.target, &seen.source, seen, now),
        )
    }

    /// The transfer in which an endpoint, at no service port, last sent to a client in the last 300 s.
    fn served_at(&self, other: &Endpoint, now: u64) -> Option<Transfer>
        ensures { (named : List ℕ) (older : List Placed) → IsAfter self.now named older → clock older ≤ now
            → result ≡ served_at named older now other.now }
    {
        if self.is_service(other.port) {
            return None;
        }
        self.last_served(other, now)
    }

    fn last_served(&self, other: &Endpoint, now: u64) -> Option<Transfer>
        ensures { (named : List ℕ) (older : List Placed) → IsAfter self.now named older → clock older ≤ now → result ≡ served_by other.now now older }
    {
        match self.served.get(other) {
            Some(served) => {
                if is_recent(served.moment, now) {
                    Some(served.transfer)
                } else {
                    None
                }
            }
            None => None,
        }
    }

    /// Where it belongs by who served.
    fn beside(&self, seen: &Seen, now: u64) -> Place
        ensures { (named : List ℕ) (older : List Placed) (d : Recorded) → IsAfter self.now named older → clock older ≤ now
            → seen.now ≡ seen_of d → result ≡ beside named older now d }
    {
        beside_by(
            self.served_at(&seen.source, now),
            self.served_at(&seen.target, now),
        )
    }

    /// Where a datagram belongs after those that have passed.
    fn place_of(&self, seen: &Seen, payload: &[u8], is_spelled: bool, now: u64) -> Place
        ensures { (named : List ℕ) (older : List Placed) (d : Recorded) → IsAfter self.now named older → clock older ≤ now
            → seen.now ≡ seen_of d → d.payload ≡ payload.now → d.is_spelled ≡ is_spelled
            → result ≡ place_of named older now d }
    {
        if self.asks(seen, is_spelled, now) {
            return self.place_asked(seen, payload, now);
        }
        let place = self.at_client(seen, now);
        if is_nowhere(&place) {
            self.beside(seen, now)
        } else {
            place
        }
    }

    /// Whether at this time no line of the client's goes on: it has been silent for more than 300 s, or has not begun.
    /// Then no datagram joins its transfers any more, and their doubts are what they are.
    pub fn is_over(&self, client: &Endpoint, time: u64) -> bool
        ensures { (named : List ℕ) (older : List Placed) → IsAfter self.now named older
            → MatchBool result (live (max time (clock older)) (line client.now older) ≡ []) (live (max time (clock older)) (line client.now older) ≢ []) }
    {
        match self.line(client, time.max(self.clock)) {
            Some(_) => false,
            None => true,
        }
    }

    /// What a datagram makes doubtful that belongs there.
    fn doubts(&self, place: &Place, seen: &Seen, payload: &[u8], now: u64) -> Doubts
        ensures { (named : List ℕ) (older : List Placed) (d : Recorded) → IsAfter self.now named older → clock older ≤ now
            → seen.now ≡ seen_of d → d.payload ≡ payload.now → place.now ≡ place_of named older now d
            → result ≡ doubts_of (record { datagram = d; moment = now; place = place.now }) older }
    {
        match place.transfer() {
            None => Doubts::none(),
            Some(transfer) => match self.line(&transfer.client, now) {
                None => self.doubts_of_first(place, seen, now),
                Some(line) => {
                    let is_after_strays = self.is_after_strays(&transfer.client, now);
                    line.doubts(place, seen, payload, now, is_after_strays)
                }
            },
        }
    }

    /// The same where no line goes on: then it opens the transfer.
    fn doubts_of_first(&self, place: &Place, seen: &Seen, now: u64) -> Doubts
        ensures { (named : List ℕ) (older : List Placed) (d : Recorded) (x : Transfer) → IsAfter self.now named older → clock older ≤ now
            → seen.now ≡ seen_of d → place.now ≡ Place.Opens x → live now (line x.client older) ≡ []
            → result ≡ doubts_of (record { datagram = d; moment = now; place = Place.Opens x }) older }
    {
        match place {
            Place::Opens(transfer) => {
                let is_after_strays = self.is_after_strays(&transfer.client, now);
                Doubts::of_first(seen.time < now, is_after_strays)
            }
            _ => Doubts::none(),
        }
    }

    /// Whether something of no line passed at the endpoint in the last 300 s.
    fn is_after_strays(&self, client: &Endpoint, now: u64) -> bool
        ensures { (named : List ℕ) (older : List Placed) → IsAfter self.now named older → clock older ≤ now
            → result ≡ is_near now (newest_of (is_stray_at client.now) older) }
    {
        match self.strays.get(client) {
            Some(last) => is_recent(last.moment, now),
            None => false,
        }
    }

    /// Keeps a datagram with its client's line.
    fn keep_line(
        &mut self,
        alloc: Global,
        place: &Place,
        seen: &Seen,
        payload: &[u8],
        now: u64,
    ) -> Result<(), AllocError>
        ensures lines { (named : List ℕ) (older : List Placed) (d : Recorded) → IsAfter self.old named older → clock older ≤ now
            → seen.now ≡ seen_of d → d.payload ≡ payload.now → place.now ≡ place_of named older now d
            → OnOk result (AreLinesOf self.new.lines (record { datagram = d; moment = now; place = place.now } ∷ older)) }
        ensures others { self.new ≡ record self.old { lines = self.new.lines } }
        ensures spare { is_apart_from_lines place.now ≡ true → IsOk result }
    {
        match place {
            Place::Opens(transfer) => {
                open(&mut self.lines, alloc, *transfer, payload, seen.time, now)
            }
            Place::Repeats(transfer) => repeat(&mut self.lines, transfer.client, seen.time, now),
            Place::Talks(transfer) => {
                let other = other_end(&transfer.client, seen);
                note(
                    &mut self.lines,
                    transfer.client,
                    other,
                    Some(*transfer),
                    seen,
                    now,
                )
            }
            Place::Apart(client) => {
                let other = other_end(client, seen);
                note(&mut self.lines, *client, other, None, seen, now)
            }
            Place::Beside(_) => Ok(()),
            Place::Nowhere => Ok(()),
        }
    }
}

/// Keeps that something of no line passed at both its endpoints.
fn keep_strays(
    strays: &mut BTreeMap<Endpoint, Strayed>,
    place: &Place,
    seen: &Seen,
    now: u64,
) -> Result<(), AllocError>
    ensures spare { (d : Recorded) → seen.now ≡ seen_of d → takes_memory place.now d ≡ false → IsOk result }
    ensures strays { (older : List Placed) (d : Recorded) → AreStrays strays.old older → clock older ≤ now → seen.now ≡ seen_of d
        → OnOk result (AreStrays strays.new (record { datagram = d; moment = now; place = place.now } ∷ older)) }
{
    if is_apart_from_lines(place) && may_be_tftp(seen) {
        let last = Strayed { moment: now };
        strays.insert(seen.source, last)?;
        strays.insert(seen.target, last)?;
    }
    Ok(())
}

/// Whether it begins as a packet of TFTP does, or goes to port 69 (RFC 1350, section 4).
fn may_be_tftp(seen: &Seen) -> bool
    ensures { (d : Recorded) → seen.now ≡ seen_of d → result ≡ may_be_tftp d }
{
    seen.kind.begins_packet || seen.target.port == 69
}

/// Whether what belongs there is of no line.
fn is_apart_from_lines(place: &Place) -> bool
    ensures { result ≡ is_apart_from_lines place.now }
{
    match place {
        Place::Beside(_) => true,
        Place::Nowhere => true,
        _ => false,
    }
}

/// Keeps that an endpoint sent to a client.
fn keep_served(
    served: &mut BTreeMap<Endpoint, Served>,
    place: &Place,
    seen: &Seen,
    now: u64,
) -> Result<(), AllocError>
    ensures spare { is_apart_from_lines place.now ≡ true → IsOk result }
    ensures served { (older : List Placed) (d : Recorded) → AreServed served.old older → clock older ≤ now → seen.now ≡ seen_of d
        → OnOk result (AreServed served.new (record { datagram = d; moment = now; place = place.now } ∷ older)) }
{
    match place {
        Place::Talks(transfer) => {
            if seen.target == transfer.client {
                let last = Served {
                    transfer: *transfer,
                    moment: now,
                };
                served.insert(seen.source, last)?;
            }
            Ok(())
        }
        Place::Opens(_) => Ok(()),
        Place::Repeats(_) => Ok(()),
        Place::Apart(_) => Ok(()),
        Place::Beside(_) => Ok(()),
        Place::Nowhere => Ok(()),
    }
}

/// Keeps to which port a request went.
fn keep_service(services: &mut BTreeSet<u16>, place: &Place, port: u16) -> Result<(), AllocError>
    ensures spare { is_apart_from_lines place.now ≡ true → IsOk result }
    ensures services { (named : List ℕ) (older : List Placed) (d : Recorded) (now : ℕ) → AreServices services.old.keys named older → d.target.port ≡ port
        → OnOk result (AreServices services.new.keys named (record { datagram = d; moment = now; place = place.now } ∷ older)) }
{
    if is_asked(place) {
        services.insert(port)?;
    }
    Ok(())
}

/// Port 69 and those that were named.
fn services_of(alloc: Global, named: &[u16]) -> Result<BTreeSet<u16>, AllocError>
    ensures { IfOk result (λ ports. AreServices ports.keys named.now []) }
{
    let mut ports = BTreeSet::new(alloc);
    ports.insert(69)?;
    for port in named {
        ports.insert(*port)?;
    }
    Ok(ports)
}

fn is_asked(place: &Place) -> bool
    ensures { result ≡ is_asked place.now }
{
    match place {
        Place::Opens(_) => true,
        Place::Repeats(_) => true,
        _ => false,
    }
}

/// Of two places, that of a transfer comes before what is apart.
fn either(one: Place, other: Place) -> Place
    ensures { result ≡ either one other }
{
    match one {
        Place::Talks(transfer) => Place::Talks(transfer),
        Place::Nowhere => other,
        one => or_talks(one, other),
    }
}

/// The first, unless the other is that of a transfer.
fn or_talks(one: Place, other: Place) -> Place
    ensures { result ≡ or_talks one other }
{
    match other {
        Place::Talks(transfer) => Place::Talks(transfer),
        _ => one,
    }
}

fn is_nowhere(place: &Place) -> bool
    ensures { result ≡ is_nowhere place.now }
{
    matches!(place, Place::Nowhere)
}

fn beside_by(one: Option<Transfer>, other: Option<Transfer>) -> Place
    ensures { result ≡ beside_by one other }
{
    match one {
        Some(transfer) => Place::Beside(transfer),
        None => match other {
            Some(transfer) => Place::Beside(transfer),
            None => Place::Nowhere,
        },
    }
}

fn goes_to_service(is_client: bool, is_service: bool, is_spelled: bool, talks: bool) -> bool
    ensures { result ≡ (not is_client && (is_service || (is_spelled && not talks))) }
{
    !is_client && (is_service || (is_spelled && !talks))
}
