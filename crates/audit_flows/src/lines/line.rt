//! A client's line: what passed at its endpoint since it was last silent.

ghost use Rattle.std.specs.Prelude.{◌≡◌, ◌≤◌, ◌+◌, [], ◌∷◌, ℕ, List, true, false, nat_le, Some, None, Ok, IfOk, OnOk, OnErr, is_some, option_map, bytes_eq, ◌&&◌, ◌||◌, not, if◌then◌else◌};
ghost use Rattle.std.specs.BTreeMap.{get, IsUnchanged};
ghost use Rattle.audit_flows.specs.Lines.Recording.{Recorded, same_endpoint, is_between, endpoint_cmp};
ghost use Rattle.audit_flows.specs.Lines.Places.{Placed, latest_in, live, place_at, place_talked, place_asked, is_known_host, may_answer, silence};
ghost use Rattle.audit_flows.specs.Lines.Kept.{IsLineOf, IsRequestOf, IsHistoryAfter, history_of, seen_of, spoken_after, spoken_of, place_of_talk, comes_to, refuses_to, surely_after, unknown_after, unknown_of, talk_after, ends_after, went_on_after, writes_in, IsTimed, AreTimed};
ghost use Rattle.audit_flows.specs.Lines.Doubting.{acked_0_in, is_unanswered, leaves_unanswered};
ghost use Rattle.law_model.specs.Rules.{or_this};
ghost use Rattle.audit_flows.specs.declared.lines.place.Place.{Place};
ghost use Rattle.audit_flows.specs.declared.lines.place.Transfer.{Transfer};

use crate::lines::endpoint::Endpoint;
use crate::lines::history::History;
use crate::lines::kind::Seen;
use crate::lines::place::{Place, Transfer};
use std::alloc::{AllocError, Global};
use std::collections::BTreeMap;

/// The silence that ends a line, in nanoseconds: 300 s.
const SILENCE: u64 = 300_000_000_000;

/// Whether a moment lies in the last 300 s.
pub fn is_recent(moment: u64, now: u64) -> bool
    ensures { result ≡ nat_le now (moment + silence) }
{
    now <= moment.saturating_add(SILENCE)
}

/// Of a client with another endpoint.
#[derive(Clone, Copy)]
pub struct Talk {
    /// None where the two are apart.
    pub transfer: Option<Transfer>,
    /// The client's last word to it was ACK 0.
    pub acked_0: bool,
}

/// What is kept of a client and another endpoint.
#[derive(Clone, Copy)]
pub struct Talked {
    /// What passed last between the two, requests aside.
    pub talk: Talk,
    /// How far their transfers came; none where they have none.
    pub history: Option<History>,
    /// ERROR 5, "Unknown transfer ID", has passed between the two in one of these (RFC 1350, section 5).
    pub says_unknown_id: bool,
    /// Something else has passed between the two than requests, ERROR 0 and ERROR 5.
    pub has_spoken: bool,
}

/// What is kept of a line.
#[derive(Drop)]
pub struct Line {
    /// The transfer that was opened last.
    pub latest: Transfer,
    /// Who first sent its client a datagram of it.
    pub answered: Option<Endpoint>,
    /// When the line's newest datagram passed.
    pub moment: u64,
    /// The payload of the newest request.
    pub request: Vec<u8>,
    /// The line's newest datagram is a request, but for what is apart.
    pub ends_in_request: bool,
    /// Since the latest transfer was opened, the client sent what is no request and no ERROR.
    pub went_on: bool,
    /// The latest transfer is answered for sure: its client went on, or the host that it asked refused it.
    pub is_answered: bool,
    /// Its client asked for another once, before anybody had answered for sure what it had asked last.
    pub left_unanswered: bool,
    /// The greatest time of each transfer's datagrams, by its number.
    pub newest: BTreeMap<u64, u64>,
    /// With whom the client talks.
    pub talks: BTreeMap<Endpoint, Talked>,
}

impl Line {
    /// Where a request of its client belongs.
    pub fn place_asked(&self, number: u64, target: Endpoint, payload: &[u8]) -> Place
        ensures { (line : List Placed) (d : Recorded) → IsLineOf self.now line → d.source ≡ self.now.latest.client
            → d.target ≡ target → d.payload ≡ payload.now → result ≡ place_asked number d line }
    {
        if self.asks_again(target, payload) {
            return Place::Repeats(self.latest);
        }
        Place::Opens(Transfer::opened(number, self.latest.client, target, payload))
    }

    /// Whether a request of its client is the one before it in the line again.
    fn asks_again(&self, target: Endpoint, payload: &[u8]) -> bool
        ensures { result ≡ (self.now.ends_in_request && bytes_eq self.now.request.items payload.now && same_endpoint self.now.latest.asked target) }
    {
        let is_same = self.request.as_slice() == payload;
        self.ends_in_request && is_same && self.latest.asked == target
    }

    /// Where another datagram between its client and this endpoint belongs.
    pub fn place_at(&self, other: Endpoint, seen: &Seen) -> Place
        ensures { (line : List Placed) (d : Recorded) → IsLineOf self.now line → seen.now ≡ seen_of d
            → result ≡ place_at self.now.latest.client other line d }
    {
        self.place_talked(other, self.talk_with(other), seen)
    }

    /// Of what the client talks with this endpoint.
    pub fn talk_with(&self, other: Endpoint) -> Option<Talk>
        ensures { result ≡ option_map (λ t. t.talk) (get endpoint_cmp self.now.talks other) }
    {
        match self.talks.get(&other) {
            None => None,
            Some(talked) => Some(talked.talk),
        }
    }

    /// What is kept of its client and this endpoint.
    pub(crate) fn talked_with(&self, other: Endpoint) -> Option<Talked>
        ensures { result ≡ get endpoint_cmp self.now.talks other }
    {
        match self.talks.get(&other) {
            None => None,
            Some(talked) => Some(*talked),
        }
    }

    /// Whether its client talks with this endpoint.
    pub fn talks_with(&self, other: &Endpoint) -> bool
        ensures { result ≡ is_some (option_map (λ t. t.talk) (get endpoint_cmp self.now.talks other.now)) }
    {
        self.talks.contains_key(other)
    }

    fn place_talked(&self, other: Endpoint, talk: Option<Talk>, seen: &Seen) -> Place
        ensures { (d : Recorded) → seen.now ≡ seen_of d
            → result ≡ place_talked self.now.latest.client other self.now.latest self.now.answered d talk }
    {
        match talk {
            None => self.place_first(other, seen),
            Some(Talk { transfer: None, .. }) => Place::Apart(self.latest.client),
            Some(
                Talk {
                    transfer: Some(transfer),
                    acked_0,
                },
            ) => {
                if self.goes_over(other, acked_0, seen) {
                    Place::Talks(self.latest)
                } else {
                    Place::Talks(transfer)
                }
            }
        }
    }

    /// Where the first one between the two belongs.
    fn place_first(&self, other: Endpoint, seen: &Seen) -> Place
        ensures { result ≡ (if same_endpoint seen.now.source self.now.latest.client && not (is_known_host self.now.latest self.now.answered other)
            then Place.Apart self.now.latest.client else Place.Talks self.now.latest) }
    {
        if seen.source == self.latest.client && !self.knows(other) {
            Place::Apart(self.latest.client)
        } else {
            Place::Talks(self.latest)
        }
    }

    /// Whether its host was asked, or has answered.
    fn knows(&self, other: Endpoint) -> bool
        ensures { result ≡ is_known_host self.now.latest self.now.answered other }
    {
        if other.address == self.latest.asked.address {
            return true;
        }
        match &self.answered {
            None => false,
            Some(first) => other.address == first.address,
        }
    }

    /// Whether the endpoint goes over to the latest transfer.
    fn goes_over(&self, other: Endpoint, acked_0: bool, seen: &Seen) -> bool
        ensures { (d : Recorded) → seen.now ≡ seen_of d → result ≡ (may_answer self.now.latest.client other self.now.answered d && not (seen.now.kind.is_data_1 && acked_0)) }
    {
        let answers = self.may_answer(self.latest.client, other, seen);
        answers && !(seen.kind.is_data_1 && acked_0)
    }

    /// A line that begins with this transfer's request.
    pub fn begun(
        alloc: Global,
        transfer: Transfer,
        payload: &[u8],
        time: u64,
        now: u64,
    ) -> Result<Line, AllocError>
        ensures stands { (d : Recorded) → IsRequestOf transfer payload.now time d
            → IfOk result (λ l. IsLineOf l (record { datagram = d; moment = now; place = Place.Opens transfer } ∷ [])) }
        ensures latest { IfOk result (λ l. l.latest ≡ transfer) }
    {
        let request = Vec::from_slice(alloc, payload)?;
        let mut newest = BTreeMap::new(alloc);
        note_time(&mut newest, transfer.number, time)?;
        Ok(Line {
            latest: transfer,
            answered: None,
            moment: now,
            request,
            ends_in_request: true,
            went_on: false,
            is_answered: false,
            left_unanswered: false,
            newest,
            talks: BTreeMap::new(alloc),
        })
    }

    /// Notes a request of its client that opens this transfer.
    pub fn open(
        &mut self,
        alloc: Global,
        transfer: Transfer,
        payload: &[u8],
        time: u64,
        now: u64,
    ) -> Result<(), AllocError>
        ensures stands { (line : List Placed) (d : Recorded) → IsLineOf self.old line → IsRequestOf transfer payload.now time d
            → transfer.client ≡ self.old.latest.client
            → OnOk result (IsLineOf self.new (record { datagram = d; moment = now; place = Place.Opens transfer } ∷ line)) }
        ensures latest { OnOk result (self.new.latest ≡ transfer) }
        ensures err { OnErr result ((self.new ≡ record self.old { newest = self.new.newest }) × IsUnchanged self.old.newest self.new.newest) }
    {
        let left_unanswered = self.leaves_unanswered();
        let request = Vec::from_slice(alloc, payload)?;
        note_time(&mut self.newest, transfer.number, time)?;
        self.latest = transfer;
        self.answered = None;
        self.moment = now;
        self.request = request;
        self.ends_in_request = true;
        self.went_on = false;
        self.is_answered = false;
        self.left_unanswered = left_unanswered;
        Ok(())
    }

    /// Whether its client leaves a request that nobody has answered for sure, if it asks for another now.
    pub(crate) fn leaves_unanswered(&self) -> bool
        ensures { (line : List Placed) → IsLineOf self.now line → result ≡ (is_unanswered line (latest_in line) || leaves_unanswered line) }
    {
        self.answered.is_none() || !self.is_answered || self.left_unanswered
    }

    /// Notes a request that repeats the one before it.
    pub fn repeat(&mut self, time: u64, now: u64) -> Result<(), AllocError>
        ensures stands { (line : List Placed) (d : Recorded) (number : ℕ) (x : Transfer) → IsLineOf self.old line
            → d.source ≡ self.old.latest.client → d.time ≡ time → place_asked number d line ≡ Place.Repeats x
            → OnOk result (IsLineOf self.new (record { datagram = d; moment = now; place = Place.Repeats x } ∷ line)) }
        ensures latest { self.new.latest ≡ self.old.latest }
    {
        note_time(&mut self.newest, self.latest.number, time)?;
        self.moment = now;
        Ok(())
    }

    /// Notes what passed last between its client and this endpoint: of a transfer, or apart.
    pub fn note(
        &mut self,
        other: Endpoint,
        talked: Option<Transfer>,
        seen: &Seen,
        now: u64,
    ) -> Result<(), AllocError>
        ensures stands { (line : List Placed) (d : Recorded) → IsLineOf self.old line → seen.now ≡ seen_of d
            → is_between self.old.latest.client other d ≡ true
            → OnOk result (IsLineOf self.new (record { datagram = d; moment = now; place = place_of_talk self.old.latest.client talked } ∷ line)) }
        ensures client { self.new.latest ≡ self.old.latest }
    {
        let before = self.talked_with(other);
        let all = talked_after(self.latest.client, other, talked, seen, before);
        self.talks.insert(other, all)?;
        note_talk(&mut self.newest, &talked, seen.time)?;
        self.went_on = went_on_after(&talked, seen, self.went_on);
        self.is_answered = self.surely_after(&talked, seen);
        self.answered = self.answered_after(talked, seen);
        self.ends_in_request = ends_after(&talked, self.ends_in_request);
        self.moment = now;
        Ok(())
    }

    /// Whether the latest transfer is answered for sure, after one datagram more that is no request.
    fn surely_after(&self, talked: &Option<Transfer>, seen: &Seen) -> bool
        ensures { result ≡ surely_after self.now.latest.number talked.now seen.now self.now.is_answered }
    {
        match talked {
            None => self.is_answered,
            Some(transfer) => {
                let is_latest = transfer.number == self.latest.number;
                (answers_surely(transfer, seen) && is_latest) || self.is_answered
            }
        }
    }

    /// Who first sent the client a datagram of the latest transfer, after one datagram more.
    fn answered_after(&self, talked: Option<Transfer>, seen: &Seen) -> Option<Endpoint>
        ensures { result ≡ or_this self.now.answered (comes_to self.now.latest talked seen.now) seen.now.source }
    {
        match (&self.answered, &talked) {
            (Some(first), _) => Some(*first),
            (None, Some(transfer))
                if transfer.number == self.latest.number && seen.target == self.latest.client => {
                Some(seen.source)
            }
            (None, _) => None,
        }
    }
}

/// What is kept of a client and another endpoint, after one datagram more between the two that is no request.
fn talked_after(
    client: Endpoint,
    other: Endpoint,
    talked: Option<Transfer>,
    seen: &Seen,
    before: Option<Talked>,
) -> Talked
    ensures talk { result.talk ≡ talk_after client other talked seen.now (option_map (λ t. t.talk) before) }
    ensures history { IsHistoryAfter (history_of before) result.history client talked seen.now }
    ensures unknown { result.says_unknown_id ≡ unknown_after talked seen.now (unknown_of before) }
    ensures spoken { result.has_spoken ≡ spoken_after seen.now (spoken_of before) }
{
    Talked {
        talk: talk_after(client, other, talked, seen, talk_of(before)),
        history: history_after(client, &talked, seen, history_of(before)),
        says_unknown_id: unknown_after(&talked, seen, has_told_unknown_id(before)),
        has_spoken: spoken_after(seen, has_spoken(before)),
    }
}

/// What passed last between a client and another endpoint, after one datagram more.
fn talk_after(
    client: Endpoint,
    other: Endpoint,
    talked: Option<Transfer>,
    seen: &Seen,
    before: Option<Talk>,
) -> Talk
    ensures { result ≡ talk_after client other talked seen.now before }
{
    let acked_0 = if seen.source == client && seen.target == other {
        seen.kind.is_ack_0
    } else {
        was_acked_0(before)
    };
    Talk {
        transfer: talked,
        acked_0,
    }
}

/// How far the transfers of the two came, after one datagram more.
fn history_after(
    client: Endpoint,
    talked: &Option<Transfer>,
    seen: &Seen,
    before: Option<History>,
) -> Option<History>
    ensures { IsHistoryAfter before result client talked.now seen.now }
{
    match talked {
        None => before,
        Some(transfer) => {
            let writes = writes_in(client, transfer, seen);
            Some(History::after(before, transfer, writes, seen.kind.number))
        }
    }
}

/// Whether a file is written by a datagram of this transfer between its client and another endpoint.
fn writes_in(client: Endpoint, transfer: &Transfer, seen: &Seen) -> bool
    ensures { result ≡ writes_in client transfer.now seen.now }
{
    if seen.kind.is_block {
        return seen.source == client;
    }
    if seen.kind.is_ack {
        return seen.source != client;
    }
    transfer.writes
}

/// What passed last between a client and another endpoint, requests aside.
pub(crate) fn talk_of(talked: Option<Talked>) -> Option<Talk>
    ensures { result ≡ option_map (λ t. t.talk) talked }
{
    match talked {
        None => None,
        Some(talked) => Some(talked.talk),
    }
}

/// What the two said to each other in their transfers.
pub(crate) fn history_of(talked: Option<Talked>) -> Option<History>
    ensures { result ≡ history_of talked }
{
    match talked {
        None => None,
        Some(talked) => talked.history,
    }
}

/// Whether ERROR 5 has passed between the two in one of their transfers.
pub(crate) fn has_told_unknown_id(talked: Option<Talked>) -> bool
    ensures { result ≡ unknown_of talked }
{
    match talked {
        None => false,
        Some(talked) => talked.says_unknown_id,
    }
}

/// Whether something else has passed between the two than requests, ERROR 0 and ERROR 5.
pub(crate) fn has_spoken(talked: Option<Talked>) -> bool
    ensures { result ≡ spoken_of talked }
{
    match talked {
        None => false,
        Some(talked) => talked.has_spoken,
    }
}

pub(crate) fn was_acked_0(talk: Option<Talk>) -> bool
    ensures { result ≡ acked_0_in talk }
{
    match talk {
        None => false,
        Some(talk) => talk.acked_0,
    }
}

/// Whether ERROR 5 has passed between the two, after one datagram more that is no request.
fn unknown_after(talked: &Option<Transfer>, seen: &Seen, told: bool) -> bool
    ensures { result ≡ unknown_after talked.now seen.now told }
{
    match talked {
        None => told,
        Some(_) => seen.kind.begins_unknown_id || told,
    }
}

/// Whether something else has passed between the two than requests, ERROR 0 and ERROR 5, after one datagram more that is no
/// request.
fn spoken_after(seen: &Seen, spoken: bool) -> bool
    ensures { result ≡ spoken_after seen.now spoken }
{
    !seen.kind.begins_error || seen.kind.refuses || spoken
}

/// Whether a line ends in a request, after one datagram more that is none.
fn ends_after(talked: &Option<Transfer>, ended: bool) -> bool
    ensures { result ≡ ends_after talked.now ended }
{
    match talked {
        None => ended,
        Some(_) => false,
    }
}

/// Whether the client has sent what is no request and no ERROR, after one datagram more that is no request.
fn went_on_after(talked: &Option<Transfer>, seen: &Seen, went_on: bool) -> bool
    ensures { result ≡ went_on_after talked.now seen.now went_on }
{
    match talked {
        None => went_on,
        Some(transfer) => goes_on(transfer, seen) || went_on,
    }
}

/// Whether a datagram of this transfer answers it for sure: its client goes on, or the host that it asked refuses it.
fn answers_surely(transfer: &Transfer, seen: &Seen) -> bool
    ensures { result ≡ ((same_endpoint seen.now.source transfer.now.client && not seen.now.kind.begins_error) || refuses_to transfer.now seen.now) }
{
    goes_on(transfer, seen) || refuses_to(transfer, seen)
}

/// Whether the transfer's client sends what is no request and no ERROR.
fn goes_on(transfer: &Transfer, seen: &Seen) -> bool
    ensures { result ≡ (same_endpoint seen.now.source transfer.now.client && not seen.now.kind.begins_error) }
{
    seen.source == transfer.client && !seen.kind.begins_error
}

/// Whether the host that was asked refuses the transfer's request.
fn refuses_to(transfer: &Transfer, seen: &Seen) -> bool
    ensures { result ≡ refuses_to transfer.now seen.now }
{
    let is_asked = seen.source.address == transfer.asked.address;
    seen.target == transfer.client && is_asked && seen.kind.refuses
}

/// Notes the time of a datagram of this transfer.
fn note_time(newest: &mut BTreeMap<u64, u64>, number: u64, time: u64) -> Result<(), AllocError>
    ensures times { OnOk result (IsTimed newest.old newest.new number time) }
    ensures err { OnErr result (IsUnchanged newest.old newest.new) }
{
    let greatest = match newest.get(&number) {
        None => time,
        Some(before) => time.max(*before),
    };
    newest.insert(number, greatest)?;
    Ok(())
}

/// The same, where it may be of none.
fn note_talk(
    newest: &mut BTreeMap<u64, u64>,
    talked: &Option<Transfer>,
    time: u64,
) -> Result<(), AllocError>
    ensures { OnOk result (AreTimed newest.old newest.new talked.now time) }
{
    match talked {
        None => Ok(()),
        Some(transfer) => note_time(newest, transfer.number, time),
    }
}
