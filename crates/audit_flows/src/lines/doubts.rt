//! What a datagram makes doubtful: when a refusal of a transfer is no accusation.

ghost use Rattle.std.specs.Prelude.{◌≡◌, ◌&&◌, ◌||◌, not, ℕ, List, None, Some, false, true, bytes_eq, is_some, nat_le, nat_lt, option_map, if◌then◌else◌};
ghost use Rattle.std.specs.BTreeMap.{get};
ghost use Rattle.std.specs.Ordering.{nat_cmp};
ghost use Rattle.audit_flows.specs.Lines.Recording.{Recorded, asked_part, same_endpoint, endpoint_cmp, number_of, passes_in};
ghost use Rattle.audit_flows.specs.Lines.Places.{Placed, live, line, transfer_of, may_answer};
ghost use Rattle.audit_flows.specs.Lines.Doubting.{is_another, is_the_one, acked_0_in, doubts_of, follows_strays, rests_on_terms};
ghost use Rattle.audit_flows.specs.Lines.Kept.{IsLineOf, history_of, kind_of, seen_of, spoken_of, is_past, up_to};
ghost use Rattle.audit_flows.specs.declared.lines.place.Place.{Place};
ghost use Rattle.audit_flows.specs.declared.lines.place.Transfer.{Transfer};

use crate::lines::endpoint::Endpoint;
use crate::lines::kind::{Seen, asked_part, other_end};
use crate::lines::line::{
    Line, Talked, has_spoken, has_told_unknown_id, history_of, talk_of, was_acked_0,
};
use crate::lines::place::{Place, Transfer};

/// What one datagram makes doubtful, and with whom its client goes on. All but `may_be_answer_of` are of its own transfer.
#[derive(Clone, Copy, Debug, PartialEq, Eq)]
pub struct Doubts {
    /// It may be late, from an earlier transfer between the same two endpoints.
    pub may_be_earlier: bool,
    /// It is an OACK that may be so (RFC 2347).
    pub agrees_late: bool,
    /// It is a block or an ACK 0 that this end sends in such a transfer: whether it is lawful may rest on what was agreed.
    pub rests_on_terms: bool,
    /// It is ERROR 5, "Unknown transfer ID" (RFC 1350, section 5).
    pub says_unknown_id: bool,
    /// Its client had asked for another by then: a refusal from here on is doubtful.
    pub is_late: bool,
    /// It is older than one of the transfer before it, or opens the transfer and is older than one of the recording before it.
    pub is_disordered: bool,
    /// It is a request for the same file as the one before, and since then its client has sent requests and ERRORs only:
    /// the transfer before may go on.
    pub is_asked_again: bool,
    /// The number of the client's latest transfer, where this datagram of another one may be its first answer.
    pub may_be_answer_of: Option<u64>,
    /// It comes to its client.
    pub comes_in: bool,
    /// With it its client goes on with who sent it something first in the transfer, the latest one.
    pub goes_on_with_first: bool,
    /// Its client sent it to where nothing had passed between the two.
    pub speaks_first: bool,
    /// It is its client's first word to an answer (RFC 1350, section 4), and nothing but requests, ERROR 0 and ERROR 5 had passed there.
    pub says_first_word: bool,
    /// ERROR 5, "Unknown transfer ID", had passed between its two ends (RFC 1350, section 5).
    pub follows_unknown_id: bool,
    /// It opens the transfer where, in the last 300 s, something passed at its client's endpoint that is of no line, though it
    /// begins as a packet of TFTP does or went to port 69.
    pub follows_strays: bool,
    /// It opens the transfer, and its client had left a request before that nobody had answered for sure: the client had not gone on,
    /// and the host that it asked had not refused it.
    pub follows_unanswered: bool,
    /// It is a request, and its client had asked before, within its line.
    pub follows_request: bool,
}

impl Doubts {
    /// Nothing is doubtful.
    pub fn none() -> Self
        ensures { result ≡ record { may_be_earlier = false; agrees_late = false; rests_on_terms = false; says_unknown_id = false; is_late = false; is_disordered = false; is_asked_again = false; may_be_answer_of = None; comes_in = false; goes_on_with_first = false; speaks_first = false; says_first_word = false; follows_unknown_id = false; follows_strays = false; follows_unanswered = false; follows_request = false } }
    {
        Doubts {
            may_be_earlier: false,
            agrees_late: false,
            rests_on_terms: false,
            says_unknown_id: false,
            is_late: false,
            is_disordered: false,
            is_asked_again: false,
            may_be_answer_of: None,
            comes_in: false,
            goes_on_with_first: false,
            speaks_first: false,
            says_first_word: false,
            follows_unknown_id: false,
            follows_strays: false,
            follows_unanswered: false,
            follows_request: false,
        }
    }

    /// What a datagram makes doubtful that opens a transfer where no line goes on, by whether it is older than one before it in
    /// the recording.
    pub fn of_first(is_disordered: bool, is_after_strays: bool) -> Self
        ensures { result ≡ record { may_be_earlier = false; agrees_late = false; rests_on_terms = false; says_unknown_id = false; is_late = false; is_disordered = is_disordered; is_asked_again = false; may_be_answer_of = None; comes_in = false; goes_on_with_first = false; speaks_first = false; says_first_word = false; follows_unknown_id = false; follows_strays = is_after_strays; follows_unanswered = false; follows_request = false } }
    {
        Doubts {
            is_disordered,
            follows_strays: is_after_strays,
            ..Doubts::none()
        }
    }
}

impl Line {
    /// What a datagram makes doubtful that belongs there, in a transfer of this line's client; `now` is the greatest time up to it,
    /// in nanoseconds.
    pub fn doubts(
        &self,
        place: &Place,
        seen: &Seen,
        payload: &[u8],
        now: u64,
        is_after_strays: bool,
    ) -> Doubts
        ensures { (d : Recorded) (older : List Placed)
            → ((x : Transfer) → transfer_of place.now ≡ Some x → (self.now.latest.client ≡ x.client) × IsLineOf self.now (live now (line x.client older)))
            → ((x : Transfer) → place.now ≡ Place.Opens x → d.source ≡ x.client)
            → seen.now ≡ seen_of d → d.payload ≡ payload.now
            → ((x : Transfer) → place.now ≡ Place.Opens x → is_after_strays ≡ follows_strays (record { datagram = d; moment = now; place = Place.Opens x }) older)
            → result ≡ doubts_of (record { datagram = d; moment = now; place = place.now }) older }
    {
        match place {
            Place::Opens(transfer) => {
                self.doubts_of_opening(transfer, seen, payload, now, is_after_strays)
            }
            Place::Repeats(transfer) => self.doubts_of_repeat(transfer, seen),
            Place::Talks(transfer) => self.doubts_of_talk(transfer, seen),
            _ => Doubts::none(),
        }
    }

    fn doubts_of_opening(
        &self,
        transfer: &Transfer,
        seen: &Seen,
        payload: &[u8],
        now: u64,
        is_after_strays: bool,
    ) -> Doubts
        ensures { (d : Recorded) (older : List Placed) → self.now.latest.client ≡ transfer.now.client
            → IsLineOf self.now (live now (line transfer.now.client older)) → d.source ≡ transfer.now.client
            → seen.now ≡ seen_of d → d.payload ≡ payload.now
            → is_after_strays ≡ follows_strays (record { datagram = d; moment = now; place = Place.Opens transfer.now }) older
            → result ≡ doubts_of (record { datagram = d; moment = now; place = Place.Opens transfer.now }) older }
    {
        Doubts {
            is_asked_again: self.is_asked_again(seen.target, payload),
            follows_unanswered: self.leaves_unanswered(),
            follows_request: true,
            ..Doubts::of_first(seen.time < now, is_after_strays)
        }
    }

    fn doubts_of_repeat(&self, transfer: &Transfer, seen: &Seen) -> Doubts
        ensures { (d : Recorded) (now : ℕ) (older : List Placed)
            → IsLineOf self.now (live now (line transfer.now.client older)) → seen.now ≡ seen_of d
            → result ≡ doubts_of (record { datagram = d; moment = now; place = Place.Repeats transfer.now }) older }
    {
        Doubts {
            is_disordered: self.has_later(transfer.number, seen.time),
            follows_request: true,
            ..Doubts::none()
        }
    }

    fn doubts_of_talk(&self, transfer: &Transfer, seen: &Seen) -> Doubts
        ensures { (d : Recorded) (now : ℕ) (older : List Placed) → self.now.latest.client ≡ transfer.now.client
            → IsLineOf self.now (live now (line transfer.now.client older)) → seen.now ≡ seen_of d
            → result ≡ doubts_of (record { datagram = d; moment = now; place = Place.Talks transfer.now }) older }
    {
        let other = other_end(&transfer.client, seen);
        let talked = self.talked_with(other);
        let may_be_earlier = may_be_earlier(transfer, talked, seen);
        Doubts {
            may_be_earlier,
            agrees_late: agrees_late(seen, may_be_earlier),
            rests_on_terms: rests_on_terms(transfer, seen),
            says_unknown_id: seen.kind.begins_unknown_id,
            is_late: self.is_behind(transfer),
            is_disordered: self.has_later(transfer.number, seen.time),
            is_asked_again: false,
            may_be_answer_of: self.answers_instead(transfer, other, talked, seen),
            comes_in: seen.target == transfer.client,
            goes_on_with_first: self.goes_on_with_first(transfer, seen),
            speaks_first: speaks_first(transfer, talked, seen),
            says_first_word: self.says_first_word(transfer, talked, seen),
            follows_unknown_id: has_told_unknown_id(talked),
            follows_strays: false,
            follows_unanswered: false,
            follows_request: false,
        }
    }

    /// Whether its client goes on with who first sent it something in this transfer, and has not asked for another.
    fn goes_on_with_first(&self, transfer: &Transfer, seen: &Seen) -> bool
        ensures { result ≡ ((same_endpoint seen.now.source transfer.now.client && not seen.now.kind.begins_unknown_id)
            && not (is_another transfer.now (Some self.now.latest)) && is_the_one seen.now.target self.now.answered) }
    {
        let is_own = seen.source == transfer.client && !seen.kind.begins_unknown_id;
        is_own && !self.is_behind(transfer) && self.was_first(seen.target)
    }

    /// Whether it is what the client may say first to an answer, where nothing but requests, ERROR 0 and ERROR 5 has passed between the two.
    fn says_first_word(&self, transfer: &Transfer, talked: Option<Talked>, seen: &Seen) -> bool
        ensures { (payload : List ℕ) → seen.now.kind ≡ kind_of payload
            → result ≡ (same_endpoint seen.now.source transfer.now.client && not self.now.went_on && not (spoken_of talked) && (passes_in transfer.now.writes true payload && nat_le (number_of payload) 1)) }
    {
        let is_first = seen.source == transfer.client && !self.went_on;
        let may_answer = seen.kind.passes_in(transfer.writes, true) && seen.kind.number <= 1;
        is_first && !has_spoken(talked) && may_answer
    }

    /// Whether it first sent the client a datagram of the latest transfer.
    fn was_first(&self, other: Endpoint) -> bool
        ensures { result ≡ is_the_one other self.now.answered }
    {
        match &self.answered {
            None => false,
            Some(first) => other == *first,
        }
    }

    /// Whether another transfer was opened last.
    fn is_behind(&self, transfer: &Transfer) -> bool
        ensures { result ≡ is_another transfer.now (Some self.now.latest) }
    {
        self.latest.number != transfer.number
    }

    /// Whether a datagram of this transfer passed that is later than this time.
    fn has_later(&self, number: u64, time: u64) -> bool
        ensures { result ≡ is_past time (get nat_cmp self.now.newest number) }
    {
        match self.newest.get(&number) {
            None => false,
            Some(newest) => time < *newest,
        }
    }

    /// Whether a request is for the same file as the newest one, and the client has sent requests and ERRORs only.
    fn is_asked_again(&self, target: Endpoint, payload: &[u8]) -> bool
        ensures { result ≡ ((bytes_eq (asked_part self.now.request.items) (asked_part payload.now) && same_endpoint self.now.latest.asked target) && not self.now.went_on) }
    {
        let is_same = asked_part(self.request.as_slice()) == asked_part(payload);
        is_same && self.latest.asked == target && !self.went_on
    }

    /// The latest transfer's number, where a datagram of another one may be its first answer.
    fn answers_instead(
        &self,
        transfer: &Transfer,
        other: Endpoint,
        talked: Option<Talked>,
        seen: &Seen,
    ) -> Option<u64>
        ensures { (d : Recorded) → seen.now ≡ seen_of d
            → result ≡ (if is_another transfer.now (Some self.now.latest)
            && (may_answer transfer.now.client other self.now.answered d && (seen.now.kind.is_data_1 && acked_0_in (option_map (λ t. t.talk) talked)))
            then Some self.now.latest.number else None) }
    {
        if self.may_answer_first(transfer, other, talked, seen) {
            Some(self.latest.number)
        } else {
            None
        }
    }

    /// Whether a datagram of another transfer may be the latest one's first answer.
    fn may_answer_first(
        &self,
        transfer: &Transfer,
        other: Endpoint,
        talked: Option<Talked>,
        seen: &Seen,
    ) -> bool
        ensures { (d : Recorded) → seen.now ≡ seen_of d
            → result ≡ (is_another transfer.now (Some self.now.latest)
            && (may_answer transfer.now.client other self.now.answered d && (seen.now.kind.is_data_1 && acked_0_in (option_map (λ t. t.talk) talked)))) }
    {
        let answers = self.may_answer(transfer.client, other, seen);
        let is_next = seen.kind.is_data_1 && was_acked_0(talk_of(talked));
        self.is_behind(transfer) && (answers && is_next)
    }

    /// Whether nobody has answered the latest request, and this answers one.
    pub(crate) fn may_answer(&self, client: Endpoint, other: Endpoint, seen: &Seen) -> bool
        ensures { (d : Recorded) → seen.now ≡ seen_of d → result ≡ may_answer client other self.now.answered d }
    {
        let comes = seen.source == other && seen.target == client;
        self.answered.is_none() && comes && seen.kind.is_answer
    }
}

/// Whether it is an OACK, and may be late.
fn agrees_late(seen: &Seen, may_be_earlier: bool) -> bool
    ensures { result ≡ (may_be_earlier && seen.now.kind.begins_oack) }
{
    may_be_earlier && seen.kind.begins_oack
}

/// Whether it is a block or an ACK 0 that this end sends in such a transfer.
fn rests_on_terms(transfer: &Transfer, seen: &Seen) -> bool
    ensures { (p : Placed) → seen.now ≡ seen_of p.datagram → p.place ≡ Place.Talks transfer.now → result ≡ rests_on_terms p }
{
    let is_its_own = seen
        .kind
        .passes_in(transfer.writes, seen.source == transfer.client);
    is_its_own && (seen.kind.is_block || seen.kind.is_ack_0)
}

/// Whether it may be late, from another transfer in which the two talked before.
fn may_be_earlier(transfer: &Transfer, talked: Option<Talked>, seen: &Seen) -> bool
    ensures { (payload : List ℕ) → seen.now.kind ≡ kind_of payload
        → result ≡ up_to transfer.now.number (history_of talked) (same_endpoint seen.now.source transfer.now.client) payload }
{
    match history_of(talked) {
        None => false,
        Some(history) => {
            let progress = history.up_to(transfer.number);
            progress.is_within(&seen.kind, seen.source == transfer.client)
        }
    }
}

/// Whether the client sends to where nothing had passed between the two.
fn speaks_first(transfer: &Transfer, talked: Option<Talked>, seen: &Seen) -> bool
    ensures { result ≡ (same_endpoint seen.now.source transfer.now.client && not (is_some (option_map (λ t. t.talk) talked))) }
{
    seen.source == transfer.client && talked.is_none()
}
