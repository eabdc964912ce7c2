//! What is kept of a transfer beside its judges.

ghost use Rattle.std.specs.Prelude.{◌≡◌, ◌∷◌, ◌&&◌, ◌||◌, not, [], ℕ, List, IsSome, None, OnOk, Some, filter, map, max, true, unwrap_or};
ghost use Rattle.law_model.specs.Rules.{or_this};
ghost use Rattle.audit_flows.specs.Lines.{Placed, doubts_of, same_endpoint, transfer_of};
ghost use Rattle.audit_flows.specs.{Transfer};
ghost use Rattle.audit_flows.specs.Transfers.{IsDoubtedAfter, comes_of_earlier, is_beside, opened_it, server_of, tells_strays};
ghost use Rattle.audit_recording.specs.Between.{IsBetweenFoundBy, between_capture, server_or_asked, sides_of};
ghost use Rattle.audit_recording.specs.Blame.Facts.{blamed_as, blamed_of, has_gone_on, is_for_server, refused_between, refused_in};
ghost use Rattle.audit_recording.specs.Blame.Frames.{Carried, Framed, framed, framed_after, view_of, whole_of};
ghost use Rattle.audit_recording.specs.Blame.Kept.{IsNoted, IsPassing, IsTrailBetween, IsTrailOf, is_about_it, sent_of};
ghost use Rattle.audit_recording.specs.Reasons.Listed.{goes_on_by_more};
ghost use Rattle.audit_recording.specs.Reasons.Twice.{IsTwiceAfter, Sent, are_twice, sent};
ghost use Rattle.audit_recording.specs.Endings.Undelivered.{undelivered_of};
ghost use Rattle.audit_recording.specs.Endings.Pace.{IsPaceIn};
ghost use Rattle.audit_recording.specs.Endings.Told.{IsEnding, last_of};
ghost use Rattle.audit_recording.specs.Judges.Kept.{IsWatching};
ghost use Rattle.audit_recording.specs.Judges.Points.{points_of, rollover_of};
ghost use Rattle.audit_recording.specs.Losses.Kept.{lesser};
ghost use Rattle.audit_recording.specs.declared.judges.judging.Judging.{Judging as JudgingKind};
ghost use Rattle.audit_recording.specs.declared.rows.row.Point.{Point as PointKind};
ghost use Rattle.audit_recording.specs.Session.Beside.{leaving_out};
ghost use Rattle.audit_recording.specs.Session.Discards.{discarding};
ghost use Rattle.audit_recording.specs.Session.Heard.{is_between_ends};
ghost use Rattle.audit_views.specs.Parties.{host_name};
ghost use Rattle.audit_views.specs.Views.{IsFoundBy, client_capture, client_header, server_capture, server_header};
ghost use Rattle.law_tap.specs.{AreApart};

use crate::blame::blame::{Blame, Blamed};
use crate::blame::closing::{Closing, Word};
use crate::blame::doubted::Doubted;
use crate::blame::ending::{Ending, seconds_since};
use crate::blame::missing::{Missing, least};
use crate::blame::named::Named;
use crate::blame::pace::Pace;
use crate::blame::passed::Passed;
use crate::blame::passing::Passing;
use crate::blame::stop::sender_at;
use crate::blame::told::{refused_between, refused_in};
use crate::blame::twice::Twice;
use crate::blame::undelivered::Undelivered;
use crate::judges::Watched;
use crate::rows::Point;
use audit_flows::lines::{Doubts, Endpoint, Place, Transfer};
use audit_flows::transfers::{Attributed, TransferDoubts, TransferEnds};
use judge_tap::TapRefusal;
use std::alloc::{AllocError, Global};
use tftp_ends::blocks::RingDelivered;
use tftp_judge::{Meaning, Refusal};
use tftp_packet::{End, opcode};

/// How an ERROR 5 begins, "Unknown transfer ID" (RFC 1350, section 5).
const ERROR_5: [u8; 4] = [0, 5, 0, 5];

/// A transfer, as far as it was read.
pub struct Trail {
    /// Which transfer it is.
    pub transfer: Transfer,
    /// The payload of its request.
    pub request: Vec<u8>,
    /// The frame of its first datagram at the client.
    pub first: u64,
    /// The frame of its last one there.
    pub last: u64,
    /// How many these are.
    pub count: u64,
    /// The greatest time of these, in nanoseconds since 1970; 0 where none is told.
    pub last_time: u64,
    /// Who its ends are, as far as it was read.
    pub ends: TransferEnds,
    /// Whether something came to the client.
    is_answered: bool,
    /// Whether the client went on with its server.
    has_gone_on: bool,
    /// Which options some datagram about it named.
    pub options: Named,
    /// The frame of what was left out, and may be of it by its time.
    left_out: Option<u64>,
    twice: Twice,
    /// The frame of a datagram that may be a copy.
    copied_from: Option<u64>,
    /// The frame of a datagram that was received with an error.
    damaged: Option<u64>,
    /// The frame of a datagram with a wrong checksum.
    spoilt: Option<u64>,
    /// The frame of a datagram that may be several which were recorded as one.
    joined: Option<u64>,
    /// Whether its client went on with who sent it something first, and by more than an ERROR.
    goes_on: bool,
    /// The frame of a datagram that was left out as discarded, and may be of it.
    discarded: Option<u64>,
    /// The last datagram between its ends that did not arrive, once it is handed out.
    undelivered: Option<Undelivered>,
    /// How it ended, as far as it was read.
    closing: Closing,
    blame: Blame,
}

impl Drop for Trail {
    // written out, since the prover takes a derived one apart again wherever a value is let go
    fn drop(self) {
        let Trail {
            transfer: _,
            request: _,
            first: _,
            last: _,
            count: _,
            last_time: _,
            ends: _,
            is_answered: _,
            has_gone_on: _,
            options: _,
            left_out: _,
            twice: _,
            copied_from: _,
            damaged: _,
            spoilt: _,
            joined: _,
            goes_on: _,
            discarded: _,
            undelivered: _,
            closing: _,
            blame: _,
        } = self;
    }
}

impl Trail {
    /// The transfer that this request opens in this frame, before any datagram.
    pub fn new(alloc: Global, transfer: Transfer, request: Vec<u8>, frame: u64) -> Self
        ensures stands { (judging : JudgingKind) (named : List ℕ) (carried : List Carried) → filter (is_about_it transfer.number) (framed named carried) ≡ []
            → IsTrailOf result judging transfer named carried }
        ensures between { (judging : JudgingKind) (named : List ℕ) (carried : List Carried) → filter (is_about_it transfer.number) (framed named carried) ≡ []
            → IsTrailBetween result judging transfer named carried }
        ensures first { result.first ≡ frame }
        ensures request { result.request ≡ request }
        ensures left_out { result.left_out ≡ None }
        ensures discarded { result.discarded ≡ None }
        ensures last_time { result.last_time ≡ 0 }
        ensures transfer { result.transfer ≡ transfer }
    {
        Trail {
            transfer,
            request,
            first: frame,
            last: frame,
            count: 0,
            last_time: 0,
            ends: TransferEnds::new(transfer.number),
            is_answered: false,
            has_gone_on: false,
            options: Named::none(),
            left_out: None,
            twice: Twice::new(alloc),
            copied_from: None,
            damaged: None,
            spoilt: None,
            joined: None,
            goes_on: false,
            discarded: None,
            undelivered: None,
            closing: Closing::new(alloc),
            blame: Blame::new(alloc),
        }
    }

    /// Takes a datagram of the transfer at its client, or beside its server, which its judges have been given. What opens the
    /// transfer came in its first frame.
    pub fn take(
        &mut self,
        found: &Attributed,
        passing: &Passing<'_>,
        watched: &Watched<RingDelivered>,
    ) -> Result<(), AllocError>
        ensures stands { (judging : JudgingKind) (x : Transfer) (named : List ℕ) (c : Carried) (carried : List Carried)
            → IsTrailOf self.old judging x named carried → IsPassing passing.now c
            → found.now.place ≡ (framed_after named carried c).placed.place
            → found.now.doubts ≡ doubts_of (framed_after named carried c).placed (whole_of named carried)
            → is_about_it x.number (framed_after named carried c) ≡ true
            → (opened_it x.number (framed_after named carried c).placed ≡ true → c.frame ≡ self.old.first)
            → IsWatching watched.now judging x host_name (whole_of named (c ∷ carried))
            → OnOk result (IsTrailOf self.new judging x named (c ∷ carried)) }
        ensures between { (judging : JudgingKind) (x : Transfer) (named : List ℕ) (c : Carried) (carried : List Carried)
            → IsTrailOf self.old judging x named carried → IsTrailBetween self.old judging x named carried → IsPassing passing.now c
            → found.now.place ≡ (framed_after named carried c).placed.place
            → found.now.doubts ≡ doubts_of (framed_after named carried c).placed (whole_of named carried)
            → is_about_it x.number (framed_after named carried c) ≡ true
            → IsWatching watched.now judging x host_name (whole_of named (c ∷ carried))
            → OnOk result (IsTrailBetween self.new judging x named (c ∷ carried)) }
        ensures first { self.new.first ≡ self.old.first }
        ensures request { self.new.request ≡ self.old.request }
        ensures left_out { self.new.left_out ≡ self.old.left_out }
        ensures discarded { self.new.discarded ≡ self.old.discarded }
        ensures transfer { self.new.transfer ≡ self.old.transfer }
        ensures own_time { IsSome (transfer_of found.now.place) → self.new.last_time ≡ max self.old.last_time (unwrap_or passing.now.time 0) }
        ensures same_time { transfer_of found.now.place ≡ None → self.new.last_time ≡ self.old.last_time }
    {
        self.note_place(&found.place, passing)?;
        self.copied_from = first(self.copied_from, passing.is_doubtful, passing.frame);
        self.damaged = first(self.damaged, passing.has_error, passing.frame);
        self.spoilt = first(self.spoilt, passing.has_wrong_checksum, passing.frame);
        self.joined = first(self.joined, passing.is_joined, passing.frame);
        self.goes_on = goes_on_by_more(self.goes_on, &found.doubts, passing.payload);
        self.options = self.options.with(passing.payload);
        self.ends.note(
            &found.place,
            passing.source,
            passing.target,
            passing.payload,
        );
        self.closing
            .note(&self.transfer, &self.ends, &found.place, passing)?;
        let passed = Passed {
            blamed: blamed_by(found, passing, &watched.doubts(), self.has_gone_on),
            place: found.place,
            target: passing.target,
        };
        self.blame.take(&self.ends, passed, watched)?;
        Ok(())
    }

    /// Notes a datagram, if it passed at its client.
    fn note_place(&mut self, place: &Place, passing: &Passing<'_>) -> Result<(), AllocError>
        ensures own { IsSome (transfer_of place.now) → IsNoted self.old self.new passing.now }
        ensures beside { transfer_of place.now ≡ None → self.new ≡ self.old }
        ensures twice { (older : List Sent) → IsSome (transfer_of place.now) → IsTwiceAfter self.old.twice older
            → OnOk result (IsTwiceAfter self.new.twice (sent passing.now.source passing.now.target passing.now.payload.now ∷ older)) }
        ensures first { self.new.first ≡ self.old.first }
        ensures request { self.new.request ≡ self.old.request }
        ensures left_out { self.new.left_out ≡ self.old.left_out }
        ensures transfer { self.new.transfer ≡ self.old.transfer }
        ensures ends { self.new.ends ≡ self.old.ends }
        ensures closing { self.new.closing ≡ self.old.closing }
        ensures blame { self.new.blame ≡ self.old.blame }
    {
        match place.transfer() {
            Some(_) => self.note_own(passing),
            None => Ok(()),
        }
    }

    /// Notes a datagram at its client.
    fn note_own(&mut self, passing: &Passing<'_>) -> Result<(), AllocError>
        ensures noted { IsNoted self.old self.new passing.now }
        ensures twice { (older : List Sent) → IsTwiceAfter self.old.twice older
            → OnOk result (IsTwiceAfter self.new.twice (sent passing.now.source passing.now.target passing.now.payload.now ∷ older)) }
    {
        self.count = self.count.saturating_add(1);
        self.last = passing.frame;
        self.last_time = self.last_time.max(passing.time.unwrap_or(0));
        self.has_gone_on = self.goes_on(passing) || self.has_gone_on;
        self.is_answered = self.comes_in(passing) || self.is_answered;
        self.twice.note(passing)
    }

    /// Whether its client goes on with its server by a datagram at the client.
    fn goes_on(&self, passing: &Passing<'_>) -> bool
        ensures { result ≡ (same_endpoint passing.now.source self.now.transfer.client && is_for_server passing.now.payload.now) }
    {
        passing.source == self.transfer.client && is_for_server(passing.payload)
    }

    /// Whether a datagram came to its client.
    fn comes_in(&self, passing: &Passing<'_>) -> bool
        ensures { result ≡ same_endpoint passing.now.target self.now.transfer.client }
    {
        passing.target == self.transfer.client
    }

    /// Notes that a datagram in this frame was left out as discarded, which may be of it: the first one is kept.
    pub fn discard(&mut self, frame: u64)
        ensures is { self.new ≡ discarding (Some frame) self.old }
        ensures blame { self.new.blame ≡ self.old.blame }
        ensures stands { (judging : JudgingKind) (x : Transfer) (named : List ℕ) (carried : List Carried) → IsTrailOf self.old judging x named carried
            → IsTrailOf self.new judging x named carried }
        ensures first { self.new.first ≡ self.old.first }
        ensures request { self.new.request ≡ self.old.request }
        ensures left_out { self.new.left_out ≡ self.old.left_out }
    {
        self.discarded = least(self.discarded, Some(frame));
    }

    /// Notes that a datagram at its client's endpoint was left out, whose time is within the transfer's: the first one is kept.
    pub fn leave_out(&mut self, frame: u64)
        ensures is { self.new ≡ leaving_out frame self.old }
        ensures left_out { self.new.left_out ≡ or_this self.old.left_out true frame }
        ensures blame { self.new.blame ≡ self.old.blame }
        ensures stands { (judging : JudgingKind) (x : Transfer) (named : List ℕ) (carried : List Carried) → IsTrailOf self.old judging x named carried
            → IsTrailOf self.new judging x named carried }
        ensures first { self.new.first ≡ self.old.first }
        ensures request { self.new.request ≡ self.old.request }
    {
        self.left_out = first(self.left_out, true, frame);
    }

    /// Keeps what is told of its last datagram that did not arrive, where one did not.
    pub fn tell_undelivered(&mut self, undelivered: Option<Undelivered>)
        ensures { self.new ≡ record self.old { undelivered = undelivered } }
    {
        self.undelivered = undelivered;
    }

    /// Whether a datagram was between its client and its server, as far as it is known who that is, or whom it asked.
    pub fn is_between_ends(&self, undelivered: &Undelivered) -> bool
        ensures { (judging : JudgingKind) (x : Transfer) (named : List ℕ) (carried : List Carried) → IsTrailOf self.now judging x named carried
            → result ≡ is_between_ends x (whole_of named carried) undelivered.now }
    {
        let peer = self.transfer.peer(undelivered.source, undelivered.target);
        let is_server = peer == self.server();
        let is_asked = peer == self.transfer.asked;
        is_server || is_asked
    }

    /// The end that a datagram of the other one did not reach, after which none of the two sent another, and what tells it.
    pub fn undelivered(&self) -> Option<(End, Undelivered)>
        ensures { result ≡ undelivered_of self.now }
    {
        let undelivered = self.undelivered?;
        match self.closing.last {
            Some(word) if word.frame > undelivered.frame => None,
            _ => Some((sender_at(&self.transfer, undelivered.target), undelivered)),
        }
    }

    /// The server: with whom the client went on, or who answered it first, or else whom it asked.
    pub fn server(&self) -> Endpoint
        ensures { (judging : JudgingKind) (x : Transfer) (named : List ℕ) (carried : List Carried) → IsTrailOf self.now judging x named carried
            → result ≡ server_or_asked x (server_of x.number (whole_of named carried)) }
    {
        self.ends.server().unwrap_or(self.transfer.asked)
    }

    /// How it ended, where it is whole or not, by a recording that goes on to this moment, in nanoseconds since 1970.
    pub fn ending(&self, is_whole: bool, now: u64) -> Ending<'_>
        ensures { (judging : JudgingKind) (x : Transfer) (named : List ℕ) (carried : List Carried) → IsTrailOf self.now judging x named carried
            → IsEnding x named carried is_whole now result }
    {
        if is_whole {
            return Ending::Whole;
        }
        match self.closing.stop_with(self.server()) {
            Some(stop) => Ending::Stopped(stop),
            None => match self.closing.last {
                Some(word) => Ending::Quiet(word, seconds_since(word.time, now)),
                None => Ending::Unheard,
            },
        }
    }

    /// How it went in time.
    pub fn pace(&self) -> Pace
        ensures { (judging : JudgingKind) (x : Transfer) (named : List ℕ) (carried : List Carried) → IsTrailOf self.now judging x named carried
            → IsPaceIn result x named carried }
    {
        self.closing.pace
    }

    /// The last datagram between its two ends.
    pub fn last_word(&self) -> Option<Word>
        ensures { (judging : JudgingKind) (x : Transfer) (named : List ℕ) (carried : List Carried) → IsTrailOf self.now judging x named carried
            → result ≡ last_of x named carried }
    {
        self.closing.last
    }

    /// What makes a verdict doubtful, beside its own doubts; of its client's datagrams these may be missing.
    pub fn doubted(&self, doubts: TransferDoubts, missing: Missing) -> Doubted
        ensures doubts { result.doubts ≡ doubts }
        ensures missing { result.missing ≡ missing }
        ensures is_twice { (judging : JudgingKind) (x : Transfer) (named : List ℕ) (carried : List Carried) → IsTrailOf self.now judging x named carried
            → result.is_twice ≡ are_twice (map sent_of (view_of PointKind.Client x.number named carried)) }
        ensures discarded { result.discarded ≡ lesser self.now.discarded self.now.spoilt }
        ensures joined { result.joined ≡ self.now.joined }
        ensures goes_on { result.goes_on ≡ self.now.goes_on }
        ensures begins { result.begins ≡ self.now.first }
        ensures is_one_way { result.is_one_way ≡ not self.now.is_answered }
        ensures copied_from { result.copied_from ≡ self.now.copied_from }
        ensures damaged { result.damaged ≡ self.now.damaged }
        ensures left_out { result.left_out ≡ self.now.left_out }
    {
        Doubted {
            doubts,
            is_twice: self.twice.are_all_twice(),
            begins: self.first,
            is_one_way: !self.is_answered,
            copied_from: self.copied_from,
            damaged: self.damaged,
            discarded: least(self.discarded, self.spoilt),
            joined: self.joined,
            goes_on: self.goes_on,
            left_out: self.left_out,
            missing,
        }
    }

    /// What the datagram is told by that this verdict on its client's view refuses.
    pub fn at_client(&self, verdict: &Result<Meaning, Refusal>) -> Option<Blamed>
        ensures { (judging : JudgingKind) (x : Transfer) (named : List ℕ) (carried : List Carried) → IsTrailOf self.now judging x named carried
            → (points_of judging x).client ≡ true
            → IsFoundBy (rollover_of judging) (client_header x) (client_capture host_name x (whole_of named carried)) verdict.now
            → result ≡ blamed_as PointKind.Client x named carried (refused_in verdict.now) }
    {
        match refused_in(verdict) {
            Some(number) => self.blame.at_client.at(Point::Client, &self.ends, number),
            None => None,
        }
    }

    /// What the datagram is told by that this verdict on its server's view refuses.
    pub fn at_server(&self, verdict: &Result<Meaning, Refusal>) -> Option<Blamed>
        ensures { (judging : JudgingKind) (x : Transfer) (named : List ℕ) (carried : List Carried) → IsTrailOf self.now judging x named carried
            → (points_of judging x).server ≡ true
            → IsFoundBy (rollover_of judging) (server_header x) (server_capture host_name x (whole_of named carried) (whole_of named carried)) verdict.now
            → result ≡ blamed_as PointKind.Server x named carried (refused_in verdict.now) }
    {
        match refused_in(verdict) {
            Some(number) => self.blame.at_server.at(Point::Server, &self.ends, number),
            None => None,
        }
    }

    /// What the datagram is told by that this verdict on what passed between its ends refuses.
    pub fn between(&self, verdict: &Result<Meaning, TapRefusal>) -> Option<Blamed>
        ensures { (judging : JudgingKind) (x : Transfer) (named : List ℕ) (carried : List Carried) → IsTrailOf self.now judging x named carried
            → IsTrailBetween self.now judging x named carried → (points_of judging x).between ≡ true → AreApart (sides_of x (whole_of named carried))
            → IsBetweenFoundBy (rollover_of judging) (sides_of x (whole_of named carried)) (between_capture x (whole_of named carried)) verdict.now
            → result ≡ blamed_as PointKind.Between x named carried (refused_between verdict.now) }
    {
        match refused_between(verdict) {
            Some(number) => self.blame.between.at(Point::Between, &self.ends, number),
            None => None,
        }
    }
}

/// The frame that is known, or else this one, if it is to be noted.
fn first(known: Option<u64>, holds: bool, frame: u64) -> Option<u64>
    ensures { result ≡ or_this known holds frame }
{
    match known {
        Some(earlier) => Some(earlier),
        None => { if holds { Some(frame) } else { None } }
    }
}

/// The facts of a datagram that was found there, by the doubts of its transfer up to it, and by whether the client has gone on.
fn blamed_by(
    found: &Attributed,
    passing: &Passing<'_>,
    doubts: &TransferDoubts,
    gone_on: bool,
) -> Blamed
    ensures { (x : Transfer) (f : Framed) → IsPassing passing.now f.carried → f.placed.datagram ≡ f.carried.datagram
        → found.now.place ≡ f.placed.place → found.now.doubts ≡ doubts_of f.placed f.before
        → IsDoubtedAfter doubts.now (f.placed ∷ f.before) → doubts.now.number ≡ x.number
        → gone_on ≡ has_gone_on x (f.placed ∷ f.before) → result ≡ blamed_of x f }
{
    Blamed {
        frame: passing.frame,
        is_late: doubts.is_late(),
        is_beside: is_beside(&found.place),
        is_answered: doubts.comes_in(),
        has_gone_on: gone_on,
        speaks_first: found.doubts.speaks_first,
        says_first_word: doubts.says_first_word(),
        follows_unknown_id: found.doubts.follows_unknown_id,
        tells_strays: tells_strays(passing.payload, doubts),
        comes_of_earlier: comes_of_earlier(&found.doubts, doubts),
        source: passing.source,
    }
}

/// Whether a client says it to nobody but its server: it is neither a request nor an ERROR 5.
fn is_for_server(payload: &[u8]) -> bool
    ensures { result ≡ is_for_server payload.now }
{
    let kind = opcode(payload);
    let is_request = kind == 1 || kind == 2;
    let is_unknown_id = payload.starts_with(ERROR_5.as_slice());
    !is_request && !is_unknown_id
}

/// Whether the client goes on by a datagram with who sent it something first, and by more than an ERROR, or had done so.
fn goes_on_by_more(known: bool, doubts: &Doubts, payload: &[u8]) -> bool
    ensures { (p : Placed) (older : List Placed) → doubts.now ≡ doubts_of p older → p.datagram.payload ≡ payload.now
        → result ≡ (goes_on_by_more p older || known) }
{
    (doubts.goes_on_with_first && opcode(payload) != 5) || known
}

/// Whether it passed with another than the client.
fn is_beside(place: &Place) -> bool
    ensures { (p : Placed) → place.now ≡ p.place → result ≡ is_beside p }
{
    match place {
        Place::Beside(_) => true,
        _ => false,
    }
}

/// Whether it is an ERROR 5, or an ERROR after one.
fn tells_strays(payload: &[u8], doubts: &TransferDoubts) -> bool
    ensures { (p : Placed) (older : List Placed) → p.datagram.payload ≡ payload.now → IsDoubtedAfter doubts.now (p ∷ older)
        → result ≡ tells_strays doubts.now.number p older }
{
    let (is_error, says) = (opcode(payload) == 5, doubts.says_unknown_id());
    let is_unknown_id = payload.starts_with(ERROR_5.as_slice());
    is_unknown_id || (is_error && says)
}

/// Whether a datagram may be late from an earlier transfer between the same two, or rest on an OACK that may be.
fn comes_of_earlier(own: &Doubts, doubts: &TransferDoubts) -> bool
    ensures { (p : Placed) (older : List Placed) → own.now ≡ doubts_of p older → IsDoubtedAfter doubts.now (p ∷ older)
        → result ≡ comes_of_earlier doubts.now.number p older }
{
    let agrees_late = doubts.agrees_late();
    own.may_be_earlier || (agrees_late && own.rests_on_terms)
}
