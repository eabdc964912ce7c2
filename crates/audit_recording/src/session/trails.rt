//! The trails of a recording's transfers, with one datagram more.

ghost use Rattle.std.specs.Prelude.{◌≡◌, ◌<◌, ◌==◌, ◌∷◌, ℕ, List, OnOk, Ok, Option, option_map, unwrap_or};
ghost use Rattle.std.specs.BTreeMap.{get};
ghost use Rattle.std.specs.Ordering.{nat_cmp};
ghost use Rattle.net_udp.specs.Recording.{Step};
ghost use Rattle.audit_flows.specs.{Opens, Transfer as TransferValue};
ghost use Rattle.audit_recording.specs.Audit.{AuditsAfter};
ghost use Rattle.audit_recording.specs.Audit.Audited.{IsAttributed};
ghost use Rattle.audit_recording.specs.Blame.Frames.{Carried, datagrams_of, framed_after, whole_of};
ghost use Rattle.audit_recording.specs.Blame.Kept.{IsPassing, IsTrailOf, is_about_it};
ghost use Rattle.audit_recording.specs.Judges.{WereOpened};
ghost use Rattle.audit_recording.specs.declared.judges.judging.Judging.{Judging as JudgingKind};
ghost use Rattle.audit_recording.specs.Losses.Noted.Event.{Asks};
ghost use Rattle.audit_recording.specs.Reasons.Clock.{IsClockAfter, last_of};
ghost use Rattle.audit_recording.specs.Reasons.Unplaced.{is_it};
ghost use Rattle.audit_recording.specs.Session.Beside.{AreMarksKept, Mark, discarding_if, gone_of, leaving_out_if, leaving_out_some};
ghost use Rattle.audit_recording.specs.Session.Beside.Mark.{Discards};
ghost use Rattle.audit_recording.specs.Session.Noted.{AreNotesOf, Noticed, finding, going, noting, sharers_of};
ghost use Rattle.audit_recording.specs.Session.Recording.{asking, beginning, gone_by, joining, reached_by, straying};
ghost use Rattle.audit_recording.specs.declared.session.unplaced.Unplaced.{Unplaced as UnplacedValue};
ghost use Rattle.audit_recording.specs.Session.Trails.{AreTrailsBegun, AreTrailsKept};

use crate::audit::RecordingAudit;
use crate::blame::{Passing, Trail, about};
use crate::session::clock::Clock;
use crate::session::losses::SILENCE;
use crate::session::notes::Notes;
use crate::session::unplaced::Unplaced;
use audit_flows::lines::{Place, Transfer};
use audit_flows::transfers::Attributed;
use audit_views::parties::party_of;
use net_udp::recording::{Datagram, Event};
use std::alloc::{AllocError, Global};
use std::collections::BTreeMap;
use tftp_ends::blocks::RingDelivered;

/// Notes a datagram that its host discarded, also at the newest transfer of a client that sent it, or that it went to.
pub(crate) fn discard(
    trails: &mut BTreeMap<u64, Trail>,
    unplaced: &Unplaced,
    notes: &mut Notes,
    alloc: Global,
    event: &Event,
    datagram: &Datagram<'_>,
) -> Result<(), AllocError>
    ensures notes { (s : Noticed) → AreNotesOf notes.old s
        → OnOk result (AreNotesOf notes.new (going (gone_by event.now datagram.now s.times) (finding (reached_by s.times) (sharers_of event.now) s))) }
    ensures trails { (judging : JudgingKind) (named out : List ℕ) (carried : List Carried) → AreTrailsKept trails.old judging named out carried → AreTrailsKept trails.new judging named out carried }
    ensures marks { (s : Noticed) (out : List ℕ) (marks : List Mark) → AreNotesOf notes.old s → AreMarksKept unplaced.now trails.old out marks
        → OnOk result (AreMarksKept unplaced.now trails.new out (Discards (gone_by event.now datagram.now s.times) ∷ marks)) }
    ensures fault { notes.new.fault ≡ notes.old.fault }
{
    notes.find(alloc, event.sharers())?;
    let source = party_of(datagram.source, datagram.source_port).end;
    let target = party_of(datagram.target, datagram.target_port).end;
    let time = notes.clock.time_of(event.time());
    let frame = event.number();
    notes.discard(source, target, frame, time)?;
    discard_at(trails, unplaced.newest(source), frame);
    discard_at(trails, unplaced.newest(target), frame);
    Ok(())
}

/// Notes it at the transfer with this number, if one is named.
fn discard_at(trails: &mut BTreeMap<u64, Trail>, number: Option<u64>, frame: u64)
    ensures trails { (judging : JudgingKind) (named out : List ℕ) (carried : List Carried) → AreTrailsKept trails.old judging named out carried → AreTrailsKept trails.new judging named out carried }
    ensures each { (n : ℕ) → get nat_cmp trails.new n ≡ option_map (discarding_if (is_it n number) frame) (get nat_cmp trails.old n) }
{
    let Some(number) = number else {
        return;
    };
    if let Some(trail) = trails.get_mut(&number) {
        trail.discard(frame);
    }
}

/// Keeps a transfer, if the datagram is a request that opens one.
pub(crate) fn ask(
    trails: &mut BTreeMap<u64, Trail>,
    unplaced: &mut Unplaced,
    notes: &mut Notes,
    alloc: Global,
    place: &Place,
    request: &Passing<'_>,
) -> Result<(), AllocError>
    ensures notes { (s : Noticed) → AreNotesOf notes.old s → s.last < request.now.frame
        → OnOk result (AreNotesOf notes.new (asking place.now request.now.frame s)) }
    ensures trails { (judging : JudgingKind) (named out : List ℕ) (c : Carried) (carried : List Carried)
        → place.now ≡ (framed_after named carried c).placed.place → IsPassing request.now c → WereOpened out (whole_of named carried)
        → AreTrailsKept trails.old judging named out carried → OnOk result (AreTrailsBegun trails.new judging named out c carried) }
    ensures marks { (named out : List ℕ) (c : Carried) (carried : List Carried) (s : Noticed) (marks : List Mark)
        → place.now ≡ (framed_after named carried c).placed.place → WereOpened out (whole_of named carried)
        → AreNotesOf notes.old s → s.last < request.now.frame → gone_of marks ≡ s.gone → AreMarksKept unplaced.old trails.old out marks
        → OnOk result (AreMarksKept unplaced.new trails.new out (beginning place.now (unwrap_or request.now.time (last_of s.times)) marks)) }
    ensures fault { notes.new.fault ≡ notes.old.fault }
{
    match place {
        Place::Opens(transfer) => open(trails, unplaced, notes, alloc, *transfer, request),
        Place::Repeats(_) => Ok(()),
        Place::Talks(_) => Ok(()),
        Place::Apart(_) => Ok(()),
        Place::Beside(_) => Ok(()),
        Place::Nowhere => Ok(()),
    }
}

/// Keeps a transfer that a request opens.
fn open(
    trails: &mut BTreeMap<u64, Trail>,
    unplaced: &mut Unplaced,
    notes: &mut Notes,
    alloc: Global,
    transfer: Transfer,
    request: &Passing<'_>,
) -> Result<(), AllocError>
    ensures notes { (s : Noticed) → AreNotesOf notes.old s → s.last < request.now.frame
        → OnOk result (AreNotesOf notes.new (noting (Asks transfer.client.address request.now.frame) request.now.frame s)) }
    ensures trails { (judging : JudgingKind) (named out : List ℕ) (c : Carried) (carried : List Carried)
        → Opens transfer ≡ (framed_after named carried c).placed.place → IsPassing request.now c → WereOpened out (whole_of named carried)
        → AreTrailsKept trails.old judging named out carried → OnOk result (AreTrailsBegun trails.new judging named out c carried) }
    ensures marks { (named out : List ℕ) (c : Carried) (carried : List Carried) (s : Noticed) (marks : List Mark)
        → Opens transfer ≡ (framed_after named carried c).placed.place → WereOpened out (whole_of named carried)
        → AreNotesOf notes.old s → s.last < request.now.frame → gone_of marks ≡ s.gone → AreMarksKept unplaced.old trails.old out marks
        → OnOk result (AreMarksKept unplaced.new trails.new out (beginning (Opens transfer) (unwrap_or request.now.time (last_of s.times)) marks)) }
    ensures fault { notes.new.fault ≡ notes.old.fault }
{
    let payload = Vec::from_slice(alloc, request.payload)?;
    let mut trail = Trail::new(alloc, transfer, payload, request.frame);
    let time = notes.clock.time_of(request.time);
    let later = unplaced.open(transfer.client, transfer.number, time);
    let asked = notes.ask(alloc, &trail);
    note_later(&mut trail, &later);
    notes.discards.open(&mut trail, time);
    trails.insert(transfer.number, trail)?;
    later?;
    asked
}

/// Notes at a transfer the frame of what was left out before its request, but has a later time.
fn note_later(trail: &mut Trail, later: &Result<Option<u64>, AllocError>)
    ensures stands { (judging : JudgingKind) (x : TransferValue) (named : List ℕ) (carried : List Carried) → IsTrailOf trail.old judging x named carried
        → IsTrailOf trail.new judging x named carried }
    ensures is { (frame : Option ℕ) → later.now ≡ Ok frame → trail.new ≡ leaving_out_some frame trail.old }
    ensures blame { trail.new.blame ≡ trail.old.blame }
    ensures first { trail.new.first ≡ trail.old.first }
    ensures request { trail.new.request ≡ trail.old.request }
{
    if let Ok(Some(frame)) = later {
        trail.leave_out(*frame);
    }
}

/// Hands a datagram to the transfer that it is about, or to those within whose time it may be.
pub(crate) fn hand_over(
    trails: &mut BTreeMap<u64, Trail>,
    unplaced: &mut Unplaced,
    clock: &Clock,
    audit: &RecordingAudit<RingDelivered>,
    found: &Attributed,
    passing: &Passing<'_>,
) -> Result<(), AllocError>
    ensures trails { (named out : List ℕ) (history : List Step) (c : Carried) (carried : List Carried)
        → IsAttributed named (datagrams_of carried) c.datagram found.now → IsPassing passing.now c
        → AuditsAfter audit.now named out history (datagrams_of (c ∷ carried))
        → AreTrailsBegun trails.old audit.now.judge.judging named out c carried
        → OnOk result (AreTrailsKept trails.new audit.now.judge.judging named out (c ∷ carried)) }
    ensures marks { (named out : List ℕ) (history : List Step) (c : Carried) (carried : List Carried) (times : List ℕ) (marks : List Mark)
        → IsAttributed named (datagrams_of carried) c.datagram found.now → IsPassing passing.now c
        → AuditsAfter audit.now named out history (datagrams_of (c ∷ carried))
        → AreTrailsBegun trails.old audit.now.judge.judging named out c carried
        → IsClockAfter clock.now times → AreMarksKept unplaced.old trails.old out marks
        → OnOk result (AreMarksKept unplaced.new trails.new out (straying found.now.place c times (joining found.now.place c.time marks))) }
{
    match about(&found.place) {
        Some(number) => hand(trails, audit, number, found, passing),
        None => leave_out(trails, unplaced, clock, &found.place, passing),
    }
}

/// Hands a datagram to the trail of the transfer with this number.
fn hand(
    trails: &mut BTreeMap<u64, Trail>,
    audit: &RecordingAudit<RingDelivered>,
    number: u64,
    found: &Attributed,
    passing: &Passing<'_>,
) -> Result<(), AllocError>
    ensures trails { (named out : List ℕ) (history : List Step) (c : Carried) (carried : List Carried)
        → ((n : ℕ) → is_about_it n (framed_after named carried c) ≡ (number == n))
        → IsAttributed named (datagrams_of carried) c.datagram found.now → IsPassing passing.now c
        → AuditsAfter audit.now named out history (datagrams_of (c ∷ carried))
        → AreTrailsBegun trails.old audit.now.judge.judging named out c carried
        → OnOk result (AreTrailsKept trails.new audit.now.judge.judging named out (c ∷ carried)) }
    ensures marks { (named out : List ℕ) (history : List Step) (c : Carried) (carried : List Carried) (u : UnplacedValue) (marks : List Mark)
        → ((n : ℕ) → is_about_it n (framed_after named carried c) ≡ (number == n))
        → IsAttributed named (datagrams_of carried) c.datagram found.now → IsPassing passing.now c
        → AuditsAfter audit.now named out history (datagrams_of (c ∷ carried))
        → AreTrailsBegun trails.old audit.now.judge.judging named out c carried
        → AreMarksKept u trails.old out marks
        → OnOk result (AreMarksKept u trails.new out (joining found.now.place c.time marks)) }
{
    match trails.get_mut(&number) {
        Some(trail) => match audit.watched(number) {
            Some(watched) => trail.take(found, passing, watched),
            None => Ok(()),
        },
        None => Ok(()),
    }
}

/// Notes a datagram of no client's line where its time may be within a transfer's.
fn leave_out(
    trails: &mut BTreeMap<u64, Trail>,
    unplaced: &mut Unplaced,
    clock: &Clock,
    place: &Place,
    passing: &Passing<'_>,
) -> Result<(), AllocError>
    ensures trails { (judging : JudgingKind) (named out : List ℕ) (carried : List Carried) → AreTrailsKept trails.old judging named out carried → AreTrailsKept trails.new judging named out carried }
    ensures marks { (c : Carried) (out times : List ℕ) (marks : List Mark) → IsPassing passing.now c → IsClockAfter clock.now times
        → AreMarksKept unplaced.old trails.old out marks
        → OnOk result (AreMarksKept unplaced.new trails.new out (straying place.now c times marks)) }
{
    let Place::Nowhere = place else {
        return Ok(());
    };
    let moment = clock.moment_of(passing.time);
    leave_out_at(
        trails,
        unplaced.newest(passing.source),
        passing.frame,
        moment,
    );
    leave_out_at(
        trails,
        unplaced.newest(passing.target),
        passing.frame,
        moment,
    );
    unplaced.note(passing, clock.time_of(passing.time))
}

/// Notes it at the transfer with this number, if one is named and this moment is within its time.
fn leave_out_at(trails: &mut BTreeMap<u64, Trail>, number: Option<u64>, frame: u64, moment: u64)
    ensures trails { (judging : JudgingKind) (named out : List ℕ) (carried : List Carried) → AreTrailsKept trails.old judging named out carried → AreTrailsKept trails.new judging named out carried }
    ensures each { (n : ℕ) → get nat_cmp trails.new n ≡ option_map (leaving_out_if (is_it n number) frame moment) (get nat_cmp trails.old n) }
{
    let Some(number) = number else {
        return;
    };
    if let Some(trail) = trails.get_mut(&number) {
        let silent = trail.last_time.saturating_add(SILENCE);
        if moment <= silent {
            trail.leave_out(frame);
        }
    }
}
