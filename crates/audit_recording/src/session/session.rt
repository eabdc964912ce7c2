//! A recording, as far as it was read.

ghost use Rattle.std.specs.Prelude.{◌≡◌, ◌≢◌, ◌==◌, ◌≤◌, ◌<◌, ◌-◌, ◌^◌, ◌⊎◌, ◌∷◌, ◌++◌, [], ℕ, List, IfErr, IfOk, IfSome, IsErr, if◌then◌else◌, IsSome, MatchBool, OnErr, OnOk, Option, None, Some, Ok, Err, option_map, length, slice_get, true, false};
ghost use Rattle.std.specs.BTreeMap.{get, keys};
ghost use Rattle.std.specs.Io.KnownBytes.{Consumes, IsAtEnd, prepend_known};
ghost use Rattle.std.specs.Ordering.{nat_cmp};
ghost use Rattle.net_pcap.specs.{FaultKind as Kind, PcapFault as Fault};
ghost use Rattle.net_streams.specs.{Standing};
ghost use Rattle.net_udp.specs.Frames.{IsSound};
ghost use Rattle.net_udp.specs.Recording.{IsFateOf, StandsFor, Step, standing_of};
ghost use Rattle.net_udp.specs.{Fate as Became};
ghost use Rattle.net_udp.specs.declared.recording.fate.Datagram.{Datagram as Given};
ghost use Rattle.audit_flows.specs.Lines.{same_address};
ghost use Rattle.audit_flows.specs.{Attributed as Found, AttributionFault, Opens};
ghost use Rattle.audit_recording.specs.Audit.{AuditsAfter};
ghost use Rattle.audit_recording.specs.Audit.Audited.{IsAttributed, IsOfEvent};
ghost use Rattle.audit_recording.specs.Blame.Frames.{Carried, datagrams_of, framed_after, whole_of};
ghost use Rattle.audit_recording.specs.Blame.Kept.{IsPassing, is_wrong};
ghost use Rattle.audit_recording.specs.Judges.{IsWatching, WereOpened, is_among, opened};
ghost use Rattle.audit_recording.specs.declared.judges.judging.Judging.{Judging as JudgingKind};
ghost use Rattle.audit_views.specs.Parties.{host_name};
ghost use Rattle.audit_recording.specs.Reasons.Clock.{IsClockAfter};
ghost use Rattle.audit_recording.specs.Losses.Noted.{IsAsked, IsFirst, IsMissingOf, IsTold, Since};
ghost use Rattle.audit_recording.specs.Session.Noted.{AreNotesOf, Noticed, nothing_noticed, stretch_of, with_time};
ghost use Rattle.audit_recording.specs.Session.Recording.{AddsOne, IsCarriedBy, IsNoticedOf, joining, marks_with, placing, setting_aside, straying};
ghost use Rattle.audit_recording.specs.Session.Beside.{AreMarksKept, IsMarkedBy, Mark, gone_of};
ghost use Rattle.audit_recording.specs.Session.Heard.{IsUndeliveredOf};
ghost use Rattle.audit_recording.specs.Session.Kept.{AddsFrame, AreJudgesLeft, GivesNone, IsReadAfter, IsSessionAfter, IsSessionOf, ReadsOn};
ghost use Rattle.audit_recording.specs.Session.Opened.{IsReadFaultOf};
ghost use Rattle.audit_recording.specs.Session.Over.{IsOldestOver};
ghost use Rattle.audit_recording.specs.Session.Strays.{stray_of};
ghost use Rattle.audit_recording.specs.Session.Texts.{AreTextsKept, IsNoneNumbered, opened_numbers, ordinal};
ghost use Rattle.audit_recording.specs.Session.Trails.{AreTrailsBegun, AreTrailsKept, IsTrailAfter};

use crate::audit::{AuditFault, NextFrame, RecordingAudit};
use crate::blame::several::is_joined;
use crate::blame::{Missing, Passing, Trail, about};
use crate::judges::{Judging, Watched};
use crate::session::fault::{ReadFault, TextFault};
use crate::session::kept::Kept;
use crate::session::notes::Notes;
use crate::session::trails::{ask, discard, hand_over};
use crate::session::unplaced::Unplaced;
use crate::session::unreached::{Unreached, hear};
use audit_flows::transfers::{Attributed, AttributionFault};
use audit_views::parties::party_of;
use audit_views::views::Fed;
use net_pcap::{FaultKind, PcapFault};
use net_streams::streams::Latched;
use net_udp::recording::{Checksum, Datagram, Event, Fate, RecordingReader};
use std::alloc::{AllocError, Global};
use std::collections::BTreeMap;
use std::io::Read;
use tftp_ends::blocks::RingDelivered;

/// What a recording has: its transfers by how many datagrams came before each, and what is to be told of it.
pub struct Session {
    audit: RecordingAudit<RingDelivered>,
    trails: BTreeMap<u64, Trail>,
    unplaced: Unplaced,
    unreached: Unreached,
    /// What is to be told of the recording as a whole.
    pub notes: Notes,
    /// The datagrams of the transfers whose texts are wanted.
    pub kept: Kept,
}

impl Drop for Session {
    // written out, since the prover takes a derived one apart again wherever a value is let go
    fn drop(self) {
        let Session {
            audit: _,
            trails: _,
            unplaced: _,
            unreached: _,
            notes: _,
            kept: _,
        } = self;
    }
}

/// A transfer that no datagram joins any more.
#[derive(Drop)]
pub struct Ended {
    pub trail: Trail,
    pub watched: Watched<RingDelivered>,
}

impl Session {
    /// Nothing was read, and nothing is kept yet for the texts that are wanted. Requests go to port 69 and to the ports that are named.
    pub fn new(
        alloc: Global,
        services: &[u16],
        judging: Judging,
        kept: Kept,
    ) -> Result<Self, ReadFault>
        ensures stands { IfOk result (λ s. IsSessionAfter s services.now [] [] [] nothing_noticed) }
        ensures judging { IfOk result (λ s. s.audit.judge.judging ≡ judging) }
        ensures fault { IfOk result (λ s. s.notes.fault ≡ None) }
        ensures wanted { IfOk result (λ s. s.kept.wanted ≡ kept.wanted) }
        ensures why { (file : Option (List ℕ)) → IfErr result (IsReadFaultOf file) }
    {
        let Ok(audit) = RecordingAudit::new(alloc, services, judging) else {
            return Err(ReadFault::Memory(0));
        };
        Ok(Session {
            audit,
            trails: BTreeMap::new(alloc),
            unplaced: Unplaced::new(alloc),
            unreached: Unreached::new(alloc),
            notes: Notes::new(alloc),
            kept: kept.anew(alloc),
        })
    }

    /// Where the transfers are judged.
    pub fn judging(&self) -> Judging
        ensures { result ≡ self.now.audit.judge.judging }
    {
        self.audit.judging()
    }

    /// Reads the next frame and takes what became of it; whether the recording goes on.
    pub fn next<R: Read>(
        &mut self,
        alloc: Global,
        reader: &mut Latched<R>,
        recording: &mut RecordingReader,
        event: &mut Event,
    ) -> Result<bool, AttributionFault>
        ensures goes_on { (named out bytes : List ℕ) (history : List Step) (carried : List Carried) (s : Noticed)
            → StandsFor recording.old bytes history → IsSessionAfter self.old named out history carried s
            → (taken : List ℕ)
            × Consumes (prepend_known recording.old.frames.pieces.ahead (R.remaining reader.old.0)) (prepend_known recording.new.frames.pieces.ahead (R.remaining reader.new.0)) taken
            × ReadsOn (λ frames datagrams noticed. StandsFor recording.new (bytes ++ taken) frames
            × IsSessionAfter self.new named out frames datagrams noticed) history carried s result }
        ensures wants { (named out bytes : List ℕ) (history : List Step) (carried : List Carried) (s : Noticed)
            → StandsFor recording.old bytes history → IsSessionAfter self.old named out history carried s
            → OnErr result (AreJudgesLeft self.new.audit named out carried) }
        ensures ends { result ≡ Ok false
            → ((standing_of recording.new ≡ Standing.Over) × (self.new.notes ≡ self.old.notes))
            ⊎ ((fault : Fault) × (standing_of recording.new ≡ Standing.Failed fault) × (self.new.notes.fault ≡ Some fault)) }
        ensures at_end { standing_of recording.old ≡ Standing.Open → result ≡ Ok false → standing_of recording.new ≡ Standing.Over
            → IsAtEnd (prepend_known recording.new.frames.pieces.ahead (R.remaining reader.new.0)) }
        ensures goes { result ≡ Ok true → standing_of recording.new ≡ Standing.Open }
        ensures fault { result ≡ Ok true → self.new.notes.fault ≡ self.old.notes.fault }
        ensures judging { self.new.audit.judge.judging ≡ self.old.audit.judge.judging }
        ensures wanted { self.new.kept.wanted ≡ self.old.kept.wanted }
        ensures many { (named out : List ℕ) (history : List Step) (carried : List Carried) (s : Noticed) → IsSessionAfter self.old named out history carried s
            → result ≡ Err AttributionFault.TooMany → 2 ^ 40 ≤ length history }
    {
        let goes_on = self.read(alloc, reader, recording, event)?;
        if goes_on {
            hear(&mut self.unreached, &self.trails, &self.unplaced, event)?;
        }
        Ok(goes_on)
    }

    /// The same, but what the frame tells of datagrams that did not arrive is not looked at.
    fn read<R: Read>(
        &mut self,
        alloc: Global,
        reader: &mut Latched<R>,
        recording: &mut RecordingReader,
        event: &mut Event,
    ) -> Result<bool, AttributionFault>
        ensures goes_on { (named out bytes : List ℕ) (history : List Step) (carried : List Carried) (s : Noticed)
            → StandsFor recording.old bytes history → IsReadAfter self.old named out history carried s
            → (taken : List ℕ)
            × Consumes (prepend_known recording.old.frames.pieces.ahead (R.remaining reader.old.0)) (prepend_known recording.new.frames.pieces.ahead (R.remaining reader.new.0)) taken
            × ReadsOn (λ frames datagrams noticed. StandsFor recording.new (bytes ++ taken) frames
            × (IsReadAfter self.new named out frames datagrams noticed × AddsFrame history carried event.new frames datagrams)) history carried s result }
        ensures unreached { self.new.unreached ≡ self.old.unreached }
        ensures wants { (named out bytes : List ℕ) (history : List Step) (carried : List Carried) (s : Noticed)
            → StandsFor recording.old bytes history → IsReadAfter self.old named out history carried s
            → OnErr result (AreJudgesLeft self.new.audit named out carried) }
        ensures ends { result ≡ Ok false
            → ((standing_of recording.new ≡ Standing.Over) × (self.new.notes ≡ self.old.notes))
            ⊎ ((fault : Fault) × (standing_of recording.new ≡ Standing.Failed fault) × (self.new.notes.fault ≡ Some fault)) }
        ensures at_end { standing_of recording.old ≡ Standing.Open → result ≡ Ok false → standing_of recording.new ≡ Standing.Over
            → IsAtEnd (prepend_known recording.new.frames.pieces.ahead (R.remaining reader.new.0)) }
        ensures goes { result ≡ Ok true → standing_of recording.new ≡ Standing.Open }
        ensures fault { result ≡ Ok true → self.new.notes.fault ≡ self.old.notes.fault }
        ensures judging { self.new.audit.judge.judging ≡ self.old.audit.judge.judging }
        ensures wanted { self.new.kept.wanted ≡ self.old.kept.wanted }
        ensures many { (named out : List ℕ) (history : List Step) (carried : List Carried) (s : Noticed) → IsReadAfter self.old named out history carried s
            → result ≡ Err AttributionFault.TooMany → 2 ^ 40 ≤ length history }
    {
        match self.audit.next_into(alloc, reader, recording, event) {
            Ok(NextFrame::End) => Ok(false),
            Ok(NextFrame::Nothing) => self.take(alloc, event, None),
            Ok(NextFrame::Datagram(found)) => self.take(alloc, event, Some(found)),
            Err(AuditFault::Recording(fault)) => self.stop(fault),
            Err(AuditFault::Judges(fault)) => Err(fault),
        }
    }

    /// The recording is read no further. What was read before is told, unless memory ran out.
    fn stop(&mut self, fault: PcapFault) -> Result<bool, AttributionFault>
        ensures fault { OnOk result (self.new.notes.fault ≡ Some fault) }
        ensures notes { (s : Noticed) → AreNotesOf self.old.notes s → AreNotesOf self.new.notes s }
        ensures audit { self.new.audit ≡ self.old.audit }
        ensures trails { self.new.trails ≡ self.old.trails }
        ensures unplaced { self.new.unplaced ≡ self.old.unplaced }
        ensures unreached { self.new.unreached ≡ self.old.unreached }
        ensures over { result ≢ Ok true }
        ensures told { fault.kind ≢ Kind.Memory → result ≡ Ok false }
        ensures kept { self.new.kept ≡ self.old.kept }
        ensures memory { result ≢ Err AttributionFault.TooMany }
    {
        if let FaultKind::Memory = fault.kind {
            return Err(AttributionFault::Memory);
        }
        self.notes.fault = Some(fault);
        Ok(false)
    }

    /// Takes what became of a frame, and where its datagram belongs.
    fn take(
        &mut self,
        alloc: Global,
        event: &mut Event,
        found: Option<Attributed>,
    ) -> Result<bool, AttributionFault>
        ensures none { (named : List ℕ) (history : List Step) (carried : List Carried) (s : Noticed) (step : Step)
            → found ≡ None → GivesNone event.old → IsOfEvent step history event.old
            → IsNoticedOf named history carried s → AreNotesOf self.old.notes s
            → OnOk result ((t : Noticed) × IsNoticedOf named (step ∷ history) carried t
            × (AreNotesOf self.new.notes t × ((out : List ℕ) → AreMarksKept self.old.unplaced self.old.trails out s.beside → AreMarksKept self.new.unplaced self.new.trails out t.beside))) }
        ensures datagram { (named : List ℕ) (history : List Step) (carried : List Carried) (s : Noticed) (step : Step) (c : Carried) (a : Found) (given : Given)
            → found ≡ Some a → IsOfEvent step history event.old
            → IsFateOf event.old.frame.parts event.old.likeness event.old.brought.outcome event.old.is_discarded (Became.Datagram given)
            → IsCarriedBy event.old given carried c → a.place ≡ (framed_after named carried c).placed.place
            → IsNoticedOf named history carried s → AreNotesOf self.old.notes s
            → OnOk result ((t : Noticed) × IsNoticedOf named (step ∷ history) (c ∷ carried) t × (AreNotesOf self.new.notes t × (t.beside ≡ marks_with a.place c (with_time c.time s.times) s.beside))) }
        ensures audit { self.new.audit ≡ self.old.audit }
        ensures same_trails { (judging : JudgingKind) (named out : List ℕ) (carried : List Carried) → found ≡ None
            → AreTrailsKept self.old.trails judging named out carried → AreTrailsKept self.new.trails judging named out carried }
        ensures trails { (named out : List ℕ) (history : List Step) (carried : List Carried) (c : Carried) (a : Found) (given : Given)
            → found ≡ Some a
            → IsFateOf event.old.frame.parts event.old.likeness event.old.brought.outcome event.old.is_discarded (Became.Datagram given)
            → IsCarriedBy event.old given carried c → IsAttributed named (datagrams_of carried) c.datagram a
            → WereOpened out (whole_of named carried) → AuditsAfter self.old.audit named out history (datagrams_of (c ∷ carried))
            → AreTrailsKept self.old.trails self.old.audit.judge.judging named out carried
            → OnOk result (AreTrailsKept self.new.trails self.old.audit.judge.judging named out (c ∷ carried)) }
        ensures marks { (named out : List ℕ) (history : List Step) (carried : List Carried) (s : Noticed) (step : Step) (c : Carried) (a : Found) (given : Given)
            → found ≡ Some a → IsOfEvent step history event.old
            → IsFateOf event.old.frame.parts event.old.likeness event.old.brought.outcome event.old.is_discarded (Became.Datagram given)
            → IsCarriedBy event.old given carried c
            → IsAttributed named (datagrams_of carried) c.datagram a → WereOpened out (whole_of named carried)
            → AuditsAfter self.old.audit named out (step ∷ history) (datagrams_of (c ∷ carried))
            → AreTrailsKept self.old.trails self.old.audit.judge.judging named out carried
            → IsNoticedOf named history carried s → AreNotesOf self.old.notes s → AreMarksKept self.old.unplaced self.old.trails out s.beside
            → OnOk result (AreMarksKept self.new.unplaced self.new.trails out (marks_with a.place c (with_time c.time s.times) s.beside)) }
        ensures unreached { self.new.unreached ≡ self.old.unreached }
        ensures frame { event.new.frame ≡ event.old.frame }
        ensures goes { result ≢ Ok false }
        ensures fault { self.new.notes.fault ≡ self.old.notes.fault }
        ensures same_kept { found ≡ None → self.new.kept ≡ self.old.kept }
        ensures texts { (named : List ℕ) (carried : List Carried) (c : Carried) (a : Found) (given : Given)
            → found ≡ Some a
            → IsFateOf event.old.frame.parts event.old.likeness event.old.brought.outcome event.old.is_discarded (Became.Datagram given)
            → IsCarriedBy event.old given carried c → a.place ≡ (framed_after named carried c).placed.place
            → AreTextsKept self.old.kept named carried → OnOk result (AreTextsKept self.new.kept named (c ∷ carried)) }
        ensures wanted { self.new.kept.wanted ≡ self.old.kept.wanted }
        ensures memory { result ≢ Err AttributionFault.TooMany }
    {
        self.notes.lose(alloc, event.old())?;
        self.notes.lose_all(alloc, event.take_ousted(alloc))?;
        self.note(alloc, event, found)?;
        Ok(true)
    }

    /// Notes what became of a frame.
    fn note(
        &mut self,
        alloc: Global,
        event: &Event,
        found: Option<Attributed>,
    ) -> Result<(), AttributionFault>
        ensures none { (named : List ℕ) (carried : List Carried) (s : Noticed)
            → found ≡ None → GivesNone event.now → s.last ≤ event.now.frame.number → AreNotesOf self.old.notes s
            → OnOk result ((fate : Became) × (t : Noticed) × IsFateOf event.now.frame.parts event.now.likeness event.now.brought.outcome event.now.is_discarded fate
            × AddsOne named event.now fate carried s carried t
            × (AreNotesOf self.new.notes t × ((out : List ℕ) → AreMarksKept self.old.unplaced self.old.trails out s.beside → AreMarksKept self.new.unplaced self.new.trails out t.beside))) }
        ensures datagram { (named : List ℕ) (carried : List Carried) (s : Noticed) (c : Carried) (a : Found) (given : Given)
            → found ≡ Some a → IsFateOf event.now.frame.parts event.now.likeness event.now.brought.outcome event.now.is_discarded (Became.Datagram given)
            → IsCarriedBy event.now given carried c → s.last < event.now.frame.number → AreNotesOf self.old.notes s
            → OnOk result (AreNotesOf self.new.notes (placing a.place event.now c s)) }
        ensures audit { self.new.audit ≡ self.old.audit }
        ensures same_trails { (judging : JudgingKind) (named out : List ℕ) (carried : List Carried) → found ≡ None
            → AreTrailsKept self.old.trails judging named out carried → AreTrailsKept self.new.trails judging named out carried }
        ensures trails { (named out : List ℕ) (history : List Step) (carried : List Carried) (c : Carried) (a : Found) (given : Given)
            → found ≡ Some a → IsFateOf event.now.frame.parts event.now.likeness event.now.brought.outcome event.now.is_discarded (Became.Datagram given)
            → IsCarriedBy event.now given carried c → IsAttributed named (datagrams_of carried) c.datagram a
            → WereOpened out (whole_of named carried) → AuditsAfter self.old.audit named out history (datagrams_of (c ∷ carried))
            → AreTrailsKept self.old.trails self.old.audit.judge.judging named out carried
            → OnOk result (AreTrailsKept self.new.trails self.old.audit.judge.judging named out (c ∷ carried)) }
        ensures marks { (named out : List ℕ) (history : List Step) (carried : List Carried) (s : Noticed) (c : Carried) (a : Found) (given : Given)
            → found ≡ Some a → IsFateOf event.now.frame.parts event.now.likeness event.now.brought.outcome event.now.is_discarded (Became.Datagram given)
            → IsCarriedBy event.now given carried c
            → IsAttributed named (datagrams_of carried) c.datagram a → WereOpened out (whole_of named carried)
            → AuditsAfter self.old.audit named out history (datagrams_of (c ∷ carried))
            → AreTrailsKept self.old.trails self.old.audit.judge.judging named out carried
            → s.last < event.now.frame.number → AreNotesOf self.old.notes s → gone_of s.beside ≡ s.gone → AreMarksKept self.old.unplaced self.old.trails out s.beside
            → OnOk result (AreMarksKept self.new.unplaced self.new.trails out (marks_with a.place c (with_time c.time s.times) s.beside)) }
        ensures unreached { self.new.unreached ≡ self.old.unreached }
        ensures fault { self.new.notes.fault ≡ self.old.notes.fault }
        ensures same_kept { found ≡ None → self.new.kept ≡ self.old.kept }
        ensures texts { (named : List ℕ) (carried : List Carried) (c : Carried) (a : Found) (given : Given)
            → found ≡ Some a
            → IsFateOf event.now.frame.parts event.now.likeness event.now.brought.outcome event.now.is_discarded (Became.Datagram given)
            → IsCarriedBy event.now given carried c → a.place ≡ (framed_after named carried c).placed.place
            → AreTextsKept self.old.kept named carried → OnOk result (AreTextsKept self.new.kept named (c ∷ carried)) }
        ensures wanted { self.new.kept.wanted ≡ self.old.kept.wanted }
        ensures memory { result ≢ Err AttributionFault.TooMany }
    {
        match event.fate() {
            Fate::Datagram(datagram) => self.pass(alloc, event, &datagram, found),
            Fate::Left(why) => Ok(self.notes.leave(alloc, why, event)?),
            Fate::Waits => Ok(self.notes.wait(alloc, event)?),
            Fate::Discarded(datagram) => Ok(discard(
                &mut self.trails,
                &self.unplaced,
                &mut self.notes,
                alloc,
                event,
                &datagram,
            )?),
        }
    }

    /// Notes a datagram that has its place.
    fn pass(
        &mut self,
        alloc: Global,
        event: &Event,
        datagram: &Datagram<'_>,
        found: Option<Attributed>,
    ) -> Result<(), AttributionFault>
        requires sound { IsSound (record { source_port = datagram.now.source_port; target_port = datagram.now.target_port; payload = datagram.now.payload.now }) }
        ensures notes { (carried : List Carried) (s : Noticed) (c : Carried) (a : Found) → found ≡ Some a → IsCarriedBy event.now datagram.now carried c
            → s.last < event.now.frame.number → AreNotesOf self.old.notes s → OnOk result (AreNotesOf self.new.notes (placing a.place event.now c s)) }
        ensures audit { self.new.audit ≡ self.old.audit }
        ensures same_trails { (judging : JudgingKind) (named out : List ℕ) (carried : List Carried) → found ≡ None
            → AreTrailsKept self.old.trails judging named out carried → AreTrailsKept self.new.trails judging named out carried }
        ensures trails { (named out : List ℕ) (history : List Step) (carried : List Carried) (c : Carried) (a : Found) → found ≡ Some a
            → IsCarriedBy event.now datagram.now carried c → IsAttributed named (datagrams_of carried) c.datagram a
            → WereOpened out (whole_of named carried) → AuditsAfter self.old.audit named out history (datagrams_of (c ∷ carried))
            → AreTrailsKept self.old.trails self.old.audit.judge.judging named out carried
            → OnOk result (AreTrailsKept self.new.trails self.old.audit.judge.judging named out (c ∷ carried)) }
        ensures marks { (named out : List ℕ) (history : List Step) (carried : List Carried) (s : Noticed) (c : Carried) (a : Found)
            → found ≡ Some a → IsCarriedBy event.now datagram.now carried c
            → IsAttributed named (datagrams_of carried) c.datagram a → WereOpened out (whole_of named carried)
            → AuditsAfter self.old.audit named out history (datagrams_of (c ∷ carried))
            → AreTrailsKept self.old.trails self.old.audit.judge.judging named out carried
            → s.last < event.now.frame.number → AreNotesOf self.old.notes s → gone_of s.beside ≡ s.gone → AreMarksKept self.old.unplaced self.old.trails out s.beside
            → OnOk result (AreMarksKept self.new.unplaced self.new.trails out (marks_with a.place c (with_time c.time s.times) s.beside)) }
        ensures unreached { self.new.unreached ≡ self.old.unreached }
        ensures fault { self.new.notes.fault ≡ self.old.notes.fault }
        ensures same_kept { found ≡ None → self.new.kept ≡ self.old.kept }
        ensures texts { (named : List ℕ) (carried : List Carried) (c : Carried) (a : Found) → found ≡ Some a → IsCarriedBy event.now datagram.now carried c
            → a.place ≡ (framed_after named carried c).placed.place
            → AreTextsKept self.old.kept named carried → OnOk result (AreTextsKept self.new.kept named (c ∷ carried)) }
        ensures wanted { self.new.kept.wanted ≡ self.old.kept.wanted }
        ensures memory { result ≢ Err AttributionFault.TooMany }
    {
        let Some(found) = found else {
            return Ok(());
        };
        self.notes.find(alloc, event.sharers())?;
        let source = party_of(datagram.source, datagram.source_port);
        let target = party_of(datagram.target, datagram.target_port);
        let passing = Passing {
            frame: event.number(),
            time: event.time(),
            is_doubtful: event.is_doubtful(),
            has_error: event.has_error(),
            has_wrong_checksum: is_wrong(event.checksum()),
            is_joined: is_joined(event.checksum(), datagram.payload),
            source: source.end,
            target: target.end,
            payload: datagram.payload,
        };
        self.notes.pass(&passing)?;
        ask(
            &mut self.trails,
            &mut self.unplaced,
            &mut self.notes,
            alloc,
            &found.place,
            &passing,
        )?;
        let fed = Fed {
            place: &found.place,
            source: &source,
            target: &target,
            payload: datagram.payload,
        };
        self.kept.note(alloc, &fed, &passing)?;
        Ok(self.follow(&found, &passing)?)
    }

    /// Notes a datagram at the transfer that it is about, or as one of none.
    fn follow(&mut self, found: &Attributed, passing: &Passing<'_>) -> Result<(), AllocError>
        ensures notes { (s : Noticed) → AreNotesOf self.old.notes s → OnOk result (AreNotesOf self.new.notes (setting_aside found.now.place (stray_of passing.now) s)) }
        ensures audit { self.new.audit ≡ self.old.audit }
        ensures trails { (named out : List ℕ) (history : List Step) (c : Carried) (carried : List Carried)
            → IsAttributed named (datagrams_of carried) c.datagram found.now → IsPassing passing.now c
            → AuditsAfter self.old.audit named out history (datagrams_of (c ∷ carried))
            → AreTrailsBegun self.old.trails self.old.audit.judge.judging named out c carried
            → OnOk result (AreTrailsKept self.new.trails self.old.audit.judge.judging named out (c ∷ carried)) }
        ensures marks { (named out : List ℕ) (history : List Step) (c : Carried) (carried : List Carried) (times : List ℕ) (marks : List Mark)
            → IsAttributed named (datagrams_of carried) c.datagram found.now → IsPassing passing.now c
            → AuditsAfter self.old.audit named out history (datagrams_of (c ∷ carried))
            → AreTrailsBegun self.old.trails self.old.audit.judge.judging named out c carried
            → IsClockAfter self.old.notes.clock times → AreMarksKept self.old.unplaced self.old.trails out marks
            → OnOk result (AreMarksKept self.new.unplaced self.new.trails out (straying found.now.place c times (joining found.now.place c.time marks))) }
        ensures unreached { self.new.unreached ≡ self.old.unreached }
        ensures fault { self.new.notes.fault ≡ self.old.notes.fault }
        ensures kept { self.new.kept ≡ self.old.kept }
    {
        hand_over(
            &mut self.trails,
            &mut self.unplaced,
            &self.notes.clock,
            &self.audit,
            found,
            passing,
        )?;
        self.notes.set_aside(&found.place, passing)
    }

    /// Whether there is a transfer, and nothing that comes later changes what is told of the oldest: no datagram joins it any
    /// more, and no fragment of its client's host waits that may be of it.
    pub fn is_first_over(&self) -> bool
        ensures { (named out : List ℕ) (history : List Step) (carried : List Carried) (s : Noticed) → IsSessionAfter self.now named out history carried s
            → MatchBool result (IsOldestOver self.now named carried s) (IsOldestOver self.now named carried s → ⊥) }
    {
        match self.trails.first_key_value() {
            Some((_, trail)) => {
                self.notes.is_past(trail) && self.audit.is_over(&trail.transfer.client)
            }
            None => false,
        }
    }

    /// Hands out the oldest transfer.
    pub fn pop(&mut self) -> Option<Ended>
        ensures stands { (named out : List ℕ) (history : List Step) (carried : List Carried) (s : Noticed) → IsSessionOf self.old named out history carried s
            → IfSome result (λ e. IsSessionOf self.new named (e.watched.transfer.number ∷ out) history carried s) }
        ensures watched { (named out : List ℕ) (history : List Step) (carried : List Carried) (s : Noticed) → IsSessionOf self.old named out history carried s
            → IfSome result (λ e. (opened e.watched.transfer.number (whole_of named carried) ≡ Some e.watched.transfer)
            × IsWatching e.watched self.old.audit.judge.judging e.watched.transfer host_name (whole_of named carried)) }
        ensures first { (named out : List ℕ) (history : List Step) (carried : List Carried) (s : Noticed) (n : ℕ) → IsSessionOf self.old named out history carried s
            → IsSome (opened n (whole_of named carried)) → is_among n out ≡ false → IfSome result (λ e. e.watched.transfer.number ≤ n) }
        ensures once { (named out : List ℕ) (history : List Step) (carried : List Carried) (s : Noticed) → IsSessionOf self.old named out history carried s
            → IfSome result (λ e. is_among e.watched.transfer.number out ≡ false) }
        ensures trail { (named out : List ℕ) (history : List Step) (carried : List Carried) (s : Noticed) → IsSessionOf self.old named out history carried s
            → IfSome result (λ e. IsTrailAfter e.trail self.old.audit.judge.judging e.watched.transfer named carried) }
        ensures beside { (named out : List ℕ) (history : List Step) (carried : List Carried) (s : Noticed) → IsSessionOf self.old named out history carried s
            → IfSome result (λ e. IsMarkedBy e.watched.transfer.number s.beside e.trail) }
        ensures undelivered { (named out : List ℕ) (history : List Step) (carried : List Carried) (s : Noticed) → IsSessionOf self.old named out history carried s
            → IfSome result (λ e. IsUndeliveredOf e.trail.undelivered e.watched.transfer named history carried) }
        ensures all { (named out : List ℕ) (history : List Step) (carried : List Carried) (s : Noticed) → IsSessionOf self.old named out history carried s
            → result ≡ None → (n : ℕ) → (opened n (whole_of named carried) ≡ None) ⊎ (is_among n out ≡ true) }
        ensures none { (named out : List ℕ) (history : List Step) (carried : List Carried) (s : Noticed) → IsSessionOf self.old named out history carried s
            → result ≡ None → IsSessionOf self.new named out history carried s }
        ensures judging { self.new.audit.judge.judging ≡ self.old.audit.judge.judging }
        ensures notes { self.new.notes ≡ self.old.notes }
        ensures kept { self.new.kept ≡ self.old.kept }
    {
        let (number, mut trail) = self.trails.pop_first()?;
        self.unplaced.end(trail.transfer.client, number);
        trail.tell_undelivered(self.unreached.take(number));
        joined(trail, self.audit.pop_first())
    }

    /// The frames that may have been of the client of this transfer, and are not there whole.
    pub fn missing_of(&self, ended: &Ended) -> Missing
        ensures first { (s : Noticed) → AreNotesOf self.now.notes s → IsFirst (IsMissingOf ended.now.trail.transfer.client.address s.events) result.first }
        ensures within { (s : Noticed) → AreNotesOf self.now.notes s
            → IsAsked (λ host. same_address host ended.now.trail.transfer.client.address) ended.now.trail.first s.events
            → IsTold (Since (IsMissingOf ended.now.trail.transfer.client.address s.events) (stretch_of ended.now.trail)) (stretch_of ended.now.trail) result.within }
    {
        self.notes.missing_of(&ended.trail)
    }

    /// The transfer of which so many datagrams came before the first.
    pub fn trail(&self, number: u64) -> Option<&Trail>
        ensures { option_map (λ t. t.now) result ≡ get nat_cmp self.now.trails number }
    {
        self.trails.get(&number)
    }

    /// How many datagrams came before the first of each transfer that was not handed out, from the oldest on.
    pub fn transfers(&self, alloc: Global) -> Result<Vec<u64>, AllocError>
        ensures keys { IfOk result (λ numbers. numbers.items ≡ keys self.now.trails) }
        ensures in_order { (named : List ℕ) (history : List Step) (carried : List Carried) (s : Noticed) → IsSessionOf self.now named [] history carried s
            → IfOk result (λ numbers. numbers.items ≡ opened_numbers (whole_of named carried)) }
    {
        let mut numbers = Vec::new(alloc);
        for number in self.trails.keys() {
            numbers.push(*number)?;
        }
        Ok(numbers)
    }

    /// The key of the transfer with this number from the oldest on, from 1.
    pub(crate) fn key_of(&self, alloc: Global, number: u64) -> Result<u64, TextFault>
        ensures key { (named : List ℕ) (history : List Step) (carried : List Carried) (s : Noticed) → IsSessionOf self.now named [] history carried s
            → IfOk result (λ key. ordinal key (whole_of named carried) ≡ number) }
        ensures there { IfOk result (λ key. IsSome (get nat_cmp self.now.trails key)) }
        ensures none { (named : List ℕ) (history : List Step) (carried : List Carried) (s : Noticed) → IsSessionOf self.now named [] history carried s
            → IfErr result (IsNoneNumbered number (whole_of named carried)) }
    {
        let keys = self.transfers(alloc)?;
        match key_at(keys.as_slice(), number) {
            Some(key) => Ok(key),
            None => Err(TextFault::NoTransfer(number, keys.len())),
        }
    }

    /// Lets all that is kept go.
    pub fn let_go(self) {}

    /// Lets all that is kept go, but for what is to be told of the recording as a whole.
    pub fn into_notes(self) -> Notes
        ensures { result ≡ self.notes }
    {
        let Session {
            audit: _,
            trails: _,
            unplaced: _,
            unreached: _,
            notes,
            kept: _,
        } = self;
        notes
    }

    /// How many transfers there are that were not handed out.
    pub fn count(&self) -> usize
        ensures { result ≡ length (keys self.now.trails) }
    {
        self.trails.len()
    }
}

/// The key at the place with this number, from 1.
fn key_at(keys: &[u64], number: u64) -> Option<u64>
    ensures { result ≡ if number == 0 then None else slice_get keys.now (number - 1) }
{
    if number == 0 {
        return None;
    }
    let place = usize::try_from(number - 1).unwrap_or(usize::MAX);
    keys.get(place).copied()
}

/// Whether one of a datagram's checksums is wrong.
fn is_wrong(checksum: Checksum) -> bool
    ensures { result ≡ is_wrong checksum }
{
    match checksum {
        Checksum::Wrong => true,
        Checksum::Right | Checksum::Partial | Checksum::Absent => false,
    }
}

/// A transfer that has ended, with its judges.
fn joined(trail: Trail, watched: Option<Watched<RingDelivered>>) -> Option<Ended>
    ensures trail { IfSome result (λ e. e.trail ≡ trail) }
    ensures watched { option_map (λ e. e.watched) result ≡ watched }
{
    match watched {
        Some(watched) => Some(Ended { trail, watched }),
        None => None,
    }
}
