//! The judges of a recording, given what became of each of its frames.

ghost use Rattle.std.specs.Prelude.{◌≡◌, ◌≤◌, ◌+◌, ◌++◌, ◌^◌, ◌∷◌, ◌⊎◌, ℕ, List, [], length, max, IfOk, IfSome, IsErr, IsSome, MatchBool, MatchOption, OnErr, Ok, Err, None, Some, false, true, ◌≢◌};
ghost use Rattle.std.specs.Io.KnownBytes.{Consumes, IsAtEnd, prepend_known};
ghost use Rattle.net_pcap.specs.{PcapFault};
ghost use Rattle.net_streams.specs.{Standing};
ghost use Rattle.net_udp.specs.Recording.{IsFateOf, StandsFor, Step, standing_of};
ghost use Rattle.net_udp.specs.{Fate};
ghost use Rattle.net_udp.specs.declared.recording.fate.Datagram.{Datagram};
ghost use Rattle.audit_recording.specs.Audit.Audited.{AuditsAfter, GoesOn, IsAttributed, IsGivenBy, IsNoted, IsOf};
ghost use Rattle.audit_recording.specs.declared.audit.next.AuditFault.{AuditFault};
ghost use Rattle.audit_recording.specs.declared.audit.next.NextFrame.{NextFrame};
ghost use Rattle.audit_recording.specs.Audit.Sound.{IsSoundDatagram};
ghost use Rattle.net_udp.specs.Frames.{IsSound};
ghost use Rattle.audit_recording.specs.Audit.Passed.{IsTaken, last_time, time_by};
ghost use Rattle.audit_recording.specs.Judges.{AreCrowded, IsWatching, StandsAfter, is_among, opened};
ghost use Rattle.audit_views.specs.Parties.{host_name};
ghost use Rattle.audit_flows.specs.Transfers.{placed};
ghost use Rattle.audit_flows.specs.{AttributionFault};
ghost use Rattle.audit_flows.specs.Lines.{clock, line, live, Recorded};

use crate::audit::next::{AuditFault, NextFrame};
use crate::judges::{Judging, RecordingJudge, Watched};
use audit_flows::lines::{Endpoint, spells_request};
use audit_flows::transfers::{Attributed, AttributionFault};
use audit_views::parties::party_of;
use net_streams::streams::Latched;
use net_udp::recording::{Datagram, Event, Fate, RecordingReader};
use std::alloc::{AllocError, Global};
use std::io::Read;
use std::marker::Model;
use tftp_ends::blocks::Delivered;

/// The judges of a recording's transfers, to be given what became of each of its frames, from the first to the last.
#[derive(Drop)]
pub struct RecordingAudit<D: Delivered + Drop> {
    judge: RecordingJudge<D>,
    /// The time of the last datagram, in nanoseconds.
    last_time: u64,
}

impl<D: Delivered + Drop> Model for RecordingAudit<D> {
    ghost use Rattle.std.specs.Coded.{codes};
    ghost use Rattle.std_collections.specs.Layout.BTreeMap.{btree_map_code};
    ghost use Rattle.std_collections.specs.Layout.BTreeSet.{btree_set_code};
    ghost use Rattle.tftp_ends.specs.StatesKept.{sender_code, receiver_code};
    ghost use Rattle.tftp_packet.specs.Owned.{options_code, parts_code};
    ghost use Rattle.audit_recording.specs.Audit.Audited.{RecordingAudit};

    ghost Value = { RecordingAudit };

    ghost coded = { Prim.hlevel (codes, btree_map_code, btree_set_code, sender_code, receiver_code, options_code, parts_code) };

    ghost view = { λ a. record { judge = a.judge; last_time = a.last_time } };
}

impl<D: Delivered + Drop> RecordingAudit<D> {
    /// No frame was read. Requests go to port 69 (RFC 1350, section 4) and to the ports that are named.
    pub fn new(alloc: Global, named: &[u16], judging: Judging) -> Result<Self, AllocError>
        ensures stands { IfOk result (λ a. AuditsAfter a named.now [] [] []) }
        ensures judging { IfOk result (λ a. a.judge.judging ≡ judging) }
    {
        Ok(RecordingAudit {
            judge: RecordingJudge::new(alloc, named, judging)?,
            last_time: 0,
        })
    }

    /// Where the transfers are judged.
    pub fn judging(&self) -> Judging
        ensures { result ≡ self.now.judge.judging }
    {
        self.judge.judging()
    }

    /// Takes what became of the next frame. Of a datagram it answers where it belongs and what it makes doubtful; nothing of a
    /// frame that has given none. A datagram of which the recording tells no time passes at that of the one before it. After
    /// a fault it has failed for good.
    pub fn take(
        &mut self,
        alloc: Global,
        event: &Event,
    ) -> Result<Option<Attributed>, AttributionFault>
        ensures stands { (named : List ℕ) (out : List ℕ) (history : List Step) (passed : List Recorded) (step : Step)
            → AuditsAfter self.old named out history passed
            → IsOf step event.now
            → IfOk result (λ found. MatchOption found
            (AuditsAfter self.new named out (step ∷ history) passed)
            (λ a. (d : Recorded) × IsGivenBy event.now passed d × IsAttributed named passed d a
            × AuditsAfter self.new named out (step ∷ history) (d ∷ passed))) }
        ensures spare { OnErr result ((given : Datagram) × IsFateOf event.now.frame.parts event.now.likeness event.now.brought.outcome event.now.is_discarded (Fate.Datagram given)) }
        ensures full { result ≡ Err AttributionFault.TooMany → (self.old.judge.attribution.count + 1 ≡ 2 ^ 64) ⊎ AreCrowded self.old.judge.watched }
        ensures fails { OnErr result (self.new.judge.failed ≡ true) }
        ensures for_good { self.old.judge.failed ≡ true → self.new.judge.failed ≡ true }
        ensures judging { self.new.judge.judging ≡ self.old.judge.judging }
    {
        match event.fate() {
            Fate::Datagram(datagram) => {
                let found = self.feed(alloc, event.time(), &datagram)?;
                Ok(Some(found))
            }
            _ => Ok(None),
        }
    }

    /// Reads the next frame of a recording, and takes what became of it, which the event then holds.
    pub fn next_into<R: Read>(
        &mut self,
        alloc: Global,
        reader: &mut Latched<R>,
        recording: &mut RecordingReader,
        event: &mut Event,
    ) -> Result<NextFrame, AuditFault>
        ensures continues { (named : List ℕ) (out : List ℕ) (bytes : List ℕ) (history : List Step) (passed : List Recorded)
            → StandsFor recording.old bytes history
            → AuditsAfter self.old named out history passed
            → (taken : List ℕ)
            × Consumes (prepend_known recording.old.frames.pieces.ahead (R.remaining reader.old.0)) (prepend_known recording.new.frames.pieces.ahead (R.remaining reader.new.0)) taken
            × GoesOn (λ frames datagrams. StandsFor recording.new (bytes ++ taken) frames
            × AuditsAfter self.new named out frames datagrams) named history passed event.new result }
        ensures ends { result ≡ Ok NextFrame.End → standing_of recording.new ≡ Standing.Over }
        ensures at_end { standing_of recording.old ≡ Standing.Open → result ≡ Ok NextFrame.End → IsAtEnd (prepend_known recording.new.frames.pieces.ahead (R.remaining reader.new.0)) }
        ensures goes { (next : NextFrame) → result ≡ Ok next → next ≢ NextFrame.End → standing_of recording.new ≡ Standing.Open }
        ensures stops { (fault : PcapFault) → result ≡ Err (AuditFault.Recording fault) → standing_of recording.new ≡ Standing.Failed fault }
        ensures fails { (fault : AttributionFault) → result ≡ Err (AuditFault.Judges fault) → self.new.judge.failed ≡ true }
        ensures many { (named : List ℕ) (out : List ℕ) (history : List Step) (passed : List Recorded)
            → AuditsAfter self.old named out history passed
            → result ≡ Err (AuditFault.Judges AttributionFault.TooMany) → 2 ^ 40 ≤ length passed }
        ensures judging { self.new.judge.judging ≡ self.old.judge.judging }
    {
        match recording.next_into(alloc, reader, event) {
            Ok(true) => self.note(alloc, event),
            Ok(false) => Ok(NextFrame::End),
            Err(fault) => Err(AuditFault::Recording(fault)),
        }
    }

    /// Takes what became of a frame that was read.
    fn note(&mut self, alloc: Global, event: &Event) -> Result<NextFrame, AuditFault>
        ensures stands { (named : List ℕ) (out : List ℕ) (history : List Step) (passed : List Recorded) (step : Step)
            → AuditsAfter self.old named out history passed
            → IsOf step event.now
            → IsNoted (λ datagrams. AuditsAfter self.new named out (step ∷ history) datagrams) named passed event.now result }
        ensures no_end { result ≢ Ok NextFrame.End }
        ensures no_stop { (fault : PcapFault) → result ≢ Err (AuditFault.Recording fault) }
        ensures full { result ≡ Err (AuditFault.Judges AttributionFault.TooMany) → (self.old.judge.attribution.count + 1 ≡ 2 ^ 64) ⊎ AreCrowded self.old.judge.watched }
        ensures fails { OnErr result (self.new.judge.failed ≡ true) }
        ensures judging { self.new.judge.judging ≡ self.old.judge.judging }
    {
        match self.take(alloc, event) {
            Ok(Some(found)) => Ok(NextFrame::Datagram(found)),
            Ok(None) => Ok(NextFrame::Nothing),
            Err(fault) => Err(AuditFault::Judges(fault)),
        }
    }

    /// Hands a datagram to the judges, at the time of its frame.
    fn feed(
        &mut self,
        alloc: Global,
        time: Option<u64>,
        datagram: &Datagram<'_>,
    ) -> Result<Attributed, AttributionFault>
        requires sound { IsSound (record { source_port = datagram.now.source_port; target_port = datagram.now.target_port; payload = datagram.now.payload.now }) }
        ensures stands { (named : List ℕ) (out : List ℕ) (passed : List Recorded)
            → StandsAfter self.old.judge named host_name out passed
            → self.old.last_time ≡ last_time passed
            → IfOk result (λ a. (d : Recorded) × IsTaken datagram.now (time_by time passed) d × IsAttributed named passed d a
            × StandsAfter self.new.judge named host_name out (d ∷ passed)
            × (self.new.last_time ≡ d.time) × IsSoundDatagram d) }
        ensures full { result ≡ Err AttributionFault.TooMany → (self.old.judge.attribution.count + 1 ≡ 2 ^ 64) ⊎ AreCrowded self.old.judge.watched }
        ensures fails { OnErr result (self.new.judge.failed ≡ true) }
        ensures for_good { self.old.judge.failed ≡ true → IsErr result }
        ensures judging { self.new.judge.judging ≡ self.old.judge.judging }
    {
        let time = time.unwrap_or(self.last_time);
        let source = party_of(datagram.source, datagram.source_port);
        let target = party_of(datagram.target, datagram.target_port);
        let is_spelled = spells_request(datagram.payload);
        let found = self.judge.feed(alloc, time, &source, &target, datagram.payload, is_spelled)?;
        self.last_time = time;
        Ok(found)
    }

    /// The transfer with this number, if it was opened and not handed out.
    pub fn watched(&self, number: u64) -> Option<&Watched<D>>
        ensures { (named : List ℕ) (out : List ℕ) (history : List Step) (passed : List Recorded)
            → AuditsAfter self.now named out history passed
            → MatchOption result ((opened number (placed named passed) ≡ None) ⊎ (is_among number out ≡ true))
            (λ w. (opened number (placed named passed) ≡ Some w.now.transfer)
            × IsWatching w.now self.now.judge.judging w.now.transfer host_name (placed named passed)) }
    {
        self.judge.watched(number)
    }

    /// Hands out the transfer that was opened first of those that were not handed out.
    pub fn pop_first(&mut self) -> Option<Watched<D>>
        ensures all { (named : List ℕ) (out : List ℕ) (history : List Step) (passed : List Recorded)
            → AuditsAfter self.old named out history passed
            → result ≡ None → (n : ℕ) → (opened n (placed named passed) ≡ None) ⊎ (is_among n out ≡ true) }
        ensures watched { (named : List ℕ) (out : List ℕ) (history : List Step) (passed : List Recorded)
            → AuditsAfter self.old named out history passed
            → IfSome result (λ w. (opened w.transfer.number (placed named passed) ≡ Some w.transfer)
            × IsWatching w self.old.judge.judging w.transfer host_name (placed named passed)) }
        ensures stands { (named : List ℕ) (out : List ℕ) (history : List Step) (passed : List Recorded)
            → AuditsAfter self.old named out history passed
            → IfSome result (λ w. AuditsAfter self.new named (w.transfer.number ∷ out) history passed) }
        ensures first { (named : List ℕ) (out : List ℕ) (history : List Step) (passed : List Recorded) (n : ℕ)
            → AuditsAfter self.old named out history passed
            → IsSome (opened n (placed named passed)) → is_among n out ≡ false
            → IfSome result (λ w. w.transfer.number ≤ n) }
        ensures once { (named : List ℕ) (out : List ℕ) (history : List Step) (passed : List Recorded)
            → AuditsAfter self.old named out history passed → IfSome result (λ w. is_among w.transfer.number out ≡ false) }
        ensures judging { self.new.judge.judging ≡ self.old.judge.judging }
    {
        self.judge.pop_first()
    }

    /// Whether no datagram of this client's joins its transfers any more: it has been silent for more than 300 s of the
    /// recording's time, or has not begun.
    pub fn is_over(&self, client: &Endpoint) -> bool
        ensures { (named : List ℕ) (out : List ℕ) (history : List Step) (passed : List Recorded)
            → AuditsAfter self.now named out history passed
            → MatchBool result
            (live (clock (placed named passed)) (line client.now (placed named passed)) ≡ [])
            (live (clock (placed named passed)) (line client.now (placed named passed)) ≢ []) }
    {
        self.judge.is_over(client, self.last_time)
    }
}
