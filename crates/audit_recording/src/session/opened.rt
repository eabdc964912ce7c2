//! Recordings are read.

ghost use Rattle.std.specs.Prelude.{◌≡◌, [], ℕ, List, IfErr, IfOk, OnErr, OnOk, Ok, Option, false, true};
ghost use Rattle.std.specs.Io.KnownBytes.{IsAtEnd};
ghost use Rattle.net_pcap.specs.{FailsToBegin, may_lose};
ghost use Rattle.net_streams.specs.{Standing};
ghost use Rattle.net_udp.specs.Recording.{Step, standing_of};
ghost use Rattle.audit_recording.specs.Blame.Frames.{Carried};
ghost use Rattle.audit_recording.specs.Session.Kept.{IsSessionAfter, ReadsOn};
ghost use Rattle.audit_recording.specs.Session.Noted.{Noticed, nothing_noticed};
ghost use Rattle.audit_recording.specs.Session.Opened.{HasEnded, HasRead, IsCounted, IsReadFaultOf, IsReadOn, IsReadWhole, IsSessionClosed, left_of, may_lose_in};

use crate::session::fault::ReadFault;
use crate::session::headed::{Headed, hint};
use crate::session::session::Session;
use audit_flows::transfers::AttributionFault;
use net_pcap::{FaultKind, PcapFault};
use net_streams::streams::Latched;
use net_udp::recording::{Event, RecordingReader};
use std::alloc::Global;
use std::io::Read;

/// A recording that is being read.
#[derive(Drop)]
pub struct Opened<R: Read + Drop> {
    reader: Latched<Headed<R>>,
    recording: RecordingReader,
    event: Event,
    /// How many of its frames were read.
    frames: u64,
    /// Whether it may tell later on that its recorder lost packets.
    may_lose: bool,
}

impl<R: Read + Drop> Opened<R> {
    /// Reads the file's beginning.
    pub fn begin(alloc: Global, reader: R) -> Result<Self, ReadFault>
        ensures begun { IfOk result (λ opened. HasRead R.remaining (R.remaining reader) opened []) }
        ensures open { IfOk result (λ opened. standing_of opened.recording ≡ Standing.Open) }
        ensures may_lose { IfOk result (λ opened. may_lose_in opened ≡ may_lose opened.recording.frames.pieces.mode.layout) }
        ensures why { IfErr result (IsReadFaultOf (R.remaining reader)) }
    {
        let mut reader = Latched::new(Headed::new(reader));
        match RecordingReader::begin(alloc, &mut reader) {
            Ok(recording) => Ok(Opened {
                may_lose: recording.may_lose(),
                reader,
                recording,
                event: Event::empty(alloc),
                frames: 0,
            }),
            Err(fault) => Err(refused(&fault, reader.into_inner())),
        }
    }

    /// Reads the next frame; whether the recording goes on.
    pub fn next(&mut self, alloc: Global, session: &mut Session) -> Result<bool, ReadFault>
        ensures goes_on { (named out : List ℕ) (history : List Step) (carried : List Carried) (s : Noticed)
            → (file : Option (List ℕ)) → HasRead R.remaining file self.old history → IsSessionAfter session.old named out history carried s
            → ReadsOn (λ frames datagrams noticed. HasRead R.remaining file self.new frames
            × IsSessionAfter session.new named out frames datagrams noticed) history carried s result }
        ensures ends { result ≡ Ok false → HasEnded self.new.recording session.new.notes }
        ensures at_end { standing_of self.old.recording ≡ Standing.Open → result ≡ Ok false → standing_of self.new.recording ≡ Standing.Over → IsAtEnd (left_of R.remaining self.new) }
        ensures goes { result ≡ Ok true → standing_of self.new.recording ≡ Standing.Open }
        ensures fault { result ≡ Ok true → session.new.notes.fault ≡ session.old.notes.fault }
        ensures whole { result ≡ Ok false → standing_of self.new.recording ≡ Standing.Over → session.new.notes.fault ≡ session.old.notes.fault }
        ensures judging { session.new.audit.judge.judging ≡ session.old.audit.judge.judging }
        ensures wanted { session.new.kept.wanted ≡ session.old.kept.wanted }
        ensures stays { may_lose_in self.new ≡ may_lose_in self.old }
        ensures may_lose { session.new.notes.may_lose ≡ may_lose_in self.new }
        ensures why { (named out : List ℕ) (history : List Step) (carried : List Carried) (s : Noticed)
            → (file : Option (List ℕ)) → HasRead R.remaining file self.old history → IsSessionAfter session.old named out history carried s
            → IfErr result (IsReadFaultOf file) }
    {
        let goes_on = session.next(
            alloc,
            &mut self.reader,
            &mut self.recording,
            &mut self.event,
        );
        session.notes.may_lose = self.may_lose;
        count(&mut self.frames, goes_on)
    }

    /// Reads no further: the fragments that still wait belong to nothing, and the recorder has told how many packets it lost.
    pub fn close(self, alloc: Global, session: &mut Session) -> Result<(), ReadFault>
        ensures closed { (named out : List ℕ) (history : List Step) (carried : List Carried) (s : Noticed)
            → IsSessionAfter session.old named out history carried s
            → OnOk result (IsSessionClosed session.new self.recording named out history carried s) }
        ensures judging { session.new.audit.judge.judging ≡ session.old.audit.judge.judging }
        ensures fault { session.new.notes.fault ≡ session.old.notes.fault }
        ensures kept { session.new.kept ≡ session.old.kept }
        ensures why { (file : Option (List ℕ)) (history : List Step) → HasRead R.remaining file self history → IfErr result (IsReadFaultOf file) }
    {
        let (dropped, frames) = (self.recording.lost(), self.frames);
        let closed = session.notes.lose_all(alloc, self.recording.into_waiting());
        session.notes.may_lose = false;
        session.notes.dropped = dropped;
        match closed {
            Ok(()) => Ok(()),
            Err(_) => Err(ReadFault::Memory(frames)),
        }
    }
}

/// Counts the frame that was read, if there was one.
fn count(frames: &mut u64, goes_on: Result<bool, AttributionFault>) -> Result<bool, ReadFault>
    ensures { IsCounted frames.old frames.new goes_on result }
{
    match goes_on {
        Ok(true) => {
            *frames = frames.saturating_add(1);
            Ok(true)
        }
        Ok(false) => Ok(false),
        Err(AttributionFault::Memory) => Err(ReadFault::Memory(*frames)),
        Err(AttributionFault::TooMany) => Err(ReadFault::TooMany),
    }
}

/// Why a file is no recording.
fn refused<R: Drop>(fault: &PcapFault, file: Headed<R>) -> ReadFault
    ensures { (read left : Option (List ℕ)) → FailsToBegin read left fault.now → IsReadFaultOf read result }
{
    match fault.kind {
        FaultKind::NotARecording => ReadFault::NoRecording(hint(file.head())),
        FaultKind::Memory => ReadFault::Memory(0),
        kind => ReadFault::Format(kind),
    }
}

/// Reads a recording to its end with a new session, and closes it.
pub fn read_whole<R: Read + Drop>(
    alloc: Global,
    reader: R,
    session: &mut Session,
) -> Result<(), ReadFault>
    ensures read { (named : List ℕ) → IsSessionAfter session.old named [] [] [] nothing_noticed → OnOk result (IsReadWhole (R.Read.remaining reader) session.new named) }
    ensures why { (named : List ℕ) → IsSessionAfter session.old named [] [] [] nothing_noticed → IfErr result (IsReadFaultOf (R.Read.remaining reader)) }
    ensures wanted { session.new.kept.wanted ≡ session.old.kept.wanted }
{
    let mut opened = Opened::begin(alloc, reader)?;
    let read = read_frames(alloc, &mut opened, session);
    let closed = opened.close(alloc, session);
    read?;
    closed?;
    Ok(())
}

/// Reads a recording to its end, or to a fault, which is noted.
fn read_frames<R: Read + Drop>(
    alloc: Global,
    opened: &mut Opened<R>,
    session: &mut Session,
) -> Result<(), ReadFault>
    ensures read { (file : Option (List ℕ)) (named : List ℕ) → IsReadOn (HasRead R.Read.remaining file opened.old) session.old named
        → OnOk result (IsReadOn (HasRead R.Read.remaining file opened.new) session.new named) }
    ensures why { (file : Option (List ℕ)) (named : List ℕ) → IsReadOn (HasRead R.Read.remaining file opened.old) session.old named
        → IfErr result (IsReadFaultOf file) }
    ensures ends { OnOk result (HasEnded opened.new.recording session.new.notes) }
    ensures at_end { standing_of opened.old.recording ≡ Standing.Open
        → OnOk result (standing_of opened.new.recording ≡ Standing.Over → IsAtEnd (left_of R.Read.remaining opened.new)) }
    ensures wanted { session.new.kept.wanted ≡ session.old.kept.wanted }
{
    for _turn in 0..u64::MAX {
        if !opened.next(alloc, session)? {
            return Ok(());
        }
    }
    Err(ReadFault::TooMany)
}
