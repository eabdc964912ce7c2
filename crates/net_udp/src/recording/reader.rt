ghost use Rattle.std.specs.Prelude.{◌≡◌, ◌≢◌, ◌+◌, ◌++◌, ℕ, List, [], true, false, None, Ok, Err, IfOk, IfErr, OnOk};
ghost use Rattle.std.specs.Io.KnownBytes.{prepend_known, Consumes, IsAtEnd};
ghost use Rattle.net_pcap.specs.{FailsToBegin, FaultKind, lost_of, may_lose};
ghost use Rattle.net_streams.specs.Streams.{KeepsAnswer, standing_after};
ghost use Rattle.net_streams.specs.{Standing};
ghost use Rattle.net_udp.specs.Recording.History.{Continues, StandsFor, Step, standing_of};

use crate::copies::Recent;
use crate::fragments::Fragments;
use crate::recording::event::Event;
use crate::recording::senders::Senders;
use crate::recording::taken::take_event;
use net_pcap::{FaultKind, FrameReader, PcapFault};
use net_streams::streams::Latched;
use std::alloc::Global;
use std::io::Read;
use std::marker::Model;

/// A reader of what became of a recording's frames: it holds what a reader of frames does, the last 16 packets,
/// the fragments that wait for others of their packets, 64 MB at most, and the hosts that sent datagrams with checksums.
pub struct RecordingReader {
    frames: FrameReader,
    recent: Recent,
    waiting: Fragments,
    senders: Senders,
    refused: Option<PcapFault>,
}

impl Drop for RecordingReader {
    // written out, since the prover takes a derived one apart again wherever a value is let go
    fn drop(self) {
        let RecordingReader {
            frames: _,
            recent: _,
            waiting: _,
            senders: _,
            refused: _,
        } = self;
    }
}

impl Model for RecordingReader {
    ghost use Rattle.net_udp.specs.Recording.History.{RecordingState};

    ghost Value = { RecordingState };

    ghost view = { λ r. record { frames = r.frames; recent = r.recent; waiting = r.waiting; senders = r.senders; refused = r.refused } };
}

impl RecordingReader {
    /// Reads the header of a classic recording, or the first section header.
    pub fn begin<R: Read>(alloc: Global, reader: &mut Latched<R>) -> Result<Self, PcapFault>
        ensures ok { IfOk result (λ begun. (taken : List ℕ) × Consumes (R.remaining reader.old.0) (prepend_known begun.frames.pieces.ahead (R.remaining reader.new.0)) taken × StandsFor begun taken []) }
        ensures open { IfOk result (λ begun. standing_of begun ≡ Standing.Open) }
        ensures err { IfErr result (λ fault. FailsToBegin (R.remaining reader.old.0) (R.remaining reader.new.0) fault) }
        ensures cut { IfErr result (λ fault. fault.kind ≡ FaultKind.Truncated → IsAtEnd (R.remaining reader.new.0)) }
        ensures read { IfErr result (λ fault. fault.kind ≡ FaultKind.Read → reader.new.1 ≡ true) }
        ensures tally { IfErr result (λ fault. (fault.kind ≡ FaultKind.Read → ⊥) → reader.new.1 ≡ reader.old.1) }
        ensures clean { OnOk result (reader.new.1 ≡ reader.old.1) }
    {
        let Ok(recent) = Recent::new(alloc) else {
            return Err(PcapFault {
                kind: FaultKind::Memory,
                frame: 1,
            });
        };
        match FrameReader::begin(alloc, reader) {
            Ok(frames) => Ok(RecordingReader {
                frames,
                recent,
                waiting: Fragments::new(alloc),
                senders: Senders::new(alloc),
                refused: None,
            }),
            Err(fault) => Err(fault),
        }
    }

    /// Reads the next frame into what the caller holds, in its memory, and what became of it; false, for good, once the
    /// recording has ended without a fault. A fault is answered for good. Where no frame was read, nothing is said of what
    /// the caller holds. Memory is also wanted to hold a packet that is longer
    /// than those before, and for a fragment that comes to those that wait.
    pub fn next_into<R: Read>(
        &mut self,
        alloc: Global,
        reader: &mut Latched<R>,
        event: &mut Event,
    ) -> Result<bool, PcapFault>
        ensures continues { (bytes : List ℕ) (history : List Step) → StandsFor self.old bytes history
            → Continues self.new (prepend_known self.old.frames.pieces.ahead (R.remaining reader.old.0)) (prepend_known self.new.frames.pieces.ahead (R.remaining reader.new.0)) result event.new bytes history }
        ensures standing { standing_of self.new ≡ standing_after result }
        ensures kept { KeepsAnswer (standing_of self.old) result }
        ensures untouched { standing_of self.old ≢ Standing.Open → (self.new ≡ self.old) × (reader.new ≡ reader.old) }
        ensures end { standing_of self.old ≡ Standing.Open → result ≡ Ok false → IsAtEnd (prepend_known self.new.frames.pieces.ahead (R.remaining reader.new.0)) }
        ensures cut { standing_of self.old ≡ Standing.Open → IfErr result (λ fault. fault.kind ≡ FaultKind.Truncated → IsAtEnd (prepend_known self.new.frames.pieces.ahead (R.remaining reader.new.0))) }
        ensures read { standing_of self.old ≡ Standing.Open → IfErr result (λ fault. fault.kind ≡ FaultKind.Read → reader.new.1 ≡ true) }
        ensures tally { IfErr result (λ fault. fault.kind ≢ FaultKind.Read → reader.new.1 ≡ reader.old.1) }
        ensures clean { OnOk result (reader.new.1 ≡ reader.old.1) }
        ensures number { result ≡ Ok true → event.new.frame.number ≡ self.old.frames.count + 1 }
        ensures counts { result ≡ Ok true → self.new.frames.count ≡ self.old.frames.count + 1 }
    {
        if let Some(fault) = self.refused {
            return Err(fault);
        }
        match self.frames.next_into(reader, &mut event.frame) {
            Ok(true) => {}
            Ok(false) => return Ok(false),
            Err(fault) => return Err(fault),
        }
        match take_event(
            alloc,
            &mut self.recent,
            &mut self.waiting,
            &mut self.senders,
            event,
        ) {
            Ok(()) => Ok(true),
            Err(_) => {
                let fault = PcapFault {
                    kind: FaultKind::Memory,
                    frame: event.frame.number(),
                };
                self.refused = Some(fault);
                Err(fault)
            }
        }
    }

    /// How many packets the recorder says it lost, of those that it should have recorded, at all its interfaces: what was read
    /// up to here says so. Statistics mostly stand at the end of a recording, so the number is whole once it has ended. It is
    /// 2^64-1 where there are more, and 0 in a classic recording, which does not count them (draft-ietf-opsawg-pcapng,
    /// sections 4.3.1 and 4.6).
    #[inline]
    pub fn lost(&self) -> u64
        ensures { result ≡ lost_of self.now.frames.pieces.mode }
    {
        self.frames.lost()
    }

    /// Whether the recording may say, here or later on, that packets were lost: one in blocks may, a classic one has no place
    /// for it.
    #[inline]
    pub fn may_lose(&self) -> bool
        ensures { result ≡ may_lose self.now.frames.pieces.mode.layout }
    {
        self.frames.may_lose()
    }

    /// The fragments that still wait: at the end of the recording, or at its fault, those of packets that were never whole.
    pub fn into_waiting(self) -> Fragments
        ensures { result ≡ self.waiting }
    {
        let RecordingReader {
            waiting,
            frames: _,
            recent: _,
            senders: _,
            refused: _,
        } = self;
        waiting
    }
}
