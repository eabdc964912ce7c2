ghost use Rattle.std.specs.Prelude.{◌≡◌, ◌≢◌, ◌+◌, ◌<◌, ◌≤◌, ◌⊎◌, ◌^◌, ◌++◌, ℕ, List, [], length, true, false, Ok, Err, IfOk, IfErr, OnOk};
ghost use Rattle.std.specs.Io.KnownBytes.{prepend_known, Consumes, IsAtEnd};
ghost use Rattle.net_pcap.specs.Frames.{FrameParts};
ghost use Rattle.net_pcap.specs.Pieces.{lost_of, may_lose, start};
ghost use Rattle.net_pcap.specs.History.{Continues, FailsToBegin, RunsOut, StandsFor};
ghost use Rattle.net_streams.specs.Streams.{KeepsAnswer, standing_after};

use crate::fault::{FaultKind, PcapFault};
use crate::frame::Frame;
use crate::layout::Layout;
use crate::step::Pieces;
use net_streams::streams::{Latched, Standing};
use std::alloc::Global;
use std::io::Read;
use std::marker::Model;

/// A reader of a recording's frames, classic or of blocks: it holds at most 65,536 bytes read ahead and the interfaces of a
/// section.
#[derive(Drop)]
pub struct FrameReader {
    pieces: Pieces,
    count: u64,
    standing: Standing<PcapFault>,
}

impl Model for FrameReader {
    ghost use Rattle.std.specs.Prelude.{◌≤◌, ◌^◌};
    ghost use Rattle.net_pcap.specs.History.{ReaderState};

    ghost Value = { ReaderState };

    ghost view = { λ r. record { pieces = r.pieces; count = r.count; standing = r.standing } };

    ghost invariant = { λ r. (r.count ≤ r.pieces.count) × (r.pieces.count ≤ 2 ^ 40) };
}

impl FrameReader {
    /// Reads the header of a classic recording, or the first section header.
    pub fn begin<R: Read>(alloc: Global, reader: &mut Latched<R>) -> Result<Self, PcapFault>
        ensures ok { IfOk result (λ begun. (taken : List ℕ) × Consumes (R.remaining reader.old.0) (prepend_known begun.pieces.ahead (R.remaining reader.new.0)) taken × StandsFor begun taken []) }
        ensures opened { IfOk result (λ begun. begun.pieces.mode.layout ≢ Layout.Unopened) }
        ensures open { IfOk result (λ begun. begun.standing ≡ Standing.Open) }
        ensures err { IfErr result (λ fault. FailsToBegin (R.remaining reader.old.0) (R.remaining reader.new.0) fault) }
        ensures cut { IfErr result (λ fault. fault.kind ≡ FaultKind.Truncated → IsAtEnd (R.remaining reader.new.0)) }
        ensures read { IfErr result (λ fault. fault.kind ≡ FaultKind.Read → reader.new.1 ≡ true) }
        ensures tally { IfErr result (λ fault. (fault.kind ≡ FaultKind.Read → ⊥) → reader.new.1 ≡ reader.old.1) }
        ensures clean { OnOk result (reader.new.1 ≡ reader.old.1) }
    {
        let Ok(mut pieces) = Pieces::new(alloc) else {
            return Err(PcapFault {
                kind: FaultKind::Memory,
                frame: 1,
            });
        };
        let mut piece = Vec::new(alloc);
        match pieces.step(reader, &mut piece) {
            Ok(Some(_)) => Ok(FrameReader {
                pieces,
                count: 0,
                standing: Standing::Open,
            }),
            Ok(None) => Err(PcapFault {
                kind: FaultKind::NotARecording,
                frame: 1,
            }),
            Err(kind) => Err(PcapFault { kind, frame: 1 }),
        }
    }

    /// Reads the next frame into what the caller holds, in its memory; false, for good, once the recording has ended
    /// without a fault. A fault is answered for good. Where no frame was read, nothing is said of what the caller holds.
    pub fn next_into<R: Read>(
        &mut self,
        reader: &mut Latched<R>,
        frame: &mut Frame,
    ) -> Result<bool, PcapFault>
        ensures continues { (bytes : List ℕ) (frames : List FrameParts) → StandsFor self.old bytes frames
            → Continues self.new (prepend_known self.old.pieces.ahead (R.remaining reader.old.0)) (prepend_known self.new.pieces.ahead (R.remaining reader.new.0)) result frame.new.parts bytes frames }
        ensures standing { self.new.standing ≡ standing_after result }
        ensures kept { KeepsAnswer self.old.standing result }
        ensures untouched { self.old.standing ≢ Standing.Open → (self.new ≡ self.old) × (reader.new ≡ reader.old) }
        ensures end { self.old.standing ≡ Standing.Open → result ≡ Ok false → IsAtEnd (prepend_known self.new.pieces.ahead (R.remaining reader.new.0)) }
        ensures cut { self.old.standing ≡ Standing.Open → IfErr result (λ fault. fault.kind ≡ FaultKind.Truncated → IsAtEnd (prepend_known self.new.pieces.ahead (R.remaining reader.new.0))) }
        ensures read { self.old.standing ≡ Standing.Open → IfErr result (λ fault. fault.kind ≡ FaultKind.Read → reader.new.1 ≡ true) }
        ensures tally { IfErr result (λ fault. fault.kind ≢ FaultKind.Read → reader.new.1 ≡ reader.old.1) }
        ensures clean { OnOk result (reader.new.1 ≡ reader.old.1) }
        ensures wants { (bytes : List ℕ) (frames : List FrameParts) → StandsFor self.old bytes frames → self.old.standing ≡ Standing.Open → IfErr result (λ fault. fault.kind ≡ FaultKind.Memory
            → (taken : List ℕ) × Consumes (prepend_known self.old.pieces.ahead (R.remaining reader.old.0)) (prepend_known self.new.pieces.ahead (R.remaining reader.new.0)) taken
            × RunsOut frame.old.room self.old.pieces.room (bytes ++ taken) frames) }
        ensures roomy { frame.old.room ≤ frame.new.room }
        ensures places { self.old.pieces.room ≤ self.new.pieces.room }
        ensures number { result ≡ Ok true → frame.new.number ≡ self.old.count + 1 }
        ensures counts { result ≡ Ok true → self.new.count ≡ self.old.count + 1 }
        ensures stays { result ≢ Ok true → self.new.count ≡ self.old.count }
    {
        match self.standing {
            Standing::Open => {}
            Standing::Over => return Ok(false),
            Standing::Failed(fault) => return Err(fault),
        }
        let number = self.count + 1;
        match frame.fill(&mut self.pieces, reader, number) {
            Ok(true) => {
                self.count = number;
                Ok(true)
            }
            Ok(false) => {
                self.standing = Standing::Over;
                Ok(false)
            }
            Err(kind) => {
                let fault = PcapFault {
                    kind,
                    frame: number,
                };
                self.standing = Standing::Failed(fault);
                Err(fault)
            }
        }
    }

    /// How many packets the recorder says it lost, of those that it should have recorded before the next frame, or before the
    /// end: at each interface the greatest count of its statistics blocks (`isb_ifdrop` and `isb_osdrop`), or the sum of what
    /// its packets' blocks say (`epb_dropcount`), whichever is more; 2^64-1 where they are more. A classic recording counts
    /// none. Statistics mostly stand at the end of a recording: the number is whole once it has ended.
    #[inline]
    pub fn lost(&self) -> u64
        ensures { result ≡ lost_of self.now.pieces.mode }
    {
        self.pieces.lost()
    }

    /// Whether the recording may say, here or later on, that packets were lost: one in blocks may, a classic one has no place
    /// for it.
    #[inline]
    pub fn may_lose(&self) -> bool
        ensures { result ≡ may_lose self.now.pieces.mode.layout }
    {
        self.pieces.may_lose()
    }

    /// How many frames were read.
    #[inline]
    pub fn count(&self) -> u64
        ensures { result ≡ self.now.count }
    {
        self.count
    }
}
