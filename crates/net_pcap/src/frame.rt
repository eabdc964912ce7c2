ghost use Rattle.std.specs.Prelude.{◌≡◌, ◌≢◌, ◌+◌, ◌<◌, ◌≤◌, ◌⊎◌, ◌^◌, ◌++◌, ℕ, List, [], true, false, None, Ok, Err};
ghost use Rattle.std.specs.Io.KnownBytes.{prepend_known, Consumes, IsAtEnd};
ghost use Rattle.net_pcap.specs.Frames.{FrameParts, no_frame};
ghost use Rattle.net_pcap.specs.History.{FillTells, RunsOut};
ghost use Rattle.net_pcap.specs.Pieces.{Stands};

use crate::fault::FaultKind;
use crate::next::next_place;
use crate::place::Place;
use crate::step::Pieces;
use net_streams::streams::Latched;
use std::alloc::Global;
use std::io::Read;
use std::marker::Model;

/// Which way a frame went, where the recording says so.
#[derive(Clone, Copy, Debug, PartialEq, Eq)]
pub enum Direction {
    /// The recording does not say.
    Unknown,
    /// To the host that recorded it.
    In,
    /// From the host that recorded it.
    Out,
}

/// A frame of a recording, in the bytes of the record or the block that it was read from: at most 16,777,216.
#[derive(Debug, Drop)]
pub struct Frame {
    number: u64,
    place: Place,
    piece: Vec<u8>,
}

impl Model for Frame {
    ghost use Rattle.std.specs.Prelude.{◌≤◌, vec_len, vec_capacity};
    ghost use Rattle.net_pcap.specs.Frames.{FrameState, frame_at};

    ghost Value = { FrameState };

    ghost view = { λ f. record { number = f.number; parts = frame_at f.place f.piece.items; room = vec_capacity f.piece } };

    ghost invariant = { λ f. (f.place.start ≤ f.place.end) × (f.place.end ≤ vec_len f.piece) };
}

impl Frame {
    /// No frame yet, to be filled by a reader; it takes no memory.
    pub fn empty(alloc: Global) -> Self
        ensures number { result.number ≡ 0 }
        ensures parts { result.parts ≡ no_frame }
    {
        Frame {
            number: 0,
            place: Place {
                section: 0,
                interface: 0,
                link: 0,
                time: None,
                direction: Direction::Unknown,
                damaged: false,
                missed: 0,
                original: 0,
                start: 0,
                end: 0,
            },
            piece: Vec::new(alloc),
        }
    }

    /// Fills it with the next frame, which gets that number; false where the recording ends before one.
    pub fn fill<R: Read>(
        &mut self,
        pieces: &mut Pieces,
        reader: &mut Latched<R>,
        number: u64,
    ) -> Result<bool, FaultKind>
        ensures tells { (bytes : List ℕ) (frames : List FrameParts) → Stands bytes pieces.old.mode pieces.old.count frames
            → (taken : List ℕ) × Consumes (prepend_known pieces.old.ahead (R.remaining reader.old.0)) (prepend_known pieces.new.ahead (R.remaining reader.new.0)) taken
            × FillTells result pieces.new self.new.parts (bytes ++ taken) frames }
        ensures wants { (bytes : List ℕ) (frames : List FrameParts) → Stands bytes pieces.old.mode pieces.old.count frames → result ≡ Err FaultKind.Memory
            → (taken : List ℕ) × Consumes (prepend_known pieces.old.ahead (R.remaining reader.old.0)) (prepend_known pieces.new.ahead (R.remaining reader.new.0)) taken
            × RunsOut self.old.room pieces.old.room (bytes ++ taken) frames }
        ensures number { result ≡ Ok true → self.new.number ≡ number }
        ensures end { (result ≡ Ok false) ⊎ (result ≡ Err FaultKind.Truncated) → IsAtEnd (prepend_known pieces.new.ahead (R.remaining reader.new.0)) }
        ensures read { result ≡ Err FaultKind.Read → reader.new.1 ≡ true }
        ensures drained { result ≡ Err FaultKind.Read → pieces.new.ahead ≡ [] }
        ensures tally { result ≢ Err FaultKind.Read → reader.new.1 ≡ reader.old.1 }
        ensures grows { result ≡ Ok true → pieces.old.count < pieces.new.count }
        ensures stays { pieces.old.count ≤ pieces.new.count }
        ensures few { pieces.new.count ≤ 2 ^ 40 }
        ensures roomy { self.old.room ≤ self.new.room }
        ensures places { pieces.old.room ≤ pieces.new.room }
    {
        self.place.start = 0;
        self.place.end = 0;
        match next_place(pieces, reader, &mut self.piece) {
            Ok(Some(place)) => {
                self.number = number;
                self.place = place;
                Ok(true)
            }
            Ok(None) => Ok(false),
            Err(kind) => Err(kind),
        }
    }

    /// Its number in the recording, the first being 1.
    #[inline]
    pub fn number(&self) -> u64
        ensures { result ≡ self.now.number }
    {
        self.number
    }

    /// The section of the recording in which it stands, the first being 1; 0 in a classic recording, which has none.
    #[inline]
    pub fn section(&self) -> u64
        ensures { result ≡ self.now.parts.section }
    {
        self.place.section
    }

    /// The number of the interface in its section at which it was recorded, the first being 0; 0 in a classic recording, which
    /// numbers none.
    #[inline]
    pub fn interface(&self) -> u64
        ensures { result ≡ self.now.parts.interface }
    {
        self.place.interface
    }

    /// What its bytes are: the link type (tcpdump.org/linktypes.html).
    #[inline]
    pub fn link(&self) -> u32
        ensures { result ≡ self.now.parts.link }
    {
        self.place.link
    }

    /// When it was recorded, in nanoseconds since 1970; none where the recording does not say, or where 64 bits can't
    /// count them.
    #[inline]
    pub fn time(&self) -> Option<u64>
        ensures { result ≡ self.now.parts.time }
    {
        self.place.time
    }

    /// Which way it went.
    #[inline]
    pub fn direction(&self) -> Direction
        ensures { result ≡ self.now.parts.direction }
    {
        self.place.direction
    }

    /// Whether it was received with an error of the link, as a wrong checksum of Ethernet: a host discards it
    /// (draft-ietf-opsawg-pcapng, section 4.3.1).
    #[inline]
    pub fn is_damaged(&self) -> bool
        ensures { result ≡ self.now.parts.damaged }
    {
        self.place.damaged
    }

    /// How many bytes it had, of which the recording may have fewer.
    #[inline]
    pub fn original(&self) -> u32
        ensures { result ≡ self.now.parts.original }
    {
        self.place.original
    }

    /// Its bytes, as many as the recording has.
    #[inline]
    pub fn bytes(&self) -> &[u8]
        ensures { result.now ≡ self.now.parts.bytes }
    {
        &self.piece[self.place.start..self.place.end]
    }
}
