//! The file of a whole transfer.

ghost use Rattle.std.specs.Prelude.{◌≡◌, ◌/◌, ◌+◌, ◌≤◌, ℕ, List, length, MatchOption, IfOk, OnErr};
ghost use Rattle.tftp_ends.specs.Blocks.{IsHeldFront, IsJoin};
ghost use Rattle.law_end.specs.{ReadsAs, written_wire};

use std::alloc::{AllocError, Global};
use std::marker::Model;
use tftp_ends::blocks::Delivered;
use tftp_netascii::{Lengths, decode_in_place, file_lengths};
use tftp_packet::Mode;

/// The bytes of a file, or of the wire that carries it.
#[derive(Debug, Drop)]
pub enum FileBytes {
    /// Those of the file.
    File(Vec<u8>),
    /// Those of the one wire that is written for the file, as they came.
    Wire(Vec<u8>),
}

/// A file that is kept as the wire that came with it, and its lengths. Contracts see the mode and the file.
#[derive(Debug, Drop)]
pub struct CarriedFile {
    mode: Mode,
    wire: Vec<u8>,
    lengths: Lengths,
}

impl Model for CarriedFile {
    ghost use Rattle.std.specs.Prelude.{◌≡◌, ℕ, List, length};
    ghost use Rattle.tftp_packet.specs.declared.kinds.Mode.{Mode};
    ghost use Rattle.law_end.specs.Fitting.{carried_file, written_wire};

    ghost Value = { Mode × List ℕ };

    ghost view = { λ f. (f.mode, carried_file f.mode f.wire.items) };

    ghost invariant = { λ f. (f.lengths.file ≡ length (carried_file f.mode f.wire.items))
        × (f.lengths.encoded ≡ length (written_wire f.mode (carried_file f.mode f.wire.items))) };
}

impl CarriedFile {
    ghost use Rattle.std.specs.Prelude.{◌≡◌, length};
    ghost use Rattle.law_end.specs.Fitting.{ReadsAs, written_wire};
    ghost use Rattle.tftp_judge.specs.Contents.{file_in, IsCanonical};

    /// The file that a wire reads as (RFC 1350, section 1). It is counted, and takes no memory.
    pub fn of(mode: Mode, wire: Vec<u8>) -> Self
        ensures mode { result.0 ≡ mode }
        ensures file { ReadsAs mode wire.items result.1 }
    {
        let size = wire.len() as u64;
        let lengths = match mode {
            Mode::Octet => Lengths {
                file: size,
                encoded: size,
            },
            Mode::Netascii => file_lengths(wire.as_slice()),
        };
        CarriedFile {
            mode,
            wire,
            lengths,
        }
    }

    /// How many bytes the file has.
    #[inline]
    pub fn len(&self) -> u64
        ensures { result ≡ length self.now.1 }
    {
        self.lengths.file
    }

    /// How many bytes the one wire has that is written for the file.
    #[inline]
    pub fn written_len(&self) -> u64
        ensures { result ≡ length (written_wire self.now.0 self.now.1) }
    {
        self.lengths.encoded
    }

    /// The bytes of the file. In netascii they are read where those of the wire stand, so that no memory is taken.
    pub fn into_bytes(self) -> Vec<u8>
        ensures { result.items ≡ self.1 }
    {
        let CarriedFile { mode, mut wire, .. } = self;
        match mode {
            Mode::Octet => {}
            Mode::Netascii => decode_in_place(&mut wire),
        }
        wire
    }

    /// The wire that came, where it is the one that is written for the file, as it always is in octet mode; else the bytes of
    /// the file, as `into_bytes` reads them. So what is written for the file is made anew only where that is another wire.
    pub fn into_file_bytes(self) -> FileBytes
        ensures file { file_in self.0 result ≡ self.1 }
        ensures canonical { IsCanonical self.0 result }
    {
        if self.lengths.encoded != self.wire.len() as u64 {
            return FileBytes::File(self.into_bytes());
        }
        let CarriedFile { wire, .. } = self;
        FileBytes::Wire(wire)
    }
}

/// The file that the blocks up to the front carry (RFC 1350, section 1). Memory is taken for the join alone.
pub fn file_of<D: Delivered + Drop>(
    alloc: Global,
    mode: Mode,
    store: D,
) -> Result<CarriedFile, AllocError>
    ensures mode { IfOk result (λ file. file.0 ≡ mode) }
    ensures file { IfOk result (λ file. (front : ℕ) → IsHeldFront (D.held store) front
        → (wire : List ℕ) × IsJoin (D.held store) front wire × ReadsAs mode wire file.1) }
    ensures memory { OnErr result (D.join_takes (D.held store)) }
{
    Ok(CarriedFile::of(mode, store.into_wire(alloc)?))
}

/// The number of blocks of the one wire that is written for a file; none where it is above the greatest (RFC 1350, section 5).
pub fn written_blocks(blksize: u16, greatest: u32, file: &CarriedFile) -> Option<u32>
    requires sized { 1 ≤ blksize }
    ensures { MatchOption result (length (written_wire file.now.0 file.now.1) / blksize + 1 ≤ greatest → ⊥)
        (λ blocks. (blocks ≡ length (written_wire file.now.0 file.now.1) / blksize + 1)
        × (length (written_wire file.now.0 file.now.1) / blksize + 1 ≤ greatest)) }
{
    let full = file.written_len() / u64::from(blksize);
    if full < u64::from(greatest) {
        Some(full as u32 + 1)
    } else {
        None
    }
}
