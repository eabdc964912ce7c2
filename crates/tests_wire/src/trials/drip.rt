ghost use Rattle.std.specs.Prelude.{◌≡◌, ◌≢◌, ◌<◌, ◌⊎◌, ◌++◌, ℕ, [], Some, length, min, take, Ok, IfOk, IsErr, IsOk, IsOkAnd};
ghost use Rattle.std.specs.Io.{ReadsAtMost, WritesAtMost};
ghost use Rattle.std.specs.Io.KnownBytes.{Keeps, ReadConsumes, WriteAppends};
ghost use Rattle.tests_wire.specs.Drips.{after_read, after_write, drip_remaining, takes_at_once, GivesPiece, Refuses};

use std::alloc::{AllocError, Global};
use std::io;
use std::io::{ErrorKind, Read, Write};
use std::marker::Model;

/// A reader over bytes for tests.
#[derive(Drop)]
pub struct DripReader<'a> {
    bytes: &'a [u8],
    piece: usize,
    fails_at: u64,
    then: Option<u8>,
    reads: u64,
}

impl<'a> Model for DripReader<'a> {
    ghost use Rattle.tests_wire.specs.Drips.{DripReaderState};

    ghost Value = { DripReaderState };

    ghost view = { λ d. record { bytes = d.bytes.now; piece = d.piece; fails_at = d.fails_at; afterwards = d.then; reads = d.reads } };
}

impl<'a> DripReader<'a> {
    /// Gives at most `piece` bytes a read, an error at read `fails_at` (counted from 1, 0 for never),
    /// and after the bytes the byte `then` for ever, if there is one.
    pub fn new(bytes: &'a [u8], piece: usize, fails_at: u64, then: Option<u8>) -> Self
        ensures { result ≡ record { bytes = bytes.now; piece = piece; fails_at = fails_at; afterwards = then; reads = 0 } }
    {
        DripReader {
            bytes,
            piece,
            fails_at,
            then,
            reads: 0,
        }
    }

    /// How many bytes are left.
    pub fn left(&self) -> usize
        ensures { result ≡ length self.now.bytes }
    {
        self.bytes.len()
    }
}

impl Read for DripReader<'_> {
    ghost remaining = { drip_remaining };

    fn read(&mut self, buf: &mut [u8]) -> io::Result<usize>
        ensures bound { ReadsAtMost result buf.new }
        ensures bytes { ReadConsumes (drip_remaining self.old) (drip_remaining self.new) result buf.new }
        ensures counted { self.new ≡ after_read self.old self.new.bytes }
        ensures fails { self.new.reads ≡ self.old.fails_at → IsErr result × (self.new.bytes ≡ self.old.bytes) }
        ensures gives { self.new.reads ≢ self.old.fails_at → IsOkAnd result (λ n. GivesPiece self.old.afterwards (min self.old.piece (length buf.old)) self.old.bytes self.new.bytes n (take n buf.new)) }
    {
        self.reads = self.reads.saturating_add(1);
        if self.reads == self.fails_at {
            return Err(io::Error::from(ErrorKind::Other));
        }
        let room = self.piece.min(buf.len());
        if self.bytes.is_empty() {
            return Ok(match self.then {
                None => 0,
                Some(byte) => {
                    buf[..room].fill(byte);
                    room
                }
            });
        }
        let n = self.bytes.len().min(room);
        let (now, later) = self.bytes.split_at(n);
        buf[..n].copy_from_slice(now);
        self.bytes = later;
        Ok(n)
    }
}

/// A writer into memory for tests.
#[derive(Drop)]
pub struct DripWriter {
    taken: Vec<u8>,
    room: usize,
    piece: usize,
    fails_at: u64,
    none: bool,
    writes: u64,
}

impl Model for DripWriter {
    ghost use Rattle.std.specs.Prelude.{◌≤◌, vec_len, vec_capacity};
    ghost use Rattle.tests_wire.specs.Drips.{DripWriterState};

    ghost Value = { DripWriterState };

    ghost view = { λ d. record { taken = d.taken.items; room = d.room; piece = d.piece; fails_at = d.fails_at; none = d.none; writes = d.writes } };

    ghost invariant = { λ d. (vec_len d.taken ≤ d.room) × (d.room ≤ vec_capacity d.taken) };
}

impl DripWriter {
    /// Takes its room at once, and at most `piece` bytes a write; at write `fails_at` (counted from 1,
    /// 0 for never), and where the room is used up, it answers an error, or takes no byte if `none`.
    pub fn new(
        alloc: Global,
        room: usize,
        piece: usize,
        fails_at: u64,
        none: bool,
    ) -> Result<Self, AllocError>
        ensures made { IfOk result (λ d. d ≡ record { taken = []; room = room; piece = piece; fails_at = fails_at; none = none; writes = 0 }) }
        ensures succeeds { room ≡ 0 → IsOk result }
    {
        Ok(DripWriter {
            taken: Vec::with_capacity(alloc, room)?,
            room,
            piece,
            fails_at,
            none,
            writes: 0,
        })
    }

    /// What it took so far.
    pub fn taken(&self) -> &[u8]
        ensures { result.now ≡ self.now.taken }
    {
        self.taken.as_slice()
    }

    fn refusal(&self) -> io::Result<usize>
        ensures refuses { Refuses self.now.none result }
        ensures none { IfOk result (λ n. n ≡ 0) }
    {
        if self.none {
            Ok(0)
        } else {
            Err(io::Error::from(ErrorKind::Other))
        }
    }
}

impl Write for DripWriter {
    ghost contents = { λ d. Some d.taken };

    fn write(&mut self, buf: &[u8]) -> io::Result<usize>
        ensures bound { WritesAtMost result buf.now }
        ensures bytes { WriteAppends (Some self.old.taken) (Some self.new.taken) result buf.now }
        ensures counted { self.new ≡ after_write self.old self.new.taken }
        ensures refuses { (self.new.writes ≡ self.old.fails_at) ⊎ ((takes_at_once self.old (length buf.now) ≡ 0) × (buf.now ≢ [])) → Refuses self.old.none result }
        ensures takes { self.new.writes ≢ self.old.fails_at → (0 < takes_at_once self.old (length buf.now)) ⊎ (buf.now ≡ []) → result ≡ Ok (takes_at_once self.old (length buf.now)) }
    {
        self.writes = self.writes.saturating_add(1);
        if self.writes == self.fails_at {
            return self.refusal();
        }
        let left = self.room.saturating_sub(self.taken.len());
        let n = buf.len().min(self.piece).min(left);
        if n == 0 && !buf.is_empty() || self.taken.extend_from_slice(&buf[..n]).is_err() {
            return self.refusal();
        }
        Ok(n)
    }

    fn flush(&mut self) -> io::Result<()>
        ensures bytes { Keeps (Some self.old.taken) (Some self.new.taken) }
        ensures same { self.new ≡ self.old }
        ensures ok { IsOk result }
    {
        Ok(())
    }
}
