ghost use Rattle.std.specs.Prelude.{◌≡◌, ◌+◌, ◌*◌, ◌++◌, ◌≤◌, ◌∷◌, [], false, length, flat_map, MatchBool};
ghost use Rattle.hex.specs.Hex.{encode_lower};
ghost use Rattle.net_streams.specs.Streams.Sinks.{Adds, Ends, Writes};

use crate::digits::encode;
use crate::streams::fault::WriteFault;
use crate::streams::latched::Latched;
use crate::streams::whole::write_whole;
use std::alloc::Global;
use std::io::Write;
use std::marker::Model;
use std::simd::prelude::*;

/// The most bytes that wait.
const ROOM: usize = 16384;

/// So many bytes become digits at a time, so that the digits of two such pieces wait together behind what a line begins
/// with.
const PIECE: usize = 4064;

/// How many bytes of what a line begins with are copied at once.
const HALF: usize = 8;

/// A writer of lines, of which at most 16,384 bytes wait to be written together. They stand in memory that is asked for
/// once, and not on the stack, where each move would copy them. No call fails for want of it: what has no memory to wait
/// in is written at once. After a write that fails each call answers a fault, and nothing more is written.
#[derive(Drop)]
pub struct LineWriter<W> {
    inner: Latched<W>,
    /// `ROOM` bytes, or none where there was no memory for them.
    bytes: Vec<u8>,
    /// How many of them wait, from the first on.
    held: usize,
}

impl<W> Model for LineWriter<W> {
    ghost use Rattle.std.specs.Prelude.{take, vec_len, ◌≤◌};
    ghost use Rattle.net_streams.specs.Streams.Sinks.{Sink};

    ghost Value = { Sink W };

    ghost view = { λ w. record { inner = w.inner.0; waits = take w.held w.bytes.items; failed = w.inner.1 } };

    ghost invariant = { λ w. (w.held ≤ vec_len w.bytes) × (vec_len w.bytes ≤ 16384) };
}

impl<W: Write> LineWriter<W> {
    /// Nothing waits yet, and nothing has failed; it asks for the memory of what will wait.
    pub fn new(alloc: Global, inner: W) -> Self
        ensures { result ≡ record { inner = inner; waits = []; failed = false } }
    {
        let bytes = match vec![in alloc; 0; ROOM] {
            Ok(bytes) => bytes,
            Err(_) => Vec::new(alloc),
        };
        LineWriter {
            inner: Latched::new(inner),
            bytes,
            held: 0,
        }
    }

    /// Adds a piece of any length: where there is no room for both, what waits is written first, and then at once a
    /// piece of more than 16,384 bytes.
    #[inline(always)]
    pub fn add(&mut self, bytes: &[u8]) -> Result<(), WriteFault>
        ensures adds { Adds W.contents self.old self.new result bytes.now }
    {
        if self.inner.failed() {
            return Err(WriteFault);
        }
        if self.push(bytes) {
            return Ok(());
        }
        self.add_after(bytes)
    }

    /// Adds a piece after what waits is written.
    fn add_after(&mut self, bytes: &[u8]) -> Result<(), WriteFault>
        requires going { self.old.failed ≡ false }
        ensures adds { Adds W.contents self.old self.new result bytes.now }
    {
        self.flush()?;
        if self.push(bytes) {
            return Ok(());
        }
        self.write(bytes)
    }

    /// Adds pieces, one after another.
    pub fn add_all(&mut self, pieces: &[&[u8]]) -> Result<(), WriteFault>
        ensures adds { Adds W.contents self.old self.new result (flat_map (λ piece. piece.now) pieces.now) }
    {
        if self.inner.failed() {
            return Err(WriteFault);
        }
        for piece in pieces {
            self.add(piece)?;
        }
        Ok(())
    }

    /// Adds the two lower-case hex digits of each byte.
    #[inline(always)]
    pub fn add_hex(&mut self, bytes: &[u8]) -> Result<(), WriteFault>
        ensures adds { Adds W.contents self.old self.new result (encode_lower bytes.now) }
    {
        if self.inner.failed() {
            return Err(WriteFault);
        }
        let mut done = 0;
        while done < bytes.len() {
            let size = (bytes.len() - done).min(PIECE);
            self.add_digits(&bytes[done..done + size])?;
            done += size;
        }
        Ok(())
    }

    /// Adds a line: what it begins with, the two lower-case hex digits of each byte of two parts, and its LF.
    #[inline(always)]
    pub fn add_hex_line(
        &mut self,
        begins: &[u8],
        head: &[u8],
        rest: &[u8],
    ) -> Result<(), WriteFault>
        ensures adds { Adds W.contents self.old self.new result (begins.now ++ (encode_lower head.now ++ (encode_lower rest.now ++ 10 ∷ []))) }
    {
        if self.inner.failed() {
            return Err(WriteFault);
        }
        if self.push_hex_line(begins, head, rest) {
            return Ok(());
        }
        self.add_parts(begins, head, rest)
    }

    /// Adds a line part by part, since there was no room for all of it.
    #[inline(never)]
    fn add_parts(&mut self, begins: &[u8], head: &[u8], rest: &[u8]) -> Result<(), WriteFault>
        ensures adds { Adds W.contents self.old self.new result (begins.now ++ (encode_lower head.now ++ (encode_lower rest.now ++ 10 ∷ []))) }
    {
        self.add(begins)?;
        self.add_hex(head)?;
        self.add_hex(rest)?;
        self.add(b"\n")
    }

    /// Adds the digits of one piece, which are written where they wait; where there is no room for them, what waits is
    /// written first.
    fn add_digits(&mut self, bytes: &[u8]) -> Result<(), WriteFault>
        requires going { self.old.failed ≡ false }
        requires short { length bytes.now ≤ 4064 }
        ensures adds { Adds W.contents self.old self.new result (encode_lower bytes.now) }
    {
        if self.push_digits(bytes) {
            return Ok(());
        }
        self.flush()?;
        if self.push_digits(bytes) {
            return Ok(());
        }
        self.write_digits(bytes)
    }

    /// Writes what waits, and then the digits of a piece, for which there is no memory to wait in.
    #[inline(never)]
    fn write_digits(&mut self, bytes: &[u8]) -> Result<(), WriteFault>
        requires short { length bytes.now ≤ 4064 }
        ensures writes { Writes W.contents self.old self.new result (encode_lower bytes.now) }
    {
        let mut room = [0; 2 * PIECE];
        let digits = &mut room[..2 * bytes.len()];
        encode(bytes, digits);
        self.write(digits)
    }

    /// Writes what waits, and then a slice of any length, which is not copied.
    pub fn write(&mut self, bytes: &[u8]) -> Result<(), WriteFault>
        ensures writes { Writes W.contents self.old self.new result bytes.now }
    {
        if self.inner.failed() {
            return Err(WriteFault);
        }
        write_whole(&mut self.inner, &self.bytes[..self.held])?;
        self.held = 0;
        write_whole(&mut self.inner, bytes)
    }

    /// Writes what waits.
    pub fn flush(&mut self) -> Result<(), WriteFault>
        ensures writes { Writes W.contents self.old self.new result [] }
    {
        self.write(b"")
    }

    /// Writes what waits, and gives the writer inside back, whether or not a write fails.
    pub fn finish(mut self) -> (W, Result<(), WriteFault>)
        ensures ends { Ends W.contents self result.0 result.1 }
    {
        let answer = self.flush();
        let LineWriter {
            inner,
            bytes: _,
            held: _,
        } = self;
        (inner.into_inner(), answer)
    }

    /// Adds a piece where there is room for it; else all stays as it was.
    #[inline]
    fn push(&mut self, bytes: &[u8]) -> bool
        ensures { MatchBool result (self.new ≡ record { inner = self.old.inner; waits = self.old.waits ++ bytes.now; failed = self.old.failed }) (self.new ≡ self.old) }
    {
        let held = self.held;
        if bytes.len() > self.bytes.len() - held {
            return false;
        }
        self.bytes[held..held + bytes.len()].copy_from_slice(bytes);
        self.held += bytes.len();
        true
    }

    /// Adds a line where there is room for all of it; else all stays as it was.
    #[inline(always)]
    fn push_hex_line(&mut self, begins: &[u8], head: &[u8], rest: &[u8]) -> bool
        ensures { MatchBool result (self.new ≡ record { inner = self.old.inner; waits = self.old.waits ++ (begins.now ++ (encode_lower head.now ++ (encode_lower rest.now ++ 10 ∷ []))); failed = self.old.failed }) (self.new ≡ self.old) }
    {
        if begins.len() > ROOM || head.len() > ROOM || rest.len() > ROOM {
            return false;
        }
        let held = self.held;
        let whole = begins.len() + 2 * (head.len() + rest.len()) + 1;
        if whole > self.bytes.len() - held {
            return false;
        }
        spell_line(&mut self.bytes[held..held + whole], begins, head, rest);
        self.held += whole;
        true
    }

    /// Adds the digits of a piece where there is room for them; else all stays as it was.
    #[inline(always)]
    fn push_digits(&mut self, bytes: &[u8]) -> bool
        requires short { length bytes.now ≤ 4064 }
        ensures { MatchBool result (self.new ≡ record { inner = self.old.inner; waits = self.old.waits ++ encode_lower bytes.now; failed = self.old.failed }) (self.new ≡ self.old) }
    {
        let held = self.held;
        let size = 2 * bytes.len();
        if size > self.bytes.len() - held {
            return false;
        }
        encode(bytes, &mut self.bytes[held..held + size]);
        self.held += size;
        true
    }
}

/// Copies what a line begins with: where it has 8 to 16 bytes, as a way and two ports have, by two vectors that may
/// overlap, in a third of the instructions of a call.
#[inline(always)]
fn copy_start(begins: &[u8], start: &mut [u8])
    requires { length start.old ≡ length begins.now }
    ensures { start.new ≡ begins.now }
{
    let len = begins.len();
    if len < HALF || len > 2 * HALF {
        return start.copy_from_slice(begins);
    }
    let first = u8x8::from_slice(begins);
    let last = u8x8::from_slice(&begins[len - HALF..]);
    first.copy_to_slice(start);
    last.copy_to_slice(&mut start[len - HALF..]);
}

/// Writes a line over a slice of its length.
#[inline(always)]
fn spell_line(line: &mut [u8], begins: &[u8], head: &[u8], rest: &[u8])
    requires whole { length line.old ≡ length begins.now + 2 * (length head.now + length rest.now) + 1 }
    ensures { line.new ≡ begins.now ++ (encode_lower head.now ++ (encode_lower rest.now ++ 10 ∷ [])) }
{
    let (start, digits) = line.split_at_mut(begins.len());
    copy_start(begins, start);
    let (front, digits) = digits.split_at_mut(2 * head.len());
    encode(head, front);
    let (back, end) = digits.split_at_mut(2 * rest.len());
    encode(rest, back);
    end[0] = b'\n';
}
