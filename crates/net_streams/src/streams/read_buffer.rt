ghost use Rattle.std.specs.Prelude.{◌≡◌, ◌≢◌, ◌<◌, ◌≤◌, ◌==◌, ◌+◌, ◌-◌, ◌++◌, ℕ, List, [], length, take, drop, true, false, IfOk, OnOk, OnErr};
ghost use Rattle.std.specs.Io.KnownBytes.{prepend_known, Consumes, Keeps, IsAtEnd};
ghost use Rattle.net_streams.specs.Streams.Buffers.{most_ahead, most_of_line};

use crate::streams::latched::Latched;
use std::alloc::{AllocError, Global};
use std::io;
use std::io::Read;
use std::marker::Model;

/// How many bytes are read at once.
const AT_ONCE: usize = 65_536;

/// How many bytes there is room for: the longest line, of 131,116, and those of one read behind it.
const ROOM: usize = 196_652;

/// Bytes of a text or a recording that were read and not yet let go, and whether the last read gave 65,536 bytes. A file
/// does so, where as many are asked for, but at its end; a pipe or a terminal gives what there is. They stand in memory that
/// is asked for once, and not on the stack, where each move would copy them; before a read they are moved to its front, or
/// stay where there is room behind them.
#[derive(Drop)]
pub struct ReadBuffer {
    buf: Vec<u8>,
    start: usize,
    end: usize,
    full: bool,
}

impl Model for ReadBuffer {
    ghost use Rattle.std.specs.Prelude.{take, drop, vec_len, ◌≡◌, ◌≤◌};
    ghost use Rattle.net_streams.specs.Streams.Buffers.{BufferState};

    ghost Value = { BufferState };

    ghost view = { λ s. record { bytes = drop s.start (take s.end s.buf.items); full = s.full } };

    ghost invariant = { λ s. (s.start ≤ s.end) × (s.end ≤ 196652) × (vec_len s.buf ≡ 196652) };
}

impl ReadBuffer {
    /// Nothing was read yet; it takes the memory for what will be, once for all reads.
    pub fn new(alloc: Global) -> Result<Self, AllocError>
        ensures { IfOk result (λ buffer. buffer ≡ record { bytes = []; full = false }) }
    {
        let buf = vec![in alloc; 0; ROOM]?;
        Ok(ReadBuffer {
            buf,
            start: 0,
            end: 0,
            full: false,
        })
    }

    /// The bytes that are held.
    #[inline]
    pub fn as_slice(&self) -> &[u8]
        ensures { result.now ≡ self.now.bytes }
    {
        &self.buf[self.start..self.end]
    }

    /// Whether the last read gave 65,536 bytes.
    #[inline]
    pub fn is_full(&self) -> bool
        ensures { result ≡ self.now.full }
    {
        self.full
    }

    /// Lets the first `count` bytes go.
    #[inline]
    pub fn consume(&mut self, count: usize)
        requires { count ≤ length self.old.bytes }
        ensures value { self.new.bytes ≡ drop count self.old.bytes }
        ensures full { self.new.full ≡ self.old.full }
    {
        self.start += count;
    }

    /// Reads once, at most 65,536 bytes, behind what is held, which is moved to the front of its memory. Nothing has come
    /// only at the reader's end.
    pub fn read_on<R: Read>(&mut self, reader: &mut Latched<R>) -> io::Result<()>
        requires room { length self.old.bytes ≤ most_of_line }
        ensures more { (more : List ℕ) × (self.new.bytes ≡ self.old.bytes ++ more) × (length more ≤ most_ahead) }
        ensures full { OnOk result (self.new.full ≡ (length self.new.bytes - length self.old.bytes == most_ahead)) }
        ensures kept { Keeps (prepend_known self.old.bytes (R.remaining reader.old.0)) (prepend_known self.new.bytes (R.remaining reader.new.0)) }
        ensures end { IfOk result (λ _. length self.new.bytes ≡ length self.old.bytes → IsAtEnd (R.remaining reader.new.0)) }
        ensures ok { OnOk result (reader.new.1 ≡ reader.old.1) }
        ensures err { OnErr result (reader.new.1 ≡ true) }
        ensures none { OnErr result (self.new ≡ self.old) }
    {
        move_to_front(&mut self.buf, self.start, self.end);
        self.end -= self.start;
        self.start = 0;
        self.read_once(reader, AT_ONCE)
    }

    /// Reads once, as `read_on` does; where more bytes are wanted in all than are read at once, no further than until they are
    /// held. So what follows a long line whose length is known is left to the next read, and is never moved.
    pub fn read_to<R: Read>(&mut self, reader: &mut Latched<R>, size: usize) -> io::Result<()>
        requires room { length self.old.bytes ≤ most_of_line }
        requires some { length self.old.bytes < size }
        ensures more { (more : List ℕ) × (self.new.bytes ≡ self.old.bytes ++ more) × (length more ≤ most_ahead) }
        ensures fits { most_ahead < size → length self.new.bytes ≤ size }
        ensures full { OnOk result (self.new.full ≡ (length self.new.bytes - length self.old.bytes == most_ahead)) }
        ensures kept { Keeps (prepend_known self.old.bytes (R.remaining reader.old.0)) (prepend_known self.new.bytes (R.remaining reader.new.0)) }
        ensures end { IfOk result (λ _. length self.new.bytes ≡ length self.old.bytes → IsAtEnd (R.remaining reader.new.0)) }
        ensures ok { OnOk result (reader.new.1 ≡ reader.old.1) }
        ensures err { OnErr result (reader.new.1 ≡ true) }
        ensures none { OnErr result (self.new ≡ self.old) }
    {
        if size <= AT_ONCE {
            return self.read_on(reader);
        }
        let held = self.end - self.start;
        self.read_once(reader, AT_ONCE.min(size - held))
    }

    /// Reads once, at most so many bytes as are wanted, behind what is held, which is moved to the front where there is no
    /// room behind it.
    fn read_once<R: Read>(&mut self, reader: &mut Latched<R>, wanted: usize) -> io::Result<()>
        requires room { length self.old.bytes ≤ most_of_line }
        requires some { 1 ≤ wanted }
        requires few { wanted ≤ most_ahead }
        ensures more { (more : List ℕ) × (self.new.bytes ≡ self.old.bytes ++ more) × (length more ≤ wanted) }
        ensures full { OnOk result (self.new.full ≡ (length self.new.bytes - length self.old.bytes == most_ahead)) }
        ensures kept { Keeps (prepend_known self.old.bytes (R.remaining reader.old.0)) (prepend_known self.new.bytes (R.remaining reader.new.0)) }
        ensures end { IfOk result (λ _. length self.new.bytes ≡ length self.old.bytes → IsAtEnd (R.remaining reader.new.0)) }
        ensures ok { OnOk result (reader.new.1 ≡ reader.old.1) }
        ensures err { OnErr result (reader.new.1 ≡ true) }
        ensures none { OnErr result (self.new ≡ self.old) }
    {
        if ROOM - self.end < wanted {
            move_to_front(&mut self.buf, self.start, self.end);
            self.end -= self.start;
            self.start = 0;
        }
        let count = read_behind(reader, &mut self.buf, self.end, wanted)?;
        self.end += count;
        self.full = count == AT_ONCE;
        Ok(())
    }

    /// Reads once where nothing is held; then nothing is held only at the reader's end.
    pub fn fill<R: Read>(&mut self, reader: &mut Latched<R>) -> io::Result<()>
        ensures few { self.old.bytes ≡ [] → length self.new.bytes ≤ most_ahead }
        ensures held { self.old.bytes ≢ [] → self.new ≡ self.old }
        ensures full { self.old.bytes ≡ [] → OnOk result (self.new.full ≡ (length self.new.bytes == most_ahead)) }
        ensures kept { Keeps (prepend_known self.old.bytes (R.remaining reader.old.0)) (prepend_known self.new.bytes (R.remaining reader.new.0)) }
        ensures end { IfOk result (λ _. length self.new.bytes ≡ 0 → IsAtEnd (prepend_known self.new.bytes (R.remaining reader.new.0))) }
        ensures ok { OnOk result (reader.new.1 ≡ reader.old.1) }
        ensures err { OnErr result (reader.new.1 ≡ true) }
        ensures drained { OnErr result (self.new.bytes ≡ []) }
        ensures none { OnErr result (self.new ≡ self.old) }
    {
        if !self.as_slice().is_empty() {
            return Ok(());
        }
        self.read_on(reader)
    }
}

/// Moves the bytes from `start` to `end` to the front, if they are not there.
fn move_to_front(buf: &mut [u8], start: usize, end: usize)
    requires order { start ≤ end }
    requires within { end ≤ length buf.old }
    ensures moved { take (end - start) buf.new ≡ drop start (take end buf.old) }
    ensures len { length buf.new ≡ length buf.old }
{
    if start > 0 {
        buf.copy_within(start..end, 0);
    }
}

/// Reads once behind the first `end` bytes, at most so many as are wanted. Answers how many have come.
fn read_behind<R: Read>(
    reader: &mut Latched<R>,
    buf: &mut [u8],
    end: usize,
    wanted: usize,
) -> io::Result<usize>
    requires room { end + wanted ≤ length buf.old }
    requires some { 1 ≤ wanted }
    ensures len { length buf.new ≡ length buf.old }
    ensures front { take end buf.new ≡ take end buf.old }
    ensures more { IfOk result (λ count. (more : List ℕ) × (take (end + count) buf.new ≡ take end buf.old ++ more)
        × (length more ≡ count) × (count ≤ wanted) × Consumes (R.remaining reader.old.0) (R.remaining reader.new.0) more
        × (count ≡ 0 → IsAtEnd (R.remaining reader.new.0))) }
    ensures kept { OnErr result (Keeps (R.remaining reader.old.0) (R.remaining reader.new.0)) }
    ensures ok { OnOk result (reader.new.1 ≡ reader.old.1) }
    ensures err { OnErr result (reader.new.1 ≡ true) }
{
    let count = reader.read(&mut buf[end..end + wanted])?;
    Ok(count)
}
