ghost use Rattle.std.specs.Prelude.{◌≡◌, ◌≢◌, ◌+◌, ◌-◌, ◌^◌, ◌<◌, ◌≤◌, ◌⊎◌, ℕ, List, [], length, take, true, false, Ok, IfOk, OnOk, OnErr, Option};
ghost use Rattle.std.specs.Io.KnownBytes.{prepend_known, Consumes, IsAtEnd};
ghost use Rattle.tftp_capture.specs.Lines.{reading_of, unread, BeginsSilent, BeginsWithLine, HoldsLine, HoldsNoLine, LineEnds, ReachesLine, Skipped, StandsSilent, TextEnds};
ghost use Rattle.net_streams.specs.Streams.{most_ahead};
ghost use Rattle.tftp_capture.specs.CaptureText.{longest_line, says_nothing, SaysDatagram};
ghost use Rattle.tftp_capture.specs.Fields.{datagram_of};

use crate::datagram::Datagram;
use crate::fault::TextFault;
use crate::heads::Heads;
use crate::line::{count_before, read_line};
use crate::line_error::LineError;
use crate::version::Version;
use net_streams::streams::{Latched, ReadBuffer};
use std::alloc::{AllocError, Global};
use std::io::Read;
use std::marker::Model;

/// The most bytes of a text.
const LONGEST_TEXT: u64 = 1 << 40;

/// The lines of a text, one after another: at most one line and the bytes read ahead are held. A line is handed out where it
/// lies in what is held; `lies` is how many bytes it has with its LF, and 0 where none was read.
#[derive(Drop)]
pub struct Lines {
    ahead: ReadBuffer,
    lies: usize,
    taken: u64,
    count: u64,
    version: Version,
}

impl Model for Lines {
    ghost use Rattle.std.specs.Prelude.{◌+◌, ◌^◌, ◌≤◌, length, drop};
    ghost use Rattle.tftp_capture.specs.CaptureText.{longest_line};
    ghost use Rattle.tftp_capture.specs.Lines.{line_at, LineState};
    ghost use Rattle.net_streams.specs.Streams.{most_ahead};

    ghost Value = { LineState };

    ghost view = { λ a. record { ahead = drop a.lies a.ahead.bytes; full = a.ahead.full; line = line_at a.lies a.ahead.bytes; taken = a.taken; count = a.count; version = a.version } };

    ghost invariant = { λ a. (a.lies ≤ longest_line a.version + 1) × (a.lies ≤ length a.ahead.bytes) × (length a.ahead.bytes ≤ a.lies + most_ahead) × (a.count ≤ a.taken) × (a.taken ≤ 2 ^ 40) };
}

/// Whether a line is empty or a comment.
#[inline]
fn is_skipped(line: &[u8]) -> bool
    ensures { result ≡ says_nothing line.now }
{
    match line {
        [] => true,
        [first, ..] => *first == b'#',
    }
}

/// Whether a whole line that says something is among the bytes, which begin with a line.
fn holds_line(bytes: &[u8]) -> bool
    ensures found { result ≡ true → HoldsLine bytes.now }
    ensures none { result ≡ false → HoldsNoLine bytes.now }
{
    let mut rest = bytes;
    'lines: loop {
        let count = count_before(rest, b'\n');
        if count == rest.len() {
            return false;
        }
        if !is_skipped(&rest[..count]) {
            return true;
        }
        rest = &rest[count + 1..];
    }
}

/// How many bytes a line with its LF has that says nothing and stands whole at the beginning, or 0.
#[inline]
fn silent_line(bytes: &[u8]) -> usize
    ensures { 0 < result → StandsSilent bytes.now result }
{
    let Some(first) = bytes.first() else {
        return 0;
    };
    if *first == b'\n' {
        return 1;
    }
    if *first != b'#' {
        return 0;
    }
    if bytes.len() > 1 && bytes[1] == b'\n' {
        return 2;
    }
    let size = count_before(bytes, b'\n');
    if size < bytes.len() { size + 1 } else { 0 }
}

/// How many bytes the lines have that say nothing and stand whole at the beginning, and how many lines these are: none of
/// more than `longest` bytes, and `room` bytes in all. A text may have little else, so that a line costs about what a byte
/// of another line does.
fn silent_lines(bytes: &[u8], longest: usize, room: u64) -> (usize, u64)
    ensures begins { BeginsSilent longest bytes.now result.0 result.1 }
    ensures few { result.1 ≤ result.0 }
    ensures short { result.0 ≤ room }
{
    let mut at: usize = 0;
    let mut count: u64 = 0;
    'lines: loop {
        let size = silent_line(&bytes[at..]);
        if size == 0 || longest < size - 1 || room - (at as u64) < size as u64 {
            return (at, count);
        }
        at += size;
        count += 1;
    }
}

impl Lines {
    /// Nothing is read yet, and the first line may be as long as a line of version 1.
    pub fn new(alloc: Global) -> Result<Self, AllocError>
        ensures { IfOk result (λ lines. lines ≡ unread) }
    {
        let ahead = ReadBuffer::new(alloc)?;
        Ok(Lines {
            ahead,
            lies: 0,
            taken: 0,
            count: 0,
            version: Version::One,
        })
    }

    /// The lines that follow are of this version.
    pub fn go_on_in(&mut self, version: Version)
        requires first { self.old.version ≡ Version.One }
        ensures { self.new ≡ record self.old { version = version } }
    {
        self.version = version;
    }

    /// The version of the lines that follow.
    #[inline]
    pub fn version(&self) -> Version
        ensures { result ≡ self.now.version }
    {
        self.version
    }

    /// The line last read, without its LF.
    #[inline]
    pub fn line(&self) -> &[u8]
        ensures value { result.now ≡ self.now.line }
        ensures narrow { length self.now.line ≤ longest_line self.now.version }
    {
        &self.ahead.as_slice()[..self.lies.saturating_sub(1)]
    }

    /// The bytes that are read ahead: those after the line last read.
    #[inline]
    pub fn ahead(&self) -> &[u8]
        ensures { result.now ≡ self.now.ahead }
    {
        &self.ahead.as_slice()[self.lies..]
    }

    /// Takes the next line, which lies in what is read ahead and has `size` bytes before its LF, where it may be so long. Else
    /// it is still to be read.
    pub fn take(&mut self, size: usize) -> bool
        requires line { BeginsWithLine self.old.ahead size }
        ensures reaches { result ≡ true → (known : Option (List ℕ))
            → ReachesLine {T = Unit {0}} (Ok tt) self.old self.new (prepend_known self.old.ahead known) (prepend_known self.new.ahead known) }
        ensures line { result ≡ true → self.new.line ≡ take size self.old.ahead }
        ensures near { length self.new.ahead ≤ most_ahead }
        ensures few { self.new.count ≤ 2 ^ 40 }
        ensures rises { result ≡ true → self.new.count ≡ self.old.count + 1 }
        ensures version { self.new.version ≡ self.old.version }
        ensures others { result ≡ false → self.new ≡ self.old }
    {
        if size > self.version.longest_line() || LONGEST_TEXT - self.taken <= size as u64 {
            return false;
        }
        self.ahead.consume(self.lies);
        self.lies = size + 1;
        self.taken += self.lies as u64;
        self.count += 1;
        true
    }

    /// How many lines were read.
    #[inline]
    pub fn count(&self) -> u64
        ensures value { result ≡ self.now.count }
        ensures few { self.now.count ≤ self.now.taken }
        ensures short { self.now.taken ≤ 2 ^ 40 }
    {
        let _taken = self.taken;
        self.count
    }

    /// Whether the next line that says something may have to be waited for: it is not whole in what is read ahead, and
    /// the last read gave less than is read at once.
    pub fn may_wait(&self) -> bool
        ensures waits { result ≡ true → (self.now.full ≡ false) × HoldsNoLine self.now.ahead }
        ensures ready { result ≡ false → (self.now.full ≡ true) ⊎ HoldsLine self.now.ahead }
    {
        !self.ahead.is_full() && !holds_line(self.ahead())
    }

    /// Reads the next line.
    pub fn next<R: Read>(&mut self, reader: &mut Latched<R>) -> Result<(), LineError>
        ensures ends { (bytes : List ℕ) × Consumes (prepend_known self.old.ahead (R.remaining reader.old.0)) (prepend_known self.new.ahead (R.remaining reader.new.0)) bytes
            × LineEnds result self.new.line (longest_line self.old.version) (2 ^ 40 - self.old.taken) bytes }
        ensures taken { OnOk result (self.new.taken ≡ self.old.taken + length self.new.line + 1) }
        ensures count { OnOk result (self.new.count ≡ self.old.count + 1) }
        ensures same { OnErr result ((self.new.taken ≡ self.old.taken) × (self.new.count ≡ self.old.count)) }
        ensures version { self.new.version ≡ self.old.version }
        ensures short { self.new.taken ≤ 2 ^ 40 }
        ensures short_before { self.old.taken ≤ 2 ^ 40 }
        ensures end { result ≡ Err (LineError.Text TextFault.Truncated) → IsAtEnd (prepend_known self.new.ahead (R.remaining reader.new.0)) }
        ensures read { result ≡ Err LineError.Read → reader.new.1 ≡ true }
        ensures drained { result ≡ Err LineError.Read → self.new.ahead ≡ [] }
        ensures near { length self.new.ahead ≤ most_ahead }
        ensures tally { result ≢ Err LineError.Read → reader.new.1 ≡ reader.old.1 }
    {
        self.ahead.consume(self.lies);
        self.lies = 0;
        let longest = self.version.longest_line();
        let room = LONGEST_TEXT - self.taken;
        self.lies = read_line(&mut self.ahead, reader, longest, room, 0)?;
        self.taken += self.lies as u64;
        self.count += 1;
        Ok(())
    }

    /// Takes the lines that say nothing and lie whole in what is read ahead, up to one that is not so.
    fn pass_silent(&mut self)
        ensures skips { (known : Option (List ℕ)) → Skipped self.old self.new (prepend_known self.old.ahead known) (prepend_known self.new.ahead known) }
    {
        self.ahead.consume(self.lies);
        self.lies = 0;
        let longest = self.version.longest_line();
        let room = LONGEST_TEXT - self.taken;
        let (size, count) = silent_lines(self.ahead.as_slice(), longest, room);
        self.ahead.consume(size);
        self.taken += size as u64;
        self.count += count;
    }

    /// Reads the next line, as `next` does. Where it is like one before it the datagram is filled with what it says, as it
    /// comes, and the answer is true; else nothing is said of the datagram.
    fn next_like<R: Read>(
        &mut self,
        reader: &mut Latched<R>,
        heads: &mut Heads,
        datagram: &mut Datagram,
    ) -> Result<bool, LineError>
        ensures ends { (bytes : List ℕ) × Consumes (prepend_known self.old.ahead (R.remaining reader.old.0)) (prepend_known self.new.ahead (R.remaining reader.new.0)) bytes
            × LineEnds result self.new.line (longest_line self.old.version) (2 ^ 40 - self.old.taken) bytes }
        ensures says { result ≡ Ok true → SaysDatagram self.new.version self.new.line (datagram_of datagram.new) }
        ensures taken { OnOk result (self.new.taken ≡ self.old.taken + length self.new.line + 1) }
        ensures count { OnOk result (self.new.count ≡ self.old.count + 1) }
        ensures same { OnErr result ((self.new.taken ≡ self.old.taken) × (self.new.count ≡ self.old.count)) }
        ensures version { self.new.version ≡ self.old.version }
        ensures short { self.new.taken ≤ 2 ^ 40 }
        ensures short_before { self.old.taken ≤ 2 ^ 40 }
        ensures end { result ≡ Err (LineError.Text TextFault.Truncated) → IsAtEnd (prepend_known self.new.ahead (R.remaining reader.new.0)) }
        ensures read { result ≡ Err LineError.Read → reader.new.1 ≡ true }
        ensures drained { result ≡ Err LineError.Read → self.new.ahead ≡ [] }
        ensures few { self.new.count ≤ 2 ^ 40 }
        ensures near { length self.new.ahead ≤ most_ahead }
        ensures tally { result ≢ Err LineError.Read → reader.new.1 ≡ reader.old.1 }
    {
        self.ahead.consume(self.lies);
        self.lies = 0;
        let longest = self.version.longest_line();
        let room = LONGEST_TEXT - self.taken;
        let most = room.min(longest as u64) as usize;
        let Ok(reached) = heads.reach(self.version, &mut self.ahead, reader, most, datagram) else {
            let held = self.ahead.as_slice().len();
            self.ahead.consume(held);
            return Err(LineError::Read);
        };
        self.lies = read_line(&mut self.ahead, reader, longest, room, reached.seen)?;
        self.taken += self.lies as u64;
        self.count += 1;
        Ok(reached.whole && self.lies == reached.seen + 1)
    }

    /// Reads on to the next line that says something, as `next_said` does. Where it is like one before it the datagram is
    /// filled with what it says, and the answer is true; else nothing is said of the datagram.
    #[inline(never)]
    pub fn next_said_like<R: Read>(
        &mut self,
        reader: &mut Latched<R>,
        heads: &mut Heads,
        datagram: &mut Datagram,
    ) -> Result<bool, LineError>
        ensures reaches { ReachesLine (reading_of result) self.old self.new (prepend_known self.old.ahead (R.remaining reader.old.0)) (prepend_known self.new.ahead (R.remaining reader.new.0)) }
        ensures says { result ≡ Ok true → SaysDatagram self.new.version self.new.line (datagram_of datagram.new) }
        ensures end { result ≡ Err (LineError.Text TextFault.Truncated) → IsAtEnd (prepend_known self.new.ahead (R.remaining reader.new.0)) }
        ensures read { result ≡ Err LineError.Read → reader.new.1 ≡ true }
        ensures drained { result ≡ Err LineError.Read → self.new.ahead ≡ [] }
        ensures few { self.new.count ≤ 2 ^ 40 }
        ensures near { length self.new.ahead ≤ most_ahead }
        ensures tally { result ≢ Err LineError.Read → reader.new.1 ≡ reader.old.1 }
    {
        'lines: loop {
            let like = self.next_like(reader, heads, datagram)?;
            if !is_skipped(self.line()) {
                return Ok(like);
            }
            self.pass_silent();
        }
    }

    /// Reads on to the next line that says something.
    pub fn next_said<R: Read>(&mut self, reader: &mut Latched<R>) -> Result<(), LineError>
        ensures reaches { ReachesLine result self.old self.new (prepend_known self.old.ahead (R.remaining reader.old.0)) (prepend_known self.new.ahead (R.remaining reader.new.0)) }
        ensures end { result ≡ Err (LineError.Text TextFault.Truncated) → IsAtEnd (prepend_known self.new.ahead (R.remaining reader.new.0)) }
        ensures read { result ≡ Err LineError.Read → reader.new.1 ≡ true }
        ensures drained { result ≡ Err LineError.Read → self.new.ahead ≡ [] }
        ensures near { length self.new.ahead ≤ most_ahead }
        ensures tally { result ≢ Err LineError.Read → reader.new.1 ≡ reader.old.1 }
    {
        'lines: loop {
            self.next(reader)?;
            if !is_skipped(self.line()) {
                return Ok(());
            }
            self.pass_silent();
        }
    }

    /// Looks for the text's end after the line last read.
    #[inline(never)]
    pub fn finish<R: Read>(&mut self, reader: &mut Latched<R>) -> Result<(), LineError>
        ensures ends { (bytes : List ℕ) × Consumes (prepend_known self.old.ahead (R.remaining reader.old.0)) (prepend_known self.new.ahead (R.remaining reader.new.0)) bytes
            × TextEnds result self.old.taken bytes }
        ensures same { (self.new.taken ≡ self.old.taken) × (self.new.count ≡ self.old.count) }
        ensures end { OnOk result (IsAtEnd (prepend_known self.new.ahead (R.remaining reader.new.0))) }
        ensures read { result ≡ Err LineError.Read → reader.new.1 ≡ true }
        ensures drained { result ≡ Err LineError.Read → self.new.ahead ≡ [] }
        ensures near { length self.new.ahead ≤ most_ahead }
        ensures tally { result ≢ Err LineError.Read → reader.new.1 ≡ reader.old.1 }
    {
        self.ahead.consume(self.lies);
        self.lies = 0;
        if self.ahead.fill(reader).is_err() {
            return Err(LineError::Read);
        }
        let held = self.ahead.as_slice().len();
        if held == 0 {
            return Ok(());
        }
        self.ahead.consume(held);
        if self.taken == LONGEST_TEXT {
            return Err(LineError::Text(TextFault::TextTooLong));
        }
        Err(LineError::Text(TextFault::TrailingText))
    }
}
