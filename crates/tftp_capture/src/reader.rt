ghost use Rattle.std.specs.Prelude.{◌≡◌, ◌≢◌, ◌+◌, ◌^◌, ◌<◌, ◌≤◌, ◌⊎◌, ℕ, List, [], length, true, false, Ok, IfOk, IfErr, IsErrAnd, OnOk, Option};
ghost use Rattle.std.specs.Io.KnownBytes.{prepend_known, Consumes, IsAtEnd};
ghost use Rattle.tftp_capture.specs.CaptureText.{Header as HeaderParts, Numbered, SaysDatagram};
ghost use Rattle.tftp_capture.specs.Fields.{datagram_of, filled_if, header_of};
ghost use Rattle.tftp_capture.specs.Lines.{HoldsLine, HoldsNoLine, ReachesLine};
ghost use Rattle.net_streams.specs.Streams.{KeepsAnswer, most_ahead, standing_after};
ghost use Rattle.tftp_capture.specs.History.{Answers, Continues, FailsToBegin, GoesOn, HasService, IsAtTextEnd, IsReadFault, IsReadStanding, StandsFor};

use crate::datagram::{Datagram, Header};
use crate::fault::{CaptureFault, TextFault};
use crate::fields::{body_line, end_of, service_of};
use crate::heads::Heads;
use crate::line_error::LineError;
use crate::lines::Lines;
use crate::version::Version;
use net_streams::streams::{Latched, Standing};
use std::alloc::Global;
use std::io::Read;
use std::marker::Model;

/// A reader of a capture text: it holds one line of at most 131,070 bytes, in version 2 of 131,116, at most 65,536 bytes
/// read ahead, and the memory of one payload more than the caller, that of the last one that went the other way.
#[derive(Drop)]
pub struct CaptureReader {
    header: Header,
    lines: Lines,
    heads: Heads,
    count: u64,
    handed: u64,
    standing: Standing<CaptureFault>,
}

impl Model for CaptureReader {
    ghost use Rattle.std.specs.Prelude.{◌≤◌, ◌<◌, ◌^◌};
    ghost use Rattle.tftp_capture.specs.Fields.{header_of};
    ghost use Rattle.tftp_capture.specs.History.{ReaderState};

    ghost Value = { ReaderState };

    ghost view = { λ r. record { header = header_of r.header; lines = r.lines; count = r.count; handed = r.handed; standing = r.standing } };

    ghost invariant = { λ r. (3 ≤ r.handed) × (r.handed ≤ r.lines.count) × (r.count < r.lines.count) × (r.handed ≤ 2 ^ 40) };
}

impl CaptureReader {
    /// Reads the header: the first line, the end line and the service line.
    pub fn begin<R: Read>(alloc: Global, reader: &mut Latched<R>) -> Result<Self, CaptureFault>
        requires clean { reader.old.1 ≡ false }
        ensures ok { IfOk result (λ begun. (taken : List ℕ) × Consumes (R.remaining reader.old.0) (prepend_known begun.lines.ahead (R.remaining reader.new.0)) taken
            × GoesOn begun.header begun.lines begun.count taken []) }
        ensures open { IfOk result (λ begun. begun.standing ≡ Standing.Open) }
        ensures line { IfOk result (λ begun. 3 ≤ begun.handed) }
        ensures service { IfOk result (λ begun. (taken : List ℕ) × Consumes (R.remaining reader.old.0) (prepend_known begun.lines.ahead (R.remaining reader.new.0)) taken
            × HasService taken begun.header begun.handed) }
        ensures err { IfErr result (λ fault. FailsToBegin (R.remaining reader.old.0) (R.remaining reader.new.0) fault) }
        ensures end { IfErr result (λ fault. IsAtTextEnd fault → IsAtEnd (R.remaining reader.new.0)) }
        ensures read { IfErr result (λ fault. IsReadFault fault → reader.new.1 ≡ true) }
        ensures tally { IfErr result (λ fault. (IsReadFault fault → ⊥) → reader.new.1 ≡ false) }
        ensures clean { OnOk result (reader.new.1 ≡ false) }
    {
        let Ok(mut lines) = Lines::new(alloc) else {
            return Err(CaptureFault::Memory(1));
        };
        if let Err(error) = lines.next(reader) {
            return Err(error.at(1));
        }
        let Some(version) = Version::of(lines.line()) else {
            return Err(CaptureFault::Text(1, TextFault::BadHeader));
        };
        lines.go_on_in(version);
        if let Err(error) = lines.next_said(reader) {
            return Err(error.at(lines.count() + 1));
        }
        let Some(named) = end_of(lines.line()) else {
            return Err(CaptureFault::Text(lines.count(), TextFault::BadEnd));
        };
        if let Err(error) = lines.next_said(reader) {
            return Err(error.at(lines.count() + 1));
        }
        let handed = lines.count();
        let Some(service) = service_of(lines.line()) else {
            return Err(CaptureFault::Text(handed, TextFault::BadService));
        };
        Ok(CaptureReader {
            header: Header {
                named,
                service,
                rollover: None,
            },
            lines,
            heads: Heads::new(alloc),
            count: 0,
            handed,
            standing: Standing::Open,
        })
    }

    /// Reads the next datagram into what the caller holds, in the memory of its payload, or of the last one that went the
    /// same way; false, for good, once the text has ended without a fault. A fault is answered for good. Where no datagram
    /// was read, nothing is said of what the caller holds.
    #[inline(always)]
    pub fn next_into<R: Read>(
        &mut self,
        reader: &mut Latched<R>,
        datagram: &mut Datagram,
    ) -> Result<bool, CaptureFault>
        requires told { IsReadStanding self.old.standing → reader.old.1 ≡ true }
        ensures continues { (text : List ℕ) (datagrams : List Numbered) → StandsFor self.old text datagrams
            → Continues self.old self.new (prepend_known self.old.lines.ahead (R.remaining reader.old.0)) (prepend_known self.new.lines.ahead (R.remaining reader.new.0)) (filled_if result datagram.new) text datagrams }
        ensures standing { self.new.standing ≡ standing_after result }
        ensures kept { KeepsAnswer self.old.standing result }
        ensures untouched { self.old.standing ≢ Standing.Open → (self.new ≡ self.old) × (reader.new ≡ reader.old) }
        ensures end { self.old.standing ≡ Standing.Open → result ≡ Ok false → IsAtEnd (prepend_known self.new.lines.ahead (R.remaining reader.new.0)) }
        ensures cut { self.old.standing ≡ Standing.Open → IfErr result (λ fault. IsAtTextEnd fault → IsAtEnd (prepend_known self.new.lines.ahead (R.remaining reader.new.0))) }
        ensures read { IfErr result (λ fault. IsReadFault fault → reader.new.1 ≡ true) }
        ensures tally { IsErrAnd result IsReadFault ⊎ (reader.new.1 ≡ reader.old.1) }
        ensures drained { self.old.standing ≡ Standing.Open → IfErr result (λ fault. IsReadFault fault → self.new.lines.ahead ≡ []) }
        ensures near { self.old.standing ≡ Standing.Open → length self.new.lines.ahead ≤ most_ahead }
        ensures told { IsReadStanding self.new.standing → reader.new.1 ≡ true }
        ensures rises { result ≡ Ok true → self.old.handed < self.new.handed }
        ensures line { self.new.handed ≤ 2 ^ 40 }
        ensures stays { result ≢ Ok true → self.new.handed ≡ self.old.handed }
        ensures fits { result ≡ Ok true → length datagram.new.payload ≤ 65527 }
        ensures header { self.new.header ≡ self.old.header }
    {
        match self.standing {
            Standing::Open => {}
            Standing::Over => return Ok(false),
            Standing::Failed(fault) => return Err(fault),
        }
        match read_on(
            &mut self.lines,
            reader,
            self.count,
            &mut self.heads,
            datagram,
        ) {
            Ok(true) => {
                self.count += 1;
                self.handed = self.lines.count();
                Ok(true)
            }
            Ok(false) => {
                self.standing = Standing::Over;
                Ok(false)
            }
            Err(fault) => {
                self.standing = Standing::Failed(fault);
                Err(fault)
            }
        }
    }

    /// Whether the next datagram may have to be waited for, as from a pipe or a terminal: no whole line that says something
    /// is left of what was read ahead, and the last read gave fewer than 65,536 bytes. A file gives fewer at its end, and of a
    /// long line like one before it, of which no more is asked for than its rest.
    pub fn may_wait(&self) -> bool
        ensures waits { result ≡ true → (self.now.lines.full ≡ false) × HoldsNoLine self.now.lines.ahead }
        ensures ready { result ≡ false → (self.now.lines.full ≡ true) ⊎ HoldsLine self.now.lines.ahead }
    {
        self.lines.may_wait()
    }

    /// The header.
    pub fn header(&self) -> &Header
        ensures { header_of result.now ≡ self.now.header }
    {
        &self.header
    }

    /// The number of the line last handed out, the first being 1; before a datagram that of the
    /// service line.
    pub fn line(&self) -> u64
        ensures value { result ≡ self.now.handed }
        ensures low { 3 ≤ result }
        ensures high { result ≤ 2 ^ 40 }
    {
        self.handed
    }
}

/// Takes the next line where it is like the last one of its way: its head is known, and its LF is not searched for, since no
/// digit is one. Else no line is taken, and nothing is said of the datagram.
#[inline(always)]
fn take_like(lines: &mut Lines, heads: &mut Heads, datagram: &mut Datagram) -> bool
    ensures reaches { result ≡ true → (known : Option (List ℕ))
        → ReachesLine {T = Unit {0}} (Ok tt) lines.old lines.new (prepend_known lines.old.ahead known) (prepend_known lines.new.ahead known) }
    ensures says { result ≡ true → SaysDatagram lines.new.version lines.new.line (datagram_of datagram.new) }
    ensures near { result ≡ true → length lines.new.ahead ≤ most_ahead }
    ensures few { result ≡ true → lines.new.count ≤ 2 ^ 40 }
    ensures rises { result ≡ true → lines.old.count < lines.new.count }
    ensures others { result ≡ false → lines.new ≡ lines.old }
{
    match heads.fill(lines.version(), lines.ahead(), datagram) {
        Some(size) => lines.take(size),
        None => false,
    }
}

/// Reads to the next datagram, or over the total to the text's end, after `count` datagrams.
#[inline(always)]
fn read_on<R: Read>(
    lines: &mut Lines,
    reader: &mut Latched<R>,
    count: u64,
    heads: &mut Heads,
    datagram: &mut Datagram,
) -> Result<bool, CaptureFault>
    ensures answers { (header : HeaderParts) (text : List ℕ) (datagrams : List Numbered) → GoesOn header lines.old count text datagrams
        → Answers (prepend_known lines.old.ahead (R.remaining reader.old.0)) (prepend_known lines.new.ahead (R.remaining reader.new.0)) (filled_if result datagram.new) header lines.new count text datagrams }
    ensures end { result ≡ Ok false → IsAtEnd (prepend_known lines.new.ahead (R.remaining reader.new.0)) }
    ensures cut { IfErr result (λ fault. IsAtTextEnd fault → IsAtEnd (prepend_known lines.new.ahead (R.remaining reader.new.0))) }
    ensures read { IfErr result (λ fault. IsReadFault fault → reader.new.1 ≡ true) }
    ensures drained { IfErr result (λ fault. IsReadFault fault → lines.new.ahead ≡ []) }
    ensures near { length lines.new.ahead ≤ most_ahead }
    ensures tally { IsErrAnd result IsReadFault ⊎ (reader.new.1 ≡ reader.old.1) }
    ensures rises { result ≡ Ok true → lines.old.count < lines.new.count }
    ensures grows { lines.old.count ≤ lines.new.count }
    ensures few { lines.new.count ≤ 2 ^ 40 }
    ensures fits { result ≡ Ok true → length datagram.new.payload ≤ 65527 }
{
    if take_like(lines, heads, datagram) {
        return Ok(true);
    }
    match lines.next_said_like(reader, heads, datagram) {
        Ok(true) => return Ok(true),
        Ok(false) => {}
        Err(error) => {
            let due = lines.count() + 1;
            return Err(error.at(due));
        }
    }
    let line = lines.count();
    match body_line(lines.version(), lines.line(), count, datagram) {
        Ok(true) => {
            heads.note(lines.version(), lines.line(), datagram);
            Ok(true)
        }
        Ok(false) => match lines.finish(reader) {
            Ok(()) => Ok(false),
            Err(error) => Err(error.at(line + 1)),
        },
        Err(error) => Err(error.at(line)),
    }
}
