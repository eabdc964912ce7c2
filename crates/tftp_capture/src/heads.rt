//! What the lines of datagrams begin with: most often what the line before them that went the same way began with, and most
//! often they are as long as that line.

ghost use Rattle.std.specs.Prelude.{◌≡◌, ◌+◌, ◌*◌, ◌≤◌, ℕ, List, length, take, true, false, IfOk, IfSome, OnErr, OnOk};
ghost use Rattle.std.specs.Io.KnownBytes.{prepend_known, Keeps};
ghost use Rattle.tftp_capture.specs.CaptureText.{SaysDatagram, SpellsPayload};
ghost use Rattle.tftp_capture.specs.Fields.{datagram_of};
ghost use Rattle.tftp_capture.specs.Heads.{BeginsWithDatagram, BeginsWithHead, GoesOnAfter, IsDecoded, SpellsBehind};
ghost use Rattle.tftp_capture.specs.Lines.{HasNoEnd, HoldsPart, IsPartOfLine};
ghost use Rattle.net_streams.specs.Streams.{most_ahead, most_of_line};

use crate::datagram::Datagram;
use crate::fields::{LONGEST_PAYLOAD, fill_payload};
use crate::version::Version;
use net_streams::digits::decode_on;
use net_streams::streams::{Latched, ReadBuffer};
use std::alloc::Global;
use std::io::Read;
use std::marker::Model;
use std::simd::prelude::*;
use std::{io, mem};
use tftp_packet::hosts::{Dir, Host};

/// The most bytes of a head that is kept: `out`, a port of five digits, a host of 45 bytes, a port and four spaces.
pub const LONGEST_HEAD: usize = 62;

/// How many bytes a vector has that a head is compared in. Most heads have fewer.
const LANES: usize = 32;

/// How far the next line is known.
#[derive(Clone, Copy)]
pub struct Reached {
    /// Of so many bytes that are held, from the first on, none is an LF.
    pub seen: usize,
    /// Whether these are a line that is like the one before, where an LF follows.
    pub whole: bool,
}

impl Reached {
    /// Nothing is known but `seen` bytes without an LF.
    fn upto(seen: usize) -> Self
        ensures { result ≡ record { seen = seen; whole = false } }
    {
        Reached { seen, whole: false }
    }
}

/// The bytes of a line before its digits, what they say, and how many bytes the line has.
#[derive(Drop)]
struct Head {
    bytes: [u8; 62],
    len: usize,
    line: usize,
    version: Version,
    dir: Dir,
    local_port: u16,
    remote_host: Host,
    remote_port: u16,
}

impl Model for Head {
    ghost use Rattle.tftp_capture.specs.Heads.{HeadState, Holds, head_held};

    ghost Value = { HeadState };

    ghost view = { head_held };

    ghost invariant = { Holds };
}

/// How many digits spell a payload; where it has no byte it is one sign, a `-`.
fn count_digits(payload: &[u8]) -> usize
    ensures { (digits : List ℕ) → SpellsPayload digits payload.now → result ≡ length digits }
{
    match payload {
        [] => 1,
        _ => 2 * payload.len(),
    }
}

/// Whether the bytes begin with the first `len` of a head: by one vector, where it has room for these and so many bytes are
/// there, since that is less than a call takes.
#[inline(always)]
fn begins_with(ahead: &[u8], head: &[u8; 62], len: usize) -> bool
    requires head { len ≤ 62 }
    requires room { len ≤ length ahead.now }
    ensures { result ≡ true → take len ahead.now ≡ take len head.now }
{
    if len > LANES || ahead.len() < LANES {
        return ahead[..len] == head[..len];
    }
    let differ = u8x32::from_slice(ahead)
        .simd_ne(u8x32::from_slice(head))
        .to_bitmask();
    differ.trailing_zeros() as usize >= len
}

/// Puts a host in place. Most often it is there already, and what reads it need not wait for a write.
#[inline(always)]
fn put_host(host: &Host, place: &mut Host)
    ensures { place.new ≡ host.now }
{
    if *place != *host {
        *place = *host;
    }
}

impl Head {
    /// The head of a line that says this datagram, unless it is longer than a head can be.
    fn of(version: Version, line: &[u8], datagram: &Datagram) -> Option<Self>
        requires { SaysDatagram version line.now (datagram_of datagram.now) }
    {
        let len = line.len() - count_digits(datagram.payload.as_slice());
        if len > LONGEST_HEAD {
            return None;
        }
        let mut bytes = [0; LONGEST_HEAD];
        bytes[..len].copy_from_slice(&line[..len]);
        Some(Head {
            bytes,
            len,
            line: line.len(),
            version,
            dir: datagram.dir,
            local_port: datagram.local_port,
            remote_host: datagram.remote_host,
            remote_port: datagram.remote_port,
        })
    }

    /// The bytes of the head.
    #[inline(always)]
    fn text(&self) -> &[u8]
        ensures { result.now ≡ self.now.bytes }
    {
        &self.bytes[..self.len]
    }

    /// Fills all of a datagram but its payload with what the head says.
    #[inline(always)]
    fn fill_rest(&self, datagram: &mut Datagram)
        ensures { datagram_of datagram.new ≡ record { dir = self.now.dir; local = self.now.local; host = self.now.host; remote = self.now.remote; payload = datagram.old.payload } }
    {
        datagram.dir = self.dir;
        datagram.local_port = self.local_port;
        put_host(&self.remote_host, &mut datagram.remote_host);
        datagram.remote_port = self.remote_port;
    }

    /// What stands between the head and the LF, where the bytes begin with the head and an LF stands where the line would
    /// end, were it as long as the one before.
    #[inline(always)]
    fn rest<'a>(&self, ahead: &'a [u8]) -> Option<&'a [u8]>
        ensures { IfSome result (λ rest. GoesOnAfter self.now.bytes self.now.line rest.now ahead.now) }
    {
        let (line, len) = (self.line, self.len);
        if ahead.len() <= line || ahead[line] != b'\n' || line < len {
            return None;
        }
        if !begins_with(ahead, &self.bytes, len) {
            return None;
        }
        Some(&ahead[len..line])
    }

    /// Fills a datagram with what the next line says, where it begins with the head and is as long as the line before, and
    /// answers how long that is. Else nothing is said of the datagram.
    #[inline(always)]
    fn fill(&self, ahead: &[u8], datagram: &mut Datagram) -> Option<usize>
        ensures { IfSome result (BeginsWithDatagram self.now.version ahead.now (datagram_of datagram.new)) }
    {
        let digits = self.rest(ahead)?;
        let filled = fill_payload(digits, datagram.payload.as_mut_vec()).is_ok();
        self.fill_rest(datagram);
        if filled { Some(self.line) } else { None }
    }

    /// Whether what is held may be the beginning of a line of at most `most` bytes that is as long as the one before: the
    /// head, and digits in pairs.
    fn begins(&self, held: &[u8], most: usize) -> bool
        ensures { result ≡ true → BeginsWithHead self.now held.now most }
    {
        let (line, len) = (self.line, self.len);
        if held.len() < len || line < held.len() || most < line {
            return false;
        }
        let digits = line - len;
        if digits % 2 == 1 || digits == 0 || digits > 2 * LONGEST_PAYLOAD {
            return false;
        }
        held[..len] == self.bytes[..len]
    }

    /// Goes on with the digits of what is held of a line as long as the one before, where those of `done` bytes are decoded.
    /// Answers of how many bytes they are then; none where a sign that has come is no digit, but for one whose pair has not
    /// come yet: that is no LF.
    fn decode_held(&self, held: &[u8], payload: &mut [u8], done: usize) -> Option<usize>
        requires decoded { IsDecoded self.now held.now payload.old done }
        requires pairs { self.now.line ≡ length self.now.bytes + 2 * length payload.old }
        ensures decoded { IfSome result (IsDecoded self.now held.now payload.new) }
        ensures no_end { IfSome result (λ _. HasNoEnd (take self.now.line held.now)) }
        ensures whole { IfSome result (λ count. self.now.line ≤ length held.now → count ≡ length payload.new) }
        ensures len { length payload.new ≡ length payload.old }
    {
        let digits = &held[self.text().len()..held.len().min(self.line)];
        if digits.len() % 2 == 1 && digits[digits.len() - 1] == b'\n' {
            return None;
        }
        decode_on(digits, payload, done)
    }

    /// Reads on until a line as long as the one before is held, and decodes its digits as they come; no further than they are
    /// digits.
    fn read_digits<R: Read>(
        &self,
        ahead: &mut ReadBuffer,
        reader: &mut Latched<R>,
        payload: &mut [u8],
    ) -> io::Result<Reached>
        requires near { length ahead.old.bytes ≤ most_ahead }
        requires begins { take (length self.now.bytes) ahead.old.bytes ≡ self.now.bytes }
        requires narrow { self.now.line ≤ most_of_line }
        requires pairs { self.now.line ≡ length self.now.bytes + 2 * length payload.old }
        ensures part { IfOk result (λ reached. HoldsPart ahead.new.bytes reached.seen self.now.line self.now.line) }
        ensures cut { OnErr result (IsPartOfLine ahead.new.bytes self.now.line self.now.line) }
        ensures whole { IfOk result (λ reached. reached.whole ≡ true → SpellsBehind self.now.bytes (take reached.seen ahead.new.bytes) payload.new) }
        ensures len { length payload.new ≡ length payload.old }
        ensures kept { Keeps (prepend_known ahead.old.bytes (R.remaining reader.old.0)) (prepend_known ahead.new.bytes (R.remaining reader.new.0)) }
        ensures ok { OnOk result (reader.new.1 ≡ reader.old.1) }
        ensures err { OnErr result (reader.new.1 ≡ true) }
    {
        let line = self.line;
        let mut seen = 0;
        let mut done = 0;
        'reads: loop {
            let held = ahead.as_slice();
            let all = held.len();
            let Some(count) = self.decode_held(held, payload, done) else {
                return Ok(Reached::upto(seen));
            };
            if all > line {
                return Ok(Reached {
                    seen: line,
                    whole: true,
                });
            }
            ahead.read_to(reader, line + 1)?;
            if ahead.as_slice().len() == all {
                return Ok(Reached::upto(all));
            }
            seen = all;
            done = count;
        }
    }

    /// Fills a datagram with what the next line says, where it is like the one before, reading on while what is held is a part
    /// of it. Else nothing is said of the datagram.
    fn fill_on<R: Read>(
        &self,
        ahead: &mut ReadBuffer,
        reader: &mut Latched<R>,
        most: usize,
        datagram: &mut Datagram,
    ) -> io::Result<Reached>
        requires near { length ahead.old.bytes ≤ most_ahead }
        requires narrow { most ≤ most_of_line }
        ensures part { IfOk result (λ reached. HoldsPart ahead.new.bytes reached.seen most most) }
        ensures cut { OnErr result (IsPartOfLine ahead.new.bytes most most) }
        ensures says { IfOk result (λ reached. reached.whole ≡ true → SaysDatagram self.now.version (take reached.seen ahead.new.bytes) (datagram_of datagram.new)) }
        ensures kept { Keeps (prepend_known ahead.old.bytes (R.remaining reader.old.0)) (prepend_known ahead.new.bytes (R.remaining reader.new.0)) }
        ensures ok { OnOk result (reader.new.1 ≡ reader.old.1) }
        ensures err { OnErr result (reader.new.1 ≡ true) }
    {
        if !self.begins(ahead.as_slice(), most) {
            return Ok(Reached::upto(0));
        }
        let digits = self.line - self.text().len();
        let payload = datagram.payload.as_mut_vec();
        let Ok(()) = payload.resize(digits / 2, 0) else {
            return Ok(Reached::upto(0));
        };
        let reached = self.read_digits(ahead, reader, payload.as_mut_slice())?;
        self.fill_rest(datagram);
        Ok(reached)
    }
}

/// What is known of the lines of one way: the ports of the last one, and the head of the last one whose ports were those of
/// the line before it.
#[derive(Drop)]
struct Way {
    ports: (u16, u16),
    head: Option<Head>,
}

impl Way {
    /// Keeps the head of a line that says this datagram, where its ports come again; of a line that nothing like it came
    /// before, as one of many strays, none is made.
    fn note(&mut self, version: Version, line: &[u8], datagram: &Datagram)
        requires { SaysDatagram version line.now (datagram_of datagram.now) }
    {
        let ports = (datagram.local_port, datagram.remote_port);
        if self.ports == ports {
            self.head = Head::of(version, line, datagram);
        }
        self.ports = ports;
    }

    /// Fills a datagram with what the next line says, where the head is known and the line is like the one that it is of, and
    /// answers how many bytes it has. Else nothing is said of the datagram.
    #[inline(always)]
    fn fill(&self, version: Version, ahead: &[u8], datagram: &mut Datagram) -> Option<usize>
        ensures { IfSome result (BeginsWithDatagram version ahead.now (datagram_of datagram.new)) }
    {
        match &self.head {
            Some(head) if head.version == version => head.fill(ahead, datagram),
            _ => None,
        }
    }
}

/// What is known of the lines of each way, and the memory of the payload that went the other way than the last one.
#[derive(Drop)]
pub struct Heads {
    came: Way,
    went: Way,
    spare: Vec<u8>,
}

impl Heads {
    /// None is known yet. Takes no memory.
    pub fn new(alloc: Global) -> Self {
        Heads {
            came: Way {
                ports: (0, 0),
                head: None,
            },
            went: Way {
                ports: (0, 0),
                head: None,
            },
            spare: Vec::new(alloc),
        }
    }

    /// What is known of the way that the next line goes. Where the datagram went the other way it gets the memory of the last
    /// payload that went so: most often it has the length that is wanted, and need not be made longer.
    fn way(&mut self, ahead: &[u8], datagram: &mut Datagram) -> &Way {
        let dir = if matches!(ahead, [b'i', ..]) {
            Dir::In
        } else {
            Dir::Out
        };
        if dir != datagram.dir {
            mem::swap(datagram.payload.as_mut_vec(), &mut self.spare);
            datagram.dir = dir;
        }
        match dir {
            Dir::In => &self.came,
            Dir::Out => &self.went,
        }
    }

    /// Fills a datagram with what the next line says, where it is like one before it, and answers how many bytes it has
    /// without its LF. Else nothing is said of the datagram, and the line has to be read field by field.
    #[inline(always)]
    pub fn fill(&mut self, version: Version, ahead: &[u8], datagram: &mut Datagram) -> Option<usize>
        ensures { IfSome result (BeginsWithDatagram version ahead.now (datagram_of datagram.new)) }
    {
        self.way(ahead, datagram).fill(version, ahead, datagram)
    }

    /// Reads on while what is held is a part of a line of at most `most` bytes that is like one before it, and fills the
    /// datagram with what that says. Where nothing is held it first makes one read, whatever the line is. Of any other line
    /// no more is read, and nothing is said of the datagram.
    pub fn reach<R: Read>(
        &mut self,
        version: Version,
        ahead: &mut ReadBuffer,
        reader: &mut Latched<R>,
        most: usize,
        datagram: &mut Datagram,
    ) -> io::Result<Reached>
        requires near { length ahead.old.bytes ≤ most_ahead }
        requires narrow { most ≤ most_of_line }
        ensures part { IfOk result (λ reached. HoldsPart ahead.new.bytes reached.seen most most) }
        ensures cut { OnErr result (IsPartOfLine ahead.new.bytes most most) }
        ensures says { IfOk result (λ reached. reached.whole ≡ true → SaysDatagram version (take reached.seen ahead.new.bytes) (datagram_of datagram.new)) }
        ensures kept { Keeps (prepend_known ahead.old.bytes (R.remaining reader.old.0)) (prepend_known ahead.new.bytes (R.remaining reader.new.0)) }
        ensures ok { OnOk result (reader.new.1 ≡ reader.old.1) }
        ensures err { OnErr result (reader.new.1 ≡ true) }
    {
        ahead.fill(reader)?;
        match &self.way(ahead.as_slice(), datagram).head {
            Some(head) if head.version == version => head.fill_on(ahead, reader, most, datagram),
            _ => Ok(Reached::upto(0)),
        }
    }

    /// Notes a line that says this datagram.
    #[inline(never)]
    pub fn note(&mut self, version: Version, line: &[u8], datagram: &Datagram)
        requires { SaysDatagram version line.now (datagram_of datagram.now) }
    {
        match datagram.dir {
            Dir::In => self.came.note(version, line, datagram),
            Dir::Out => self.went.note(version, line, datagram),
        }
    }
}
