//! The wire that is written for a file, block by block, without a copy of it.

ghost use Rattle.std.specs.Prelude.{◌≡◌, [], ◌∷◌, ◌++◌, ◌≤◌, All, length, OnOk, MatchOption};
ghost use Rattle.std.specs.Prelude.{take, drop};
ghost use Rattle.tftp_packet.specs.{Octet, Netascii};
ghost use Rattle.tftp_netascii.specs.{canonical_bytes, IsPlain};
ghost use Rattle.law_end.specs.{written_wire};
ghost use Rattle.tftp_normal.specs.WireLeft.{bytes_of};

use memchr::memchr2;
use std::marker::Model;
use tftp_packet::Mode;

/// Makes a carriage return alone of the CR before it (RFC 764).
const NUL: u8 = b'\0';

/// The end of a line in a file, and on the wire together with the CR before it (RFC 764).
const LF: u8 = b'\n';

/// The first byte of each pair (RFC 764).
const CR: u8 = b'\r';

/// What is left of a wire. A block may end between the two bytes of a pair.
#[derive(Drop)]
pub(crate) struct WireBlocks<'a> {
    mode: Mode,
    file: &'a [u8],
    second: Option<u8>,
}

impl<'a> Model for WireBlocks<'a> {
    ghost use Rattle.std.specs.Prelude.{ℕ, List};
    ghost use Rattle.tftp_normal.specs.WireLeft.{left_of, HasNoPair};

    ghost Value = { List ℕ };

    ghost view = { λ blocks. left_of blocks };

    ghost invariant = { λ blocks. HasNoPair blocks };
}

impl<'a> WireBlocks<'a> {
    ghost use Rattle.std.specs.Prelude.{◌≡◌, ◌≤◌, [], ◌++◌, length, take, drop, IfNone, IfSome};
    ghost use Rattle.law_end.specs.Fitting.{written_wire};
    ghost use Rattle.tftp_normal.specs.WireLeft.{bytes_of};

    /// The whole wire of a file.
    pub(crate) fn new(mode: Mode, file: &'a [u8]) -> Self
        ensures { result ≡ written_wire mode file.now }
    {
        WireBlocks {
            mode,
            file,
            second: None,
        }
    }

    /// A wire whose bytes are at hand.
    pub(crate) fn as_it_is(wire: &'a [u8]) -> Self
        ensures { result ≡ wire.now }
    {
        WireBlocks::new(Mode::Octet, wire)
    }

    /// The next block where it lies in the file, of at most so many bytes, where bytes go over the wire as they are.
    pub(crate) fn split_block(&mut self, most: usize) -> Option<&'a [u8]>
        ensures some { IfSome result (λ block. (block.now ≡ take most self.old) × (self.new ≡ drop most self.old)) }
        ensures none { IfNone result (self.new ≡ self.old) }
    {
        if self.mode == Mode::Netascii {
            return None;
        }
        let size = most.min(self.file.len());
        let (block, rest) = self.file.split_at(size);
        self.file = rest;
        Some(block)
    }

    /// Fills a block from its front with what comes next, as far as it goes, and tells how many bytes those are: by runs of
    /// bytes that go as they are, and between them byte by byte.
    pub(crate) fn fill(&mut self, block: &mut [u8]) -> usize
        ensures within { result ≤ length block.old }
        ensures filled { take result block.new ≡ take (length block.old) self.old }
        ensures rest { self.new ≡ drop (length block.old) self.old }
    {
        let mut filled = 0;
        while filled < block.len() {
            filled += self.fill_run(&mut block[filled..]);
            if filled < block.len() {
                match self.next_byte() {
                    Some(byte) => block[filled] = byte,
                    None => return filled,
                }
                filled += 1;
            }
        }
        filled
    }

    /// Fills a block from its front with the run of bytes that go as they are and come next, perhaps none.
    fn fill_run(&mut self, block: &mut [u8]) -> usize
        ensures within { result ≤ length block.old }
        ensures filled { take result block.new ≡ take result self.old }
        ensures rest { self.new ≡ drop result self.old }
    {
        if self.second.is_some() {
            return 0;
        }
        let run = plain_run(self.file, block.len());
        let (bytes, rest) = self.file.split_at(run);
        block[..run].copy_from_slice(bytes);
        self.file = rest;
        run
    }

    /// The next byte.
    fn next_byte(&mut self) -> Option<u8>
        ensures next { self.old ≡ bytes_of result ++ self.new }
        ensures none { IfNone result (self.old ≡ []) }
    {
        if let Some(byte) = self.second {
            self.second = None;
            return Some(byte);
        }
        let (byte, rest) = self.file.split_first()?;
        let (first, second) = spelled(self.mode, *byte);
        self.file = rest;
        self.second = second;
        Some(first)
    }
}

/// How a byte of a file goes over the wire.
fn spelled(mode: Mode, byte: u8) -> (u8, Option<u8>)
    ensures spelled { result.0 ∷ bytes_of result.1 ≡ written_wire mode (byte ∷ []) }
    ensures alone { mode ≡ Octet → result.1 ≡ None }
{
    match (mode, byte) {
        (Mode::Netascii, LF) => (CR, Some(LF)),
        (Mode::Netascii, CR) => (CR, Some(NUL)),
        _ => (byte, None),
    }
}

/// How many bytes, at most so many, come before the first that netascii spells by two.
fn plain_run(file: &[u8], most: usize) -> usize
    ensures within { result ≤ most }
    ensures inside { result ≤ length file.now }
    ensures plain { All IsPlain (take result file.now) }
{
    let near = &file[..file.len().min(most)];
    memchr2(LF, CR, near).unwrap_or(near.len())
}
