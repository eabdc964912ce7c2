ghost use Rattle.std.specs.Prelude.{◌≡◌, ◌≢◌, ◌+◌, ◌<◌, ◌≤◌, ◌∷◌, ℕ, List, Option, Some, None, length, map, true, false, IfOk, OnOk, OnErr, IsTrue, ◌↔◌, slice_index, slice_index_or, take};
ghost use Rattle.std.specs.List.{AllByRecursion};
ghost use Rattle.net_udp.specs.Fragments.Whole.{Part as Piece, end_of, HasPart, Give};
ghost use Rattle.net_udp.specs.Fragments.Pieces.{part_of, content_of, nothing_held, StandsFor, Agrees, EndsAgree, NamesAgree, AreLaid, IsComplete, IsHeld};

use crate::fragments::content::Content;
use crate::fragments::part::Part;
use std::alloc::{AllocError, Global};
use std::marker::Model;

/// The parts of one packet's content that have come, each byte at its place.
#[derive(Drop)]
pub(crate) struct Parts {
    cells: Vec<Option<u8>>,
    front: usize,
    ended: bool,
    protocol: Option<u8>,
}

impl Model for Parts {
    ghost use Rattle.net_udp.specs.Fragments.Pieces.{Held, IsKept};

    ghost Value = { Held };

    ghost view = { λ p. record { cells = p.cells.items; ended = p.ended; protocol = p.protocol } };

    ghost invariant = { λ p. IsKept p.cells.items p.front };
}

impl Parts {
    /// No part has come. Takes no memory.
    pub(crate) fn new(alloc: Global) -> Self
        ensures { result ≡ nothing_held }
    {
        Parts {
            cells: Vec::new(alloc),
            front: 0,
            ended: false,
            protocol: None,
        }
    }

    /// How many bytes there are up to the furthest end of a part.
    pub(crate) fn reach(&self) -> usize
        ensures value { result ≡ length self.now.cells }
        ensures few { result ≤ 65535 }
    {
        self.cells.len()
    }

    /// Whether the part may be of the packet of those that have come.
    pub(crate) fn agree(&self, part: &Part) -> bool
        requires room { end_of (part_of part.now) ≤ 65535 }
        ensures { IsTrue result ↔ Agrees self.now (part_of part.now) }
    {
        self.names_agree(part)
            && self.ends_agree(part)
            && !differ(&self.cells, part.place as usize, part.content)
    }

    /// Whether the part names what the first one did, if it is the first too.
    fn names_agree(&self, part: &Part) -> bool
        ensures { IsTrue result ↔ NamesAgree self.now (part_of part.now) }
    {
        match self.protocol {
            Some(protocol) => part.place != 0 || part.protocol == protocol,
            None => true,
        }
    }

    /// Whether the part ends where it may.
    fn ends_agree(&self, part: &Part) -> bool
        requires room { end_of (part_of part.now) ≤ 65535 }
        ensures { IsTrue result ↔ EndsAgree self.now (part_of part.now) }
    {
        let end = part.place as usize + part.content.len();
        match (self.ended, part.more) {
            (true, true) => end < self.cells.len(),
            (true, false) => end == self.cells.len(),
            (false, true) => true,
            (false, false) => self.cells.len() < end,
        }
    }

    /// Adds a part. It takes memory only where the part ends behind all others.
    pub(crate) fn add(&mut self, part: &Part) -> Result<(), AllocError>
        requires room { end_of (part_of part.now) ≤ 65535 }
        requires agrees { Agrees self.old (part_of part.now) }
        ensures ok { (parts : List Piece) → StandsFor self.old parts → OnOk result (StandsFor self.new (part_of part.now ∷ parts)) }
        ensures err { OnErr result (self.new ≡ self.old) }
        ensures beyond { OnErr result (length self.old.cells < end_of (part_of part.now)) }
        ensures reach { OnOk result (length self.new.cells ≤ length self.old.cells + end_of (part_of part.now)) }
    {
        lay(&mut self.cells, part.place as usize, part.content)?;
        self.front = front_after(&self.cells, self.front);
        self.protocol = named_with(self.protocol, part);
        if !part.more {
            self.ended = true;
        }
        Ok(())
    }

    /// Whether all of the content has come.
    pub(crate) fn are_whole(&self) -> bool
        ensures { IsTrue result ↔ IsComplete self.now }
    {
        match self.protocol {
            Some(_) => self.ended && self.front == self.cells.len(),
            None => false,
        }
    }

    /// The content.
    pub(crate) fn content(&self, alloc: Global) -> Result<Content, AllocError>
        requires { IsComplete self.now }
        ensures { IfOk result (λ content. IsHeld self.now (content_of content)) }
    {
        let mut bytes = Vec::with_capacity(alloc, self.cells.len())?;
        for cell in &self.cells {
            match cell {
                Some(byte) => bytes.push(*byte)?,
                None => {}
            }
        }
        Ok(Content {
            protocol: self.protocol.unwrap(),
            bytes,
        })
    }
}

/// What the first part names, once a part more has come.
fn named_with(named: Option<u8>, part: &Part) -> Option<u8>
    ensures first { part.now.place ≡ 0 → result ≡ Some part.now.protocol }
    ensures other { part.now.place ≢ 0 → result ≡ named }
{
    if part.place == 0 {
        Some(part.protocol)
    } else {
        named
    }
}

/// Whether a byte that is held is another than that of the content, which begins at a place.
fn differ(cells: &[Option<u8>], place: usize, content: &[u8]) -> bool
    requires { place + length content.now ≤ 65535 }
    ensures same { result ≡ false → (i b : ℕ) → i < length content.now → slice_index_or cells.now (place + i) None ≡ Some b → b ≡ slice_index content.now i }
    ensures other { result ≡ true → (i : ℕ) × (b : ℕ) × (i < length content.now) × (slice_index_or cells.now (place + i) None ≡ Some b) × (b ≡ slice_index content.now i → ⊥) }
{
    for (i, byte) in content.iter().enumerate() {
        match cells.get(place + i) {
            Some(Some(held)) => {
                if held != byte {
                    return true;
                }
            }
            _ => {}
        }
    }
    false
}

/// Writes the bytes into cells from a place on; where these end before the bytes do, there are then as many as they need.
fn lay(cells: &mut Vec<Option<u8>>, place: usize, bytes: &[u8]) -> Result<(), AllocError>
    requires { place + length bytes.now ≤ 65535 }
    ensures ok { OnOk result (AreLaid cells.old.items place bytes.now cells.new.items) }
    ensures err { OnErr result (cells.new.items ≡ cells.old.items) }
    ensures beyond { OnErr result (length cells.old.items < place + length bytes.now) }
{
    let end = place + bytes.len();
    if cells.len() < end {
        cells.resize(end, None)?;
    }
    write(cells, place, bytes);
    Ok(())
}

/// Writes the bytes into cells from a place on.
fn write(cells: &mut [Option<u8>], place: usize, bytes: &[u8])
    requires few { place + length bytes.now ≤ 65535 }
    requires room { place + length bytes.now ≤ length cells.old }
    ensures there { (i : ℕ) → i < length bytes.now → slice_index_or cells.new (place + i) None ≡ Some (slice_index bytes.now i) }
    ensures before { (k : ℕ) → k < place → slice_index_or cells.new k None ≡ slice_index_or cells.old k None }
    ensures behind { (k : ℕ) → place + length bytes.now ≤ k → slice_index_or cells.new k None ≡ slice_index_or cells.old k None }
{
    for (i, byte) in bytes.iter().enumerate() {
        cells[place + i] = Some(*byte);
    }
}

/// The first cell from `from` on in which no byte is held.
fn front_after(cells: &[Option<u8>], from: usize) -> usize
    requires { from ≤ length cells.now }
    ensures within { result ≤ length cells.now }
    ensures after { from ≤ result }
    ensures before { (k : ℕ) → from ≤ k → k < result → (b : ℕ) × (slice_index_or cells.now k None ≡ Some b) }
    ensures here { result < length cells.now → slice_index_or cells.now result None ≡ None }
{
    let mut front = from;
    while front < cells.len() && cells[front].is_some() {
        front += 1;
    }
    front
}
