ghost use Rattle.std.specs.Prelude.{◌≡◌, ◌+◌, ◌*◌, ◌≤◌, ◌<◌, ◌++◌, ◌^◌, ℕ, List, [], ◌∷◌, None, Some, true, false, option_map, max, IfOk, IfSome, OnOk, OnErr, length, drop, slice_index_or};
ghost use Rattle.std.specs.Vec.{vec_capacity};
ghost use Rattle.std.specs.VecDeque.{deque_capacity};
ghost use Rattle.tftp_ends.specs.Blocks.Ring.{placed, leading, total, IsEven};

use std::alloc::{AllocError, Global};
use std::collections::VecDeque;
use std::marker::Model;
use std::mem::size_of;

/// How many bytes more than those of the blocks that wait may be half of what is kept, before the room of the blocks that
/// have left is given back. So twice this may be kept beside twice what waits.
const SPARE: usize = 1 << 20;

/// Where a block lies in the bytes of all that wait.
#[derive(Clone, Copy)]
struct Span {
    start: usize,
    len: usize,
}

/// A place of the ring, and where its block lies in the bytes of all that wait, if it has one. The length of a block takes two
/// bytes, so that it has 16 where an `Option<Span>` has 24, and the places of a wide window take less of the caches.
#[derive(Clone, Copy)]
struct Place {
    start: usize,
    len: u16,
    held: bool,
}

/// How many bytes a place has.
const _: () = prove!(size_of::<Place>() == 16);

impl Model for Place {
    ghost use Rattle.std.specs.Prelude.{Option};
    ghost use Rattle.tftp_ends.specs.declared.blocks.waiting.Span.{Span};

    ghost Value = { Option Span };

    ghost use Rattle.tftp_ends.specs.Blocks.Place.{span_of, kept_as, kept_again, IsPlace};

    ghost view = { span_of };

    ghost invariant = { IsPlace };

    ghost inverse = { kept_as };

    ghost inverse_ok = { kept_again };
}

impl Place {
    /// A place without a block.
    fn gap() -> Self
        ensures { result ≡ None }
    {
        Place {
            start: 0,
            len: 0,
            held: false,
        }
    }

    /// A place whose block lies there.
    fn of(span: Span) -> Self
        requires { span.len ≤ 65535 }
        ensures { result ≡ Some span }
    {
        Place {
            start: span.start,
            len: span.len as u16,
            held: true,
        }
    }

    /// Where its block lies, if it has one.
    fn span(&self) -> Option<Span>
        ensures value { result ≡ self.now }
        ensures short { IfSome result (λ span. span.len ≤ 65535) }
    {
        if !self.held {
            return None;
        }
        Some(Span {
            start: self.start,
            len: usize::from(self.len),
        })
    }
}

/// The blocks above the front of a ring, each at its place. Their bytes stand in one vector, in the order in which they
/// came, until no place is left: then it is emptied, and its room is used again. Where blocks wait all the time, it is
/// packed when more than half of it is of blocks that have left and 1 MiB more: it stays within twice the bytes that wait,
/// 2 MiB and the block that came last. Callers see the places, and how many bytes are kept.
#[derive(Drop)]
pub(crate) struct Waiting {
    bytes: Vec<u8>,
    places: VecDeque<Place>,
}

impl Model for Waiting {
    ghost use Rattle.std.specs.Prelude.{ℕ, length};
    ghost use Rattle.tftp_ends.specs.Blocks.Ring.{Slots};

    ghost Value = { Slots × ℕ };

    ghost use Rattle.tftp_ends.specs.Blocks.Spans.{shown, AreWithin};

    ghost view = { λ w. (shown w.bytes.items w.places.items, length w.bytes.items) };

    ghost invariant = { λ w. AreWithin (length w.bytes.items) w.places.items };
}

impl Waiting {
    /// No place. Takes no memory.
    pub(crate) fn new(alloc: Global) -> Self
        ensures { result ≡ ([], 0) }
    {
        Waiting {
            bytes: Vec::new(alloc),
            places: VecDeque::new(alloc),
        }
    }

    /// How many places there are.
    pub(crate) fn len(&self) -> usize
        ensures { result ≡ length self.now.0 }
    {
        self.places.len()
    }

    /// How many bytes are kept.
    pub(crate) fn kept(&self) -> usize
        ensures { result ≡ self.now.1 }
    {
        self.bytes.len()
    }

    /// The bytes of the block at a place, if one is there.
    pub(crate) fn get(&self, place: usize) -> Option<&[u8]>
        ensures value { option_map (λ b. b.now) result ≡ slice_index_or self.now.0 place None }
        ensures short { IfSome result (λ b. length b.now ≤ 65535) }
    {
        let span = self.places.get(place)?.span()?;
        Some(&self.bytes[span.start..span.start + span.len])
    }

    /// Puts a block at a place. There are then as many places as that at least. `waiting` is how many bytes wait: where
    /// most of the bytes are of blocks that have left, their room is given back first. So no more bytes are kept than twice
    /// what waits and 2 MiB, and this block.
    #[inline(never)]
    pub(crate) fn hold(
        &mut self,
        alloc: Global,
        waiting: usize,
        place: usize,
        block: &[u8],
    ) -> Result<(), AllocError>
        requires place { place < 65535 }
        requires length { length self.old.0 ≤ 65535 }
        requires waiting { waiting ≤ 65535 * 65535 }
        requires short { length block.now ≤ 65535 }
        ensures ok { OnOk result (self.new.0 ≡ placed self.old.0 place block.now) }
        ensures kept { OnOk result (self.new.1 ≤ max (2 * (waiting + 2 ^ 20) + 1) (total self.old.0) + length block.now) }
        ensures err { OnErr result (self.new.0 ≡ self.old.0) }
        ensures err_kept { OnErr result (self.new.1 ≤ max self.old.1 (total self.old.0)) }
    {
        if self.bytes.len() / 2 > waiting + SPARE {
            let packed = self.packed(alloc)?;
            *self = packed;
        }
        self.lay(place, block)
    }

    /// Puts a block at a place, behind the bytes of all others.
    fn lay(&mut self, place: usize, block: &[u8]) -> Result<(), AllocError>
        requires place { place < 65535 }
        requires short { length block.now ≤ 65535 }
        ensures ok { OnOk result (self.new.0 ≡ placed self.old.0 place block.now) }
        ensures kept { OnOk result (self.new.1 ≡ self.old.1 + length block.now) }
        ensures err { OnErr result (self.new ≡ self.old) }
    {
        // All growths come before the first change of a place.
        let held = self.places.len();
        self.places.reserve((place + 1).saturating_sub(held))?;
        let start = self.bytes.len();
        self.bytes.extend_from_slice(block)?;
        let len = block.len();
        set_place(&mut self.places, place, Span { start, len });
        Ok(())
    }

    /// The same places, with no bytes but those of their blocks.
    fn packed(&self, alloc: Global) -> Result<Self, AllocError>
        requires { length self.now.0 ≤ 65535 }
        ensures { IfOk result (λ packed. packed ≡ (self.now.0, total self.now.0)) }
    {
        let mut packed = Waiting::new(alloc);
        for place in 0..self.places.len() {
            packed.add(self.get(place))?;
        }
        Ok(packed)
    }

    /// Adds a place behind the others.
    fn add(&mut self, block: Option<&[u8]>) -> Result<(), AllocError>
        requires length { length self.old.0 < 65535 }
        requires short { IfSome block (λ b. length b.now ≤ 65535) }
        ensures places { OnOk result (self.new.0 ≡ self.old.0 ++ option_map (λ b. b.now) block.entry ∷ []) }
        ensures kept { OnOk result (self.new.1 ≡ self.old.1 + total (option_map (λ b. b.now) block.entry ∷ [])) }
    {
        match block {
            Some(bytes) => {
                let place = self.len();
                self.lay(place, bytes)
            }
            None => {
                self.places.reserve(1)?;
                self.places.push_back_reserved(Place::gap());
                Ok(())
            }
        }
    }

    /// The bytes of the blocks that follow the first place without a gap.
    pub(crate) fn following(&self, block_size: u16) -> usize
        requires even { IsEven block_size self.now.0 }
        requires length { length self.now.0 ≤ 65535 }
        ensures value { result ≡ leading (drop 1 self.now.0) }
        ensures bound { result ≤ 65535 * 65535 }
    {
        let mut total = 0;
        let mut at = 1;
        while at < self.places.len() {
            match self.places[at].span() {
                Some(span) => {
                    total += span.len;
                    at += 1;
                }
                None => {
                    return total;
                }
            }
        }
        total
    }

    /// Moves the block of the first place behind the joined ones, where one is there, and says whether it was.
    pub(crate) fn move_first(&mut self, joined: &mut Vec<u8>) -> bool
        requires room { length joined.old.items + leading self.old.0 ≤ vec_capacity joined.old }
        ensures moved { result ≡ true → (block : List ℕ) × (self.old.0 ≡ Some block ∷ self.new.0) × (joined.new.items ≡ joined.old.items ++ block) }
        ensures gap { result ≡ false → (slice_index_or self.new.0 0 None ≡ None) × (self.new ≡ self.old) × (joined.new.items ≡ joined.old.items) }
        ensures capacity { vec_capacity joined.old ≤ vec_capacity joined.new }
        ensures kept { self.new.1 ≤ self.old.1 }
        ensures empty { result ≡ true → self.new.0 ≡ [] → self.new.1 ≡ 0 }
    {
        let Some(block) = self.get(0) else {
            return false;
        };
        let moved = joined.extend_from_slice(block).is_ok();
        self.drop_first();
        moved
    }

    /// Drops the first place, and its block. Where no place is left, no byte is kept.
    pub(crate) fn drop_first(&mut self)
        ensures places { self.new.0 ≡ drop 1 self.old.0 }
        ensures kept { self.new.1 ≤ self.old.1 }
        ensures empty { self.new.0 ≡ [] → self.new.1 ≡ 0 }
    {
        let _first = self.places.pop_front();
        if self.places.is_empty() {
            self.bytes.clear();
        }
    }
}

/// Puts a span at a place of the row, which grows as far as that.
fn set_place(places: &mut VecDeque<Place>, place: usize, span: Span)
    requires room { place < deque_capacity places.old }
    requires short { span.len ≤ 65535 }
    ensures { places.new.items ≡ placed places.old.items place span }
{
    let held = places.len();
    if place < held {
        places[place] = Place::of(span);
        return;
    }
    while places.len() < place {
        places.push_back_reserved(Place::gap());
    }
    places.push_back_reserved(Place::of(span));
}
