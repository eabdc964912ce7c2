ghost use Rattle.std.specs.Prelude.{◌≡◌, ◌+◌, ◌<◌, ◌≤◌, [], None, length, ◌++◌, slice_index_or, OnOk, OnErr};
ghost use Rattle.std.specs.Vec.{vec_capacity};
ghost use Rattle.tftp_ends.specs.Blocks.Ring.{cut, leading, filled, IsRow};

use crate::blocks::delivered::{Delivered, PutOutcome};
use crate::blocks::waiting::Waiting;
use std::alloc::{AllocError, Global};
use std::marker::Model;

/// From so many bytes on a file is long.
const LONG: usize = 1 << 20;

/// How many bytes a large page of memory has, and a page.
const LARGE_PAGE: usize = 1 << 21;

const PAGE: usize = 1 << 12;

/// How many blocks a transfer may have (RFC 1350, section 5).
const MOST_BLOCKS: usize = 65_535;

/// The blocks up to the front joined, and a ring for those above it. A block that waits is copied once when it comes,
/// into the bytes that all of them share, and moved once when the front passes it.
#[derive(Drop)]
pub struct RingDelivered {
    // the bytes of the blocks 1 to `front`
    joined: Vec<u8>,
    // place i stands for block front + 1 + i, and the last place has a block
    pending: Waiting,
    front: u32,
    // how many places have a block
    waiting: u16,
    block_size: u16,
    window: u16,
}

impl Model for RingDelivered {
    ghost use Rattle.std.specs.Prelude.{ℕ, ◌++◌};
    ghost use Rattle.tftp_ends.specs.Blocks.Ring.{Slots, cut, IsRing, IsRoom};

    ghost Value = { Slots × ℕ × ℕ × ℕ };

    ghost view = { λ a. (cut a.block_size a.front a.joined.items ++ a.pending.0, a.block_size, a.window, a.pending.1) };

    ghost invariant = { λ a. IsRing a.block_size a.window a.joined.items a.front a.pending.0 a.waiting × IsRoom a.block_size a.window a.pending.0 a.pending.1 };
}

impl RingDelivered {
    ghost use Rattle.std.specs.Prelude.{◌*◌, ◌^◌};
    ghost use Rattle.std.specs.FinMap as map;
    ghost use Rattle.tftp_ends.specs.Blocks.Store.{IsPending, Takes};
    ghost use Rattle.tftp_ends.specs.Blocks.Ring.{numbered};

    /// How many bytes are kept for the blocks above the front: theirs, and those of blocks that have left whose room is not
    /// yet given back.
    #[inline]
    pub fn kept(&self) -> usize
        ensures value { result ≡ self.now.3 }
        ensures none { IsPending (numbered 1 self.now.0) 0 → result ≡ 0 }
        ensures most { result ≤ 2 * (self.now.2 * self.now.1 + 2 ^ 20) }
    {
        self.pending.kept()
    }

    /// Holds a block that is not held yet.
    #[inline(always)]
    fn hold_new(&mut self, alloc: Global, number: u32, bytes: &[u8]) -> Result<(), AllocError>
        requires takes { Takes self.old.1 self.old.2 (numbered 1 self.old.0) number (length bytes.now) }
        requires absent { map.get (numbered 1 self.old.0) number ≡ None }
        ensures ok { OnOk result (numbered 1 self.new.0 ≡ map.insert (numbered 1 self.old.0) number bytes.now) }
        ensures err { OnErr result (self.new.0 ≡ self.old.0) }
        ensures block_size { self.new.1 ≡ self.old.1 }
        ensures window { self.new.2 ≡ self.old.2 }
    {
        // All growths come before the first change.
        let place = (number - self.front - 1) as usize;
        if place > 0 {
            let waiting = usize::from(self.waiting) * usize::from(self.block_size);
            self.pending.hold(alloc, waiting, place, bytes)?;
            self.waiting += 1;
            return Ok(());
        }
        let following = self.pending.following(self.block_size);
        make_room(&mut self.joined, self.block_size, bytes.len() + following)?;
        self.joined.extend_from_slice(bytes)?;
        self.front = number;
        if self.waiting > 0 {
            self.pending.drop_first();
            self.front = advance(&mut self.joined, &mut self.pending, number, self.block_size);
            self.waiting -= (self.front - number) as u16;
        }
        Ok(())
    }
}

impl Delivered for RingDelivered {
    ghost use Rattle.tftp_ends.specs.Blocks.Ring.{numbered};

    ghost held = { λ a. numbered 1 a.0 };

    ghost block_size = { λ a. a.1 };

    ghost window = { λ a. a.2 };

    // the joined bytes are handed over as they are
    ghost join_takes = { λ _. ⊥ };

    fn new(alloc: Global, blksize: u16, windowsize: u16) -> Self {
        RingDelivered {
            joined: Vec::new(alloc),
            pending: Waiting::new(alloc),
            front: 0,
            waiting: 0,
            block_size: blksize,
            window: windowsize,
        }
    }

    fn block_size(&self) -> u16 {
        self.block_size
    }

    fn window(&self) -> u16 {
        self.window
    }

    #[inline(always)]
    fn put(&mut self, alloc: Global, number: u32, bytes: &[u8]) -> Result<PutOutcome, AllocError> {
        match self.block(number) {
            Some(held) => {
                if held == bytes {
                    return Ok(PutOutcome::Same);
                }
                return Ok(PutOutcome::Differs);
            }
            None => {}
        }
        self.hold_new(alloc, number, bytes)?;
        Ok(PutOutcome::New)
    }

    fn front(&self) -> u32 {
        self.front
    }

    fn highest(&self) -> u32 {
        self.front + self.pending.len() as u32
    }

    fn block(&self, number: u32) -> Option<&[u8]> {
        if number == 0 {
            return None;
        }
        let before = (number - 1) as usize;
        if number <= self.front {
            let size = self.block_size as usize;
            let from = before * size;
            let to = if self.joined.len() - from < size {
                self.joined.len()
            } else {
                from + size
            };
            return Some(&self.joined[from..to]);
        }
        self.pending.get(before - self.front as usize)
    }

    fn pending(&self) -> usize {
        self.waiting as usize
    }

    fn into_wire(self, _alloc: Global) -> Result<Vec<u8>, AllocError> {
        let RingDelivered { joined, .. } = self;
        Ok(joined)
    }
}

/// How many bytes more a long file is given room for: it has room then for sixteen times as many as it has, or for 65,535
/// blocks where these are fewer, and for what it takes to lie in large pages to its end, with what an allocator keeps
/// beside it, which is less than a page. So the system need not lay the end in small pages, and moves all by large ones.
fn plenty_of(held: usize, block_size: u16) -> usize {
    let wanted = held
        .saturating_mul(16)
        .min(MOST_BLOCKS * usize::from(block_size));
    let pages = (wanted + PAGE).div_ceil(LARGE_PAGE);
    (pages * LARGE_PAGE - PAGE).saturating_sub(held)
}

/// Sees that there is room for so many bytes more. A file that has grown long is given plenty at once, so that it is seldom
/// moved: memory to which nothing was written yet costs nothing. Where so much is refused, just what is needed is asked for.
fn make_room(joined: &mut Vec<u8>, block_size: u16, more: usize) -> Result<(), AllocError>
    ensures items { joined.new.items ≡ joined.old.items }
    ensures room { OnOk result (length joined.old.items + more ≤ vec_capacity joined.new) }
    ensures full { OnErr result (vec_capacity joined.old < length joined.old.items + more) }
{
    let held = joined.len();
    if joined.capacity() - held >= more {
        return Ok(());
    }
    if held >= LONG {
        let plenty = plenty_of(held, block_size);
        if plenty >= more && joined.reserve_exact(plenty).is_ok() {
            return Ok(());
        }
    }
    joined.reserve(more)
}

/// Moves the blocks up to the first gap behind the joined ones, where there is room for them. Answers the front.
fn advance(joined: &mut Vec<u8>, pending: &mut Waiting, from: u32, block_size: u16) -> u32
    requires row { IsRow block_size joined.old.items from pending.old.0 }
    requires room { length joined.old.items + leading pending.old.0 ≤ vec_capacity joined.old }
    requires numbers { from + length pending.old.0 ≤ 4294967295 }
    ensures row { IsRow block_size joined.new.items result pending.new.0 }
    ensures slots { cut block_size result joined.new.items ++ pending.new.0
        ≡ cut block_size from joined.old.items ++ pending.old.0 }
    ensures gap { slice_index_or pending.new.0 0 None ≡ None }
    ensures within { from ≤ result }
    ensures length { result + length pending.new.0 ≡ from + length pending.old.0 }
    ensures filled { result + filled pending.new.0 ≡ from + filled pending.old.0 }
    ensures kept { pending.new.1 ≤ pending.old.1 }
    ensures empty { (pending.old.0 ≡ [] → pending.old.1 ≡ 0) → pending.new.0 ≡ [] → pending.new.1 ≡ 0 }
{
    let mut front = from;
    while pending.move_first(joined) {
        front += 1;
    }
    front
}
