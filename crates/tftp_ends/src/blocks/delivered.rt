ghost use Rattle.std.specs.Prelude.{◌≡◌, ◌↔◌, ◌≤◌, ◌<◌, ℕ, List, None, true, length, IfOk, OnErr, option_map};
ghost use Rattle.std.specs.FinMap as map;
ghost use Rattle.tftp_ends.specs.Blocks.Store.{
  Held,
  nothing_held,
  IsHeldFront,
  IsHighest,
  IsOrderly,
  IsPending,
  IsJoin,
  Takes,
  Places,
};
ghost use Rattle.tftp_ends.specs.Blocks.Placement.{placing};

use std::alloc::{AllocError, Global};

/// What became of a block that was handed over.
#[derive(Clone, Copy, Debug, PartialEq, Eq)]
pub enum PutOutcome {
    /// It was not held, and now it is.
    New,
    /// It is held with the same bytes.
    Same,
    /// It is held with other bytes, which stay.
    Differs,
}

/// The blocks that an end has, by their numbers from 1, in whatever order they came (RFC 1350, section 2; within the
/// windows of RFC 7440, section 4).
pub trait Delivered: Sized {
    /// The bytes of each block that is held.
    ghost held: { Self → Held };

    /// How many bytes a block has that is not the last.
    ghost block_size: { Self → ℕ };

    /// How far above the front a block may be.
    ghost window: { Self → ℕ };

    /// Of which blocks the join may want memory.
    ghost join_takes: { Held → Type 0 };

    /// A store with no block. Takes no memory.
    fn new(alloc: Global, blksize: u16, windowsize: u16) -> Self
        requires blksize { 8 ≤ blksize }
        requires windowsize { 1 ≤ windowsize }
        ensures held { held result ≡ nothing_held }
        ensures block_size { block_size result ≡ blksize }
        ensures window { window result ≡ windowsize };

    /// How many bytes a block has that is not the last.
    fn block_size(&self) -> u16
        ensures { result ≡ block_size self.now };

    /// How far above the front a block may be.
    fn window(&self) -> u16
        ensures { result ≡ window self.now };

    /// Whether a block of this length may be held. A block shorter than the others is the last one (RFC 1350,
    /// section 2), and none lies more than a window above the front (RFC 7440, section 4).
    fn takes(&self, number: u32, len: usize) -> bool
        ensures { (result ≡ true) ↔ Takes (block_size self.now) (window self.now) (held self.now) number len }
    {
        let size = self.block_size() as usize;
        if number == 0 || len > size {
            return false;
        }
        if number as u64 > self.front() as u64 + self.window() as u64 {
            return false;
        }
        let whole = len == size;
        let highest = self.highest();
        // what is not the highest block is whole, whether that one is the last or not
        if number < highest {
            return whole;
        }
        match self.block(highest) {
            Some(bytes) => {
                if bytes.len() < size {
                    return number == highest && !whole;
                }
            }
            None => {}
        }
        whole || number > highest
    }

    /// Holds a block.
    fn put(&mut self, alloc: Global, number: u32, bytes: &[u8]) -> Result<PutOutcome, AllocError>
        requires { Takes (block_size self.old) (window self.old) (held self.old) number (length bytes.now) }
        ensures ok { IfOk result (λ placed. Places (held self.old) (held self.new) number bytes.now (placing placed)) }
        ensures err { OnErr result (held self.new ≡ held self.old) }
        ensures absent { OnErr result (map.get (held self.old) number ≡ None) }
        ensures block_size { block_size self.new ≡ block_size self.old }
        ensures window { window self.new ≡ window self.old };

    /// The highest number up to which each block is held. It is what a receiver acknowledges (RFC 7440, section 4).
    fn front(&self) -> u32
        ensures { IsHeldFront (held self.now) result };

    /// The highest block that is held, or 0.
    fn highest(&self) -> u32
        ensures highest { IsHighest (held self.now) result }
        ensures orderly { IsOrderly (block_size self.now) (held self.now) };

    /// The bytes of a block, if it is held.
    fn block(&self, number: u32) -> Option<&[u8]>
        ensures { option_map (λ b. b.now) result ≡ map.get (held self.now) number };

    /// How many blocks above the front are held.
    fn pending(&self) -> usize
        ensures count { IsPending (held self.now) result }
        ensures fewer { result < window self.now };

    /// The blocks up to the front, joined. After being out of memory the store is gone.
    fn into_wire(self, alloc: Global) -> Result<Vec<u8>, AllocError>
        ensures joined { IfOk result (λ wire. (front : ℕ) → IsHeldFront (held self) front → IsJoin (held self) front wire.items) }
        ensures memory { OnErr result (join_takes (held self)) };
}
