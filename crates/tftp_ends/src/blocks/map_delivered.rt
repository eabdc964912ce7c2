ghost use Rattle.std.specs.Prelude.{◌≡◌, ◌≤◌, ◌<◌, ◌+◌, ℕ, is_some, true, false, IfOk};
ghost use Rattle.std.specs.BTreeMap.{get};
ghost use Rattle.std.specs.Ordering.{nat_cmp};
ghost use Rattle.tftp_ends.specs.Blocks.Store.{IsHeldFront, IsJoin};
ghost use Rattle.tftp_ends.specs.Blocks.Kept.{held_in};

use crate::blocks::delivered::{Delivered, PutOutcome};
use std::alloc::{AllocError, Global};
use std::collections::BTreeMap;
use std::marker::Model;

/// Each block for itself, in a map. By its contracts it is what `RingDelivered` is, and it is the plainer of the two.
#[derive(Drop)]
pub struct MapDelivered {
    by_number: BTreeMap<u32, Vec<u8>>,
    front: u32,
    highest: u32,
    block_size: u16,
    window: u16,
}

impl Model for MapDelivered {
    ghost use Rattle.std.specs.Prelude.{ℕ, List, length};
    ghost use Rattle.tftp_ends.specs.Blocks.Store.{Held};
    ghost use Rattle.tftp_ends.specs.Blocks.Kept.{held_in, kept_code, IsKept};

    ghost Value = { Held × ℕ × ℕ };

    ghost coded = { kept_code };

    ghost view = { λ a. (held_in a.by_number.entries, a.block_size, a.window) };

    ghost invariant = { λ a. IsKept a.block_size a.window (held_in a.by_number.entries) a.front a.highest (length a.by_number.entries) };
}

impl Delivered for MapDelivered {
    ghost held = { λ a. a.0 };

    ghost block_size = { λ a. a.1 };

    ghost window = { λ a. a.2 };

    ghost use Rattle.tftp_ends.specs.Blocks.Store.{JoinsSeveral};

    // a first block that is alone is handed over as it is
    ghost join_takes = { JoinsSeveral };

    fn new(alloc: Global, blksize: u16, windowsize: u16) -> Self {
        MapDelivered {
            by_number: BTreeMap::new(alloc),
            front: 0,
            highest: 0,
            block_size: blksize,
            window: windowsize,
        }
    }

    fn block_size(&self) -> u16 {
        self.block_size
    }

    fn window(&self) -> u16 {
        self.window
    }

    fn put(&mut self, alloc: Global, number: u32, bytes: &[u8]) -> Result<PutOutcome, AllocError> {
        match self.by_number.get(&number) {
            Some(held) => {
                if held.as_slice() == bytes {
                    return Ok(PutOutcome::Same);
                }
                return Ok(PutOutcome::Differs);
            }
            None => {}
        }
        // Both growths come before the first change.
        let copy = Vec::from_slice(alloc, bytes)?;
        self.by_number.insert(number, copy)?;
        self.highest = self.highest.max(number);
        self.front = front_after(&self.by_number, self.front);
        Ok(PutOutcome::New)
    }

    fn front(&self) -> u32 {
        self.front
    }

    fn highest(&self) -> u32 {
        self.highest
    }

    fn block(&self, number: u32) -> Option<&[u8]> {
        match self.by_number.get(&number) {
            Some(bytes) => Some(bytes.as_slice()),
            None => None,
        }
    }

    fn pending(&self) -> usize {
        self.by_number.len() - self.front as usize
    }

    fn into_wire(self, alloc: Global) -> Result<Vec<u8>, AllocError> {
        let MapDelivered {
            mut by_number,
            front,
            block_size,
            ..
        } = self;
        if front > 1 {
            return join(alloc, &by_number, front, block_size);
        }
        match by_number.remove(&1) {
            Some(first) => Ok(first),
            None => Ok(Vec::new(alloc)),
        }
    }
}

/// The front, where the blocks up to `from` are known to be held.
fn front_after(blocks: &BTreeMap<u32, Vec<u8>>, from: u32) -> u32
    ensures within { from ≤ result }
    ensures held { (k : ℕ) → from < k → k ≤ result → is_some (get nat_cmp blocks.now k) ≡ true }
    ensures next { result < 4294967295 → is_some (get nat_cmp blocks.now (result + 1)) ≡ false }
{
    let mut front = from;
    while front < u32::MAX && blocks.contains_key(&(front + 1)) {
        front += 1;
    }
    front
}

/// The blocks up to the front, joined.
fn join(
    alloc: Global,
    blocks: &BTreeMap<u32, Vec<u8>>,
    front: u32,
    block_size: u16,
) -> Result<Vec<u8>, AllocError>
    requires { IsHeldFront (held_in blocks.now.entries) front }
    ensures { IfOk result (λ wire. IsJoin (held_in blocks.now.entries) front wire.items) }
{
    let mut wire = Vec::with_capacity(alloc, front as usize * block_size as usize)?;
    let mut joined = 0;
    while joined < front {
        joined += 1;
        match blocks.get(&joined) {
            Some(bytes) => wire.extend_from_slice(bytes.as_slice())?,
            None => {}
        }
    }
    Ok(wire)
}
