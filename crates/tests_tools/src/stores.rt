//! The stores of blocks, filled with what the input has.

ghost use Rattle.std.specs.Prelude.{◌≤◌, length, IfOk};

use std::alloc::Global;
use std::io;
use std::io::Read;
use tftp_ends::blocks::Delivered;

/// The most blocks that a store can hold, and the window of each.
const MOST: u16 = 65_535;

/// In which order the blocks of a store are put.
#[derive(Clone, Copy)]
pub enum Order {
    /// From block 1 on.
    Rising,
    /// The highest block first, so that all but block 1 wait.
    Reversed,
}

/// Fills stores with blocks of `size` bytes of the input, up to 65,535 to a store, one store after another, and counts
/// the blocks that stand below their fronts. What is left of the input where it is no whole block is left out.
pub fn fill_stores<D: Delivered + Drop, R: Read>(
    alloc: Global,
    reader: &mut R,
    size: u16,
    order: Order,
) -> io::Result<u64>
    requires sized { 8 ≤ size }
{
    let mut text = vec![in alloc; 0u8; size as usize * MOST as usize]?;
    let mut blocks = 0u64;
    for _ in 0..u64::MAX {
        let count = fill(reader, &mut text)? / size as usize;
        if count == 0 {
            break;
        }
        let mut store = D::new(alloc, size, MOST);
        for index in 0..count as u16 {
            let at = match order {
                Order::Rising => index,
                Order::Reversed => count as u16 - 1 - index,
            };
            let start = at as usize * size as usize;
            put(
                alloc,
                &mut store,
                u32::from(at) + 1,
                &text[start..start + size as usize],
            )?;
        }
        blocks = blocks.saturating_add(store.front() as u64);
    }
    Ok(blocks)
}

/// Puts a block that the store takes.
fn put<D: Delivered>(alloc: Global, store: &mut D, number: u32, bytes: &[u8]) -> io::Result<()> {
    if store.takes(number, bytes.len()) {
        store.put(alloc, number, bytes)?;
    }
    Ok(())
}

/// Reads until the room is full or the input is at its end, and says how many bytes were read.
pub fn fill<R: Read>(reader: &mut R, room: &mut [u8]) -> io::Result<usize>
    ensures { IfOk result (λ count. count ≤ length room.new) }
{
    let mut len = 0;
    while len < room.len() {
        let count = reader.read(&mut room[len..])?;
        if count == 0 {
            break;
        }
        len += count;
    }
    Ok(len)
}
