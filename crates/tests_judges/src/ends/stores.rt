//! The two stores of delivered blocks, each by the same steps.

use std::alloc::AllocError;
use std::test::Fail;
use tests_wire::trials::comparing::{is_same, is_so};
use tftp_ends::blocks::{Delivered, MapDelivered, PutOutcome, RingDelivered};

/// A block, what becomes of it, none where it is not taken; and then the front, the highest block and the number of those
/// that wait.
type Step = (u32, &'static [u8], Option<PutOutcome>, (u32, u32, usize));

/// What becomes of a block.
const NEW: Option<PutOutcome> = Some(PutOutcome::New);

const SAME: Option<PutOutcome> = Some(PutOutcome::Same);

const DIFFERS: Option<PutOutcome> = Some(PutOutcome::Differs);

/// Four blocks of eight bytes, the last one before the two in the middle.
const FOUR_BLOCKS: &[Step] = &[
    (0, b"00000000", None, (0, 0, 0)),
    (1, b"11111111", NEW, (1, 1, 0)),
    (1, b"11111111", SAME, (1, 1, 0)),
    (1, b"11111112", DIFFERS, (1, 1, 0)),
    (4, b"44444444", NEW, (1, 4, 1)),
    (6, b"66666666", None, (1, 4, 1)),
    (3, b"3333333", None, (1, 4, 1)),
    (3, b"333333333", None, (1, 4, 1)),
    (4, b"44444445", DIFFERS, (1, 4, 1)),
    (2, b"22222222", NEW, (2, 4, 1)),
    (3, b"33333333", NEW, (4, 4, 0)),
];

/// A short block is the last one. What waits is not in the wire.
const SHORT_BLOCK: &[Step] = &[
    (1, b"11111111", NEW, (1, 1, 0)),
    (3, b"333", NEW, (1, 3, 1)),
    (4, b"44444444", None, (1, 3, 1)),
    (4, b"444", None, (1, 3, 1)),
    (3, b"33333333", None, (1, 3, 1)),
    (3, b"3333", DIFFERS, (1, 3, 1)),
    (2, b"222", None, (1, 3, 1)),
];

/// The last block of a window before the others.
const LAST_OF_A_WINDOW: &[Step] = &[
    (1, b"11111111", NEW, (1, 1, 0)),
    (5, b"55555555", NEW, (1, 5, 1)),
];

/// Steps on a new store of blocks of eight bytes with a window of 4 by their name, and its wire at the end.
type Case = (&'static str, &'static [Step], &'static [u8]);

/// Such steps.
const CASES: &[Case] = &[
    (
        "four blocks",
        FOUR_BLOCKS,
        b"11111111222222223333333344444444",
    ),
    ("a short block", SHORT_BLOCK, b"11111111"),
    ("the last of a window", LAST_OF_A_WINDOW, b"11111111"),
];

/// Puts a block; none where the store does not take it. Where a growth is refused it is put again.
fn put<D: Delivered>(
    rt: &HostRuntime,
    store: &mut D,
    number: u32,
    bytes: &[u8],
) -> Result<Option<PutOutcome>, AllocError> {
    for _ in 0..2u8 {
        if !store.takes(number, bytes.len()) {
            return Ok(None);
        }
        if let Ok(placed) = store.put(rt.alloc(), number, bytes) {
            return Ok(Some(placed));
        }
    }
    Err(AllocError)
}

/// The front, the highest block and the number of those that wait.
fn stands<D: Delivered>(store: &D) -> (u32, u32, usize) {
    (store.front(), store.highest(), store.pending())
}

/// Fails unless that becomes of each block.
fn all_hold<D: Delivered>(
    rt: &HostRuntime,
    store: &mut D,
    (name, steps, _): &Case,
) -> Result<(), Fail> {
    for (number, bytes, placed, state) in *steps {
        let found = put(rt, store, *number, *bytes)?;
        is_so(found == *placed && stands(store) == *state, *name)?;
    }
    Ok(())
}

/// The wire of a store, which is let go in this place alone, since that is dear to prove.
fn wire_of<D: Delivered + Drop>(rt: &HostRuntime, store: D) -> Result<Vec<u8>, AllocError> {
    store.into_wire(rt.alloc())
}

/// Fails unless that becomes of each block, and the wire is this.
fn keeps<D: Delivered + Drop>(rt: &HostRuntime, case: &Case) -> Result<(), Fail> {
    let mut store = D::new(rt.alloc(), 8, 4);
    let held = all_hold(rt, &mut store, case);
    let wire = wire_of(rt, store);
    held?;
    is_same(wire?.as_slice(), case.2)
}

/// Whether all blocks but the first wait, the highest before the others, and none once the first is there.
fn fills<D: Delivered>(rt: &HostRuntime, store: &mut D) -> Result<bool, AllocError> {
    for below in 0..65_534u32 {
        if put(rt, store, 65_535 - below, b"........")? != NEW {
            return Ok(false);
        }
    }
    let waiting = stands(store);
    let last = put(rt, store, 1, b"........")?;
    Ok(waiting == (0, 65_535, 65_534) && last == NEW && stands(store) == (65_535, 65_535, 0))
}

/// Fails unless that is so of the largest window.
fn keeps_a_window<D: Delivered + Drop>(rt: &HostRuntime) -> Result<(), Fail> {
    let mut store = D::new(rt.alloc(), 8, 65_535);
    let filled = fills(rt, &mut store);
    let wire = wire_of(rt, store);
    is_so(filled? && wire?.len() == 524_280, "the largest window")
}

/// Fails unless the store keeps blocks as is wanted.
fn keeps_all<D: Delivered + Drop>(rt: &HostRuntime) -> Result<(), Fail> {
    for case in CASES {
        keeps::<D>(rt, case)?;
    }
    keeps_a_window::<D>(rt)
}

#[test]
fn map_keeps_blocks(rt: HostRuntime) -> Result<(), Fail> {
    keeps_all::<MapDelivered>(&rt)
}

#[test]
fn ring_keeps_blocks(rt: HostRuntime) -> Result<(), Fail> {
    keeps_all::<RingDelivered>(&rt)
}

/// How many bytes a ring keeps after each of four blocks.
fn kept_of(rt: &HostRuntime, store: &mut RingDelivered) -> Result<bool, AllocError> {
    for (number, bytes, kept) in [
        (2, b"22222222", 8),
        (4, b"44444444", 16),
        (1, b"11111111", 16),
        (3, b"33333333", 0),
    ] {
        put(rt, store, number, bytes)?;
        if store.kept() != kept {
            return Ok(false);
        }
    }
    Ok(true)
}

/// A ring keeps the bytes of blocks that have left for as long as others wait, and none where none waits.
#[test]
fn ring_keeps_no_bytes_where_none_waits(rt: HostRuntime) -> Result<(), Fail> {
    let mut store = RingDelivered::new(rt.alloc(), 8, 4);
    is_so(kept_of(&rt, &mut store)?, "other bytes")
}
