//! The rules of blocks and acknowledgements, by the numbers and blocks that a state keeps.

ghost use Rattle.std.specs.Prelude.{◌⊎◌, ◌<◌, ◌≡◌, ◌↔◌, ℕ, ◌≤◌, List, length, Some, IsTrue, true, false, MatchOption, OnOk, OnErr, IfErr};
ghost use Rattle.std.specs.FinMap as map;
ghost use Rattle.tftp_packet.specs.{Data, Ack, NoneBelow};
ghost use Rattle.tftp_packet.specs.Hosts.{Datagram};
ghost use Rattle.tftp_ends.specs.Blocks.{IsHighest, IsOrderly, Takes, Placing, Places};
ghost use Rattle.law_model.specs.Rules.{HasPassed, HasWrongLength, BlocksWait, AckZeroWaits, EndBroken, FirstEndBroken, end_number};
ghost use Rattle.tftp_ends.specs.Rejections.{CannotHold};
ghost use Rattle.tftp_ends.specs.States.{AreBlocks, HasLengthBySize, IsHeld};
ghost use Rattle.tftp_ends.specs.StatesKept.{IsSound, IsShortTop, AreWhole, IsEnd, HasNoEnd, EndsElsewhere, EndsThere, HasRightLength, IsKnown};

use crate::blocks::{Delivered, PutOutcome};
use crate::rejection::Rejection;
use law_model::rules::{EndRule, Reply, Terms};
use std::alloc::Global;
use tftp_packet::Side;

/// Whether blocks wait for an ACK 0 (RFC 1350, section 4; RFC 2347). `zero` tells whether one has passed.
fn blocks_wait(terms: &Terms, zero: bool) -> bool
    ensures { (passed : List Datagram) → ((zero ≡ true) ↔ HasPassed (Ack 0) passed)
        → (IsTrue result ↔ BlocksWait terms.now.side terms.now.reply passed) }
{
    match terms.side {
        Side::Get => terms.reply == Reply::Oacked && !zero,
        Side::Put => terms.reply == Reply::NoReply,
    }
}

/// Whether an ACK 0 has nothing to answer (RFC 1350, section 4; RFC 2347). `any_block` tells whether a block has passed.
pub(crate) fn ack_zero_waits(terms: &Terms, any_block: bool) -> bool
    ensures { (passed : List Datagram) → ((any_block ≡ true) ↔ ((k : ℕ) × (bytes : List ℕ) × HasPassed (Data k bytes) passed))
        → (IsTrue result ↔ AckZeroWaits terms.now.side terms.now.reply passed) }
{
    match terms.side {
        Side::Get => terms.reply != Reply::Oacked,
        Side::Put => terms.reply == Reply::Oacked && !any_block,
    }
}

/// The block that is shorter than the others, and so the last, if it is held (RFC 1350, section 2). It is the highest.
#[inline(always)]
fn short_block<D: Delivered>(store: &D, highest: u32, block_size: usize) -> Option<u32>
    requires highest { IsHighest (D.held store.now) highest }
    requires orderly { IsOrderly block_size (D.held store.now) }
    ensures { MatchOption result (AreWhole block_size (D.held store.now)) (IsShortTop block_size (D.held store.now)) }
{
    match store.block(highest) {
        Some(bytes) => {
            if bytes.len() < block_size {
                return Some(highest);
            }
        }
        None => {}
    }
    None
}

/// The last block, where a size was agreed or a short block is held (RFC 1350, section 2; RFC 2349).
pub(crate) fn last_block<D: Delivered>(terms: &Terms, store: &D) -> Option<u64>
    requires sound { IsSound terms.now (D.held store.now) }
    requires block_size { D.block_size store.now ≡ terms.now.blksize }
    ensures { MatchOption result (HasNoEnd terms.now (D.held store.now)) (IsEnd terms.now (D.held store.now)) }
{
    match terms.size {
        Some(size) => Some(size / u64::from(terms.blksize) + 1),
        None => match short_block(store, store.highest(), usize::from(terms.blksize)) {
            Some(last) => Some(u64::from(last)),
            None => None,
        },
    }
}

/// Whether a block has the length that this size of the wire leaves it (RFC 1350, section 2; RFC 2349).
fn has_length_by_size(block_size: u64, size: u64, number: u64, len: u64) -> bool
    requires block_size { 8 ≤ block_size }
    requires number { number ≤ 4294967295 }
    ensures { IsTrue result ↔ HasLengthBySize block_size size number len }
{
    let whole_blocks = size / block_size;
    if number <= whole_blocks {
        return len == block_size;
    }
    number - whole_blocks == 1 && len == size % block_size
}

/// Whether a block that is no longer than the others can't have its length, where no size was agreed (RFC 1350, section
/// 2).
#[inline(always)]
fn ends_elsewhere<D: Delivered>(
    store: &D,
    highest: u32,
    block_size: usize,
    number: u32,
    len: usize,
) -> bool
    requires highest { IsHighest (D.held store.now) highest }
    requires orderly { IsOrderly block_size (D.held store.now) }
    requires fits { len ≤ block_size }
    ensures wrong { result ≡ true → EndsElsewhere block_size (D.held store.now) number len }
    ensures right { result ≡ false → EndsThere block_size (D.held store.now) number len }
{
    // below the highest block each is whole, whether that one is the last or not
    if number < highest {
        return len < block_size;
    }
    match short_block(store, highest, block_size) {
        Some(last) => number > last || len == block_size,
        None => len < block_size && number <= highest,
    }
}

/// Whether a block can't have this length beside those that are held (RFC 1350, section 2; RFC 2348; RFC 2349).
#[inline(always)]
fn has_wrong_length<D: Delivered>(
    terms: &Terms,
    store: &D,
    highest: u32,
    number: u32,
    len: usize,
) -> bool
    requires sound { IsSound terms.now (D.held store.now) }
    requires highest { IsHighest (D.held store.now) highest }
    requires orderly { IsOrderly terms.now.blksize (D.held store.now) }
    ensures wrong { result ≡ true → (passed : List Datagram) → AreBlocks passed (D.held store.now) → HasWrongLength terms.now passed number len }
    ensures right { result ≡ false → HasRightLength terms.now (D.held store.now) number len }
{
    let block_size = terms.blksize;
    if len > usize::from(block_size) {
        return true;
    }
    match terms.size {
        Some(size) => !has_length_by_size(
            u64::from(block_size),
            size,
            u64::from(number),
            len as u64,
        ),
        None => ends_elsewhere(store, highest, usize::from(block_size), number, len),
    }
}

/// Whether it is a block above the greatest, or that block and not the last (RFC 1350, section 5).
fn is_beyond(terms: &Terms, number: u32, len: usize) -> bool
    ensures { IsTrue result ↔ ((terms.now.greatest < number) ⊎ ((number ≡ terms.now.greatest) × (terms.now.blksize ≤ len))) }
{
    number > terms.greatest || (number == terms.greatest && usize::from(terms.blksize) <= len)
}

/// The first rule that a block of this length breaks, of those that are the same at both ends and do not compare its
/// bytes (RFC 1350, sections 2, 4 and 5; RFC 2347; RFC 2348; RFC 2349; RFC 7440, section 4). `highest` is the highest
/// block that is held, or 0, and `acked` the highest ACK that the sender can go by.
#[inline(always)]
pub(crate) fn may_open<D: Delivered>(
    terms: &Terms,
    store: &D,
    highest: u32,
    zero: bool,
    acked: u32,
    number: u32,
    len: usize,
) -> Result<(), EndRule>
    requires sound { IsSound terms.now (D.held store.now) }
    requires highest { IsHighest (D.held store.now) highest }
    requires orderly { IsOrderly terms.now.blksize (D.held store.now) }
    requires taken { (k : ℕ) → 1 ≤ k → k ≤ acked → IsHeld (D.held store.now) k }
    ensures lawful { (passed : List Datagram) (bytes : List ℕ) → IsKnown terms.now passed (D.held store.now) zero acked → length bytes ≡ len
        → OnOk result (NoneBelow end_number (EndBroken terms.now passed (Data number bytes)) 23) }
    ensures first { (passed : List Datagram) (bytes : List ℕ) → IsKnown terms.now passed (D.held store.now) zero acked → length bytes ≡ len
        → IfErr result (FirstEndBroken terms.now passed (Data number bytes)) }
    ensures takes { OnOk result (Takes terms.now.blksize terms.now.windowsize (D.held store.now) number len) }
    ensures sized { OnOk result ((size : ℕ) → terms.now.size ≡ Some size → HasLengthBySize terms.now.blksize size number len) }
    ensures low { OnOk result (number ≤ terms.now.greatest) }
{
    if blocks_wait(terms, zero) {
        return Err(EndRule::NotStarted);
    }
    if number == 0 {
        return Err(EndRule::BlockZero);
    }
    if is_beyond(terms, number, len) {
        return Err(EndRule::BeyondBlock65535);
    }
    if has_wrong_length(terms, store, highest, number, len) {
        return Err(EndRule::BlockLength);
    }
    if u64::from(acked) + u64::from(terms.windowsize) < u64::from(number) {
        return Err(EndRule::WindowOverrun);
    }
    Ok(())
}

/// Holds a block, unless one with other bytes is held (RFC 1350, section 2).
#[inline(always)]
pub(crate) fn hold_block<D: Delivered>(
    store: &mut D,
    alloc: Global,
    number: u32,
    bytes: &[u8],
) -> Result<(), Rejection>
    requires { Takes (D.block_size store.old) (D.window store.old) (D.held store.old) number (length bytes.now) }
    ensures ok { OnOk result ((placing : Placing) × Places (D.held store.old) (D.held store.new) number bytes.now placing) }
    ensures same { OnOk result ((other : List ℕ) → map.get (D.held store.old) number ≡ Some other → other ≡ bytes.now) }
    ensures refused { IfErr result (CannotHold (D.held store.old) number bytes.now) }
    ensures err { OnErr result (D.held store.new ≡ D.held store.old) }
    ensures block_size { D.block_size store.new ≡ D.block_size store.old }
    ensures window { D.window store.new ≡ D.window store.old }
{
    match store.put(alloc, number, bytes)? {
        PutOutcome::New | PutOutcome::Same => Ok(()),
        PutOutcome::Differs => Err(Rejection::Broken(EndRule::BlockChanged)),
    }
}
