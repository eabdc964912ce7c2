ghost use Rattle.std.specs.Prelude.{◌≡◌, ◌≢◌, ◌≤◌, ◌⊎◌, ◌↔◌, IsTrue, length, take, MatchOption};
ghost use Rattle.net_pcap.specs.Blocks.{order_magic, section_type};
ghost use Rattle.net_pcap.specs.Pieces.{front_of, BeginsAsOne};
ghost use Rattle.net_pcap.specs.Sizes.{BlockSizeTells, SizeTells};
ghost use Rattle.net_pcap.specs.Numbers.{number_at};
ghost use Rattle.net_pcap.specs.declared.numbers.Order.{Order};

use crate::blocks::LONGEST_FRAME;
use crate::classic::{HEAD, HEADER, magic_of};
use crate::fault::FaultKind;
use crate::layout::Layout;
use crate::numbers::Order;

/// The most bytes of a block.
const LONGEST_BLOCK: usize = 16_777_216;

/// How many bytes of a block are read first: its type, its length, and what in a section header names the order.
const FRONT: usize = 12;

/// Whether a block is a section header, by its type.
pub fn is_section(bytes: &[u8]) -> bool
    requires { 4 ≤ length bytes.now }
    ensures { IsTrue result ↔ (take 4 bytes.now ≡ section_type) }
{
    &bytes[..4] == [0x0a, 0x0d, 0x0d, 0x0a].as_slice()
}

/// The order of a section's numbers, by the four bytes that name it.
pub fn order_of(bytes: &[u8]) -> Option<Order>
    ensures { MatchOption result ((order : Order) → bytes.now ≢ order_magic order) (λ order. bytes.now ≡ order_magic order) }
{
    if bytes == [0x1a, 0x2b, 0x3c, 0x4d].as_slice() {
        Some(Order::Big)
    } else if bytes == [0x4d, 0x3c, 0x2b, 0x1a].as_slice() {
        Some(Order::Little)
    } else {
        None
    }
}

/// Whether bytes begin as a recording does.
pub fn begins_as_one(bytes: &[u8]) -> bool
    ensures { IsTrue result ↔ BeginsAsOne bytes.now }
{
    bytes.len() >= 4 && (is_section(bytes) || magic_of(&bytes[..4]).is_some())
}

/// How many bytes of a piece are read first.
pub fn front_of(layout: Layout) -> usize
    ensures { result ≡ front_of layout }
{
    match layout {
        Layout::Unopened | Layout::Blocks(_) => FRONT,
        Layout::Classic(_) => HEAD,
    }
}

/// How many bytes a block has, by its length in that order.
fn block_size(order: Order, front: &[u8]) -> Result<usize, FaultKind>
    requires { 12 ≤ length front.now }
    ensures { BlockSizeTells (number_at order front.now 4) result }
{
    let size = order.number(front, 4) as usize;
    if size > LONGEST_BLOCK {
        return Err(FaultKind::TooLong);
    }
    if size < FRONT || size % 4 != 0 {
        return Err(FaultKind::Bad);
    }
    Ok(size)
}

/// How many bytes a section header has, by its length in its own order.
fn section_size(front: &[u8]) -> Result<usize, FaultKind>
    requires enough { 12 ≤ length front.now }
    requires section { take 4 front.now ≡ section_type }
    ensures unopened { SizeTells Layout.Unopened front.now result }
    ensures blocks { (order : Order) → SizeTells (Layout.Blocks order) front.now result }
{
    let Some(order) = order_of(&front[8..12]) else {
        return Err(FaultKind::Bad);
    };
    block_size(order, front)
}

/// How many bytes the first piece has.
fn opening_size(front: &[u8]) -> Result<usize, FaultKind>
    requires { 12 ≤ length front.now }
    ensures { SizeTells Layout.Unopened front.now result }
{
    if is_section(front) {
        return section_size(front);
    }
    if magic_of(&front[..4]).is_none() {
        return Err(FaultKind::NotARecording);
    }
    Ok(HEADER)
}

/// How many bytes the piece has that begins so.
pub fn size_of(layout: Layout, front: &[u8]) -> Result<usize, FaultKind>
    requires { front_of layout ≤ length front.now }
    ensures { SizeTells layout front.now result }
{
    match layout {
        Layout::Unopened => opening_size(front),
        Layout::Classic(classic) => {
            let captured = classic.order.number(front, 8) as usize;
            if captured > LONGEST_FRAME {
                return Err(FaultKind::TooLong);
            }
            Ok(HEAD + captured)
        }
        Layout::Blocks(order) => {
            if is_section(front) {
                return section_size(front);
            }
            block_size(order, front)
        }
    }
}
