ghost use Rattle.std.specs.Prelude.{◌≡◌, ◌≤◌, Option, Some, None};
ghost use Rattle.tftp_packet.specs.Rounds.{Rollover, greatest_of};

use crate::rounds::rollover::Rollover;

/// The greatest block of two bytes (RFC 1350, section 5).
const GREATEST_NUMBER: u32 = 65_535;

/// The greatest block where numbers begin again.
const GREATEST_AGAIN: u32 = 8_388_607;

/// The greatest block of a transfer: 65535 (RFC 1350, section 5), and 8388607 where numbers begin again. Takes no memory.
#[inline]
pub fn greatest_block(rollover: Option<Rollover>) -> u32
    ensures { result ≡ greatest_of rollover }
{
    match rollover {
        None => GREATEST_NUMBER,
        Some(_) => GREATEST_AGAIN,
    }
}

/// Without a rollover the greatest block is the greatest number of two bytes. With one it is 2^23 - 1.
pub fn greatest_is_one_of_two()
    ensures none { greatest_of None ≡ 65535 }
    ensures some { (rollover : Rollover) → greatest_of (Some rollover) ≡ 8388607 }
    ensures least { (rollover : Option Rollover) → 65535 ≤ greatest_of rollover }
    ensures most { (rollover : Option Rollover) → greatest_of rollover ≤ 8388607 }
{}
