//! Some digits at once, in the lanes of a vector.

ghost use Rattle.std.specs.Prelude.{◌≡◌, false, true, length, Ok, IsErr};
ghost use Rattle.hex.specs.Hex.{decode_of};
ghost use Rattle.net_streams.specs.Digits.Digits.{AreNibbles};

use std::simd::prelude::*;

/// The value of each digit of either case, and 16 or more for every other byte.
#[inline(always)]
fn nibbles<const N: usize>(digits: Simd<u8, N>) -> Simd<u8, N>
    ensures { AreNibbles digits.entry result }
{
    let digit = (digits + Simd::splat(0xff - b'9')).saturating_sub(Simd::splat(6))
        - Simd::splat(0xf0);
    let letter = ((digits - Simd::splat(b'A')) & Simd::splat(0xdf)) + Simd::splat(10);
    digit.simd_min(letter)
}

/// Decodes sixteen digits, and answers whether all are digits; where one is not, what was written is not specified.
#[inline(always)]
pub(crate) fn decode_16(digits: &[u8], bytes: &mut [u8]) -> bool
    requires digits { length digits.now ≡ 16 }
    requires bytes { length bytes.old ≡ 8 }
    ensures decoded { result ≡ true → decode_of digits.now ≡ Ok bytes.new }
    ensures refused { result ≡ false → IsErr (decode_of digits.now) }
{
    let nibbles = nibbles(u8x16::from_slice(digits));
    let high = nibbles.swizzle([0, 2, 4, 6, 8, 10, 12, 14]);
    let low = nibbles.swizzle([1, 3, 5, 7, 9, 11, 13, 15]);
    ((high << 4) + low).copy_to_slice(bytes);
    nibbles.simd_gt(u8x16::splat(15)).to_bitmask() == 0
}

/// The same of eight digits.
#[inline(always)]
pub(crate) fn decode_8(digits: &[u8], bytes: &mut [u8]) -> bool
    requires digits { length digits.now ≡ 8 }
    requires bytes { length bytes.old ≡ 4 }
    ensures decoded { result ≡ true → decode_of digits.now ≡ Ok bytes.new }
    ensures refused { result ≡ false → IsErr (decode_of digits.now) }
{
    let nibbles = nibbles(u8x8::from_slice(digits));
    let high = nibbles.swizzle([0, 2, 4, 6]);
    let low = nibbles.swizzle([1, 3, 5, 7]);
    ((high << 4) + low).copy_to_slice(bytes);
    nibbles.simd_gt(u8x8::splat(15)).to_bitmask() == 0
}
