ghost use Rattle.std.specs.Prelude.{◌≡◌, ◌*◌, ◌≤◌, length, take};
ghost use Rattle.hex.specs.Hex.{encode_lower};

use std::simd::prelude::*;

/// The digits, in lower case.
const DIGITS: [u8; 16] = *b"0123456789abcdef";

/// How many bytes are encoded at once.
const LANES: usize = 32;

/// The two digits of each of 32 bytes, which are looked up by sixteen.
#[inline(always)]
fn digits_of_32(bytes: u8x32) -> u8x64
    ensures { result ≡ encode_lower bytes }
{
    let table = u8x16::from_array(DIGITS).swizzle([
        0, 1, 2, 3, 4, 5, 6, 7, 8, 9, 10, 11, 12, 13, 14, 15, 0, 1, 2, 3, 4, 5, 6, 7, 8, 9, 10, 11,
        12, 13, 14, 15,
    ]);
    let high = table.swizzle_dyn_within::<16>(bytes >> 4);
    let low = table.swizzle_dyn_within::<16>(bytes & u8x32::splat(15));
    high.shuffle(
        low,
        [
            0, 32, 1, 33, 2, 34, 3, 35, 4, 36, 5, 37, 6, 38, 7, 39, 8, 40, 9, 41, 10, 42, 11, 43,
            12, 44, 13, 45, 14, 46, 15, 47, 16, 48, 17, 49, 18, 50, 19, 51, 20, 52, 21, 53, 22, 54,
            23, 55, 24, 56, 25, 57, 26, 58, 27, 59, 28, 60, 29, 61, 30, 62, 31, 63,
        ],
    )
}

/// The same of sixteen bytes.
#[inline(always)]
fn digits_of_16(bytes: u8x16) -> u8x32
    ensures { result ≡ encode_lower bytes }
{
    let table = u8x16::from_array(DIGITS);
    let high = table.swizzle_dyn(bytes >> 4);
    let low = table.swizzle_dyn(bytes & u8x16::splat(15));
    high.shuffle(
        low,
        [
            0, 16, 1, 17, 2, 18, 3, 19, 4, 20, 5, 21, 6, 22, 7, 23, 8, 24, 9, 25, 10, 26, 11, 27,
            12, 28, 13, 29, 14, 30, 15, 31,
        ],
    )
}

/// Writes the digits of 32 bytes at a time, while there are so many, and answers how many bytes those were.
fn encode_blocks(bytes: &[u8], digits: &mut [u8]) -> usize
    requires { length digits.old ≡ 2 * length bytes.now }
    ensures within { result ≤ length bytes.now }
    ensures written { take (2 * result) digits.new ≡ encode_lower (take result bytes.now) }
    ensures len { length digits.new ≡ length digits.old }
{
    let mut done = 0;
    while bytes.len() - done >= LANES {
        let block = u8x32::from_slice(&bytes[done..]);
        digits_of_32(block).copy_to_slice(&mut digits[2 * done..]);
        done += LANES;
    }
    done
}

/// Goes on with sixteen bytes, if there are so many, where `from` are written.
#[inline(always)]
fn encode_half(bytes: &[u8], digits: &mut [u8], from: usize) -> usize
    requires len { length digits.old ≡ 2 * length bytes.now }
    requires within { from ≤ length bytes.now }
    requires written { take (2 * from) digits.old ≡ encode_lower (take from bytes.now) }
    ensures within { result ≤ length bytes.now }
    ensures written { take (2 * result) digits.new ≡ encode_lower (take result bytes.now) }
    ensures len { length digits.new ≡ length digits.old }
{
    if bytes.len() - from < LANES / 2 {
        return from;
    }
    let half = u8x16::from_slice(&bytes[from..]);
    digits_of_16(half).copy_to_slice(&mut digits[2 * from..]);
    from + LANES / 2
}

#[tactic(auto, using(crate::proofs::DigitsLemmas::Lanes::digits_of_four))]
/// The two digits of each of four bytes: those of sixteen, of which the others are zero.
#[inline(always)]
fn digits_of_4(bytes: u8x4) -> u8x8
    ensures { result ≡ encode_lower bytes }
{
    let wide = bytes.shuffle(
        u8x4::splat(0),
        [0, 1, 2, 3, 4, 4, 4, 4, 4, 4, 4, 4, 4, 4, 4, 4],
    );
    digits_of_16(wide).swizzle([0, 1, 2, 3, 4, 5, 6, 7])
}

/// Goes on with four bytes at a time, where `from` are written.
#[inline(always)]
fn encode_fours(bytes: &[u8], digits: &mut [u8], from: usize) -> usize
    requires len { length digits.old ≡ 2 * length bytes.now }
    requires within { from ≤ length bytes.now }
    requires written { take (2 * from) digits.old ≡ encode_lower (take from bytes.now) }
    ensures within { result ≤ length bytes.now }
    ensures written { take (2 * result) digits.new ≡ encode_lower (take result bytes.now) }
    ensures len { length digits.new ≡ length digits.old }
{
    let mut done = from;
    while bytes.len() - done >= 4 {
        let four = u8x4::from_slice(&bytes[done..]);
        digits_of_4(four).copy_to_slice(&mut digits[2 * done..]);
        done += 4;
    }
    done
}

/// Writes the digits of one byte after another.
fn encode_rest(bytes: &[u8], digits: &mut [u8])
    requires { length digits.old ≡ 2 * length bytes.now }
    ensures { digits.new ≡ encode_lower bytes.now }
{
    for i in 0..bytes.len() {
        let byte = bytes[i];
        digits[2 * i] = DIGITS[(byte / 16) as usize];
        digits[2 * i + 1] = DIGITS[(byte % 16) as usize];
    }
}

/// Writes each byte as two digits, in lower case.
pub fn encode(bytes: &[u8], digits: &mut [u8])
    requires { length digits.old ≡ 2 * length bytes.now }
    ensures { digits.new ≡ encode_lower bytes.now }
{
    let many = encode_blocks(bytes, digits);
    let more = encode_half(bytes, digits, many);
    let done = encode_fours(bytes, digits, more);
    encode_rest(&bytes[done..], &mut digits[2 * done..]);
}
