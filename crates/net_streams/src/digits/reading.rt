ghost use Rattle.std.specs.Prelude.{◌≡◌, ◌≤◌, ◌*◌, ◌/◌, ◌⊎◌, false, true, length, take, drop, None, Ok, Err, IsErr, IfErr, IfSome, OnOk, MatchResult};
ghost use Rattle.std.specs.Vec.{vec_capacity};
ghost use Rattle.hex.specs.Hex.{decode_of, decode_sized};
ghost use Rattle.hex.specs.declared.error.FromHexError.TheVariants.{OutOfMemory};
ghost use Rattle.net_streams.specs.Digits.Digits.{IsNibble};

use crate::digits::vectors::{decode_8, decode_16};
use hex::FromHexError;

/// How many bytes a vector of the loop over each makes.
const MANY: usize = 32;

/// The value of a digit of either case, and 16 or more for every other byte.
#[inline(always)]
fn nibble(byte: u8) -> u8
    ensures { IsNibble byte result }
{
    let digit = byte
        .wrapping_add(0xff - b'9')
        .saturating_sub(6)
        .wrapping_sub(0xf0);
    let letter = (byte.wrapping_sub(b'A') & 0xdf).wrapping_add(10);
    digit.min(letter)
}

/// Decodes each pair of digits without a branch on any of them, and answers whether all are digits; where one is not,
/// what was written is not specified.
#[inline(never)]
fn decode_each(digits: &[u8], bytes: &mut [u8]) -> bool
    requires { length digits.now ≡ 2 * length bytes.old }
    ensures decoded { result ≡ true → decode_of digits.now ≡ Ok bytes.new }
    ensures refused { result ≡ false → IsErr (decode_of digits.now) }
{
    let mut most = 0u8;
    let mut rest = digits;
    for byte in bytes.iter_mut() {
        let high = nibble(rest[0]);
        let low = nibble(rest[1]);
        most = most.max(high).max(low);
        *byte = high.wrapping_mul(16).wrapping_add(low);
        rest = rest.split_at(2).1;
    }
    most < 16
}

/// The same of fewer than eight bytes: eight digits at once, where there are so many, and the others one by one. Four are
/// left of most packets, since a block has a multiple of eight behind its four bytes of opcode and number.
#[inline(always)]
fn decode_last(digits: &[u8], bytes: &mut [u8]) -> bool
    requires { length digits.now ≡ 2 * length bytes.old }
    ensures decoded { result ≡ true → decode_of digits.now ≡ Ok bytes.new }
    ensures refused { result ≡ false → IsErr (decode_of digits.now) }
{
    if bytes.len() < 4 {
        return decode_each(digits, bytes);
    }
    if bytes.len() == 4 {
        return decode_8(digits, bytes);
    }
    decode_8(&digits[..8], &mut bytes[..4]) && decode_each(&digits[8..], &mut bytes[4..])
}

/// The same of a few bytes: by sixteen digits at once, while there are so many. A vector of the loop over each takes more.
#[inline(always)]
fn decode_few(digits: &[u8], bytes: &mut [u8]) -> bool
    requires { length digits.now ≡ 2 * length bytes.old }
    ensures decoded { result ≡ true → decode_of digits.now ≡ Ok bytes.new }
    ensures refused { result ≡ false → IsErr (decode_of digits.now) }
{
    let mut done = 0;
    while bytes.len() - done >= 8 {
        if !decode_16(&digits[2 * done..2 * done + 16], &mut bytes[done..done + 8]) {
            return false;
        }
        done += 8;
    }
    decode_last(&digits[2 * done..], &mut bytes[done..])
}

/// The same of any number: by vectors of the loop over each as far as they go, and then of the few that are left.
#[inline(always)]
fn decode_pairs(digits: &[u8], bytes: &mut [u8]) -> bool
    requires { length digits.now ≡ 2 * length bytes.old }
    ensures decoded { result ≡ true → decode_of digits.now ≡ Ok bytes.new }
    ensures refused { result ≡ false → IsErr (decode_of digits.now) }
{
    if bytes.len() < MANY {
        return decode_few(digits, bytes);
    }
    let many = bytes.len() / MANY * MANY;
    decode_each(&digits[..2 * many], &mut bytes[..many])
        && decode_few(&digits[2 * many..], &mut bytes[many..])
}

/// Goes on with digits of which more have come: decodes the pairs behind those of the first `done` bytes, and answers how
/// many bytes are decoded then. None where a sign is no digit; what was written is not specified then. A digit whose pair
/// has not come yet waits.
pub fn decode_on(digits: &[u8], bytes: &mut [u8], done: usize) -> Option<usize>
    requires room { length digits.now / 2 ≤ length bytes.old }
    requires within { 2 * done ≤ length digits.now }
    requires done { decode_of (take (2 * done) digits.now) ≡ Ok (take done bytes.old) }
    ensures decoded { IfSome result (λ count. (count ≡ length digits.now / 2) × (decode_of (take (2 * count) digits.now) ≡ Ok (take count bytes.new))) }
    ensures refused { result ≡ None → IsErr (decode_of (take (2 * (length digits.now / 2)) digits.now)) }
    ensures behind { drop (length digits.now / 2) bytes.new ≡ drop (length digits.now / 2) bytes.old }
    ensures len { length bytes.new ≡ length bytes.old }
{
    let count = digits.len() / 2;
    if decode_pairs(&digits[2 * done..2 * count], &mut bytes[done..count]) {
        Some(count)
    } else {
        None
    }
}

/// Decodes as `hex::decode_to_slice` does, which names what is wrong where no payload is spelled.
#[inline(always)]
fn decode_to_slice(digits: &[u8], bytes: &mut [u8]) -> Result<(), FromHexError>
    ensures value { MatchResult (decode_sized digits.now (length bytes.old))
        (λ decoded. (result ≡ Ok tt) × (bytes.new ≡ decoded))
        (λ fault. result ≡ Err fault) }
{
    if digits.len() % 2 == 0 && digits.len() / 2 == bytes.len() && decode_pairs(digits, bytes) {
        return Ok(());
    }
    hex::decode_to_slice(digits, bytes)
}

/// Decodes as `hex::decode` does, in the memory of a vector, which holds these bytes then and no others. After a fault
/// what it holds is not specified.
#[inline(always)]
pub fn decode(digits: &[u8], bytes: &mut Vec<u8>) -> Result<(), FromHexError>
    ensures ok { OnOk result (decode_of digits.now ≡ Ok bytes.new.items) }
    ensures room { length digits.now / 2 ≤ vec_capacity bytes.old → MatchResult (decode_of digits.now) (λ _. result ≡ Ok tt) (λ fault. result ≡ Err fault) }
    ensures err { IfErr result (λ fault. (fault ≡ OutOfMemory) ⊎ (decode_of digits.now ≡ Err fault)) }
    ensures kept { vec_capacity bytes.old ≤ vec_capacity bytes.new }
{
    bytes.resize(digits.len() / 2, 0)?;
    decode_to_slice(digits, bytes.as_mut_slice())
}
