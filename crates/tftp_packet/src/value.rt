ghost use Rattle.std.specs.Prelude.{◌≡◌, ◌^◌, ◌<◌, ◌↔◌, IsTrue, SomeIff, IfOk};
ghost use Rattle.std.specs.Str.Parse.{IsNumeral, digits_value};
ghost use Rattle.tftp_packet.specs.Owned.{shown};
ghost use Rattle.tftp_packet.specs.OptionMaps.{lower, range_of, number_in, value_of};

use crate::byte_list::Bytes;
use std::alloc::{AllocError, Global};

/// What an option's value says.
#[derive(Debug, Drop)]
pub enum Value {
    /// The number of a known option, in its range (RFC 2348, RFC 2349, RFC 7440).
    Num(u64),
    /// The bytes of any other value, perhaps none.
    Text(Bytes),
}

/// The least and the greatest number of a known option (RFC 2348, RFC 2349, RFC 7440). Letter case counts for nothing.
fn known_range(name: &[u8]) -> Option<(u64, u64)>
    ensures { result ≡ range_of (lower name.now) }
{
    if name.eq_ignore_ascii_case(b"blksize") {
        Some((8, 65464))
    } else if name.eq_ignore_ascii_case(b"timeout") {
        Some((1, 255))
    } else if name.eq_ignore_ascii_case(b"tsize") {
        Some((0, u64::MAX))
    } else if name.eq_ignore_ascii_case(b"windowsize") {
        Some((1, 65535))
    } else {
        None
    }
}

/// The number that decimal digits write, if it fits; leading zeros count for nothing.
fn parse_number(text: &[u8]) -> Option<u64>
    ensures { SomeIff result (IsNumeral 10 text.now × (digits_value 10 text.now < 2 ^ 64)) (digits_value 10 text.now) }
{
    let mut number: u64 = 0;
    for byte in text {
        if !byte.is_ascii_digit() {
            return None;
        }
        number = number
            .checked_mul(10)?
            .checked_add(u64::from(*byte - b'0'))?;
    }
    if text.is_empty() { None } else { Some(number) }
}

/// The number that a text is under an option's name, where the option is known and the number is in its range.
pub fn number_of(name: &[u8], text: &[u8]) -> Option<u64>
    ensures { result ≡ number_in (value_of (lower name.now) text.now) }
{
    let (least, greatest) = known_range(name)?;
    let number = parse_number(text)?;
    if least <= number && number <= greatest {
        Some(number)
    } else {
        None
    }
}

/// What a text says under an option's name.
#[tactic(auto, using(crate::proofs::Values::text_value))]
pub fn read_value(alloc: Global, name: &[u8], text: &[u8]) -> Result<Value, AllocError>
    ensures { IfOk result (λ v. shown v ≡ value_of (lower name.now) text.now) }
{
    match number_of(name, text) {
        Some(number) => Ok(Value::Num(number)),
        None => {
            let text = Vec::from_slice(alloc, text)?;
            Ok(Value::Text(Bytes::of(text)))
        }
    }
}

/// Whether a value says what a text says under an option's name.
pub fn is_value_of(value: &Value, name: &[u8], text: &[u8]) -> bool
    ensures { IsTrue result ↔ (shown value.now ≡ value_of (lower name.now) text.now) }
{
    match (value, number_of(name, text)) {
        (Value::Num(number), Some(other)) => *number == other,
        (Value::Text(bytes), None) => bytes.as_slice() == text,
        _ => false,
    }
}
