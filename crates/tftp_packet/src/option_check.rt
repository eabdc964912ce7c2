ghost use Rattle.std.specs.Prelude.{◌≡◌, ◌↔◌, ◌%◌, ◌==◌, [], IsTrue, count_by};
ghost use Rattle.tftp_packet.specs.OptionMaps.{lower};
ghost use Rattle.tftp_packet.specs.Written.{pairs_of};
ghost use Rattle.tftp_packet.specs.Faults.{AnyOf, HasRepeat};

use crate::name_marks::has_repeat_of_many;
use crate::text::split_pair;

/// Up to so many strings, each option is compared with each later one.
const FEW_STRINGS: usize = 16;

/// How many strings end in the bytes.
pub fn string_count(bytes: &[u8]) -> usize
    ensures { result ≡ count_by (λ b. b == 0) bytes.now }
{
    bytes.iter().filter(|byte| **byte == 0).count()
}

/// Whether some option has a name without bytes.
pub fn has_empty_name(bytes: &[u8]) -> bool
    ensures { IsTrue result ↔ AnyOf (λ pair. pair.0 ≡ []) (pairs_of bytes.now) }
{
    let mut rest = bytes;
    while let Some((name, _, after)) = split_pair(rest) {
        if name.is_empty() {
            return true;
        }
        rest = after;
    }
    false
}

/// Whether two options have one name, letter case ignored, by `strings`, how many strings there are. No memory is taken: of
/// the names of more than 8 options numbers are sorted on the stack.
pub fn has_repeat(bytes: &[u8], strings: usize) -> bool
    ensures { IsTrue result ↔ HasRepeat (pairs_of bytes.now) }
{
    if strings <= FEW_STRINGS {
        has_repeat_of_few(bytes)
    } else {
        has_repeat_of_many(bytes, strings / 2)
    }
}

/// Whether two options have one name. Compares each with each later one.
pub(crate) fn has_repeat_of_few(bytes: &[u8]) -> bool
    ensures { IsTrue result ↔ HasRepeat (pairs_of bytes.now) }
{
    let mut rest = bytes;
    while let Some((name, _, after)) = split_pair(rest) {
        if has_name(after, name) {
            return true;
        }
        rest = after;
    }
    false
}

/// Whether some option has this name, letter case ignored.
pub(crate) fn has_name(bytes: &[u8], name: &[u8]) -> bool
    ensures { IsTrue result ↔ AnyOf (λ pair. lower name.now ≡ lower pair.0) (pairs_of bytes.now) }
{
    let mut rest = bytes;
    while let Some((other, _, after)) = split_pair(rest) {
        if name.eq_ignore_ascii_case(other) {
            return true;
        }
        rest = after;
    }
    false
}
