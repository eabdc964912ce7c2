//! Whether a name stands twice among many: of each name a number is made, and the numbers are sorted. Where no two are equal
//! no two names are. Whoever writes the names can choose long ones that differ and have one number; then the long names are
//! sorted themselves, and those of at most six bytes are spared that.

ghost use Rattle.std.specs.Prelude.{◌≡◌, ◌↔◌, ◌<◌, ◌≤◌, ◌∷◌, [], IsTrue, MatchOption, IfSome, IfNone, length, take, true, map as each};
ghost use Rattle.tftp_packet.specs.OptionMaps.{lower};
ghost use Rattle.tftp_packet.specs.Written.{pairs_of};
ghost use Rattle.tftp_packet.specs.Faults.{HasRepeat};
ghost use Rattle.tftp_packet.specs.Names.{HasTwo, HasTwoBeside, as_name, is_of, keys_in, mark_of};

use crate::name_order::has_repeat_in_order;
use crate::option_check::has_name;
use crate::text::split_pair;

/// So many options have most requests and OACKs.
const FEW: usize = 64;

/// So many have few.
const MANY: usize = 1_024;

/// The numbers of so many names have room on a stack of 100 KB.
const MOST: usize = 6_144;

/// Names of so many bytes or more are long. No two shorter ones have one number.
const LONG: usize = 7;

/// What the number of a name is multiplied by at each step: the odd number next to 2^64 over the golden ratio.
const FACTOR: u64 = 0x9E37_79B9_7F4A_7C15;

/// Whether two options have one name, letter case ignored, where there are so many. Takes no memory.
#[inline(never)]
pub(crate) fn has_repeat_of_many(bytes: &[u8], options: usize) -> bool
    ensures { IsTrue result ↔ HasRepeat (pairs_of bytes.now) }
{
    has_repeat_in(bytes, options, false) || has_repeat_in(bytes, options, true)
}

/// Whether two long names are equal, or two of the others.
fn has_repeat_in(bytes: &[u8], options: usize, long: bool) -> bool
    ensures { IsTrue result ↔ HasTwo (keys_in long bytes.now) }
{
    match repeated_mark(bytes, options, long) {
        None => false,
        Some(wanted) => {
            has_repeat_of_mark(bytes, wanted, long) || has_repeat_in_order(bytes, options, long)
        }
    }
}

/// A number that two names may have, in as much room as so many options want; none where no two of those names are equal.
fn repeated_mark(bytes: &[u8], options: usize, long: bool) -> Option<u64>
    ensures { IfNone result (HasTwo (keys_in long bytes.now) → ⊥) }
{
    if options <= FEW {
        repeated_among(bytes, &mut [0; FEW], long)
    } else if options <= MANY {
        repeated_among_many(bytes, long)
    } else {
        repeated_among_most(bytes, long)
    }
}

/// The same in more room. It is a function of its own, so that this room is cleared for many options alone.
#[inline(never)]
fn repeated_among_many(bytes: &[u8], long: bool) -> Option<u64>
    ensures { IfNone result (HasTwo (keys_in long bytes.now) → ⊥) }
{
    repeated_among(bytes, &mut [0; MANY], long)
}

/// The same in more room yet.
#[inline(never)]
fn repeated_among_most(bytes: &[u8], long: bool) -> Option<u64>
    ensures { IfNone result (HasTwo (keys_in long bytes.now) → ⊥) }
{
    repeated_among(bytes, &mut [0; MOST], long)
}

/// A number that two names may have, also where there is no room for all; none where no two of those names are equal.
fn repeated_among(bytes: &[u8], marks: &mut [u64], long: bool) -> Option<u64>
    ensures { IfNone result (HasTwo (keys_in long bytes.now) → ⊥) }
{
    let Some(count) = gather_marks(bytes, marks, long) else {
        return Some(0);
    };
    repeated_in(&mut marks[..count])
}

/// Puts the numbers of those names into the array, and gives how many these are; none where there is no room.
fn gather_marks(bytes: &[u8], marks: &mut [u64], long: bool) -> Option<usize>
    ensures within { IfSome result (λ count. count ≤ length marks.new) }
    ensures all { IfSome result (λ count. take count marks.new ≡ each mark_of (keys_in long bytes.now)) }
{
    let mut count = 0;
    let mut rest = bytes;
    while let Some((name, after)) = next_name(rest, long) {
        if count == marks.len() {
            return None;
        }
        marks[count] = mark(name);
        count += 1;
        rest = after;
    }
    Some(count)
}

/// Whether a name is long, or is not, as is asked.
#[inline]
fn is_of(name: &[u8], long: bool) -> bool
    ensures { result ≡ is_of long (lower name.now) }
{
    match long {
        true => name.len() >= LONG,
        false => name.len() < LONG,
    }
}

/// The first name that is long, or is not, and the options behind it.
#[inline]
pub(crate) fn next_name(bytes: &[u8], long: bool) -> Option<(&[u8], &[u8])>
    ensures { MatchOption result
        (keys_in long bytes.now ≡ [])
        (λ parts. (keys_in long bytes.now ≡ lower parts.0.now ∷ keys_in long parts.1.now) × (length parts.1.now < length bytes.now)
        × (is_of long (lower parts.0.now) ≡ true)) }
{
    let mut rest = bytes;
    while let Some((name, _, after)) = split_pair(rest) {
        if is_of(name, long) {
            return Some((name, after));
        }
        rest = after;
    }
    None
}

/// A number that stands twice; none where each stands once. Leaves the numbers in order.
fn repeated_in(marks: &mut [u64]) -> Option<u64>
    ensures { IfNone result (HasTwo (each as_name marks.old) → ⊥) }
{
    marks.sort_unstable();
    repeated_beside(marks)
}

/// A number that is equal to the one that follows it.
fn repeated_beside(marks: &[u64]) -> Option<u64>
    ensures { IfNone result (HasTwoBeside (each as_name marks.now) → ⊥) }
{
    let mut rest = marks;
    while let [first, after @ ..] = rest {
        if let [next, ..] = after {
            if *first == *next {
                return Some(*first);
            }
        }
        rest = after;
    }
    None
}

/// Whether the first name of this number stands twice.
fn has_repeat_of_mark(bytes: &[u8], wanted: u64, long: bool) -> bool
    ensures { result ≡ true → HasTwo (keys_in long bytes.now) }
{
    let mut rest = bytes;
    while let Some((name, after)) = next_name(rest, long) {
        if mark(name) == wanted {
            return has_name(after, name);
        }
        rest = after;
    }
    false
}

#[tactic(auto, using(crate::proofs::NameMarks::two_mixed), unfolding(crate::specs::Names::mark_of))]
/// The number of a name. Letter case counts for nothing.
fn mark(name: &[u8]) -> u64
    ensures { result ≡ mark_of (lower name.now) }
{
    let mut mark: u64 = 0;
    let mut left = name;
    while let [first, second, rest @ ..] = left {
        let (low, high) = (first.to_ascii_lowercase(), second.to_ascii_lowercase());
        let two = u64::from(low) + 256 * u64::from(high);
        mark = mark.wrapping_add(two).wrapping_mul(FACTOR);
        left = rest;
    }
    if let [last] = left {
        let one = u64::from(last.to_ascii_lowercase());
        mark = mark.wrapping_add(one).wrapping_mul(FACTOR);
    }
    mark
}
