//! Whether a name stands twice among many, by sorting them: for names that were chosen so that their numbers tell nothing.

ghost use Rattle.std.specs.Prelude.{◌≡◌, ◌↔◌, ◌≤◌, ◌<◌, ◌++◌, ◌∷◌, [], IsTrue, MatchBool, MatchOption, length, take, map as each};
ghost use Rattle.std.specs.Ordering.{nat_cmp, is_lt};
ghost use Rattle.std.specs.List.Sorted.{IsSortedBy};
ghost use Rattle.std.specs.Cmp.Lexicographic.{slice_cmp};
ghost use Rattle.tftp_packet.specs.OptionMaps.{lower};
ghost use Rattle.tftp_packet.specs.Faults.{AnyOf};
ghost use Rattle.tftp_packet.specs.Names.{HasTwo, HasTwoBeside, HasCommon, keys_in};

use crate::name_marks::next_name;
use std::cmp::Ordering;

/// So many options have most requests and OACKs.
const FEW: usize = 64;

/// So many have few.
const MANY: usize = 1_024;

/// So many names have room on a stack of 100 KB.
const MOST: usize = 3_072;

/// Whether two long names are equal, or two of the others, letter case ignored, where there are so many options. Takes no
/// memory: as many names are sorted as have room on the stack, and those after them are looked for among them.
pub(crate) fn has_repeat_in_order(bytes: &[u8], options: usize, long: bool) -> bool
    ensures { IsTrue result ↔ HasTwo (keys_in long bytes.now) }
{
    if options <= FEW {
        has_repeat_among(bytes, long, &mut [b"".as_slice(); FEW])
    } else if options <= MANY {
        has_repeat_among_many(bytes, long)
    } else {
        has_repeat_among_most(bytes, long)
    }
}

/// The same in more room. It is a function of its own, so that this room is cleared for many options alone.
#[inline(never)]
fn has_repeat_among_many(bytes: &[u8], long: bool) -> bool
    ensures { IsTrue result ↔ HasTwo (keys_in long bytes.now) }
{
    has_repeat_among(bytes, long, &mut [b"".as_slice(); MANY])
}

/// The same in more room yet.
#[inline(never)]
fn has_repeat_among_most(bytes: &[u8], long: bool) -> bool
    ensures { IsTrue result ↔ HasTwo (keys_in long bytes.now) }
{
    has_repeat_among(bytes, long, &mut [b"".as_slice(); MOST])
}

/// The same in the room of this array, for as many names at a time as it has.
fn has_repeat_among<'a>(bytes: &'a [u8], long: bool, names: &mut [&'a [u8]]) -> bool
    requires { 0 < length names.old }
    ensures { IsTrue result ↔ HasTwo (keys_in long bytes.now) }
{
    let mut left = bytes;
    while !left.is_empty() {
        let (count, rest) = gather(left, long, names);
        if count == 0 {
            return false;
        }
        if has_equal(&mut names[..count], rest, long) {
            return true;
        }
        left = rest;
    }
    false
}

/// Puts the first of those names into the array, as many as have room, and gives their number and the options that are left.
fn gather<'a>(bytes: &'a [u8], long: bool, names: &mut [&'a [u8]]) -> (usize, &'a [u8])
    ensures len { length names.new ≡ length names.old }
    ensures within { result.0 ≤ length names.new }
    ensures all { each (λ name. lower name.now) (take result.0 names.new) ++ keys_in long result.1.now ≡ keys_in long bytes.now }
    ensures some { 0 < result.0 → length result.1.now < length bytes.now }
    ensures none { result.0 ≡ 0 → 0 < length names.new → keys_in long bytes.now ≡ [] }
{
    let mut count = 0;
    let mut rest = bytes;
    while let Some((name, after)) = next_name(rest, long) {
        if count == names.len() {
            return (count, rest);
        }
        names[count] = name;
        count += 1;
        rest = after;
    }
    (count, rest)
}

/// Whether two of the names, or one of them and one that is left, are equal, letter case ignored. Leaves the names in order.
fn has_equal(names: &mut [&[u8]], rest: &[u8], long: bool) -> bool
    ensures { let keys = each (λ name. lower name.now) names.old in MatchBool result
        (HasTwo (keys ++ keys_in long rest.now))
        ((HasTwo keys → ⊥) × (HasCommon keys (keys_in long rest.now) → ⊥)) }
{
    names.sort_unstable_by(|name, other| compare_names(name, other));
    has_two_beside(names) || has_common(names, rest, long)
}

/// Whether two names side by side are equal, letter case ignored.
fn has_two_beside(names: &[&[u8]]) -> bool
    ensures { IsTrue result ↔ HasTwoBeside (each (λ name. lower name.now) names.now) }
{
    let mut rest = names;
    while let [name, after @ ..] = rest {
        if let [next, ..] = after {
            if name.eq_ignore_ascii_case(next) {
                return true;
            }
        }
        rest = after;
    }
    false
}

/// Whether one of the options has one of the names, which are in order.
fn has_common(names: &[&[u8]], bytes: &[u8], long: bool) -> bool
    requires { IsSortedBy (λ x y. is_lt (slice_cmp nat_cmp (lower x.now) (lower y.now))) names.now }
    ensures { IsTrue result ↔ HasCommon (each (λ name. lower name.now) names.now) (keys_in long bytes.now) }
{
    let mut rest = bytes;
    while let Some((name, after)) = next_name(rest, long) {
        if is_among(names, name) {
            return true;
        }
        rest = after;
    }
    false
}

/// Whether a name is among names in order.
fn is_among(names: &[&[u8]], name: &[u8]) -> bool
    requires { IsSortedBy (λ x y. is_lt (slice_cmp nat_cmp (lower x.now) (lower y.now))) names.now }
    ensures { IsTrue result ↔ AnyOf (λ key. lower name.now ≡ key) (each (λ name. lower name.now) names.now) }
{
    names
        .binary_search_by(|other| compare_names(other, name))
        .is_ok()
}

/// The order of two names, letter case ignored.
pub(crate) fn compare_names(name: &[u8], other: &[u8]) -> Ordering
    ensures { result ≡ slice_cmp nat_cmp (lower name.now) (lower other.now) }
{
    let mut left = name;
    let mut right = other;
    while let [x, xs @ ..] = left {
        let [y, ys @ ..] = right else {
            return Ordering::Greater;
        };
        let order = x.to_ascii_lowercase().cmp(&y.to_ascii_lowercase());
        if order != Ordering::Equal {
            return order;
        }
        left = xs;
        right = ys;
    }
    if right.is_empty() {
        Ordering::Equal
    } else {
        Ordering::Less
    }
}
