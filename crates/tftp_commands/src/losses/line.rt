ghost use Rattle.std.specs.Prelude.{◌≡◌, ◌⊎◌, ◌++◌, ◌∷◌, [], flat_map, string_bytes, IfOk, IfSome, OnOk};
ghost use Rattle.judge_losses.specs.{missing_at};
ghost use Rattle.tftp_commands.specs.Losses.{count_text, further_text, losses_line, place_text};

use judge_losses::Place;
use std::alloc::{AllocError, Global};

/// What is said where nothing was found.
pub const NONE_FOUND: &str = "no missing datagrams were found that would make it lawful\n";

/// The line of places where datagrams must be missing. Where there are none, or more datagrams than a number has, it says that none
/// were found.
pub fn line_of(alloc: Global, places: &[Place]) -> Result<String, AllocError>
    ensures { IfOk result (λ line. (string_bytes line ≡ losses_line places.now) ⊎ (string_bytes line ≡ losses_line [])) }
{
    let Some((first, further)) = places.split_first() else {
        return String::from_str(alloc, NONE_FOUND);
    };
    match count_missing(places) {
        Some(count) => lawful_if(alloc, count, *first, further),
        None => String::from_str(alloc, NONE_FOUND),
    }
}

/// How many datagrams are missing at all places, where 64 bits have that number.
fn count_missing(places: &[Place]) -> Option<u64>
    ensures { IfSome result (λ count. count ≡ missing_at places.now) }
{
    let mut count: u64 = 0;
    let mut rest = places;
    while let Some((place, later)) = rest.split_first() {
        count = count.checked_add(place.came)?.checked_add(place.sent)?;
        rest = later;
    }
    Some(count)
}

/// The line of so many datagrams, at a first place and further ones.
fn lawful_if(
    alloc: Global,
    count: u64,
    first: Place,
    further: &[Place],
) -> Result<String, AllocError>
    requires { count ≡ missing_at (first ∷ further.now) }
    ensures { IfOk result (λ line. string_bytes line ≡ losses_line (first ∷ further.now)) }
{
    let mut line = String::new(alloc);
    put_count(&mut line, count)?;
    put_place(&mut line, ": ", first)?;
    put_further(&mut line, further)?;
    line.push_str("\n")?;
    Ok(line)
}

fn put_count(line: &mut String, count: u64) -> Result<(), AllocError>
    ensures { OnOk result (string_bytes line.new ≡ string_bytes line.old ++ count_text count) }
{
    if count == 1 {
        return line.push_str("lawful if 1 datagram is missing");
    }
    write!(line, "lawful if {count} datagrams are missing")
}

fn put_further(line: &mut String, places: &[Place]) -> Result<(), AllocError>
    ensures { OnOk result (string_bytes line.new ≡ string_bytes line.old ++ flat_map further_text places.now) }
{
    for place in places {
        put_place(line, ", ", *place)?;
    }
    Ok(())
}

/// Puts a place behind what parts it from the words before.
fn put_place(line: &mut String, words: &str, place: Place) -> Result<(), AllocError>
    ensures { OnOk result (string_bytes line.new ≡ string_bytes line.old ++ words.now ++ place_text place) }
{
    let Place { before, came, sent } = place;
    if sent == 0 {
        return write!(line, "{words}{came} incoming before datagram {before}");
    }
    if came == 0 {
        return write!(line, "{words}{sent} outgoing before datagram {before}");
    }
    write!(
        line,
        "{words}{came} incoming and {sent} outgoing before datagram {before}"
    )
}
