ghost use Rattle.std.specs.Prelude.{◌≡◌, ◌≢◌, ℕ, List, ◌↔◌, IsTrue, MatchOption, option_map};
ghost use Rattle.tftp_packet.specs.{Rollover as RolloverKind};
ghost use Rattle.tftp_words.specs.Parts.{Begins, Gives, IsName, IsPlain, IsPort, IsTransfer, IsValue, end_word, option_name, part, point_word, rollover_word};
ghost use Rattle.tftp_words.specs.declared.point.Point.{Point as PointKind};

use crate::point::Point;
use std::str::FromStr;
use tftp_packet::End;
use tftp_packet::rounds::Rollover;

/// A part of the words.
#[derive(Clone, Copy)]
pub enum Part<'a> {
    /// A port to which requests go.
    Service(u16),
    /// The answer is wanted in JSON.
    Json,
    /// Where the recording was made.
    End(Point),
    /// What comes after block 65535.
    Rollover(Rollover),
    /// How often each packet was sent and taken is wanted.
    Counts,
    /// The number of a transfer.
    Transfer(u64),
    /// The number of the transfer at the server.
    ServerTransfer(u64),
    /// A word that is no option.
    Plain(&'a str),
}

/// Whether a word is no option.
fn is_plain(word: &str) -> bool
    ensures { IsTrue result ↔ IsPlain word.now }
{
    !word.starts_with("-") || word == "-"
}

/// The port that a text writes.
fn port_of(text: &str) -> Option<u16>
    ensures { MatchOption result ((port : ℕ) → IsPort text.now port → ⊥) (λ port. IsPort text.now port) }
{
    match text.parse::<u16>() {
        Ok(0) => None,
        Ok(port) => Some(port),
        Err(_) => None,
    }
}

/// The number of a transfer that a text writes.
pub fn transfer_of(text: &str) -> Option<u64>
    ensures { MatchOption result ((number : ℕ) → IsTransfer text.now number → ⊥) (λ number. IsTransfer text.now number) }
{
    match text.parse::<u64>() {
        Ok(0) => None,
        Ok(number) => Some(number),
        Err(_) => None,
    }
}

/// The end that a word names.
pub fn end_of(word: &str) -> Option<End>
    ensures { MatchOption result ((end : End) → word.now ≢ end_word end) (λ end. word.now ≡ end_word end) }
{
    match word {
        "client" => Some(End::Client),
        "server" => Some(End::Server),
        _ => None,
    }
}

/// The point that a word names.
fn point_of(word: &str) -> Option<Point>
    ensures { MatchOption result ((point : PointKind) → word.now ≢ point_word point) (λ point. word.now ≡ point_word point) }
{
    match word {
        "client" => Some(Point::Client),
        "server" => Some(Point::Server),
        "between" => Some(Point::Between),
        _ => None,
    }
}

/// What comes after block 65535, by its number.
fn rollover_of(word: &str) -> Option<Rollover>
    ensures { MatchOption result ((rollover : RolloverKind) → word.now ≢ rollover_word rollover) (λ rollover. word.now ≡ rollover_word rollover) }
{
    match word {
        "0" => Some(Rollover::Zero),
        "1" => Some(Rollover::One),
        _ => None,
    }
}

/// The name and the value of the option with which these words begin, and how many of them say it.
fn option_of<'a>(word: &'a str, next: Option<&'a str>) -> Option<(&'a str, &'a str, usize)>
    ensures { MatchOption result
        ((name value : List ℕ) (count : ℕ) → Gives name word.entry.now (option_map (λ s. s.now) next.entry) value count → ⊥)
        (λ found. IsName found.0.now × Gives found.0.now word.entry.now (option_map (λ s. s.now) next.entry) found.1.now found.2) }
{
    match word.split_once('=') {
        Some((name, value)) => Some((name, value, 1)),
        None => Some((word, next?, 2)),
    }
}

/// The part that an option is, by its name and its value.
fn part_of<'a>(name: &str, value: &str) -> Option<Part<'a>>
    ensures { MatchOption result
        ((p : _) → name.now ≡ option_name p → IsValue value.now p → ⊥)
        (λ p. (name.now ≡ option_name (part p)) × IsValue value.now (part p)) }
{
    match name {
        "--service" => Some(Part::Service(port_of(value)?)),
        "--end" => Some(Part::End(point_of(value)?)),
        "--rollover" => Some(Part::Rollover(rollover_of(value)?)),
        "--transfer" => Some(Part::Transfer(transfer_of(value)?)),
        "--server-transfer" => Some(Part::ServerTransfer(transfer_of(value)?)),
        _ => None,
    }
}

/// The part with which these words begin, and how many of them say it.
pub fn first_part<'a>(word: &'a str, next: Option<&'a str>) -> Option<(Part<'a>, usize)>
    ensures { MatchOption result
        ((p : _) (count : ℕ) → Begins word.entry.now (option_map (λ s. s.now) next.entry) p count → ⊥)
        (λ found. Begins word.entry.now (option_map (λ s. s.now) next.entry) (part found.0) found.1) }
{
    if is_plain(word) {
        return Some((Part::Plain(word), 1));
    }
    if word == "--json" {
        return Some((Part::Json, 1));
    }
    if word == "--counts" {
        return Some((Part::Counts, 1));
    }
    let (name, value, count) = option_of(word, next)?;
    Some((part_of(name, value)?, count))
}
