//! What is told on standard error where nothing is taken.

ghost use Rattle.std.specs.Prelude.{◌≡◌, ◌++◌, IfOk, OnOk, decimal, flat_map, option_map, string_bytes};
ghost use Rattle.tftp_match.specs.Choice.{matched_in};
ghost use Rattle.tftp_match.specs.Untaken.{apart_line, count_line, further, listed, many_words, numbered_of, pair_text, pairs_line, several_words, shown, side_line, together_words, tried_words};

use crate::choice::{Tried, Untaken};
use crate::choosing::{MOST_PAIRS, Side};
use std::alloc::{AllocError, Global};
use tftp_rows::put_number;

/// Which of two captures are recordings, whose transfers have numbers.
#[derive(Clone, Copy)]
pub struct Numbered {
    pub client: bool,
    pub server: bool,
}

impl Numbered {
    /// Those of these captures that are recordings.
    pub fn of<C, S>(client: &Side<'_, C>, server: &Side<'_, S>) -> Self
        ensures { result ≡ numbered_of (shown client.now) (shown server.now) }
    {
        Numbered {
            client: client.option.is_some(),
            server: server.option.is_some(),
        }
    }
}

/// What is told of the pairs with one request.
pub fn pairs_line(
    alloc: Global,
    numbered: Numbered,
    why: &Untaken,
) -> Result<Option<String>, AllocError>
    ensures { IfOk result (λ line. option_map string_bytes line ≡ pairs_line numbered why.now) }
{
    match why {
        Untaken::TooMany(count) => Ok(Some(many_line(alloc, *count)?)),
        Untaken::NotAlone(tried) => tried_line(alloc, numbered, tried.as_slice()),
    }
}

/// That there are too many pairs with one request to try each.
fn many_line(alloc: Global, count: usize) -> Result<String, AllocError>
    ensures { IfOk result (λ line. string_bytes line ≡ many_words count) }
{
    let most = MOST_PAIRS;
    format!(in alloc; "{count} pairs have one request, and {most} at most are tried")
}

/// That none of these pairs goes together, if there is any, or which do.
fn tried_line(
    alloc: Global,
    numbered: Numbered,
    tried: &[Tried],
) -> Result<Option<String>, AllocError>
    ensures { IfOk result (λ line. option_map string_bytes line ≡ count_line numbered tried.now) }
{
    if tried.is_empty() {
        return Ok(None);
    }
    Ok(Some(tried_words(alloc, numbered, tried)?))
}

fn tried_words(alloc: Global, numbered: Numbered, tried: &[Tried]) -> Result<String, AllocError>
    ensures { IfOk result (λ line. string_bytes line ≡ tried_words numbered tried.now) }
{
    let matched = matched_of(alloc, tried)?;
    if matched.is_empty() {
        together_words(alloc, "none", numbered, tried)
    } else {
        together_words(alloc, "more than one", numbered, matched.as_slice())
    }
}

fn together_words(
    alloc: Global,
    how: &str,
    numbered: Numbered,
    pairs: &[Tried],
) -> Result<String, AllocError>
    ensures { IfOk result (λ line. string_bytes line ≡ together_words numbered how.now pairs.now) }
{
    let mut line = String::from_str(alloc, how)?;
    line.push_str(" of the pairs with one request goes together: ")?;
    put_pairs(&mut line, numbered, pairs)?;
    Ok(line)
}

/// Those that go together.
fn matched_of(alloc: Global, tried: &[Tried]) -> Result<Vec<Tried>, AllocError>
    ensures { IfOk result (λ matched. matched.items ≡ matched_in tried.now) }
{
    let mut matched = Vec::new(alloc);
    for pair in tried {
        if pair.is_matched {
            matched.push(*pair)?;
        }
    }
    Ok(matched)
}

/// Puts the numbers of pairs, with a comma before each further one.
fn put_pairs(line: &mut String, numbered: Numbered, pairs: &[Tried]) -> Result<(), AllocError>
    ensures { OnOk result (string_bytes line.new ≡ string_bytes line.old ++ listed (pair_text numbered) pairs.now) }
{
    let [first, others @ ..] = pairs else {
        return Ok(());
    };
    put_pair(line, numbered, *first)?;
    put_other_pairs(line, numbered, others)
}

fn put_other_pairs(line: &mut String, numbered: Numbered, pairs: &[Tried]) -> Result<(), AllocError>
    ensures { OnOk result (string_bytes line.new ≡ string_bytes line.old ++ flat_map (further (pair_text numbered)) pairs.now) }
{
    for pair in pairs {
        put_other_pair(line, numbered, *pair)?;
    }
    Ok(())
}

fn put_other_pair(line: &mut String, numbered: Numbered, pair: Tried) -> Result<(), AllocError>
    ensures { OnOk result (string_bytes line.new ≡ string_bytes line.old ++ further (pair_text numbered) pair) }
{
    line.push_str(", ")?;
    put_pair(line, numbered, pair)
}

/// Puts the numbers of a pair's transfers in recordings.
fn put_pair(line: &mut String, numbered: Numbered, pair: Tried) -> Result<(), AllocError>
    ensures { OnOk result (string_bytes line.new ≡ string_bytes line.old ++ pair_text numbered pair) }
{
    match (numbered.client, numbered.server) {
        (true, true) => {
            put_number(line, pair.client)?;
            line.push_str(" and ")?;
            put_number(line, pair.server)
        }
        (true, false) => put_number(line, pair.client),
        (false, true) => put_number(line, pair.server),
        (false, false) => Ok(()),
    }
}

impl<T> Side<'_, T> {
    /// What is told of this capture, if it is a recording, of whose transfers these have the request of the other capture:
    /// that none has it, or which ones, where they are several. That it has no transfer at all is told elsewhere.
    pub fn line(
        &self,
        alloc: Global,
        other: &str,
        meant: &[u64],
    ) -> Result<Option<String>, AllocError>
        ensures { IfOk result (λ line. option_map string_bytes line ≡ side_line (shown self.now).option self.now.asked.now other.now meant.now) }
    {
        let Some(option) = self.option else {
            return Ok(None);
        };
        if meant.is_empty() {
            return apart_line(alloc, self.asked.is_empty(), other);
        }
        if meant.len() == 1 {
            return Ok(None);
        }
        Ok(Some(several_line(alloc, option, other, meant)?))
    }
}

/// That no transfer has the request of the other capture, unless there is no transfer.
fn apart_line(alloc: Global, has_none: bool, other: &str) -> Result<Option<String>, AllocError>
    ensures { IfOk result (λ line. option_map string_bytes line ≡ apart_line has_none other.now) }
{
    if has_none {
        return Ok(None);
    }
    Ok(Some(format!(in alloc; "no transfer has the request of {other}")?))
}

/// Which transfers have the request of the other capture.
fn several_line(
    alloc: Global,
    option: &str,
    other: &str,
    numbers: &[u64],
) -> Result<String, AllocError>
    ensures { IfOk result (λ line. string_bytes line ≡ several_words option.now other.now numbers.now) }
{
    let mut line = String::from_str(alloc, "transfers ")?;
    put_numbers(&mut line, numbers)?;
    line.push_str(" have the request of ")?;
    line.push_str(other)?;
    line.push_str(": name one by ")?;
    line.push_str(option)?;
    Ok(line)
}

/// Puts numbers, with a comma before each further one.
fn put_numbers(line: &mut String, numbers: &[u64]) -> Result<(), AllocError>
    ensures { OnOk result (string_bytes line.new ≡ string_bytes line.old ++ listed decimal numbers.now) }
{
    let [first, others @ ..] = numbers else {
        return Ok(());
    };
    put_number(line, *first)?;
    put_other_numbers(line, others)
}

fn put_other_numbers(line: &mut String, numbers: &[u64]) -> Result<(), AllocError>
    ensures { OnOk result (string_bytes line.new ≡ string_bytes line.old ++ flat_map (further decimal) numbers.now) }
{
    for number in numbers {
        put_other_number(line, *number)?;
    }
    Ok(())
}

fn put_other_number(line: &mut String, number: u64) -> Result<(), AllocError>
    ensures { OnOk result (string_bytes line.new ≡ string_bytes line.old ++ further decimal number) }
{
    line.push_str(", ")?;
    put_number(line, number)
}
