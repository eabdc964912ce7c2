//! Reads scripts: captures, and what is said of each, as `trials::scripts` of `tests_wire` tells. They have spaces, commas,
//! braces and `=` in no other places.

use std::alloc::{AllocError, Global};
use std::test::Fail;
use tests_wire::trials::comparing::is_so;
use tests_wire::trials::scripts::NAMES;

/// What stands before the first of these signs, and behind it.
fn cut(text: &[u8], sign: u8) -> Option<(&[u8], &[u8])> {
    for (index, byte) in text.iter().enumerate() {
        if *byte == sign {
            return Some((text.get(..index)?, text.get(index.saturating_add(1)..)?));
        }
    }
    None
}

/// A word without the spaces around it.
fn trimmed(word: &[u8]) -> &[u8] {
    let mut word = word;
    for _ in 0..word.len() {
        word = match word {
            [b' ', rest @ ..] => rest,
            [rest @ .., b' '] => rest,
            _ => break,
        };
    }
    word
}

/// The datagram that has this name in lines of names.
fn named<'a>(names: &'a [u8], word: &[u8]) -> Option<&'a [u8]> {
    let mut rest = names;
    for _ in 0..names.len() {
        let (line, later) = cut(rest, b'\n')?;
        rest = later;
        match cut(line, b'=') {
            Some((name, [b' ', datagram @ ..])) if trimmed(name) == word => return Some(datagram),
            _ => {}
        }
    }
    None
}

/// The number that digits spell.
fn number_of(digits: &[u8]) -> u32 {
    let mut number = 0u32;
    for digit in digits {
        let more = u32::from(digit.saturating_sub(b'0'));
        number = number.saturating_mul(10).saturating_add(more);
    }
    number
}

/// Writes a line, with digits between braces as often as they say.
fn add_line(text: &mut Vec<u8>, line: &[u8]) -> Result<(), AllocError> {
    let (before, rest) = cut(line, b'{').unwrap_or((line, b""));
    let (repeated, after) = cut(rest, b'}').unwrap_or((b"", b""));
    let (digits, count) = cut(repeated, b'*').unwrap_or((b"", b""));
    text.extend_from_slice(before)?;
    for _ in 0..number_of(count) {
        text.extend_from_slice(digits)?;
    }
    text.extend_from_slice(after)?;
    text.push(b'\n')?;
    Ok(())
}

/// Writes the line of a word: the datagram of that name, or itself.
fn add_word(script: &[u8], text: &mut Vec<u8>, word: &[u8]) -> Result<(), AllocError> {
    if let Some(datagram) = named(script, word) {
        return add_line(text, datagram);
    }
    match named(NAMES.as_bytes(), word) {
        Some(datagram) => add_line(text, datagram),
        None => add_line(text, word),
    }
}

/// Writes the lines of words with commas between them. How many they are.
fn add_words(script: &[u8], text: &mut Vec<u8>, words: &[u8]) -> Result<u32, AllocError> {
    let mut count = 0u32;
    let mut rest = words;
    for _ in 0..words.len() {
        let (word, later) = cut(rest, b',').unwrap_or((rest, b""));
        rest = later;
        let word = trimmed(word);
        if !word.is_empty() {
            add_word(script, text, word)?;
            count = count.saturating_add(1);
        }
    }
    Ok(count)
}

/// The text of a capture with the lines of this header and these datagrams.
fn text_of(
    alloc: Global,
    script: &[u8],
    header: &[u8],
    words: &[u8],
) -> Result<Vec<u8>, AllocError> {
    let mut text = Vec::new(alloc);
    add_words(script, &mut text, header)?;
    let count = add_words(script, &mut text, words)?;
    let total = format!(in alloc; "total {count}\n")?;
    text.extend_from_slice(total.as_bytes())?;
    Ok(text)
}

/// A script, and how much of it is left.
#[derive(Clone, Copy)]
pub struct Script<'a> {
    whole: &'a [u8],
    rest: &'a [u8],
    header: &'a [u8],
}

impl<'a> Script<'a> {
    /// Of this text, which has the header itself.
    pub fn new(whole: &'a str) -> Self {
        Script {
            whole: whole.as_bytes(),
            rest: whole.as_bytes(),
            header: b"",
        }
    }

    /// The text of the next capture, and what is said of it.
    pub fn next(&mut self, alloc: Global) -> Result<(Vec<u8>, &'a [u8]), Fail> {
        let mut words = Vec::new(alloc);
        let said = self.read(&mut words)?;
        Ok((
            text_of(alloc, self.whole, self.header, words.as_slice())?,
            said,
        ))
    }

    /// Reads the words of the next capture; what is said of it.
    fn read(&mut self, words: &mut Vec<u8>) -> Result<&'a [u8], Fail> {
        for _ in 0..self.rest.len() {
            let Some((line, rest)) = cut(self.rest, b'\n') else {
                break;
            };
            self.rest = rest;
            match (line.first(), cut(line, b'=')) {
                (None | Some(b'#'), _) => {}
                (Some(b't'), _) => self.header = line,
                (_, Some((last, [b'>', b' ', said @ ..]))) => {
                    words.extend_from_slice(last)?;
                    return Ok(said);
                }
                (_, Some(_)) => {}
                (_, None) => words.extend_from_slice(line)?,
            }
        }
        Err(Fail::new("too few captures"))
    }

    /// Fails unless nothing is left of it.
    pub fn ends(&self) -> Result<(), Fail> {
        is_so(self.rest.is_empty(), "more captures")
    }
}
