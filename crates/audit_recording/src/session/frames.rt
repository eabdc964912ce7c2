//! Frames of which one thing is told.

ghost use Rattle.std.specs.Prelude.{◌≡◌, ◌++◌, ◌∷◌, ℕ, List, IfOk, OnOk, [], flat_map, map, string_bytes};
ghost use Rattle.audit_recording.specs.Session.Lines.{counted_text, further_number, line_by, lines_by, named_text, numbers_text};
ghost use Rattle.audit_recording.specs.Session.Told.{AreFramesOf, is_nil};

use crate::session::plain::put_number;
use std::alloc::{AllocError, Global};

/// How many frames or ports are named.
pub(crate) const NAMED: usize = 5;

/// Frames of which one thing is told: how many they are, and the first ones.
#[derive(Drop)]
pub struct Frames {
    count: u64,
    first: Vec<u64>,
}

impl Frames {
    /// There is none yet.
    pub(crate) fn new(alloc: Global) -> Self
        ensures { AreFramesOf result [] }
    {
        Frames {
            count: 0,
            first: Vec::new(alloc),
        }
    }

    /// Adds a frame. After an error they stand for nothing.
    pub(crate) fn add(&mut self, frame: u64) -> Result<(), AllocError>
        ensures { (frames : List ℕ) → AreFramesOf self.old frames → OnOk result (AreFramesOf self.new (frame ∷ frames)) }
    {
        self.count = self.count.saturating_add(1);
        if self.first.len() < NAMED {
            self.first.push(frame)?;
        }
        Ok(())
    }

    /// Whether there is none.
    pub(crate) fn is_none(&self) -> bool
        ensures { (frames : List ℕ) → AreFramesOf self.now frames → result ≡ is_nil frames }
    {
        self.count == 0
    }

    /// Adds a line that tells how many they are and which ones, if there are any.
    pub(crate) fn put(
        &self,
        alloc: Global,
        lines: &mut Vec<String>,
        what: &str,
    ) -> Result<(), AllocError>
        ensures { OnOk result (map string_bytes lines.new.items ≡ map string_bytes lines.old.items ++ lines_by self.now.count self.now.first.items what.now) }
    {
        if self.count == 0 {
            return Ok(());
        }
        lines.push(self.line(alloc, what)?)?;
        Ok(())
    }

    fn line(&self, alloc: Global, what: &str) -> Result<String, AllocError>
        ensures { IfOk result (λ line. string_bytes line ≡ line_by self.now.count self.now.first.items what.now) }
    {
        let mut line = String::new(alloc);
        put_counted(&mut line, self.count)?;
        line.push_str(what)?;
        self.put_which(&mut line)?;
        Ok(line)
    }

    fn put_which(&self, line: &mut String) -> Result<(), AllocError>
        ensures { OnOk result (string_bytes line.new ≡ string_bytes line.old ++ named_text self.now.count self.now.first.items) }
    {
        let which = if self.count == 1 {
            " (frame"
        } else {
            " (frames"
        };
        let end = if self.count > NAMED as u64 {
            " ..)"
        } else {
            ")"
        };
        line.push_str(which)?;
        put_numbers(line, self.first.as_slice())?;
        line.push_str(end)
    }
}

/// Puts how many datagrams they are.
fn put_counted(line: &mut String, count: u64) -> Result<(), AllocError>
    ensures { OnOk result (string_bytes line.new ≡ string_bytes line.old ++ counted_text count) }
{
    let datagrams = if count == 1 {
        " datagram "
    } else {
        " datagrams "
    };
    put_number(line, count)?;
    line.push_str(datagrams)
}

/// Puts numbers, with a space before the first.
pub(crate) fn put_numbers(line: &mut String, numbers: &[u64]) -> Result<(), AllocError>
    ensures { OnOk result (string_bytes line.new ≡ string_bytes line.old ++ numbers_text numbers.now) }
{
    let [first, further @ ..] = numbers else {
        return Ok(());
    };
    line.push_str(" ")?;
    put_number(line, *first)?;
    put_further(line, further)
}

/// Puts each number behind a comma.
fn put_further(line: &mut String, numbers: &[u64]) -> Result<(), AllocError>
    ensures { OnOk result (string_bytes line.new ≡ string_bytes line.old ++ flat_map further_number numbers.now) }
{
    for number in numbers {
        put_further_one(line, *number)?;
    }
    Ok(())
}

fn put_further_one(line: &mut String, number: u64) -> Result<(), AllocError>
    ensures { OnOk result (string_bytes line.new ≡ string_bytes line.old ++ further_number number) }
{
    line.push_str(", ")?;
    put_number(line, number)
}
