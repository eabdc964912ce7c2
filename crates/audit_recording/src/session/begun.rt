//! What looks like a transfer that began before the recording.

ghost use Rattle.std.specs.Prelude.{◌≡◌, ◌++◌, ◌∷◌, [], IfOk, List, None, OnOk, map, position, string_bytes, true};
ghost use Rattle.audit_recording.specs.Session.Lines.{begun_lines, ends_text, from_to_text, pair_line, pair_lines};
ghost use Rattle.audit_recording.specs.Session.Strays.{AreBegunOf, Stray, goes_on, one_more, passed_between, stray_of};

use crate::blame::Passing;
use crate::session::endpoint::shown;
use crate::session::plain::put_number;
use audit_flows::lines::Endpoint;
use std::alloc::{AllocError, Global};

/// So many pairs of endpoints are told of, the first ones.
const MOST: usize = 16;

/// So many datagrams of two endpoints look like a transfer.
const LEAST: u64 = 3;

/// What passed between two endpoints and is of no transfer.
#[derive(Clone, Copy)]
struct Pair {
    one: Endpoint,
    other: Endpoint,
    count: u64,
    first: u64,
    last: u64,
}

/// Datagrams of no transfer that go on as one does, by the two endpoints between which they passed.
#[derive(Drop)]
pub struct Begun {
    pairs: Vec<Pair>,
}

impl Begun {
    /// Nothing was read.
    pub fn new(alloc: Global) -> Self
        ensures { AreBegunOf result [] }
    {
        Begun {
            pairs: Vec::new(alloc),
        }
    }

    /// Notes a datagram of no transfer, if it begins as a block, an ACK, an ERROR or an OACK does (RFC 1350, section 5; RFC 2347).
    /// After an error they stand for nothing, here and below.
    pub fn note(&mut self, passing: &Passing<'_>) -> Result<(), AllocError>
        ensures { (strays : List Stray) → AreBegunOf self.old strays → OnOk result (AreBegunOf self.new (stray_of passing.now ∷ strays)) }
    {
        if !goes_on(passing.payload) {
            return Ok(());
        }
        match self.place_of(passing) {
            Some(place) => {
                self.pairs[place].add(passing.frame);
                Ok(())
            }
            None => self.begin(passing),
        }
    }

    /// Where the two endpoints of a datagram stand.
    fn place_of(&self, passing: &Passing<'_>) -> Option<usize>
        ensures { result ≡ position (λ pair. passed_between pair.one pair.other (stray_of passing.now)) self.now.pairs.items }
    {
        self.pairs.iter().position(|pair| pair.is_of(passing))
    }

    /// Begins with a pair of endpoints, unless there are many.
    fn begin(&mut self, passing: &Passing<'_>) -> Result<(), AllocError>
        ensures { (strays : List Stray) → AreBegunOf self.old strays → goes_on passing.now.payload.now ≡ true
            → position (λ pair. passed_between pair.one pair.other (stray_of passing.now)) self.old.pairs.items ≡ None
            → OnOk result (AreBegunOf self.new (stray_of passing.now ∷ strays)) }
    {
        if self.pairs.len() >= MOST {
            return Ok(());
        }
        self.pairs.push(Pair {
            one: passing.source,
            other: passing.target,
            count: 1,
            first: passing.frame,
            last: passing.frame,
        })?;
        Ok(())
    }

    /// Adds a line for each two endpoints of which this looks like a transfer.
    pub fn put(&self, alloc: Global, lines: &mut Vec<String>) -> Result<(), AllocError>
        ensures { OnOk result (map string_bytes lines.new.items ≡ map string_bytes lines.old.items ++ begun_lines self.now) }
    {
        for pair in self.pairs.iter() {
            pair.put(alloc, lines)?;
        }
        Ok(())
    }
}

impl Pair {
    /// Whether a datagram passed between these two.
    fn is_of(&self, passing: &Passing<'_>) -> bool
        ensures { result ≡ passed_between self.now.one self.now.other (stray_of passing.now) }
    {
        let (source, target) = (passing.source, passing.target);
        source == self.one && target == self.other || source == self.other && target == self.one
    }

    /// Notes one more.
    fn add(&mut self, frame: u64)
        ensures { self.new ≡ one_more frame self.old }
    {
        self.count = self.count.saturating_add(1);
        self.last = frame;
    }

    fn put(&self, alloc: Global, lines: &mut Vec<String>) -> Result<(), AllocError>
        ensures { OnOk result (map string_bytes lines.new.items ≡ map string_bytes lines.old.items ++ pair_lines self.now) }
    {
        if self.count < LEAST {
            return Ok(());
        }
        lines.push(self.line(alloc)?)?;
        Ok(())
    }

    fn line(&self, alloc: Global) -> Result<String, AllocError>
        ensures { IfOk result (λ line. string_bytes line ≡ pair_line self.now) }
    {
        let mut line = String::new(alloc);
        put_number(&mut line, self.count)?;
        self.put_ends(alloc, &mut line)?;
        line.push_str(" look like a transfer that began before the recording")?;
        self.put_from_to(&mut line)?;
        Ok(line)
    }

    fn put_ends(&self, alloc: Global, line: &mut String) -> Result<(), AllocError>
        ensures { OnOk result (string_bytes line.new ≡ string_bytes line.old ++ ends_text self.now) }
    {
        let (one, other) = (shown(alloc, self.one)?, shown(alloc, self.other)?);
        line.push_str(" datagrams between ")?;
        line.push_str(one.as_str())?;
        line.push_str(" and ")?;
        line.push_str(other.as_str())
    }

    fn put_from_to(&self, line: &mut String) -> Result<(), AllocError>
        ensures { OnOk result (string_bytes line.new ≡ string_bytes line.old ++ from_to_text self.now) }
    {
        line.push_str(" (frames ")?;
        put_number(line, self.first)?;
        line.push_str(" to ")?;
        put_number(line, self.last)?;
        line.push_str(")")
    }
}

/// Whether a payload begins as what follows a request does.
fn goes_on(payload: &[u8]) -> bool
    ensures { result ≡ goes_on payload.now }
{
    matches!(payload, [0, 3..=6, _, _, ..])
}
