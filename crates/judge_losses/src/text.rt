ghost use Rattle.std.specs.Prelude.{◌≡◌, ℕ, List, false, Some, IfOk};
ghost use Rattle.std.specs.Io.KnownBytes.{Consumes, IsAtEnd};
ghost use Rattle.judge_losses.specs.Texts.{AreMissingOf};

use crate::clues::Clues;
use crate::mender::Mender;
use crate::place::Place;
use crate::unmended::Unmended;
use net_streams::streams::Latched;
use std::alloc::Global;
use std::io::Read;
use tftp_capture::{CaptureReader, Datagram};

/// Where datagrams must be missing of a capture text, and how many, so that it is lawful with them; no place where it is lawful
/// itself. It is gone over more than once: what comes later tells what was missing before, and where no OACK comes at all, one is
/// supposed if nothing is found without.
pub fn missing_of(alloc: Global, text: &[u8]) -> Result<Vec<Place>, Unmended>
    ensures { IfOk result (λ places. AreMissingOf text.now places.items) }
{
    let mut clues = clues_in(alloc, &mut Latched::new(text))?;
    let found = missing_with(alloc, &mut Latched::new(text), &clues);
    if matches!(&found, Err(Unmended::Unexplained)) && clues.suppose_oack(alloc)? {
        return missing_with(alloc, &mut Latched::new(text), &clues);
    }
    found
}

/// What a capture text tells of what must be missing of it.
fn clues_in<R: Read>(alloc: Global, reader: &mut Latched<R>) -> Result<Clues, Unmended>
    requires clean { reader.old.1 ≡ false }
{
    let mut capture = CaptureReader::begin(alloc, reader)?;
    let mut clues = Clues::new(alloc, capture.header());
    let mut datagram = Datagram::empty(alloc);
    while capture.next_into(reader, &mut datagram)? {
        clues.note(alloc, &datagram)?;
    }
    Ok(clues)
}

/// What is missing of a capture text, by these clues.
fn missing_with<R: Read>(
    alloc: Global,
    reader: &mut Latched<R>,
    clues: &Clues,
) -> Result<Vec<Place>, Unmended>
    requires clean { reader.old.1 ≡ false }
    ensures found { IfOk result (λ places. (text : List ℕ) × Consumes (R.remaining reader.old.0) (R.remaining reader.new.0) text
        × IsAtEnd (R.remaining reader.new.0) × AreMissingOf text places.items) }
    ensures whole { (text : List ℕ) → R.remaining reader.old.0 ≡ Some text → IfOk result (λ places. AreMissingOf text places.items) }
{
    let mut capture = CaptureReader::begin(alloc, reader)?;
    let mut mender = Mender::new(alloc, capture.header());
    let mut datagram = Datagram::empty(alloc);
    while capture.next_into(reader, &mut datagram)? {
        mender.feed(alloc, clues, &datagram)?;
    }
    Ok(mender.into_places())
}
