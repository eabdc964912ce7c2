ghost use Rattle.std.specs.Prelude.{◌≡◌, ◌≢◌, ◌≤◌, ◌<◌, ◌⊎◌, ◌++◌, ℕ, List, [], length, vec_capacity, true, None, Ok, Err, IfOk};
ghost use Rattle.std.specs.Io.KnownBytes.{prepend_known, Consumes, IsAtEnd};
ghost use Rattle.net_pcap.specs.Pieces.{Announces, IsSize, LiesWithin, front_of};
ghost use Rattle.net_pcap.specs.Stopping.{FrontEnds, IsLonger, IsSkipped, RestEnds};

use crate::fault::FaultKind;
use crate::found::Found;
use crate::gather::gather;
use crate::layout::{Layout, NamedInterface};
use crate::pieces::{said_by, skipped_in};
use crate::sizes::{begins_as_one, front_of, size_of};
use crate::skip::skip_rest;
use net_streams::streams::{Latched, ReadBuffer};
use std::io::Read;

/// What the end of the recording is within the first bytes of a piece: the end after the pieces before it, or a fault.
fn ended(layout: Layout, piece: &[u8]) -> Result<Option<usize>, FaultKind>
    requires { length piece.now < front_of layout }
    ensures ends { FrontEnds layout result piece.now }
    ensures kinds { (result ≡ Ok None) ⊎ (result ≡ Err FaultKind.NotARecording) ⊎ (result ≡ Err FaultKind.Truncated) }
{
    if layout == Layout::Unopened && !begins_as_one(piece) {
        return Err(FaultKind::NotARecording);
    }
    if piece.is_empty() {
        return Ok(None);
    }
    Err(FaultKind::Truncated)
}

/// Reads the first bytes of the next piece, and says how many it has; none where the recording ends before it.
pub fn read_front<R: Read>(
    layout: Layout,
    ahead: &mut ReadBuffer,
    reader: &mut Latched<R>,
    piece: &mut Vec<u8>,
) -> Result<Option<usize>, FaultKind>
    ensures taken { Consumes (prepend_known ahead.old.bytes (R.remaining reader.old.0)) (prepend_known ahead.new.bytes (R.remaining reader.new.0)) piece.new.items }
    ensures ends { FrontEnds layout result piece.new.items }
    ensures end { (result ≡ Ok None) ⊎ (result ≡ Err FaultKind.Truncated) → IsAtEnd (prepend_known ahead.new.bytes (R.remaining reader.new.0)) }
    ensures read { result ≡ Err FaultKind.Read → reader.new.1 ≡ true }
    ensures drained { result ≡ Err FaultKind.Read → ahead.new.bytes ≡ [] }
    ensures tally { result ≢ Err FaultKind.Read → reader.new.1 ≡ reader.old.1 }
    ensures short { result ≡ Err FaultKind.NotARecording → IsAtEnd (prepend_known ahead.new.bytes (R.remaining reader.new.0)) ⊎ (12 ≤ length piece.new.items) }
    ensures memory { result ≡ Err FaultKind.Memory → IsLonger (vec_capacity piece.old) layout piece.new.items }
    ensures roomy { vec_capacity piece.old ≤ vec_capacity piece.new }
{
    piece.clear();
    if !gather(ahead, reader, piece, front_of(layout))? {
        return ended(layout, piece);
    }
    let size = size_of(layout, piece)?;
    Ok(Some(size))
}

/// Reads the rest of a piece, and says what it says: a block that is skipped is not held.
pub fn read_rest<R: Read>(
    layout: Layout,
    interfaces: &[NamedInterface],
    ahead: &mut ReadBuffer,
    reader: &mut Latched<R>,
    piece: &mut Vec<u8>,
    size: usize,
) -> Result<Found, FaultKind>
    requires front { length piece.old.items ≡ front_of layout }
    requires announced { Announces layout piece.old.items size }
    requires sized { IsSize layout size }
    ensures ends { (more : List ℕ) × Consumes (prepend_known ahead.old.bytes (R.remaining reader.old.0)) (prepend_known ahead.new.bytes (R.remaining reader.new.0)) more
        × RestEnds layout interfaces.now result piece.new.items (piece.old.items ++ more) }
    ensures within { IfOk result (λ found. LiesWithin found piece.new.items) }
    ensures end { result ≡ Err FaultKind.Truncated → IsAtEnd (prepend_known ahead.new.bytes (R.remaining reader.new.0)) }
    ensures read { result ≡ Err FaultKind.Read → reader.new.1 ≡ true }
    ensures drained { result ≡ Err FaultKind.Read → ahead.new.bytes ≡ [] }
    ensures tally { result ≢ Err FaultKind.Read → reader.new.1 ≡ reader.old.1 }
    ensures memory { result ≡ Err FaultKind.Memory → IsLonger (vec_capacity piece.old) layout piece.new.items }
    ensures roomy { vec_capacity piece.old ≤ vec_capacity piece.new }
{
    if let Some(order) = skipped_in(layout, piece) {
        return skip_rest(order, ahead, reader, piece, size);
    }
    match gather(ahead, reader, piece, size) {
        Ok(true) => {}
        Ok(false) => return Err(FaultKind::Truncated),
        Err(kind) => return Err(kind),
    }
    match said_by(layout, interfaces, piece) {
        Some(found) => Ok(found),
        None => Err(FaultKind::Bad),
    }
}
