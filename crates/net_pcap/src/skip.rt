ghost use Rattle.std.specs.Prelude.{◌≡◌, ◌≢◌, ◌≤◌, ◌%◌, ◌⊎◌, ◌++◌, ℕ, List, [], length, vec_capacity, true, false, Ok, Err, IfErr, IfOk};
ghost use Rattle.std.specs.Io.KnownBytes.{prepend_known, Consumes, IsAtEnd};
ghost use Rattle.net_pcap.specs.Pieces.{Announces, IsSize, LiesWithin};
ghost use Rattle.net_pcap.specs.Stopping.{IsSkipped, RestEnds, EndReached, SkipEnds};
ghost use Rattle.net_pcap.specs.declared.layout.Layout.{Layout};
ghost use Rattle.net_pcap.specs.declared.layout.NamedInterface.{NamedInterface};

use crate::fault::FaultKind;
use crate::found::Found;
use crate::gather::gather;
use crate::numbers::Order;
use net_streams::streams::{Latched, ReadBuffer};
use std::io::Read;

/// Reads on over so many bytes, of which none is held; false where the recording ends before.
fn skip<R: Read>(
    ahead: &mut ReadBuffer,
    reader: &mut Latched<R>,
    count: usize,
) -> Result<bool, FaultKind>
    ensures skips { (bytes : List ℕ) × Consumes (prepend_known ahead.old.bytes (R.remaining reader.old.0)) (prepend_known ahead.new.bytes (R.remaining reader.new.0)) bytes × SkipEnds result count bytes }
    ensures end { result ≡ Ok false → IsAtEnd (prepend_known ahead.new.bytes (R.remaining reader.new.0)) }
    ensures kinds { IfErr result (λ kind. kind ≡ FaultKind.Read) }
    ensures read { result ≡ Err FaultKind.Read → reader.new.1 ≡ true }
    ensures drained { result ≡ Err FaultKind.Read → ahead.new.bytes ≡ [] }
    ensures tally { result ≢ Err FaultKind.Read → reader.new.1 ≡ reader.old.1 }
{
    let mut left = count;
    'reads: while left > 0 {
        if ahead.fill(reader).is_err() {
            return Err(FaultKind::Read);
        }
        let held = ahead.as_slice().len();
        if held == 0 {
            return Ok(false);
        }
        let some = held.min(left);
        ahead.consume(some);
        left -= some;
    }
    Ok(true)
}

/// Reads on to the end of a block, whose last four bytes take the place of the third four; false where the recording ends
/// before.
fn skip_to_end<R: Read>(
    ahead: &mut ReadBuffer,
    reader: &mut Latched<R>,
    piece: &mut Vec<u8>,
    size: usize,
) -> Result<bool, FaultKind>
    requires front { length piece.old.items ≡ 12 }
    requires least { 12 ≤ size }
    requires words { size % 4 ≡ 0 }
    ensures skips { (more : List ℕ) × Consumes (prepend_known ahead.old.bytes (R.remaining reader.old.0)) (prepend_known ahead.new.bytes (R.remaining reader.new.0)) more
        × EndReached result size (piece.old.items ++ more) piece.new.items }
    ensures end { result ≡ Ok false → IsAtEnd (prepend_known ahead.new.bytes (R.remaining reader.new.0)) }
    ensures kinds { IfErr result (λ kind. kind ≡ FaultKind.Read) }
    ensures read { result ≡ Err FaultKind.Read → reader.new.1 ≡ true }
    ensures drained { result ≡ Err FaultKind.Read → ahead.new.bytes ≡ [] }
    ensures tally { result ≢ Err FaultKind.Read → reader.new.1 ≡ reader.old.1 }
    ensures roomy { vec_capacity piece.old ≤ vec_capacity piece.new }
{
    if size == 12 {
        return Ok(true);
    }
    if !skip(ahead, reader, size - 16)? {
        return Ok(false);
    }
    piece.truncate(8);
    gather(ahead, reader, piece, 12)
}

/// Reads the rest of a block that is skipped: its repeated length is looked at, and no more of it is held than was.
pub fn skip_rest<R: Read>(
    order: Order,
    ahead: &mut ReadBuffer,
    reader: &mut Latched<R>,
    piece: &mut Vec<u8>,
    size: usize,
) -> Result<Found, FaultKind>
    requires front { length piece.old.items ≡ 12 }
    requires announced { Announces (Layout.Blocks order) piece.old.items size }
    requires sized { IsSize (Layout.Blocks order) size }
    requires skipped { IsSkipped (Layout.Blocks order) piece.old.items }
    ensures ends { (interfaces : List NamedInterface) → (more : List ℕ) × Consumes (prepend_known ahead.old.bytes (R.remaining reader.old.0)) (prepend_known ahead.new.bytes (R.remaining reader.new.0)) more
        × RestEnds (Layout.Blocks order) interfaces result piece.new.items (piece.old.items ++ more) }
    ensures within { IfOk result (λ found. LiesWithin found piece.new.items) }
    ensures end { result ≡ Err FaultKind.Truncated → IsAtEnd (prepend_known ahead.new.bytes (R.remaining reader.new.0)) }
    ensures read { result ≡ Err FaultKind.Read → reader.new.1 ≡ true }
    ensures drained { result ≡ Err FaultKind.Read → ahead.new.bytes ≡ [] }
    ensures tally { result ≢ Err FaultKind.Read → reader.new.1 ≡ reader.old.1 }
    ensures memory { result ≢ Err FaultKind.Memory }
    ensures roomy { vec_capacity piece.old ≤ vec_capacity piece.new }
{
    if !skip_to_end(ahead, reader, piece, size)? {
        return Err(FaultKind::Truncated);
    }
    if order.number(piece, 8) as usize != size {
        return Err(FaultKind::Bad);
    }
    Ok(Found::Skips)
}
