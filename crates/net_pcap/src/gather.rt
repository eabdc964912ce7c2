ghost use Rattle.std.specs.Prelude.{◌≡◌, ◌≢◌, ◌<◌, ◌≤◌, ◌⊎◌, ◌++◌, ℕ, List, [], length, vec_len, vec_capacity, true, false, Ok, Err, IfErr};
ghost use Rattle.std.specs.Io.KnownBytes.{prepend_known, Consumes, IsAtEnd};

use crate::fault::FaultKind;
use net_streams::streams::{Latched, ReadBuffer};
use std::io::Read;

/// Reads on into what was read of a piece until it has so many bytes; false where the recording ends before.
pub fn gather<R: Read>(
    ahead: &mut ReadBuffer,
    reader: &mut Latched<R>,
    piece: &mut Vec<u8>,
    size: usize,
) -> Result<bool, FaultKind>
    requires { vec_len piece.old ≤ size }
    ensures gathers { (bytes : List ℕ) × Consumes (prepend_known ahead.old.bytes (R.remaining reader.old.0)) (prepend_known ahead.new.bytes (R.remaining reader.new.0)) bytes × (piece.new.items ≡ piece.old.items ++ bytes) }
    ensures whole { result ≡ Ok true → length piece.new.items ≡ size }
    ensures part { result ≢ Ok true → length piece.new.items < size }
    ensures end { result ≡ Ok false → IsAtEnd (prepend_known ahead.new.bytes (R.remaining reader.new.0)) }
    ensures kinds { IfErr result (λ kind. (kind ≡ FaultKind.Read) ⊎ (kind ≡ FaultKind.Memory)) }
    ensures read { result ≡ Err FaultKind.Read → reader.new.1 ≡ true }
    ensures drained { result ≡ Err FaultKind.Read → ahead.new.bytes ≡ [] }
    ensures tally { result ≢ Err FaultKind.Read → reader.new.1 ≡ reader.old.1 }
    ensures roomy { vec_capacity piece.old ≤ vec_capacity piece.new }
    ensures memory { result ≡ Err FaultKind.Memory → vec_capacity piece.old < size }
{
    'reads: while piece.len() < size {
        if ahead.fill(reader).is_err() {
            return Err(FaultKind::Read);
        }
        let held = ahead.as_slice();
        if held.is_empty() {
            return Ok(false);
        }
        let count = held.len().min(size - piece.len());
        if piece.extend_from_slice(&held[..count]).is_err() {
            return Err(FaultKind::Memory);
        }
        ahead.consume(count);
    }
    Ok(true)
}
