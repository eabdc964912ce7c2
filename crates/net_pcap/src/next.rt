ghost use Rattle.std.specs.Prelude.{◌≡◌, ◌≢◌, ◌+◌, ◌<◌, ◌≤◌, ◌⊎◌, ◌^◌, ◌++◌, ℕ, List, [], length, vec_capacity, true, None, Some, Ok, Err, IfOk, IfSome, MatchOption};
ghost use Rattle.std.specs.Io.KnownBytes.{prepend_known, Consumes, IsAtEnd};
ghost use Rattle.net_pcap.specs.Frames.{FrameParts};
ghost use Rattle.net_pcap.specs.Pieces.{Stands, given, said_of};
ghost use Rattle.net_pcap.specs.History.{PlaceTells, RunsOut};
ghost use Rattle.net_pcap.specs.declared.found.Found.{Found};

use crate::fault::FaultKind;
use crate::found::Found;
use crate::place::Place;
use crate::step::Pieces;
use net_streams::streams::Latched;
use std::io::Read;

/// Where the frame lies that was found, if it is one.
#[inline]
fn place_of(found: Found) -> Option<Place>
    ensures { MatchOption result ((piece : List ℕ) → given (said_of found piece) ≡ []) (λ place. found ≡ Found.Gives place) }
{
    match found {
        Found::Gives(place) => Some(place),
        Found::Opens(_) | Found::Names(_) | Found::Counts(_) | Found::Skips => None,
    }
}

/// Reads on to the next frame, and says where it lies in its piece; none where the recording ends before one.
pub fn next_place<R: Read>(
    pieces: &mut Pieces,
    reader: &mut Latched<R>,
    piece: &mut Vec<u8>,
) -> Result<Option<Place>, FaultKind>
    ensures tells { (bytes : List ℕ) (frames : List FrameParts) → Stands bytes pieces.old.mode pieces.old.count frames
        → (taken : List ℕ) × Consumes (prepend_known pieces.old.ahead (R.remaining reader.old.0)) (prepend_known pieces.new.ahead (R.remaining reader.new.0)) taken
        × PlaceTells result pieces.new piece.new.items (bytes ++ taken) frames }
    ensures wants { (bytes : List ℕ) (frames : List FrameParts) → Stands bytes pieces.old.mode pieces.old.count frames → result ≡ Err FaultKind.Memory
        → (taken : List ℕ) × Consumes (prepend_known pieces.old.ahead (R.remaining reader.old.0)) (prepend_known pieces.new.ahead (R.remaining reader.new.0)) taken
        × RunsOut (vec_capacity piece.old) pieces.old.room (bytes ++ taken) frames }
    ensures within { IfOk result (λ answer. IfSome answer (λ place. (place.start ≤ place.end) × (place.end ≤ length piece.new.items))) }
    ensures end { (result ≡ Ok None) ⊎ (result ≡ Err FaultKind.Truncated) → IsAtEnd (prepend_known pieces.new.ahead (R.remaining reader.new.0)) }
    ensures read { result ≡ Err FaultKind.Read → reader.new.1 ≡ true }
    ensures drained { result ≡ Err FaultKind.Read → pieces.new.ahead ≡ [] }
    ensures tally { result ≢ Err FaultKind.Read → reader.new.1 ≡ reader.old.1 }
    ensures grows { IfOk result (λ answer. IfSome answer (λ _. pieces.old.count < pieces.new.count)) }
    ensures stays { pieces.old.count ≤ pieces.new.count }
    ensures few { pieces.new.count ≤ 2 ^ 40 }
    ensures roomy { vec_capacity piece.old ≤ vec_capacity piece.new }
    ensures places { pieces.old.room ≤ pieces.new.room }
{
    'pieces: loop {
        match pieces.step(reader, piece) {
            Ok(Some(found)) => match place_of(found) {
                Some(place) => return Ok(Some(place)),
                None => {}
            },
            Ok(None) => return Ok(None),
            Err(kind) => return Err(kind),
        }
    }
}
