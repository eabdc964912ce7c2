ghost use Rattle.std.specs.Prelude.{◌≡◌, ◌≢◌, ◌+◌, ◌<◌, ◌≤◌, ◌++◌, ℕ, List, [], All, true, length, take, drop, slice_index, OnOk, OnErr};
ghost use Rattle.std.specs.Io.KnownBytes.{prepend_known, Consumes, IsAtEnd};
ghost use Rattle.tftp_capture.specs.Lines.{bytes_lying, line_at, HoldsPart, LineEnds};
ghost use Rattle.net_streams.specs.Streams.{most_ahead, most_of_line};

use crate::fault::TextFault;
use crate::line_error::LineError;
use memchr::memchr;
use net_streams::streams::{Latched, ReadBuffer};
use std::io::Read;

/// How many bytes stand before the first of that value, or before the end where there is none.
#[inline]
pub fn count_before(bytes: &[u8], value: u8) -> usize
    ensures within { result ≤ length bytes.now }
    ensures none_before { All (λ b. b ≢ value) (take result bytes.now) }
    ensures here { result < length bytes.now → slice_index bytes.now result ≡ value }
{
    match memchr(value, bytes) {
        Some(at) => at,
        None => bytes.len(),
    }
}

/// Reads on until a line of at most `longest` bytes is held, at the beginning; the text may have `room` more bytes. Of the
/// first `seen` bytes it is known that none is an LF. The answer is how many bytes the line has with its LF. After a fault
/// nothing is held.
pub fn read_line<R: Read>(
    ahead: &mut ReadBuffer,
    reader: &mut Latched<R>,
    longest: usize,
    room: u64,
    mut seen: usize,
) -> Result<usize, LineError>
    requires narrow { longest ≤ most_of_line }
    requires part { HoldsPart ahead.old.bytes seen longest room }
    ensures ends { (bytes : List ℕ) × Consumes (prepend_known ahead.old.bytes (R.remaining reader.old.0)) (prepend_known (drop (bytes_lying result) ahead.new.bytes) (R.remaining reader.new.0)) bytes
        × LineEnds result (line_at (bytes_lying result) ahead.new.bytes) longest room bytes }
    ensures more { OnOk result ((more : List ℕ) × (ahead.new.bytes ≡ ahead.old.bytes ++ more)) }
    ensures lies { bytes_lying result ≤ length ahead.new.bytes }
    ensures some { OnOk result (1 ≤ bytes_lying result) }
    ensures fits { OnOk result (bytes_lying result ≤ room) }
    ensures narrow { bytes_lying result ≤ longest + 1 }
    ensures near { length ahead.new.bytes ≤ bytes_lying result + most_ahead }
    ensures drained { OnErr result (ahead.new.bytes ≡ []) }
    ensures memory { result ≢ Err LineError.Memory }
    ensures end { result ≡ Err (LineError.Text TextFault.Truncated) → IsAtEnd (prepend_known ahead.new.bytes (R.remaining reader.new.0)) }
    ensures read { result ≡ Err LineError.Read → reader.new.1 ≡ true }
    ensures tally { result ≢ Err LineError.Read → reader.new.1 ≡ reader.old.1 }
{
    'reads: loop {
        let held = ahead.as_slice();
        let all = held.len();
        let count = seen + count_before(&held[seen..], b'\n');
        let whole = count < all;
        let over = room < count as u64 || whole && room == count as u64;
        if room <= longest as u64 && over {
            ahead.consume(all);
            return Err(LineError::Text(TextFault::TextTooLong));
        }
        if count > longest {
            ahead.consume(all);
            return Err(LineError::Text(TextFault::LineTooLong));
        }
        if whole {
            return Ok(count + 1);
        }
        if let Err(_) = ahead.read_on(reader) {
            ahead.consume(all);
            return Err(LineError::Read);
        }
        if ahead.as_slice().len() == all {
            ahead.consume(all);
            return Err(LineError::Text(TextFault::Truncated));
        }
        seen = all;
    }
}
