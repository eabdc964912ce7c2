//! Reading netascii in the place where it stands.

ghost use Rattle.std.specs.Prelude.{◌≡◌, ◌<◌, ◌≤◌, length};
ghost use Rattle.tftp_netascii.specs.Netascii.{Reads};
ghost use Rattle.tftp_netascii.specs.InPlace.{file_at};

use crate::runs::{CR, LF, NUL, after_return, split_at_return};

/// From how many bytes on a run is moved as one. A shorter one is read byte by byte in less time than it is searched for.
const LONG: usize = 5;

/// How many bytes are read one by one before a run is searched for again.
const PIECE: usize = 32;

/// How far a text was read, and up to where its file was written over it.
#[derive(Clone, Copy)]
struct Place {
    read: usize,
    written: usize,
}

/// Turns a whole netascii text into the file that it reads as: no text is refused (RFC 1350, section 1, and RFC 764).
/// Takes no memory, since a file is no longer than its text.
pub fn decode_in_place(text: &mut Vec<u8>)
    ensures { Reads text.old.items text.new.items }
{
    let bytes = text.as_mut_slice();
    let mut read = 0;
    let mut written = 0;
    while let Some((run, tail)) = split_at_return(&bytes[read..]) {
        let size = run.len();
        if size < LONG {
            let place = read_bytes(bytes, read, written);
            read = place.read;
            written = place.written;
        } else {
            let (byte, after) = after_return(tail);
            let left = after.len();
            bytes.copy_within(read..read + size, written);
            bytes[written + size] = byte;
            written += size + 1;
            read = bytes.len() - left;
        }
    }
    let end = bytes.len();
    bytes.copy_within(read..end, written);
    text.truncate(written + (end - read));
}

/// Reads some bytes one by one, and what follows them where a CR is the last. A byte takes the same time whatever it is,
/// since none decides what is done next.
fn read_bytes(bytes: &mut [u8], read: usize, written: usize) -> Place
    requires behind { written ≤ read }
    requires within { read < length bytes.old }
    ensures further { read < result.read }
    ensures behind { result.written ≤ result.read }
    ensures within { result.read ≤ length bytes.new }
    ensures file { file_at bytes.new result.read result.written ≡ file_at bytes.old read written }
{
    let end = read + (bytes.len() - read).min(PIECE);
    let mut written = written;
    let mut before = NUL;
    for index in read..end {
        let byte = bytes[index];
        written -= usize::from(before == CR && byte == LF);
        bytes[written] = byte;
        written += usize::from(before != CR || byte != NUL);
        before = byte;
    }
    if before != CR {
        return Place { read: end, written };
    }
    let (byte, after) = after_return(&bytes[end..]);
    let left = after.len();
    bytes[written - 1] = byte;
    Place {
        read: bytes.len() - left,
        written,
    }
}
