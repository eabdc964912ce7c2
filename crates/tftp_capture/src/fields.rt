ghost use Rattle.std.specs.Prelude.{◌≡◌, ◌≢◌, ◌∷◌, ℕ, List, [], codes, false, true, Err, MatchOption, OnOk};
ghost use Rattle.std.specs.List.{list_all};
ghost use Rattle.std.specs.Char.{is_ascii_hexdigit};
ghost use Rattle.tftp_packet.specs.Hosts.{IsHost};
ghost use Rattle.tftp_capture.specs.CaptureText.{dir_word, end_line, service_line, pieces, AreFields, IsPort, SpellsPort};
ghost use Rattle.tftp_capture.specs.Fields.{BeginWithFields, BodyEnds, DatagramEnds, PayloadEnds, TotalEnds, filled, filled_if};

use crate::datagram::Datagram;
use crate::fault::TextFault;
use crate::line::count_before;
use crate::line_error::LineError;
use crate::version::Version;
use hex::FromHexError;
use itoa::Buffer;
use net_streams::digits::decode;
use tftp_packet::End;
use tftp_packet::hosts::{Dir, Host};

/// The most bytes of a payload: the 65,535 that a UDP length counts, less the header's 8 (RFC 768).
pub const LONGEST_PAYLOAD: usize = 65_527;

/// The most digits of a port.
const MOST_DIGITS: usize = 5;

/// The piece before the first space, and what stands after that space. It goes byte by byte, since a word and a port are
/// short, or else the text is at fault here.
#[inline]
fn cut(text: &[u8]) -> Option<(&[u8], &[u8])>
    ensures { MatchOption result (pieces text.now ≡ text.now ∷ []) (λ parts. pieces text.now ≡ parts.0.now ∷ pieces parts.1.now) }
{
    for at in 0..text.len() {
        if text[at] == b' ' {
            return Some((&text[..at], &text[at + 1..]));
        }
    }
    None
}

/// The same by a search of many bytes at once, for a host, which may have 45.
#[inline]
fn cut_host(text: &[u8]) -> Option<(&[u8], &[u8])>
    ensures { MatchOption result (pieces text.now ≡ text.now ∷ []) (λ parts. pieces text.now ≡ parts.0.now ∷ pieces parts.1.now) }
{
    let at = count_before(text, b' ');
    if at == text.len() {
        return None;
    }
    Some((&text[..at], &text[at + 1..]))
}

/// The port that is spelled, 1 to 65535 without leading zeros.
fn port(text: &[u8]) -> Option<u16>
    ensures { MatchOption result ((port : ℕ) → SpellsPort text.now port → ⊥) (SpellsPort text.now) }
{
    if text.is_empty() || text.len() > MOST_DIGITS || text[0] == b'0' {
        return None;
    }
    let mut number: u32 = 0;
    for byte in text {
        if !byte.is_ascii_digit() {
            return None;
        }
        number = number * 10 + u32::from(*byte - b'0');
    }
    if number > u32::from(u16::MAX) {
        return None;
    }
    Some(number as u16)
}

/// The end that an `end` line names.
pub fn end_of(line: &[u8]) -> Option<End>
    ensures { MatchOption result ((named : _) → line.now ≢ end_line named) (λ named. line.now ≡ end_line named) }
{
    if line == b"end client".as_slice() {
        Some(End::Client)
    } else if line == b"end server".as_slice() {
        Some(End::Server)
    } else {
        None
    }
}

/// The port of a `service` line.
pub fn service_of(line: &[u8]) -> Option<u16>
    ensures { MatchOption result ((port : ℕ) → IsPort port → line.now ≢ service_line port) (λ port. IsPort port × (line.now ≡ service_line port)) }
{
    port(line.strip_prefix(b"service ")?)
}

/// The way that a word names.
fn dir_of(word: &[u8]) -> Option<Dir>
    ensures { MatchOption result ((dir : _) → word.now ≢ dir_word dir) (λ dir. word.now ≡ dir_word dir) }
{
    if word == b"in".as_slice() {
        Some(Dir::In)
    } else if word == b"out".as_slice() {
        Some(Dir::Out)
    } else {
        None
    }
}

/// Whether the bytes are hex digits of either case.
fn are_digits(bytes: &[u8]) -> bool
    ensures { result ≡ list_all is_ascii_hexdigit bytes.now }
{
    bytes.iter().all(|byte| byte.is_ascii_hexdigit())
}

/// What there is to say of digits for whose bytes memory was refused: they may spell no payload all the same.
fn refused(digits: &[u8]) -> LineError
    ensures { digits.now ≢ codes "-" → PayloadEnds (Err result) digits.now }
{
    if digits.is_empty() || digits.len() % 2 == 1 || !are_digits(digits) {
        return LineError::Text(TextFault::BadHex);
    }
    if digits.len() / 2 > LONGEST_PAYLOAD {
        return LineError::Text(TextFault::PayloadTooLong);
    }
    LineError::Memory
}

/// Fills a payload with the bytes that are spelled, in the memory that it has.
#[inline(always)]
pub fn fill_payload(digits: &[u8], payload: &mut Vec<u8>) -> Result<(), LineError>
    ensures { PayloadEnds (filled result payload.new.items) digits.now }
{
    if digits == b"-".as_slice() {
        payload.clear();
        return Ok(());
    }
    match decode(digits, payload) {
        Ok(()) if payload.is_empty() => Err(LineError::Text(TextFault::BadHex)),
        Ok(()) if payload.len() > LONGEST_PAYLOAD => Err(LineError::Text(
            TextFault::PayloadTooLong,
        )),
        Ok(()) => Ok(()),
        Err(FromHexError::OutOfMemory) => Err(refused(digits)),
        Err(_) => Err(LineError::Text(TextFault::BadHex)),
    }
}

/// The fields of a datagram's line after its first word; the last one reaches to the line's end, spaces and all.
#[derive(Clone, Copy)]
struct Fields<'a> {
    local: &'a [u8],
    host: &'a [u8],
    remote: &'a [u8],
    digits: &'a [u8],
}

/// The fields after the first word; a line of version 1 has no piece for the host, which is `-` there.
fn cut_fields(version: Version, text: &[u8]) -> Option<Fields<'_>>
    ensures { (word : List ℕ) → MatchOption result
        ((local host remote digits : List ℕ) → AreFields version (word ∷ pieces text.now) word local host remote digits → ⊥)
        (λ fields. BeginWithFields version (word ∷ pieces text.now) word fields.local.now fields.host.now fields.remote.now (pieces fields.digits.now)) }
{
    let (local, rest) = cut(text)?;
    let (host, rest) = match version {
        Version::One => (b"-".as_slice(), rest),
        Version::Two => cut_host(rest)?,
    };
    let (remote, digits) = cut(rest)?;
    Some(Fields {
        local,
        host,
        remote,
        digits,
    })
}

/// Puts the host in place that a field names, and says whether it names one. Most often it is there already, and nothing is
/// written.
fn fill_host(field: &[u8], host: &mut Host) -> bool
    ensures named { result ≡ true → IsHost field.now × (host.new ≡ field.now) }
    ensures unnamed { result ≡ false → IsHost field.now → ⊥ }
{
    if host.bytes() == field {
        return true;
    }
    let Some(named) = Host::new(field) else {
        return false;
    };
    *host = named;
    true
}

/// Fills a datagram with what the fields spell. After a fault it is one of which nothing is said.
fn fill_with(dir: Dir, fields: Fields<'_>, datagram: &mut Datagram) -> Result<(), LineError>
    ensures ends { (version : Version) (line : List ℕ) (count : ℕ) → AreFields version (pieces line) (dir_word dir) fields.entry.local.now fields.entry.host.now fields.entry.remote.now fields.entry.digits.now
        → DatagramEnds version (filled result datagram.new) line count }
    ensures whole { OnOk result (pieces fields.entry.digits.now ≡ fields.entry.digits.now ∷ []) }
{
    let Some(local_port) = port(fields.local) else {
        return Err(LineError::Text(TextFault::BadPort));
    };
    let Some(remote_port) = port(fields.remote) else {
        return Err(LineError::Text(TextFault::BadPort));
    };
    if !fill_host(fields.host, &mut datagram.remote_host) {
        return Err(LineError::Text(TextFault::BadHost));
    }
    datagram.dir = dir;
    datagram.local_port = local_port;
    datagram.remote_port = remote_port;
    fill_payload(fields.digits, datagram.payload.as_mut_vec())
}

/// Fills a datagram with what the text after the first word says. Where the last field spells a payload it is one
/// piece; only where something is wrong is it looked through for a space.
fn fill_datagram(
    version: Version,
    dir: Dir,
    text: &[u8],
    datagram: &mut Datagram,
) -> Result<(), LineError>
    ensures { (line : List ℕ) (count : ℕ) → pieces line ≡ dir_word dir ∷ pieces text.now → DatagramEnds version (filled result datagram.new) line count }
{
    let Some(fields) = cut_fields(version, text) else {
        return Err(LineError::Text(TextFault::BadLine));
    };
    let ended = fill_with(dir, fields, datagram);
    if ended.is_err() && cut(fields.digits).is_some() {
        return Err(LineError::Text(TextFault::BadLine));
    }
    ended
}

/// Whether the number of a total line is the number of the datagrams.
fn total(fields: &[u8], count: u64) -> Result<(), LineError>
    ensures { (version : Version) (line : List ℕ) → pieces line ≡ codes "total" ∷ pieces fields.now → TotalEnds version result line count }
{
    if cut(fields).is_some() {
        return Err(LineError::Text(TextFault::BadLine));
    }
    let mut buffer = Buffer::new();
    if buffer.format(count).as_bytes() == fields {
        Ok(())
    } else {
        Err(LineError::Text(TextFault::TotalWrong))
    }
}

/// What a line says where a datagram or the total is due: a datagram, with which the caller's is filled, or none for the
/// total.
#[inline(never)]
pub fn body_line(
    version: Version,
    line: &[u8],
    count: u64,
    datagram: &mut Datagram,
) -> Result<bool, LineError>
    ensures { BodyEnds version (filled_if result datagram.new) line.now count }
{
    let Some((word, fields)) = cut(line) else {
        return Err(LineError::Text(TextFault::BadLine));
    };
    if let Some(dir) = dir_of(word) {
        fill_datagram(version, dir, fields, datagram)?;
        return Ok(true);
    }
    if word != b"total".as_slice() {
        return Err(LineError::Text(TextFault::BadLine));
    }
    total(fields, count)?;
    Ok(false)
}
