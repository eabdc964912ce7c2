//! Several datagrams that were recorded as one.

ghost use Rattle.std.specs.Prelude.{◌≡◌, ◌≤◌, length};
ghost use Rattle.audit_recording.specs.Blame.Several.{are_among, is_joined, is_left, may_be_several, next_head};

use byteorder::{BigEndian, ByteOrder};
use memchr::memmem;
use net_udp::recording::Checksum;

/// So many bytes a packet begins with: its opcode, and the two behind it (RFC 1350, section 5).
const HEAD: usize = 4;

/// Whether a datagram may be several that were recorded as one.
pub(crate) fn is_joined(checksum: Checksum, payload: &[u8]) -> bool
    ensures { result ≡ is_joined checksum payload.now }
{
    is_left(checksum) && may_be_several(payload)
}

/// Whether a checksum was left to be made.
fn is_left(checksum: Checksum) -> bool
    ensures { result ≡ is_left checksum }
{
    match checksum {
        Checksum::Partial => true,
        Checksum::Right | Checksum::Wrong | Checksum::Absent => false,
    }
}

/// Whether a payload may be several packets of one burst: blocks in their order, or the same packet again. What a file has may look so.
fn may_be_several(payload: &[u8]) -> bool
    ensures { result ≡ may_be_several payload.now }
{
    if payload.len() < HEAD {
        return false;
    }
    let (head, rest) = payload.split_at(HEAD);
    are_among(head, rest) || are_among(&next_head(payload), rest)
}

/// Whether these bytes stand somewhere among those.
fn are_among(some: &[u8], bytes: &[u8]) -> bool
    ensures { result ≡ are_among some.now bytes.now }
{
    if bytes.len() < some.len() {
        return false;
    }
    memmem::find(bytes, some).is_some()
}

/// How the packet begins that has the next number.
fn next_head(payload: &[u8]) -> [u8; HEAD]
    requires { 4 ≤ length payload.now }
    ensures { result ≡ next_head payload.now }
{
    let number = BigEndian::read_u16(&payload[2..]).wrapping_add(1);
    let mut head = [payload[0], payload[1], 0, 0];
    BigEndian::write_u16(&mut head[2..], number);
    head
}
