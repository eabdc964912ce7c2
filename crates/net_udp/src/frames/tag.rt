ghost use Rattle.std.specs.Prelude.{◌≡◌, ◌≤◌, ℕ, List, length, drop, MatchOption};
ghost use Rattle.net_udp.specs.Frames.Tag.{is_tag_type, is_session, is_labelled, is_bridged, is_numbered, is_sealed, is_said, is_snap, is_shim, shim_size, ppp_type, session_type, label_type, next_type, IsOver, LeadsTo};

use crate::frames::number::pair_at;

/// The type of PPPoE in a session (RFC 2516, section 4).
const SESSION: u16 = 0x8864;

/// Whether a type is that of a tag.
#[inline]
fn is_tag(kind: u16) -> bool
    ensures { result ≡ is_tag_type kind }
{
    kind == 0x8100 || kind == 0x88a8 || kind == 0x9100
}

/// Whether a type is one of MPLS (RFC 3032, section 5; RFC 5332, section 3).
#[inline]
fn is_labelled(kind: u16) -> bool
    ensures { result ≡ is_labelled kind }
{
    kind == 0x8847 || kind == 0x8848
}

/// Whether a type is that of a frame of Ethernet (RFC 1701, section 3).
#[inline]
fn is_bridged(kind: u16) -> bool
    ensures { result ≡ is_bridged kind }
{
    kind == 0x6558
}

/// Whether a type is that of a tag with a number: of HSR (IEC 62439-3) or FRER (IEEE 802.1CB).
#[inline]
fn is_numbered(kind: u16) -> bool
    ensures { result ≡ is_numbered kind }
{
    kind == 0x892f || kind == 0xf1c1
}

/// Whether a type is one behind which a packet may stand that is not read: MACsec (IEEE 802.1AE), IEEE 802.1ah, IEEE 802.1BR, TRILL
/// (RFC 6325), NSH (RFC 8300), and the tags of Marvell's switches.
#[inline]
fn is_sealed(kind: u16) -> bool
    ensures { result ≡ is_sealed kind }
{
    (kind == 0x88e5 || kind == 0x88e7 || kind == 0x893f)
        || (kind == 0x22f3 || kind == 0x894f || kind == 0xdada)
}

/// Whether the byte at a place is that one, if it is there.
#[inline]
pub fn is_said(bytes: &[u8], place: usize, wanted: u8) -> bool
    ensures { result ≡ is_said bytes.now place wanted }
{
    bytes.len() <= place || bytes[place] == wanted
}

/// Whether LLC stands behind a length that names a type with SNAP (IEEE 802.2; RFC 1042), as far as its bytes go.
#[inline]
fn is_snap(kind: u16, bytes: &[u8]) -> bool
    ensures { result ≡ is_snap kind bytes.now }
{
    kind <= 1500
        && ((is_said(bytes, 0, 0xaa) && is_said(bytes, 1, 0xaa) && is_said(bytes, 2, 3))
            && (is_said(bytes, 3, 0) && is_said(bytes, 4, 0) && is_said(bytes, 5, 0)))
}

/// Whether a tag, LLC with SNAP, PPPoE, a label or a frame of Ethernet stands behind a type, or what is not read.
#[inline]
fn is_shim(kind: u16, bytes: &[u8]) -> bool
    ensures { result ≡ is_shim kind bytes.now }
{
    (is_tag(kind)
        || kind == SESSION
        || is_labelled(kind)
        || is_bridged(kind)
        || is_snap(kind, bytes))
        || (is_numbered(kind) || is_sealed(kind))
}

/// How many bytes that has which stands behind a type.
#[inline]
fn shim_size(kind: u16) -> usize
    ensures { result ≡ shim_size kind }
{
    if is_tag(kind) || is_labelled(kind) {
        4
    } else if is_numbered(kind) {
        6
    } else if is_bridged(kind) {
        14
    } else {
        8
    }
}

/// The type of what a protocol of PPP is (RFC 1661, section 2); none where that is not read.
#[inline]
fn ppp_type(protocol: u16) -> Option<u16>
    ensures { result ≡ ppp_type protocol }
{
    if protocol == 0x0021 {
        Some(0x0800)
    } else if protocol == 0x0057 {
        Some(0x86dd)
    } else if protocol >= 0x4000 && protocol / 256 % 2 == 0 {
        Some(0xffff)
    } else {
        None
    }
}

/// The type of what a session of PPPoE carries (RFC 2516, section 4); none where that is not read.
#[inline]
fn session_type(bytes: &[u8]) -> Option<u16>
    requires { 8 ≤ length bytes.now }
    ensures { result ≡ session_type bytes.now }
{
    if pair_at(bytes, 0) == 0x1100 {
        ppp_type(pair_at(bytes, 6))
    } else {
        None
    }
}

/// The type of what stands behind a label (RFC 3032, section 2.1); none where that is not read.
#[inline]
fn label_type(kind: u16, bytes: &[u8]) -> Option<u16>
    requires { 4 ≤ length bytes.now }
    ensures { result ≡ label_type kind bytes.now }
{
    if bytes[2] % 2 == 0 {
        return Some(kind);
    }
    let Some(first) = bytes.get(4) else {
        return None;
    };
    match *first / 16 {
        4 => Some(0x0800),
        6 => Some(0x86dd),
        _ => None,
    }
}

/// The type that is named by what stands behind a type; none where that is not read.
#[inline]
fn next_type(kind: u16, bytes: &[u8]) -> Option<u16>
    requires { shim_size kind ≤ length bytes.now }
    ensures { result ≡ next_type kind bytes.now }
{
    if is_tag(kind) {
        return Some(pair_at(bytes, 2));
    }
    if kind == SESSION {
        return session_type(bytes);
    }
    if is_labelled(kind) {
        return label_type(kind, bytes);
    }
    if is_numbered(kind) {
        return Some(pair_at(bytes, 4));
    }
    if is_sealed(kind) {
        return None;
    }
    if is_bridged(kind) {
        return Some(pair_at(bytes, 12));
    }
    Some(pair_at(bytes, 6))
}

/// The type that is named by what stands behind a type, and what follows that; none where nothing stands there that is read, whole.
#[inline]
pub fn passed(kind: u16, bytes: &[u8]) -> Option<(u16, &[u8])>
    ensures { MatchOption result
        ((next : ℕ) → IsOver kind bytes.now next → ⊥)
        (λ found. IsOver kind bytes.now found.0 × (found.1.now ≡ drop (shim_size kind) bytes.now)) }
{
    if !is_shim(kind, bytes) {
        return None;
    }
    let size = shim_size(kind);
    if bytes.len() < size {
        return None;
    }
    let Some(next) = next_type(kind, bytes) else {
        return None;
    };
    Some((next, bytes.split_at(size).1))
}

/// The type after all that stands behind a type, and what follows it; none where the bytes end before, or are not read.
#[inline]
pub fn skip_tags(kind: u16, after: &[u8]) -> Option<(u16, &[u8])>
    ensures { MatchOption result
        ((last : ℕ) (content : List ℕ) → LeadsTo kind after.now last content → ⊥)
        (λ found. LeadsTo kind after.now found.0 found.1.now) }
{
    let mut next = kind;
    let mut rest = after;
    'tags: while is_shim(next, rest) {
        let size = shim_size(next);
        if rest.len() < size {
            return None;
        }
        let Some(named) = next_type(next, rest) else {
            return None;
        };
        next = named;
        rest = rest.split_at(size).1;
    }
    Some((next, rest))
}
