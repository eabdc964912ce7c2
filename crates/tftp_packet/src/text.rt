ghost use Rattle.std.specs.Prelude.{◌≡◌, ◌≢◌, ◌++◌, ◌∷◌, [], ◌<◌, ℕ, List, length, codes, ◌↔◌, ◌⊎◌, IsTrue, MatchBool, MatchOption, MatchResult};
ghost use Rattle.tftp_packet.specs.OptionMaps.{lower};
ghost use Rattle.tftp_packet.specs.Written.{IsString, terminated, pairs_of};
ghost use Rattle.tftp_packet.specs.Spelling.{mode_name};
ghost use Rattle.tftp_packet.specs.Faults.{EndsWithZero, ModeFault};
ghost use Rattle.tftp_packet.specs.Names.{StandsFirst};

use crate::fault::PacketFault;
use crate::kinds::Mode;
use memchr::memchr;

/// So many bytes are looked at one by one, since most strings are short.
const NEAR: usize = 12;

/// The string that stands first, and the bytes after its zero byte; none where no byte is zero.
pub fn split_string(bytes: &[u8]) -> Option<(&[u8], &[u8])>
    ensures { MatchOption result
        (IsString bytes.now)
        (λ parts. IsString parts.0.now × (bytes.now ≡ parts.0.now ++ 0 ∷ parts.1.now)) }
{
    let near = bytes.len().min(NEAR);
    for end in 0..near {
        if bytes[end] == 0 {
            return Some((&bytes[..end], &bytes[end + 1..]));
        }
    }
    let (far, after) = split_long_string(&bytes[near..])?;
    Some((&bytes[..near + far.len()], after))
}

/// The same, for a string that may be long.
fn split_long_string(bytes: &[u8]) -> Option<(&[u8], &[u8])>
    ensures { MatchOption result
        (IsString bytes.now)
        (λ parts. IsString parts.0.now × (bytes.now ≡ parts.0.now ++ 0 ∷ parts.1.now)) }
{
    let end = memchr(0, bytes)?;
    Some((&bytes[..end], &bytes[end + 1..]))
}

/// The option that stands first: its name, its value, and the bytes after it.
pub fn split_pair(bytes: &[u8]) -> Option<(&[u8], &[u8], &[u8])>
    ensures { MatchOption result
        (pairs_of bytes.now ≡ [])
        (λ parts. (pairs_of bytes.now ≡ (parts.0.now, parts.1.now) ∷ pairs_of parts.2.now) × (length parts.2.now < length bytes.now)
        × StandsFirst bytes.now parts.0.now parts.2.now) }
{
    let (name, rest) = split_string(bytes)?;
    let (text, after) = split_string(rest)?;
    Some((name, text, after))
}

/// The bytes before a zero byte that stands last, and is the only one.
pub fn only_string(bytes: &[u8]) -> Option<&[u8]>
    ensures { MatchOption result
        ((only : List ℕ) → IsString only → bytes.now ≢ terminated only)
        (λ only. IsString only.now × (bytes.now ≡ terminated only.now)) }
{
    let (only, rest) = split_string(bytes)?;
    if rest.is_empty() { Some(only) } else { None }
}

/// Whether the last byte is zero.
#[inline]
pub fn ends_with_zero(bytes: &[u8]) -> bool
    ensures { IsTrue result ↔ EndsWithZero bytes.now }
{
    matches!(bytes, [.., 0])
}

/// Whether no byte follows the last zero.
pub fn is_ended(bytes: &[u8]) -> bool
    ensures { MatchBool result ((bytes.now ≡ []) ⊎ EndsWithZero bytes.now) ((bytes.now ≢ []) × (EndsWithZero bytes.now → ⊥)) }
{
    bytes.is_empty() || ends_with_zero(bytes)
}

/// The mode that a text names in any mix of letter case (RFC 1350, section 5).
pub fn read_mode(text: &[u8]) -> Result<Mode, PacketFault>
    ensures { MatchResult result (λ mode. lower text.now ≡ mode_name mode) (ModeFault (lower text.now)) }
{
    if text.eq_ignore_ascii_case(b"octet") {
        Ok(Mode::Octet)
    } else if text.eq_ignore_ascii_case(b"netascii") {
        Ok(Mode::Netascii)
    } else if text.eq_ignore_ascii_case(b"mail") {
        Err(PacketFault::MailMode)
    } else {
        Err(PacketFault::UnknownMode)
    }
}
