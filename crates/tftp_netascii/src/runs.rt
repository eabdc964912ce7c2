//! The bytes that netascii gives a meaning of their own, and the runs between them.

ghost use Rattle.std.specs.Prelude.{◌≡◌, ◌⊎◌, ◌≢◌, ◌∷◌, ◌++◌, All, IfSome, IfNone};
ghost use Rattle.tftp_netascii.specs.Netascii.{lf, cr};
ghost use Rattle.tftp_netascii.specs.Runs.{IsPlain, ReadsAfterReturn};

use memchr::memchr;

/// Makes a carriage return alone of the CR before it (RFC 764).
pub(crate) const NUL: u8 = b'\0';

/// The end of a line in a file, and on the wire together with the CR before it (RFC 764).
pub(crate) const LF: u8 = b'\n';

/// The byte that the byte after it gives its meaning (RFC 764).
pub(crate) const CR: u8 = b'\r';

/// The bytes before the first CR, and those after it.
pub(crate) fn split_at_return(wire: &[u8]) -> Option<(&[u8], &[u8])>
    ensures parts { IfSome result (λ parts. wire.now ≡ parts.0.now ++ cr ∷ parts.1.now) }
    ensures run { IfSome result (λ parts. All (λ byte. byte ≢ cr) parts.0.now) }
    ensures none { IfNone result (All (λ byte. byte ≢ cr) wire.now) }
{
    let at = memchr(CR, wire)?;
    Some((&wire[..at], &wire[at + 1..]))
}

/// The bytes before the first LF or CR, that byte, and those after it.
pub(crate) fn split_at_control(file: &[u8]) -> Option<(&[u8], u8, &[u8])>
    ensures parts { IfSome result (λ parts. file.now ≡ parts.0.now ++ parts.1 ∷ parts.2.now) }
    ensures control { IfSome result (λ parts. (parts.1 ≡ lf) ⊎ (parts.1 ≡ cr)) }
    ensures run { IfSome result (λ parts. All IsPlain parts.0.now) }
    ensures none { IfNone result (All IsPlain file.now) }
{
    let at = file.iter().position(|byte| matches!(*byte, LF | CR))?;
    Some((&file[..at], file[at], &file[at + 1..]))
}

/// What a CR stands for by the bytes after it, and those of them that are still to be read.
pub(crate) fn after_return(rest: &[u8]) -> (u8, &[u8])
    ensures { ReadsAfterReturn rest.now result.0 result.1.now }
{
    match rest {
        [LF, after @ ..] => (LF, after),
        [NUL, after @ ..] => (CR, after),
        _ => (CR, rest),
    }
}
