ghost use Rattle.std.specs.Prelude.{◌≡◌, ◌<◌, ◌+◌, ℕ, IsTrue, false, Some, codes};
ghost use Rattle.std.specs.FinMap as map;
ghost use Rattle.tftp_packet.specs.{OptionValue, lower, map_of};
ghost use Rattle.tftp_nego.specs.declared.fault.NegoFault.{NegoFault};
ghost use Rattle.tftp_nego.specs.Agreed.{AllAnswered, SomeUnanswered, IsAnswered, IsUnanswered, IsLowered, IsKept, IsSize, numbers_of, FitsNumbers};
ghost use Rattle.tftp_nego.specs.Faults.{Holds};
ghost use Rattle.tftp_nego.specs.Numbers.{option_or};

use tftp_packet::rounds::{Rollover, greatest_block};
use tftp_packet::{Mode, OptionsView, Request, Side, Value};

/// Whether each of the four options of an OACK answers the number that was asked for (RFC 2348, RFC 2349, RFC 7440).
pub fn all_values(request: &Request, oack: &OptionsView<'_>) -> bool
    ensures each { IsTrue result → AllAnswered request.now (map_of oack.now) }
    ensures some { result ≡ false → SomeUnanswered request.now (map_of oack.now) }
{
    is_lowered(request, oack, b"blksize")
        && is_kept(request, oack, b"timeout")
        && is_lowered(request, oack, b"windowsize")
        && is_size_answered(request, oack)
}

/// Whether an option is left out, or its number is at most the one asked for.
fn is_lowered(request: &Request, oack: &OptionsView<'_>, name: &[u8]) -> bool
    ensures yes { IsTrue result → IsAnswered IsLowered request.now.options (map_of oack.now) (lower name.now) }
    ensures no { result ≡ false → IsUnanswered IsLowered request.now.options (map_of oack.now) (lower name.now) }
{
    if oack.get(name).is_none() {
        return true;
    }
    match numbers(request, oack, name) {
        Some((asked, given)) => given <= asked,
        None => false,
    }
}

/// Whether an option is left out, or its number is the one asked for.
fn is_kept(request: &Request, oack: &OptionsView<'_>, name: &[u8]) -> bool
    ensures yes { IsTrue result → IsAnswered IsKept request.now.options (map_of oack.now) (lower name.now) }
    ensures no { result ≡ false → IsUnanswered IsKept request.now.options (map_of oack.now) (lower name.now) }
{
    if oack.get(name).is_none() {
        return true;
    }
    match numbers(request, oack, name) {
        Some((asked, given)) => given == asked,
        None => false,
    }
}

/// Whether the size of the file is left out, or answers the one asked for: any number on a read, the same on a
/// write (RFC 2349).
fn is_size_answered(request: &Request, oack: &OptionsView<'_>) -> bool
    ensures yes { IsTrue result → IsAnswered (IsSize request.now.side) request.now.options (map_of oack.now) (codes "tsize") }
    ensures no { result ≡ false → IsUnanswered (IsSize request.now.side) request.now.options (map_of oack.now) (codes "tsize") }
{
    if oack.get(b"tsize").is_none() {
        return true;
    }
    match numbers(request, oack, b"tsize") {
        Some((asked, given)) => request.side() == Side::Get || given == asked,
        None => false,
    }
}

/// The number asked for and the number given of an option, where both are numbers.
fn numbers(request: &Request, oack: &OptionsView<'_>, name: &[u8]) -> Option<(u64, u64)>
    ensures { result ≡ numbers_of request.now.options (map_of oack.now) (lower name.now) }
{
    match (request.options().get(name), oack.number(name)) {
        (Some(Value::Num(asked)), Some(given)) => Some((*asked, given)),
        _ => None,
    }
}

/// Whether the file of an OACK's size in octet mode has no block above the greatest, where it tells the size.
pub fn fits_block_numbers(
    request: &Request,
    oack: &OptionsView<'_>,
    rollover: Option<Rollover>,
) -> bool
    ensures yes { IsTrue result → FitsNumbers rollover request.now (map_of oack.now) }
    ensures no { result ≡ false → Holds rollover NegoFault.BeyondBlock65535 request.now (map_of oack.now) }
{
    if request.mode() == Mode::Netascii {
        return true;
    }
    match oack.number(b"tsize") {
        Some(size) => size / block_size(oack) < u64::from(greatest_block(rollover)),
        None => true,
    }
}

/// The block size that an OACK gives, or 512 (RFC 2348).
#[tactic(auto, using(crate::proofs::Numbers::block_size_some))]
fn block_size(oack: &OptionsView<'_>) -> u64
    ensures size { result ≡ option_or 512 (map_of oack.now) (codes "blksize") }
    ensures some { 0 < result }
{
    match oack.number(b"blksize") {
        Some(size) => size,
        None => 512,
    }
}
