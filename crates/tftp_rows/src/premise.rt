//! What a refusal rests on, in words.

ghost use Rattle.std.specs.Prelude.{◌≡◌, ◌++◌, OnOk, string_bytes};
ghost use Rattle.tftp_rows.specs.Premises.{beyond_text, goes_beyond, goes_beyond_once, premise_text};

use audit_rows::{Charge, Found, Viewed};
use judge_tap::TapRefusal;
use law_end::Rule;
use law_model::rules::EndRule;
use std::alloc::AllocError;
use tftp_judge::Refusal;

/// Puts whether a refusal that nothing makes doubtful stands whatever frames are missing except a request of its client, behind which
/// another transfer begins, or only if none is.
pub fn put_premise(
    line: &mut String,
    charge: &Charge,
    stands: Option<bool>,
) -> Result<(), AllocError>
    ensures { OnOk result (string_bytes line.new ≡ string_bytes line.old ++ premise_text charge.now stands) }
{
    if !charge.is_refusal || !charge.reasons.is_empty() {
        return Ok(());
    }
    match stands {
        Some(true) => line.push_str(", whatever is missing except a request"),
        _ => line.push_str(", if no frame is missing"),
    }
}

/// Whether it is refused so where block numbers do not begin again.
pub fn goes_beyond_once(view: &Viewed) -> bool
    ensures { result ≡ goes_beyond_once view.now }
{
    view.rollover.is_none() && goes_beyond(&view.found)
}

/// Whether it is refused by rule 20, since the transfer goes on after block 65535 (RFC 1350, section 5).
fn goes_beyond(found: &Found) -> bool
    ensures { result ≡ goes_beyond found.now }
{
    match found {
        Found::AtEnd(Err(Refusal::Unlawful(_, Rule::Block(EndRule::BeyondBlock65535)))) => true,
        Found::Between(Err(TapRefusal::Unlawful(_, Rule::Block(EndRule::BeyondBlock65535), _))) =>
            true,
        _ => false,
    }
}

/// Puts the words by which numbers that begin again are judged.
pub fn put_beyond(line: &mut String, beyond: bool) -> Result<(), AllocError>
    ensures { OnOk result (string_bytes line.new ≡ string_bytes line.old ++ beyond_text beyond) }
{
    if beyond {
        return line.push_str("; --end client --rollover 0 judges numbers that begin again");
    }
    Ok(())
}
