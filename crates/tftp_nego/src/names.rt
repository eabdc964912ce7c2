ghost use Rattle.std.specs.Prelude.{◌≡◌, ◌↔◌, IsTrue, false, None, codes};
ghost use Rattle.std.specs.FinMap as map;
ghost use Rattle.tftp_packet.specs.{lower, map_of, AreOptions};
ghost use Rattle.tftp_nego.specs.Agreed.{EachName, SomeName, IsInProfile};
ghost use Rattle.tftp_nego.specs.Faults.{HasOption, IsOutsideProfile};

use tftp_packet::{OptionsView, Request};

/// Whether an OACK names `multicast` (RFC 2090).
pub fn names_multicast(oack: &OptionsView<'_>) -> bool
    ensures { IsTrue result ↔ HasOption (map_of oack.now) (codes "multicast") }
{
    oack.get(b"multicast").is_some()
}

/// Whether each option of an OACK was asked for (RFC 2347).
pub fn all_requested(request: &Request, oack: &OptionsView<'_>) -> bool
    ensures each { IsTrue result → EachName (HasOption request.now.options) oack.now }
    ensures some { result ≡ false → SomeName (λ name. map.get request.now.options name ≡ None) oack.now }
    ensures options { AreOptions oack.now }
{
    let asked = request.options();
    let mut pairs = oack.pairs();
    while let Some((name, _)) = pairs.next() {
        if asked.get(name).is_none() {
            return false;
        }
    }
    true
}

/// Whether each option of an OACK is one that may be agreed to.
pub fn all_known(oack: &OptionsView<'_>) -> bool
    ensures each { IsTrue result → EachName IsInProfile oack.now }
    ensures some { result ≡ false → SomeName IsOutsideProfile oack.now }
{
    let mut pairs = oack.pairs();
    while let Some((name, _)) = pairs.next() {
        if !is_known(name) {
            return false;
        }
    }
    true
}

/// Whether this is the name of one of the four options. Letter case counts for nothing (RFC 2347).
fn is_known(name: &[u8]) -> bool
    ensures each { IsTrue result → IsInProfile (lower name.now) }
    ensures other { result ≡ false → IsOutsideProfile (lower name.now) }
{
    name.eq_ignore_ascii_case(b"blksize")
        || name.eq_ignore_ascii_case(b"timeout")
        || name.eq_ignore_ascii_case(b"tsize")
        || name.eq_ignore_ascii_case(b"windowsize")
}
