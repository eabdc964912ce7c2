ghost use Rattle.std.specs.Prelude.{◌≡◌, ◌≢◌, ◌↔◌, ◌⊎◌, IsTrue, IsOk, IfOk, IfErr, Err};
ghost use Rattle.tftp_packet.specs.{no_options, map_of};
ghost use Rattle.tftp_nego.specs.Agreement.{MayAgree};
ghost use Rattle.tftp_nego.specs.Faults.{FirstFault};
ghost use Rattle.tftp_nego.specs.declared.fault.NegoFault.{NegoFault};

use crate::agreed::Agreed;
use crate::fault::NegoFault;
use crate::names::{all_known, all_requested, names_multicast};
use crate::rule::AgreementRule;
use crate::values::{all_values, fits_block_numbers};
use std::alloc::Global;
use tftp_packet::rounds::Rollover;
use tftp_packet::{OptionsView, Request, own_options};

/// What an OACK agrees to, where it may answer the request (RFC 2347). An error is the first of the faults. The greatest
/// block is that of `rollover`.
#[tactic(auto, using(crate::proofs::Numbers::map_in_range))]
pub fn agree(
    alloc: Global,
    request: &Request,
    oack: &OptionsView<'_>,
    rollover: Option<Rollover>,
) -> Result<Agreed, NegoFault>
    ensures ok { IfOk result (λ agreed. (agreed ≡ map_of oack.now) × (agreed ≢ no_options) × MayAgree rollover request.now agreed) }
    ensures only { map_of oack.now ≢ no_options → MayAgree rollover request.now (map_of oack.now) → IsOk result ⊎ (result ≡ Err NegoFault.Memory) }
    ensures fault { (f : NegoFault) → f ≢ NegoFault.Memory → ((result ≡ Err f) ↔ FirstFault rollover request.now (map_of oack.now) f) }
    ensures memory { result ≡ Err NegoFault.Memory → (map_of oack.now ≢ no_options) × MayAgree rollover request.now (map_of oack.now) }
{
    test_options(request, oack, rollover)?;
    match own_options(alloc, oack) {
        Ok(options) => Ok(Agreed::of(options)),
        Err(_) => Err(NegoFault::Memory),
    }
}

/// Tests the options of an OACK in the order of the faults.
fn test_options(
    request: &Request,
    oack: &OptionsView<'_>,
    rollover: Option<Rollover>,
) -> Result<(), NegoFault>
    ensures ok { IfOk result (λ _. (map_of oack.now ≢ no_options) × MayAgree rollover request.now (map_of oack.now)) }
    ensures err { IfErr result (FirstFault rollover request.now (map_of oack.now)) }
{
    if oack.is_empty() {
        return Err(NegoFault::Broken(AgreementRule::OackEmpty));
    }
    if names_multicast(oack) {
        return Err(NegoFault::Broken(AgreementRule::MulticastAgreed));
    }
    if !all_requested(request, oack) {
        return Err(NegoFault::Broken(AgreementRule::OptionNotRequested));
    }
    if !all_known(oack) {
        return Err(NegoFault::Broken(AgreementRule::OptionOutsideProfile));
    }
    if !all_values(request, oack) {
        return Err(NegoFault::Broken(AgreementRule::OptionValue));
    }
    if !fits_block_numbers(request, oack, rollover) {
        return Err(NegoFault::BeyondBlock65535);
    }
    Ok(())
}
