//! Laws of the definitions in `specs/`. Each is the contract of a function that does nothing.

ghost use Rattle.std.specs.Prelude.{◌≡◌, ◌++◌, ℕ, List, Some};
ghost use Rattle.audit_flows.specs.Lines.{Recorded};
ghost use Rattle.audit_flows.specs.{Transfer};
ghost use Rattle.audit_flows.specs.Transfers.{placed};
ghost use Rattle.audit_spared.specs.Finality.{IsFinal, IsSilent, opened};

/// Once a client has been silent for more than 300 s, all is known of its transfers: whatever comes later, each end saw what it
/// had seen, the server is who it was, and each doubt stands as it stood. It holds of a recording whose clock goes back, too.
pub fn a_silent_transfer_is_final()
    ensures stays { (named : List ℕ) (recorded later : List Recorded) (n : ℕ) (x : Transfer) → opened n (placed named recorded) ≡ Some x
        → IsSilent x.client (placed named recorded) → IsFinal n (placed named recorded) (placed named (later ++ recorded)) }
{}
