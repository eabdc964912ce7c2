//! Laws of the definitions in `specs/`. Each is the contract of a function that does nothing.

ghost use Rattle.std.specs.Prelude.{◌≡◌, ◌++◌, ℕ, List, ◌∷◌, All};
ghost use Rattle.law_model.specs.Model.{Meaning};
ghost use Rattle.law_end.specs.{OneEnded, Meant, Rule};
ghost use Rattle.audit_views.specs.Parties.{host_name};
ghost use Rattle.audit_flows.specs.Lines.{Recorded};
ghost use Rattle.audit_flows.specs.{Endpoint, Transfer};
ghost use Rattle.audit_flows.specs.Transfers.{placed};
ghost use Rattle.audit_views.specs.Views.{client_capture, client_header, server_capture, server_header};
ghost use Rattle.law_tap.specs.{BreaksNoTapRule, IsTapRefused, ShowsBetween};
ghost use Rattle.audit_recording.specs.Between.{between_capture, passed_of, sides_of};
ghost use Rattle.audit_cleared.specs.Cleared.{BothSaw, IsSentThere, IsServedIn, IsTransferIn};

/// Where no datagram of a transfer breaks a rule at its client, none breaks a rule between the ends (RFC 1350, section 4); and
/// what is whole at the client means the same between.
pub fn client_clears()
    ensures rules { (named : List ℕ) (recorded : List Recorded) (x : Transfer) → IsTransferIn x named recorded
        → OneEnded (client_header x) (client_capture host_name x (placed named recorded))
        → BreaksNoTapRule (sides_of x (placed named recorded)) (between_capture x (placed named recorded)) }
    ensures accepted { (named : List ℕ) (recorded : List Recorded) (x : Transfer) → IsTransferIn x named recorded
        → (m : Meaning) → Meant (client_header x) (client_capture host_name x (placed named recorded)) m
        → (wire : List ℕ) × ShowsBetween (sides_of x (placed named recorded)) m wire (between_capture x (placed named recorded)) }
{}

/// Where no datagram that the server saw breaks a rule there, and the client sent to none but the server, none breaks a rule
/// between the ends; and whatever the client sent, nothing that the server saw is refused first there (RFC 1350, section 4).
pub fn server_clears()
    ensures rules { (named : List ℕ) (more part : List Recorded) (x : Transfer) (server : Endpoint) → IsServedIn x server named more part
        → All (IsSentThere x (placed named (more ++ part))) (placed named part)
        → OneEnded (server_header x) (server_capture host_name x (placed named (more ++ part)) (placed named part))
        → BreaksNoTapRule (sides_of x (placed named (more ++ part))) (between_capture x (placed named part)) }
    ensures seen { (named : List ℕ) (more rest : List Recorded) (d : Recorded) (x : Transfer) (server : Endpoint)
        → IsServedIn x server named more (d ∷ rest)
        → BothSaw x (placed named (more ++ d ∷ rest)) (placed named (d ∷ rest))
        → OneEnded (server_header x) (server_capture host_name x (placed named (more ++ d ∷ rest)) (placed named (d ∷ rest)))
        → (rule : Rule)
        → IsTapRefused (sides_of x (placed named (more ++ d ∷ rest))) (between_capture x (placed named rest)) (passed_of d) rule → ⊥ }
{}
