//! Laws of the definitions in `specs/`. Each is the contract of a function that does nothing.

ghost use Rattle.std.specs.Prelude.{◌≡◌, [], ◌++◌, ◌∷◌, ℕ, List, None, Ok, Option, Some, false, true};
ghost use Rattle.audit_recording.specs.Between.Captured.{between_capture, is_to_itself, server_or_asked, sides_by, sides_of};
ghost use Rattle.audit_recording.specs.Between.Judged.{HoldsBetween, IsBetweenFoundBy};
ghost use Rattle.audit_recording.specs.Between.Kept.{IsBetweenAfterBy, View};
ghost use Rattle.audit_recording.specs.Between.Worked.{asked_twice_between, asked_twice_sides, first_transfer};
ghost use Rattle.audit_views.specs.Parties.{IsAddress};
ghost use Rattle.law_model.specs.Model.{Meaning};
ghost use Rattle.law_tap.specs.{AreApart, AreTapBytes, ShowsBetweenByNumber, TapDatagram, TapSides, block_65536, last_of_round, number_zero, rolling_sides};
ghost use Rattle.tftp_packet.specs.{Rollover, Zero};
ghost use Rattle.audit_flows.specs.Lines.{Placed, is_of};
ghost use Rattle.audit_flows.specs.{Transfer};
ghost use Rattle.audit_flows.specs.Transfers.{placed, is_settled, server_of, asked_twice};

/// The stray passes with its own source, and the sides are the client's, the service port's and the server's.
pub fn worked_between()
    ensures capture { between_capture first_transfer (placed [] asked_twice) ≡ asked_twice_between }
    ensures sides { sides_of first_transfer (placed [] asked_twice) ≡ asked_twice_sides }
    ensures apart { is_to_itself first_transfer (placed [] asked_twice) ≡ false }
{}

/// By 0 after block 65535 a DATA of number 0 is taken for block 65536 once block 65535 has passed. Where no rollover is named it is taken as
/// it is.
pub fn worked_numbers()
    ensures by_zero { HoldsBetween (Some Zero) (λ k taken. taken ≡ block_65536 ∷ last_of_round ∷ []) (sides_by None rolling_sides) (number_zero ∷ last_of_round ∷ []) }
    ensures by_none { HoldsBetween None (λ k taken. taken ≡ number_zero ∷ last_of_round ∷ []) (sides_by None rolling_sides) (number_zero ∷ last_of_round ∷ []) }
    ensures sides { sides_by (Some Zero) (sides_by None rolling_sides) ≡ rolling_sides }
{}

/// Once it is known whom a client asked, who answered and with whom it went on, the sides stay, whatever comes.
pub fn settled_sides_stay()
    ensures { (x : Transfer) (more placed : List Placed) → is_settled x.number placed ≡ true
        → sides_of x (more ++ placed) ≡ sides_of x placed }
{}

/// A datagram that is not of a transfer at its client tells its judge nothing: what stands for the datagrams before it stands
/// for it too.
pub fn what_is_not_of_a_transfer_changes_nothing()
    ensures { (rollover : Option Rollover) (v : View) (p : Placed) (older : List Placed) → is_of v.transfer.number p ≡ false
        → IsBetweenAfterBy rollover v older → IsBetweenAfterBy rollover v (p ∷ older) }
{}

/// Endpoints that are not the same have not the same sides, since the names of hosts are those of their addresses: a client that
/// is not the one it asked, nor the server, is apart from both, and may be judged. And no other client is.
pub fn sides_are_apart()
    ensures apart { (x : Transfer) (whole : List Placed) → IsAddress x.client.address → IsAddress x.asked.address
        → IsAddress (server_or_asked x (server_of x.number whole)).address → is_to_itself x whole ≡ false → AreApart (sides_of x whole) }
    ensures only { (x : Transfer) (whole : List Placed) → AreApart (sides_of x whole) → is_to_itself x whole ≡ false }
{}

/// What is accepted between the ends by a rollover is what some run shows there by the numbers of blocks: the verdict is on what was recorded, and not on
/// what it is taken for.
pub fn what_is_accepted_by_number_is_shown_by_number()
    ensures { (r : Rollover) (s : TapSides) (given : List TapDatagram) (m : Meaning) → AreApart s → AreTapBytes given → IsBetweenFoundBy (Some r) s given (Ok m)
        → (wire : List ℕ) × ShowsBetweenByNumber r (sides_by (Some r) s) m wire given }
{}
