//! What accuses an end is never taken back. Each law is the contract of a function that does nothing.

ghost use Rattle.std.specs.Prelude.{◌≡◌, ◌++◌, ◌∷◌, [], ℕ, List, None, Option};
ghost use Rattle.tftp_packet.specs.{Rollover};
ghost use Rattle.law_model.specs.{PortRule};
ghost use Rattle.law_end.specs.{Rule};
ghost use Rattle.audit_spared.specs.Finality.{IsSilent};
ghost use Rattle.audit_spared.specs.Spared.Worked.{asks_elsewhere, block_came};
ghost use Rattle.audit_recording.specs.Blame.Frames.{Carried, whole_of};
ghost use Rattle.audit_recording.specs.Blame.Worked.{in_even_frames};
ghost use Rattle.audit_recording.specs.declared.rows.row.Point.{Point};
ghost use Rattle.audit_cleared.specs.Accused.{IsAccusation};
ghost use Rattle.audit_cleared.specs.Worked.{asked_before};

/// Once a client has been silent for more than 300 s, what accuses an end of one of its transfers stays: whatever frames come later,
/// the same datagram breaks the same rule, in the same frame, without a doubt of the division.
pub fn an_accusation_stays()
    ensures { (rollover : Option Rollover) (named : List ℕ) (carried later : List Carried) (n : ℕ) (point : Point) (number : ℕ) (rule : Rule) (frame : ℕ)
        → (accusation : IsAccusation rollover named carried n point number rule frame)
        → IsSilent accusation.transfer.client (whole_of named carried) → IsAccusation rollover named (later ++ carried) n point number rule frame }
{}

/// Worked example: a client asks for a file, in frame 2, gets its block, in frame 4, and asks again at the port that answered, in
/// frame 6: that accuses it, in that frame and in no other. Had it left a request before that nobody had answered, it would not.
pub fn worked_accusation()
    ensures accused { IsAccusation None [] (in_even_frames (asks_elsewhere ∷ block_came)) 0 Point.Client 3 (Rule.Port PortRule.Wrong) 6 }
    ensures in_one_frame { (number : ℕ) (rule : Rule) → IsAccusation None [] (in_even_frames (asks_elsewhere ∷ block_came)) 0 Point.Client 3 rule number → number ≡ 6 }
    ensures not_doubtful { (rule : Rule) (frame : ℕ) → IsAccusation None [] (in_even_frames asked_before) 1 Point.Client 3 rule frame → ⊥ }
{}
