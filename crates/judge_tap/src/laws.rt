//! Laws of the definitions in `specs/`. Each is the contract of a function that does nothing.

ghost use Rattle.std.specs.Prelude.{◌≡◌, ◌↔◌, ℕ, Bool, List, ◌∷◌, Option, Some, true, false, reverse};
ghost use Rattle.tftp_packet.specs.{RequestParts, Rollover};
ghost use Rattle.law_model.specs.Model.{Meaning};
ghost use Rattle.law_model.specs.{EndRule};
ghost use Rattle.law_end.specs.{Rule, ShowsBy, OneEnded};
ghost use Rattle.law_tap.specs.{TapDatagram, TapSides, AreApart, IsCertainBetween, IsLawfulBetweenWithLosses, LossyBroken, ShowsBetween, TapBroken, transfer_between, BreaksNoTapRule, FirstTapAsked, header_at, kept_between};
ghost use Rattle.law_tap.specs.{AreTapBytes, AreUnrolledBetween, IsLawfulBetweenByNumber, IsUnrolledBetween};
ghost use Rattle.judge_tap.specs.TapKept.{IsTapJudge, TapJudge};
ghost use Rattle.judge_tap.specs.TapStops.{RefusesAtTap};
ghost use Rattle.judge_tap.specs.LossyKept.{HasBegun, IsNotCertain, RefusesWithLosses};
ghost use Rattle.judge_tap.specs.ToldKept.{IsTold};
ghost use Rattle.judge_tap.specs.declared.lossy_refusal.LossyRefusal.{LossyRefusal};
ghost use Rattle.judge_tap.specs.declared.refusal.TapRefusal.{TapRefusal};

/// What the end that gets the file would keep of a lawful capture between the ends breaks no rule there. So what it would keep
/// and does refuse, no point between the ends could have seen.
pub fn what_would_be_kept_is_lawful_there()
    ensures { (s : TapSides) (tapped : List TapDatagram) (asked : RequestParts) → AreApart s → BreaksNoTapRule s tapped
        → FirstTapAsked s (transfer_between s tapped) asked
        → OneEnded (header_at s asked.side) (kept_between s asked.side (transfer_between s tapped)) }
{}

/// And the capture shows a whole transfer, of a meaning over a wire, exactly if that end would be shown it by what it would keep.
pub fn what_is_shown_is_shown_there()
    ensures { (s : TapSides) (tapped : List TapDatagram) (asked : RequestParts) → AreApart s → BreaksNoTapRule s tapped
        → FirstTapAsked s (transfer_between s tapped) asked → (m : Meaning) (wire : List ℕ)
        → ShowsBetween s m wire tapped ↔ ShowsBy (header_at s asked.side) m wire (reverse (kept_between s asked.side (transfer_between s tapped))) }
{}

/// A judge that was fed by numbers stands for what some run shows by numbers, and with what it refuses by a rule none does.
pub fn what_is_fed_by_number_is_lawful_by_number()
    ensures accepted { (r : Rollover) (j : TapJudge) (s : TapSides) (tapped unrolled : List TapDatagram) → IsTapJudge j s unrolled → AreTapBytes tapped
        → AreUnrolledBetween r s tapped unrolled → IsLawfulBetweenByNumber r s tapped }
    ensures refused { (r : Rollover) (j : TapJudge) (s : TapSides) (tapped unrolled : List TapDatagram) (raw d : TapDatagram) → IsTapJudge j s unrolled
        → AreUnrolledBetween r s tapped unrolled → IsUnrolledBetween r (transfer_between s unrolled) raw d
        → (index : ℕ) (broken : Rule) (stands : Option Bool) → RefusesAtTap s unrolled d (TapRefusal.Unlawful index broken stands)
        → IsLawfulBetweenByNumber r s (raw ∷ tapped) → ⊥ }
{}

/// Nobody is refused with losses for what some lawful list has, and so nobody for what breaks no rule between the ends.
pub fn what_is_lawful_is_not_refused_with_losses()
    ensures lossy { (s : TapSides) (earlier : List TapDatagram) (d : TapDatagram) → IsLawfulBetweenWithLosses s (d ∷ earlier)
        → (index : ℕ) (broken : Rule) → RefusesWithLosses s earlier d (LossyRefusal.Certain index broken) → ⊥ }
    ensures accepted { (s : TapSides) (earlier : List TapDatagram) (d : TapDatagram) → AreApart s → BreaksNoTapRule s (d ∷ earlier)
        → (index : ℕ) (broken : Rule) → RefusesWithLosses s earlier d (LossyRefusal.Certain index broken) → ⊥ }
{}

/// What is told of a datagram after those that break no rule between the ends: yes, and it is certain to break the law whatever is
/// missing; no, and it is not, where the request is the first of the transfer and no block is changed. A changed block is certain by
/// its rule's name.
pub fn what_is_told_is_certain()
    ensures yes { (s : TapSides) (earlier : List TapDatagram) (d : TapDatagram) → AreApart s → IsTold s earlier d (Some true)
        → IsCertainBetween s earlier d }
    ensures no { (s : TapSides) (earlier : List TapDatagram) (d : TapDatagram) → AreApart s → BreaksNoTapRule s earlier → IsTold s earlier d (Some false)
        → (LossyBroken s earlier d (Rule.Block EndRule.BlockChanged) → ⊥) → HasBegun s (d ∷ earlier) → IsNotCertain s earlier d }
{}

/// A block that was said before with other bytes breaks no rule between the ends but that, where nothing else in it breaks a rule
/// whatever is missing.
pub fn a_changed_block_breaks_nothing_else()
    ensures { (s : TapSides) (earlier : List TapDatagram) (d : TapDatagram) (broken : Rule) → AreApart s → BreaksNoTapRule s earlier → IsTold s earlier d (Some false)
        → LossyBroken s earlier d (Rule.Block EndRule.BlockChanged) → TapBroken s earlier d broken → broken ≡ Rule.Block EndRule.BlockChanged }
{}
