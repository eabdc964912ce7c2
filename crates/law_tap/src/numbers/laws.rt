//! Laws of the definitions in `specs/TapNumbers.antt`. Each is the contract of a function that does nothing.

ghost use Rattle.std.specs.Prelude.{◌≡◌, ◌↔◌, List, ℕ};
ghost use Rattle.tftp_packet.specs.{Rollover};
ghost use Rattle.law_model.specs.Model.{Meaning};
ghost use Rattle.law_tap.specs.TapCapture.{TapDatagram, TapSides, AreApart};
ghost use Rattle.law_tap.specs.TapDress.{IsLawfulBetween, IsSeenBetween, ShowsBetween};
ghost use Rattle.law_tap.specs.TapNumbers.{
  AreTapBytes,
  AreUnrolledBetween,
  IsLawfulBetweenByNumber,
  IsSeenBetweenByNumber,
  ShowsBetweenByNumber,
};
ghost use Rattle.law_tap.specs.TapRules.{BreaksNoTapRule};

/// A capture between the ends shows a run by numbers exactly if it shows the run with the blocks near in their place, and so is
/// judged by the rules as they stand.
pub fn what_is_unrolled_between_shows_the_run()
    ensures seen { (r : Rollover) (s : TapSides) (m : Meaning) (wire : List ℕ) (tapped : List TapDatagram) → AreApart s → AreTapBytes tapped
        → IsSeenBetweenByNumber r s m wire tapped
        ↔ ((unrolled : List TapDatagram) × AreUnrolledBetween r s tapped unrolled × IsSeenBetween s m wire unrolled) }
    ensures lawful { (r : Rollover) (s : TapSides) (tapped : List TapDatagram) → AreApart s → AreTapBytes tapped
        → IsLawfulBetweenByNumber r s tapped
        ↔ ((unrolled : List TapDatagram) × AreUnrolledBetween r s tapped unrolled × IsLawfulBetween s unrolled) }
    ensures shows { (r : Rollover) (s : TapSides) (m : Meaning) (wire : List ℕ) (tapped : List TapDatagram) → AreApart s → AreTapBytes tapped
        → ShowsBetweenByNumber r s m wire tapped
        ↔ ((unrolled : List TapDatagram) × AreUnrolledBetween r s tapped unrolled × ShowsBetween s m wire unrolled) }
{}

/// So it is lawful by numbers exactly if with the blocks near in their place it breaks no rule.
pub fn what_is_lawful_by_number_breaks_no_rule()
    ensures { (r : Rollover) (s : TapSides) (tapped : List TapDatagram) → AreApart s → AreTapBytes tapped
        → IsLawfulBetweenByNumber r s tapped
        ↔ ((unrolled : List TapDatagram) × AreUnrolledBetween r s tapped unrolled × BreaksNoTapRule s unrolled) }
{}

/// And with the blocks near in their place it is one list.
pub fn a_capture_between_is_unrolled_in_one_way()
    ensures { (r : Rollover) (s : TapSides) (tapped one other : List TapDatagram) → AreUnrolledBetween r s tapped one
        → AreUnrolledBetween r s tapped other → one ≡ other }
{}
