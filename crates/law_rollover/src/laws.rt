//! Laws of the definitions in `specs/`. Each is the contract of a function that does nothing.

ghost use Rattle.std.specs.Prelude.{◌≡◌, ◌↔◌, ◌≤◌, List, ℕ, false, length, reverse};
ghost use Rattle.tftp_packet.specs.{End, Message, Rollover, Spells, opcode_of};
ghost use Rattle.tftp_packet.specs.Rounds.{half_round, position_of};
ghost use Rattle.tftp_packet.specs.Hosts.{Datagram, Header};
ghost use Rattle.law_model.specs.Model.{Meaning, History, IsOneSided, IsView, windowsize_of};
ghost use Rattle.law_end.specs.{IsLawful, IsSeen, ShowsBy};
ghost use Rattle.law_rollover.specs.{
  AreBytes,
  AreLow,
  AreNear,
  AreUnrolled,
  IsLawfulByNumber,
  IsSeenByNumber,
  IsTimely,
  ShowsByNumber,
  ShowsNumbers,
  carries_number,
  numbers_of,
  positions_of,
  unrolled_payload,
};

use law_model::model::laws::one_side_makes_a_run;

/// Numbers are read in one way: from the oldest on, each as the block near the highest one that was read before.
pub fn numbers_are_read_in_one_way()
    ensures only { (r : Rollover) (h : History) → AreNear r h → positions_of r (numbers_of r h) ≡ h }
    ensures near { (r : Rollover) (numbers : History) → AreLow numbers → AreNear r (positions_of r numbers) }
    ensures numbered { (r : Rollover) (numbers : History) → AreLow numbers
        → numbers_of r (positions_of r numbers) ≡ numbers }
{}

/// Some run shows the numbers at an end exactly if the blocks that they are read as are those of one side of a run.
pub fn what_is_read_makes_a_run()
    ensures { (r : Rollover) (m : Meaning) (wire : List ℕ) (e : End) (numbers : History) → AreLow numbers
        → ShowsNumbers r m wire e numbers ↔ IsOneSided m wire e (positions_of r numbers) }
{
    one_side_makes_a_run();
}

/// In the first round nothing is read otherwise, but what is more than half a round late.
pub fn the_first_round_is_read_as_it_is()
    ensures { (r : Rollover) (h : History) → AreLow h → IsTimely h → positions_of r h ≡ h }
{}

/// Where a window is at most half a round, what an end sees of a run is near if none of it is more than half a round late.
pub fn what_is_not_late_is_near()
    ensures { (r : Rollover) (m : Meaning) (wire : List ℕ) (e : End) (h : History) → windowsize_of m ≤ half_round
        → IsView m wire e h → IsTimely h → AreNear r h }
{
    one_side_makes_a_run();
}

/// A payload with a block in the place of its number says that block, and all else as it did.
pub fn what_is_unrolled_says_its_block()
    ensures data { (r : Rollover) (high n : ℕ) (bytes payload : List ℕ) → Spells payload (Message.Data n bytes)
        → Spells (unrolled_payload r high payload) (Message.Data (position_of r high n) bytes) }
    ensures ack { (r : Rollover) (high n : ℕ) (payload : List ℕ) → Spells payload (Message.Ack n)
        → Spells (unrolled_payload r high payload) (Message.Ack (position_of r high n)) }
    ensures others { (r : Rollover) (high : ℕ) (payload : List ℕ) → carries_number payload ≡ false
        → unrolled_payload r high payload ≡ payload }
    ensures opcode { (r : Rollover) (high : ℕ) (payload : List ℕ) → opcode_of (unrolled_payload r high payload) ≡ opcode_of payload }
    ensures length { (r : Rollover) (high : ℕ) (payload : List ℕ) → length (unrolled_payload r high payload) ≡ length payload }
{}

/// A capture shows a run by numbers exactly if it shows the run with the blocks near in their place, and so is judged by the rules
/// as they stand.
pub fn what_is_unrolled_shows_the_run()
    ensures seen { (r : Rollover) (h : Header) (m : Meaning) (wire : List ℕ) (datagrams : List Datagram) → AreBytes datagrams
        → IsSeenByNumber r h m wire datagrams
        ↔ ((unrolled : List Datagram) × AreUnrolled r h (reverse datagrams) (reverse unrolled) × IsSeen h m wire unrolled) }
    ensures lawful { (r : Rollover) (h : Header) (datagrams : List Datagram) → AreBytes datagrams
        → IsLawfulByNumber r h datagrams
        ↔ ((unrolled : List Datagram) × AreUnrolled r h (reverse datagrams) (reverse unrolled) × IsLawful h unrolled) }
    ensures shows { (r : Rollover) (h : Header) (m : Meaning) (wire : List ℕ) (datagrams : List Datagram) → AreBytes datagrams
        → ShowsByNumber r h m wire datagrams
        ↔ ((unrolled : List Datagram) × AreUnrolled r h (reverse datagrams) (reverse unrolled) × ShowsBy h m wire unrolled) }
{
    one_side_makes_a_run();
}

/// What is unrolled is so in one way.
pub fn a_capture_is_unrolled_in_one_way()
    ensures { (r : Rollover) (h : Header) (datagrams one other : List Datagram) → AreUnrolled r h datagrams one
        → AreUnrolled r h datagrams other → one ≡ other }
{}
