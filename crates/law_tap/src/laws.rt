//! Laws of the definitions in `specs/`. Each is the contract of a function that does nothing.

ghost use Rattle.std.specs.Prelude.{◌≡◌, ◌≤◌, ◌↔◌, ℕ, List, ◌∷◌, Contains, reverse, Some, Option};
ghost use Rattle.tftp_packet.specs.{End, Client, Server};
ghost use Rattle.tftp_packet.specs.{Rollover};
ghost use Rattle.tftp_packet.specs.Hosts.{Datagram, Header};
ghost use Rattle.law_model.specs.Model.{Meaning, blksize_of, block_count, MachinePacket, History, IsView, IsComplete, IsOneSided};
ghost use Rattle.law_model.specs.Model.Machines.{sender_of, receiver_of};
ghost use Rattle.law_end.specs.{Fits, IsDressed, IsSeen, ShowsBy, OneEnded, says_of, says_some, number_of, Rule};
ghost use Rattle.law_tap.specs.Tap.{
  Pass,
  TapStep,
  did,
  passed_in,
  IsTappedRun,
  IsTapView,
  as_at,
  MayPassEach,
  ComesEach,
  tapped_at,
  IsWholeAtTap,
};
ghost use Rattle.law_tap.specs.AtReceiver.{KeepsOrderEach};
ghost use Rattle.law_tap.specs.LeftOut.{LeavesOut};
ghost use Rattle.law_tap.specs.Seen.{Tapped, IsSeenAtTap, ShowsAtTap, mains_at};
ghost use Rattle.law_tap.specs.TapOrder.{kept_at, AreInTime};
ghost use Rattle.law_tap.specs.TapCapture.{TapDatagram, TapSides, AreApart};
ghost use Rattle.law_tap.specs.TapDress.{TapDivision, tapped_of, HaveTapLabels, IsLawfulBetween, ShowsBetween};
ghost use Rattle.law_tap.specs.TapRules.{BreaksNoTapRule, FirstTapBroken, IsTapRefused, IsOfSending, goes_on_to, told_server};
ghost use Rattle.law_model.specs.Rules.{first_of};

/// A list is what passed a tap between the two ends of some run exactly if each packet in it might come to the other end,
/// had that one sent just what had passed from it.
#[tactic(auto, using(crate::proofs::Replays::tap_view_is))]
pub fn what_may_pass_is_tapped()
    ensures { (m : Meaning) (wire : List ℕ) (passed : List Pass) → IsTapView m wire passed ↔ MayPassEach m wire passed }
{}

/// That is: what came to the client might come to it, and what came to the server to that one, judged apart. The rules
/// of what an end sends are not asked.
pub fn the_two_ends_are_judged_apart()
    ensures tap { (m : Meaning) (wire : List ℕ) (passed : List Pass) → MayPassEach m wire passed
        ↔ (ComesEach m wire Client (as_at Client passed) × ComesEach m wire Server (as_at Server passed)) }
    ensures end { (m : Meaning) (wire : List ℕ) (e : End) (h : History) → IsOneSided m wire e h → ComesEach m wire e h }
{}

/// What passed earlier is what passed a tap.
pub fn each_earlier_list_is_tapped()
    ensures { (m : Meaning) (wire : List ℕ) (x : Pass) (passed : List Pass) → IsTapView m wire (x ∷ passed)
        → IsTapView m wire passed }
{}

/// What passed may pass again, so a recorder that notes a datagram twice does no harm.
#[tactic(auto, using(crate::proofs::Wholes::passes_again))]
pub fn what_passed_may_pass_again()
    ensures { (m : Meaning) (wire : List ℕ) (x : Pass) (passed : List Pass) → Contains passed x → IsTapView m wire passed
        → IsTapView m wire (x ∷ passed) }
{}

/// What an end did in some run, read as what passed a tap beside that end, is what passed a tap in some run.
pub fn what_an_end_sees_is_tapped()
    ensures { (m : Meaning) (wire : List ℕ) (e : End) (h : History) → IsView m wire e h → IsTapView m wire (tapped_at e h) }
{}

/// So the main datagrams of a capture that is lawful at an end are lawful at a tap, by the same meaning and wire; and of one
/// that is whole there they are whole here.
pub fn lawful_at_an_end_is_lawful_at_a_tap()
    ensures seen { (h : Header) (m : Meaning) (wire : List ℕ) (datagrams : List Datagram) (s : IsSeen h m wire datagrams)
        → IsSeenAtTap h.rollover m wire (mains_at h.named s.dressed.division) }
    ensures whole { (h : Header) (m : Meaning) (wire : List ℕ) (datagrams : List Datagram) (s : ShowsBy h m wire datagrams)
        → ShowsAtTap h.rollover m wire (mains_at h.named s.seen.dressed.division) }
{}

/// Where the ACK of the last block has passed, each block has; the receiver has all of them and has acknowledged the last in
/// every such run; and in some such run the sender has been told.
pub fn whole_at_a_tap_is_complete()
    ensures blocks { (m : Meaning) (wire : List ℕ) (passed : List Pass) → MayPassEach m wire passed → IsWholeAtTap m wire passed
        → (k : ℕ) → 1 ≤ k → k ≤ block_count (blksize_of m) wire
        → Contains passed (record { from = sender_of m.side; packet = MachinePacket.Data k }) }
    ensures receiver { (m : Meaning) (wire : List ℕ) (steps : List TapStep) → IsTappedRun m wire steps
        → IsWholeAtTap m wire (passed_in steps) → IsComplete m wire (receiver_of m.side) (did (receiver_of m.side) steps) }
    ensures both { (m : Meaning) (wire : List ℕ) (passed : List Pass) → IsTapView m wire passed → IsWholeAtTap m wire passed
        → (steps : List TapStep) × IsTappedRun m wire steps × (passed_in steps ≡ passed)
        × IsComplete m wire (receiver_of m.side) (did (receiver_of m.side) steps)
        × IsComplete m wire (sender_of m.side) (did (sender_of m.side) steps) }
{}

/// What is whole at a tap means one transfer, over one wire.
pub fn whole_at_a_tap_has_one_meaning()
    ensures { (rollover : Option Rollover) (m n : Meaning) (wire other : List ℕ) (tapped : List Tapped)
        → ShowsAtTap rollover m wire tapped → ShowsAtTap rollover n other tapped
        → (m ≡ n) × (wire ≡ other) }
{}

/// What passed, read as what the receiver did, is lawful at the receiver exactly if it is lawful at a tap and the receiver's
/// part keeps its order: nothing but its ERROR after it, no request after an ACK, and no ERROR before the request.
pub fn the_receiver_is_a_tap_in_order()
    ensures { (m : Meaning) (wire : List ℕ) (passed : List Pass)
        → IsOneSided m wire (receiver_of m.side) (as_at (receiver_of m.side) passed)
        ↔ (MayPassEach m wire passed × KeepsOrderEach (receiver_of m.side) (as_at (receiver_of m.side) passed)) }
{}

/// So what passed a tap, dressed as a capture at the receiver, breaks none of the rules there, if the receiver's part keeps its
/// order; and what is whole at the tap is whole there.
pub fn a_tap_in_order_breaks_no_rule()
    ensures rules { (h : Header) (m : Meaning) (wire : List ℕ) (passed : List Pass) (datagrams : List Datagram) → Fits h.rollover m wire
        → h.named ≡ receiver_of m.side → IsTapView m wire passed → KeepsOrderEach h.named (as_at h.named passed)
        → IsDressed h m wire (as_at h.named passed) datagrams → OneEnded h (reverse datagrams) }
    ensures whole { (h : Header) (m : Meaning) (wire : List ℕ) (passed : List Pass) (datagrams : List Datagram) → Fits h.rollover m wire
        → h.named ≡ receiver_of m.side → IsTapView m wire passed → KeepsOrderEach h.named (as_at h.named passed)
        → IsDressed h m wire (as_at h.named passed) datagrams → IsWholeAtTap m wire passed → ShowsBy h m wire datagrams }
{}

/// A request that had passed before changes nothing: with it and without it a list is what passed a tap, or is not.
pub fn requests_may_be_left_out()
    ensures { (m : Meaning) (wire : List ℕ) (all rest : List Pass) → LeavesOut all rest → IsTapView m wire all
        ↔ IsTapView m wire rest }
{}

/// Where no ERROR of the receiver has passed, what passed a tap is in order at the receiver once the late requests are left
/// out. So, without them, it breaks no rule there.
pub fn without_late_requests_it_is_in_order()
    ensures { (m : Meaning) (wire : List ℕ) (passed : List Pass) → IsTapView m wire passed
        → ((code : ℕ) (text : List ℕ)
        → Contains passed (record { from = receiver_of m.side; packet = MachinePacket.Error code text }) → ⊥)
        → (rest : List Pass) × LeavesOut passed rest × KeepsOrderEach (receiver_of m.side) (as_at (receiver_of m.side) rest) }
{}

/// A capture between the ends divides in one way into packets of the two ends, strays and answers to strays; and the
/// division of a run is that one, whatever the run means.
pub fn a_tap_capture_divides_in_one_way()
    ensures one { (s : TapSides) (one other : TapDivision) → AreApart s → HaveTapLabels s says_some one → HaveTapLabels s says_some other
        → tapped_of one ≡ tapped_of other → one ≡ other }
    ensures of_run { (s : TapSides) (m : Meaning) (wire : List ℕ) (division : TapDivision) → HaveTapLabels s (says_of m wire) division
        → HaveTapLabels s says_some division }
{}

/// So what passed is lawful at a tap exactly if what is kept of it is lawful at the receiver, who took and sent just that, and
/// if what the order tells of a sender's ERROR was in time: an ACK answers what passed before the receiver's first ERROR, a
/// block of a write an answer that passed before the client's, and each ERROR says what the first of its end said.
#[tactic(auto, using(crate::proofs::TapBack::kept_tells))]
pub fn what_is_kept_tells_the_law()
    ensures { (m : Meaning) (wire : List ℕ) (passed : List Pass) → MayPassEach m wire passed
        ↔ (IsOneSided m wire (receiver_of m.side) (as_at (receiver_of m.side) (kept_at (receiver_of m.side) passed))
        × AreInTime m wire passed) }
{}

/// What a capture between the ends shows is what some run passes there exactly if no datagram of it breaks a rule.
pub fn lawful_tap_captures_break_no_rule()
    ensures { (s : TapSides) (tapped : List TapDatagram) → AreApart s → IsLawfulBetween s tapped ↔ BreaksNoTapRule s tapped }
{}

/// What a capture between the ends shows whole is one transfer, over one wire.
pub fn a_tap_capture_shows_one_transfer()
    ensures { (s : TapSides) (m n : Meaning) (wire other : List ℕ) (tapped : List TapDatagram) → AreApart s
        → ShowsBetween s m wire tapped → ShowsBetween s n other tapped → (m ≡ n) × (wire ≡ other) }
{}

/// A datagram between the ends has at most one first rule that it breaks, by the rule's number; and what is refused by one does
/// not pass.
pub fn first_rule_broken_at_a_tap_is_one()
    ensures one { (s : TapSides) (earlier : List TapDatagram) (d : TapDatagram) (rule other : Rule) → FirstTapBroken s earlier d rule
        → FirstTapBroken s earlier d other → number_of rule ≡ number_of other }
    ensures refused { (s : TapSides) (earlier : List TapDatagram) (d : TapDatagram) (rule : Rule) → IsTapRefused s earlier d rule
        → BreaksNoTapRule s (d ∷ earlier) → ⊥ }
{}

/// In a lawful capture between the ends the client's first datagram that is neither a request nor an ERROR tells the server.
#[tactic(auto, using(crate::proofs::TapOne::server_told))]
pub fn a_tap_capture_tells_its_server()
    ensures { (s : TapSides) (tapped : List TapDatagram) (d : TapDatagram) → AreApart s → IsLawfulBetween s tapped
        → first_of (goes_on_to s) tapped ≡ Some d → told_server s tapped ≡ Some s.server }
{}

/// The rules of the order in which an end sends are never the first that is broken between the ends, where that order is not
/// seen: a request or an OACK after the start, a block left out, and in lock step a block sent again.
#[tactic(auto, using(crate::proofs::TapNever::never_first))]
pub fn rules_of_sending_are_never_broken_at_a_tap()
    ensures { (s : TapSides) (earlier : List TapDatagram) (d : TapDatagram) (rule : Rule) → AreApart s → BreaksNoTapRule s earlier
        → FirstTapBroken s earlier d rule → IsOfSending rule → ⊥ }
{}
