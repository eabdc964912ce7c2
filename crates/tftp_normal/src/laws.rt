//! What holds of the normal capture; `rollover` is what comes after block 65535, where anything does. Each law is the contract
//! of a function that does nothing.

ghost use Rattle.std.specs.Prelude.{◌≡◌, ◌^◌, ◌≤◌, ◌↔◌, ℕ, List, All, Ok, length, Option, Some, None};
ghost use Rattle.tftp_packet.specs.{Rollover};
ghost use Rattle.tftp_capture.specs.CaptureText.{Datagram, Header};
ghost use Rattle.tftp_capture.specs.{IsCapture, IsLawful as IsLawfulDatagram, NamesNoHost, numbered};
ghost use Rattle.law_model.specs.Model.{Meaning, windowsize_of};
ghost use Rattle.tftp_judge.specs.{IsTextVerdictBy};
ghost use Rattle.law_end.specs.{ShowsBy, wire_of, CanBeWritten};
ghost use Rattle.law_rollover.specs.{ShowsByNumber};
ghost use Rattle.tftp_normal.specs.Normal.{normal_datagrams, normal_datagrams_by, normal_header, normal_text, normal_text_by, normal_count};
ghost use Rattle.tftp_normal.specs.Accepted.{IsAcceptedBy, IsShownBy, IsShownOver};

/// How many datagrams the normal capture has: what opens the transfer, the blocks, and an ACK for each window.
#[tactic(auto, using(crate::proofs::Lengths::counted))]
pub fn normal_capture_is_counted()
    ensures { (rollover : Option Rollover) (m : Meaning) → 1 ≤ windowsize_of m → length (normal_datagrams_by rollover m) ≡ normal_count m }
{}

/// No capture at either end that shows a meaning over the wire that is written for it has fewer datagrams.
pub fn normal_capture_is_shortest()
    ensures by_blocks { (rollover : Option Rollover) (h : Header) (m : Meaning) (datagrams : List Datagram) → ShowsBy h m (wire_of m) datagrams
        → length (normal_datagrams_by rollover m) ≤ length datagrams }
    ensures by_numbers { (r : Rollover) (h : Header) (m : Meaning) (datagrams : List Datagram) → ShowsByNumber r h m (wire_of m) datagrams
        → length (normal_datagrams_by (Some r) m) ≤ length datagrams }
{}

/// The normal capture shows its meaning at the client, over the wire that is written for it; where numbers begin again, by
/// numbers, and each block and each ACK is near.
pub fn normal_capture_shows_its_meaning()
    ensures over_its_wire { (rollover : Option Rollover) (m : Meaning) → CanBeWritten rollover m
        → IsShownOver rollover normal_header m (wire_of m) (normal_datagrams_by rollover m) }
    ensures shows { (rollover : Option Rollover) (m : Meaning) → CanBeWritten rollover m → IsShownBy rollover normal_header m (normal_datagrams_by rollover m) }
{}

/// In the first round nothing is numbered otherwise: a meaning of at most 65535 blocks has one normal capture and one normal
/// text, whatever comes after block 65535.
pub fn the_first_round_is_written_as_it_is()
    ensures datagrams { (r : Rollover) (m : Meaning) → CanBeWritten None m → normal_datagrams_by (Some r) m ≡ normal_datagrams m }
    ensures text { (r : Rollover) (m : Meaning) → CanBeWritten None m → normal_text_by (Some r) m ≡ normal_text m }
{}

/// Two meanings have two normal captures.
#[tactic(auto, using(crate::proofs::Texts::injective))]
pub fn normal_capture_has_one_meaning()
    ensures { (rollover : Option Rollover) (m o : Meaning) → CanBeWritten rollover m → CanBeWritten rollover o
        → normal_datagrams_by rollover m ≡ normal_datagrams_by rollover o → m ≡ o }
{}

/// The normal text is a capture text: each datagram can stand in one and names no host, the text is within its limit, and
/// it says the normal capture, the first datagram on line 4.
pub fn normal_text_says_the_normal_capture()
    ensures lawful { (rollover : Option Rollover) (m : Meaning) → CanBeWritten rollover m
        → All IsLawfulDatagram (normal_datagrams_by rollover m) × All NamesNoHost (normal_datagrams_by rollover m) }
    ensures fits { (rollover : Option Rollover) (m : Meaning) → CanBeWritten rollover m → length (normal_text_by rollover m) ≤ 2 ^ 40 }
    ensures says { (rollover : Option Rollover) (m : Meaning) → CanBeWritten rollover m
        → IsCapture (normal_text_by rollover m) normal_header (numbered 4 (normal_datagrams_by rollover m)) }
{}

/// The normal text of a meaning that can be written is accepted with it; so is that of a text which is accepted.
pub fn normal_text_is_accepted()
    ensures of_meaning { (rollover : Option Rollover) (m : Meaning) → CanBeWritten rollover m → IsAcceptedBy rollover (normal_text_by rollover m) m }
    ensures of_text { (rollover : Option Rollover) (text : List ℕ) (m : Meaning) → IsAcceptedBy rollover text m → IsAcceptedBy rollover (normal_text_by rollover m) m }
{}

/// A text is accepted with one meaning, which can be written.
pub fn accepted_text_has_one_meaning()
    ensures one { (rollover : Option Rollover) (text : List ℕ) (m o : Meaning) → IsAcceptedBy rollover text m → IsAcceptedBy rollover text o → m ≡ o }
    ensures written { (rollover : Option Rollover) (text : List ℕ) (m : Meaning) → IsAcceptedBy rollover text m → CanBeWritten rollover m }
{}

/// A normal text is its own normal text: to normalise twice is to normalise once.
pub fn normal_text_is_its_own()
    ensures { (rollover : Option Rollover) (text : List ℕ) (m o : Meaning) → IsAcceptedBy rollover text m
        → IsAcceptedBy rollover (normal_text_by rollover m) o → normal_text_by rollover o ≡ normal_text_by rollover m }
{}

/// Two texts that are accepted have one normal text exactly if they have one meaning.
pub fn normal_texts_are_equal_as_meanings_are()
    ensures { (rollover : Option Rollover) (text other : List ℕ) (m o : Meaning) → IsAcceptedBy rollover text m → IsAcceptedBy rollover other o
        → normal_text_by rollover m ≡ normal_text_by rollover o ↔ m ≡ o }
{}

/// A capture text is accepted with a meaning exactly if some run of the two ends, over a network that loses, repeats and
/// reorders, shows it at its named end as that one complete transfer; where numbers begin again, by its numbers, no block and no
/// ACK far from the highest block there. Two accepted texts have equal normal texts exactly if their meanings are equal; and a
/// normal text is accepted with its meaning and is its own normal text. `accepted` is the step from one definition to the other
/// alone: that what is answered of a text is what its runs say is in the clauses `whole` and `exact` of `judge_text`, and of what
/// is written in those of `normalise`.
pub fn accepted_texts_are_those_of_whole_runs()
    ensures accepted { (rollover : Option Rollover) (text : List ℕ) (m : Meaning) → IsTextVerdictBy rollover text (Ok m) ↔ IsAcceptedBy rollover text m }
    ensures equal { (rollover : Option Rollover) (text other : List ℕ) (m o : Meaning) → IsTextVerdictBy rollover text (Ok m) → IsTextVerdictBy rollover other (Ok o)
        → normal_text_by rollover m ≡ normal_text_by rollover o ↔ m ≡ o }
    ensures normal { (rollover : Option Rollover) (text : List ℕ) (m : Meaning) → IsTextVerdictBy rollover text (Ok m)
        → IsTextVerdictBy rollover (normal_text_by rollover m) (Ok m)
        × ((o : Meaning) → IsTextVerdictBy rollover (normal_text_by rollover m) (Ok o) → normal_text_by rollover o ≡ normal_text_by rollover m) }
{}
