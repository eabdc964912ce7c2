//! Laws of the definitions in `specs/`. Each is the contract of a function that does nothing.

ghost use Rattle.std.specs.Prelude.{◌≡◌, ℕ, List};
ghost use Rattle.tftp_capture.specs.{Begins, HasFault, IsCapture, Numbered, TextFault};
ghost use Rattle.tftp_packet.specs.Hosts.{Header};
ghost use Rattle.judge_pair.specs.MatchTexts.Datagrams.{HasDatagrams};

/// The datagrams of a capture are those that it says, the datagrams of a text with a fault are those before it, where it has
/// a header, and a text has the datagrams of no other.
pub fn texts_have_their_datagrams()
    ensures captured { (text : List ℕ) (h : Header) (ds : List Numbered) → IsCapture text h ds → HasDatagrams text h ds }
    ensures faulty { (text : List ℕ) (h : Header) (ds : List Numbered) (line : ℕ) (fault : TextFault) → HasFault text ds line fault → Begins text h ds
        → HasDatagrams text h ds }
    ensures one { (text : List ℕ) (h k : Header) (ds es : List Numbered) → HasDatagrams text h ds → HasDatagrams text k es → (h ≡ k) × (ds ≡ es) }
{}
