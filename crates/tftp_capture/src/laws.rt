ghost use Rattle.std.specs.Prelude.{◌≡◌, ◌≢◌, ◌^◌, ◌≤◌, ◌⊎◌, ◌++◌, ◌∷◌, [], ℕ, List, All, length, map, None};
ghost use Rattle.tftp_capture.specs.Commented.{Entry, IsEntry, commented_text, numbered_in, said_in};
ghost use Rattle.tftp_capture.specs.Commented.Entry.{Passed};
ghost use Rattle.tftp_capture.specs.CaptureText.{text_of, text_with_hosts, Begins, BeginsWith, Datagram, Due, HasFault, Header, IsCapture, IsLawful, IsPort, Numbered, NamesNoHost, Reading, Reads, Unfinished, numbered};
ghost use Rattle.tftp_capture.specs.Heads.{BeginsWithHead, IsDecoded, SpellsBehind};
ghost use Rattle.tftp_capture.specs.InTwo.{in_version_two};
ghost use Rattle.tftp_capture.specs.Lines.{HoldsPart};
ghost use Rattle.tftp_capture.specs.Worked.{block_head, block_line, cut_line, host_datagrams, host_text, named_datagrams, named_text, worked_datagrams, worked_header, worked_text, worked_text_in_two};

use crate::fault::TextFault;

/// The canonical text of a read of one block (RFC 1350, sections 4 and 5), byte for byte.
pub fn worked_text_is_canonical()
    ensures { text_of worked_header worked_datagrams ≡ worked_text }
{}

/// The canonical text of version 2 of the same read, from a server that answers from another host, byte for byte.
pub fn worked_text_with_hosts_is_canonical()
    ensures { text_with_hosts worked_header host_datagrams ≡ host_text }
{}

/// A canonical text has no fault, and says its header and its datagrams, the first on line 4: in version 1 of datagrams
/// that name no host, in version 2 of datagrams with any hosts.
pub fn canonical_text_is_read()
    ensures one { (header : Header) (datagrams : List Datagram) → IsPort header.service → header.rollover ≡ None → All IsLawful datagrams → All NamesNoHost datagrams → length (text_of header datagrams) ≤ 2 ^ 40
        → IsCapture (text_of header datagrams) header (numbered 4 datagrams) }
    ensures two { (header : Header) (datagrams : List Datagram) → IsPort header.service → header.rollover ≡ None → All IsLawful datagrams → length (text_with_hosts header datagrams) ≤ 2 ^ 40
        → IsCapture (text_with_hosts header datagrams) header (numbered 4 datagrams) }
{}

/// A text with comments has no fault, and says its header and its datagrams on the lines where they stand; without
/// comments it is the canonical text of version 2.
pub fn commented_text_is_read()
    ensures read { (header : Header) (entries : List Entry) → IsPort header.service → header.rollover ≡ None → All IsEntry entries → length (commented_text header entries) ≤ 2 ^ 40
        → IsCapture (commented_text header entries) header (numbered_in 4 entries) }
    ensures datagrams { (entries : List Entry) (n : ℕ) → map (λ (d : Numbered). d.1) (numbered_in n entries) ≡ said_in entries }
    ensures plain { (header : Header) (datagrams : List Datagram) → commented_text header (map Passed datagrams) ≡ text_with_hosts header datagrams }
{}

/// A text with a fault, but Truncated, has it whatever follows.
pub fn fault_stays()
    ensures { (text more : List ℕ) (datagrams : List Numbered) (line : ℕ) (fault : TextFault) → fault ≢ TextFault.Truncated → HasFault text datagrams line fault
        → HasFault (text ++ more) datagrams line fault }
{}

/// A text has one reading: it is one capture, or has one fault at one line.
pub fn text_has_one_reading()
    ensures { (text : List ℕ) (one other : Reading) → Reads text one → Reads text other → one ≡ other }
{}

/// What a text begins with, it begins with in one way: under one header, and of two lists of
/// datagrams the one begins with the other.
pub fn beginnings_agree()
    ensures { (text : List ℕ) (one other : Header) (some others : List Numbered) → Begins text one some → Begins text other others
        → (one ≡ other) × (BeginsWith some others ⊎ BeginsWith others some) }
{}

/// A capture begins with its datagrams, and with nothing but the first of them.
pub fn capture_has_its_beginnings()
    ensures first { (text : List ℕ) (header other : Header) (datagrams some : List Numbered) → IsCapture text header datagrams → Begins text other some
        → (other ≡ header) × BeginsWith datagrams some }
    ensures all { (text : List ℕ) (header : Header) (datagrams : List Numbered) → IsCapture text header datagrams → Begins text header datagrams }
{}

/// The datagrams before a text's fault begin with those of each of its beginnings; so do those of a
/// text that ends in the middle.
pub fn fault_comes_after_beginnings()
    ensures fault { (text : List ℕ) (header : Header) (datagrams some : List Numbered) (line : ℕ) (fault : TextFault) → HasFault text datagrams line fault → Begins text header some
        → BeginsWith datagrams some }
    ensures unfinished { (text : List ℕ) (header : Header) (datagrams some : List Numbered) (line : ℕ) (due : Due) → Unfinished text datagrams line due → Begins text header some
        → BeginsWith datagrams some }
{}

/// A text of version 1 without a fault, and the same text in version 2 with `-` as each host, say the same header and the
/// same datagrams on the same lines, where the second has at most 2^40 bytes.
pub fn version_two_says_the_same()
    ensures { (text : List ℕ) (header : Header) (datagrams : List Numbered) → IsCapture text header datagrams → length (in_version_two text) ≤ 2 ^ 40
        → IsCapture (in_version_two text) header datagrams }
{}

/// The worked text in version 2, byte for byte: `-` before the other port of each datagram.
pub fn worked_text_is_in_version_two()
    ensures { in_version_two worked_text ≡ worked_text_in_two }
{}

/// A worked text of version 2, which says datagrams with their hosts.
pub fn worked_text_names_hosts()
    ensures { IsCapture named_text worked_header named_datagrams }
{}

/// A line that is cut in its digits: what is held of it is a part of a line as long as the one that its head is of, three
/// bytes of its payload are decoded and a digit waits; once all digits have come they spell the payload behind the head.
pub fn worked_line_is_cut()
    ensures held { HoldsPart cut_line 22 27 27 }
    ensures begins { BeginsWithHead block_head cut_line 27 }
    ensures decoded { IsDecoded block_head cut_line (0 ∷ 3 ∷ 0 ∷ 255 ∷ 255 ∷ 255 ∷ []) 3 }
    ensures spells { SpellsBehind block_head.bytes block_line (0 ∷ 3 ∷ 0 ∷ 1 ∷ 104 ∷ 105 ∷ []) }
{}
