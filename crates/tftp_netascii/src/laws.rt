//! What holds of every netascii text. These functions do nothing: their contracts are the laws. One counts a small text.

ghost use Rattle.std.specs.Prelude.{◌≡◌, ◌≤◌, Bool, ℕ, List, [], ◌∷◌, length};
ghost use Rattle.tftp_netascii.specs.Netascii.{Reads, canonical_wire, file_of, nul, lf, cr};
ghost use Rattle.tftp_netascii.specs.Decoder.{StandsFor};

use crate::lengths::{Lengths, file_lengths};

/// No text is malformed, and none can be read in two ways: the file that it reads as can be computed.
pub fn every_wire_reads_as_one_file()
    ensures exists { (wire : List ℕ) → (file : List ℕ) × Reads wire file }
    ensures computed { (wire : List ℕ) → Reads wire (file_of wire) }
    ensures unique { (wire file other : List ℕ) → Reads wire file → Reads wire other
        → file ≡ other }
{}

/// What is written for a file is read as that file, and so no two files are written alike.
pub fn canonical_wires_read_as_their_files()
    ensures read_back { (file : List ℕ) → Reads (canonical_wire file) file }
    ensures apart { (file other : List ℕ) → canonical_wire file ≡ canonical_wire other
        → file ≡ other }
{}

/// A canonical text that is read is written as it was.
pub fn canonical_wires_are_written_again()
    ensures { (file other : List ℕ) → Reads (canonical_wire file) other
        → canonical_wire other ≡ canonical_wire file }
{}

/// A text that reads as a file is no longer than the one that is written for it, and as long only where it is that one.
pub fn canonical_wires_are_the_longest()
    ensures no_longer { (wire file : List ℕ) → Reads wire file → length wire ≤ length (canonical_wire file) }
    ensures as_long { (wire file : List ℕ) → Reads wire file → length wire ≡ length (canonical_wire file)
        → wire ≡ canonical_wire file }
{}

/// The bytes that were fed determine what a decoder holds back and what it has written, however
/// they were cut into pieces. A decoder that holds a CR and one that holds none are both met.
pub fn every_history_has_one_decoder()
    ensures exists { (fed : List ℕ) → (holds : Bool) × (written : List ℕ)
        × StandsFor holds fed written }
    ensures every_state { (holds : Bool) → (fed : List ℕ) × (written : List ℕ)
        × StandsFor holds fed written }
    ensures unique { (holds other_holds : Bool) (fed written other_written : List ℕ)
        → StandsFor holds fed written → StandsFor other_holds fed other_written
        → (holds ≡ other_holds) × (written ≡ other_written) }
{}

/// Small texts, and what they read as.
pub fn worked_examples()
    ensures line_end { Reads (cr ∷ lf ∷ []) (lf ∷ []) }
    ensures bare_return { Reads (cr ∷ nul ∷ []) (cr ∷ []) }
    ensures return_before_a_letter { Reads (cr ∷ 65 ∷ []) (cr ∷ 65 ∷ []) }
    ensures bare_line_feed { Reads (lf ∷ []) (lf ∷ []) }
    ensures return_at_the_end { Reads (cr ∷ []) (cr ∷ []) }
    ensures return_before_a_line_end { Reads (cr ∷ cr ∷ lf ∷ []) (cr ∷ lf ∷ []) }
    ensures written { canonical_wire (cr ∷ lf ∷ 65 ∷ nul ∷ [])
        ≡ cr ∷ nul ∷ cr ∷ lf ∷ 65 ∷ nul ∷ [] }
    ensures read { file_of (cr ∷ lf ∷ cr ∷ nul ∷ cr ∷ 65 ∷ lf ∷ [])
        ≡ lf ∷ cr ∷ cr ∷ 65 ∷ lf ∷ [] }
{}

/// The lengths of the file of a small text: each kind of a pair, of a CR and of an LF once, and another byte.
pub fn worked_lengths() -> Lengths
    ensures file { result.file ≡ 7 }
    ensures encoded { result.encoded ≡ 13 }
{
    file_lengths(b"\r\n\r\0\rA\n\r\r\n")
}
