//! Reading netascii from the wire.

ghost use Rattle.std.specs.Prelude.{◌≡◌, ℕ, ◌+◌, ◌<◌, ◌≤◌, List, [], ◌++◌, false, length, vec_len, vec_capacity, IfOk, OnOk, OnErr, IsOk};
ghost use Rattle.tftp_netascii.specs.Netascii.{Reads};
ghost use Rattle.tftp_netascii.specs.Decoder.{StandsFor, held_count};

use crate::runs::{CR, after_return, split_at_return};
use std::alloc::{AllocError, Global};
use std::marker::Model;

/// Reads a netascii text that comes in pieces, cut anywhere. Contracts see whether it holds a CR
/// back, which it does from one piece to the next where a CR came last (RFC 764).
#[derive(Clone, Debug, Drop)]
pub struct Decoder {
    holds_return: bool,
}

impl Model for Decoder {
    ghost use Rattle.std.specs.Prelude.{Bool};

    ghost Value = { Bool };

    ghost view = { λ decoder. decoder.holds_return };
}

impl Decoder {
    /// A decoder that was fed nothing.
    #[inline]
    pub fn new() -> Self
        ensures { StandsFor result [] [] }
    {
        Decoder {
            holds_return: false,
        }
    }

    /// Appends to `out` what the next piece of the text reads as, up to a CR at its end (RFC 764).
    /// An error changes nothing, and the piece may then be fed again.
    pub fn feed(&mut self, piece: &[u8], out: &mut Vec<u8>) -> Result<(), AllocError>
        // Whatever the decoder stood for, it now stands for that and the piece.
        ensures fed { OnOk result ((more : List ℕ) × (out.new.items ≡ out.old.items ++ more)
            × ((fed written : List ℕ) → StandsFor self.old fed written
            → StandsFor self.new (fed ++ piece.now) (written ++ more))) }
        ensures err { OnErr result ((self.new ≡ self.old) × (out.new.items ≡ out.old.items)) }

        // It fails only where there was no room for the piece and the CR that is held back before it.
        ensures full { OnErr result (vec_capacity out.old < vec_len out.old + length piece.now + held_count self.old) }
    {
        out.reserve(piece.len() + usize::from(self.holds_return))?;
        if piece.is_empty() {
            return Ok(());
        }
        let mut rest = piece;
        if self.holds_return {
            let (byte, after) = after_return(piece);
            out.push_reserved(byte);
            rest = after;
        }
        while let Some((run, tail)) = split_at_return(rest) {
            out.extend_from_slice(run)?;
            if tail.is_empty() {
                self.holds_return = true;
                return Ok(());
            }
            let (byte, after) = after_return(tail);
            out.push_reserved(byte);
            rest = after;
        }
        out.extend_from_slice(rest)?;
        self.holds_return = false;
        Ok(())
    }

    /// Ends the text: a CR that is still held back stands for itself (RFC 764). An error changes
    /// nothing.
    pub fn finish(&mut self, out: &mut Vec<u8>) -> Result<(), AllocError>
        // All that was written is the file of all that was fed.
        ensures file { OnOk result ((more : List ℕ) × (out.new.items ≡ out.old.items ++ more)
            × ((fed written : List ℕ) → StandsFor self.old fed written → Reads fed (written ++ more))) }
        ensures as_new { OnOk result (StandsFor self.new [] []) }
        ensures err { OnErr result ((self.new ≡ self.old) × (out.new.items ≡ out.old.items)) }

        // It fails only where there was no room for the CR, and never where none is held back.
        ensures full { OnErr result (vec_capacity out.old ≤ vec_len out.old) }
        ensures succeeds { self.old ≡ false → IsOk result }
    {
        if self.holds_return {
            out.push(CR)?;
            self.holds_return = false;
        }
        Ok(())
    }
}

impl Default for Decoder {
    ghost is_default = { λ decoder. StandsFor decoder [] [] };

    fn default() -> Self {
        Self::new()
    }
}

/// The file that a whole netascii text reads as: no text is refused (RFC 1350, section 1, and
/// RFC 764). An empty text takes no memory.
pub fn decode(alloc: Global, wire: &[u8]) -> Result<Vec<u8>, AllocError>
    ensures file { IfOk result (λ file. Reads wire.now file.items) }
    ensures succeeds { wire.now ≡ [] → IsOk result }
{
    let mut file = Vec::with_capacity(alloc, wire.len())?;
    let mut decoder = Decoder::new();
    decoder.feed(wire, &mut file)?;
    decoder.finish(&mut file)?;
    Ok(file)
}
