//! What there is to say of two captures is written, in lines or in JSON.

ghost use Rattle.std.specs.Prelude.{◌≡◌, IfOk, option_map};
ghost use Rattle.tftp_match.specs.Saying.{Says, printed};

use crate::copies::Copies;
use crate::lines::lines_in;
use crate::objects::{Captured, object_line};
use judge_pair::match_texts::PairSaid;
use net_streams::streams::{LineWriter, WriteFault};
use std::alloc::{AllocError, Global};
use std::io::Write;

/// Why not all was said.
#[derive(Clone, Copy, Debug, PartialEq, Eq)]
pub enum SayFault {
    /// Memory ran out, and nothing was written.
    Memory,
    /// A write failed.
    Output,
}

/// Writes the verdict on each of the captures, how far they go together, and how often each packet was sent and taken, where
/// that is told.
pub fn say<W: Write>(
    alloc: Global,
    writer: &mut LineWriter<W>,
    is_json: bool,
    captures: (Captured<'_>, Captured<'_>),
    said: &PairSaid,
    copies: &Option<Vec<Copies>>,
) -> Result<(), SayFault>
    ensures { Says W.contents writer.old writer.new result (printed is_json captures.entry.0 captures.entry.1 said.now (option_map (λ all. all.items) copies.now)) }
{
    let text = match text_in(alloc, is_json, captures, said, copies) {
        Ok(text) => text,
        Err(AllocError) => return Err(SayFault::Memory),
    };
    match writer.write(text.as_slice()) {
        Ok(()) => Ok(()),
        Err(WriteFault) => Err(SayFault::Output),
    }
}

/// The text, in memory.
fn text_in(
    alloc: Global,
    is_json: bool,
    captures: (Captured<'_>, Captured<'_>),
    said: &PairSaid,
    copies: &Option<Vec<Copies>>,
) -> Result<Vec<u8>, AllocError>
    ensures { IfOk result (λ text. text.items ≡ printed is_json captures.entry.0 captures.entry.1 said.now (option_map (λ all. all.items) copies.now)) }
{
    if is_json {
        object_line(alloc, captures, said, copies)
    } else {
        lines_in(alloc, said, copies)
    }
}
