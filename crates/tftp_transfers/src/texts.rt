//! The capture texts of transfers at an end.

use crate::PROGRAM;
use crate::reasoned::Reasoned;
use anyhow::Result;
use net_streams::streams::LineWriter;
use std::io;
use std::io::Write;
use tftp_rows::{Machine, Remarks, TextsOf, write_text, write_texts};
use tftp_words::{TextRequest, TextsRequest};

/// Writes the capture text of a transfer at an end, unless datagrams of it may be missing.
pub fn text(rt: HostRuntime, asked: &TextRequest<'_>) -> Result<u8> {
    let machine = Machine::new(rt);
    let of = TextsOf {
        file: asked.file,
        services: asked.services.as_slice(),
        end: asked.end,
    };
    let mut writer = LineWriter::new(rt.alloc(), Reasoned::new(io::writer(&rt)));
    let mut remarks = Remarks::new(PROGRAM, rt.stderr());
    let written = write_text(
        rt.alloc(),
        &machine,
        &of,
        asked.number,
        &mut writer,
        &mut remarks,
    );
    reasoned(writer, written)?;
    Ok(0)
}

/// Writes the capture texts of all transfers at an end, one behind the other, in their order. The status is 2 where one has none.
pub fn texts(rt: HostRuntime, asked: &TextsRequest<'_>) -> Result<u8> {
    let machine = Machine::new(rt);
    let of = TextsOf {
        file: asked.file,
        services: asked.services.as_slice(),
        end: asked.end,
    };
    let mut writer = LineWriter::new(rt.alloc(), Reasoned::new(io::writer(&rt)));
    let mut remarks = Remarks::new(PROGRAM, rt.stderr());
    let written = write_texts(rt.alloc(), &machine, &of, &mut writer, &mut remarks);
    reasoned(writer, written)
}

/// What was answered; where a write has failed, why it did.
fn reasoned<T: Drop, W: Write + Drop>(
    writer: LineWriter<Reasoned<W>>,
    answer: Result<T>,
) -> Result<T> {
    match writer.finish().0.into_error() {
        Some(error) => Err(error.into()),
        None => answer,
    }
}
