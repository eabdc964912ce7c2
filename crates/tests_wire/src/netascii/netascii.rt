//! Netascii: texts and what they read as, whole and in pieces, and what files are written as.

use crate::trials::comparing::{is_same, is_so};
use std::alloc::{AllocError, Global};
use std::test::Fail;
use tftp_netascii::{Decoder, decode, decode_pieces, encode, encoded_len, file_lengths};

/// Texts, the files that they read as, and the lengths of those that are written for these.
const TEXTS: &[(&[u8], &[u8], usize)] = &[
    (b"", b"", 0),
    (b"\r\n", b"\n", 2),
    (b"\r\0", b"\r", 2),
    (b"\rA", b"\rA", 3),
    (b"\n", b"\n", 2),
    (b"\r", b"\r", 2),
    (b"\r\r\n", b"\r\n", 4),
    (b"one\r\ntwo\0\r\0three", b"one\ntwo\0\rthree", 16),
];

/// What a text reads as that comes in two pieces.
fn read_in_pieces(alloc: Global, wire: &[u8]) -> Result<Vec<u8>, AllocError> {
    let (front, rest) = wire.split_at(wire.len() / 2);
    decode_pieces(alloc, &[front, rest])
}

/// Whether the file of a text is counted so, and the text that is written for it.
fn is_counted(wire: &[u8], file: usize, encoded: usize) -> bool {
    let lengths = file_lengths(wire);
    lengths.file == file as u64 && lengths.encoded == encoded as u64
}

/// Fails unless a text reads as this file, also in two pieces, and is counted so.
fn reads_as(alloc: Global, wire: &[u8], file: &[u8], length: usize) -> Result<(), Fail> {
    is_same(decode(alloc, wire)?.as_slice(), file)?;
    is_same(read_in_pieces(alloc, wire)?.as_slice(), file)?;
    is_so(is_counted(wire, file.len(), length), "other lengths")
}

#[test]
fn decodes_whole_texts(rt: HostRuntime) -> Result<(), Fail> {
    for (wire, file, length) in TEXTS {
        reads_as(rt.alloc(), wire, file, *length)?;
    }
    Ok(())
}

/// Files, and the texts that they are written as.
const FILES: &[(&[u8], &[u8])] = &[
    (b"", b""),
    (b"\r\n", b"\r\0\r\n"),
    (b"\r\0", b"\r\0\0"),
    (b"a", b"a"),
];

#[test]
fn encodes_files(rt: HostRuntime) -> Result<(), Fail> {
    for (file, wire) in FILES {
        is_same(encode(rt.alloc(), *file)?.as_slice(), *wire)?;
        is_so(encoded_len(*file) == wire.len() as u64, "another length")?;
    }
    Ok(())
}

/// Feeds a piece, or ends the text where there is none.
fn take(decoder: &mut Decoder, piece: Option<&[u8]>, file: &mut Vec<u8>) -> Result<(), AllocError> {
    match piece {
        Some(piece) => decoder.feed(piece, file),
        None => decoder.finish(file),
    }
}

/// Pieces of texts, or the end of one, and all that was written by then. After an end the decoder is as new.
const STEPS: &[(Option<&[u8]>, &[u8])] = &[
    (Some(b"\r"), b""),
    (Some(b"\n"), b"\n"),
    (Some(b"\r"), b"\n"),
    (None, b"\n\r"),
    (Some(b"\n"), b"\n\r\n"),
    (None, b"\n\r\n"),
    (Some(b"a\r"), b"\n\r\na"),
    (Some(b""), b"\n\r\na"),
    (None, b"\n\r\na\r"),
];

/// Fails unless that is written after each step. Where a growth is refused nothing may have been written, and the step is
/// made again.
fn all_are_steps(decoder: &mut Decoder, file: &mut Vec<u8>) -> Result<(), Fail> {
    for (piece, written) in STEPS {
        let before = file.len();
        if let Err(AllocError) = take(decoder, *piece, file) {
            is_so(file.len() == before, "written without memory")?;
            take(decoder, *piece, file)?;
        }
        is_same(file.as_slice(), *written)?;
    }
    Ok(())
}

/// So does a decoder that was cloned.
#[test]
fn holds_a_return_back(rt: HostRuntime) -> Result<(), Fail> {
    let mut decoder = Decoder::default().clone()?;
    let mut file = Vec::new(rt.alloc());
    all_are_steps(&mut decoder, &mut file)
}
