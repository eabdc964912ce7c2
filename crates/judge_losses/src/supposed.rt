//! What a server may have agreed to, where its OACK is missing. What is supposed is put in and then judged, so nothing is promised of it.

use std::alloc::{AllocError, Global};
use tftp_packet::{OptionsView, Packet, RequestView, Side, read_packet};

/// The least bytes that a block has that is not the last (RFC 2348).
const SMALLEST_BLOCK: u64 = 8;

/// An OACK that agrees to what a request asks for (RFC 2347): to each option as it was asked, but to no blocks of more bytes than
/// these. Of a read it has no size, which is the server's to tell. None where nothing was asked to which a server may agree.
pub fn supposed_oack(
    alloc: Global,
    payload: &[u8],
    longest: u64,
) -> Result<Option<Vec<u8>>, AllocError> {
    match read_packet(payload) {
        Ok(Packet::Request(request)) => agreeing(alloc, &request, longest),
        _ => Ok(None),
    }
}

fn agreeing(
    alloc: Global,
    request: &RequestView<'_>,
    longest: u64,
) -> Result<Option<Vec<u8>>, AllocError> {
    let options = request.options();
    let mut oack = String::from_str(alloc, "\0\x06")?;
    put_option(&mut oack, "blksize", agreed_block(&options, longest))?;
    put_option(&mut oack, "timeout", options.number(b"timeout"))?;
    if request.side() == Side::Put {
        put_option(&mut oack, "tsize", options.number(b"tsize"))?;
    }
    put_option(&mut oack, "windowsize", options.number(b"windowsize"))?;
    if oack.len() == 2 {
        return Ok(None);
    }
    Ok(Some(oack.into_bytes()))
}

/// The block size, where one is asked for.
fn agreed_block(options: &OptionsView<'_>, longest: u64) -> Option<u64> {
    match options.number(b"blksize") {
        Some(asked) => Some(asked.min(longest.max(SMALLEST_BLOCK))),
        None => None,
    }
}

/// Puts an option to an OACK, where it has this number.
fn put_option(oack: &mut String, name: &str, number: Option<u64>) -> Result<(), AllocError> {
    match number {
        Some(number) => write!(oack, "{name}\0{number}\0"),
        None => Ok(()),
    }
}
