//! The header of a text, and what is read where a read fails or never ends.

use crate::captures::outcomes::{Outcome, read_out};
use crate::captures::reading::Reading;
use crate::captures::texts::BLOCKS;
use crate::trials::comparing::is_so;
use crate::trials::drip::DripReader;
use crate::trials::texts::READ;
use std::test::Fail;
use tftp_capture::{CaptureFault, Header, TextFault};
use tftp_packet::End;

/// The header of a text, and its last line.
fn header_of(rt: &HostRuntime, text: &[u8]) -> Option<(Header, u64)> {
    match Reading::begin(rt.alloc(), DripReader::new(text, 7, 0, None)) {
        Ok(reading) => Some((reading.header(), reading.line())),
        Err(_) => None,
    }
}

/// The line is that of the service, with comments and without.
#[test]
fn a_header_is_read(rt: HostRuntime) -> Result<(), Fail> {
    let header = Header {
        named: End::Client,
        service: 69,
        rollover: None,
    };
    let commented = b"tftp-capture 1\n#\nend client\n#\nservice 69\n#\ntotal 0\n";
    for (text, line) in [(READ.as_bytes(), 3), (commented.as_slice(), 5)] {
        is_so(
            header_of(&rt, text) == Some((header, line)),
            "another header",
        )?;
    }
    Ok(())
}

/// What a text gives that is read so, and whether a read failed.
fn outcome_of(rt: &HostRuntime, drip: DripReader<'_>) -> Result<(Outcome, bool), Fail> {
    read_out(rt.alloc(), drip, &mut Vec::new(rt.alloc()))
}

/// A text after which a byte comes for ever has a line that is too long.
#[test]
fn readers_that_never_end(rt: HostRuntime) -> Result<(), Fail> {
    let texts: [(&[u8], u8, u64); 2] = [(b"", b'a', 1), (b"tftp-capture 1\n", b'#', 2)];
    for (text, byte, line) in texts {
        let drip = DripReader::new(text, usize::MAX, 0, Some(byte));
        let fault = CaptureFault::Text(line, TextFault::LineTooLong);
        is_so(outcome_of(&rt, drip)?.0 == Err(fault), "another outcome")?;
    }
    Ok(())
}

/// Fails unless the read of one byte after so many fails, on this line.
fn fails_after(rt: &HostRuntime, text: &[u8], taken: u64, line: u64) -> Result<(), Fail> {
    let drip = DripReader::new(text, 1, taken.saturating_add(1), None);
    let found = outcome_of(rt, drip)?;
    if found == (Err(CaptureFault::Read(line)), true) {
        Ok(())
    } else {
        Err(Fail::from((taken, found)))
    }
}

/// Fails unless each read of a text fails in turn, and the one after its end.
fn each_fails(rt: &HostRuntime, text: &[u8]) -> Result<(), Fail> {
    let mut line = 1u64;
    for (taken, byte) in (0u64..).zip(text) {
        fails_after(rt, text, taken, line)?;
        if *byte == b'\n' {
            line = line.saturating_add(1);
        }
    }
    fails_after(rt, text, text.len() as u64, line)
}

#[test]
fn each_read_fails_in_turn(rt: HostRuntime) -> Result<(), Fail> {
    each_fails(&rt, READ.as_bytes())?;
    each_fails(&rt, BLOCKS.as_bytes())
}

/// Fails unless the text has that outcome, byte by byte, or memory runs out on one of so many lines.
pub fn gives_or_wants(
    rt: &HostRuntime,
    text: &[u8],
    wanted: Outcome,
    lines: u64,
) -> Result<(), Fail> {
    let (found, _) = outcome_of(rt, DripReader::new(text, 1, 0, None))?;
    match found {
        Err(CaptureFault::Memory(line)) if 1 <= line && line <= lines => Ok(()),
        _ if found == wanted => Ok(()),
        _ => Err(Fail::from((found, wanted))),
    }
}
