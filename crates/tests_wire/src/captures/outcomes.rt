//! What a text gives that is read to its end.

use crate::captures::reading::Reading;
use crate::trials::drip::DripReader;
use std::alloc::{AllocError, Global};
use std::test::Fail;
use tftp_capture::{CaptureFault, Datagram};
use tftp_packet::hosts::Dir;

/// What a text gives: the number of its datagrams and the sum of their lines, or the fault.
pub type Outcome = Result<(u64, u64), CaptureFault>;

/// Tells a datagram: a letter for its way, its port and the other, the other host, its payload, and a line end.
fn tell(told: &mut Vec<u8>, datagram: &Datagram) -> Result<(), AllocError> {
    let way = match datagram.dir {
        Dir::In => b'i',
        Dir::Out => b'o',
    };
    let [high, low] = datagram.local_port.to_be_bytes();
    let [other_high, other_low] = datagram.remote_port.to_be_bytes();
    told.extend_from_slice(&[way, high, low, other_high, other_low])?;
    told.extend_from_slice(datagram.remote_host.bytes())?;
    told.extend_from_slice(datagram.payload.as_slice())?;
    told.push(b'\n')?;
    Ok(())
}

/// What the datagrams that are left give, each of which is told.
fn totals(reading: &mut Reading<'_>, told: &mut Vec<u8>) -> Result<Outcome, AllocError> {
    let mut count = 0u64;
    let mut lines = 0u64;
    for _ in 0..u64::MAX {
        match reading.fill() {
            Ok(true) => {}
            Ok(false) => break,
            Err(fault) => return Ok(Err(fault)),
        }
        tell(told, reading.held())?;
        count = count.saturating_add(1);
        lines = lines.saturating_add(reading.line());
    }
    Ok(Ok((count, lines)))
}

/// Whether that is answered for good, as an end or a fault, and the line stays.
fn is_for_good(reading: &mut Reading<'_>, outcome: Outcome) -> bool {
    let line = reading.line();
    let again = match reading.fill() {
        Ok(is_read) => !is_read && outcome.is_ok(),
        Err(fault) => outcome == Err(fault),
    };
    again && reading.line() == line
}

/// What the text gives that is read so, and whether a read failed; each datagram is told.
pub fn read_out(
    alloc: Global,
    drip: DripReader<'_>,
    told: &mut Vec<u8>,
) -> Result<(Outcome, bool), Fail> {
    match Reading::begin(alloc, drip) {
        Ok(mut reading) => {
            let outcome = totals(&mut reading, told)?;
            if is_for_good(&mut reading, outcome) {
                Ok((outcome, reading.has_failed()))
            } else {
                Err(Fail::new("another answer after the end"))
            }
        }
        Err((fault, failed)) => Ok((Err(fault), failed)),
    }
}

/// Fails unless the text has that outcome, given whole and in pieces.
pub fn gives(alloc: Global, text: &[u8], wanted: Outcome) -> Result<(), Fail> {
    for piece in [usize::MAX, 1, 7, 4096] {
        let drip = DripReader::new(text, piece, 0, None);
        let (found, failed) = read_out(alloc, drip, &mut Vec::new(alloc))?;
        if found != wanted || failed {
            return Err(Fail::from((piece, found, wanted)));
        }
    }
    Ok(())
}
