//! A text that is read, and how far.

ghost use Rattle.std.specs.Prelude.{◌≡◌, true};
ghost use Rattle.tftp_capture.specs.{IsReadStanding};

use crate::trials::drip::DripReader;
use net_streams::streams::Latched;
use std::alloc::Global;
use std::marker::Model;
use tftp_capture::{CaptureFault, CaptureReader, Datagram, Header};

/// A text whose header was read, and its last datagram. Contracts see nothing of it, so that what the library promises of
/// its readers is read only here, where it is called.
pub struct Reading<'a> {
    reader: Latched<DripReader<'a>>,
    capture: CaptureReader,
    held: Datagram,
}

impl Drop for Reading<'_> {
    // written out, since the prover takes a derived one apart again wherever a value is let go
    fn drop(self) {
        let Reading {
            reader: _,
            capture: _,
            held: _,
        } = self;
    }
}

impl<'a> Model for Reading<'a> {
    ghost Value = { Unit {0} };

    ghost view = { λ _. tt };

    ghost invariant = { λ a. IsReadStanding a.capture.standing → a.reader.1 ≡ true };
}

impl<'a> Reading<'a> {
    /// The fault of a header, and whether a read failed.
    pub fn begin(alloc: Global, drip: DripReader<'a>) -> Result<Self, (CaptureFault, bool)> {
        let mut reader = Latched::new(drip);
        match CaptureReader::begin(alloc, &mut reader) {
            Ok(capture) => Ok(Reading {
                reader,
                capture,
                held: Datagram::empty(alloc),
            }),
            Err(fault) => Err((fault, reader.failed())),
        }
    }

    /// Reads the next datagram into the one that is held.
    pub fn fill(&mut self) -> Result<bool, CaptureFault> {
        self.capture.next_into(&mut self.reader, &mut self.held)
    }

    /// The last datagram.
    pub fn held(&self) -> &Datagram {
        &self.held
    }

    /// The line of what was handed out last, counted from 1; that of the service before the first datagram.
    pub fn line(&self) -> u64 {
        self.capture.line()
    }

    /// The named end and the service port.
    pub fn header(&self) -> Header {
        *self.capture.header()
    }

    /// Whether the next datagram may have to be waited for.
    pub fn waits(&self) -> bool {
        self.capture.may_wait()
    }

    /// Whether a read failed.
    pub fn has_failed(&self) -> bool {
        self.reader.failed()
    }
}
