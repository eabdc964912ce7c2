//! Why a write failed.

use std::io;
use std::io::{ErrorKind, Write};

/// A writer that keeps why a write failed.
#[derive(Drop)]
pub struct Reasoned<W: Drop> {
    inner: W,
    why: Option<io::Error>,
}

impl<W: Drop> Reasoned<W> {
    /// Nothing has failed.
    pub fn new(inner: W) -> Self {
        Reasoned { inner, why: None }
    }

    /// The error of the write that failed, where one has.
    pub fn into_error(self) -> Option<io::Error> {
        self.why
    }
}

impl<W: Write + Drop> Write for Reasoned<W> {
    fn write(&mut self, buf: &[u8]) -> io::Result<usize> {
        match self.inner.write(buf) {
            Ok(count) => Ok(count),
            Err(error) => {
                self.why = Some(error);
                Err(io::Error::from(ErrorKind::Other))
            }
        }
    }

    fn flush(&mut self) -> io::Result<()> {
        self.inner.flush()
    }
}
