//! Where text is written to.

ghost use Rattle.std.specs.Prelude.{◌≡◌, ◌≢◌, ◌||◌, [], IfSome, Ok, OnErr, OnOk, false, is_err, true};
ghost use Rattle.std.specs.Fmt.{with_newline};
ghost use Rattle.std.specs.Io.{WritesAtMost};
ghost use Rattle.std.specs.Io.KnownBytes.{Appends, WriteAppends};
ghost use Rattle.net_streams.specs.Streams.{WritesWhole, write_failed};

use std::fmt::Display;
use std::io;
use std::io::{ErrorKind, Write};
use std::marker::Model;

/// A writer of text with a latch, which tells whether a call through it has failed, by whatever error. Only such a call sets it.
#[derive(Drop)]
pub struct Output<W> {
    inner: W,
    failed: bool,
}

impl<W> Model for Output<W> {
    ghost use Rattle.std.specs.Prelude.{Bool};

    ghost Value = { W × Bool };

    ghost view = { λ t. (t.inner, t.failed) };
}

impl<W: Write> Output<W> {
    /// Nothing has failed yet.
    pub fn new(inner: W) -> Self
        ensures { result ≡ (inner, false) }
    {
        Output {
            inner,
            failed: false,
        }
    }

    /// Writes once, as many bytes as the writer inside takes.
    fn write(&mut self, bytes: &[u8]) -> io::Result<usize>
        ensures bound { WritesAtMost result bytes.now }
        ensures bytes { WriteAppends (W.contents self.old.0) (W.contents self.new.0) result bytes.now }
        ensures tally { self.new.1 ≡ (self.old.1 || write_failed result bytes.now) }
    {
        let result = self.inner.write(bytes);
        match &result {
            Ok(0) if !bytes.is_empty() => self.failed = true,
            Ok(_) => {}
            Err(_) => self.failed = true,
        }
        result
    }

    /// Writes a text.
    pub fn write_fmt<D: Display + Drop>(&mut self, text: D) -> io::Result<()>
        ensures text { OnOk result (IfSome (D.output text) (Appends (W.contents self.old.0) (W.contents self.new.0))) }
        ensures tally { self.new.1 ≡ (self.old.1 || is_err result) }
    {
        let result = self.inner.write_fmt(text);
        if result.is_err() {
            self.failed = true;
        }
        result
    }

    /// Writes all of these bytes, by as many writes as it takes.
    pub fn write_whole(&mut self, bytes: &[u8]) -> io::Result<()>
        ensures writes { WritesWhole (W.contents self.old.0) (W.contents self.new.0) result bytes.now }
        ensures tally { self.new.1 ≡ (self.old.1 || is_err result) }
    {
        let mut written = 0;
        while written < bytes.len() {
            let count = self.write(&bytes[written..])?;
            if count == 0 {
                return Err(io::Error::from(ErrorKind::WriteZero));
            }
            written += count;
        }
        Ok(())
    }
}
