ghost use Rattle.std.specs.Prelude.{◌≡◌, ◌||◌, false, is_err};
ghost use Rattle.std.specs.Io.{ReadsAtMost, WritesAtMost};
ghost use Rattle.std.specs.Io.KnownBytes.{ReadConsumes, WriteAppends};
ghost use Rattle.net_streams.specs.Streams.Sinks.{write_failed};

use std::io;
use std::io::{Read, Write};
use std::marker::Model;

/// A reader or writer with a latch, which tells whether a call through it has failed, by whatever error. Only such a call
/// sets it.
#[derive(Drop)]
pub struct Latched<T> {
    inner: T,
    failed: bool,
}

impl<T> Model for Latched<T> {
    ghost use Rattle.std.specs.Prelude.{Bool};

    ghost Value = { T × Bool };

    ghost view = { λ t. (t.inner, t.failed) };
}

impl<T> Latched<T> {
    /// Wraps a reader or writer; nothing has failed yet.
    pub fn new(inner: T) -> Self
        ensures { result ≡ (inner, false) }
    {
        Latched {
            inner,
            failed: false,
        }
    }

    /// Whether a call through it has failed; once true it stays true.
    #[inline]
    pub fn failed(&self) -> bool
        ensures { result ≡ self.now.1 }
    {
        self.failed
    }

    /// Gives the reader or writer back, as the calls left it.
    pub fn into_inner(self) -> T
        ensures { result ≡ self.0 }
    {
        let Latched { inner, failed: _ } = self;
        inner
    }
}

impl<R: Read> Read for Latched<R> {
    ghost remaining = { λ t. R.remaining t.0 };

    fn read(&mut self, buf: &mut [u8]) -> io::Result<usize>
        ensures bound { ReadsAtMost result buf.new }
        ensures bytes { ReadConsumes (R.remaining self.old.0) (R.remaining self.new.0) result buf.new }
        ensures tally { self.new.1 ≡ (self.old.1 || is_err result) }
    {
        let result = self.inner.read(buf);
        if result.is_err() {
            self.failed = true;
        }
        result
    }
}

impl<W: Write> Latched<W> {
    /// Writes once, as many bytes as the writer inside takes. A write that takes no byte of a slice that has some has
    /// failed too.
    pub fn write(&mut self, bytes: &[u8]) -> io::Result<usize>
        ensures bound { WritesAtMost result bytes.now }
        ensures bytes { WriteAppends (W.contents self.old.0) (W.contents self.new.0) result bytes.now }
        ensures tally { self.new.1 ≡ (self.old.1 || write_failed result bytes.now) }
    {
        let result = self.inner.write(bytes);
        match &result {
            Ok(0) if !bytes.is_empty() => self.failed = true,
            Ok(_) => {}
            Err(_) => self.failed = true,
        }
        result
    }
}
