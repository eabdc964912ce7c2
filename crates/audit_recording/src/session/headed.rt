//! How a file begins, and what it is where that is no recording.

ghost use Rattle.std.specs.Prelude.{◌≡◌};
ghost use Rattle.audit_recording.specs.Session.Headed.{is_recording};

use std::io;
use std::io::Read;

/// So many bytes tell what a file is.
const MOST: usize = 16;

/// A reader that keeps the first bytes that are read.
#[derive(Drop)]
pub struct Headed<R: Drop> {
    inner: R,
    head: [u8; MOST],
    count: usize,
}

impl<R: Drop> Headed<R> {
    /// Nothing was read yet.
    pub fn new(inner: R) -> Self
        ensures inner { result.inner ≡ inner }
    {
        Headed {
            inner,
            head: [0; MOST],
            count: 0,
        }
    }

    /// The first bytes that were read.
    pub fn head(&self) -> &[u8] {
        match self.head.get(..self.count) {
            Some(head) => head,
            None => &self.head,
        }
    }

    /// Keeps bytes, as far as they are among the first.
    fn keep(&mut self, bytes: &[u8])
        ensures inner { self.new.inner ≡ self.old.inner }
    {
        for byte in bytes {
            match self.head.get_mut(self.count) {
                Some(place) => *place = *byte,
                None => return,
            }
            self.count += 1;
        }
    }
}

impl<R: Read + Drop> Read for Headed<R> {
    ghost remaining = { λ h. R.remaining h.inner };

    fn read(&mut self, buf: &mut [u8]) -> io::Result<usize> {
        let result = self.inner.read(buf);
        if let Ok(count) = result {
            self.keep(buf.get(..count).unwrap_or(&[]));
        }
        result
    }
}

/// What a file is that begins so.
pub fn hint(head: &[u8]) -> &'static str {
    if head.starts_with(b"tftp-capture ") {
        return ": this is a capture text: tftp-audit check";
    }
    match head {
        [] => ": the file is empty",
        [0x1f, 0x8b, ..] => ": it is compressed by gzip: gunzip it first",
        [0x28, 0xb5, 0x2f, 0xfd, ..] => ": it is compressed by zstd: unzstd it first",
        [0xfd, b'7', b'z', b'X', b'Z', 0, ..] => ": it is compressed by xz: unxz it first",
        [b'B', b'Z', b'h', ..] => ": it is compressed by bzip2: bunzip2 it first",
        [0x7f, b'E', b'L', b'F', ..] => ": it is a program",
        _ => "",
    }
}

/// Whether a file that begins so is a recording: pcap, in both orders of bytes, in microseconds or nanoseconds, or pcapng.
pub fn is_recording(head: &[u8]) -> bool
    ensures { result ≡ is_recording head.now }
{
    match head {
        [0xa1, 0xb2, 0xc3, 0xd4, ..] | [0xd4, 0xc3, 0xb2, 0xa1, ..] => true,
        [0xa1, 0xb2, 0x3c, 0x4d, ..] | [0x4d, 0x3c, 0xb2, 0xa1, ..] => true,
        [0x0a, 0x0d, 0x0d, 0x0a, ..] => true,
        _ => false,
    }
}
