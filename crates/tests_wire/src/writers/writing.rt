//! A text that is written, of either version.

ghost use Rattle.std.specs.Prelude.{◌≡◌};

use crate::trials::drip::DripWriter;
use net_streams::streams::{LineWriter, WriteFault};
use std::alloc::Global;
use std::marker::Model;
use tftp_capture::{CaptureWriter, Header, HostCaptureWriter};
use tftp_packet::hosts::{Dir, Host};

/// A datagram by its direction, its port at the named end, the port at the other and its payload.
pub type Row<'a> = (Dir, u16, u16, &'a [u8]);

/// What was written, the answer, and whether a write failed.
pub type Written = (DripWriter, Result<(), WriteFault>, bool);

/// What was written when that was answered, and what waited then.
pub fn written(writer: LineWriter<DripWriter>, answer: Result<(), WriteFault>) -> Written {
    let (drip, ended) = writer.finish();
    (drip, answer, ended.is_err())
}

/// A text of version 1 whose header was written. Contracts see nothing of it, so that what the library promises of its
/// writers is read only here, where it is called.
#[derive(Drop)]
pub struct Writing {
    writer: LineWriter<DripWriter>,
    capture: CaptureWriter,
    puts: u8,
}

impl Model for Writing {
    ghost Value = { Unit {0} };

    ghost view = { λ _. tt };

    ghost invariant = { λ a. a.capture ≡ a.puts };
}

impl Writing {
    /// Writes a header of a whole port; what was written where that fails.
    fn begin(alloc: Global, drip: DripWriter, header: &Header) -> Result<Self, Written> {
        let mut writer = LineWriter::new(alloc, drip);
        if header.service == 0 {
            return Err(written(writer, Err(WriteFault)));
        }
        match CaptureWriter::begin(&mut writer, header) {
            Ok(capture) => Ok(Writing {
                writer,
                capture,
                puts: 0,
            }),
            Err(fault) => Err(written(writer, Err(fault))),
        }
    }

    /// Writes a datagram of whole ports and at most 65,527 bytes: the first one, and from then on each other one, by the two
    /// halves of its payload.
    fn put(&mut self, (dir, local, remote, payload): &Row<'_>) -> Result<(), WriteFault> {
        let is_datagram = *local != 0 && *remote != 0 && payload.len() <= 65_527;
        if !is_datagram || self.puts == 255 {
            return Err(WriteFault);
        }
        if self.puts % 2 == 0 {
            let (head, rest) = payload.split_at(payload.len() / 2);
            self.capture
                .put_parts(&mut self.writer, *dir, *local, *remote, head, rest)?;
        } else {
            self.capture
                .put(&mut self.writer, *dir, *local, *remote, *payload)?;
        }
        self.puts += 1;
        Ok(())
    }

    fn put_all(&mut self, rows: &[Row<'_>]) -> Result<(), WriteFault> {
        for row in rows {
            self.put(row)?;
        }
        Ok(())
    }

    fn close(self) -> Written {
        let Writing {
            mut writer,
            capture,
            ..
        } = self;
        let answer = capture.close(&mut writer);
        written(writer, answer)
    }

    /// Lets the text go as it is.
    fn leave(self, fault: WriteFault) -> Written {
        let Writing { writer, .. } = self;
        written(writer, Err(fault))
    }
}

/// Writes a text of version 1 there, as far as nothing fails.
pub fn write(alloc: Global, drip: DripWriter, header: &Header, rows: &[Row<'_>]) -> Written {
    match Writing::begin(alloc, drip, header) {
        Ok(mut writing) => match writing.put_all(rows) {
            Ok(()) => writing.close(),
            Err(fault) => writing.leave(fault),
        },
        Err(written) => written,
    }
}

/// The same of version 2.
#[derive(Drop)]
pub struct HostWriting {
    writer: LineWriter<DripWriter>,
    capture: HostCaptureWriter,
    puts: u8,
}

impl Model for HostWriting {
    ghost Value = { Unit {0} };

    ghost view = { λ _. tt };

    ghost invariant = { λ a. a.capture ≡ a.puts };
}

impl HostWriting {
    /// Writes a header of a whole port; what was written where that fails.
    fn begin(alloc: Global, drip: DripWriter, header: &Header) -> Result<Self, Written> {
        let mut writer = LineWriter::new(alloc, drip);
        if header.service == 0 {
            return Err(written(writer, Err(WriteFault)));
        }
        match HostCaptureWriter::begin(&mut writer, header) {
            Ok(capture) => Ok(HostWriting {
                writer,
                capture,
                puts: 0,
            }),
            Err(fault) => Err(written(writer, Err(fault))),
        }
    }

    /// Writes a datagram of whole ports and at most 65,527 bytes.
    fn put(
        &mut self,
        host: &Host,
        (dir, local, remote, payload): &Row<'_>,
    ) -> Result<(), WriteFault> {
        let is_datagram = *local != 0 && *remote != 0 && payload.len() <= 65_527;
        if !is_datagram || self.puts == 255 {
            return Err(WriteFault);
        }
        self.capture
            .put(&mut self.writer, *dir, *local, host, *remote, *payload)?;
        self.puts += 1;
        Ok(())
    }

    /// Writes a comment, where there is one, and then the datagrams.
    fn put_all(
        &mut self,
        comment: Option<&[u8]>,
        host: &Host,
        rows: &[Row<'_>],
    ) -> Result<(), WriteFault> {
        if let Some(words) = comment {
            self.capture.comment(&mut self.writer, words)?;
        }
        for row in rows {
            self.put(host, row)?;
        }
        Ok(())
    }

    fn close(self) -> Written {
        let HostWriting {
            mut writer,
            capture,
            ..
        } = self;
        let answer = capture.close(&mut writer);
        written(writer, answer)
    }

    /// Lets the text go as it is.
    fn leave(self, fault: WriteFault) -> Written {
        let HostWriting { writer, .. } = self;
        written(writer, Err(fault))
    }
}

/// Writes a text of version 2 there, with a comment or none, whose datagrams all have this host.
pub fn write_with_host(
    alloc: Global,
    drip: DripWriter,
    header: &Header,
    comment: Option<&[u8]>,
    host: &Host,
    rows: &[Row<'_>],
) -> Written {
    match HostWriting::begin(alloc, drip, header) {
        Ok(mut writing) => match writing.put_all(comment, host, rows) {
            Ok(()) => writing.close(),
            Err(fault) => writing.leave(fault),
        },
        Err(written) => written,
    }
}
