ghost use Rattle.std.specs.Prelude.{◌≡◌, ◌+◌, ◌^◌, ◌<◌, ◌≤◌, ◌++◌, ◌∷◌, [], List, length, option_map, IfOk, MatchResult, OnOk};
ghost use Rattle.std.specs.Io.KnownBytes.{Appends};
ghost use Rattle.tftp_packet.specs.Hosts.{no_host};
ghost use Rattle.net_streams.specs.Streams.Sinks.{Adds, Sink, Writes};
ghost use Rattle.tftp_capture.specs.CaptureText.{datagram_line, payload_text, text_of, total_line, Datagram, Header as HeaderParts, IsPort};
ghost use Rattle.tftp_capture.specs.Fields.{header_of};
ghost use Rattle.tftp_capture.specs.Written.{header_text, header_text_in, line_naming, HasWritten};

use crate::datagram::Header;
use crate::spelled_head::SpelledHeads;
use crate::version::Version;
use itoa::Buffer;
use net_streams::streams::{LineWriter, WriteFault};
use std::io::Write;
use std::marker::Model;
use tftp_packet::End;
use tftp_packet::hosts::{Dir, Host};

/// A capture text that is being written in its canonical form, which names no host: contracts see the number of its
/// datagrams. All its calls are to be made with the same writer of lines.
#[derive(Drop)]
pub struct CaptureWriter {
    heads: SpelledHeads,
    count: u64,
}

impl Model for CaptureWriter {
    ghost use Rattle.std.specs.Prelude.{ℕ};

    ghost Value = { ℕ };

    ghost view = { λ w. w.count };
}

impl CaptureWriter {
    /// Begins with the header; some of it may wait.
    pub fn begin<W: Write>(writer: &mut LineWriter<W>, header: &Header) -> Result<Self, WriteFault>
        requires service { IsPort header.now.service }
        ensures begun { IfOk result (λ count. HasWritten W.contents writer.old writer.new count (header_of header.now) []) }
        ensures adds { Adds W.contents writer.old writer.new result (header_text (header_of header.now)) }
    {
        put_header(writer, Version::One, header)?;
        Ok(CaptureWriter {
            heads: SpelledHeads::new(),
            count: 0,
        })
    }

    /// Adds a datagram whose host is `-`; some of it may wait.
    pub fn put<W: Write>(
        &mut self,
        writer: &mut LineWriter<W>,
        dir: Dir,
        local: u16,
        remote: u16,
        payload: &[u8],
    ) -> Result<(), WriteFault>
        requires local { IsPort local }
        requires remote { IsPort remote }
        requires payload { length payload.now ≤ 65527 }
        requires few { self.old < 2 ^ 40 }
        ensures adds { Adds W.contents writer.old writer.new result
            (datagram_line (record { dir = dir; local = local; host = no_host; remote = remote; payload = payload.now }) ++ 10 ∷ []) }
        ensures counted { MatchResult result (λ _. self.new ≡ self.old + 1) (λ _. self.new ≡ self.old) }
        ensures written { (start : Sink W) (header : HeaderParts) (datagrams : List Datagram)
            → HasWritten W.contents start writer.old self.old header datagrams
            → OnOk result (HasWritten W.contents start writer.new self.new header (datagrams ++ record { dir = dir; local = local; host = no_host; remote = remote; payload = payload.now } ∷ [])) }
    {
        self.put_parts(writer, dir, local, remote, payload, b"")
    }

    /// The same, with a payload that lies in two parts.
    pub fn put_parts<W: Write>(
        &mut self,
        writer: &mut LineWriter<W>,
        dir: Dir,
        local: u16,
        remote: u16,
        head: &[u8],
        rest: &[u8],
    ) -> Result<(), WriteFault>
        requires local { IsPort local }
        requires remote { IsPort remote }
        requires payload { length (head.now ++ rest.now) ≤ 65527 }
        requires few { self.old < 2 ^ 40 }
        ensures adds { Adds W.contents writer.old writer.new result
            (datagram_line (record { dir = dir; local = local; host = no_host; remote = remote; payload = head.now ++ rest.now }) ++ 10 ∷ []) }
        ensures counted { MatchResult result (λ _. self.new ≡ self.old + 1) (λ _. self.new ≡ self.old) }
        ensures written { (start : Sink W) (header : HeaderParts) (datagrams : List Datagram)
            → HasWritten W.contents start writer.old self.old header datagrams
            → OnOk result (HasWritten W.contents start writer.new self.new header (datagrams ++ record { dir = dir; local = local; host = no_host; remote = remote; payload = head.now ++ rest.now } ∷ [])) }
    {
        put_datagram(
            writer,
            &mut self.heads,
            dir,
            local,
            None,
            remote,
            head,
            rest,
        )?;
        self.count += 1;
        Ok(())
    }

    /// Ends with the total, and writes what waits.
    pub fn close<W: Write>(self, writer: &mut LineWriter<W>) -> Result<(), WriteFault>
        ensures writes { Writes W.contents writer.old writer.new result (total_line self ++ 10 ∷ []) }
        ensures written { (start : Sink W) (header : HeaderParts) (datagrams : List Datagram)
            → HasWritten W.contents start writer.old self header datagrams
            → OnOk result (Appends (W.contents start.inner) (W.contents writer.new.inner) (start.waits ++ text_of header datagrams)) }
    {
        finish(writer, self.count)
    }
}

/// The lines of the header in a version.
pub fn put_header<W: Write>(
    writer: &mut LineWriter<W>,
    version: Version,
    header: &Header,
) -> Result<(), WriteFault>
    ensures adds { Adds W.contents writer.old writer.new result (header_text_in version (header_of header.now)) }
{
    let mut buffer = Buffer::new();
    let service = buffer.format(header.service).as_bytes();
    let named = match header.named {
        End::Client => b"client".as_slice(),
        End::Server => b"server".as_slice(),
    };
    writer.add_all(&[
        version.first_line(),
        b"\nend ",
        named,
        b"\nservice ",
        service,
        b"\n",
    ])
}

/// The line of a datagram, with its host where the text names it; its payload lies in two parts.
pub fn put_datagram<W: Write>(
    writer: &mut LineWriter<W>,
    heads: &mut SpelledHeads,
    dir: Dir,
    local: u16,
    host: Option<&Host>,
    remote: u16,
    head: &[u8],
    rest: &[u8],
) -> Result<(), WriteFault>
    ensures adds { Adds W.contents writer.old writer.new result
        (line_naming (option_map (λ h. h.now) host.entry) (record { dir = dir; local = local; host = no_host; remote = remote; payload = head.now ++ rest.now }) ++ 10 ∷ []) }
{
    match dir {
        Dir::In => put_line(
            writer,
            heads.came.spelled(dir, local, host, remote),
            head,
            rest,
        ),
        Dir::Out => put_line(
            writer,
            heads.went.spelled(dir, local, host, remote),
            head,
            rest,
        ),
    }
}

/// A line that begins with these bytes, and its payload in two parts.
fn put_line<W: Write>(
    writer: &mut LineWriter<W>,
    begins: &[u8],
    head: &[u8],
    rest: &[u8],
) -> Result<(), WriteFault>
    ensures adds { Adds W.contents writer.old writer.new result (begins.now ++ (payload_text (head.now ++ rest.now) ++ 10 ∷ [])) }
{
    if head.len() + rest.len() > 0 {
        return writer.add_hex_line(begins, head, rest);
    }
    writer.add(begins)?;
    writer.add(b"-\n")
}

/// Ends with the line of the total, and writes what waits.
pub fn finish<W: Write>(writer: &mut LineWriter<W>, count: u64) -> Result<(), WriteFault>
    ensures writes { Writes W.contents writer.old writer.new result (total_line count ++ 10 ∷ []) }
{
    let mut buffer = Buffer::new();
    let number = buffer.format(count).as_bytes();
    writer.add_all(&[b"total ", number, b"\n"])?;
    writer.flush()
}
