ghost use Rattle.std.specs.Prelude.{◌≡◌, ◌+◌, ◌^◌, ◌<◌, ◌≤◌, ◌++◌, ◌∷◌, [], List, length, IfOk, MatchResult, OnOk};
ghost use Rattle.std.specs.Io.KnownBytes.{Appends};
ghost use Rattle.net_streams.specs.Streams.Sinks.{Adds, Sink, Writes};
ghost use Rattle.tftp_capture.specs.CaptureText.{line_with_host, total_line, Header as HeaderParts, IsPort};
ghost use Rattle.tftp_capture.specs.Commented.{comment_line, commented_text, Entry};
ghost use Rattle.tftp_capture.specs.Commented.Entry.{Comment, Passed};
ghost use Rattle.tftp_capture.specs.Fields.{header_of};
ghost use Rattle.tftp_capture.specs.Written.{header_text_in, HasWrittenHosts};

use crate::datagram::Header;
use crate::spelled_head::SpelledHeads;
use crate::version::Version;
use crate::writer::{finish, put_datagram, put_header};
use net_streams::streams::{LineWriter, WriteFault};
use std::io::Write;
use std::marker::Model;
use tftp_packet::hosts::{Dir, Host};

/// A capture text that is being written in its canonical form of version 2, in which each datagram names its host:
/// contracts see the number of its datagrams. All its calls are to be made with the same writer of lines.
#[derive(Drop)]
pub struct HostCaptureWriter {
    heads: SpelledHeads,
    count: u64,
}

impl Model for HostCaptureWriter {
    ghost use Rattle.std.specs.Prelude.{ℕ};

    ghost Value = { ℕ };

    ghost view = { λ w. w.count };
}

impl HostCaptureWriter {
    /// Begins with the header; some of it may wait.
    pub fn begin<W: Write>(writer: &mut LineWriter<W>, header: &Header) -> Result<Self, WriteFault>
        requires service { IsPort header.now.service }
        ensures begun { IfOk result (λ count. HasWrittenHosts W.contents writer.old writer.new count (header_of header.now) []) }
        ensures adds { Adds W.contents writer.old writer.new result (header_text_in Version.Two (header_of header.now)) }
    {
        put_header(writer, Version::Two, header)?;
        Ok(HostCaptureWriter {
            heads: SpelledHeads::new(),
            count: 0,
        })
    }

    /// Adds a datagram with its host, `-` where none is known; some of it may wait.
    pub fn put<W: Write>(
        &mut self,
        writer: &mut LineWriter<W>,
        dir: Dir,
        local: u16,
        host: &Host,
        remote: u16,
        payload: &[u8],
    ) -> Result<(), WriteFault>
        requires local { IsPort local }
        requires remote { IsPort remote }
        requires payload { length payload.now ≤ 65527 }
        requires few { self.old < 2 ^ 40 }
        ensures adds { Adds W.contents writer.old writer.new result
            (line_with_host (record { dir = dir; local = local; host = host.now; remote = remote; payload = payload.now }) ++ 10 ∷ []) }
        ensures counted { MatchResult result (λ _. self.new ≡ self.old + 1) (λ _. self.new ≡ self.old) }
        ensures written { (start : Sink W) (header : HeaderParts) (entries : List Entry)
            → HasWrittenHosts W.contents start writer.old self.old header entries
            → OnOk result (HasWrittenHosts W.contents start writer.new self.new header (entries ++ Passed (record { dir = dir; local = local; host = host.now; remote = remote; payload = payload.now }) ∷ [])) }
    {
        put_datagram(
            writer,
            &mut self.heads,
            dir,
            local,
            Some(host),
            remote,
            payload,
            b"",
        )?;
        self.count += 1;
        Ok(())
    }

    /// Adds a line that says nothing: `# ` and these words; some of it may wait.
    pub fn comment<W: Write>(
        &mut self,
        writer: &mut LineWriter<W>,
        words: &[u8],
    ) -> Result<(), WriteFault>
        ensures adds { Adds W.contents writer.old writer.new result (comment_line words.now ++ 10 ∷ []) }
        ensures counted { self.new ≡ self.old }
        ensures written { (start : Sink W) (header : HeaderParts) (entries : List Entry)
            → HasWrittenHosts W.contents start writer.old self.old header entries
            → OnOk result (HasWrittenHosts W.contents start writer.new self.new header (entries ++ Comment words.now ∷ [])) }
    {
        writer.add_all(&[b"# ", words, b"\n"])
    }

    /// Ends with the total, and writes what waits.
    pub fn close<W: Write>(self, writer: &mut LineWriter<W>) -> Result<(), WriteFault>
        ensures writes { Writes W.contents writer.old writer.new result (total_line self ++ 10 ∷ []) }
        ensures written { (start : Sink W) (header : HeaderParts) (entries : List Entry)
            → HasWrittenHosts W.contents start writer.old self header entries
            → OnOk result (Appends (W.contents start.inner) (W.contents writer.new.inner) (start.waits ++ commented_text header entries)) }
    {
        finish(writer, self.count)
    }
}
