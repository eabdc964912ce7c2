//! What a datagram's line begins with, as it is written: most often what the line before it that went the same way began
//! with.

ghost use Rattle.std.specs.Prelude.{◌≡◌, ◌+◌, ◌≤◌, ◌++◌, length, option_map, take, true};
ghost use Rattle.tftp_capture.specs.CaptureText.{dir_word};
ghost use Rattle.tftp_capture.specs.Written.{head_naming, host_field};

use crate::heads::LONGEST_HEAD;
use itoa::Buffer;
use std::marker::Model;
use tftp_packet::hosts::{Dir, Host};

/// The bytes of a datagram's line before its digits, and what they say.
#[derive(Drop)]
pub struct SpelledHead {
    bytes: [u8; 62],
    len: usize,
    dir: Dir,
    local: u16,
    host: Option<Host>,
    remote: u16,
}

impl Model for SpelledHead {
    ghost use Rattle.tftp_capture.specs.SpelledHeads.{SpelledHead, Spells, spelled_head};

    ghost Value = { SpelledHead };

    ghost view = { spelled_head };

    ghost invariant = { Spells };
}

/// The word of a way.
fn word_of(dir: Dir) -> &'static [u8]
    ensures word { result.now ≡ dir_word dir }
    ensures short { length result.now ≤ 3 }
{
    match dir {
        Dir::In => b"in",
        Dir::Out => b"out",
    }
}

/// The host, and the space after it; two empty slices for none.
fn field_of(host: Option<&Host>) -> (&[u8], &[u8])
    ensures field { result.0.now ++ result.1.now ≡ host_field (option_map (λ h. h.now) host.entry) }
    ensures short { length (result.0.now ++ result.1.now) ≤ 46 }
{
    match host {
        None => (b"", b""),
        Some(host) => (host.bytes(), b" "),
    }
}

/// Lays a piece behind so many bytes, and answers how many there are then.
fn lay(bytes: &mut [u8], len: usize, piece: &[u8]) -> usize
    requires { len + length piece.now ≤ length bytes.old }
    ensures laid { take result bytes.new ≡ take len bytes.old ++ piece.now }
    ensures count { result ≡ len + length piece.now }
    ensures size { length bytes.new ≡ length bytes.old }
{
    let end = len + piece.len();
    bytes[len..end].copy_from_slice(piece);
    end
}

impl SpelledHead {
    /// The head of a line with these fields.
    pub fn new(dir: Dir, local: u16, host: Option<&Host>, remote: u16) -> Self
        ensures { result ≡ record { bytes = head_naming (option_map (λ h. h.now) host.entry) dir local remote; dir = dir; local = local; host = option_map (λ h. h.now) host.entry; remote = remote } }
    {
        let mut local_buffer = Buffer::new();
        let mut remote_buffer = Buffer::new();
        let (name, space) = field_of(host);
        let mut bytes = [0; LONGEST_HEAD];
        let mut len = lay(&mut bytes, 0, word_of(dir));
        len = lay(&mut bytes, len, b" ");
        len = lay(&mut bytes, len, local_buffer.format(local).as_bytes());
        len = lay(&mut bytes, len, b" ");
        len = lay(&mut bytes, len, name);
        len = lay(&mut bytes, len, space);
        len = lay(&mut bytes, len, remote_buffer.format(remote).as_bytes());
        len = lay(&mut bytes, len, b" ");
        SpelledHead {
            bytes,
            len,
            dir,
            local,
            host: host.copied(),
            remote,
        }
    }

    /// Whether the head says these fields.
    fn says(&self, dir: Dir, local: u16, host: Option<&Host>, remote: u16) -> bool
        ensures { result ≡ true → self.now.bytes ≡ head_naming (option_map (λ h. h.now) host.entry) dir local remote }
    {
        let same_host = match (&self.host, host) {
            (None, None) => true,
            (Some(own), Some(host)) => own == host,
            _ => false,
        };
        same_host && self.dir == dir && self.local == local && self.remote == remote
    }

    /// The bytes of a head with these fields; it is spelled anew where it said others.
    pub fn spelled(&mut self, dir: Dir, local: u16, host: Option<&Host>, remote: u16) -> &[u8]
        ensures { result.now ≡ head_naming (option_map (λ h. h.now) host.entry) dir local remote }
    {
        if !self.says(dir, local, host, remote) {
            *self = SpelledHead::new(dir, local, host, remote);
        }
        &self.bytes[..self.len]
    }
}

/// The head of the line last written of each way.
#[derive(Drop)]
pub struct SpelledHeads {
    /// Of what came in.
    pub came: SpelledHead,
    /// Of what went out.
    pub went: SpelledHead,
}

impl SpelledHeads {
    /// Of ports that may not be those of the next lines.
    pub fn new() -> Self {
        SpelledHeads {
            came: SpelledHead::new(Dir::In, 1, None, 1),
            went: SpelledHead::new(Dir::Out, 1, None, 1),
        }
    }
}
