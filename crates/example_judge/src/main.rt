//! Tells what the datagrams of a transfer mean. They are made here: a read of two bytes, as the client saw it.
#![tactic(auto)]

ghost use Rattle.std.specs.Prelude.{◌≡◌, ◌≤◌, ◌^◌, All, IfOk, length, map};
ghost use Rattle.tftp_capture.specs.{datagram_of, header_of};
ghost use Rattle.law_end.specs.{Shows};

use std::alloc::{AllocError, Global};
use std::io;
use std::process::ExitCode;
use tftp_capture::{Datagram, Header};
use tftp_ends::blocks::RingDelivered;
use tftp_judge::{Judge, Meaning, Refusal};
use tftp_packet::hosts::{Dir, Host};
use tftp_packet::{Bytes, End};

/// Ends with status 2 where memory or a write failed.
fn main(rt: HostRuntime) -> ExitCode {
    match tell(rt) {
        Ok(()) => ExitCode::SUCCESS,
        Err(_) => ExitCode::from(2),
    }
}

/// Makes the datagrams and prints what they mean.
fn tell(rt: HostRuntime) -> io::Result<()> {
    let alloc = rt.alloc();
    let datagrams = [
        datagram(alloc, Dir::Out, 69, b"\x00\x01a\x00octet\x00")?,
        datagram(alloc, Dir::In, 41_000, b"\x00\x03\x00\x01hi")?,
        datagram(alloc, Dir::Out, 41_000, b"\x00\x04\x00\x01")?,
    ];
    let header = Header {
        named: End::Client,
        service: 69,
        rollover: None,
    };
    match audit(alloc, &header, &datagrams) {
        Ok(meaning) => println!(rt; "accepted, {} bytes", meaning.file_len()),
        Err(refusal) => println!(rt; "{refusal:?}"),
    }
}

/// What passed port 40000 of the client, and the port of the server.
fn datagram(alloc: Global, dir: Dir, port: u16, payload: &[u8]) -> Result<Datagram, AllocError>
    ensures payload { IfOk result (λ made. made.payload ≡ payload.now) }
{
    Ok(Datagram {
        dir,
        local_port: 40_000,
        remote_host: Host::none(),
        remote_port: port,
        payload: Bytes::of(Vec::from_slice(alloc, payload)?),
    })
}

/// What the datagrams mean, or why they are not accepted.
fn audit(alloc: Global, header: &Header, datagrams: &[Datagram]) -> Result<Meaning, Refusal>
    requires few { length datagrams.now ≤ 2 ^ 40 }
    requires short { All (λ d. length d.payload ≤ 65527) datagrams.now }
    ensures shown { IfOk result (λ meaning. Shows (header_of header.now) meaning (map datagram_of datagrams.now)) }
{
    let mut judge: Judge<RingDelivered> = Judge::new(alloc, header);
    for datagram in datagrams {
        judge.feed(alloc, datagram)?;
    }
    judge.finish(alloc)
}
