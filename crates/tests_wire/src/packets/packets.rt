//! Packets and options: payloads, and what is written of what they spell.

ghost use Rattle.tftp_packet.specs.{IsSpellable};

use crate::packets::views::{oack_of, owned_request_of, packet_of};
use crate::trials::comparing::{is_same, is_so};
use std::alloc::AllocError;
use std::test::Fail;
use tftp_packet::hosts::Host;
use tftp_packet::{
    OptionsView, Packet, PacketFault, Request, own_options, write_oack, write_packet, write_request,
};

const ASKED: &[u8] = b"\x00\x01a\x00octet\x00WindowSize\x004\x00BLKSIZE\x0008\x00";

const CANONICAL: &[u8] = b"\x00\x01a\x00octet\x00blksize\x008\x00windowsize\x004\x00";

const AGREED: &[u8] = b"\x00\x06blksize\x008\x00windowsize\x004\x00";

const CAPITALS: &[u8] = b"\x00\x06WINDOWSIZE\x004\x00BLKSIZE\x0008\x00";

/// Fails unless this is written of a packet.
fn is_written(rt: &HostRuntime, packet: &Packet<'_>, wanted: &[u8]) -> Result<(), Fail>
    requires { IsSpellable packet.now }
{
    is_same(write_packet(rt.alloc(), packet)?.as_slice(), wanted)
}

/// Fails unless this is written of the request or the OACK that a payload spells.
fn is_written_of(rt: &HostRuntime, payload: &[u8], wanted: &[u8]) -> Result<(), Fail> {
    match packet_of(payload) {
        Ok(Packet::Request(request)) => is_written(rt, &Packet::Request(request), wanted),
        Ok(Packet::Oack(options)) => is_written(rt, &Packet::Oack(options), wanted),
        _ => Err(Fail::new("another packet")),
    }
}

/// What is written of a request. It promises nothing.
fn written_request(rt: &HostRuntime, request: &Request) -> Result<Vec<u8>, AllocError> {
    write_request(rt.alloc(), request)
}

/// Fails unless this is written of a request that is owned.
fn is_request_written(rt: &HostRuntime, payload: &[u8], wanted: &[u8]) -> Result<(), Fail> {
    let request = owned_request_of(rt, payload)?;
    let text = written_request(rt, &request);
    is_same(text?.as_slice(), wanted)
}

/// What is written of an OACK's options that are owned. It promises nothing.
fn written_oack(rt: &HostRuntime, view: &OptionsView<'_>) -> Result<Vec<u8>, AllocError> {
    let options = own_options(rt.alloc(), view)?;
    write_oack(rt.alloc(), &options)
}

/// Fails unless this is written of an OACK's options that are owned.
fn is_oack_written(rt: &HostRuntime, payload: &[u8], wanted: &[u8]) -> Result<(), Fail> {
    let view = oack_of(payload)?;
    is_same(written_oack(rt, &view)?.as_slice(), wanted)
}

/// A request without a name is one too.
#[test]
fn requests_and_oacks_are_written_canonically(rt: HostRuntime) -> Result<(), Fail> {
    let unnamed = b"\x00\x01\x00octet\x00";
    is_written_of(&rt, ASKED, CANONICAL)?;
    is_request_written(&rt, ASKED, CANONICAL)?;
    is_written_of(&rt, unnamed, unnamed)?;
    is_written_of(&rt, CAPITALS, AGREED)?;
    is_oack_written(&rt, CAPITALS, AGREED)
}

#[test]
fn writes_blocks(rt: HostRuntime) -> Result<(), Fail> {
    is_written(&rt, &Packet::Ack { block: 258 }, b"\x00\x04\x01\x02")?;
    let data = Packet::Data {
        block: 1,
        bytes: b"hi",
    };
    is_written(&rt, &data, b"\x00\x03\x00\x01hi")?;
    let error = Packet::Error {
        code: 5,
        message: b"",
    };
    is_written(&rt, &error, b"\x00\x05\x00\x05\x00")
}

/// The fault of a payload, where it has one.
pub fn fault_of(payload: &[u8]) -> Option<PacketFault> {
    packet_of(payload).err()
}

/// Payloads, each with its fault. What is too long the scripts of judges have.
const FAULTS: &[(&[u8], PacketFault)] = &[
    (b"", PacketFault::Short),
    (b"\x00", PacketFault::Short),
    (b"\x00\x03", PacketFault::Short),
    (b"\x00\x05\x00", PacketFault::Short),
    (b"\x00\x00", PacketFault::Opcode),
    (b"\x00\x07", PacketFault::Opcode),
    (b"\x00\x04", PacketFault::AckLength),
    (b"\x00\x04\x00\x01\x00", PacketFault::AckLength),
    (b"\x00\x01", PacketFault::NoTerminator),
    (b"\x00\x01a\x00", PacketFault::NoTerminator),
    (b"\x00\x01a\x00octet", PacketFault::NoTerminator),
    (b"\x00\x05\x00\x05no", PacketFault::NoTerminator),
    (b"\x00\x05\x00\x05n\x00\x00", PacketFault::NoTerminator),
    (
        b"\x00\x01a\x00octet\x00blksize\x00",
        PacketFault::OddOptions,
    ),
    (b"\x00\x01a\x00mail\x00b\x00", PacketFault::OddOptions),
    (
        b"\x00\x01a\x00octet\x00\x008\x00",
        PacketFault::EmptyOptionName,
    ),
    (
        b"\x00\x01a\x00octet\x00blksize\x008\x00blksize\x008\x00",
        PacketFault::DuplicateOption,
    ),
    (b"\x00\x01a\x00oct\x00", PacketFault::UnknownMode),
    (b"\x00\x01a\x00mail\x00", PacketFault::MailMode),
];

#[test]
fn payloads_with_a_fault(_rt: HostRuntime) -> Result<(), Fail> {
    for (payload, fault) in FAULTS {
        is_so(fault_of(*payload) == Some(*fault), "another fault, or none")?;
    }
    Ok(())
}

/// Whether the bytes name a host, which has these bytes.
fn names_host(bytes: &[u8]) -> bool {
    match Host::new(bytes) {
        Some(host) => host.bytes() == bytes,
        None => false,
    }
}

/// Bytes, and whether they name a host: 1 to 45 signs from 33 to 126.
const HOSTS: &[(&[u8], bool)] = &[
    (b"", false),
    (b"-", true),
    (b"aaaaaaaaaaaaaaaaaaaaaaaaaaaaaaaaaaaaaaaaaaaaa", true),
    (b"aaaaaaaaaaaaaaaaaaaaaaaaaaaaaaaaaaaaaaaaaaaaaa", false),
    (b"a\x00a", false),
    (b"a a", false),
    (b"a!a", true),
    (b"a~a", true),
    (b"a\x7fa", false),
    (b"\xff", false),
];

#[test]
fn hosts_are_1_to_45_signs(_rt: HostRuntime) -> Result<(), Fail> {
    for (bytes, taken) in HOSTS {
        is_so(names_host(*bytes) == *taken, "a host, or none")?;
    }
    Ok(())
}
