ghost use Rattle.std.specs.Prelude.{◌≡◌, ◌++◌, ◌∷◌, [], ◌<◌, ◌/◌, ◌%◌, IfOk, OnOk};
ghost use Rattle.tftp_packet.specs.Messages.{Message};
ghost use Rattle.tftp_packet.specs.Meaning.{meaning, IsSpellable};
ghost use Rattle.tftp_packet.specs.Written.{terminated, strings, pair_strings};
ghost use Rattle.tftp_packet.specs.Owned.{shown};
ghost use Rattle.tftp_packet.specs.Canonical.{value_text, canonical_pairs, canonical};

use crate::kinds::{Mode, Side};
use crate::owned_options::{Options, own_options};
use crate::owned_request::{Request, own_request};
use crate::packet::Packet;
use crate::value::Value;
use byteorder::{BigEndian, ByteOrder};
use itoa::Buffer;
use std::alloc::{AllocError, Global};

/// The canonical bytes of a packet: no other spelling of it is shorter.
pub fn write_packet(alloc: Global, packet: &Packet<'_>) -> Result<Vec<u8>, AllocError>
    requires { IsSpellable packet.now }
    ensures { IfOk result (λ v. v.items ≡ canonical (meaning packet.now)) }
{
    match packet {
        Packet::Request(view) => write_request(alloc, &own_request(alloc, view)?),
        Packet::Data { block, bytes } => write_numbered(alloc, 3, *block as u16, bytes),
        Packet::Ack { block } => write_numbered(alloc, 4, *block as u16, &[]),
        Packet::Error { code, message } => {
            let mut out = write_numbered(alloc, 5, *code, message)?;
            out.push(0)?;
            Ok(out)
        }
        Packet::Oack(view) => write_oack(alloc, &own_options(alloc, view)?),
    }
}

/// The canonical bytes of a request (RFC 1350, section 5; RFC 2347).
pub fn write_request(alloc: Global, request: &Request) -> Result<Vec<u8>, AllocError>
    ensures { IfOk result (λ v. v.items ≡ canonical (Message.Request request.now)) }
{
    let opcode: u16 = match request.side() {
        Side::Get => 1,
        Side::Put => 2,
    };
    let mode = match request.mode() {
        Mode::Octet => b"octet".as_slice(),
        Mode::Netascii => b"netascii".as_slice(),
    };
    let mut out = begin(alloc, opcode)?;
    write_string(&mut out, request.name())?;
    write_string(&mut out, mode)?;
    write_options(&mut out, request.options())?;
    Ok(out)
}

/// The canonical bytes of an OACK (RFC 2347).
pub fn write_oack(alloc: Global, options: &Options) -> Result<Vec<u8>, AllocError>
    ensures { IfOk result (λ v. v.items ≡ canonical (Message.Oack options.now)) }
{
    let mut out = begin(alloc, 6)?;
    write_options(&mut out, options)?;
    Ok(out)
}

/// A packet that has its opcode alone (RFC 1350, section 5).
fn begin(alloc: Global, opcode: u16) -> Result<Vec<u8>, AllocError>
    requires { opcode < 256 }
    ensures { IfOk result (λ v. v.items ≡ 0 ∷ opcode ∷ []) }
{
    let mut head = [0; 2];
    BigEndian::write_u16(&mut head, opcode);
    Vec::from_slice(alloc, &head)
}

/// An opcode, a number and bytes.
fn write_numbered(
    alloc: Global,
    opcode: u16,
    number: u16,
    bytes: &[u8],
) -> Result<Vec<u8>, AllocError>
    requires { opcode < 256 }
    ensures { IfOk result (λ v. v.items ≡ 0 ∷ opcode ∷ number / 256 ∷ number % 256 ∷ bytes.now) }
{
    let mut head = [0; 4];
    BigEndian::write_u16(&mut head, opcode);
    BigEndian::write_u16(&mut head[2..], number);
    let mut out = Vec::from_slice(alloc, &head)?;
    out.extend_from_slice(bytes)?;
    Ok(out)
}

/// Options in the order of their names.
fn write_options(out: &mut Vec<u8>, options: &Options) -> Result<(), AllocError>
    ensures { OnOk result (out.new.items ≡ out.old.items ++ strings (pair_strings (canonical_pairs options.now))) }
{
    for entry in options.entries() {
        write_string(out, entry.name.as_slice())?;
        write_value(out, &entry.value)?;
    }
    Ok(())
}

/// A value, and a zero byte.
fn write_value(out: &mut Vec<u8>, value: &Value) -> Result<(), AllocError>
    ensures { OnOk result (out.new.items ≡ out.old.items ++ terminated (value_text (shown value.now))) }
{
    match value {
        Value::Num(number) => {
            let mut buffer = Buffer::new();
            write_string(out, buffer.format(*number).as_bytes())
        }
        Value::Text(text) => write_string(out, text.as_slice()),
    }
}

/// A string, and a zero byte.
fn write_string(out: &mut Vec<u8>, string: &[u8]) -> Result<(), AllocError>
    ensures { OnOk result (out.new.items ≡ out.old.items ++ terminated string.now) }
{
    out.extend_from_slice(string)?;
    out.push(0)?;
    Ok(())
}
