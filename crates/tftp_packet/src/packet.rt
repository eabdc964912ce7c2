ghost use Rattle.std.specs.Prelude.{◌≡◌, ◌≢◌, ◌↔◌, ◌<◌, ◌/◌, ◌%◌, ℕ, [], ◌∷◌, None, length, IfOk, IfSome, IsOkAnd};
ghost use Rattle.tftp_packet.specs.Messages.{Message};
ghost use Rattle.tftp_packet.specs.Meaning.{meaning};
ghost use Rattle.tftp_packet.specs.Spelling.{side_opcode, Spells};
ghost use Rattle.tftp_packet.specs.AsWritten.{IsWritten};
ghost use Rattle.tftp_packet.specs.Faults.{FirstFault, opcode_of};
ghost use Rattle.tftp_packet.specs.Reading.{Judges};
ghost use Rattle.tftp_packet.specs.declared.fault.PacketFault.{PacketFault};

use crate::fault::PacketFault;
use crate::kinds::Side;
use crate::options::OptionsView;
use crate::request::RequestView;
use crate::text::only_string;
use byteorder::{BigEndian, ByteOrder};

/// A packet, whose bytes lie in the payload (RFC 1350, section 5).
#[derive(Debug, Drop)]
pub enum Packet<'a> {
    /// A request to read or to write a file.
    Request(RequestView<'a>),
    /// A block of the file.
    Data { block: u32, bytes: &'a [u8] },
    /// The acknowledgement of a block, or of the block 0.
    Ack { block: u32 },
    /// The end of the transfer, with a code and a message for people (RFC 1350, section 5).
    Error { code: u16, message: &'a [u8] },
    /// The options that the server agrees to (RFC 2347).
    Oack(OptionsView<'a>),
}

/// The number of the first two bytes, or 0 where there are fewer (RFC 1350, section 5).
#[inline]
pub fn opcode(payload: &[u8]) -> u16
    ensures { result ≡ opcode_of payload.now }
{
    if payload.len() < 2 {
        0
    } else {
        BigEndian::read_u16(payload)
    }
}

/// The packet that a payload spells. It borrows the payload, and takes no memory.
#[inline(always)]
pub fn read_packet(payload: &[u8]) -> Result<Packet<'_>, PacketFault>
    ensures found { IfOk result (λ p. Spells payload.now (meaning p)) }
    ensures written { IfOk result (IsWritten payload.now) }
    ensures only { (m : Message) → Spells payload.now m → IsOkAnd result (λ p. meaning p ≡ m) }
    ensures fault { (f : PacketFault) → (result ≡ Err f) ↔ FirstFault payload.now f }
{
    if payload.len() < 2 {
        return Err(PacketFault::Short);
    }
    match opcode(payload) {
        1 => read_request(Side::Get, payload),
        2 => read_request(Side::Put, payload),
        3 => read_data(payload),
        4 => read_ack(payload),
        5 => read_error(payload),
        6 => read_oack(payload),
        _ => Err(PacketFault::Opcode),
    }
}

/// The request that a payload spells (RFC 1350, section 5).
#[inline(never)]
fn read_request(side: Side, payload: &[u8]) -> Result<Packet<'_>, PacketFault>
    requires { opcode_of payload.now ≡ side_opcode side }
    ensures { Judges payload.now result }
{
    let request = RequestView::read(side, &payload[2..])?;
    Ok(Packet::Request(request))
}

/// The number and the bytes of a block, where the payload spells one (RFC 1350, section 5).
#[inline(always)]
pub fn block_of(payload: &[u8]) -> Option<(u16, &[u8])>
    ensures written { IfSome result (λ block. payload.now ≡ 0 ∷ 3 ∷ block.0 / 256 ∷ block.0 % 256 ∷ block.1.now) }
    ensures spelled { IfSome result (λ block. Spells payload.now (Message.Data block.0 block.1.now)) }
    ensures none { result ≡ None → opcode_of payload.now ≡ 3 → length payload.now < 4 }
{
    if payload.len() < 4 || opcode(payload) != 3 {
        return None;
    }
    Some((BigEndian::read_u16(&payload[2..]), &payload[4..]))
}

/// The number of an ACK, where the payload spells one (RFC 1350, section 5).
#[inline(always)]
pub fn ack_of(payload: &[u8]) -> Option<u16>
    ensures written { IfSome result (λ block. payload.now ≡ 0 ∷ 4 ∷ block / 256 ∷ block % 256 ∷ []) }
    ensures spelled { IfSome result (λ block. Spells payload.now (Message.Ack block)) }
    ensures none { result ≡ None → opcode_of payload.now ≡ 4 → length payload.now ≢ 4 }
{
    if payload.len() != 4 || opcode(payload) != 4 {
        return None;
    }
    Some(BigEndian::read_u16(&payload[2..]))
}

/// The block that a payload spells (RFC 1350, section 5).
fn read_data(payload: &[u8]) -> Result<Packet<'_>, PacketFault>
    requires { opcode_of payload.now ≡ 3 }
    ensures { Judges payload.now result }
{
    match block_of(payload) {
        Some((block, bytes)) => Ok(Packet::Data {
            block: u32::from(block),
            bytes,
        }),
        None => Err(PacketFault::Short),
    }
}

/// The acknowledgement that a payload spells (RFC 1350, section 5).
fn read_ack(payload: &[u8]) -> Result<Packet<'_>, PacketFault>
    requires { opcode_of payload.now ≡ 4 }
    ensures { Judges payload.now result }
{
    match ack_of(payload) {
        Some(block) => Ok(Packet::Ack {
            block: u32::from(block),
        }),
        None => Err(PacketFault::AckLength),
    }
}

/// The error that a payload spells (RFC 1350, section 5).
#[inline(never)]
fn read_error(payload: &[u8]) -> Result<Packet<'_>, PacketFault>
    requires { opcode_of payload.now ≡ 5 }
    ensures { Judges payload.now result }
{
    if payload.len() < 4 {
        return Err(PacketFault::Short);
    }
    match only_string(&payload[4..]) {
        Some(message) => Ok(Packet::Error {
            code: BigEndian::read_u16(&payload[2..]),
            message,
        }),
        None => Err(PacketFault::NoTerminator),
    }
}

/// The OACK that a payload spells (RFC 2347).
#[inline(never)]
fn read_oack(payload: &[u8]) -> Result<Packet<'_>, PacketFault>
    requires { opcode_of payload.now ≡ 6 }
    ensures { Judges payload.now result }
{
    let options = OptionsView::read(&payload[2..])?;
    Ok(Packet::Oack(options))
}
