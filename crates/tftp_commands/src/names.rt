ghost use Rattle.std.specs.Prelude.{◌≡◌};
ghost use Rattle.tftp_packet.specs.{mode_name as mode_word};
ghost use Rattle.tftp_capture.specs.{dir_word};
ghost use Rattle.tftp_commands.specs.Names.{by_name as by_word, packet_fault_name as packet_fault_word, request_name as request_word, side_name as side_word, text_fault_name as text_fault_word};

use tftp_capture::TextFault;
use tftp_judge::AbortedBy;
use tftp_packet::hosts::Dir;
use tftp_packet::{Mode, PacketFault, Side};

/// The word that a verdict has for the side.
pub fn side_name(side: Side) -> &'static [u8]
    ensures { result.now ≡ side_word side }
{
    match side {
        Side::Get => b"get",
        Side::Put => b"put",
    }
}

/// The word of the end that ended a transfer.
pub fn by_name(by: AbortedBy) -> &'static [u8]
    ensures { result.now ≡ by_word by }
{
    match by {
        AbortedBy::Local => b"local",
        AbortedBy::Peer => b"peer",
    }
}

/// The word of a mode, in lower case (RFC 1350, section 5).
pub fn mode_name(mode: Mode) -> &'static [u8]
    ensures { result.now ≡ mode_word mode }
{
    match mode {
        Mode::Octet => b"octet",
        Mode::Netascii => b"netascii",
    }
}

/// The word of a direction, as in a capture text.
pub fn dir_name(dir: Dir) -> &'static [u8]
    ensures { result.now ≡ dir_word dir }
{
    match dir {
        Dir::In => b"in",
        Dir::Out => b"out",
    }
}

/// The name of a request's packet (RFC 1350, section 5).
pub fn request_name(side: Side) -> &'static [u8]
    ensures { result.now ≡ request_word side }
{
    match side {
        Side::Get => b"RRQ",
        Side::Put => b"WRQ",
    }
}

/// The name of what is wrong with a payload.
pub fn packet_fault_name(fault: PacketFault) -> &'static [u8]
    ensures { result.now ≡ packet_fault_word fault }
{
    match fault {
        PacketFault::Short => b"Short",
        PacketFault::Opcode => b"Opcode",
        PacketFault::AckLength => b"AckLength",
        PacketFault::NoTerminator => b"NoTerminator",
        PacketFault::OddOptions => b"OddOptions",
        PacketFault::EmptyOptionName => b"EmptyOptionName",
        PacketFault::DuplicateOption => b"DuplicateOption",
        PacketFault::UnknownMode => b"UnknownMode",
        PacketFault::MailMode => b"MailMode",
        PacketFault::RequestTooLong => b"RequestTooLong",
    }
}

/// The name of what is wrong with a capture text.
pub fn text_fault_name(fault: TextFault) -> &'static [u8]
    ensures { result.now ≡ text_fault_word fault }
{
    match fault {
        TextFault::BadHeader => b"BadHeader",
        TextFault::BadEnd => b"BadEnd",
        TextFault::BadService => b"BadService",
        TextFault::LineTooLong => b"LineTooLong",
        TextFault::BadLine => b"BadLine",
        TextFault::BadPort => b"BadPort",
        TextFault::BadHost => b"BadHost",
        TextFault::BadHex => b"BadHex",
        TextFault::PayloadTooLong => b"PayloadTooLong",
        TextFault::TotalWrong => b"TotalWrong",
        TextFault::Truncated => b"Truncated",
        TextFault::TrailingText => b"TrailingText",
        TextFault::TextTooLong => b"TextTooLong",
    }
}
