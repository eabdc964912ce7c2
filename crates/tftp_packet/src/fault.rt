use thiserror::Error;

/// Why a payload is no packet. Where several hold, the first in this order is answered.
#[derive(Clone, Copy, Debug, PartialEq, Eq, Error)]
pub enum PacketFault {
    /// Fewer than 2 bytes, or a DATA or an ERROR of fewer than 4 (RFC 1350, section 5).
    #[error("too short")]
    Short,
    /// The opcode is not 1 to 6 (RFC 1350, section 5; RFC 2347).
    #[error("unknown opcode")]
    Opcode,
    /// An ACK that has not 4 bytes (RFC 1350, section 5).
    #[error("an ACK that has not 4 bytes")]
    AckLength,
    /// A string of the packet has no zero byte at its end, or is not there (RFC 1350, section 5).
    #[error("a string without its end")]
    NoTerminator,
    /// An option without a value (RFC 2347).
    #[error("an option without a value")]
    OddOptions,
    /// An option whose name has no byte (RFC 2347).
    #[error("an option without a name")]
    EmptyOptionName,
    /// Two options of one name, letter case ignored (RFC 2347).
    #[error("an option given twice")]
    DuplicateOption,
    /// The mode is none of `octet`, `netascii` and `mail` (RFC 1350, section 5).
    #[error("unknown mode")]
    UnknownMode,
    /// The mode `mail` (RFC 1350, section 5), which is obsolete and not read.
    #[error("mode mail")]
    MailMode,
    /// A request with options of more than 512 bytes (RFC 2347).
    #[error("a request with options of more than 512 bytes")]
    RequestTooLong,
}
