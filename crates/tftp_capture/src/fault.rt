use thiserror::Error;

/// What is wrong with a capture text. Of one byte the first is TextTooLong, then TrailingText, then LineTooLong; of one
/// whole line BadHost comes after BadPort and before BadHex, and the others in the order of their numbers.
#[derive(Clone, Copy, Debug, PartialEq, Eq, Error)]
pub enum TextFault {
    /// The first line is neither `tftp-capture 1` nor `tftp-capture 2`.
    #[error("the first line is not `tftp-capture 1` or `tftp-capture 2`")]
    BadHeader = 1,
    /// The second line that says something is no `end` line.
    #[error("no `end` line")]
    BadEnd = 2,
    /// The third line that says something is no `service` line with a port.
    #[error("no `service` line with a port")]
    BadService = 3,
    /// A line, a comment too, has more than 131,070 bytes before its LF, in version 2 after the first line 131,116.
    #[error("the line is too long")]
    LineTooLong = 4,
    /// Cut at single spaces, the line is not `in` or `out` with four pieces, in version 2 five, nor `total` with two.
    #[error("no datagram and no total")]
    BadLine = 5,
    /// A port is not 1 to 65535, or not written without leading zeros.
    #[error("no port")]
    BadPort = 6,
    /// The payload is empty, has an odd number of digits, or has another character.
    #[error("no hex")]
    BadHex = 7,
    /// The payload has more than 65,527 bytes.
    #[error("the payload is too long")]
    PayloadTooLong = 8,
    /// The total is not the decimal number of the datagrams.
    #[error("the total is not the number of the datagrams")]
    TotalWrong = 9,
    /// The text ends before the LF of the total line.
    #[error("the text ends too early")]
    Truncated = 10,
    /// A byte stands after the total line.
    #[error("text after the total")]
    TrailingText = 11,
    /// A byte stands after the first 2^40.
    #[error("the text is too long")]
    TextTooLong = 12,
    /// The host, which version 2 has, is not 1 to 45 signs.
    #[error("no host")]
    BadHost = 13,
}

/// Why no further datagram can be read, and at which line, counted from 1.
#[derive(Clone, Copy, Debug, PartialEq, Eq, Error)]
pub enum CaptureFault {
    /// The text is wrong there.
    #[error("line {0}: {1}")]
    Text(u64, TextFault),
    /// A read failed; the line is that of the byte that it would have given.
    #[error("line {0}: a read failed")]
    Read(u64),
    /// Memory was refused while that line was read.
    #[error("line {0}: out of memory")]
    Memory(u64),
}
