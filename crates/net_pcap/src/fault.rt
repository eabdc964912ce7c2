use thiserror::Error;

/// What is wrong where no further frame can be read.
#[derive(Clone, Copy, Debug, PartialEq, Eq, Error)]
pub enum FaultKind {
    /// The first four bytes are those of no recording, or there are fewer.
    #[error("no recording")]
    NotARecording,
    /// The recording ends within its header, a record or a block.
    #[error("the recording is cut")]
    Truncated,
    /// The header, a record or a block is none: another version, a length that can't be, an interface that was not named,
    /// options that go beyond their block, or more than 65,536 interfaces.
    #[error("a wrong header or block")]
    Bad,
    /// A record's frame has more than 262,144 bytes, or a block more than 16,777,216.
    #[error("a frame or a block that is too long")]
    TooLong,
    /// More than 2^40 records and blocks.
    #[error("too many records or blocks")]
    TooMany,
    /// A read failed.
    #[error("a read failed")]
    Read,
    /// Memory was refused.
    #[error("out of memory")]
    Memory,
}

/// Why no further frame can be read.
#[derive(Clone, Copy, Debug, PartialEq, Eq, Error)]
#[error("frame {frame}: {kind}")]
pub struct PcapFault {
    /// What is wrong.
    pub kind: FaultKind,
    /// The number of the frame that was due, the first being 1.
    pub frame: u64,
}
