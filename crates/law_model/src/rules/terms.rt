use tftp_packet::{End, Side};

/// How the request was answered (RFC 1350, section 4; RFC 2347).
#[derive(Clone, Copy, Debug, PartialEq, Eq)]
pub enum Reply {
    /// Not yet.
    NoReply,
    /// By a block or an ACK 0, and so with nothing agreed.
    Plain,
    /// By an OACK.
    Oacked,
}

/// What an end knows of the transfer before its blocks.
#[derive(Clone, Copy, Debug, PartialEq, Eq)]
pub struct Terms {
    /// The end at which the datagrams were recorded.
    pub named: End,
    /// Which way the file goes.
    pub side: Side,
    /// How the request was answered.
    pub reply: Reply,
    /// How many bytes a block has that is not the last, 8 to 65464 (RFC 2348).
    pub blksize: u16,
    /// How many blocks may be sent after an acknowledged one, from 1 (RFC 7440).
    pub windowsize: u16,
    /// The greatest block: 65535 (RFC 1350, section 5), and 8388607 where numbers begin again.
    pub greatest: u32,
    /// How many bytes the whole wire has, where that was agreed (RFC 2349).
    pub size: Option<u64>,
}
