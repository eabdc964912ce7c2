/// Which way the file goes, seen from the client (RFC 1350, section 1).
#[derive(Clone, Copy, Debug, PartialEq, Eq)]
pub enum Side {
    /// A read: the server sends the file.
    Get,
    /// A write: the client sends the file.
    Put,
}

/// How the file's bytes go over the wire (RFC 1350, section 1).
#[derive(Clone, Copy, Debug, PartialEq, Eq)]
pub enum Mode {
    /// The bytes as they are.
    Octet,
    /// Text, with CR LF for a line's end and CR NUL for a CR.
    Netascii,
}

/// One of the two ends of a transfer.
#[derive(Clone, Copy, Debug, PartialEq, Eq)]
pub enum End {
    /// The end that asks.
    Client,
    /// The end that is asked.
    Server,
}
