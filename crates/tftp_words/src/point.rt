/// Where a recording was made: at one end of its transfers, or between the two (RFC 1350, section 4).
#[derive(Clone, Copy, Debug, PartialEq, Eq)]
pub enum Point {
    /// At the client.
    Client,
    /// At the server.
    Server,
    /// At a point that all datagrams pass which one end sends to the other.
    Between,
}
