use crate::counts::{Carried, Counts};
use crate::judge::waiting::Wait;

/// How many datagrams of two captures are lawful, and how many of these some run of the two ends has together, each counted
/// from the first of its capture.
#[derive(Debug, Drop)]
pub struct Matched {
    /// How many of the client's are lawful.
    pub client_lawful: u64,
    /// How many of the server's are.
    pub server_lawful: u64,
    /// How many of the client's some run has beside the server's.
    pub client_matched: u64,
    /// How many of the server's it has.
    pub server_matched: u64,
    /// Why the client's datagram behind the matched ones waits; None where no lawful one is left.
    pub client_why: Option<Wait>,
    /// Why the server's datagram behind the matched ones waits; None where no lawful one is left.
    pub server_why: Option<Wait>,
    /// How often each packet passed at the client, as far as its datagrams are lawful; None where memory ran out to count it.
    pub client_counts: Option<Counts>,
    /// How often each passed at the server.
    pub server_counts: Option<Counts>,
    /// What the network lost and repeated, at the least, of what passed as far as both are lawful (RFC 1350, section 2); None
    /// where one of the two is not counted.
    pub carried: Option<Carried>,
}
