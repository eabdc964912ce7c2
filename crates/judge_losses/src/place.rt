/// A place at which datagrams must be missing.
#[derive(Clone, Copy, Debug, PartialEq, Eq)]
pub struct Place {
    /// The datagram that was recorded next, counted from 1.
    pub before: u64,
    /// How many came in.
    pub came: u64,
    /// How many the named end sent.
    pub sent: u64,
}
