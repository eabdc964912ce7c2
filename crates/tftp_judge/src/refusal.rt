use law_end::{AbortedBy, Rule};

/// Why the datagrams of a capture are not accepted.
#[derive(Clone, Copy, Debug, PartialEq, Eq)]
pub enum Refusal {
    /// The first datagram with which no run of two ends is left, counted from 1, and the first rule in the order that it
    /// breaks.
    Unlawful(u64, Rule),
    /// A run shows them, and none as a whole transfer, which an ERROR ended: the end that sent the first one, and its code
    /// (RFC 1350, section 7).
    Aborted(AbortedBy, u16),
    /// A run shows them, and none as a whole transfer, which no ERROR ended; how many they are.
    Incomplete(u64),
    /// A run shows them as a whole transfer, of a text whose canonical form has more blocks than may be numbered (RFC 1350,
    /// section 5).
    NormalTooLong,
    /// A growth was refused, after so many datagrams, which are lawful: for the next one, which breaks no rule, or for the
    /// meaning of all.
    Memory(u64),
}
