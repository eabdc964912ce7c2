use law_end::Rule;
use tftp_packet::End;

/// Why the datagrams that passed between the ends are not accepted.
#[derive(Clone, Copy, Debug, PartialEq, Eq)]
pub enum TapRefusal {
    /// The first datagram with which no run of two ends is left that passes there, counted from 1; the first rule in the
    /// order that it breaks; and whether that stands whatever frames are missing, unless memory was wanting to tell.
    Unlawful(u64, Rule, Option<bool>),
    /// Some run passes them, and none as a whole transfer, which an ERROR ended: the end that sent the first one, and its code
    /// (RFC 1350, section 7).
    Aborted(End, u16),
    /// Some run passes them, and none as a whole transfer, which no ERROR ended; how many they are.
    Incomplete(u64),
    /// Some run passes them as a whole transfer, of a text whose canonical form has more than 65535 blocks (RFC 1350, section
    /// 5).
    NormalTooLong,
    /// A growth was refused, after so many datagrams, which are lawful: for the next one, which breaks no rule, or for the
    /// meaning of all.
    Memory(u64),
}
