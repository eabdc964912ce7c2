//! Why a datagram waits.

/// Why a datagram that came in is matched with none that the other end sent (RFC 1350, section 2).
#[derive(Clone, Copy, Debug, PartialEq, Eq)]
pub enum Wait {
    /// The other end's capture, as far as it is lawful, never sends what it says: it was made up or changed on the way, or is
    /// missing there.
    Unsent,
    /// The other end sends what it says, but only behind a datagram that itself waits.
    SentLater,
}
