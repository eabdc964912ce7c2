//! Why a refusal is no accusation.

/// Why a refusal is no accusation, or why a transfer that stops early may have gone on.
#[derive(Clone, Copy, Debug, PartialEq, Eq)]
pub enum Reason {
    /// At an end: it may have been recorded between the two, and the datagram is not refused there.
    Unplaced,
    /// Between the ends: a request that did not pass may explain an answer to a stray (RFC 1350, section 4).
    Unseen,
    /// Times go back within the transfer.
    Disordered,
    /// The frame with this number, from 1, was left out, and its time is within the transfer's.
    LeftOut(u64),
    /// Nothing came to the client.
    OneWay,
    /// The transfer before may go on in it.
    AskedAgain,
    /// A transfer may have been under way whose request was not recorded.
    FollowsStrays,
    /// Nobody had answered the client's request before for sure: what comes may be the late answer to that.
    FollowsUnanswered,
    /// The client did not go on with who sent it something first.
    LedAstray,
    /// The client had asked before, and sent an ERROR alone to who sent it something first.
    TurnedAway,
    /// The datagram is an ERROR 5, "Unknown transfer ID" (RFC 1350, section 5).
    UnknownId,
    /// At the server: its client sent the datagram to where it had heard nothing from.
    SpeaksFirst,
    /// The client spoke before anything came to it: the recording began later than the transfer, it may be.
    FirstWord,
    /// Its first answer may be a datagram that is another transfer's.
    AnsweredApart,
    /// The datagram may be late from an earlier transfer between the same two endpoints, or rest on an OACK that may be.
    GoesOver,
    /// The client had asked for another transfer by then.
    Late,
    /// The datagram passed with another than the client.
    Beside,
    /// Neither end sent the datagram.
    Stranger,
    /// Each datagram was recorded twice.
    Twice,
    /// The frame with this number, from 1, is not there whole.
    Lost(u64),
    /// The frame with this number, from 1, may be a copy.
    Copied(u64),
    /// The frame with this number, from 1, was received with an error of its link.
    Damaged(u64),
    /// The frame with this number, from 1, has a wrong checksum of UDP or of its IP header (RFC 1122, sections 3.2.1.2 and 4.1.3.4).
    Discarded(u64),
    /// The frame with this number, from 1, may be several datagrams that were recorded as one.
    Joined(u64),
    /// The recorder says that it lost so many packets, at least 1.
    Dropped(u64),
}
