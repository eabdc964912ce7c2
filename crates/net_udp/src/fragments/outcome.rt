use crate::fragments::content::Content;

/// What became of a fragment.
#[derive(Debug, Drop)]
pub enum Outcome {
    /// It waits with the others of its packet, or for them.
    Waits,
    /// It was the last one missing of its packet.
    Whole {
        /// The packet's content.
        content: Content,
        /// The frames that brought its parts, in the order in which they came, the fragment's own the last.
        frames: Vec<u64>,
    },
    /// No packet is put together of it and others that came: bytes differ, or ends do, or two first ones name another protocol;
    /// or it may not overlap with them, and does (RFC 8200, section 4.5). The frames are those that waited until now; its own is
    /// not among them.
    Apart(Vec<u64>),
    /// It brings no byte.
    Empty,
    /// It is of a packet of more than 65,535 bytes, which there is none of (RFC 791, section 3.1; RFC 8200, section 4.5).
    TooLong,
    /// With it more than 64 MB would wait.
    Full,
}
