use crate::frame::Direction;

/// What a record or a block says of its frame, and where the frame's bytes lie in it.
#[derive(Clone, Copy, Debug)]
pub struct Place {
    /// The section of the recording.
    pub section: u64,
    /// The interface, by its number in the section.
    pub interface: u64,
    /// What the frame is.
    pub link: u32,
    /// When it was recorded.
    pub time: Option<u64>,
    /// Which way it went.
    pub direction: Direction,
    /// Whether it was received with an error.
    pub damaged: bool,
    /// How many packets were lost since the one before at its interface.
    pub missed: u64,
    /// How many bytes it had.
    pub original: u32,
    /// How many bytes stand before it.
    pub start: usize,
    /// How many bytes stand before what follows it.
    pub end: usize,
}
