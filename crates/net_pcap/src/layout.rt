use crate::numbers::Order;

/// What the header of a classic recording says.
#[derive(Clone, Copy, Debug, PartialEq, Eq)]
pub struct Classic {
    /// The order of the bytes of its numbers.
    pub order: Order,
    /// Whether the fractions of seconds are nanoseconds, and not microseconds.
    pub nano: bool,
    /// What the frames are: the link type, of 16 bits.
    pub link: u32,
}

/// How the bytes that follow are laid out.
#[derive(Clone, Copy, Debug, PartialEq, Eq)]
pub enum Layout {
    /// Nothing was read yet: a header is due.
    Unopened,
    /// Records follow, each of one frame.
    Classic(Classic),
    /// Blocks follow, whose numbers are in this order.
    Blocks(Order),
}

/// What an interface block says of the frames that were recorded there.
#[derive(Clone, Copy, Debug, PartialEq, Eq)]
pub struct Interface {
    /// What the frames are: the link type, of 16 bits.
    pub link: u32,
    /// How many bytes of a frame were kept at most; 0 where all were.
    pub longest: u32,
    /// How many units of its times are a second; 0 where that is more than 64 bits can count.
    pub units: u64,
    /// What is added to its times, in seconds: a signed number of 64 bits, as its bits are.
    pub offset: u64,
}

/// An interface of a section, which its block named there.
#[derive(Clone, Copy, Debug, PartialEq, Eq)]
pub struct NamedInterface {
    /// What its block says.
    pub described: Interface,
    /// The section, the first of the recording being 1.
    pub section: u64,
    /// Its number in the section, the first being 0.
    pub number: u64,
    /// How many packets the statistics blocks say that it dropped: the greatest count.
    pub reported: u64,
    /// How many packets its packets' blocks say that it lost: their sum.
    pub missed: u64,
}

/// What a statistics block says of an interface.
#[derive(Clone, Copy, Debug, PartialEq, Eq)]
pub struct Dropped {
    /// The interface, by its number in the section.
    pub interface: u64,
    /// How many packets it and the operating system dropped since the capture began.
    pub count: u64,
}
