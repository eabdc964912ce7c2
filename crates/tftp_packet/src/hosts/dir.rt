/// Which way a datagram passed the end at which it was recorded.
#[derive(Clone, Copy, Debug, PartialEq, Eq)]
pub enum Dir {
    /// It came to that end.
    In,
    /// That end sent it.
    Out,
}
