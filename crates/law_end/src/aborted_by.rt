/// Which end ended a transfer by an ERROR.
#[derive(Clone, Copy, Debug, PartialEq, Eq)]
pub enum AbortedBy {
    /// The end where the capture was taken.
    Local,
    /// The other end.
    Peer,
}
