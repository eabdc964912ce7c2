use crate::texts::comment::Comment;
use crate::views::Held;

/// A datagram of the transfer, and what its comment says.
#[derive(Drop)]
pub struct Noted {
    pub held: Held,
    pub comment: Comment,
}
