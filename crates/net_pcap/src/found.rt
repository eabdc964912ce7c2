use crate::layout::{Dropped, Interface, Layout};
use crate::place::Place;

/// What a piece of a recording says.
#[derive(Clone, Copy, Debug)]
pub enum Found {
    /// How what follows is laid out; no interface is named yet.
    Opens(Layout),
    /// A further interface.
    Names(Interface),
    /// A frame.
    Gives(Place),
    /// What an interface dropped.
    Counts(Dropped),
    /// Nothing that counts.
    Skips,
}
