//! What a capture says of a datagram beside its payload: the host at the other side, and which way the datagram passed.

mod dir;
mod host;
mod peer;

pub use dir::Dir;
pub use host::Host;
pub use peer::Peer;
