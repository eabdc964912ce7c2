ghost use Rattle.std.specs.Prelude.{◌≡◌, []};

use std::alloc::Global;
use tftp_packet::hosts::{Dir, Host};
use tftp_packet::rounds::Rollover;
use tftp_packet::{Bytes, End};

/// Whose capture it is.
#[derive(Clone, Copy, Debug, PartialEq, Eq)]
pub struct Header {
    /// The end at which the datagrams were recorded.
    pub named: End,
    /// The port at which the server is asked, 1 to 65535 (69 by RFC 1350, section 4).
    pub service: u16,
    /// What comes after block 65535, where anything does. RFC 1350, section 5, gives a block's number two bytes and says no
    /// more.
    pub rollover: Option<Rollover>,
}

/// One datagram, as it passed the named end.
#[derive(Debug, Drop)]
pub struct Datagram {
    /// Which way it went.
    pub dir: Dir,
    /// The named end's port, 1 to 65535.
    pub local_port: u16,
    /// The other end's host, `-` where the text names none.
    pub remote_host: Host,
    /// The other end's port, 1 to 65535.
    pub remote_port: u16,
    /// What it carried, at most 65,527 bytes.
    pub payload: Bytes,
}

impl Datagram {
    /// A datagram without a payload, to be filled by a reader; it takes no memory.
    pub fn empty(alloc: Global) -> Self
        ensures { result.payload ≡ [] }
    {
        Datagram {
            dir: Dir::In,
            local_port: 1,
            remote_host: Host::none(),
            remote_port: 1,
            payload: Bytes::of(Vec::new(alloc)),
        }
    }
}
