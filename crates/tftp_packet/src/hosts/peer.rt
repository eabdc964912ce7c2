use crate::hosts::host::Host;
use std::marker::Model;

/// The other side of a datagram: a host, and a port there (RFC 1350, section 4). Ordered by the port first, since many peers
/// are at one host.
#[derive(Clone, Copy, PartialEq, Eq, PartialOrd, Ord)]
pub struct Peer {
    /// The port there, 0 to 65535.
    pub port: u16,
    /// The host, by the bytes that name it.
    pub host: Host,
}

impl Model for Peer {
    ghost use Rattle.tftp_packet.specs.Hosts.Capture.{PeerId};

    ghost Value = { PeerId };

    ghost view = { λ p. record { host = p.host; port = p.port } };

    ghost inverse = { λ v. record { host = v.host; port = v.port } };
}
