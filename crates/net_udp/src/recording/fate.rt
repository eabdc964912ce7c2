use crate::frames::{FrameFault, UdpFault};
use net_pcap::Direction;
use std::net::IpAddr;

/// A UDP datagram of a recording.
#[derive(Clone, Copy, Debug)]
pub struct Datagram<'a> {
    /// Which way it went: as the link says, and where that does not, as the recording does.
    pub direction: Direction,
    /// The host that sent it.
    pub source: IpAddr,
    /// The port from which it came, not 0.
    pub source_port: u16,
    /// The host to which it went.
    pub target: IpAddr,
    /// The port to which it went, not 0.
    pub target_port: u16,
    /// What it carries.
    pub payload: &'a [u8],
}

/// Why frames are no datagram of UDP, nor part of one.
#[derive(Clone, Copy, Debug, PartialEq, Eq)]
pub enum LeftOut {
    /// The frame is no IP packet that may carry UDP, or the last part of one put together that does not: that is Protocol.
    Frame(FrameFault),
    /// The content of the packet, which is whole and of UDP, is no datagram; never Protocol.
    Udp(UdpFault),
    /// It is a fragment of which and others that came no packet is put together: they differ, or overlap in IPv6 (RFC 8200,
    /// section 4.5).
    Apart,
    /// It is a fragment that brings no byte.
    Empty,
    /// It is a fragment of a packet of more than 65,535 bytes.
    TooLong,
    /// It is a fragment with which more than 64 MB would wait.
    Full,
    /// It is a copy of a frame before it, recorded at another interface.
    Copy,
}

/// What became of a frame.
#[derive(Clone, Copy, Debug)]
pub enum Fate<'a> {
    /// It is a datagram, or the last part that was missing of one.
    Datagram(Datagram<'a>),
    /// It is left out.
    Left(LeftOut),
    /// It is a fragment that waits for others of its packet.
    Waits,
    /// It is a datagram, or the last part that was missing of one, that its host discarded, and is left out: its checksum is
    /// wrong (RFC 1122, sections 3.2.1.2 and 4.1.3.4). It was wrong when it came, and not only when it was recorded: its
    /// sender's host had sent one with a right one before, and none with one that was left to its network card.
    Discarded(Datagram<'a>),
}
