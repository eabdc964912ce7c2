ghost use Rattle.std.specs.Prelude.{◌≡◌};
ghost use Rattle.net_udp.specs.Frames.Ip.{is_identified};
ghost use Rattle.net_udp.specs.Frames.Parts.{shown};

use std::net::IpAddr;

/// Which way the link says that a frame went, seen from where it was recorded.
#[derive(Clone, Copy, Debug, PartialEq, Eq)]
pub enum Direction {
    /// The link does not say.
    Unknown,
    /// To the host that recorded.
    In,
    /// From the host that recorded.
    Out,
}

/// Which part of an IP packet a fragment is (RFC 791, section 3.2; RFC 8200, section 4.5).
#[derive(Clone, Copy, Debug, PartialEq, Eq)]
pub struct Fragment {
    /// The packet's identification: 16 bits in IPv4, 32 in IPv6.
    pub id: u32,
    /// Where the part begins in the packet's content, in bytes.
    pub place: u32,
    /// Whether parts follow it.
    pub more: bool,
}

/// An IP packet, or a fragment of one, whose bytes lie in the frame.
#[derive(Clone, Copy, Debug)]
pub struct IpPacket<'a> {
    /// Which way the link says that it went.
    pub direction: Direction,
    /// The host that sent it.
    pub source: IpAddr,
    /// The host to which it went.
    pub target: IpAddr,
    /// With what the content begins: 17 for UDP. In a fragment of IPv6 it is what the fragment header names, any number;
    /// that of the packet's first fragment counts (RFC 8200, section 4.5).
    pub protocol: u8,
    /// The identification of an IPv4 packet, also of one that is whole; IPv6 has none.
    pub identification: Option<u16>,
    /// Which part it is; none where the packet is whole.
    pub fragment: Option<Fragment>,
    /// What follows the headers, as long as the length fields say.
    pub content: &'a [u8],
    /// The whole packet from its IP header on, as long as the length fields say.
    pub packet: &'a [u8],
}

impl IpPacket<'_> {
    /// Whether it has an identification, by which it differs from what its sender sent to the same target at about that time
    /// (RFC 791, section 3.2; RFC 8200, section 4.5): in IPv4 one that is not 0, in IPv6 that of a fragment. Without one a
    /// copy and a repetition look alike. RFC 6864 leaves it free in IPv4 where a packet may not be fragmented; many a sender
    /// puts 0 there, but it may put any number.
    #[inline]
    pub fn is_identified(&self) -> bool
        ensures { result ≡ is_identified (shown self.now) }
    {
        match self.identification {
            Some(id) => id != 0,
            None => self.fragment.is_some(),
        }
    }
}

/// A UDP datagram, whose payload lies in the packet (RFC 768).
#[derive(Clone, Copy, Debug)]
pub struct UdpDatagram<'a> {
    /// The port from which it came.
    pub source_port: u16,
    /// The port to which it went.
    pub target_port: u16,
    /// What it carries.
    pub payload: &'a [u8],
}
