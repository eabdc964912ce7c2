use thiserror::Error;

/// Why a frame is no IP packet that may carry UDP. Where several hold, the first in this order is answered.
#[derive(Clone, Copy, Debug, PartialEq, Eq, Error)]
pub enum FrameFault {
    /// The link type is none of Ethernet, Linux cooked (1 and 2), raw IP, BSD NULL and BSD LOOP.
    #[error("another link type")]
    Link,
    /// The frame ends before the link's header does, or in what stands between that and IP: tags (IEEE 802.1Q), LLC with SNAP (RFC
    /// 1042), PPPoE (RFC 2516), labels (RFC 3032), tags of HSR (IEC 62439-3) and FRER (IEEE 802.1CB), GRE (RFC 2784), ERSPAN, VXLAN
    /// (RFC 7348) and Geneve (RFC 8926). Or one of these is not read: what PPP compresses or enciphers, labels before another packet
    /// than one of IP, GRE and Geneve of another version or type; or MACsec (IEEE 802.1AE), a tag of Marvell's switches and the like.
    #[error("a frame that ends before IP, or whose headers before IP are not read")]
    Frame,
    /// The frame carries neither IPv4 nor IPv6. Of tunnels, here and below, it is the innermost packet that is judged.
    #[error("not IP")]
    Network,
    /// There is no whole header of IPv4 (RFC 791, section 3.1) or IPv6 (RFC 8200, section 3).
    #[error("no whole IP header")]
    Header,
    /// The packet carries another protocol than UDP, and is no fragment of IPv6.
    #[error("not UDP")]
    Protocol,
    /// The packet's length is less than that of its header.
    #[error("a length below that of the header")]
    Length,
    /// The recording has not all bytes of the packet.
    #[error("cut")]
    Cut,
    /// The extension headers of IPv6 or an authentication header run beyond the packet, or one of them is not read: mobility (RFC
    /// 6275) and the like, and a routing header with segments left, whose packet is not where it goes (RFC 8200, section 4); or what
    /// the packet carries is hidden: by ESP (RFC 4303), IPComp (RFC 3173) and the like. Or it is a fragment that more follow, and of no
    /// whole units of 8 bytes (RFC 8200, section 4.5), or one of a tunnel's packet, or behind IPsec.
    #[error("an extension header that runs beyond the packet, or is not read")]
    Extension,
}

/// Why the content of a whole IP packet is no UDP datagram. Where several hold, the first in this order is answered.
#[derive(Clone, Copy, Debug, PartialEq, Eq, Error)]
pub enum UdpFault {
    /// The content is not of UDP, nor do extension headers lead to it.
    #[error("not UDP")]
    Protocol,
    /// What the content carries is not read: a header before it is cut, not read or hides it, or it is a packet in a tunnel, or a
    /// fragment. A content that was put together of fragments may be so, as a datagram of VXLAN (RFC 7348).
    #[error("a header that runs beyond the content, or is not read")]
    Extension,
    /// The content has fewer bytes than a UDP header, 8.
    #[error("no whole UDP header")]
    Header,
    /// The length is below 8, or more than the content has (RFC 768).
    #[error("a wrong UDP length")]
    Length,
    /// The source's or the target's port is 0, at which no host is reached (RFC 768).
    #[error("port 0")]
    Port,
}
