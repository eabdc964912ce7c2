/// Where a datagram that may pass belongs, by its ports and the other host (RFC 1350, section 4).
#[derive(Clone, Copy, Debug, PartialEq, Eq)]
pub enum Route {
    /// A request, to the service port.
    Request,
    /// To or from the other end of the transfer.
    Peer,
    /// From a host or a port that is not the other end's.
    Stray,
    /// An ERROR to where a stray came from.
    StrayAnswer,
}
