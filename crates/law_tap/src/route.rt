/// Where a datagram belongs that passed between the two ends (RFC 1350, section 4).
#[derive(Clone, Copy, Debug, PartialEq, Eq)]
pub enum TapRoute {
    /// A request of the client, to where it asks.
    Request,
    /// Another packet of the client, to the server.
    FromClient,
    /// A packet of the server, to the client.
    FromServer,
    /// From elsewhere to one of the two ends.
    Stray,
    /// An ERROR of one of the two ends, to where a stray came from.
    StrayAnswer,
    /// Neither from an end nor to one.
    ForeignPort,
    /// From an end to where it does not send.
    WrongPort,
    /// Something else than an ERROR to where a stray came from.
    NoStrayAnswer,
}
