/// What an IP packet carries that was put together.
#[derive(Debug, Drop)]
pub struct Content {
    /// With what it begins: the protocol that the packet's first fragment names (RFC 8200, section 4.5).
    pub protocol: u8,
    /// Its bytes, at most 65,535.
    pub bytes: Vec<u8>,
}
