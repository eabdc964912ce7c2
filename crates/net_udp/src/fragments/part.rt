/// A part of an IP packet's content, as a fragment brings it (RFC 791, section 3.2; RFC 8200, section 4.5).
#[derive(Clone, Copy, Debug)]
pub struct Part<'a> {
    /// The number of the protocol that the fragment names; it counts where the part is the first.
    pub protocol: u8,
    /// Where it begins in the content, in bytes.
    pub place: u32,
    /// Whether parts follow it.
    pub more: bool,
    /// Its bytes.
    pub content: &'a [u8],
    /// Whether it may overlap with others of its packet: in IPv4 it may, and in IPv6 of what overlaps nothing is put together
    /// (RFC 791, section 3.2; RFC 8200, section 4.5).
    pub may_overlap: bool,
}
