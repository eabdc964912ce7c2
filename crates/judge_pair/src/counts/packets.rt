ghost use Rattle.std.specs.Prelude.{◌≡◌};
ghost use Rattle.judge_pair.specs.Counts.Counts.{number_of};

/// A packet of a transfer, whose copies are counted together.
#[derive(Clone, Copy, Debug, PartialEq, Eq)]
pub enum CountedPacket {
    /// The client's request, or the server's OACK (RFC 2347).
    Opening,
    /// An ERROR (RFC 1350, section 5).
    Error,
    /// The DATA of this block: its number (RFC 1350, section 5), or the block that the number is read as where numbers begin again.
    Data(u32),
    /// The ACK of this block, likewise.
    Ack(u32),
}

impl CountedPacket {
    /// The number under which its copies are counted.
    #[inline]
    pub(crate) fn number(self) -> usize
        ensures { result ≡ number_of self }
    {
        match self {
            CountedPacket::Opening => 0,
            CountedPacket::Error => 3,
            CountedPacket::Data(block) => 4 * block as usize + 1,
            CountedPacket::Ack(block) => 4 * block as usize + 2,
        }
    }
}
