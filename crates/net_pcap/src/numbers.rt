ghost use Rattle.std.specs.Prelude.{◌≡◌, ◌+◌, ◌<◌, length};
ghost use Rattle.net_pcap.specs.Numbers.{number_at, short_at};

/// In which order the bytes of the recording's own numbers stand.
#[derive(Clone, Copy, Debug, PartialEq, Eq)]
pub enum Order {
    /// The most significant byte first.
    Big,
    /// The least significant byte first.
    Little,
}

impl Order {
    /// The number of the four bytes from that place on.
    #[inline]
    pub fn number(self, bytes: &[u8], at: usize) -> u32
        requires { at + 3 < length bytes.now }
        ensures { result ≡ number_at self bytes.now at }
    {
        let [a, b, c, d] = [bytes[at], bytes[at + 1], bytes[at + 2], bytes[at + 3]];
        match self {
            Order::Big => u32::from_be_bytes([a, b, c, d]),
            Order::Little => u32::from_le_bytes([a, b, c, d]),
        }
    }

    /// The number of the two bytes from that place on.
    #[inline]
    pub fn short(self, bytes: &[u8], at: usize) -> u16
        requires { at + 1 < length bytes.now }
        ensures { result ≡ short_at self bytes.now at }
    {
        match self {
            Order::Big => u16::from_be_bytes([bytes[at], bytes[at + 1]]),
            Order::Little => u16::from_le_bytes([bytes[at], bytes[at + 1]]),
        }
    }
}
