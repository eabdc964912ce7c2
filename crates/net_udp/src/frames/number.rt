ghost use Rattle.std.specs.Prelude.{◌≡◌, ◌+◌, ◌<◌, length};
ghost use Rattle.net_udp.specs.Frames.Number.{at, pair, four};

/// The byte at a place; 0 beyond the last.
#[inline]
pub fn byte_at(bytes: &[u8], place: usize) -> u8
    ensures { result ≡ at bytes.now place }
{
    match bytes.get(place) {
        Some(byte) => *byte,
        None => 0,
    }
}

/// The number of the two bytes at a place, the more significant one first.
#[inline]
pub fn pair_at(bytes: &[u8], place: usize) -> u16
    requires { place + 1 < length bytes.now }
    ensures { result ≡ pair bytes.now place }
{
    u16::from_be_bytes([bytes[place], bytes[place + 1]])
}

/// The number of the four bytes at a place, the most significant one first.
#[inline]
pub fn four_at(bytes: &[u8], place: usize) -> u32
    requires { place + 3 < length bytes.now }
    ensures { result ≡ four bytes.now place }
{
    u32::from_be_bytes([
        bytes[place],
        bytes[place + 1],
        bytes[place + 2],
        bytes[place + 3],
    ])
}
