ghost use Rattle.std.specs.Prelude.{◌≡◌};
ghost use Rattle.net_pcap.specs.Times.{time_of, units_of};

use crate::layout::Interface;

/// How many units a second has, by the byte of `if_tsresol` (draft-ietf-opsawg-pcapng, section 4.2): a power of 10, or
/// of 2 where its first bit is set; 0 where that is more than 64 bits can count.
pub fn units_of(resolution: u8) -> u64
    ensures { result ≡ units_of resolution }
{
    let units = if resolution < 128 {
        10u64.checked_pow(resolution as u32)
    } else {
        2u64.checked_pow(resolution as u32 - 128)
    };
    match units {
        Some(units) => units,
        None => 0,
    }
}

/// The nanoseconds since 1970 that so many units at an interface are; none where that is before 1970, or more than 64
/// bits can count, or the units are too fine.
pub fn time_of(interface: Interface, ticks: u64) -> Option<u64>
    ensures { result ≡ time_of interface ticks }
{
    if interface.units == 0 {
        return None;
    }
    let since = ticks as u128 * 1_000_000_000 / interface.units as u128;
    let offset = interface.offset;
    let time = if offset < 1 << 63 {
        since + offset as u128 * 1_000_000_000
    } else {
        since.checked_sub((u64::MAX - offset + 1) as u128 * 1_000_000_000)?
    };
    if time > u64::MAX as u128 {
        return None;
    }
    Some(time as u64)
}
