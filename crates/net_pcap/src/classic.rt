ghost use Rattle.std.specs.Prelude.{◌≡◌, ◌≢◌, ◌+◌, ◌<◌, ◌≤◌, ◌↔◌, Bool, IsTrue, MatchOption, length};
ghost use Rattle.net_pcap.specs.Classic.{magic, major, SpellsHeader, SpellsRecord};
ghost use Rattle.net_pcap.specs.Frames.{frame_at, longest_frame};
ghost use Rattle.net_pcap.specs.Numbers.{number_at};
ghost use Rattle.net_pcap.specs.declared.numbers.Order.{Order};
ghost use Rattle.net_pcap.specs.declared.layout.Classic.{Classic};

use crate::frame::Direction;
use crate::layout::Classic;
use crate::numbers::Order;
use crate::place::Place;

/// How many bytes the header has.
pub const HEADER: usize = 24;

/// How many bytes stand in front of a record's frame.
pub const HEAD: usize = 16;

/// The order of bytes and the fractions of seconds that the first four bytes of a recording name.
pub fn magic_of(bytes: &[u8]) -> Option<(Order, bool)>
    ensures { MatchOption result ((order : Order) (nano : Bool) → bytes.now ≢ magic order nano) (λ found. bytes.now ≡ magic found.0 found.1) }
{
    if bytes == [0xa1, 0xb2, 0xc3, 0xd4].as_slice() {
        Some((Order::Big, false))
    } else if bytes == [0xa1, 0xb2, 0x3c, 0x4d].as_slice() {
        Some((Order::Big, true))
    } else if bytes == [0xd4, 0xc3, 0xb2, 0xa1].as_slice() {
        Some((Order::Little, false))
    } else if bytes == [0x4d, 0x3c, 0xb2, 0xa1].as_slice() {
        Some((Order::Little, true))
    } else {
        None
    }
}

/// Whether the bytes are version 2.
fn is_major(order: Order, bytes: &[u8]) -> bool
    ensures { IsTrue result ↔ (bytes.now ≡ major order) }
{
    match order {
        Order::Big => bytes == [0, 2].as_slice(),
        Order::Little => bytes == [2, 0].as_slice(),
    }
}

/// What a header says; none where it is that of no classic recording.
pub fn header_of(bytes: &[u8]) -> Option<Classic>
    requires { length bytes.now ≡ 24 }
    ensures { MatchOption result ((classic : Classic) → SpellsHeader bytes.now classic → ⊥) (SpellsHeader bytes.now) }
{
    let (order, nano) = magic_of(&bytes[..4])?;
    if !is_major(order, &bytes[4..6]) {
        return None;
    }
    Some(Classic {
        order,
        nano,
        link: order.number(bytes, 20) % 0x1_0000,
    })
}

/// The frame of a record, all of which is there.
pub fn record_of(classic: Classic, bytes: &[u8]) -> Place
    requires sized { length bytes.now ≡ 16 + number_at classic.order bytes.now 8 }
    requires few { length bytes.now ≤ 16 + longest_frame }
    ensures record { SpellsRecord classic bytes.now (frame_at result bytes.now) }
    ensures within { (result.start ≤ result.end) × (result.end ≤ length bytes.now) }
{
    let order = classic.order;
    let seconds = order.number(bytes, 0) as u64;
    let fraction = order.number(bytes, 4) as u64;
    let unit = if classic.nano { 1 } else { 1000 };
    Place {
        section: 0,
        interface: 0,
        link: classic.link,
        time: Some(seconds * 1_000_000_000 + fraction * unit),
        direction: Direction::Unknown,
        damaged: false,
        missed: 0,
        original: order.number(bytes, 12),
        start: HEAD,
        end: bytes.len(),
    }
}
