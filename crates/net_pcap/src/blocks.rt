ghost use Rattle.std.specs.Prelude.{◌≡◌, ◌+◌, ◌≤◌, ◌<◌, ℕ, length, MatchOption, IfSome, drop, option_map};
ghost use Rattle.net_pcap.specs.Blocks.{SpellsEnhanced, SpellsInterface, SpellsObsolete, SpellsPacket, SpellsSimple, SpellsStatistics, SpellsTimed, count_said, counter_by, damaged_by, direction_by, kept, long_at, missed_by, offset_by, units_by};
ghost use Rattle.net_pcap.specs.Frames.{FrameParts, frame_at};
ghost use Rattle.net_pcap.specs.declared.layout.Dropped.{Dropped};
ghost use Rattle.net_pcap.specs.declared.layout.Interface.{Interface};

use crate::frame::Direction;
use crate::layout::{Dropped, Interface, NamedInterface};
use crate::numbers::Order;
use crate::options::find_option;
use crate::place::Place;
use crate::times::{time_of, units_of};

/// The type of an interface block.
pub const INTERFACE: u32 = 1;

/// The most interfaces of a section.
pub const MOST_INTERFACES: usize = 65536;

/// The type of an enhanced packet block.
pub const ENHANCED: u32 = 6;

/// The type of a simple packet block.
pub const SIMPLE: u32 = 3;

/// The type of an obsolete packet block.
pub const OBSOLETE: u32 = 2;

/// The type of a statistics block.
pub const STATISTICS: u32 = 5;

/// The code of the option `isb_ifdrop`.
const INTERFACE_DROPS: u16 = 5;

/// The code of the option `isb_osdrop`.
const SYSTEM_DROPS: u16 = 7;

/// The code of the option `if_tsresol`.
const RESOLUTION: u16 = 9;

/// The code of the option `if_tsoffset`.
const OFFSET: u16 = 14;

/// The code of the option `epb_flags`, or `pack_flags`.
const FLAGS: u16 = 2;

/// The code of the option `epb_dropcount`.
const DROPS: u16 = 4;

/// The most bytes of a frame, as libpcap has it.
pub const LONGEST_FRAME: usize = 262_144;

/// How many units a second has, by the value of its option.
fn units_by(value: Option<&[u8]>) -> u64
    requires { IfSome (option_map (λ v. v.now) value) (λ v. length v ≡ 1) }
    ensures { result ≡ units_by (option_map (λ v. v.now) value.entry) }
{
    match value {
        Some(value) => units_of(value[0]),
        None => 1_000_000,
    }
}

/// The seconds to be added, by the value of their option.
fn offset_by(order: Order, value: Option<&[u8]>) -> u64
    requires { IfSome (option_map (λ v. v.now) value) (λ v. length v ≡ 8) }
    ensures { result ≡ offset_by order (option_map (λ v. v.now) value.entry) }
{
    let Some(value) = value else {
        return 0;
    };
    long_at(order, value)
}

/// The number of eight bytes.
fn long_at(order: Order, value: &[u8]) -> u64
    requires { length value.now ≡ 8 }
    ensures { result ≡ long_at order value.now }
{
    let (first, second) = (order.number(value, 0) as u64, order.number(value, 4) as u64);
    match order {
        Order::Big => first * 0x1_0000_0000 + second,
        Order::Little => second * 0x1_0000_0000 + first,
    }
}

/// Which way a frame went, by the value of the option of its flags.
fn direction_by(order: Order, value: Option<&[u8]>) -> Direction
    requires { IfSome (option_map (λ v. v.now) value) (λ v. length v ≡ 4) }
    ensures { result ≡ direction_by order (option_map (λ v. v.now) value.entry) }
{
    let Some(value) = value else {
        return Direction::Unknown;
    };
    match order.number(value, 0) % 4 {
        1 => Direction::In,
        2 => Direction::Out,
        _ => Direction::Unknown,
    }
}

/// Whether a frame was received with an error, by the value of the option of its flags.
fn damaged_by(order: Order, value: Option<&[u8]>) -> bool
    requires { IfSome (option_map (λ v. v.now) value) (λ v. length v ≡ 4) }
    ensures { result ≡ damaged_by order (option_map (λ v. v.now) value.entry) }
{
    match value {
        Some(value) => order.number(value, 0) > 0xffff,
        None => false,
    }
}

/// How many packets were lost, by the count in front of the frame, or else by the value of the option.
fn missed_by(order: Order, count: Option<u64>, value: Option<&[u8]>) -> u64
    requires { IfSome (option_map (λ v. v.now) value) (λ v. length v ≡ 8) }
    ensures { result ≡ missed_by order count (option_map (λ v. v.now) value.entry) }
{
    if let Some(count) = count {
        return count;
    }
    match value {
        Some(value) => long_at(order, value),
        None => 0,
    }
}

/// How many packets a count of two bytes says.
fn count_said(count: u16) -> u64
    ensures { result ≡ count_said count }
{
    if count == 0xffff { 0 } else { count as u64 }
}

/// What the body of an interface block says; none where it is none.
pub fn interface_of(order: Order, body: &[u8]) -> Option<Interface>
    ensures { MatchOption result ((interface : Interface) → SpellsInterface order body.now interface → ⊥) (SpellsInterface order body.now) }
{
    if body.len() < 8 {
        return None;
    }
    let options = &body[8..];
    let resolution = find_option(order, options, RESOLUTION, 1)?;
    let offset = find_option(order, options, OFFSET, 8)?;
    Some(Interface {
        link: order.short(body, 0) as u32,
        longest: order.number(body, 4),
        units: units_by(resolution),
        offset: offset_by(order, offset),
    })
}

/// The frame of an enhanced packet block, or of an obsolete one, which has a count of lost packets, of an interface; none
/// where the body is none.
fn timed_of(
    order: Order,
    interface: NamedInterface,
    count: Option<u64>,
    body: &[u8],
) -> Option<Place>
    requires { 20 ≤ length body.now }
    ensures timed { MatchOption result ((frame : FrameParts) → SpellsTimed order interface count (drop 4 body.now) frame → ⊥)
        (λ place. SpellsTimed order interface count (drop 4 body.now) (frame_at place body.now)) }
    ensures within { IfSome result (λ place. (place.start ≤ place.end) × (place.end ≤ length body.now)) }
{
    let high = order.number(body, 4) as u64;
    let low = order.number(body, 8) as u64;
    let captured = order.number(body, 12) as usize;
    if captured > LONGEST_FRAME {
        return None;
    }
    let padded = (captured + 3) / 4 * 4;
    if body.len() < 20 + padded {
        return None;
    }
    let Some(flags) = find_option(order, &body[20 + padded..], FLAGS, 4) else {
        return None;
    };
    let Some(drops) = find_option(order, &body[20 + padded..], DROPS, 8) else {
        return None;
    };
    Some(Place {
        section: interface.section,
        interface: interface.number,
        link: interface.described.link,
        time: time_of(interface.described, high * 0x1_0000_0000 + low),
        direction: direction_by(order, flags),
        damaged: damaged_by(order, flags),
        missed: missed_by(order, count, drops),
        original: order.number(body, 16),
        start: 20,
        end: 20 + captured,
    })
}

/// The frame of an enhanced packet block; none where the body is none.
fn enhanced_of(order: Order, interfaces: &[NamedInterface], body: &[u8]) -> Option<Place>
    ensures enhanced { MatchOption result ((frame : FrameParts) → SpellsEnhanced order interfaces.now body.now frame → ⊥)
        (λ place. SpellsEnhanced order interfaces.now body.now (frame_at place body.now)) }
    ensures within { IfSome result (λ place. (place.start ≤ place.end) × (place.end ≤ length body.now)) }
{
    if body.len() < 20 {
        return None;
    }
    let place = order.number(body, 0) as usize;
    if place >= interfaces.len() {
        return None;
    }
    timed_of(order, interfaces[place], None, body)
}

/// The frame of an obsolete packet block; none where the body is none.
fn obsolete_of(order: Order, interfaces: &[NamedInterface], body: &[u8]) -> Option<Place>
    ensures obsolete { MatchOption result ((frame : FrameParts) → SpellsObsolete order interfaces.now body.now frame → ⊥)
        (λ place. SpellsObsolete order interfaces.now body.now (frame_at place body.now)) }
    ensures within { IfSome result (λ place. (place.start ≤ place.end) × (place.end ≤ length body.now)) }
{
    if body.len() < 20 {
        return None;
    }
    let place = order.short(body, 0) as usize;
    if place >= interfaces.len() {
        return None;
    }
    let count = count_said(order.short(body, 2));
    timed_of(order, interfaces[place], Some(count), body)
}

/// The frame of a simple packet block, which has no time; none where the body is none.
fn simple_of(order: Order, interfaces: &[NamedInterface], body: &[u8]) -> Option<Place>
    ensures simple { MatchOption result ((frame : FrameParts) → SpellsSimple order interfaces.now body.now frame → ⊥)
        (λ place. SpellsSimple order interfaces.now body.now (frame_at place body.now)) }
    ensures within { IfSome result (λ place. (place.start ≤ place.end) × (place.end ≤ length body.now)) }
{
    if body.len() < 4 || interfaces.is_empty() {
        return None;
    }
    let interface = interfaces[0];
    let original = order.number(body, 0);
    let captured = kept(interface.described.longest, original) as usize;
    if captured > LONGEST_FRAME || body.len() < 4 + (captured + 3) / 4 * 4 {
        return None;
    }
    Some(Place {
        section: interface.section,
        interface: interface.number,
        link: interface.described.link,
        time: None,
        direction: Direction::Unknown,
        damaged: false,
        missed: 0,
        original,
        start: 4,
        end: 4 + captured,
    })
}

/// How many bytes of a frame of so many an interface keeps.
fn kept(longest: u32, original: u32) -> u32
    ensures { result ≡ kept longest original }
{
    if longest == 0 {
        original
    } else {
        original.min(longest)
    }
}

/// The frame that the body of a block of packets is, by the block's type; none where the body is none.
pub fn packet_of(
    order: Order,
    interfaces: &[NamedInterface],
    kind: u32,
    body: &[u8],
) -> Option<Place>
    ensures packet { MatchOption result ((frame : FrameParts) → SpellsPacket order interfaces.now kind body.now frame → ⊥)
        (λ place. SpellsPacket order interfaces.now kind body.now (frame_at place body.now)) }
    ensures within { IfSome result (λ place. (place.start ≤ place.end) × (place.end ≤ length body.now)) }
{
    match kind {
        ENHANCED => enhanced_of(order, interfaces, body),
        SIMPLE => simple_of(order, interfaces, body),
        OBSOLETE => obsolete_of(order, interfaces, body),
        _ => None,
    }
}

/// How many packets a counter says, by its option.
fn counter_by(order: Order, value: Option<&[u8]>) -> u64
    requires { IfSome (option_map (λ v. v.now) value) (λ v. length v ≡ 8) }
    ensures { result ≡ counter_by order (option_map (λ v. v.now) value.entry) }
{
    match value {
        Some(value) => long_at(order, value),
        None => 0,
    }
}

/// What the body of a statistics block says that its interface dropped; none where the body is none.
pub fn dropped_of(order: Order, interfaces: &[NamedInterface], body: &[u8]) -> Option<Dropped>
    ensures { MatchOption result ((dropped : Dropped) → SpellsStatistics order interfaces.now body.now dropped → ⊥) (SpellsStatistics order interfaces.now body.now) }
{
    if body.len() < 12 {
        return None;
    }
    let interface = order.number(body, 0) as u64;
    if interface >= interfaces.len() as u64 {
        return None;
    }
    let options = &body[12..];
    let by_interface = find_option(order, options, INTERFACE_DROPS, 8)?;
    let by_system = find_option(order, options, SYSTEM_DROPS, 8)?;
    let count = counter_by(order, by_interface).saturating_add(counter_by(order, by_system));
    Some(Dropped { interface, count })
}
