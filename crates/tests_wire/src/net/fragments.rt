//! Fragments put together: in any order, repeated, apart from one another, too old, too long, and too many.

use crate::trials::comparing::is_so;
use net_udp::fragments::{Fragments, Key, Outcome, Part};
use std::alloc::AllocError;
use std::net::{IpAddr, Ipv4Addr, Ipv6Addr};
use std::test::Fail;

/// A packet's content: 40 bytes, which are cut at 16 and 32.
const CONTENT: &[u8; 40] = b"0123456789abcdefghijklmnopqrstuvwxyzABCD";

/// The bytes that parts carry: the content, and eight that are another's.
const BYTES: &[u8; 48] = b"0123456789abcdefghijklmnopqrstuvwxyzABCD89abcdeF";

/// 30 s in nanoseconds.
const PATIENCE: u64 = 30_000_000_000;

/// The key of a packet from one host of the network for examples to another (RFC 3849).
fn key_of_ipv6() -> Key {
    Key {
        source: IpAddr::V6(Ipv6Addr::new(0x2001, 0xdb8, 0, 0, 0, 0, 0, 1)),
        target: IpAddr::V6(Ipv6Addr::new(0x2001, 0xdb8, 0, 0, 0, 0, 0, 2)),
        protocol: None,
        id: 7,
    }
}

/// That key; and of IPv4 those of packets to two targets, and then such that differ from the first in one other thing (RFC
/// 5737, section 3).
fn key_in(version: Version, which: u8) -> Key {
    if let Version::Six = version {
        return key_of_ipv6();
    }
    let one = Key {
        source: IpAddr::V4(Ipv4Addr::new(192, 0, 2, 1)),
        target: IpAddr::V4(Ipv4Addr::new(192, 0, 2, 2)),
        protocol: Some(17),
        id: 7,
    };
    let third = IpAddr::V4(Ipv4Addr::new(192, 0, 2, 3));
    let mapped = IpAddr::V6(Ipv6Addr::new(0, 0, 0, 0, 0, 0xffff, 0xc000, 0x0202));
    match which {
        3 => Key {
            target: third,
            ..one
        },
        4 => Key { id: 8, ..one },
        5 => Key {
            protocol: Some(6),
            ..one
        },
        6 => Key {
            target: one.source,
            ..one
        },
        7 => Key {
            source: one.target,
            ..one
        },
        8 => Key {
            target: mapped,
            ..one
        },
        _ => one,
    }
}

/// A version of IP.
#[derive(Clone, Copy)]
enum Version {
    Four,
    Six,
}

/// A part: the protocol that it names, its place, whether others follow it, and where its bytes begin and end in `BYTES`.
/// In a table, bytes of their own would be dear to prove.
type Named = (u8, u32, bool, (usize, usize));

/// The parts of the content.
const FIRST: Named = (17, 0, true, (0, 16));

const MIDDLE: Named = (17, 16, true, (16, 32));

const LAST: Named = (17, 32, false, (32, 40));

/// The last part, which names another protocol.
const ANOTHER: Named = (58, 32, false, (32, 40));

/// A part that has other bytes than the first one.
const OTHER: Named = (17, 8, true, (40, 48));

/// What becomes of a part.
#[derive(Clone, Copy)]
enum Told {
    /// It waits for others.
    Waits,
    /// With it the content is whole.
    Whole,
    /// It is apart from those of these frames, 0 for none.
    Apart(u64, u64),
    /// It brings no byte.
    Empty,
    /// It ends behind 65,535 bytes.
    TooLong,
}

/// Puts a part, after what is too old for it has gone.
fn put(
    rt: &HostRuntime,
    fragments: &mut Fragments,
    key: Key,
    (protocol, place, more, (from, to)): Named,
    (time, frame): (u64, u64),
) -> Result<Outcome, AllocError> {
    let part = Part {
        protocol,
        place,
        more,
        content: BYTES.get(from..to).unwrap_or(b""),
        may_overlap: matches!(key.source, IpAddr::V4(_)),
    };
    let _old = fragments.let_go_old(key, Some(time));
    fragments.put(rt.alloc(), key, &part, Some(time), frame)
}

/// Whether these are the frames, 0 for none.
fn are_frames(frames: &[u64], first: u64, second: u64) -> bool {
    match frames {
        [] => first == 0 && second == 0,
        [one] => *one == first && second == 0,
        [one, other] => *one == first && *other == second,
        _ => false,
    }
}

/// Whether that has become of a part.
fn is_told(outcome: &Outcome, told: Told) -> bool {
    match (outcome, told) {
        (Outcome::Waits, Told::Waits) => true,
        (Outcome::Whole { content, .. }, Told::Whole) => {
            content.protocol == 17 && content.bytes.as_slice() == CONTENT.as_slice()
        }
        (Outcome::Apart(found), Told::Apart(first, second)) => {
            are_frames(found.as_slice(), first, second)
        }
        (Outcome::Empty, Told::Empty) => true,
        (Outcome::TooLong, Told::TooLong) => true,
        _ => false,
    }
}

/// Whether that becomes of a part.
fn answers(
    rt: &HostRuntime,
    fragments: &mut Fragments,
    key: Key,
    part: Named,
    (time, frame): (u64, u64),
    told: Told,
) -> Result<bool, AllocError> {
    let outcome = put(rt, fragments, key, part, (time, frame))?;
    Ok(is_told(&outcome, told))
}

/// A part by which key it has, with its frame and what becomes of it.
type Row = (u8, Named, u64, Told);

/// Fails unless that becomes of each part, in turn, at a time.
fn all_answer(
    rt: &HostRuntime,
    fragments: &mut Fragments,
    (name, version, time): (&'static str, Version, u64),
    rows: &[Row],
) -> Result<(), Fail> {
    for (which, part, frame, told) in rows {
        let key = key_in(version, *which);
        if !answers(rt, fragments, key, *part, (time, *frame), *told)? {
            return Err(Fail::from((name, *frame)));
        }
    }
    Ok(())
}

/// The parts in each order, the first one of them four times.
const ORDERS: &[[Named; 3]] = &[
    [FIRST, MIDDLE, LAST],
    [FIRST, LAST, MIDDLE],
    [MIDDLE, FIRST, LAST],
    [MIDDLE, LAST, FIRST],
    [LAST, FIRST, MIDDLE],
    [LAST, MIDDLE, FIRST],
];

/// Fails unless the parts give the content in this order, and nothing is left then.
fn order_gives(
    rt: &HostRuntime,
    fragments: &mut Fragments,
    [first, second, third]: &[Named; 3],
) -> Result<(), Fail> {
    let rows = [
        (2, *first, 1, Told::Waits),
        (2, *first, 1, Told::Waits),
        (2, *second, 1, Told::Waits),
        (2, *first, 1, Told::Waits),
        (2, *third, 1, Told::Whole),
    ];
    all_answer(rt, fragments, ("an order", Version::Four, 5), &rows)?;
    is_so(fragments.room() == 0, "something is left")
}

#[test]
fn each_order_gives_the_content(rt: HostRuntime) -> Result<(), Fail> {
    let mut fragments = Fragments::new(rt.alloc());
    for order in ORDERS {
        order_gives(&rt, &mut fragments, order)?;
    }
    Ok(())
}

/// Parts that overlap with the same bytes are put together.
const THE_SAME_BYTES: &[Row] = &[
    (2, LAST, 1, Told::Waits),
    (2, (17, 8, true, (8, 36)), 2, Told::Waits),
    (2, FIRST, 3, Told::Whole),
];

/// Bytes that differ: both parts are named, and those that come later.
const OTHER_BYTES: &[Row] = &[
    (2, FIRST, 4, Told::Waits),
    (2, MIDDLE, 4, Told::Waits),
    (2, OTHER, 6, Told::Apart(4, 4)),
    (2, LAST, 7, Told::Apart(0, 0)),
];

/// What is apart takes nothing from the fragments of another packet.
const APART_FROM_ONE: &[Row] = &[
    (2, FIRST, 4, Told::Waits),
    (3, FIRST, 4, Told::Waits),
    (3, MIDDLE, 4, Told::Waits),
    (2, OTHER, 6, Told::Apart(4, 0)),
    (3, LAST, 8, Told::Whole),
];

/// Two ends that differ, and a part behind the end.
const LATER_END: &[Row] = &[
    (2, LAST, 1, Told::Waits),
    (2, (17, 40, false, (32, 40)), 1, Told::Apart(1, 0)),
];

const EARLIER_END: &[Row] = &[
    (2, LAST, 1, Told::Waits),
    (2, (17, 16, false, (32, 40)), 1, Told::Apart(1, 0)),
];

const NO_END: &[Row] = &[
    (2, LAST, 1, Told::Waits),
    (2, (17, 32, true, (32, 40)), 1, Told::Apart(1, 0)),
];

const BEHIND_THE_END: &[Row] = &[
    (2, LAST, 1, Told::Waits),
    (2, (17, 40, true, (32, 40)), 1, Told::Apart(1, 0)),
];

/// What brings no byte, what ends behind 65,535 bytes, and the furthest that does not.
const OF_NO_PACKET: &[Row] = &[
    (2, (17, 65_528, false, (32, 40)), 1, Told::TooLong),
    (2, (17, 65_528, true, (1, 8)), 1, Told::TooLong),
    (2, (17, 8, true, (0, 0)), 1, Told::Empty),
    (2, (17, 65_528, false, (1, 8)), 1, Told::Waits),
];

/// The protocol is that of the first part, whatever others name and in whatever order they come (RFC 8200, section 4.5).
const FIRST_NAMES: &[Row] = &[
    (2, FIRST, 1, Told::Waits),
    (2, MIDDLE, 2, Told::Waits),
    (2, ANOTHER, 3, Told::Whole),
];

const FIRST_NAMES_AT_LAST: &[Row] = &[
    (2, ANOTHER, 1, Told::Waits),
    (2, MIDDLE, 2, Told::Waits),
    (2, FIRST, 3, Told::Whole),
];

/// Two first parts of two protocols.
const TWO_FIRST: &[Row] = &[
    (2, FIRST, 1, Told::Waits),
    (2, (58, 0, true, (0, 16)), 2, Told::Apart(1, 0)),
];

/// In IPv6 what overlaps is never put together, though the bytes are the same, nor what comes later (RFC 8200, section 4.5).
const BEGINS_IN_ANOTHER: &[Row] = &[
    (2, LAST, 1, Told::Waits),
    (2, (17, 8, true, (8, 32)), 2, Told::Waits),
    (2, FIRST, 3, Told::Apart(1, 2)),
    (2, FIRST, 4, Told::Apart(0, 0)),
];

const IN_ANOTHER: &[Row] = &[
    (2, FIRST, 1, Told::Waits),
    (2, (17, 8, true, (8, 16)), 2, Told::Apart(1, 0)),
    (2, MIDDLE, 3, Told::Apart(0, 0)),
];

/// What comes again is let pass, unless it names another protocol.
const COMES_AGAIN: &[Row] = &[
    (2, LAST, 1, Told::Waits),
    (2, FIRST, 2, Told::Waits),
    (2, LAST, 3, Told::Waits),
    (2, FIRST, 4, Told::Waits),
    (2, MIDDLE, 5, Told::Whole),
];

const NAMES_ANOTHER: &[Row] = &[
    (2, LAST, 1, Told::Waits),
    (2, ANOTHER, 2, Told::Apart(1, 0)),
];

/// The parts before the last, and the last of a packet whose key is another in one thing.
const OF_ANOTHER: &[Row] = &[
    (2, FIRST, 1, Told::Waits),
    (2, MIDDLE, 1, Told::Waits),
    (3, LAST, 1, Told::Waits),
    (4, LAST, 1, Told::Waits),
    (5, LAST, 1, Told::Waits),
    (6, LAST, 1, Told::Waits),
    (7, LAST, 1, Told::Waits),
    (8, LAST, 1, Told::Waits),
    (2, LAST, 1, Told::Whole),
];

/// What comes in turn where nothing waits before.
const CASES: &[(&str, Version, &[Row])] = &[
    (
        "the same bytes may come twice",
        Version::Four,
        THE_SAME_BYTES,
    ),
    (
        "other bytes are never put together",
        Version::Four,
        OTHER_BYTES,
    ),
    (
        "what is apart leaves the others",
        Version::Four,
        APART_FROM_ONE,
    ),
    ("a later end", Version::Four, LATER_END),
    ("an earlier end", Version::Four, EARLIER_END),
    ("an end that is none", Version::Four, NO_END),
    ("a part behind the end", Version::Four, BEHIND_THE_END),
    ("parts of no packet", Version::Four, OF_NO_PACKET),
    (
        "the first part names the protocol",
        Version::Four,
        FIRST_NAMES,
    ),
    (
        "it does so where it comes last",
        Version::Four,
        FIRST_NAMES_AT_LAST,
    ),
    ("two protocols are apart", Version::Four, TWO_FIRST),
    ("keys are told apart", Version::Four, OF_ANOTHER),
    (
        "a part that begins in another",
        Version::Six,
        BEGINS_IN_ANOTHER,
    ),
    ("a part in another", Version::Six, IN_ANOTHER),
    ("what comes again", Version::Six, COMES_AGAIN),
    (
        "what comes again, of another name",
        Version::Six,
        NAMES_ANOTHER,
    ),
    ("other bytes", Version::Six, OTHER_BYTES),
    (
        "the first part names the protocol",
        Version::Six,
        FIRST_NAMES,
    ),
    (
        "it does so where it comes last",
        Version::Six,
        FIRST_NAMES_AT_LAST,
    ),
];

#[test]
fn parts_and_what_becomes_of_them(rt: HostRuntime) -> Result<(), Fail> {
    for (name, version, rows) in CASES {
        let mut fragments = Fragments::new(rt.alloc());
        all_answer(&rt, &mut fragments, (*name, *version, 5), *rows)?;
    }
    Ok(())
}

/// The parts before the last.
const BOTH: &[Row] = &[(2, FIRST, 9, Told::Waits), (2, MIDDLE, 9, Told::Waits)];

/// After 30 s to the nanosecond a part still comes to the others; after more, or before, it begins anew.
#[test]
fn an_old_set_is_not_joined(rt: HostRuntime) -> Result<(), Fail> {
    for (time, told) in [
        (PATIENCE, Told::Whole),
        (2 * PATIENCE, Told::Whole),
        (2 * PATIENCE + 1, Told::Waits),
    ] {
        let mut fragments = Fragments::new(rt.alloc());
        all_answer(
            &rt,
            &mut fragments,
            ("waits", Version::Four, PATIENCE),
            BOTH,
        )?;
        let last = [(2, LAST, 10, told)];
        all_answer(
            &rt,
            &mut fragments,
            ("the last part", Version::Four, time),
            &last,
        )?;
    }
    Ok(())
}

/// The furthest part.
const FURTHEST: Named = (17, 65_528, false, (1, 8));

/// How many of 600 packets of the furthest part wait.
fn waiting_of(rt: &HostRuntime, fragments: &mut Fragments) -> Result<u32, Fail> {
    let mut waiting = 0u32;
    for id in 0..600u32 {
        let key = Key {
            id,
            ..key_in(Version::Four, 2)
        };
        if answers(
            rt,
            fragments,
            key,
            FURTHEST,
            (5, u64::from(id)),
            Told::Waits,
        )? {
            waiting = waiting.saturating_add(1);
        }
    }
    Ok(waiting)
}

/// The packet that has waited for the longest, and its frames. It promises nothing.
pub fn let_go_any(fragments: &mut Fragments) -> Option<(Key, Vec<u64>)> {
    fragments.let_go_any()
}

/// Whether the packet that has waited for the longest has this number, and one frame of the same.
fn goes_next(fragments: &mut Fragments, id: u64) -> bool {
    match let_go_any(fragments) {
        Some((key, frames)) => u64::from(key.id) == id && frames.as_slice() == [id].as_slice(),
        None => false,
    }
}

/// Each set of a part at the furthest end is counted for 131,346 bytes, and 64 MB hold 510 of them.
#[test]
fn no_more_than_64_mb_wait(rt: HostRuntime) -> Result<(), Fail> {
    let mut fragments = Fragments::new(rt.alloc());
    let waiting = waiting_of(&rt, &mut fragments)?;
    for id in 0..510u64 {
        is_so(goes_next(&mut fragments, id), "another packet")?;
    }
    is_so(waiting == 510 && fragments.room() == 0, "others wait")
}
