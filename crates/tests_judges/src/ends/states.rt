//! The states of the two ends, by what passes there in turn.

use law_model::rules::{EndRule, Reply, Terms};
use std::alloc::AllocError;
use std::test::Fail;
use tests_wire::trials::comparing::{is_same, is_so};
use tftp_ends::blocks::{Delivered, RingDelivered};
use tftp_ends::{NamedEnd, Rejection};
use tftp_packet::hosts::Dir;
use tftp_packet::{End, Packet, Side};

/// The bytes of blocks.
const BYTES: &[u8; 50] = b"111111112222222233333333444444440000000011111112hi";

/// Where a block's bytes begin and end there. In a table, bytes of their own would be dear to prove.
type Part = (usize, usize);

const ONES: Part = (0, 8);

const TWOS: Part = (8, 16);

const THREES: Part = (16, 24);

const FOURS: Part = (24, 32);

const ZEROS: Part = (32, 40);

const CHANGED: Part = (40, 48);

const HI: Part = (48, 50);

/// What passes.
enum Passes {
    /// A block, by its number and its bytes.
    Data(u32, Part),
    /// An ACK.
    Ack(u32),
    /// The other end's ERROR.
    Stop,
}

/// What passes, what is answered to it, and whether the end is done then.
type Step = (Dir, Passes, Result<(), Rejection>, bool);

/// The packet of what passes.
fn packet_of(passes: &Passes) -> Packet<'static> {
    match passes {
        Passes::Data(block, (from, to)) => Packet::Data {
            block: *block,
            bytes: BYTES.get(*from..*to).unwrap_or(b""),
        },
        Passes::Ack(block) => Packet::Ack { block: *block },
        Passes::Stop => Packet::Error {
            code: 0,
            message: b"stop",
        },
    }
}

/// A server sends two blocks in a window of two, once its OACK is acknowledged.
const READ_IN_WINDOWS: &[Step] = &[
    (
        Dir::Out,
        Passes::Data(1, ONES),
        Err(Rejection::Broken(EndRule::NotStarted)),
        false,
    ),
    (Dir::In, Passes::Ack(0), Ok(()), false),
    (Dir::In, Passes::Ack(0), Ok(()), false),
    (
        Dir::Out,
        Passes::Data(2, TWOS),
        Err(Rejection::Broken(EndRule::BlockSkipped)),
        false,
    ),
    (
        Dir::Out,
        Passes::Data(3, THREES),
        Err(Rejection::Broken(EndRule::WindowOverrun)),
        false,
    ),
    (Dir::Out, Passes::Data(1, ONES), Ok(()), false),
    (Dir::Out, Passes::Data(2, TWOS), Ok(()), false),
    (Dir::Out, Passes::Data(1, ONES), Ok(()), false),
    (
        Dir::Out,
        Passes::Data(1, CHANGED),
        Err(Rejection::Broken(EndRule::BlockChanged)),
        false,
    ),
    (
        Dir::In,
        Passes::Ack(3),
        Err(Rejection::Broken(EndRule::AckAhead)),
        false,
    ),
    (Dir::In, Passes::Ack(1), Ok(()), false),
    (Dir::In, Passes::Ack(0), Ok(()), false),
    (Dir::Out, Passes::Data(3, (16, 18)), Ok(()), false),
    (Dir::In, Passes::Ack(3), Ok(()), true),
];

/// A sender hears of no block that it sent after the ERROR.
const STOPPED_SENDER: &[Step] = &[
    (Dir::In, Passes::Ack(0), Ok(()), false),
    (Dir::Out, Passes::Data(1, ONES), Ok(()), false),
    (Dir::In, Passes::Ack(1), Ok(()), false),
    (Dir::In, Passes::Stop, Ok(()), false),
    (Dir::Out, Passes::Data(2, (8, 10)), Ok(()), false),
    (
        Dir::In,
        Passes::Ack(2),
        Err(Rejection::Broken(EndRule::AckAhead)),
        false,
    ),
    (Dir::In, Passes::Stop, Ok(()), false),
    (
        Dir::In,
        Passes::Ack(2),
        Err(Rejection::Broken(EndRule::AckAhead)),
        false,
    ),
    (
        Dir::Out,
        Passes::Data(1, ONES),
        Err(Rejection::Broken(EndRule::GoneBack)),
        false,
    ),
];

/// The largest window goes past the last number that a block can have.
const LARGEST_SENDER: &[Step] = &[
    (Dir::Out, Passes::Data(1, ONES), Ok(()), false),
    (Dir::In, Passes::Ack(1), Ok(()), false),
    (
        Dir::Out,
        Passes::Data(65535, (0, 7)),
        Err(Rejection::Broken(EndRule::BlockSkipped)),
        false,
    ),
    (
        Dir::Out,
        Passes::Data(65535, ONES),
        Err(Rejection::Broken(EndRule::BeyondBlock65535)),
        false,
    ),
    (
        Dir::Out,
        Passes::Data(65536, (0, 7)),
        Err(Rejection::Broken(EndRule::BeyondBlock65535)),
        false,
    ),
    (
        Dir::Out,
        Passes::Data(u32::MAX, (0, 7)),
        Err(Rejection::Broken(EndRule::BeyondBlock65535)),
        false,
    ),
    (
        Dir::In,
        Passes::Ack(65537),
        Err(Rejection::Broken(EndRule::AckAhead)),
        false,
    ),
];

/// A server takes a block of a write before the one below it.
const WRITTEN_OUT_OF_ORDER: &[Step] = &[
    (
        Dir::Out,
        Passes::Ack(0),
        Err(Rejection::Broken(EndRule::AckZero)),
        false,
    ),
    (
        Dir::In,
        Passes::Data(0, ZEROS),
        Err(Rejection::Broken(EndRule::BlockZero)),
        false,
    ),
    (Dir::In, Passes::Data(2, TWOS), Ok(()), false),
    (Dir::Out, Passes::Ack(0), Ok(()), false),
    (
        Dir::Out,
        Passes::Ack(2),
        Err(Rejection::Broken(EndRule::AckAhead)),
        false,
    ),
    (
        Dir::In,
        Passes::Data(2, (8, 11)),
        Err(Rejection::Broken(EndRule::BlockLength)),
        false,
    ),
    (Dir::In, Passes::Data(3, (16, 19)), Ok(()), false),
    (Dir::In, Passes::Data(1, ONES), Ok(()), false),
    (Dir::Out, Passes::Ack(2), Ok(()), false),
    (Dir::Out, Passes::Ack(3), Ok(()), true),
    (
        Dir::In,
        Passes::Data(4, FOURS),
        Err(Rejection::Broken(EndRule::BlockLength)),
        true,
    ),
];

/// What a receiver acknowledges after an ERROR has come in, the other end has not used; but it may be all there was.
const STOPPED_RECEIVER: &[Step] = &[
    (
        Dir::In,
        Passes::Data(1, ONES),
        Err(Rejection::Broken(EndRule::NotStarted)),
        false,
    ),
    (Dir::Out, Passes::Ack(0), Ok(()), false),
    (Dir::In, Passes::Data(1, ONES), Ok(()), false),
    (Dir::In, Passes::Stop, Ok(()), false),
    (Dir::Out, Passes::Ack(1), Ok(()), false),
    (
        Dir::In,
        Passes::Data(2, TWOS),
        Err(Rejection::Broken(EndRule::WindowOverrun)),
        false,
    ),
    (Dir::In, Passes::Data(1, ONES), Ok(()), false),
    (Dir::In, Passes::Stop, Ok(()), false),
    (
        Dir::In,
        Passes::Data(2, TWOS),
        Err(Rejection::Broken(EndRule::WindowOverrun)),
        false,
    ),
];

/// ACK 0 after the ERROR.
const STOPPED_AT_ONCE: &[Step] = &[
    (Dir::In, Passes::Stop, Ok(()), false),
    (Dir::Out, Passes::Ack(0), Ok(()), false),
    (
        Dir::In,
        Passes::Data(1, (0, 1)),
        Err(Rejection::Broken(EndRule::NotStarted)),
        false,
    ),
];

/// A receiver that has all blocks is done by an ACK after the ERROR too.
const STOPPED_AT_THE_END: &[Step] = &[
    (
        Dir::Out,
        Passes::Ack(0),
        Err(Rejection::Broken(EndRule::AckZero)),
        false,
    ),
    (Dir::In, Passes::Data(1, HI), Ok(()), false),
    (Dir::In, Passes::Stop, Ok(()), false),
    (Dir::Out, Passes::Ack(1), Ok(()), true),
];

/// An agreed size tells which block is the last, and how long it is.
const KNOWN_SIZE: &[Step] = &[
    (
        Dir::In,
        Passes::Data(1, (0, 7)),
        Err(Rejection::Broken(EndRule::BlockLength)),
        false,
    ),
    (
        Dir::In,
        Passes::Data(2, TWOS),
        Err(Rejection::Broken(EndRule::BlockLength)),
        false,
    ),
    (
        Dir::In,
        Passes::Data(2, (8, 9)),
        Err(Rejection::Broken(EndRule::BlockLength)),
        false,
    ),
    (
        Dir::In,
        Passes::Data(3, THREES),
        Err(Rejection::Broken(EndRule::BlockLength)),
        false,
    ),
    (Dir::In, Passes::Data(2, (8, 10)), Ok(()), false),
    (Dir::In, Passes::Data(1, ONES), Ok(()), false),
    (Dir::Out, Passes::Ack(2), Ok(()), true),
];

const EMPTY: &[Step] = &[
    (Dir::In, Passes::Data(1, (0, 0)), Ok(()), false),
    (
        Dir::In,
        Passes::Data(1, (0, 1)),
        Err(Rejection::Broken(EndRule::BlockLength)),
        false,
    ),
];

const ONE_WHOLE_BLOCK: &[Step] = &[(Dir::In, Passes::Data(2, (0, 0)), Ok(()), false)];

const THE_LARGEST_SIZE: &[Step] = &[
    (Dir::In, Passes::Data(1, ONES), Ok(()), false),
    (
        Dir::In,
        Passes::Data(1, (0, 1)),
        Err(Rejection::Broken(EndRule::BlockLength)),
        false,
    ),
];

const LARGEST_RECEIVER: &[Step] = &[
    (Dir::In, Passes::Data(65535, (0, 7)), Ok(()), false),
    (Dir::In, Passes::Data(1, ONES), Ok(()), false),
    (Dir::Out, Passes::Ack(1), Ok(()), false),
    (Dir::In, Passes::Data(65534, ONES), Ok(()), false),
    (
        Dir::In,
        Passes::Data(65534, (0, 7)),
        Err(Rejection::Broken(EndRule::BlockLength)),
        false,
    ),
];

/// An end by its name: its terms, what passes there, the highest block at the end, and the wire of all up to the first
/// that is not there.
type Case = (&'static str, Terms, &'static [Step], u32, &'static [u8]);

/// Such ends.
const CASES: &[Case] = &[
    (
        "a read in windows",
        Terms {
            named: End::Server,
            side: Side::Get,
            reply: Reply::Oacked,
            blksize: 8,
            windowsize: 2,
            greatest: 65_535,
            size: None,
        },
        READ_IN_WINDOWS,
        3,
        b"111111112222222233",
    ),
    (
        "a sender that is stopped",
        Terms {
            named: End::Client,
            side: Side::Put,
            reply: Reply::Plain,
            blksize: 8,
            windowsize: 1,
            greatest: 65_535,
            size: None,
        },
        STOPPED_SENDER,
        2,
        b"1111111122",
    ),
    (
        "a sender with the largest window",
        Terms {
            named: End::Client,
            side: Side::Put,
            reply: Reply::Oacked,
            blksize: 8,
            windowsize: 65535,
            greatest: 65_535,
            size: None,
        },
        LARGEST_SENDER,
        1,
        b"11111111",
    ),
    (
        "a write out of order",
        Terms {
            named: End::Server,
            side: Side::Put,
            reply: Reply::Oacked,
            blksize: 8,
            windowsize: 4,
            greatest: 65_535,
            size: None,
        },
        WRITTEN_OUT_OF_ORDER,
        3,
        b"1111111122222222333",
    ),
    (
        "a receiver that is stopped",
        Terms {
            named: End::Client,
            side: Side::Get,
            reply: Reply::Oacked,
            blksize: 8,
            windowsize: 1,
            greatest: 65_535,
            size: None,
        },
        STOPPED_RECEIVER,
        1,
        b"11111111",
    ),
    (
        "a receiver that is stopped at once",
        Terms {
            named: End::Client,
            side: Side::Get,
            reply: Reply::Oacked,
            blksize: 8,
            windowsize: 1,
            greatest: 65_535,
            size: None,
        },
        STOPPED_AT_ONCE,
        0,
        b"",
    ),
    (
        "a receiver that is stopped at its end",
        Terms {
            named: End::Client,
            side: Side::Get,
            reply: Reply::Plain,
            blksize: 512,
            windowsize: 1,
            greatest: 65_535,
            size: None,
        },
        STOPPED_AT_THE_END,
        1,
        b"hi",
    ),
    (
        "a known size",
        Terms {
            named: End::Server,
            side: Side::Put,
            reply: Reply::Oacked,
            blksize: 8,
            windowsize: 4,
            greatest: 65_535,
            size: Some(10),
        },
        KNOWN_SIZE,
        2,
        b"1111111122",
    ),
    (
        "no bytes",
        Terms {
            named: End::Client,
            side: Side::Get,
            reply: Reply::Plain,
            blksize: 8,
            windowsize: 1,
            greatest: 65_535,
            size: Some(0),
        },
        EMPTY,
        1,
        b"",
    ),
    (
        "one whole block",
        Terms {
            named: End::Client,
            side: Side::Get,
            reply: Reply::Plain,
            blksize: 8,
            windowsize: 2,
            greatest: 65_535,
            size: Some(8),
        },
        ONE_WHOLE_BLOCK,
        2,
        b"",
    ),
    (
        "the largest size",
        Terms {
            named: End::Client,
            side: Side::Get,
            reply: Reply::Plain,
            blksize: 8,
            windowsize: 1,
            greatest: 65_535,
            size: Some(u64::MAX),
        },
        THE_LARGEST_SIZE,
        1,
        b"11111111",
    ),
    (
        "a receiver with the largest window",
        Terms {
            named: End::Server,
            side: Side::Put,
            reply: Reply::Oacked,
            blksize: 8,
            windowsize: 65535,
            greatest: 65_535,
            size: None,
        },
        LARGEST_RECEIVER,
        65535,
        b"11111111",
    ),
];

/// An end on a ring. Contracts see nothing of it, so that what the library promises of it is read only where it is called.
type Ends = NamedEnd<RingDelivered>;

/// A new end, unless its block size or its window is too small.
fn begun(rt: &HostRuntime, terms: &Terms) -> Option<Ends> {
    if terms.blksize < 8 || terms.windowsize < 1 {
        return None;
    }
    let store = RingDelivered::new(rt.alloc(), terms.blksize, terms.windowsize);
    Some(NamedEnd::new(*terms, store, false))
}

/// What is answered to a packet. Where a growth is refused it is handed over once more.
fn answer_of(
    rt: &HostRuntime,
    end: &mut Ends,
    dir: Dir,
    packet: &Packet<'_>,
) -> Result<(), Rejection> {
    match end.pass(rt.alloc(), dir, packet) {
        Err(Rejection::Memory) => end.pass(rt.alloc(), dir, packet),
        answer => answer,
    }
}

/// Whether the end is done, and the highest block that has passed.
fn stands(end: &Ends) -> (bool, u32) {
    (end.done(), end.highest())
}

/// Whether each step is answered so.
fn all_hold(rt: &HostRuntime, end: &mut Ends, steps: &[Step]) -> bool {
    for (dir, passes, wanted, done) in steps {
        let answer = answer_of(rt, end, *dir, &packet_of(passes));
        if answer != *wanted || stands(end).0 != *done {
            return false;
        }
    }
    true
}

/// The wire of an end. It is let go in this place alone, since that is dear to prove.
fn wire_of(rt: &HostRuntime, end: Ends) -> Result<Vec<u8>, AllocError> {
    end.into_store().into_wire(rt.alloc())
}

/// Fails unless each step is answered so, and the highest block and the wire are these then.
fn holds(rt: &HostRuntime, (name, terms, steps, highest, wire): &Case) -> Result<(), Fail> {
    let Some(mut end) = begun(rt, terms) else {
        return Err(Fail::new(*name));
    };
    let held = all_hold(rt, &mut end, *steps) && stands(&end).1 == *highest;
    let found = wire_of(rt, end)?;
    is_so(held, *name)?;
    is_same(found.as_slice(), *wire)
}

#[test]
fn states_of_both_ends(rt: HostRuntime) -> Result<(), Fail> {
    for case in CASES {
        holds(&rt, case)?;
    }
    Ok(())
}
