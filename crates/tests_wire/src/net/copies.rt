//! Which packets are told to be copies.

use crate::trials::comparing::is_so;
use net_udp::copies::{Interface, Recent};
use std::alloc::AllocError;
use std::test::Fail;

/// A packet that is taken: its interface, its time, its bytes, and whether it is a copy.
type Taken = (Interface, Option<u64>, &'static [u8], bool);

/// Two interfaces of a host, and two of its next section, whose link headers number them.
const ONE: Interface = Interface {
    section: 1,
    number: 0,
    index: 0,
};

const OTHER: Interface = Interface {
    section: 1,
    number: 1,
    index: 0,
};

const NEXT: Interface = Interface {
    section: 2,
    number: 0,
    index: 0,
};

const NUMBERED: Interface = Interface {
    section: 2,
    number: 0,
    index: 1,
};

/// What is a copy, and what looks like one and is none.
const TAKEN: &[Taken] = &[
    (ONE, Some(5_000_000), b"first", false),
    (ONE, Some(5_000_800), b"first", false),
    (OTHER, Some(5_000_900), b"first", true),
    (OTHER, Some(5_001_000), b"second", false),
    (ONE, Some(6_000_000), b"first", true),
    (OTHER, Some(7_000_001), b"first", false),
    (ONE, Some(4_002_000), b"second", true),
    (ONE, None, b"first", false),
    (ONE, Some(4_001_000), b"first!", false),
    (NEXT, Some(4_001_000), b"first!", true),
    (NUMBERED, Some(4_001_000), b"first!", true),
    (ONE, Some(4_001_000), b"", false),
];

/// Takes a packet. Where a growth is refused nothing may have changed, and it is taken again.
fn take(
    rt: &HostRuntime,
    recent: &mut Recent,
    interface: Interface,
    time: Option<u64>,
    bytes: &[u8],
) -> Result<bool, AllocError> {
    match recent.take(rt.alloc(), interface, time, bytes) {
        Ok(copy) => Ok(copy),
        Err(AllocError) => recent.take(rt.alloc(), interface, time, bytes),
    }
}

/// Copies and packets that are none, in their order.
#[test]
fn copies_are_told(rt: HostRuntime) -> Result<(), Fail> {
    let mut recent = Recent::new(rt.alloc())?;
    for (interface, time, bytes, copy) in TAKEN {
        let found = take(&rt, &mut recent, *interface, *time, *bytes)?;
        is_so(found == *copy, "a copy, or none")?;
    }
    Ok(())
}

/// At which interface packets of one byte come at once, the first and the last one, and whether they are copies: of sixteen
/// packets between a packet and its copy one is too many.
const AT_ONCE: &[(Interface, u8, u8, bool)] = &[
    (ONE, 0, 0, false),
    (ONE, 1, 15, false),
    (OTHER, 0, 0, true),
    (ONE, 16, 31, false),
    (ONE, 0, 0, false),
];

/// Fails unless each of the packets is a copy, or none is.
fn all_are(
    rt: &HostRuntime,
    recent: &mut Recent,
    (interface, first, last, copy): &(Interface, u8, u8, bool),
) -> Result<(), Fail> {
    for number in *first..=*last {
        let found = take(rt, recent, *interface, Some(0), &[number])?;
        is_so(found == *copy, "a copy, or none")?;
    }
    Ok(())
}

#[test]
fn the_seventeenth_before_is_forgotten(rt: HostRuntime) -> Result<(), Fail> {
    let mut recent = Recent::new(rt.alloc())?;
    for packets in AT_ONCE {
        all_are(&rt, &mut recent, packets)?;
    }
    Ok(())
}
