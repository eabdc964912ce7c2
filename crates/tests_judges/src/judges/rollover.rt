//! The judges where block numbers begin again after 65535: at the client, and between the ends.

use judge_tap::{TapDatagram, TapJudge, TapRefusal};
use law_model::rules::EndRule;
use law_tap::Sides;
use std::alloc::{AllocError, Global};
use std::marker::Model;
use std::test::Fail;
use tests_wire::trials::comparing::is_so;
use tftp_capture::{Datagram, Header};
use tftp_ends::blocks::RingDelivered;
use tftp_judge::{Judge, Refusal, Rule};
use tftp_packet::hosts::{Dir, Host, Peer};
use tftp_packet::rounds::Rollover;
use tftp_packet::{Bytes, End};

/// How many blocks the file has; the last one is empty.
const BLOCKS: u32 = 65_541;

/// Its bytes.
const FILE_LENGTH: u64 = 524_320;

const REQUEST: &[u8] = b"\x00\x01a\x00octet\x00blksize\x008\x00";

const OACK: &[u8] = b"\x00\x06blksize\x008\x00";

/// The index of the DATA of block 65536: behind a request, an OACK and its ACK, and 65,535 blocks with theirs.
const PAST: u64 = 131_074;

/// The client's port, and its server's.
const CLIENT: u16 = 40_000;

const SERVER: u16 = 41_000;

/// Where a judge stands.
#[derive(Clone, Copy, PartialEq, Eq)]
enum Place {
    Client,
    Between,
}

/// A judge at one of these.
#[derive(Drop)]
enum AnyJudge {
    AtClient(Judge<RingDelivered>),
    Between(TapJudge<RingDelivered>),
}

/// A read in blocks of 8 bytes. Contracts see nothing of it, so that what the libraries promise of their judges is read only
/// here, where they are called.
struct Reading {
    judge: AnyJudge,
    rollover: Option<Rollover>,
}

impl Drop for Reading {
    // written out, since the prover takes a derived one apart again wherever a value is let go
    fn drop(self) {
        let Reading {
            judge: _,
            rollover: _,
        } = self;
    }
}

impl Model for Reading {
    ghost Value = { Unit {0} };

    ghost view = { λ _. tt };
}

/// The server's port of a payload: a request goes to port 69.
fn port_of(payload: &[u8]) -> u16 {
    if payload.starts_with(b"\x00\x01") {
        69
    } else {
        SERVER
    }
}

/// A datagram of the client's port with this payload.
fn datagram_of(alloc: Global, dir: Dir, payload: &[u8]) -> Result<Datagram, AllocError> {
    Ok(Datagram {
        dir,
        local_port: CLIENT,
        remote_host: Host::none(),
        remote_port: port_of(payload),
        payload: Bytes::of(Vec::from_slice(alloc, payload)?),
    })
}

fn peer(port: u16) -> Peer {
    Peer {
        port,
        host: Host::none(),
    }
}

/// The same as it passes between the ends.
fn passing_of(alloc: Global, dir: Dir, payload: &[u8]) -> Result<TapDatagram, AllocError> {
    let server = peer(port_of(payload));
    let (source, destination) = match dir {
        Dir::Out => (peer(CLIENT), server),
        Dir::In => (server, peer(CLIENT)),
    };
    Ok(TapDatagram {
        source,
        destination,
        payload: Bytes::of(Vec::from_slice(alloc, payload)?),
    })
}

/// Feeds a judge that has not yet accepted 2^40 datagrams, one of at most 65,527 bytes. What is refused is asked for at the
/// end.
fn take(
    judge: &mut Judge<RingDelivered>,
    alloc: Global,
    rollover: Option<Rollover>,
    datagram: &Datagram,
) {
    if judge.fed() >= 1 << 40 || datagram.payload.as_slice().len() > 65_527 {
        return;
    }
    let _ = match rollover {
        Some(rollover) => judge.feed_numbered(alloc, rollover, datagram),
        None => judge.feed(alloc, datagram),
    };
}

/// The same between the ends.
fn take_between(
    judge: &mut TapJudge<RingDelivered>,
    alloc: Global,
    rollover: Option<Rollover>,
    datagram: TapDatagram,
) {
    if judge.fed() >= 1 << 40 || datagram.payload.as_slice().len() > 65_527 {
        return;
    }
    let _ = match rollover {
        Some(rollover) => judge.feed_numbered(alloc, rollover, datagram),
        None => judge.feed(alloc, datagram),
    };
}

impl Reading {
    fn begin(alloc: Global, place: Place, rollover: Option<Rollover>) -> Self {
        let header = Header {
            named: End::Client,
            service: 69,
            rollover,
        };
        let sides = Sides {
            client: peer(CLIENT),
            asked: peer(69),
            server: peer(SERVER),
            rollover,
        };
        Reading {
            judge: match place {
                Place::Client => AnyJudge::AtClient(Judge::new(alloc, &header)),
                Place::Between => AnyJudge::Between(TapJudge::new(alloc, sides)),
            },
            rollover,
        }
    }

    fn feed(&mut self, alloc: Global, dir: Dir, payload: &[u8]) -> Result<(), AllocError> {
        match &mut self.judge {
            AnyJudge::AtClient(judge) => {
                let datagram = datagram_of(alloc, dir, payload)?;
                take(judge, alloc, self.rollover, &datagram);
            }
            AnyJudge::Between(judge) => {
                let datagram = passing_of(alloc, dir, payload)?;
                take_between(judge, alloc, self.rollover, datagram);
            }
        }
        Ok(())
    }

    /// Feeds a block of 8 bytes, or an empty one, with this number, and its ACK.
    fn pass(&mut self, alloc: Global, number: u16, is_empty: bool) -> Result<(), AllocError> {
        let [high, low] = number.to_be_bytes();
        if is_empty {
            self.feed(alloc, Dir::In, &[0, 3, high, low])?;
        } else {
            self.feed(alloc, Dir::In, &[0, 3, high, low, 1, 2, 3, 4, 5, 6, 7, 8])?;
        }
        self.feed(alloc, Dir::Out, &[0, 4, high, low])
    }

    /// The blocks, of which block 65536 has the number `first`.
    fn pass_all(&mut self, alloc: Global, first: u16) -> Result<(), AllocError> {
        let mut number = 0;
        for block in 1..=BLOCKS {
            number = if number == u16::MAX {
                first
            } else {
                number + 1
            };
            self.pass(alloc, number, block == BLOCKS)?;
        }
        Ok(())
    }

    /// The request, its answer and the blocks; each is acknowledged.
    fn read(&mut self, alloc: Global, first: u16) -> Result<(), AllocError> {
        self.feed(alloc, Dir::Out, REQUEST)?;
        self.feed(alloc, Dir::In, OACK)?;
        self.feed(alloc, Dir::Out, b"\x00\x04\x00\x00")?;
        self.pass_all(alloc, first)
    }

    /// How long the file is, or which datagram is refused by which rule; nothing of what ends otherwise.
    fn finish(self, alloc: Global) -> Result<u64, Option<(u64, Rule)>> {
        let Reading { judge, rollover: _ } = self;
        match judge {
            AnyJudge::AtClient(judge) => match judge.finish(alloc) {
                Ok(meaning) => Ok(meaning.file_len()),
                Err(Refusal::Unlawful(index, rule)) => Err(Some((index, rule))),
                Err(_) => Err(None),
            },
            AnyJudge::Between(judge) => match judge.finish(alloc) {
                Ok(meaning) => Ok(meaning.file_len()),
                Err(TapRefusal::Unlawful(index, rule, _)) => Err(Some((index, rule))),
                Err(_) => Err(None),
            },
        }
    }
}

/// A rollover, the number of block 65536, and what a judge says of such a read. A transfer of more blocks than have numbers
/// of their own is accepted by the rollover that it has; by the other it is refused at block 65536, and without one at block
/// 65535, since that is not the last.
const CASES: &[(Option<Rollover>, u16, Result<u64, Option<(u64, Rule)>>)] = &[
    (Some(Rollover::Zero), 0, Ok(FILE_LENGTH)),
    (Some(Rollover::One), 1, Ok(FILE_LENGTH)),
    (
        Some(Rollover::One),
        0,
        Err(Some((PAST, Rule::Block(EndRule::BlockZero)))),
    ),
    (
        Some(Rollover::Zero),
        1,
        Err(Some((PAST, Rule::Block(EndRule::WindowOverrun)))),
    ),
    (
        None,
        0,
        Err(Some((PAST - 2, Rule::Block(EndRule::BeyondBlock65535)))),
    ),
];

fn numbers_are_read(alloc: Global, place: Place) -> Result<(), Fail> {
    for (rollover, first, wanted) in CASES {
        let mut reading = Reading::begin(alloc, place, *rollover);
        reading.read(alloc, *first)?;
        let found = reading.finish(alloc);
        is_so(found == *wanted, "another verdict")?;
    }
    Ok(())
}

#[test]
fn numbers_are_read_by_the_rollover(rt: HostRuntime) -> Result<(), Fail> {
    numbers_are_read(rt.alloc(), Place::Client)
}

#[test]
fn numbers_are_read_by_the_rollover_between_the_ends(rt: HostRuntime) -> Result<(), Fail> {
    numbers_are_read(rt.alloc(), Place::Between)
}
