//! The judge of what is certain between the ends, whatever was not recorded.

use judge_tap::{LossyJudge, LossyRefusal, TapDatagram};
use law_model::rules::EndRule;
use law_tap::Sides;
use std::alloc::{AllocError, Global};
use std::marker::Model;
use std::test::Fail;
use tests_wire::trials::comparing::is_so;
use tftp_judge::Rule;
use tftp_packet::Bytes;
use tftp_packet::hosts::{Host, Peer};

/// The client's port, and its server's.
const CLIENT: u16 = 40_000;

const SERVER: u16 = 41_000;

const PLAIN: &[u8] = b"\x00\x01a\x00octet\x00";

const SIZED: &[u8] = b"\x00\x01a\x00octet\x00blksize\x008\x00windowsize\x004\x00";

/// A datagram from a port to another.
type Passing = (u16, u16, &'static [u8]);

fn peer(port: u16) -> Peer {
    Peer {
        port,
        host: Host::none(),
    }
}

/// A judge. Contracts see nothing of it, so that what the library promises of it is read only where it is called.
struct Judging {
    judge: LossyJudge,
}

impl Drop for Judging {
    // written out, since the prover takes a derived one apart again wherever a value is let go
    fn drop(self) {
        let Judging { judge: _ } = self;
    }
}

impl Model for Judging {
    ghost Value = { Unit {0} };

    ghost view = { λ _. tt };
}

impl Judging {
    fn new() -> Self {
        Judging {
            judge: LossyJudge::new(Sides {
                client: peer(CLIENT),
                asked: peer(69),
                server: peer(SERVER),
                rollover: None,
            }),
        }
    }

    /// Feeds a judge that has not yet accepted 2^40 datagrams. What is refused is asked for at the end.
    fn feed(&mut self, alloc: Global, (from, to, payload): &Passing) -> Result<(), AllocError> {
        let datagram = TapDatagram {
            source: peer(*from),
            destination: peer(*to),
            payload: Bytes::of(Vec::from_slice(alloc, *payload)?),
        };
        if self.judge.fed() < 1 << 40 {
            let _ = self.judge.feed(alloc, &datagram);
        }
        Ok(())
    }

    fn refused(&self) -> Option<LossyRefusal> {
        self.judge.refused()
    }
}

/// Feeds a judge what was recorded, in turn.
fn feed_all(alloc: Global, judging: &mut Judging, rows: &[Passing]) -> Result<(), AllocError> {
    for passing in rows {
        judging.feed(alloc, passing)?;
    }
    Ok(())
}

/// What was recorded between the ends, and the rule that its last datagram is certain to break; none where it may be lawful.
type Case = (&'static [Passing], Option<Rule>);

/// Requests from the client, and what came after them from either.
const ASKED: Passing = (CLIENT, 69, PLAIN);

const ASKED_SIZES: Passing = (CLIENT, 69, SIZED);

const ACK_0: Passing = (CLIENT, SERVER, b"\x00\x04\x00\x00");

const ACK_1: Passing = (CLIENT, SERVER, b"\x00\x04\x00\x01");

const ACK_2: Passing = (CLIENT, SERVER, b"\x00\x04\x00\x02");

const HI: Passing = (SERVER, CLIENT, b"\x00\x03\x00\x01hi");

const HO: Passing = (SERVER, CLIENT, b"\x00\x03\x00\x01ho");

const SECOND: Passing = (SERVER, CLIENT, b"\x00\x03\x00\x0212345678");

const THIRD: Passing = (SERVER, CLIENT, b"\x00\x03\x00\x03123");

const FOURTH: Passing = (SERVER, CLIENT, b"\x00\x03\x00\x041");

const OACK: Passing = (SERVER, CLIENT, b"\x00\x06blksize\x008\x00");

const SAME_OACK: Passing = (SERVER, CLIENT, b"\x00\x06BLKSIZE\x0008\x00");

const OTHER_OACK: Passing = (SERVER, CLIENT, b"\x00\x06windowsize\x004\x00");

const ERROR: Passing = (SERVER, CLIENT, b"\x00\x05\x00\x01no\x00");

const OTHER_ERROR: Passing = (SERVER, CLIENT, b"\x00\x05\x00\x01\x00");

/// ACKs may be of blocks that were missed; a changed block is certain; sizes bind after their OACK; strays and ERRORs pass.
const CASES: &[Case] = &[
    (&[ASKED, ACK_1], None),
    (&[ASKED, HI, ACK_1], None),
    (&[ASKED, HI, ACK_2], Some(Rule::Block(EndRule::AckAhead))),
    (&[ASKED, ACK_0], Some(Rule::Block(EndRule::AckZero))),
    (&[ASKED_SIZES, ACK_0], None),
    (&[ASKED, HI, HI], None),
    (&[ASKED, HI, HO], Some(Rule::Block(EndRule::BlockChanged))),
    (&[ASKED_SIZES, SECOND, THIRD], None),
    (
        &[ASKED_SIZES, THIRD, SECOND, FOURTH],
        Some(Rule::Block(EndRule::BlockLength)),
    ),
    (&[ASKED_SIZES, OACK, SAME_OACK], None),
    (&[ASKED_SIZES, OACK, OTHER_OACK], Some(Rule::OackChanged)),
    (
        &[
            ASKED,
            (42_000, CLIENT, b"x"),
            (CLIENT, 42_000, b"\x00\x05\x00\x05\x00"),
        ],
        None,
    ),
    (
        &[
            ASKED,
            ERROR,
            (CLIENT, SERVER, b"\x00\x05\x00\x00\x00"),
            ERROR,
        ],
        None,
    ),
    (&[ASKED, ERROR, OTHER_ERROR], Some(Rule::AfterError)),
    (
        &[ASKED, (SERVER, CLIENT, b"\x00\x04\x00\x01")],
        Some(Rule::WrongKind),
    ),
];

/// Fails unless that is refused of it, and nothing else.
fn holds(alloc: Global, (rows, rule): &Case) -> Result<(), Fail> {
    let mut judging = Judging::new();
    feed_all(alloc, &mut judging, *rows)?;
    let wanted = match rule {
        Some(rule) => Some(LossyRefusal::Certain(rows.len() as u64, *rule)),
        None => None,
    };
    is_so(judging.refused() == wanted, "another refusal, or none")
}

#[test]
fn what_is_certain_is_refused(rt: HostRuntime) -> Result<(), Fail> {
    for case in CASES {
        holds(rt.alloc(), case)?;
    }
    Ok(())
}
