//! The judge itself, datagram by datagram.

use law_model::rules::EndRule;
use std::alloc::{AllocError, Global};
use std::marker::Model;
use std::test::Fail;
use tests_wire::trials::comparing::is_so;
use tftp_capture::{Datagram, Header};
use tftp_ends::blocks::RingDelivered;
use tftp_judge::{FileBytes, Judge, Meaning, MeaningParts, Refusal, Rule};
use tftp_packet::hosts::{Dir, Host};
use tftp_packet::{Bytes, End};

/// A judge. Contracts see nothing of it, so that what the library promises of its judges is read only here, where it is
/// called.
struct Judging {
    judge: Judge<RingDelivered>,
}

impl Drop for Judging {
    // written out, since the prover takes a derived one apart again wherever a value is let go
    fn drop(self) {
        let Judging { judge: _ } = self;
    }
}

impl Model for Judging {
    ghost Value = { Unit {0} };

    ghost view = { λ _. tt };
}

impl Judging {
    /// At the client, whose server is asked at port 69.
    fn new(alloc: Global) -> Self {
        let header = Header {
            named: End::Client,
            service: 69,
            rollover: None,
        };
        Judging {
            judge: Judge::new(alloc, &header),
        }
    }

    /// Feeds a judge that has not yet accepted 2^40 datagrams, one of at most 65,527 bytes.
    fn feed(&mut self, alloc: Global, datagram: &Datagram) -> Result<(), Refusal> {
        let fed = self.judge.fed();
        if fed >= 1 << 40 || datagram.payload.as_slice().len() > 65_527 {
            return Err(Refusal::Memory(fed));
        }
        self.judge.feed(alloc, datagram)
    }

    /// How many datagrams it has counted, and what it answers at the end.
    fn finish(self, alloc: Global) -> (u64, Result<Meaning, Refusal>) {
        let Judging { judge } = self;
        (judge.fed(), judge.finish(alloc))
    }
}

/// Payloads: a read of the file `a`, block 1 with `hi`, block 2 with `22`, and their ACKs (RFC 1350, section 5).
const READ: &[u8] = b"\x00\x01a\x00octet\x00";

const HI: &[u8] = b"\x00\x03\x00\x01hi";

const BLOCK_2: &[u8] = b"\x00\x03\x00\x0222";

const ACK_1: &[u8] = b"\x00\x04\x00\x01";

/// A datagram of the client's port by its way, the port at the other side and its payload, and what is answered to it.
type Row = (Dir, u16, &'static [u8], Result<(), Refusal>);

/// What a judge answers to a datagram.
fn answer(
    alloc: Global,
    judging: &mut Judging,
    (dir, remote_port, payload, _): &Row,
) -> Result<Result<(), Refusal>, AllocError> {
    let datagram = Datagram {
        dir: *dir,
        local_port: 40_000,
        remote_host: Host::none(),
        remote_port: *remote_port,
        payload: Bytes::of(Vec::from_slice(alloc, *payload)?),
    };
    Ok(judging.feed(alloc, &datagram))
}

/// Being out of memory as the tests tell it, and any other answer.
fn other(found: Result<(), Refusal>) -> Fail {
    match found {
        Err(Refusal::Memory(_)) => Fail::new("want of memory"),
        _ => Fail::new("another answer"),
    }
}

/// Fails unless a judge answers so to each datagram, in turn.
fn all_have_answers(alloc: Global, judging: &mut Judging, rows: &[Row]) -> Result<(), Fail> {
    for row in rows {
        let found = answer(alloc, judging, row)?;
        if found != row.3 {
            return Err(other(found));
        }
    }
    Ok(())
}

/// The file of what was accepted, whether it is kept as its wire came, and how many blocks its text has.
fn parts_of(meaning: Meaning) -> (Vec<u8>, bool, u32) {
    let MeaningParts {
        request: _request,
        agreed: _agreed,
        file,
        blocks,
    } = meaning.into_parts();
    match file {
        FileBytes::File(file) => (file, false, blocks),
        FileBytes::Wire(wire) => (wire, true, blocks),
    }
}

/// The refusal of block 2 before block 1.
const OVERRUN: Refusal = Refusal::Unlawful(2, Rule::Block(EndRule::WindowOverrun));

/// A refusal is answered for good.
const REFUSED: &[Row] = &[
    (Dir::Out, 69, READ, Ok(())),
    (Dir::In, 41000, BLOCK_2, Err(OVERRUN)),
    (Dir::In, 41000, HI, Err(OVERRUN)),
];

/// The read of `hi`, with a stray.
const READ_OF_HI: &[Row] = &[
    (Dir::Out, 69, READ, Ok(())),
    (Dir::In, 41000, HI, Ok(())),
    (Dir::In, 42000, HI, Ok(())),
    (Dir::Out, 41000, ACK_1, Ok(())),
];

/// The read of a text in netascii, which has a line's end and a carriage return (RFC 764).
const READ_OF_TEXT: &[Row] = &[
    (Dir::Out, 69, b"\x00\x01t\x00netascii\x00", Ok(())),
    (Dir::In, 41000, b"\x00\x03\x00\x01a\r\nb\r\0", Ok(())),
    (Dir::Out, 41000, ACK_1, Ok(())),
];

/// The read of the same text, as no sender should write it: a bare LF, and a CR at the end.
const READ_OF_BARE_TEXT: &[Row] = &[
    (Dir::Out, 69, b"\x00\x01t\x00netascii\x00", Ok(())),
    (Dir::In, 41000, b"\x00\x03\x00\x01a\nb\r", Ok(())),
    (Dir::Out, 41000, ACK_1, Ok(())),
];

/// Datagrams, how many are counted, and the refusal at the end, or the bytes of what is accepted: whether those are of its
/// wire as it came. Strays count too, and what is refused does not.
type Case = (&'static [Row], u64, Result<(&'static [u8], bool), Refusal>);

/// Such datagrams. Where the wire is the canonical one it is kept as it came.
const CASES: &[Case] = &[
    (REFUSED, 1, Err(OVERRUN)),
    (READ_OF_HI, 4, Ok((b"hi", true))),
    (READ_OF_TEXT, 3, Ok((b"a\r\nb\r\0", true))),
    (READ_OF_BARE_TEXT, 3, Ok((b"a\nb\r", false))),
];

/// Fails unless that is answered at the end.
fn is_end(
    end: Result<Meaning, Refusal>,
    wanted: &Result<(&[u8], bool), Refusal>,
) -> Result<(), Fail> {
    match end {
        Ok(meaning) => {
            let (found, is_wire, blocks) = parts_of(meaning);
            let is_wanted = match wanted {
                Ok((bytes, came)) => found.as_slice() == *bytes && is_wire == *came,
                Err(_) => false,
            };
            is_so(is_wanted && blocks == 1, "it is accepted, or otherwise")
        }
        Err(refusal) => match wanted {
            Err(wanted) if refusal == *wanted => Ok(()),
            _ => Err(other(Err(refusal))),
        },
    }
}

/// Fails unless a judge answers so to each datagram, and then at the end.
fn holds(alloc: Global, (rows, count, wanted): &Case) -> Result<(), Fail> {
    let mut judging = Judging::new(alloc);
    all_have_answers(alloc, &mut judging, *rows)?;
    let (counted, end) = judging.finish(alloc);
    is_so(counted == *count, "another count")?;
    is_end(end, wanted)
}

/// A read is accepted, and a refusal is for good.
#[test]
fn a_read_is_accepted(rt: HostRuntime) -> Result<(), Fail> {
    for case in CASES {
        holds(rt.alloc(), case)?;
    }
    Ok(())
}
