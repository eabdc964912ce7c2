//! Where datagrams must be missing of what was recorded at an end. What is wanted is counted by hand.

use judge_losses::{Clues, Mender, Place, Unmended, missing_of};
use std::alloc::{AllocError, Global};
use std::marker::Model;
use std::test::Fail;
use tests_wire::trials::comparing::is_so;
use tftp_capture::{CaptureFault, Datagram, Header, TextFault};
use tftp_packet::hosts::{Dir, Host};
use tftp_packet::{Bytes, End};

/// The client's port, where it asks, and its server's.
const CLIENT: u16 = 40_000;

const SERVICE: u16 = 69;

const SERVER: u16 = 41_000;

/// What passes. Payloads of their own would be dear to prove in the table of what passed.
#[derive(Clone, Copy)]
enum Sent {
    // A read and a write.
    Read,
    Write,
    // The same with blocks of 8 bytes, two at a time; and what agrees to it.
    ReadByTwo,
    WriteByTwo,
    AgreedByTwo,
    // The same with a block at a time.
    ReadByOne,
    WriteByOne,
    AgreedByOne,
    // A read with four.
    ReadByFour,
    AgreedByFour,
    // Blocks of 8 bytes, by their numbers.
    Block1,
    Block2,
    Block3,
    Block4,
    // Blocks of bytes of their own.
    Own1,
    Own2,
    Own3,
    Own4,
    // Blocks of no byte.
    Last1,
    Last2,
    Last3,
    Last5,
    // ACKs.
    Ack0,
    Ack1,
    Ack2,
    Ack3,
    Ack4,
    Ack5,
    // Block 1 of one byte, and an ERROR.
    Changed1,
    Error,
}

/// The payload of each, in their order.
const PAYLOADS: &[&[u8]] = &[
    b"\x00\x01a\x00octet\x00",
    b"\x00\x02a\x00octet\x00",
    b"\x00\x01a\x00octet\x00blksize\x008\x00windowsize\x002\x00",
    b"\x00\x02a\x00octet\x00blksize\x008\x00windowsize\x002\x00",
    b"\x00\x06blksize\x008\x00windowsize\x002\x00",
    b"\x00\x01a\x00octet\x00blksize\x008\x00",
    b"\x00\x02a\x00octet\x00blksize\x008\x00",
    b"\x00\x06blksize\x008\x00",
    b"\x00\x01a\x00octet\x00blksize\x008\x00windowsize\x004\x00",
    b"\x00\x06blksize\x008\x00windowsize\x004\x00",
    b"\x00\x03\x00\x01\x01\x02\x03\x04\x05\x06\x07\x08",
    b"\x00\x03\x00\x02\x01\x02\x03\x04\x05\x06\x07\x08",
    b"\x00\x03\x00\x03\x01\x02\x03\x04\x05\x06\x07\x08",
    b"\x00\x03\x00\x04\x01\x02\x03\x04\x05\x06\x07\x08",
    b"\x00\x03\x00\x01\x01\x02\x03\x04\x05\x06\x07\x01",
    b"\x00\x03\x00\x02\x02\x02\x03\x04\x05\x06\x07\x02",
    b"\x00\x03\x00\x03\x03\x02\x03\x04\x05\x06\x07\x03",
    b"\x00\x03\x00\x04\x04\x02\x03\x04\x05\x06\x07\x04",
    b"\x00\x03\x00\x01",
    b"\x00\x03\x00\x02",
    b"\x00\x03\x00\x03",
    b"\x00\x03\x00\x05",
    b"\x00\x04\x00\x00",
    b"\x00\x04\x00\x01",
    b"\x00\x04\x00\x02",
    b"\x00\x04\x00\x03",
    b"\x00\x04\x00\x04",
    b"\x00\x04\x00\x05",
    b"\x00\x03\x00\x01x",
    b"\x00\x05\x00\x00\x00",
];

/// The payload of what passes.
fn payload_of(sent: Sent) -> &'static [u8] {
    match PAYLOADS.get(sent as usize) {
        Some(payload) => *payload,
        None => b"",
    }
}

/// What came in or went out.
type Passed = (Dir, Sent);

/// A mender of one end, and the clues for it. Contracts see nothing of it, so that what the library promises of them is read
/// only here, where they are called.
struct Trial {
    mender: Mender,
    clues: Clues,
    end: End,
}

impl Drop for Trial {
    // written out, since the prover takes a derived one apart again wherever a value is let go
    fn drop(self) {
        let Trial {
            mender: _,
            clues: _,
            end: _,
        } = self;
    }
}

impl Model for Trial {
    ghost Value = { Unit {0} };

    ghost view = { λ _. tt };
}

impl Trial {
    fn at(alloc: Global, end: End) -> Self {
        let header = Header {
            named: end,
            service: SERVICE,
            rollover: None,
        };
        Trial {
            mender: Mender::new(alloc, &header),
            clues: Clues::new(alloc, &header),
            end,
        }
    }

    /// Notes all that passed.
    fn note(&mut self, alloc: Global, all: &[Passed]) -> Result<(), Fail> {
        for passed in all {
            let datagram = self.datagram(alloc, *passed)?;
            self.clues.note(alloc, &datagram)?;
        }
        Ok(())
    }

    /// The datagram with this payload, of which a request goes where the server is asked.
    fn datagram(&self, alloc: Global, passed: Passed) -> Result<Datagram, AllocError> {
        let (dir, sent) = passed;
        let payload = payload_of(sent);
        let asks = matches!(payload, [0, 1 | 2, ..]);
        let server = if asks { SERVICE } else { SERVER };
        let (local_port, remote_port) = match self.end {
            End::Client => (CLIENT, server),
            End::Server => (server, CLIENT),
        };
        Ok(Datagram {
            dir,
            local_port,
            remote_host: Host::none(),
            remote_port,
            payload: Bytes::of(Vec::from_slice(alloc, payload)?),
        })
    }

    /// Feeds a datagram of at most 65,527 bytes, after fewer than 2^40.
    fn mend(&mut self, alloc: Global, datagram: &Datagram) -> Result<(), Unmended> {
        if self.mender.recorded() >= 1 << 40 || datagram.payload.as_slice().len() > 65_527 {
            return Err(Unmended::Memory);
        }
        self.mender.feed(alloc, &self.clues, datagram)
    }

    fn feed(&mut self, alloc: Global, passed: Passed) -> Result<Result<(), Unmended>, AllocError> {
        let datagram = self.datagram(alloc, passed)?;
        Ok(self.mend(alloc, &datagram))
    }

    /// The places that were found.
    fn into_places(self) -> Vec<Place> {
        let Trial {
            mender,
            clues: _,
            end: _,
        } = self;
        mender.into_places()
    }
}

/// What passed at an end, and just what is missing of it; none where no missing datagrams are found that explain the last.
type Case = (End, &'static [Passed], Option<&'static [Place]>);

/// Such ends.
const CASES: &[Case] = &[
    // nothing is missing of whole transfers
    (
        End::Client,
        &[
            (Dir::Out, Sent::Read),
            (Dir::In, Sent::Last1),
            (Dir::Out, Sent::Ack1),
        ],
        Some(&[]),
    ),
    (
        End::Server,
        &[
            (Dir::In, Sent::ReadByTwo),
            (Dir::Out, Sent::AgreedByTwo),
            (Dir::In, Sent::Ack0),
            (Dir::Out, Sent::Block1),
            (Dir::Out, Sent::Last2),
            (Dir::In, Sent::Ack2),
        ],
        Some(&[]),
    ),
    // the second block comes first, and ACK 0 answers it
    (
        End::Server,
        &[
            (Dir::In, Sent::WriteByTwo),
            (Dir::Out, Sent::AgreedByTwo),
            (Dir::In, Sent::Block2),
            (Dir::Out, Sent::Ack0),
            (Dir::In, Sent::Block1),
            (Dir::Out, Sent::Ack2),
            (Dir::In, Sent::Last3),
            (Dir::Out, Sent::Ack3),
        ],
        Some(&[]),
    ),
    // blocks are missing where they are acknowledged
    (
        End::Client,
        &[(Dir::Out, Sent::Read), (Dir::Out, Sent::Ack1)],
        Some(&[Place {
            before: 2,
            came: 1,
            sent: 0,
        }]),
    ),
    // blocks 1 and 2, and the ACK between them
    (
        End::Client,
        &[(Dir::Out, Sent::Read), (Dir::Out, Sent::Ack2)],
        Some(&[Place {
            before: 2,
            came: 2,
            sent: 1,
        }]),
    ),
    (
        End::Server,
        &[(Dir::In, Sent::Read), (Dir::In, Sent::Ack1)],
        Some(&[Place {
            before: 2,
            came: 0,
            sent: 1,
        }]),
    ),
    (
        End::Server,
        &[
            (Dir::In, Sent::Write),
            (Dir::Out, Sent::Ack0),
            (Dir::Out, Sent::Ack1),
        ],
        Some(&[Place {
            before: 3,
            came: 1,
            sent: 0,
        }]),
    ),
    // answers are missing where blocks go on
    // a write waits for its reply, which went out
    (
        End::Server,
        &[(Dir::In, Sent::Write), (Dir::In, Sent::Last1)],
        Some(&[Place {
            before: 2,
            came: 0,
            sent: 1,
        }]),
    ),
    // and where it is sent the reply came in
    (
        End::Client,
        &[
            (Dir::Out, Sent::Write),
            (Dir::Out, Sent::Last1),
            (Dir::In, Sent::Ack1),
        ],
        Some(&[Place {
            before: 2,
            came: 1,
            sent: 0,
        }]),
    ),
    // of a read with an OACK the ACK 0 came in, and after two blocks the ACK of the second
    (
        End::Server,
        &[
            (Dir::In, Sent::ReadByTwo),
            (Dir::Out, Sent::AgreedByTwo),
            (Dir::Out, Sent::Block1),
            (Dir::Out, Sent::Block2),
            (Dir::Out, Sent::Block3),
        ],
        Some(&[
            Place {
                before: 3,
                came: 1,
                sent: 0,
            },
            Place {
                before: 5,
                came: 1,
                sent: 0,
            },
        ]),
    ),
    // blocks 1 and 2 came in, and ACK 2 went out, before block 4 may come
    (
        End::Client,
        &[
            (Dir::Out, Sent::ReadByTwo),
            (Dir::In, Sent::AgreedByTwo),
            (Dir::Out, Sent::Ack0),
            (Dir::In, Sent::Block4),
        ],
        Some(&[Place {
            before: 4,
            came: 2,
            sent: 1,
        }]),
    ),
    // blocks that come again are missing with their bytes
    // block 2 came in before ACK 2, which was lost on the way
    (
        End::Client,
        &[
            (Dir::Out, Sent::ReadByOne),
            (Dir::In, Sent::AgreedByOne),
            (Dir::Out, Sent::Ack0),
            (Dir::In, Sent::Own1),
            (Dir::Out, Sent::Ack1),
            (Dir::Out, Sent::Ack2),
            (Dir::In, Sent::Own2),
            (Dir::Out, Sent::Ack2),
            (Dir::In, Sent::Last3),
            (Dir::Out, Sent::Ack3),
        ],
        Some(&[Place {
            before: 6,
            came: 1,
            sent: 0,
        }]),
    ),
    // and of a write at the server, where the last block comes again
    (
        End::Server,
        &[
            (Dir::In, Sent::WriteByOne),
            (Dir::Out, Sent::AgreedByOne),
            (Dir::In, Sent::Own1),
            (Dir::Out, Sent::Ack1),
            (Dir::Out, Sent::Ack2),
            (Dir::In, Sent::Last2),
            (Dir::Out, Sent::Ack2),
        ],
        Some(&[Place {
            before: 5,
            came: 1,
            sent: 0,
        }]),
    ),
    // of four blocks two are missing, and all four come again
    (
        End::Client,
        &[
            (Dir::Out, Sent::ReadByFour),
            (Dir::In, Sent::AgreedByFour),
            (Dir::Out, Sent::Ack0),
            (Dir::In, Sent::Own1),
            (Dir::In, Sent::Own4),
            (Dir::Out, Sent::Ack4),
            (Dir::In, Sent::Own1),
            (Dir::In, Sent::Own2),
            (Dir::In, Sent::Own3),
            (Dir::In, Sent::Own4),
            (Dir::Out, Sent::Ack4),
            (Dir::In, Sent::Last5),
            (Dir::Out, Sent::Ack5),
        ],
        Some(&[Place {
            before: 6,
            came: 2,
            sent: 0,
        }]),
    ),
    // a block that comes again changed is not the one that is missing
    (
        End::Client,
        &[
            (Dir::Out, Sent::ReadByOne),
            (Dir::In, Sent::AgreedByOne),
            (Dir::Out, Sent::Ack0),
            (Dir::Out, Sent::Ack1),
            (Dir::In, Sent::Own1),
            (Dir::Out, Sent::Ack1),
            (Dir::In, Sent::Block1),
        ],
        None,
    ),
    // agreements that come again are missing
    (
        End::Client,
        &[
            (Dir::Out, Sent::ReadByOne),
            (Dir::Out, Sent::Ack0),
            (Dir::In, Sent::AgreedByOne),
            (Dir::Out, Sent::Ack0),
            (Dir::In, Sent::Own1),
            (Dir::Out, Sent::Ack1),
        ],
        Some(&[Place {
            before: 2,
            came: 1,
            sent: 0,
        }]),
    ),
    // the ACK 0 is missing too
    (
        End::Client,
        &[
            (Dir::Out, Sent::ReadByOne),
            (Dir::In, Sent::Own1),
            (Dir::Out, Sent::Ack1),
            (Dir::In, Sent::AgreedByOne),
        ],
        Some(&[Place {
            before: 2,
            came: 1,
            sent: 1,
        }]),
    ),
    (
        End::Server,
        &[
            (Dir::In, Sent::WriteByOne),
            (Dir::In, Sent::Own1),
            (Dir::Out, Sent::AgreedByOne),
            (Dir::Out, Sent::Ack1),
            (Dir::In, Sent::Last2),
            (Dir::Out, Sent::Ack2),
        ],
        Some(&[Place {
            before: 2,
            came: 0,
            sent: 1,
        }]),
    ),
    // some is not explained by losses
    // a changed block
    (
        End::Client,
        &[
            (Dir::Out, Sent::Read),
            (Dir::In, Sent::Last1),
            (Dir::In, Sent::Changed1),
        ],
        None,
    ),
    // an ACK above the last block
    (
        End::Client,
        &[
            (Dir::Out, Sent::Read),
            (Dir::In, Sent::Last1),
            (Dir::Out, Sent::Ack2),
        ],
        None,
    ),
    // a server that acknowledges in a read
    (
        End::Client,
        &[(Dir::Out, Sent::Read), (Dir::In, Sent::Ack1)],
        None,
    ),
    // what comes after an ERROR of the other end
    (
        End::Server,
        &[
            (Dir::In, Sent::Write),
            (Dir::Out, Sent::Ack0),
            (Dir::In, Sent::Error),
            (Dir::Out, Sent::Ack1),
        ],
        None,
    ),
];

/// Feeds what passed, up to the first that is not explained; the place of that in what passed.
fn first_unexplained(
    alloc: Global,
    trial: &mut Trial,
    all: &[Passed],
) -> Result<Option<usize>, AllocError> {
    for (index, passed) in all.iter().enumerate() {
        if trial.feed(alloc, *passed)? == Err(Unmended::Unexplained) {
            return Ok(Some(index));
        }
    }
    Ok(None)
}

/// Fails unless just that is missing.
fn holds(alloc: Global, (end, all, wanted): &Case) -> Result<(), Fail> {
    let mut trial = Trial::at(alloc, *end);
    trial.note(alloc, *all)?;
    let refused = first_unexplained(alloc, &mut trial, *all)?;
    let places = trial.into_places();
    match wanted {
        Some(wanted) => is_so(
            refused == None && places.as_slice() == *wanted,
            "other places",
        ),
        None => is_so(
            refused == all.len().checked_sub(1),
            "it did not give up at the last",
        ),
    }
}

#[test]
fn what_is_missing_is_found(rt: HostRuntime) -> Result<(), Fail> {
    for case in CASES {
        holds(rt.alloc(), case)?;
    }
    Ok(())
}

/// A read of one block, of which the recorder missed the block.
const WITHOUT_BLOCK: &[u8] =
    b"tftp-capture 1\nend client\nservice 69\nout 40000 69 000161006f6374657400\nout 40000 41000 00040001\ntotal 2\n";

/// A read with blocks of 8 bytes, of which the recorder missed the OACK, which does not come again.
const WITHOUT_OACK: &[u8] = b"tftp-capture 1\nend client\nservice 69\n\
out 40000 69 000161006f6374657400626c6b73697a65003800\n\
out 40000 41000 00040000\n\
in 40000 41000 000300010102030405060708\n\
out 40000 41000 00040001\n\
in 40000 41000 00030002\n\
out 40000 41000 00040002\n\
total 6\n";

/// The same, where it asked for blocks of 1024 bytes, and the server agreed to blocks of 8.
const WITH_SMALLER_BLOCKS: &[u8] = b"tftp-capture 1\nend client\nservice 69\n\
out 40000 69 000161006f6374657400626c6b73697a65003130323400\n\
out 40000 41000 00040000\n\
in 40000 41000 000300010102030405060708\n\
out 40000 41000 00040001\n\
in 40000 41000 00030002\n\
out 40000 41000 00040002\n\
total 6\n";

/// A write with blocks of 8 bytes, of which the recorder missed the OACK.
const WRITE_WITHOUT_OACK: &[u8] = b"tftp-capture 1\nend client\nservice 69\n\
out 40000 69 000261006f6374657400626c6b73697a65003800\n\
out 40000 41000 000300010102030405060708\n\
in 40000 41000 00040001\n\
out 40000 41000 00030002\n\
in 40000 41000 00040002\n\
total 5\n";

/// A read that asked for nothing, and began with ACK 0.
const NOTHING_ASKED: &[u8] =
    b"tftp-capture 1\nend client\nservice 69\nout 40000 69 000161006f6374657400\nout 40000 41000 00040000\ntotal 2\n";

/// A text that is cut.
const CUT: &[u8] = b"tftp-capture 1\nend client\nservice 69\nou";

/// One place, and no other.
const ONE: &[Place] = &[Place {
    before: 2,
    came: 1,
    sent: 0,
}];

/// Texts, and just what is missing of each, or why none is found.
const TEXTS: &[(&[u8], Result<&[Place], Unmended>)] = &[
    (WITHOUT_BLOCK, Ok(ONE)),
    (
        CUT,
        Err(Unmended::Capture(CaptureFault::Text(4, TextFault::Truncated))),
    ),
    (WITHOUT_OACK, Ok(ONE)),
    (WITH_SMALLER_BLOCKS, Ok(ONE)),
    (WRITE_WITHOUT_OACK, Ok(ONE)),
    (NOTHING_ASKED, Err(Unmended::Unexplained)),
];

/// Whether just that is missing of a text.
fn text_misses(alloc: Global, text: &[u8], wanted: &Result<&[Place], Unmended>) -> bool {
    match (missing_of(alloc, text), wanted) {
        (Ok(places), Ok(wanted)) => places.as_slice() == *wanted,
        (Err(found), Err(wanted)) => found == *wanted,
        _ => false,
    }
}

/// Where an OACK is missing, what was asked is agreed.
#[test]
fn texts_tell_what_is_missing(rt: HostRuntime) -> Result<(), Fail> {
    for (text, wanted) in TEXTS {
        is_so(text_misses(rt.alloc(), *text, wanted), "other places")?;
    }
    Ok(())
}
