//! The commands, each once: what they say of many texts is tried on the built program. And that what has come is written
//! before more is read, as through a slow pipe.

use crate::judges::cases::OVERRUN;
use net_streams::streams::{Latched, LineWriter};
use std::test::Fail;
use tests_wire::trials::comparing::is_so;
use tests_wire::trials::drip::{DripReader, DripWriter};
use tests_wire::trials::texts::READ;
use tftp_commands::run;

/// Words, a text of which each read gives so many bytes, the read that fails, the write that fails, the status, what was
/// written, and how many bytes were not read.
type Said = (
    &'static [&'static str],
    &'static str,
    usize,
    u64,
    u64,
    u8,
    &'static str,
    usize,
);

/// Runs the program on a text. It promises nothing, so that what `run` promises is read only here.
fn ran(
    rt: &HostRuntime,
    words: &[&str],
    drip: DripReader<'_>,
    into: DripWriter,
) -> (u8, DripWriter, usize) {
    let mut reader = Latched::new(drip);
    let mut writer = LineWriter::new(rt.alloc(), into);
    let status = run(rt.alloc(), words, &mut reader, &mut writer).code();
    (status, writer.finish().0, reader.into_inner().left())
}

/// Fails unless this is said.
fn says(
    rt: &HostRuntime,
    (words, text, piece, read_fails, write_fails, status, output, left): &Said,
) -> Result<(), Fail> {
    let drip = DripReader::new(text.as_bytes(), *piece, *read_fails, None);
    let into = DripWriter::new(rt.alloc(), 65_536, usize::MAX, *write_fails, false)?;
    let (ended, written, unread) = ran(rt, *words, drip, into);
    is_so(ended == *status && unread == *left, "another end")?;
    is_so(written.taken() == output.as_bytes(), "another output")
}

/// Fails unless a command says this of a text, given whole and in pieces, with this status.
pub fn prints(
    rt: &HostRuntime,
    command: &'static str,
    text: &[u8],
    status: u8,
    output: &[u8],
) -> Result<(), Fail> {
    for piece in [usize::MAX, 1, 7] {
        let drip = DripReader::new(text, piece, 0, None);
        let into = DripWriter::new(rt.alloc(), output.len(), usize::MAX, 0, false)?;
        let (ended, written, _) = ran(rt, &["tftp-audit", command], drip, into);
        is_so(ended == status && written.taken() == output, command)?;
    }
    Ok(())
}

/// 221 bytes, whose datagrams end behind byte 71, 99, 136, 164 and 213, with lines that say nothing among them.
const FIVE: &str =
    "tftp-capture 1\nend client\nservice 69\nout 40000 69 000161006f6374657400\nin 40000 41000 000300016869\n# a comment\nout 40000 41000 00040001\nin 40000 41000 000300016869\n# a comment\n\n# and more\nout 40000 41000 00040001\ntotal 5\n";

/// The word of the program, and a command.
const CHECK: &[&str] = &["tftp-audit", "check"];

const NORMAL: &[&str] = &["tftp-audit", "normal"];

const SHOW: &[&str] = &["tftp-audit", "show"];

/// What `show` says of the five, and of the first so many.
const SHOWN: &str = "1 out RRQ\n2 in DATA 1 2\n3 out ACK 1\n4 in DATA 1 2\n5 out ACK 1\n";

const SHOWN_4: &str = "1 out RRQ\n2 in DATA 1 2\n3 out ACK 1\n4 in DATA 1 2\n";

const SHOWN_3: &str = "1 out RRQ\n2 in DATA 1 2\n3 out ACK 1\n";

const SHOWN_2: &str = "1 out RRQ\n2 in DATA 1 2\n";

/// Each command, and no word. What is said of `FIVE` where a write fails, by byte and in pieces of 100: no more was read than
/// what tells the datagrams that it writes. Of a file that is read at once all is written at once. Last, what is said where
/// a write, the text or a read fails.
const SAID: &[Said] = &[
    (
        CHECK,
        READ,
        7,
        0,
        0,
        0,
        "accepted get octet blocks 1 bytes 2\n",
        0,
    ),
    (&["tftp-audit", "extract"], READ, 7, 0, 0, 0, "hi", 0),
    (
        NORMAL,
        READ,
        7,
        0,
        0,
        0,
        "tftp-capture 1\nend client\nservice 69\nout 50000 69 000161006f6374657400\nin 50000 50001 000300016869\nout 50000 50001 00040001\ntotal 3\n",
        0,
    ),
    (
        &["tftp-audit", "count"],
        READ,
        7,
        0,
        0,
        0,
        "normal datagrams 3\n",
        0,
    ),
    (SHOW, READ, 7, 0, 0, 0, SHOWN_3, 0),
    (&[], READ, 7, 0, 0, 2, "fault usage\n", 132),
    (SHOW, FIVE, 1, 0, 1, 2, "", 150),
    (SHOW, FIVE, 1, 0, 2, 2, "1 out RRQ\n", 122),
    (SHOW, FIVE, 1, 0, 3, 2, SHOWN_2, 85),
    (SHOW, FIVE, 1, 0, 4, 2, SHOWN_3, 57),
    (SHOW, FIVE, 1, 0, 5, 2, SHOWN_4, 8),
    (SHOW, FIVE, 100, 0, 1, 2, "", 121),
    (SHOW, FIVE, 100, 0, 2, 2, SHOWN_2, 21),
    (SHOW, FIVE, 100, 0, 3, 2, SHOWN_4, 0),
    (SHOW, FIVE, usize::MAX, 0, 1, 2, "", 0),
    (SHOW, FIVE, usize::MAX, 0, 2, 0, SHOWN, 0),
    (NORMAL, READ, 7, 0, 1, 2, "", 0),
    (NORMAL, "tftp-capture 3\n", 7, 0, 0, 2, "", 0),
    (CHECK, READ, 1, 1, 0, 2, "fault line 1 Read\n", 132),
    (CHECK, READ, usize::MAX, 2, 0, 2, "fault line 8 Read\n", 0),
    (CHECK, READ, 1, 133, 0, 2, "fault line 8 Read\n", 0),
    (
        CHECK,
        OVERRUN,
        110,
        2,
        0,
        1,
        "refused datagram 2 rule 22 WindowOverrun\n",
        15,
    ),
    (CHECK, OVERRUN, 60, 2, 0, 2, "fault line 4 Read\n", 65),
];

#[test]
fn each_command_once(rt: HostRuntime) -> Result<(), Fail> {
    for said in SAID {
        says(&rt, said)?;
    }
    Ok(())
}
