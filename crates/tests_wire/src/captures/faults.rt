//! Each fault of a text by its name, with the lines that have it, in both versions; and lines that have none.

use crate::captures::outcomes::gives;
use crate::captures::texts::{Line, changed};
use crate::trials::texts::{NAMED, READ};
use std::test::Fail;
use tftp_capture::{CaptureFault, TextFault};

/// A changed line, and its fault, or the sum of the lines of the three datagrams.
type Row = (Line, Result<u64, TextFault>);

/// Of version 1. Those without a fault: the longest payload and comment; comments and empty lines, which are no datagrams;
/// hex digits of either case; and the text itself.
const IN_READ: &[Row] = &[
    ((1, b"tftp-capture 3", (b' ', 0)), Err(TextFault::BadHeader)),
    (
        (1, b"tftp-capture 1\r", (b' ', 0)),
        Err(TextFault::BadHeader),
    ),
    ((2, b"end peer", (b' ', 0)), Err(TextFault::BadEnd)),
    ((2, b"total 3", (b' ', 0)), Err(TextFault::BadEnd)),
    ((3, b"service 0", (b' ', 0)), Err(TextFault::BadService)),
    ((3, b"service 069", (b' ', 0)), Err(TextFault::BadService)),
    ((3, b"service 69 ", (b' ', 0)), Err(TextFault::BadService)),
    ((4, b"out 40000  69 00", (b' ', 0)), Err(TextFault::BadLine)),
    (
        (4, b"out 40000 - 69 00", (b' ', 0)),
        Err(TextFault::BadLine),
    ),
    ((4, b" ", (b' ', 0)), Err(TextFault::BadLine)),
    ((4, b"\r", (b' ', 0)), Err(TextFault::BadLine)),
    ((4, b"total", (b' ', 0)), Err(TextFault::BadLine)),
    ((4, b"total 3 ", (b' ', 0)), Err(TextFault::BadLine)),
    ((4, b"out 040000 69 00", (b' ', 0)), Err(TextFault::BadPort)),
    ((4, b"out 65536 69 00", (b' ', 0)), Err(TextFault::BadPort)),
    ((4, b"out 1 0 00", (b' ', 0)), Err(TextFault::BadPort)),
    ((4, b"out  69 00", (b' ', 0)), Err(TextFault::BadPort)),
    ((4, b"out 1 69 ", (b' ', 0)), Err(TextFault::BadHex)),
    (
        (4, b"out 40000 69 00016", (b' ', 0)),
        Err(TextFault::BadHex),
    ),
    ((4, b"out 40000 69 0g", (b' ', 0)), Err(TextFault::BadHex)),
    ((7, b"total 4", (b' ', 0)), Err(TextFault::TotalWrong)),
    ((7, b"total 03", (b' ', 0)), Err(TextFault::TotalWrong)),
    ((7, b"total +3", (b' ', 0)), Err(TextFault::TotalWrong)),
    ((7, b"total ", (b' ', 0)), Err(TextFault::TotalWrong)),
    ((7, b"total x", (b' ', 0)), Err(TextFault::TotalWrong)),
    ((4, b"in 1 1 ", (b'0', 131_055)), Err(TextFault::BadHex)),
    ((4, b"in 1 1 ", (b'g', 131_056)), Err(TextFault::BadHex)),
    (
        (4, b"in 1 1 ", (b'0', 131_056)),
        Err(TextFault::PayloadTooLong),
    ),
    ((4, b"#", (b'#', 131_070)), Err(TextFault::LineTooLong)),
    ((4, b"in 1 1 ", (b'0', 131_054)), Ok(15)),
    ((3, b"service 69\n#", (b'#', 131_069)), Ok(18)),
    ((3, b"service 69\n# x", (b' ', 0)), Ok(18)),
    ((2, b"\n#\x00\xff\nend server", (b' ', 0)), Ok(21)),
    ((6, b"out 1 2 -\n\n", (b' ', 0)), Ok(15)),
    ((5, b"in 40000 41000 000300016A6B", (b' ', 0)), Ok(15)),
    ((1, b"tftp-capture 1", (b' ', 0)), Ok(15)),
];

/// Of version 2. Those without a fault: hosts of one and of 45 signs, comments, and the longest lines; and the text itself.
const IN_NAMED: &[Row] = &[
    ((1, b"tftp-capture 3", (b' ', 0)), Err(TextFault::BadHeader)),
    (
        (1, b"tftp-capture 2 ", (b' ', 0)),
        Err(TextFault::BadHeader),
    ),
    ((2, b"end peer", (b' ', 0)), Err(TextFault::BadEnd)),
    ((3, b"service - 69", (b' ', 0)), Err(TextFault::BadService)),
    ((4, b"out 40000 69 00", (b' ', 0)), Err(TextFault::BadLine)),
    (
        (4, b"out 40000 a b 69 00", (b' ', 0)),
        Err(TextFault::BadLine),
    ),
    (
        (4, b"out  40000 a 69 00", (b' ', 0)),
        Err(TextFault::BadLine),
    ),
    ((4, b"in", (b' ', 0)), Err(TextFault::BadLine)),
    ((4, b"total - 3", (b' ', 0)), Err(TextFault::BadLine)),
    ((4, b"out 0  69 0", (b' ', 0)), Err(TextFault::BadPort)),
    ((4, b"out 1  0 0", (b' ', 0)), Err(TextFault::BadPort)),
    ((4, b"out 1  69 0", (b' ', 0)), Err(TextFault::BadHost)),
    ((4, b"out 1  69 00", (b' ', 0)), Err(TextFault::BadHost)),
    (
        (4, b"out 1 a\x1fb 69 00", (b' ', 0)),
        Err(TextFault::BadHost),
    ),
    (
        (4, b"out 1 a\x7f 69 00", (b' ', 0)),
        Err(TextFault::BadHost),
    ),
    ((4, b"out 1 \xff 69 00", (b' ', 0)), Err(TextFault::BadHost)),
    ((4, b"out 1 a\r 69 00", (b' ', 0)), Err(TextFault::BadHost)),
    (
        (
            4,
            b"out 40000 aaaaaaaaaaaaaaaaaaaaaaaaaaaaaaaaaaaaaaaaaaaaaa 69 000161006f6374657400",
            (b' ', 0),
        ),
        Err(TextFault::BadHost),
    ),
    ((4, b"out 1 a 69 0", (b' ', 0)), Err(TextFault::BadHex)),
    ((4, b"out 1 a 69 ", (b' ', 0)), Err(TextFault::BadHex)),
    ((4, b"out 1 a 69 0g", (b' ', 0)), Err(TextFault::BadHex)),
    ((7, b"total 4", (b' ', 0)), Err(TextFault::TotalWrong)),
    (
        (1, b"tftp-capture 2", (b' ', 131_056)),
        Err(TextFault::BadHeader),
    ),
    (
        (
            4,
            b"in 65535 aaaaaaaaaaaaaaaaaaaaaaaaaaaaaaaaaaaaaaaaaaaaaa 65535 ",
            (b'0', 131_054),
        ),
        Err(TextFault::BadHost),
    ),
    (
        (
            4,
            b"in 65535 aaaaaaaaaaaaaaaaaaaaaaaaaaaaaaaaaaaaaaaaaaaaa 65535 ",
            (b'0', 131_055),
        ),
        Err(TextFault::BadHex),
    ),
    (
        (4, b"in 65535 - 65535 ", (b'0', 131_056)),
        Err(TextFault::PayloadTooLong),
    ),
    ((7, b"total 3", (b'#', 131_109)), Err(TextFault::TotalWrong)),
    (
        (
            4,
            b"out 65535 aaaaaaaaaaaaaaaaaaaaaaaaaaaaaaaaaaaaaaaaaaaaa 65535 ",
            (b'0', 131_055),
        ),
        Err(TextFault::LineTooLong),
    ),
    ((4, b"#", (b'#', 131_116)), Err(TextFault::LineTooLong)),
    ((2, b"#", (b'#', 131_116)), Err(TextFault::LineTooLong)),
    (
        (7, b"total 3", (b'#', 131_110)),
        Err(TextFault::LineTooLong),
    ),
    (
        (1, b"tftp-capture 2", (b' ', 131_057)),
        Err(TextFault::LineTooLong),
    ),
    ((4, b"in 1 ! 65535 -", (b' ', 0)), Ok(15)),
    ((4, b"in 1 ~ 65535 AB", (b' ', 0)), Ok(15)),
    ((3, b"#\n\nservice 69\n# in 1 2 3", (b' ', 0)), Ok(24)),
    (
        (
            4,
            b"out 40000 aaaaaaaaaaaaaaaaaaaaaaaaaaaaaaaaaaaaaaaaaaaaa 69 00",
            (b' ', 0),
        ),
        Ok(15),
    ),
    (
        (
            4,
            b"out 65535 aaaaaaaaaaaaaaaaaaaaaaaaaaaaaaaaaaaaaaaaaaaaa 65535 ",
            (b'0', 131_054),
        ),
        Ok(15),
    ),
    ((3, b"service 69\n#", (b'#', 131_115)), Ok(18)),
    ((1, b"tftp-capture 2", (b' ', 0)), Ok(15)),
];

/// Fails unless a changed line has its fault, or none.
fn has(rt: &HostRuntime, text: &str, (line, wanted): &Row) -> Result<(), Fail> {
    let text = changed(rt, text, line)?;
    let wanted = match wanted {
        Ok(lines) => Ok((3, *lines)),
        Err(fault) => Err(CaptureFault::Text(line.0 as u64, *fault)),
    };
    gives(rt.alloc(), text.as_slice(), wanted)
}

/// Fails unless that is so of each row.
fn all_have(rt: &HostRuntime, text: &str, rows: &[Row]) -> Result<(), Fail> {
    for row in rows {
        has(rt, text, row)?;
    }
    Ok(())
}

#[test]
fn lines_of_version_1(rt: HostRuntime) -> Result<(), Fail> {
    all_have(&rt, READ, IN_READ)
}

#[test]
fn lines_of_version_2(rt: HostRuntime) -> Result<(), Fail> {
    all_have(&rt, NAMED, IN_NAMED)
}

/// Texts with a fault on this line, whatever was changed: comments before it, the first line of the other version, and
/// what comes after the total.
const ELSEWHERE: &[(&str, Line, u64, TextFault)] = &[
    (READ, (4, b"#\n#\nin", (b' ', 0)), 6, TextFault::BadLine),
    (READ, (5, b"#\nin 1", (b' ', 0)), 6, TextFault::BadLine),
    (
        READ,
        (7, b"#\n#\ntotal 4", (b' ', 0)),
        9,
        TextFault::TotalWrong,
    ),
    (
        READ,
        (1, b"tftp-capture 2", (b' ', 0)),
        4,
        TextFault::BadLine,
    ),
    (
        NAMED,
        (1, b"tftp-capture 1", (b' ', 0)),
        4,
        TextFault::BadLine,
    ),
    (
        READ,
        (7, b"total 3\n#", (b' ', 0)),
        8,
        TextFault::TrailingText,
    ),
    (
        READ,
        (7, b"total 3\n", (b' ', 0)),
        8,
        TextFault::TrailingText,
    ),
    (
        READ,
        (7, b"total 3\nx", (b' ', 0)),
        8,
        TextFault::TrailingText,
    ),
    (
        READ,
        (7, b"total 3\n", (b'a', 131_071)),
        8,
        TextFault::TrailingText,
    ),
];

#[test]
fn faults_of_other_lines(rt: HostRuntime) -> Result<(), Fail> {
    for (text, line, number, fault) in ELSEWHERE {
        let text = changed(&rt, *text, line)?;
        let wanted = Err(CaptureFault::Text(*number, *fault));
        gives(rt.alloc(), text.as_slice(), wanted)?;
    }
    Ok(())
}

/// Texts that end too early or go on, each with the line and the fault. They are tried with growths refused.
const ENDS: &[(&[u8], u64, TextFault)] = &[
    (b"", 1, TextFault::Truncated),
    (b"tftp-capture 2\nend client\n", 3, TextFault::Truncated),
    (
        b"tftp-capture 1\nend client\nservice 69\nin 40000 41000 000300016869\n",
        5,
        TextFault::Truncated,
    ),
    (
        b"tftp-capture 1\nend client\nservice 69\nin 40000 41000 000300016869\ntotal 1",
        5,
        TextFault::Truncated,
    ),
    (
        b"tftp-capture 1\nend client\nservice 69\nin 40000 41000 000300016869\ntotal 1\nx",
        6,
        TextFault::TrailingText,
    ),
];

#[test]
fn truncated(rt: HostRuntime) -> Result<(), Fail> {
    for (text, line, fault) in ENDS {
        gives(rt.alloc(), *text, Err(CaptureFault::Text(*line, *fault)))?;
    }
    Ok(())
}
