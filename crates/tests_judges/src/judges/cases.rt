//! Captures, and what is said of each: by the commands, of texts that come whole and in pieces. The same scripts are tried
//! on the built program.

use crate::commands::prints;
use crate::scripts::Script;
use std::alloc::{AllocError, Global};
use std::test::Fail;
use tests_wire::trials::comparing::is_so;
use tests_wire::trials::normals;

mod errors;
mod files;
mod hosts;
mod limits;
mod options;
mod reads;
mod rules;
mod windows;

/// A line, with its end.
fn line_of(alloc: Global, words: &[u8]) -> Result<Vec<u8>, AllocError> {
    let mut line = Vec::from_slice(alloc, words)?;
    line.push(b'\n')?;
    Ok(line)
}

/// Fails unless `check` says of the next capture of a script what is wanted: a status, and a line.
fn next_holds(rt: &HostRuntime, script: &mut Script<'_>) -> Result<(), Fail> {
    let (text, said) = script.next(rt.alloc())?;
    let [status @ (b'0' | b'1' | b'2'), b' ', words @ ..] = said else {
        return Err(Fail::new("no status"));
    };
    let line = line_of(rt.alloc(), words)?;
    prints(
        rt,
        "check",
        text.as_slice(),
        *status - b'0',
        line.as_slice(),
    )
}

/// Fails unless that is so of each capture of a script, and it has as many as this.
fn all_hold(rt: &HostRuntime, script: &str, count: u32) -> Result<(), Fail> {
    let mut script = Script::new(script);
    for _ in 0..count {
        next_holds(rt, &mut script)?;
    }
    script.ends()
}

/// Each script, and how many captures it has. In a table, the scripts would be dear to prove.
#[test]
fn captures_of_all_scripts(rt: HostRuntime) -> Result<(), Fail> {
    all_hold(&rt, rules::SCRIPT, 31)?;
    all_hold(&rt, reads::SCRIPT, 26)?;
    all_hold(&rt, hosts::SCRIPT, 21)?;
    all_hold(&rt, options::SCRIPT, 19)?;
    all_hold(&rt, windows::SCRIPT, 34)?;
    all_hold(&rt, errors::SCRIPT, 53)?;
    all_hold(&rt, limits::SCRIPT, 12)
}

/// Fails unless this is said of a text, and this normal text is written for it.
fn is_said(rt: &HostRuntime, text: &[u8], said: &[u8], normal: &[u8]) -> Result<(), Fail> {
    let line = line_of(rt.alloc(), said)?;
    prints(rt, "check", text, 0, line.as_slice())?;
    prints(rt, "normal", text, 0, normal)
}

/// Fails unless of the next capture of a script is said what is wanted, and the same of its normal text after it, which is
/// written for both.
fn next_are_said(rt: &HostRuntime, script: &mut Script<'_>) -> Result<(), Fail> {
    let (text, said) = script.next(rt.alloc())?;
    let (normal, _) = script.next(rt.alloc())?;
    is_said(rt, text.as_slice(), said, normal.as_slice())?;
    is_said(rt, normal.as_slice(), said, normal.as_slice())
}

#[test]
fn captures_and_their_normal_texts(rt: HostRuntime) -> Result<(), Fail> {
    let mut script = Script::new(normals::SCRIPT);
    for _ in 0..13 {
        next_are_said(&rt, &mut script)?;
    }
    script.ends()
}

/// The read of `hi` (RFC 1350, sections 4 and 5) with block 2 for block 1, and a payload of one digit after it.
pub(crate) const OVERRUN: &str =
    "tftp-capture 1\nend client\nservice 69\nout 40000 69 000161006f6374657400\nin 40000 41000 000300026869\nout 40000 41000 0\ntotal 3\n";

/// Texts with a fault, or a refusal before it, and what is said of each.
const FAULTS: &[(&str, u8, &str)] = &[
    (OVERRUN, 1, "refused datagram 2 rule 22 WindowOverrun\n"),
    (
        "tftp-capture 1\nend client\nservice 69\nout 40000 69 000161006f6374657400\nin 40000 41000 000300016869\nout 40000 41000 0\ntotal 3\n",
        2,
        "fault line 6 BadHex\n",
    ),
    (
        "tftp-capture 1\nend client\nservice 69\ntotal 0\n",
        1,
        "incomplete after 0\n",
    ),
    (
        "tftp-capture 1\nend client\nservice 69\nout 40000 69 000161006f6374657400\n",
        2,
        "fault line 5 Truncated\n",
    ),
    ("tftp-capture 1\nend peer\n", 2, "fault line 2 BadEnd\n"),
    ("", 2, "fault line 1 Truncated\n"),
];

#[test]
fn texts_with_a_fault(rt: HostRuntime) -> Result<(), Fail> {
    for (text, status, line) in FAULTS {
        prints(&rt, "check", text.as_bytes(), *status, line.as_bytes())?;
    }
    Ok(())
}
