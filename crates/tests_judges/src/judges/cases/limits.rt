use crate::commands::prints;
use std::alloc::{AllocError, Global};
use std::test::Fail;

/// Names of any length, though a request with options has 512 bytes at most; blocks that are whole, so that an empty one
/// follows; and 511 bare LFs, which are written in two blocks.
pub const SCRIPT: &str = "
tftp-capture 1, end client, service 69
out 40000 69 0001{61*494}006f6374657400626c6b73697a65003800, HI,
  ACK_1 => 1 refused datagram 1 rule 5 Malformed RequestTooLong
out 40000 69 0001{61*494}006f6374657400626c6b73697a65003800 => 1 refused datagram 1 rule 5 Malformed RequestTooLong
out 40000 69 0001{61*493}006f6374657400626c6b73697a65003800, HI, ACK_1 => 0 accepted get octet blocks 1 bytes 2
out 40000 69 0001{61*600}006f6374657400, HI, ACK_1 => 0 accepted get octet blocks 1 bytes 2
READ, in 40000 41000 00030001{61*512}, ACK_1 => 1 incomplete after 3
READ, in 40000 41000 00030001{61*512}, ACK_1, in 40000 41000 00030002 => 1 incomplete after 4
READ, in 40000 41000 00030001{61*512}, ACK_1, in 40000 41000 00030002,
  ACK_2 => 0 accepted get octet blocks 2 bytes 512
out 40000 69 000161006f6374657400626c6b73697a65003130323400, in 40000 41000 0006626c6b73697a65003035313200, ACK_0,
  in 40000 41000 00030001{78*512}, ACK_1, in 40000 41000 00030002, ACK_2 => 0 accepted get octet blocks 2 bytes 512
out 40000 69 000161006f6374657400626c6b73697a6500363534363400, in 40000 41000 0006626c6b73697a6500363534363400,
  ACK_0, in 40000 41000 00030001{78*65464}, ACK_1, in 40000 41000 00030002,
  ACK_2 => 0 accepted get octet blocks 2 bytes 65464
out 40000 69 000161006f6374657400626c6b73697a6500363534363400, in 40000 41000 0006626c6b73697a6500363534363400,
  ACK_0, in 40000 41000 00030001{78*65465}, ACK_1, in 40000 41000 00030002,
  ACK_2 => 1 refused datagram 4 rule 21 BlockLength
tftp-capture 1, end client, service 65535
out 65535 65535 0001{61*65518}006f6374657400, in 65535 41000 000300016869,
  out 65535 41000 00040001 => 0 accepted get octet blocks 1 bytes 2
tftp-capture 1, end client, service 69
out 40000 69 000161006e6574617363696900, in 40000 41000 00030001{0a*511},
  ACK_1 => 0 accepted get netascii blocks 2 bytes 511
";

/// A read with blocks of 8 bytes in a window of 65535: the digits of its mode, those of all blocks but the last and of the
/// last, its number, and whether the last comes first and the others backwards.
type Window = (&'static str, &'static str, &'static str, u16, bool);

/// How such a read begins, but for its mode, and what follows the mode.
const BEFORE_MODE: &str = "tftp-capture 1\nend client\nservice 69\nout 40000 69 00016100";

const AFTER_MODE: &str =
    "00626c6b73697a6500380077696e646f7773697a6500363535333500\nin 40000 41000 0006626c6b73697a6500380077696e646f7773697a6500363535333500\nout 40000 41000 00040000\n";

/// Adds the line of a block.
fn add_block(
    alloc: Global,
    text: &mut String,
    number: u16,
    digits: &str,
) -> Result<(), AllocError> {
    let line = format!(in alloc; "in 40000 41000 0003{number:04x}{digits}\n")?;
    text.push_str(line.as_str())
}

/// Adds the lines of all blocks.
fn add_blocks(alloc: Global, text: &mut String, window: &Window) -> Result<(), AllocError> {
    let (_, whole, last, count, backwards) = window;
    for step in 0..*count {
        let number = if *backwards { *count - step } else { step + 1 };
        let digits = if number == *count { last } else { whole };
        add_block(alloc, text, number, digits)?;
    }
    Ok(())
}

/// The text of such a read, with an acknowledgement of the last block at its end.
fn window_text(alloc: Global, window: &Window) -> Result<String, AllocError> {
    let (mode, _, _, count, _) = window;
    let mut text = format!(in alloc; "{BEFORE_MODE}{mode}{AFTER_MODE}")?;
    add_blocks(alloc, &mut text, window)?;
    let total = u32::from(*count) + 4;
    let end = format!(in alloc; "out 40000 41000 0004{count:04x}\ntotal {total}\n")?;
    text.push_str(end.as_str())?;
    Ok(text)
}

/// The modes, as they are spelled in hex.
const OCTET_MODE: &str = "6f63746574";

const NETASCII_MODE: &str = "6e65746173636969";

/// A block of eight signs, and of eight bare LFs.
const SIGNS: &str = "3131313131313131";

const LINE_FEEDS: &str = "0a0a0a0a0a0a0a0a";

/// Reads, and what is said of them: as many blocks as there may be, the last one first; and a text of bare LFs, which are
/// two bytes each when they are written, in half as many: with one more there would be block 65536.
const WINDOWS: &[(Window, u8, &str)] = &[
    (
        (OCTET_MODE, SIGNS, "31313131313131", 65535, true),
        0,
        "accepted get octet blocks 65535 bytes 524279\n",
    ),
    (
        (NETASCII_MODE, LINE_FEEDS, "0a0a0a0a", 32768, false),
        1,
        "too long when normal\n",
    ),
    (
        (NETASCII_MODE, LINE_FEEDS, "0a0a0a", 32768, false),
        0,
        "accepted get netascii blocks 65535 bytes 262139\n",
    ),
];

#[test]
fn as_many_blocks_as_there_may_be(rt: HostRuntime) -> Result<(), Fail> {
    for (window, status, line) in WINDOWS {
        let text = window_text(rt.alloc(), window)?;
        prints(&rt, "check", text.as_bytes(), *status, line.as_bytes())?;
    }
    Ok(())
}
