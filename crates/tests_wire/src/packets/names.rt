//! OACKs of many options: names that are found by their hashes, and names that are sorted since their hashes are alike.

use crate::packets::packets::fault_of;
use crate::trials::comparing::is_so;
use std::alloc::AllocError;
use std::test::Fail;
use tftp_packet::PacketFault;

/// An OACK of 70 names of five letters whose hashes begin at one slot, found by a program of its own.
const ALIKE: &[u8] = b"\x00\x06\
    aacjg\0\0aaeau\0\0aaeun\0\0aajaa\0\0aallh\0\0aancv\0\0aanwo\0\0aascb\0\0\
    abtyw\0\0abyej\0\0abyyc\0\0ackim\0\0acmtt\0\0actkn\0\0adddj\0\0addxc\0\0\
    adzmv\0\0aejfr\0\0aelqy\0\0aeqqe\0\0aeshs\0\0aeusz\0\0aezsf\0\0afaja\0\0\
    afcao\0\0afcuh\0\0afelv\0\0afjlb\0\0agpnj\0\0agrex\0\0agryq\0\0agwed\0\0\
    agypk\0\0ahbrm\0\0ahiig\0\0ahktn\0\0aiqvv\0\0aivbi\0\0aivvb\0\0aixmp\0\0\
    aizxw\0\0ajaor\0\0ajczy\0\0ajhfl\0\0ajhze\0\0ajjqs\0\0ajqhm\0\0akaai\0\0\
    akaub\0\0akwju\0\0algcq\0\0algwj\0\0alinx\0\0alnnd\0\0alper\0\0alpyk\0\0\
    alrpy\0\0alwpe\0\0ambiu\0\0amgia\0\0amvgz\0\0anmki\0\0anobw\0\0anovp\0\0\
    antbc\0\0anvmj\0\0anxxq\0\0aoafz\0\0aoazs\0\0aofff\0\0";

/// An OACK without options.
const NONE: &[u8] = b"\x00\x06";

/// Appends so many options without a value, each with a name of three letters of its own, the first `aaa`.
fn add_options(payload: &mut Vec<u8>, count: u32) -> Result<(), AllocError> {
    for number in 0..count {
        let first = b'a' + (number / 676 % 26) as u8;
        let second = b'a' + (number / 26 % 26) as u8;
        let third = b'a' + (number % 26) as u8;
        payload.extend_from_slice(&[first, second, third, 0, 0])?;
    }
    Ok(())
}

/// An OACK, how many options are appended to it, and an option that comes twice then.
type Row = (&'static [u8], u32, &'static [u8]);

/// Such OACKs.
const ROWS: &[Row] = &[
    (NONE, 8, b"AAA\0\0"),
    (NONE, 8, b"aaH\0\0"),
    (NONE, 9, b"AAA\0\0"),
    (NONE, 9, b"aaH\0\0"),
    (NONE, 64, b"AAA\0\0"),
    (NONE, 64, b"aaH\0\0"),
    (NONE, 65, b"AAA\0\0"),
    (NONE, 65, b"aaH\0\0"),
    (NONE, 120, b"AAA\0\0"),
    (NONE, 120, b"aaH\0\0"),
    (NONE, 4_096, b"AAA\0\0"),
    (NONE, 4_096, b"aaH\0\0"),
    (NONE, 4_097, b"AAA\0\0"),
    (NONE, 4_097, b"aaH\0\0"),
    (NONE, 10_000, b"AAA\0\0"),
    (NONE, 10_000, b"aaH\0\0"),
    (ALIKE, 3, b"AACJG\0\0"),
    (ALIKE, 3, b"aofff\0\0"),
    (ALIKE, 3, b"AAA\0\0"),
    (ALIKE, 3, b"aac\0\0"),
    (ALIKE, 1_017, b"AACJG\0\0"),
    (ALIKE, 1_017, b"aofff\0\0"),
    (ALIKE, 1_017, b"AAA\0\0"),
    (ALIKE, 1_017, b"aac\0\0"),
    (ALIKE, 1_018, b"AACJG\0\0"),
    (ALIKE, 1_018, b"aofff\0\0"),
    (ALIKE, 1_018, b"AAA\0\0"),
    (ALIKE, 1_018, b"aac\0\0"),
    (ALIKE, 1_019, b"AACJG\0\0"),
    (ALIKE, 1_019, b"aofff\0\0"),
    (ALIKE, 1_019, b"AAA\0\0"),
    (ALIKE, 1_019, b"aac\0\0"),
    (ALIKE, 3_000, b"AACJG\0\0"),
    (ALIKE, 3_000, b"aofff\0\0"),
    (ALIKE, 3_000, b"AAA\0\0"),
    (ALIKE, 3_000, b"aac\0\0"),
];

/// Fails unless the OACK holds each name once, until one comes twice.
fn holds_each_once(rt: &HostRuntime, (start, count, twice): &Row) -> Result<(), Fail> {
    let mut payload = Vec::from_slice(rt.alloc(), *start)?;
    add_options(&mut payload, *count)?;
    let before = fault_of(payload.as_slice());
    payload.extend_from_slice(*twice)?;
    let found = fault_of(payload.as_slice());
    is_so(before == None, "a fault")?;
    is_so(
        found == Some(PacketFault::DuplicateOption),
        "another fault, or none",
    )
}

#[test]
fn each_name_stands_once(rt: HostRuntime) -> Result<(), Fail> {
    for row in ROWS {
        holds_each_once(&rt, row)?;
    }
    Ok(())
}
