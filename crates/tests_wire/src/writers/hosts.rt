//! Texts whose datagrams name a host, written with a comment and without.

use crate::trials::drip::DripWriter;
use crate::trials::texts::{COMMENTED, NAMED};
use crate::writers::writes::{DATAGRAMS, HEADER, has_written};
use crate::writers::writing::write_with_host;
use std::test::Fail;
use tftp_packet::hosts::Host;

/// Fails unless this text is written of the datagrams of `NAMED`, with a comment or none, where each write takes so many
/// bytes.
fn is_written_in(
    rt: &HostRuntime,
    piece: usize,
    host: &Host,
    text: &str,
    comment: Option<&[u8]>,
) -> Result<(), Fail> {
    let drip = DripWriter::new(rt.alloc(), text.len(), piece, 0, false)?;
    let found = write_with_host(rt.alloc(), drip, &HEADER, comment, host, DATAGRAMS);
    has_written(&found, Ok(()), text.as_bytes())
}

/// Fails unless that is so of writes of each length.
fn is_written(rt: &HostRuntime, text: &str, comment: Option<&[u8]>) -> Result<(), Fail> {
    let Some(host) = Host::new(b"10.0.0.1") else {
        return Err(Fail::new("host"));
    };
    for piece in &[usize::MAX, 1, 5] {
        is_written_in(rt, *piece, &host, text, comment)?;
    }
    Ok(())
}

#[test]
fn a_read_with_its_hosts_is_written(rt: HostRuntime) -> Result<(), Fail> {
    is_written(&rt, NAMED, None)
}

#[test]
fn a_comment_is_written(rt: HostRuntime) -> Result<(), Fail> {
    is_written(&rt, COMMENTED, Some(b"frame 7"))
}
