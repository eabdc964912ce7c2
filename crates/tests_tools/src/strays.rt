//! Strays, as many as the input has ports.

use crate::stores::fill;
use std::alloc::Global;
use std::io;
use std::io::{ErrorKind, Read};
use tftp_ends::{PortFault, Ports, Route};
use tftp_packet::End;
use tftp_packet::hosts::{Dir, Host};

/// The most bytes that are read at once, two for each port.
const PIECE: usize = 65_536;

/// How many datagrams come astray, at a client whose server answers from port 65535. Each pair of the input's bytes is
/// the port at the other side of a datagram that comes in.
pub fn count_strays<R: Read>(alloc: Global, reader: &mut R) -> io::Result<u64> {
    let mut ports = Ports::new(alloc, End::Client, 69);
    count_all(alloc, reader, &mut ports)
}

/// How many datagrams come astray at ports that are new.
fn count_all<R: Read>(alloc: Global, reader: &mut R, ports: &mut Ports) -> io::Result<u64> {
    let mut piece = vec![in alloc; 0u8; PIECE]?;
    let mut count = 0u64;
    route(ports, Dir::Out, 69, 1)?;
    route(ports, Dir::In, 65_535, 3)?;
    for _ in 0..u64::MAX {
        let len = fill(reader, &mut piece)?;
        if len == 0 {
            break;
        }
        count = count.saturating_add(count_among(ports, &piece[..len])?);
    }
    Ok(count)
}

/// How many of the datagrams come astray whose ports these are.
fn count_among(ports: &mut Ports, bytes: &[u8]) -> io::Result<u64> {
    let mut count = 0u64;
    for pair in bytes.chunks_exact(2) {
        if let [high, low] = pair {
            let remote = u16::from_be_bytes([*high, *low]);
            if route(ports, Dir::In, remote, 3)? == Route::Stray {
                count = count.saturating_add(1);
            }
        }
    }
    Ok(count)
}

/// Where a datagram belongs, by its port at the other side.
fn route(ports: &mut Ports, dir: Dir, remote: u16, opcode: u16) -> io::Result<Route> {
    match ports.class(dir, 40_000, &Host::none(), remote, opcode) {
        Ok(route) => Ok(route),
        Err(PortFault::Memory) => Err(io::Error::from(ErrorKind::OutOfMemory)),
        Err(_) => Err(io::Error::from(ErrorKind::InvalidData)),
    }
}
