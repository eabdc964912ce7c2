//! Where datagrams belong, by their ports and the other host, at both ends (RFC 1350, section 4).

use law_model::rules::PortRule;
use std::test::Fail;
use tests_wire::trials::comparing::is_so;
use tftp_ends::{PortFault, Ports, Route, says_unknown_id};
use tftp_packet::End;
use tftp_packet::hosts::{Dir, Host};

/// The faults that a datagram has by the rules of ports.
const FOREIGN: Result<Route, PortFault> = Err(PortFault::Broken(PortRule::Foreign));

const WRONG: Result<Route, PortFault> = Err(PortFault::Broken(PortRule::Wrong));

const BAD_ANSWER: Result<Route, PortFault> = Err(PortFault::Broken(PortRule::BadAnswer));

/// A datagram by its direction, its port at the named end, the other host, none that is named or this one of 10.0.0.0, the
/// port there and the opcode; and what is answered.
type Row = (Dir, u16, u8, u16, u16, Result<Route, PortFault>);

/// The host of a row.
fn host_of(which: u8) -> Option<Host> {
    if which == 0 {
        return Some(Host::none());
    }
    let digit = b'0'.saturating_add(which);
    Host::new(&[b'1', b'0', b'.', b'0', b'.', b'0', b'.', digit])
}

/// Asks where a datagram belongs, and again where a growth was refused: nothing may have changed.
fn class(
    ports: &mut Ports,
    (dir, local, host, remote, opcode): (Dir, u16, &Host, u16, u16),
) -> Result<Route, PortFault> {
    match ports.class(dir, local, host, remote, opcode) {
        Err(PortFault::Memory) => ports.class(dir, local, host, remote, opcode),
        answer => answer,
    }
}

/// Fails unless each datagram has its answer after those before it.
fn all_have_answers(ports: &mut Ports, rows: &[Row]) -> Result<(), Fail> {
    for (dir, local, host, remote, opcode, wanted) in rows {
        let Some(host) = host_of(*host) else {
            return Err(Fail::new("no host"));
        };
        let found = class(ports, (*dir, *local, &host, *remote, *opcode));
        is_so(found == *wanted, "another route")?;
    }
    Ok(())
}

/// Fails unless each datagram has its answer, the first one where nothing passed before.
fn answers(rt: &HostRuntime, end: End, service: u16, rows: &[Row]) -> Result<(), Fail> {
    let mut ports = Ports::new(rt.alloc(), end, service);
    all_have_answers(&mut ports, rows)
}

/// A read, a stray, and what answers it.
const WITH_A_STRAY: &[Row] = &[
    (Dir::Out, 40000, 0, 70, 1, WRONG),
    (Dir::Out, 40000, 0, 69, 1, Ok(Route::Request)),
    (Dir::In, 40000, 0, 41000, 3, Ok(Route::Peer)),
    (Dir::In, 40000, 0, 42000, 3, Ok(Route::Stray)),
    (Dir::Out, 40000, 0, 42000, 5, Ok(Route::StrayAnswer)),
    (Dir::Out, 40000, 0, 42000, 4, BAD_ANSWER),
];

/// Before the first request, before the server is known, and after.
const AT_A_CLIENT: &[Row] = &[
    (Dir::In, 40000, 0, 41000, 3, Ok(Route::Peer)),
    (Dir::Out, 40000, 0, 69, 4, Ok(Route::Peer)),
    (Dir::Out, 40000, 0, 70, 2, WRONG),
    (Dir::Out, 40000, 0, 69, 2, Ok(Route::Request)),
    (Dir::Out, 40001, 0, 69, 2, FOREIGN),
    (Dir::In, 40001, 0, 44000, 4, FOREIGN),
    (Dir::Out, 40000, 0, 69, 2, Ok(Route::Request)),
    (Dir::Out, 40000, 0, 70, 2, WRONG),
    (Dir::Out, 40000, 0, 41000, 3, WRONG),
    (Dir::In, 40000, 0, 41001, 4, Ok(Route::Peer)),
    (Dir::Out, 40000, 0, 41001, 3, Ok(Route::Peer)),
    (Dir::In, 40000, 0, 41001, 1, Ok(Route::Peer)),
    (Dir::Out, 40000, 0, 42000, 5, WRONG),
    (Dir::In, 40000, 0, 42000, 1, Ok(Route::Stray)),
    (Dir::In, 40000, 0, 41001, 4, Ok(Route::Peer)),
    (Dir::In, 40000, 0, 42000, 4, Ok(Route::Stray)),
    (Dir::Out, 40000, 0, 42000, 5, Ok(Route::StrayAnswer)),
    (Dir::Out, 40000, 0, 42000, 0, BAD_ANSWER),
    (Dir::Out, 40000, 0, 42000, 1, WRONG),
    (Dir::Out, 40000, 0, 44000, 5, WRONG),
    (Dir::Out, 40000, 0, 41000, 3, WRONG),
    (Dir::Out, 40000, 0, 41001, 5, Ok(Route::Peer)),
    (Dir::Out, 40000, 0, 69, 1, Ok(Route::Request)),
];

/// Before the first request, before the server's own port is known, and after.
const AT_A_SERVER: &[Row] = &[
    (Dir::Out, 3000, 0, 2000, 3, Ok(Route::Peer)),
    (Dir::In, 6970, 0, 2000, 1, WRONG),
    (Dir::In, 6969, 0, 2000, 4, Ok(Route::Peer)),
    (Dir::In, 6969, 0, 2000, 1, Ok(Route::Request)),
    (Dir::In, 6969, 0, 2000, 2, Ok(Route::Request)),
    (Dir::In, 6969, 0, 2001, 1, FOREIGN),
    (Dir::In, 6969, 0, 2000, 4, WRONG),
    (Dir::In, 6969, 0, 2001, 4, FOREIGN),
    (Dir::In, 3001, 0, 2000, 4, FOREIGN),
    (Dir::Out, 3001, 0, 2001, 3, WRONG),
    (Dir::Out, 3001, 0, 2000, 3, Ok(Route::Peer)),
    (Dir::Out, 3000, 0, 2000, 3, FOREIGN),
    (Dir::In, 3001, 0, 2000, 4, Ok(Route::Peer)),
    (Dir::In, 3001, 0, 2000, 1, WRONG),
    (Dir::In, 6969, 0, 2000, 1, Ok(Route::Request)),
    (Dir::In, 6969, 0, 2001, 1, FOREIGN),
    (Dir::In, 6969, 0, 2000, 4, WRONG),
    (Dir::In, 6969, 0, 2001, 4, FOREIGN),
    (Dir::In, 3000, 0, 2000, 4, FOREIGN),
    (Dir::Out, 3001, 0, 2002, 5, WRONG),
    (Dir::In, 3001, 0, 2002, 1, Ok(Route::Stray)),
    (Dir::In, 3001, 0, 2002, 4, Ok(Route::Stray)),
    (Dir::Out, 3001, 0, 2002, 5, Ok(Route::StrayAnswer)),
    (Dir::Out, 3001, 0, 2002, 1, BAD_ANSWER),
    (Dir::Out, 3001, 0, 2001, 5, WRONG),
    (Dir::Out, 3001, 0, 2000, 3, Ok(Route::Peer)),
    (Dir::In, 3001, 0, 2000, 5, Ok(Route::Peer)),
];

/// A server that answers from its service port.
const AT_THE_SERVICE_PORT: &[Row] = &[
    (Dir::In, 69, 0, 2000, 1, Ok(Route::Request)),
    (Dir::Out, 69, 0, 2000, 3, Ok(Route::Peer)),
    (Dir::In, 69, 0, 2000, 1, Ok(Route::Request)),
    (Dir::In, 69, 0, 2000, 4, Ok(Route::Peer)),
    (Dir::In, 69, 0, 2001, 1, FOREIGN),
    (Dir::Out, 69, 0, 2001, 5, WRONG),
    (Dir::In, 69, 0, 2001, 4, Ok(Route::Stray)),
    (Dir::Out, 69, 0, 2001, 5, Ok(Route::StrayAnswer)),
    (Dir::Out, 70, 0, 2000, 3, FOREIGN),
];

/// A stray from another host at the server's port, and a request to another host.
const HOSTS_AT_A_CLIENT: &[Row] = &[
    (Dir::Out, 40000, 1, 69, 1, Ok(Route::Request)),
    (Dir::Out, 40000, 2, 69, 1, WRONG),
    (Dir::In, 40000, 1, 41000, 3, Ok(Route::Peer)),
    (Dir::In, 40000, 9, 41000, 3, Ok(Route::Stray)),
    (Dir::Out, 40000, 9, 41000, 5, Ok(Route::StrayAnswer)),
    (Dir::Out, 40000, 9, 41000, 4, BAD_ANSWER),
    (Dir::Out, 40000, 8, 41000, 5, WRONG),
    (Dir::Out, 40000, 1, 41000, 4, Ok(Route::Peer)),
];

/// A server that answers from another host than the one asked.
const ANOTHER_HOST_ANSWERS: &[Row] = &[
    (Dir::Out, 40000, 1, 69, 1, Ok(Route::Request)),
    (Dir::In, 40000, 2, 41000, 3, Ok(Route::Peer)),
    (Dir::Out, 40000, 1, 41000, 4, WRONG),
    (Dir::Out, 40000, 2, 41000, 4, Ok(Route::Peer)),
    (Dir::Out, 40000, 1, 69, 1, Ok(Route::Request)),
];

/// Two hosts with one port.
const HOSTS_AT_A_SERVER: &[Row] = &[
    (Dir::In, 69, 1, 2000, 1, Ok(Route::Request)),
    (Dir::In, 69, 2, 2000, 1, FOREIGN),
    (Dir::Out, 3000, 2, 2000, 3, WRONG),
    (Dir::Out, 3000, 1, 2000, 3, Ok(Route::Peer)),
    (Dir::In, 3000, 2, 2000, 4, Ok(Route::Stray)),
    (Dir::Out, 3000, 2, 2000, 5, Ok(Route::StrayAnswer)),
    (Dir::Out, 3000, 3, 2000, 5, WRONG),
    (Dir::In, 3000, 1, 2000, 4, Ok(Route::Peer)),
    (Dir::In, 69, 2, 2000, 1, FOREIGN),
];

/// The end, its service port, and what passes there.
const ROWS: &[(End, u16, &[Row])] = &[
    (End::Client, 69, WITH_A_STRAY),
    (End::Client, 69, AT_A_CLIENT),
    (End::Server, 6969, AT_A_SERVER),
    (End::Server, 69, AT_THE_SERVICE_PORT),
    (End::Client, 69, HOSTS_AT_A_CLIENT),
    (End::Client, 69, ANOTHER_HOST_ANSWERS),
    (End::Server, 69, HOSTS_AT_A_SERVER),
];

#[test]
fn datagrams_belong_where_their_ports_say(rt: HostRuntime) -> Result<(), Fail> {
    for (end, service, rows) in ROWS {
        answers(&rt, *end, *service, rows)?;
    }
    is_so(says_unknown_id(b"\0\x05\0\x05\0"), "ERROR 5")
}

/// A client that was answered.
const ANSWERED: &[Row] = &[
    (Dir::Out, 40000, 0, 69, 1, Ok(Route::Request)),
    (Dir::In, 40000, 0, 65535, 3, Ok(Route::Peer)),
];

/// The answer again, and what would answer a host that was not heard of.
const STILL: &[Row] = &[
    (Dir::In, 40000, 0, 65535, 3, Ok(Route::Peer)),
    (Dir::Out, 40000, 1, 1, 5, WRONG),
];

/// Fails unless a datagram of each port below the server's has this answer, the highest first.
fn all_have(
    ports: &mut Ports,
    dir: Dir,
    opcode: u16,
    wanted: Result<Route, PortFault>,
) -> Result<(), Fail> {
    let host = Host::none();
    for below in 1..65535u16 {
        let found = class(ports, (dir, 40000, &host, 65535 - below, opcode));
        is_so(found == wanted, "another stray")?;
    }
    Ok(())
}

/// Fails unless each stray is noted, may come again, and may be answered.
fn notes_each(ports: &mut Ports) -> Result<(), Fail> {
    all_have_answers(ports, ANSWERED)?;
    all_have(ports, Dir::In, 3, Ok(Route::Stray))?;
    all_have(ports, Dir::In, 3, Ok(Route::Stray))?;
    all_have(ports, Dir::Out, 5, Ok(Route::StrayAnswer))?;
    all_have_answers(ports, STILL)
}

#[test]
fn client_notes_each_stray(rt: HostRuntime) -> Result<(), Fail> {
    let mut ports = Ports::new(rt.alloc(), End::Client, 69);
    notes_each(&mut ports)
}
