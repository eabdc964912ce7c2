//! Lists the UDP datagrams of a recording on standard input, and the frames that are none, a line each: what the tests
//! compare with the fields that other programs read.

use net_pcap::{Direction, PcapFault};
use net_streams::streams::Latched;
use net_udp::fragments::Fragments;
use net_udp::recording::{Checksum, Datagram, Event, Fate, LeftOut, RecordingReader};
use std::alloc::Global;
use std::io;
use std::net::IpAddr;

/// Lists what a recording has; whether it is one to its end.
pub fn list(rt: HostRuntime) -> io::Result<bool> {
    let alloc = rt.alloc();
    let mut reader = Latched::new(rt.reader());
    let mut recording = match RecordingReader::begin(alloc, &mut reader) {
        Ok(recording) => recording,
        Err(fault) => return put_fault(rt, fault),
    };
    let mut event = Event::empty(alloc);
    for _ in 0..u64::MAX {
        match recording.next_into(alloc, &mut reader, &mut event) {
            Ok(true) => put_event(rt, &mut event)?,
            Ok(false) => {
                put_end(rt, recording)?;
                return Ok(true);
            }
            Err(fault) => {
                put_end(rt, recording)?;
                return put_fault(rt, fault);
            }
        }
    }
    Ok(true)
}

/// What is told at the end of a recording: how many packets were lost, and the fragments that wait for others.
fn put_end(rt: HostRuntime, recording: RecordingReader) -> io::Result<()> {
    put_lost(rt, recording.lost())?;
    put_waiting(rt, recording.into_waiting(), "FragmentMissing")
}

/// A fault, and that there is one.
fn put_fault(rt: HostRuntime, fault: PcapFault) -> io::Result<bool> {
    println!(rt; "fault {} {:?}", fault.frame, fault.kind)?;
    Ok(false)
}

/// How many packets the recorder says it lost, if any.
fn put_lost(rt: HostRuntime, count: u64) -> io::Result<()> {
    if count == 0 {
        return Ok(());
    }
    println!(rt; "lost {count}")
}

/// The frames of fragments that are left out, which are let go in this place alone, since that is dear to prove.
fn put_waiting(rt: HostRuntime, mut waiting: Fragments, kind: &str) -> io::Result<()> {
    put_each(rt, &mut waiting, kind)
}

/// The frames of each packet that waits.
fn put_each(rt: HostRuntime, waiting: &mut Fragments, kind: &str) -> io::Result<()> {
    for _ in 0..u64::MAX {
        let Some((_, frames)) = waiting.let_go_any() else {
            return Ok(());
        };
        put_left(rt, frames.as_slice(), kind)?;
    }
    Ok(())
}

/// Frames that are left out.
fn put_left(rt: HostRuntime, frames: &[u64], kind: &str) -> io::Result<()> {
    for frame in frames {
        println!(rt; "left {frame} {kind}")?;
    }
    Ok(())
}

/// What became of a frame, and of which frames it decided.
fn put_event(rt: HostRuntime, event: &mut Event) -> io::Result<()> {
    if event.has_error() {
        println!(rt; "damaged {}", event.number())?;
    }
    put_left(rt, event.old(), "FragmentOld")?;
    put_waiting(rt, event.take_ousted(rt.alloc()), "FragmentFull")?;
    put_fate(rt, event)
}

/// What became of a frame.
fn put_fate(rt: HostRuntime, event: &Event) -> io::Result<()> {
    match event.fate() {
        Fate::Datagram(datagram) => {
            put_checksum(rt, event)?;
            put_datagram(rt, event, &datagram)
        }
        Fate::Left(why) => put_left_out(rt, event, why),
        Fate::Waits => Ok(()),
        Fate::Discarded(_) => {
            put_checksum(rt, event)?;
            put_shared(rt, event, "Discarded")
        }
    }
}

/// A frame that is left out, and those that share its fate.
fn put_left_out(rt: HostRuntime, event: &Event, why: LeftOut) -> io::Result<()> {
    match why {
        LeftOut::Frame(fault) => {
            let kind = format!(in rt.alloc(); "{fault:?}")?;
            put_shared(rt, event, kind.as_str())?;
            put_unread(rt, event)
        }
        LeftOut::Udp(fault) => {
            let kind = format!(in rt.alloc(); "{fault:?}")?;
            put_shared(rt, event, kind.as_str())
        }
        LeftOut::Apart => {
            put_left(rt, event.sharers(), "FragmentsApart")?;
            put_frame(rt, event, "FragmentsApart")
        }
        LeftOut::Empty => put_frame(rt, event, "FragmentEmpty"),
        LeftOut::TooLong => put_frame(rt, event, "FragmentTooLong"),
        LeftOut::Full => put_frame(rt, event, "FragmentFull"),
        LeftOut::Copy => put_frame(rt, event, "Copy"),
    }
}

/// A frame that is left out, alone.
fn put_frame(rt: HostRuntime, event: &Event, kind: &str) -> io::Result<()> {
    put_left(rt, &[event.number()], kind)
}

/// The name of the header at which the reading of a frame ends, if it has one.
fn put_unread(rt: HostRuntime, event: &Event) -> io::Result<()> {
    match event.unread_header() {
        Some(header) => println!(rt; "unread {} {}", event.number(), header.name()),
        None => Ok(()),
    }
}

/// A frame that is left out, or those of the packet that it made whole.
fn put_shared(rt: HostRuntime, event: &Event, kind: &str) -> io::Result<()> {
    if event.sharers().is_empty() {
        put_frame(rt, event, kind)
    } else {
        put_left(rt, event.sharers(), kind)
    }
}

/// What the checksums of a datagram say, unless they are right.
fn put_checksum(rt: HostRuntime, event: &Event) -> io::Result<()> {
    let word = match event.checksum() {
        Checksum::Right => return Ok(()),
        Checksum::Absent => "absent",
        Checksum::Partial => "partial",
        Checksum::Wrong => "wrong",
    };
    println!(rt; "checksum {} {word}", event.number())
}

/// A datagram.
fn put_datagram(rt: HostRuntime, event: &Event, datagram: &Datagram<'_>) -> io::Result<()> {
    put_time(rt, event)?;
    print!(rt; " {} ", word_of(datagram.direction))?;
    put_endpoint(rt, &datagram.source, datagram.source_port)?;
    put_endpoint(rt, &datagram.target, datagram.target_port)?;
    put_payload(rt, datagram.payload)
}

/// The number of a datagram's frame and its time, or `-` where it has none.
fn put_time(rt: HostRuntime, event: &Event) -> io::Result<()> {
    let number = event.number();
    match event.time() {
        Some(time) => print!(rt; "datagram {number} {time}"),
        None => print!(rt; "datagram {number} -"),
    }
}

/// An address and a port, each with a space behind it.
fn put_endpoint(rt: HostRuntime, address: &IpAddr, port: u16) -> io::Result<()> {
    print!(rt; "{address} {port} ")
}

/// The digits of a payload, or `-` where it is empty, and the end of the line.
fn put_payload(rt: HostRuntime, payload: &[u8]) -> io::Result<()> {
    if payload.is_empty() {
        return println!(rt; "-");
    }
    let digits = hex::encode(rt.alloc(), payload)?;
    println!(rt; "{digits}")
}

/// The word of a direction.
fn word_of(direction: Direction) -> &'static str {
    match direction {
        Direction::In => "in",
        Direction::Out => "out",
        Direction::Unknown => "unknown",
    }
}
