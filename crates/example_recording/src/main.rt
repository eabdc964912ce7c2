//! Lists the UDP datagrams of the recording on standard input, a line each: its frame, from where it came, to where it
//! went, and how many bytes it carries.
#![tactic(auto)]

use anyhow::Result;
use net_streams::streams::Latched;
use net_udp::recording::{Event, Fate, RecordingReader};
use std::io::Read;
use std::process::ExitCode;

/// Ends with status 2, and tells why on standard error, where the recording was not read to its end.
fn main(rt: HostRuntime) -> ExitCode {
    match list(rt) {
        Ok(()) => ExitCode::SUCCESS,
        Err(fault) => {
            // where standard error fails too, the status alone tells it
            let _ = eprintln!(rt; "{fault}");
            ExitCode::from(2)
        }
    }
}

/// Lists the datagrams to the recording's end, or to its fault.
fn list(rt: HostRuntime) -> Result<()> {
    let mut reader = Latched::new(rt.reader());
    let mut recording = RecordingReader::begin(rt.alloc(), &mut reader)?;
    let mut event = Event::empty(rt.alloc());
    for _ in 0..u64::MAX {
        if !list_next(rt, &mut reader, &mut recording, &mut event)? {
            break;
        }
    }
    Ok(())
}

/// Reads a frame and lists the datagram that it brought, if any; whether there was a frame.
fn list_next<R: Read>(
    rt: HostRuntime,
    reader: &mut Latched<R>,
    recording: &mut RecordingReader,
    event: &mut Event,
) -> Result<bool> {
    if !recording.next_into(rt.alloc(), reader, event)? {
        return Ok(false);
    }
    if let Fate::Datagram(it) = event.fate() {
        let (frame, length) = (event.number(), it.payload.len());
        print!(rt; "{frame}: {} port {} to ", it.source, it.source_port)?;
        println!(rt; "{} port {}, {length} bytes", it.target, it.target_port)?;
    }
    Ok(true)
}
