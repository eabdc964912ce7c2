//! What is told where the recorder lost packets, and where the reading stopped.

ghost use Rattle.std.specs.Prelude.{◌≡◌, ◌++◌, IfOk, OnOk, map, string_bytes};
ghost use Rattle.audit_recording.specs.Session.Lines.{dropped_line, dropped_lines, fault_line, fault_words};

use crate::session::plain::put_number;
use net_pcap::{FaultKind, PcapFault};
use std::alloc::{AllocError, Global};

/// Adds how many packets the recorder lost, if any.
pub(crate) fn put_dropped(
    alloc: Global,
    lines: &mut Vec<String>,
    count: u64,
) -> Result<(), AllocError>
    ensures { OnOk result (map string_bytes lines.new.items ≡ map string_bytes lines.old.items ++ dropped_lines count) }
{
    if count == 0 {
        return Ok(());
    }
    lines.push(dropped_line(alloc, count)?)?;
    Ok(())
}

fn dropped_line(alloc: Global, count: u64) -> Result<String, AllocError>
    ensures { IfOk result (λ line. string_bytes line ≡ dropped_line count) }
{
    let mut line = String::from_str(alloc, "the recorder lost ")?;
    put_number(&mut line, count)?;
    line.push_str(if count == 1 { " packet" } else { " packets" })?;
    line.push_str(", so that datagrams may be missing")?;
    Ok(line)
}

/// At which frame the reading stopped, and why.
pub(crate) fn fault_line(alloc: Global, fault: &PcapFault) -> Result<String, AllocError>
    ensures { IfOk result (λ line. string_bytes line ≡ fault_line fault.now) }
{
    let mut line = String::from_str(alloc, "frame ")?;
    put_number(&mut line, fault.frame)?;
    line.push_str(": ")?;
    line.push_str(words_of(fault.kind))?;
    Ok(line)
}

/// What a fault says, as the error does.
fn words_of(kind: FaultKind) -> &'static str
    ensures { result.now ≡ fault_words kind }
{
    match kind {
        FaultKind::NotARecording => "no recording",
        FaultKind::Truncated => "the recording is cut",
        FaultKind::Bad => "a wrong header or block",
        FaultKind::TooLong => "a frame or a block that is too long",
        FaultKind::TooMany => "too many records or blocks",
        FaultKind::Read => "a read failed",
        FaultKind::Memory => "out of memory",
    }
}
