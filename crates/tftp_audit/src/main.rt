//! Audits a text capture of one TFTP transfer.
#![tactic(auto)]

use net_streams::streams::{Latched, LineWriter};
use std::process::ExitCode;
use std::{env, io};
use tftp_commands::{asks_for_losses, check_with_losses, run};

/// Ends with status 2, and no output, where it can't get its words.
fn main(rt: HostRuntime) -> ExitCode {
    let Ok(words) = env::args(&rt) else {
        return ExitCode::from(2);
    };
    let Ok(words) = words.collect::<Vec<String>>(rt.alloc()) else {
        return ExitCode::from(2);
    };
    let words = words.as_slice();
    let mut reader = Latched::new(rt.reader());
    let mut writer = LineWriter::new(rt.alloc(), io::writer(&rt));
    let status = if asks_for_losses(words) {
        check_with_losses(rt.alloc(), &mut reader, &mut writer)
    } else {
        run(rt.alloc(), words, &mut reader, &mut writer)
    };
    ExitCode::from(status.code())
}
