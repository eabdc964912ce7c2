//! What a program on recordings tells on standard error, after its own name.

use anyhow::Result;
use std::process::ExitCode;

/// The status with which a program ends: that of its answer, or 2 where that is an error, which is told.
pub fn ended(rt: HostRuntime, program: &str, answer: Result<u8>) -> ExitCode {
    match answer {
        Ok(status) => ExitCode::from(status),
        Err(error) => {
            // where standard error fails too, the status alone tells it
            let _ = eprintln!(rt; "{program}: {error}");
            ExitCode::from(2)
        }
    }
}

/// What a result has; none where that is an error, which is told with the file that has it.
pub fn told<T>(
    rt: HostRuntime,
    program: &str,
    file: &str,
    outcome: Result<T>,
) -> Result<Option<T>> {
    match outcome {
        Ok(value) => Ok(Some(value)),
        Err(error) => {
            eprintln!(rt; "{program}: {file}: {error}")?;
            Ok(None)
        }
    }
}
