//! What the tests and the benchmark ask of the libraries alone: `places` and `datagrams` list what a recording has, and the
//! other words each name a work to be measured.
#![tactic(auto)]

mod datagrams;
mod places;
mod stores;
mod strays;
mod works;

use crate::works::work;
use std::process::ExitCode;
use std::{env, io};

/// Ends with status 0 where all that the first word asks for was done, and else with 2.
fn main(rt: HostRuntime) -> ExitCode {
    match answer(rt) {
        Ok(true) => ExitCode::SUCCESS,
        _ => ExitCode::from(2),
    }
}

/// Does what the first word asks for, and says whether all of it was done.
fn answer(rt: HostRuntime) -> io::Result<bool> {
    let words = env::args(&rt)?.collect::<Vec<String>>(rt.alloc())?;
    let [_, word] = words.as_slice() else {
        return Ok(false);
    };
    match word.as_str() {
        "datagrams" => datagrams::list(rt),
        "places" => Ok(places::list(rt).is_ok()),
        other => {
            work(rt, other)?;
            Ok(true)
        }
    }
}
