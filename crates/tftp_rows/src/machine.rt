//! The files of the machine, and its standard input.

ghost use Rattle.std.specs.Prelude.{codes, refl};
ghost use Rattle.std.specs.Str.{bytes_eq};

use crate::files::Outside;
use anyhow::{Error, Result};
use std::fs::File;
use std::io::{Read, StdinLock};
use std::{fs, io};

/// What reads a file, or standard input.
#[derive(Drop)]
pub enum Source {
    /// Standard input.
    Input(StdinLock<'static>),
    /// A file.
    File(File),
}

impl Read for Source {
    fn read(&mut self, buf: &mut [u8]) -> io::Result<usize> {
        match self {
            Source::Input(input) => input.read(buf),
            Source::File(file) => file.read(buf),
        }
    }
}

/// The machine on which the program runs.
#[derive(Drop)]
pub struct Machine {
    rt: HostRuntime,
}

impl Machine {
    /// By this runtime.
    pub fn new(rt: HostRuntime) -> Self {
        Machine { rt }
    }
}

impl Outside for Machine {
    type Reader = Source;

    type Fault = Error;

    // `-` is standard input, which always opens
    ghost opens = { λ machine name. bytes_eq name (codes "-") };

    fn open(&self, name: &str) -> Result<Source> {
        if name == "-" {
            return Ok(Source::Input(self.rt.reader()));
        }
        Ok(Source::File(fs::open(&self.rt, name)?))
    }

    ghost is_worded = { λ fault. refl };
}
