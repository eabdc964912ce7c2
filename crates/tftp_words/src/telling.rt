//! The words that a program is given, and what it tells of such as ask for nothing.

use crate::words::WordsFault;
use std::{env, io};

/// The words of the command line, the first of which is the program's name; none where they can't be had.
pub fn own_words(rt: HostRuntime) -> Option<Vec<String>> {
    let words = env::args(&rt).ok()?;
    words.collect::<Vec<String>>(rt.alloc()).ok()
}

/// Prints the text that was asked for, or tells what is wrong with the words, and answers the status.
pub fn tell_fault(rt: HostRuntime, program: &str, fault: &WordsFault) -> io::Result<u8> {
    match fault {
        WordsFault::Asked(text) => {
            print!(rt; "{text}")?;
            Ok(0)
        }
        WordsFault::Wrong(text) => {
            eprint!(rt; "{text}")?;
            Ok(2)
        }
        WordsFault::Memory => {
            eprintln!(rt; "{program}: out of memory")?;
            Ok(2)
        }
    }
}
