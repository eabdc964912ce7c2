//! What clap knows of the command line of `tftp-match`: its help, and what it says of words that ask for no match.

use crate::args;
use crate::help::VERSION;
use clap::{Arg, ArgAction, Command, value_parser};
use std::alloc::{AllocError, Global};

const TRANSFER: &str = "The number of the transfer in the recording; of two, in the client's";

const SERVER_TRANSFER: &str = "The number of the transfer in the server's recording";

const ABOUT: &str = "Whether one run of a TFTP client and a server has both captures of a transfer";

const AFTER: &str =
    "CLIENT and SERVER are capture texts or recordings, pcap or pcapng; one of them may be - for standard input.\nOf a recording the transfer is taken that is named, or that has the request of the other side; where several have it, the\npair that alone is matched, of 64 at most.\nThe first two lines are the verdicts on each alone; the third is one of\n  matched lost N repeated M\n  unmatched client datagram I WHY server datagram J WHY\nN copies at least were lost, and M made on the way. An unmatched pair is told with the first datagram of each that no run has beside what stands before both, or - where there is none.\nWHY is unsent where the other side never sent what came in, waits where it sent it behind what waits itself, and\nis left out where the datagram is refused, or where the other side is not judged to its end and may have sent it later.\nWith --counts a line follows for each packet, as in\n  server DATA 3 sent 2 taken 1\n\nStatus: 0 where they are matched; 1 where they are not; 2 where something could not be read or judged.";

/// The number of a transfer.
fn transfer<'a>(alloc: Global, name: &'a str, help: &'a str) -> Arg<'a> {
    Arg::new(alloc, name)
        .long(name)
        .value_name("N")
        .value_parser(value_parser!(u64).range(1..))
        .help(help)
}

fn counts<'a>(alloc: Global) -> Arg<'a> {
    Arg::new(alloc, "counts")
        .long("counts")
        .action(ArgAction::SetTrue)
        .help("How often each packet was sent at one end and taken at the other")
}

fn rollover<'a>(alloc: Global) -> Arg<'a> {
    Arg::new(alloc, "rollover")
        .long("rollover")
        .value_name("N")
        .value_parser(value_parser!(u64).range(..=1))
        .help("The block number that comes after 65535, where numbers begin again: 0 or 1")
}

/// A capture.
fn capture<'a>(alloc: Global, name: &'a str, value: &'a str, help: &'a str) -> Arg<'a> {
    Arg::new(alloc, name)
        .value_name(value)
        .required(true)
        .help(help)
}

/// The command line with its help.
pub fn match_command_line<'a>(alloc: Global) -> Result<Command<'a>, AllocError> {
    Command::new(alloc, "tftp-match")
        .version(VERSION)
        .about(ABOUT)
        .after_help(AFTER)
        .arg(transfer(alloc, "transfer", TRANSFER))?
        .arg(transfer(alloc, "server-transfer", SERVER_TRANSFER))?
        .arg(args::service(alloc))?
        .arg(rollover(alloc))?
        .arg(counts(alloc))?
        .arg(args::json(alloc, "One JSON object"))?
        .arg(capture(alloc, "client", "CLIENT", "The capture at the client"))?
        .arg(capture(alloc, "server", "SERVER", "The capture at the server"))
}
