//! What clap knows of the command line of `tftp-transfers`: its help, and what it says of words that ask for nothing.

use crate::args;
use clap::{Arg, ArgAction, Command, value_parser};
use std::alloc::{AllocError, Global};

static ENDS: [&str; 2] = ["client", "server"];

static ROLLOVERS: [&str; 2] = ["0", "1"];

static POINTS: [&str; 3] = ["client", "server", "between"];

/// The version that the programs on recordings tell.
pub const VERSION: &str = "0.2.0";

const JSON: &str = "A JSON object a line";

const ABOUT: &str =
    "From a recording to its TFTP transfers, their capture texts and their verdicts";

const AFTER: &str =
    "FILE is a recording, pcap or pcapng; - is standard input.\n`list` may be left out, and `check` may be written --check.\n`extract DIR FILE` writes the files of accepted transfers, where tftp-extract is installed or in a checkout.\n\nStatus: 0; with check 1 where a transfer is not accepted; 2 where something could not be read or judged.";

/// A word that is no option and has to be there.
fn word<'a>(alloc: Global, name: &'a str, value: &'a str, help: &'a str) -> Arg<'a> {
    Arg::new(alloc, name)
        .value_name(value)
        .required(true)
        .help(help)
}

fn file<'a>(alloc: Global) -> Arg<'a> {
    word(alloc, "file", "FILE", "The recording")
}

/// The arguments of `list`.
fn list_args<'a>(alloc: Global) -> Result<Vec<Arg<'a>>, AllocError> {
    Ok(vec![in alloc; args::service(alloc), args::json(alloc, JSON), file(alloc)]?)
}

fn list<'a>(alloc: Global) -> Result<Command<'a>, AllocError> {
    let args = list_args(alloc)?;
    Command::new(alloc, "list")
        .about("The transfers, a line each")
        .args(args)
}

fn number<'a>(alloc: Global) -> Arg<'a> {
    word(alloc, "number", "N", "The number of the transfer, from 1").value_parser(value_parser!(
        u64
    ).range(1..))
}

fn end<'a>(alloc: Global) -> Arg<'a> {
    word(alloc, "end", "END", "The end of the transfer").value_parser(ENDS.as_slice())
}

/// The arguments of `text`.
fn text_args<'a>(alloc: Global) -> Result<Vec<Arg<'a>>, AllocError> {
    Ok(vec![in alloc;
        args::service(alloc),
        number(alloc),
        end(alloc),
        file(alloc),
    ]?)
}

fn text<'a>(alloc: Global) -> Result<Command<'a>, AllocError> {
    let args = text_args(alloc)?;
    Command::new(alloc, "text")
        .about("The capture text of transfer N at an end")
        .args(args)
}

fn texts<'a>(alloc: Global) -> Result<Command<'a>, AllocError> {
    let args = vec![in alloc; args::service(alloc), end(alloc), file(alloc)]?;
    Command::new(alloc, "texts")
        .about("The capture texts of all transfers at an end, one after the other")
        .args(args)
}

const POINT: &str = "Where the recordings were made: at an end, or between the two";

fn point<'a>(alloc: Global) -> Arg<'a> {
    args::option(alloc, "end", "END", POINT).value_parser(POINTS.as_slice())
}

const ROLLOVER: &str = "Block numbers begin again with this after 65535; wants --end";

fn rollover<'a>(alloc: Global) -> Arg<'a> {
    args::option(alloc, "rollover", "NUMBER", ROLLOVER).value_parser(ROLLOVERS.as_slice())
}

fn files<'a>(alloc: Global) -> Arg<'a> {
    word(alloc, "file", "FILE", "The recordings")
        .action(ArgAction::Append)
        .num_args(1..)
}

/// The arguments of `check`.
fn check_args<'a>(alloc: Global) -> Result<Vec<Arg<'a>>, AllocError> {
    let (service, json) = (args::service(alloc), args::json(alloc, JSON));
    Ok(vec![in alloc; point(alloc), rollover(alloc), service, json, files(alloc)]?)
}

fn check<'a>(alloc: Global) -> Result<Command<'a>, AllocError> {
    let args = check_args(alloc)?;
    Command::new(alloc, "check")
        .about("The verdict on each transfer")
        .args(args)?
        .alias("--check")
}

/// The words that stand before each subcommand's, and those of `list` where it is left out.
fn plain<'a>(alloc: Global) -> Result<Command<'a>, AllocError> {
    let args = list_args(alloc)?;
    Command::new(alloc, "tftp-transfers")
        .version(VERSION)
        .about(ABOUT)
        .after_help(AFTER)
        .args_conflicts_with_subcommands(true)
        .args(args)
}

/// A command with a subcommand, where memory sufficed for it.
fn with<'a>(
    command: Command<'a>,
    subcommand: Result<Command<'a>, AllocError>,
) -> Result<Command<'a>, AllocError> {
    command.subcommand(subcommand?)
}

/// The command line with its help.
pub fn command_line<'a>(alloc: Global) -> Result<Command<'a>, AllocError> {
    let command = with(plain(alloc)?, list(alloc))?;
    let command = with(command, text(alloc))?;
    let command = with(command, texts(alloc))?;
    with(command, check(alloc))
}
