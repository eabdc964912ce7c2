//! What clap knows of the arguments that the programs on recordings share.

use clap::{Arg, ArgAction, value_parser};
use std::alloc::Global;

/// An option that has a value.
pub(crate) fn option<'a>(alloc: Global, name: &'a str, value: &'a str, help: &'a str) -> Arg<'a> {
    Arg::new(alloc, name)
        .long(name)
        .value_name(value)
        .help(help)
}

const SERVICE: &str = "A port to which requests go, beside 69; may be given several times";

/// The port of a service, which may be given several times.
pub fn service<'a>(alloc: Global) -> Arg<'a> {
    option(alloc, "service", "PORT", SERVICE)
        .action(ArgAction::Append)
        .value_parser(value_parser!(u16).range(1..))
}

/// Whether JSON is wanted, of which this is the help.
pub fn json<'a>(alloc: Global, help: &'a str) -> Arg<'a> {
    Arg::new(alloc, "json")
        .long("json")
        .action(ArgAction::SetTrue)
        .help(help)
}
