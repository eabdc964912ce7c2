ghost use Rattle.std.specs.Prelude.{◌≡◌, ◌≢◌, map, true, Some, IfOk, IfErr, IfSome, ◌⊎◌};
ghost use Rattle.clap.specs.Words.{kind_of, takes};
ghost use Rattle.tftp_commands.specs.Words.{audit_app, digit_of, memory_fault, name_of, rollover_of, IsCommand};

use clap::error::ErrorKind;
use clap::{ArgMatches, Command, Error};
use std::alloc::Global;
use std::convert::AsStr;
use tftp_packet::rounds::Rollover;

/// What the program is asked for.
#[derive(Clone, Copy, Debug, PartialEq, Eq)]
pub enum Action {
    /// Judge a capture, by what comes after block 65535 where anything does, and say the verdict.
    Check(Option<Rollover>),
    /// Write the file of a capture.
    Extract(Option<Rollover>),
    /// Write the normal text of a capture.
    Normal(Option<Rollover>),
    /// Say what datagrams a capture has, and which blocks.
    Show(Option<Rollover>),
    /// Say how many datagrams the normal capture of a capture has.
    Count(Option<Rollover>),
}

/// Why a command line names no command.
#[derive(Clone, Copy, Debug, PartialEq, Eq)]
pub enum UsageFault {
    /// The words are not the program's name and a command's, a call for help included.
    Usage,
    /// The parse found no memory.
    Memory,
    /// The parse found no memory, and the words ask for a file or a normal text, beside which nothing is said.
    Silent,
}

fn parsed<'a, S: AsStr>(alloc: Global, words: &'a [S]) -> Result<ArgMatches<'a>, Error>
    ensures passes { IfErr result (λ e. takes audit_app (map S.text words.entry.now) ≡ true → kind_of e ≡ ErrorKind.OutOfMemory) }
{
    let command = Command::new(alloc, "tftp-audit")
        .subcommand(Command::new(alloc, "check"))?
        .subcommand(Command::new(alloc, "extract"))?
        .subcommand(Command::new(alloc, "normal"))?
        .subcommand(Command::new(alloc, "show"))?
        .subcommand(Command::new(alloc, "count"))?;
    command.try_get_matches_from(words)
}

/// The command that the words name, the first of which is the program's name. Words that name none are not parsed: whatever
/// the memory does, they are a usage fault.
pub fn action_of<S: AsStr>(alloc: Global, words: &[S]) -> Result<Action, UsageFault>
    ensures ok { IfOk result (λ a. IsCommand a (map S.text words.now)) }
    ensures only { (a : Action) → IsCommand a (map S.text words.now) → (result ≡ Ok a) ⊎ (result ≡ Err (memory_fault a)) }
    ensures loud { result ≡ Err UsageFault.Memory → (a : Action) × IsCommand a (map S.text words.now) × (memory_fault a ≡ UsageFault.Memory) }
    ensures quiet { result ≡ Err UsageFault.Silent → (a : Action) × IsCommand a (map S.text words.now) × (memory_fault a ≡ UsageFault.Silent) }
{
    let Some(action) = named(words) else {
        return Err(UsageFault::Usage);
    };
    // what comes after block 65535 is read already
    match parsed(alloc, &[words[0].as_str(), words[1].as_str()]) {
        Ok(_) => Ok(action),
        Err(e) => Err(fault_of(action, e.kind())),
    }
}

/// The command that words name, the first of which is the program's name.
fn named<S: AsStr>(words: &[S]) -> Option<Action>
    ensures some { IfSome result (λ a. IsCommand a (map S.text words.now)) }
    ensures only { (a : Action) → IsCommand a (map S.text words.now) → result ≡ Some a }
{
    if words.len() == 2 {
        return action_named(words[1].as_str(), None);
    }
    if words.len() != 4 || words[2].as_str() != "--rollover" {
        return None;
    }
    let rollover = rollover_named(words[3].as_str())?;
    action_named(words[1].as_str(), Some(rollover))
}

/// The command of this name, with what comes after block 65535.
fn action_named(name: &str, rollover: Option<Rollover>) -> Option<Action>
    ensures some { IfSome result (λ a. (name.now ≡ name_of a) × (rollover_of a ≡ rollover)) }
    ensures only { (a : Action) → name.now ≡ name_of a → rollover_of a ≡ rollover → result ≡ Some a }
{
    match name {
        "check" => Some(Action::Check(rollover)),
        "extract" => Some(Action::Extract(rollover)),
        "normal" => Some(Action::Normal(rollover)),
        "count" => Some(Action::Count(rollover)),
        "show" => Some(Action::Show(rollover)),
        _ => None,
    }
}

/// What comes after block 65535, by its digit.
fn rollover_named(digit: &str) -> Option<Rollover>
    ensures some { IfSome result (λ r. digit.now ≡ digit_of r) }
    ensures only { (r : Rollover) → digit.now ≡ digit_of r → result ≡ Some r }
{
    match digit {
        "0" => Some(Rollover::Zero),
        "1" => Some(Rollover::One),
        _ => None,
    }
}

/// Why the words of this command were not parsed.
fn fault_of(action: Action, kind: ErrorKind) -> UsageFault
    ensures usage { kind ≢ ErrorKind.OutOfMemory → result ≡ UsageFault.Usage }
    ensures memory { kind ≡ ErrorKind.OutOfMemory → result ≡ memory_fault action }
{
    match kind {
        ErrorKind::OutOfMemory => match action {
            Action::Check(_) => UsageFault::Memory,
            Action::Extract(_) => UsageFault::Silent,
            Action::Normal(_) => UsageFault::Silent,
            Action::Show(_) => UsageFault::Memory,
            Action::Count(_) => UsageFault::Memory,
        },
        _ => UsageFault::Usage,
    }
}
