ghost use Rattle.std.specs.Prelude.{◌≡◌, false};
ghost use Rattle.net_streams.specs.Streams.{IsFresh};
ghost use Rattle.tftp_commands.specs.Run.{IsOutputOf};
ghost use Rattle.tftp_commands.specs.Running.{Runs};

use crate::check::{say_accepted, say_verdict};
use crate::count::say_counted;
use crate::show::show;
use crate::status::Status;
use crate::verdicts::status_of;
use crate::words::Action;
use net_streams::streams::{Latched, LineWriter};
use std::alloc::Global;
use std::io::{Read, Write};
use tftp_judge::{OutFault, extract, judge_text};
use tftp_normal::{NormalFault, normalise};

/// Runs a command. `check` says in one line what a capture text means, and `count` how many datagrams its normal capture has;
/// both say why a text is not accepted. `extract` writes its file (RFC 1350, section 1), and `normal` its normal text, and
/// nothing beside it: of a text that is not accepted, or where memory runs out, nothing; and an empty file makes no write.
/// `show` judges nothing. All go by what comes after block 65535.
pub fn run_command<R: Read, W: Write>(
    alloc: Global,
    action: Action,
    reader: &mut Latched<R>,
    writer: &mut LineWriter<W>,
) -> Status
    requires reading { reader.old.1 ≡ false }
    requires fresh { IsFresh writer.old }
    ensures { Runs R.remaining W.contents (λ source. IsOutputOf action source writer.new.failed) reader.old reader.new writer.old writer.new result }
{
    match action {
        Action::Check(rollover) => match judge_text(alloc, rollover, reader) {
            Ok(meaning) => say_accepted(writer, &meaning),
            Err(verdict) => say_verdict(writer, verdict),
        },
        Action::Count(rollover) => match judge_text(alloc, rollover, reader) {
            Ok(meaning) => say_counted(writer, &meaning),
            Err(verdict) => say_verdict(writer, verdict),
        },
        Action::Extract(rollover) => match extract(alloc, rollover, reader, writer) {
            Ok(()) => Status::Success,
            Err(OutFault::Verdict(verdict)) => status_of(verdict),
            Err(OutFault::Write) => Status::Fault,
        },
        Action::Normal(rollover) => match normalise(alloc, rollover, reader, writer) {
            Ok(()) => Status::Success,
            Err(NormalFault::Verdict(verdict)) => status_of(verdict),
            Err(NormalFault::Write) => Status::Fault,
            Err(NormalFault::Memory) => Status::Fault,
        },
        Action::Show(rollover) => show(alloc, rollover, reader, writer),
    }
}
