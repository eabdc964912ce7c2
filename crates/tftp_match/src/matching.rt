//! Two files are matched: each is opened, their captures are judged, and what there is to say of them is written.

ghost use Rattle.std.specs.Prelude.{◌≡◌, false, IfErr, IfNone, IfOk, IfSome};
ghost use Rattle.tftp_rows.specs.Faults.{IsRemarkFault};
ghost use Rattle.tftp_match.specs.Matches.{MatchesFiles, SaysMatching};
ghost use Rattle.tftp_match.specs.Matching.{IsTold};
ghost use Rattle.tftp_match.specs.Unread.{AreWordsOf};

use crate::copies::copies_of;
use crate::facts::status_of;
use crate::faults::MatchFault;
use crate::judging::{Matching, judge_captures};
use crate::objects::Captured;
use crate::saying::{SayFault, say};
use crate::unread::Worded;
use net_streams::streams::LineWriter;
use std::alloc::Global;
use std::io::Write;
use tftp_rows::{Outside, Remarks, TellFault};
use tftp_words::MatchRequest;

/// Writes what there is to say of the captures in the files that are named, and answers the status: 0 where one run of the two ends has
/// both, 1 where none has, and 2 after a fault. Where nothing is said of them it tells why on standard error.
pub fn match_files<F: Worded, O: Outside, W: Write, E: Write + Drop>(
    alloc: Global,
    outside: &O,
    request: &MatchRequest<'_>,
    writer: &mut LineWriter<W>,
    remarks: &mut Remarks<'_, E>,
) -> Result<u8, MatchFault>
    ensures { MatchesFiles W.contents E.Write.contents (AreWordsOf F.from_gives F.output) (O.opens outside.now) (O.holds outside.now) request.now writer.old writer.new remarks.old remarks.new result }
{
    let Some(client) = opened(outside, request.client, remarks)? else {
        return Ok(2);
    };
    let Some(server) = opened(outside, request.server, remarks)? else {
        return Ok(2);
    };
    match judge_captures::<F, _, _, _>(alloc, request, client, server, remarks)? {
        Some(matching) => say_matching(alloc, request, &matching, writer),
        None => Ok(2),
    }
}

/// The file of that name; none where it does not open, which is told.
fn opened<O: Outside, E: Write + Drop>(
    outside: &O,
    name: &str,
    remarks: &mut Remarks<'_, E>,
) -> Result<Option<O::Reader>, TellFault>
    ensures holds { IfOk result (λ found. IfSome found (λ reader. (O.Reader.Read.remaining reader ≡ O.holds outside.now name.now) × (remarks.new ≡ remarks.old))) }
    ensures unopened { IfOk result (λ found. IfNone found ((O.opens outside.now name.now ≡ false) × IsTold remarks.old.program.now name.now (E.Write.contents remarks.old.errors.0) (E.Write.contents remarks.new.errors.0))) }
    ensures fault { IfErr result (IsRemarkFault remarks.new.errors.1) }
    ensures same { remarks.new ≡ record remarks.old { errors = remarks.new.errors } }
{
    match outside.open(name) {
        Ok(reader) => Ok(Some(reader)),
        Err(fault) => {
            remarks.tell_fault(name, fault)?;
            Ok(None)
        }
    }
}

/// Writes what there is to say of two captures, and answers the status.
fn say_matching<W: Write>(
    alloc: Global,
    request: &MatchRequest<'_>,
    matching: &Matching,
    writer: &mut LineWriter<W>,
) -> Result<u8, MatchFault>
    ensures { SaysMatching W.contents request.now matching.now writer.old writer.new result }
{
    let said = &matching.said;
    let copies = copies_of(alloc, said, request.counts)?;
    let client = Captured {
        file: request.client,
        number: matching.client,
    };
    let server = Captured {
        file: request.server,
        number: matching.server,
    };
    match say(alloc, writer, request.json, (client, server), said, &copies) {
        Ok(()) => Ok(status_of(said)),
        Err(SayFault::Memory) => Err(MatchFault::Memory),
        Err(SayFault::Output) => Err(MatchFault::Output),
    }
}
