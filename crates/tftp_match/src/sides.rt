//! Two captures are judged: which of their transfers, and what is told where that is none.

ghost use Rattle.std.specs.Prelude.{◌≡◌, ◌⊎◌, Bool, Err, IfErr, IfNone, IfOk, IfSome, IsOk, None, Ok, OnOk, option_map, string_bytes};
ghost use Rattle.std.specs.Io.KnownBytes.{Appends};
ghost use Rattle.tftp_rows.specs.Faults.{IsRemarkFault};
ghost use Rattle.tftp_match.specs.Given.{texts_of};
ghost use Rattle.tftp_match.specs.Sides.{IsLackTold, IsTaken, IsUntold, IsUntaken};
ghost use Rattle.tftp_match.specs.declared.faults.MatchFault.TheVariants.{Tell};
ghost use Rattle.tftp_match.specs.Untaken.{goes_on, line_text, pairs_text, shown, side_text, untaken_text};

use crate::candidates::Candidates;
use crate::choice::{Choice, Judged, Untaken};
use crate::choosing::{ChoiceFault, Side, choose};
use crate::faults::MatchFault;
use crate::texts::Texts;
use crate::told::{Numbered, pairs_line};
use std::alloc::Global;
use std::io::Write;
use tftp_packet::End;
use tftp_packet::rounds::Rollover;
use tftp_rows::{Remarks, TellFault};

/// What there is to say of the transfers of two captures that are one transfer's at its two ends: those that are named or that
/// alone have the request of the other side, or else the pair with one request that alone goes together. None where no pair is,
/// or where one has no text: that is told on standard error.
pub fn judge_sides<C: Texts, S: Texts, E: Write + Drop>(
    alloc: Global,
    rollover: Option<Rollover>,
    client: &Side<'_, C>,
    server: &Side<'_, S>,
    remarks: &mut Remarks<'_, E>,
) -> Result<Option<Judged>, MatchFault>
    ensures taken { IfOk result (λ found. IfSome found (λ judged. IsTaken (texts_of rollover (C.is_text client.now.texts.now) (S.is_text server.now.texts.now)) client.now.asked.now server.now.asked.now judged
        × (remarks.new ≡ remarks.old))) }
    ensures untaken { IfOk result (λ found. IfNone found (
        IsUntaken (texts_of rollover (C.is_text client.now.texts.now) (S.is_text server.now.texts.now)) (shown client.now) (shown server.now) remarks.old.program.now (E.Write.contents remarks.old.errors.0) (E.Write.contents remarks.new.errors.0)
        ⊎ IsLackTold (C.is_lack client.now.texts.now) (S.is_lack server.now.texts.now) (shown client.now) (shown server.now) remarks.old.program.now (E.Write.contents remarks.old.errors.0) (E.Write.contents remarks.new.errors.0))) }
    ensures fault { IfErr result (IsUntold remarks.new.errors.1) }
    ensures same { remarks.new ≡ record remarks.old { errors = remarks.new.errors } }
{
    let meant = match Candidates::of(alloc, client.asked, server.asked) {
        Ok(meant) => meant,
        Err(fault) => return Err(MatchFault::Alloc(fault)),
    };
    match choose(alloc, rollover, client, server, &meant) {
        Ok(Choice::Taken(judged)) => Ok(Some(judged)),
        Ok(Choice::Nothing(why)) => {
            as_none(tell_untaken(alloc, client, server, &meant, &why, remarks))
        }
        Err(ChoiceFault::Text(End::Client, fault)) => {
            as_none(remarks.tell_fault(client.file, fault))
        }
        Err(ChoiceFault::Text(End::Server, fault)) => {
            as_none(remarks.tell_fault(server.file, fault))
        }
        Err(ChoiceFault::Alloc(fault)) => Err(MatchFault::Alloc(fault)),
        Err(ChoiceFault::Memory) => Err(MatchFault::Memory),
    }
}

/// That there is none, where that was told.
fn as_none(told: Result<(), TellFault>) -> Result<Option<Judged>, MatchFault>
    ensures none { IsOk told → result ≡ Ok None }
    ensures fault { IfErr told (λ fault. result ≡ Err (Tell fault)) }
    ensures untold { (unheard : Bool) → IfErr told (IsRemarkFault unheard) → IfErr result (IsUntold unheard) }
{
    match told {
        Ok(()) => Ok(None),
        Err(fault) => Err(MatchFault::Tell(fault)),
    }
}

/// Tells that none is taken: of the pairs, of the client's recording, and of the server's.
fn tell_untaken<C, S, E: Write + Drop>(
    alloc: Global,
    client: &Side<'_, C>,
    server: &Side<'_, S>,
    meant: &Candidates,
    why: &Untaken,
    remarks: &mut Remarks<'_, E>,
) -> Result<(), TellFault>
    ensures told { OnOk result (Appends (E.Write.contents remarks.old.errors.0) (E.Write.contents remarks.new.errors.0) (untaken_text remarks.old.program.now (shown client.now) (shown server.now) meant.now.clients.items meant.now.servers.items why.now)) }
    ensures fault { IfErr result (IsRemarkFault remarks.new.errors.1) }
    ensures same { remarks.new ≡ record remarks.old { errors = remarks.new.errors } }
{
    let own = meant.clients.as_slice();
    tell_pairs(alloc, client, server, why, remarks)?;
    tell_side(alloc, client, server.file, own, remarks)?;
    if goes_on(client.option, own) {
        tell_side(
            alloc,
            server,
            client.file,
            meant.servers.as_slice(),
            remarks,
        )
    } else {
        Ok(())
    }
}

/// Tells of the pairs with one request, in a line behind both files.
fn tell_pairs<C, S, E: Write + Drop>(
    alloc: Global,
    client: &Side<'_, C>,
    server: &Side<'_, S>,
    why: &Untaken,
    remarks: &mut Remarks<'_, E>,
) -> Result<(), TellFault>
    ensures told { OnOk result (Appends (E.Write.contents remarks.old.errors.0) (E.Write.contents remarks.new.errors.0) (pairs_text remarks.old.program.now (shown client.now) (shown server.now) why.now)) }
    ensures fault { IfErr result (IsRemarkFault remarks.new.errors.1) }
    ensures same { remarks.new ≡ record remarks.old { errors = remarks.new.errors } }
{
    let numbered = Numbered::of(client, server);
    let (file, other) = (client.file, server.file);
    let both = format!(in alloc; "{file}, {other}")?;
    let line = pairs_line(alloc, numbered, why)?;
    tell_line(remarks, both.as_str(), &line)
}

/// Tells of a capture, of whose transfers these have the request of the other one, in a file of this name.
fn tell_side<T, E: Write + Drop>(
    alloc: Global,
    side: &Side<'_, T>,
    other: &str,
    meant: &[u64],
    remarks: &mut Remarks<'_, E>,
) -> Result<(), TellFault>
    ensures told { OnOk result (Appends (E.Write.contents remarks.old.errors.0) (E.Write.contents remarks.new.errors.0) (side_text remarks.old.program.now (shown side.now) other.now meant.now)) }
    ensures fault { IfErr result (IsRemarkFault remarks.new.errors.1) }
    ensures same { remarks.new ≡ record remarks.old { errors = remarks.new.errors } }
{
    let line = side.line(alloc, other, meant)?;
    tell_line(remarks, side.file, &line)
}

/// Whether the server's capture is told of too: that of the client is a text, or some of its transfers have the request.
fn goes_on(option: Option<&str>, meant: &[u64]) -> bool
    ensures { result ≡ goes_on (option_map (λ o. o.now) option.entry) meant.now }
{
    match option {
        Some(_) => !meant.is_empty(),
        None => true,
    }
}

/// Tells a line of a file, if there is one.
fn tell_line<E: Write + Drop>(
    remarks: &mut Remarks<'_, E>,
    file: &str,
    line: &Option<String>,
) -> Result<(), TellFault>
    ensures told { OnOk result (Appends (E.Write.contents remarks.old.errors.0) (E.Write.contents remarks.new.errors.0) (line_text remarks.old.program.now file.now (option_map string_bytes line.now))) }
    ensures fault { IfErr result (IsRemarkFault remarks.new.errors.1) }
    ensures same { remarks.new ≡ record remarks.old { errors = remarks.new.errors } }
{
    match line {
        Some(line) => remarks.tell_fault(file, line.as_str()),
        None => Ok(()),
    }
}
