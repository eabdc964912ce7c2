//! Several recordings are told, one after another.

ghost use Rattle.std.specs.Prelude.{◌≡◌, ◌==◌, ◌&&◌, [], ℕ, Bool, List, IfErr, IfOk, IsOk, IsSome, None, OnErr, OnOk, Option, false, if◌then◌else◌, map, max, true};
ghost use Rattle.std.specs.Io.KnownBytes.{Appends};
ghost use Rattle.audit_recording.specs.declared.judges.judging.Judging.{Judging as JudgingKind};
ghost use Rattle.tftp_rows.specs.Faults.{AreWordsOf, IsToldFor, Why};
ghost use Rattle.tftp_rows.specs.Files.{AreRowsOfFiles, CameOf, CameOfAll, IsSaidOf, Outcome, SaysOf, TellsFiles, has_fault, has_none, status_of_outcome};
ghost use Rattle.tftp_rows.specs.Files.Outcome.{Faulty, Told};
ghost use Rattle.tftp_rows.specs.Lists.{ListsFile};
ghost use Rattle.tftp_rows.specs.Printing.{PrintsAll, verdict_lines};
ghost use Rattle.tftp_rows.specs.Remarks.{SaysPart, remarks_text};
ghost use Rattle.tftp_rows.specs.Whole.{Telling, counted};
ghost use Rattle.tftp_rows.specs.declared.printing.RowPrinter.{RowPrinter as Printer};
ghost use Rattle.tftp_rows.specs.declared.row.VerdictRow.{VerdictRow as RowShown};

use crate::list_reading::list_recording;
use crate::lister::Lister;
use crate::reading::{TellFault, check_recording};
use crate::remarks::Remarks;
use crate::teller::Teller;
use audit_recording::judges::Judging;
use std::alloc::Global;
use std::fmt::Display;
use std::io::{Read, Write};

/// The files.
pub trait Outside {
    /// What reads a file.
    type Reader: Read + Drop;
    /// Why a file is not told.
    type Fault: Display + Drop + From<TellFault>;

    // What the file of a name holds, where that is told.
    ghost holds: { Self → List ℕ → Option (List ℕ) } = { λ _ _. None };

    // Whether the file of a name is known to open.
    ghost opens: { Self → List ℕ → Bool } = { λ _ _. false };

    /// Opens the file of that name.
    fn open(&self, name: &str) -> Result<Self::Reader, Self::Fault>
        ensures holds { IfOk result (λ reader. Self.Reader.Read.remaining reader ≡ holds self.now name.now) }
        ensures opens { opens self.now name.now ≡ true → IsOk result };

    // The words of a fault are known.
    ghost is_worded: { (fault : Self.Fault) → IsSome (Self.Fault.Display.output fault) };
}

/// Reads the recordings of these names, one after another, whose service ports are these, and tells the verdicts on their transfers, and
/// on standard error what else there is to tell of each; answers the status. A file that has a fault does not end it, unless the fault
/// can't be told.
pub fn check_files<'a, O: Outside, W: Write + Drop, E: Write + Drop>(
    alloc: Global,
    outside: &O,
    names: &[&'a str],
    services: &[u16],
    judging: Judging,
    teller: &mut Teller<'a, W>,
    remarks: &mut Remarks<'_, E>,
) -> Result<u8, O::Fault>
    ensures tells { teller.old.held.items ≡ []
        → TellsFiles W.Write.contents E.Write.contents (AreWordsOf O.Fault.From.from_gives O.Fault.Display.output) (O.opens outside.now) (O.holds outside.now) judging services.now (map (λ name. name.now) names.now) teller.old.printer teller.new.printer remarks.old remarks.new result }
    ensures held { teller.old.held.items ≡ [] → teller.new.held.items ≡ [] }
{
    teller.status = 0;
    let mut lacks_transfers = false;
    for name in names {
        let has_none = check_file(alloc, outside, *name, services, judging, teller, remarks)?;
        lacks_transfers |= has_none;
    }
    Ok(status_of(teller.status, lacks_transfers))
}

/// The status of all files, of which this is the greatest, and of which one has no transfer or none has none.
fn status_of(greatest: u8, lacks_transfers: bool) -> u8
    ensures { result ≡ if (greatest == 0) && lacks_transfers then 3 else greatest }
{
    if greatest == 0 && lacks_transfers {
        return 3;
    }
    greatest
}

/// Tells a file, or its fault; whether it was told and has no transfer.
fn check_file<'a, O: Outside, W: Write + Drop, E: Write + Drop>(
    alloc: Global,
    outside: &O,
    name: &'a str,
    services: &[u16],
    judging: Judging,
    teller: &mut Teller<'a, W>,
    remarks: &mut Remarks<'_, E>,
) -> Result<bool, O::Fault>
    ensures came { teller.old.held.items ≡ []
        → IfOk result (λ empty. (outcome : Outcome) × CameOf W.Write.contents remarks.new.errors.1 (O.opens outside.now name.entry.now) name.entry.now (O.holds outside.now name.entry.now) judging services.now teller.old.printer teller.new.printer outcome
        × (teller.new.status ≡ max teller.old.status (status_of_outcome outcome)) × (empty ≡ has_none outcome)
        × SaysOf (E.Write.contents remarks.old.errors.0) (E.Write.contents remarks.new.errors.0) (IsSaidOf (AreWordsOf O.Fault.From.from_gives O.Fault.Display.output) remarks.old.program.now name.entry.now outcome)) }
    ensures part { teller.old.held.items ≡ []
        → OnErr result ((why : Why) × (rest : List (List ℕ)) × CameOf W.Write.contents remarks.new.errors.1 (O.opens outside.now name.entry.now) name.entry.now (O.holds outside.now name.entry.now) judging services.now teller.old.printer teller.new.printer (Faulty why rest)) }
    ensures failed { OnErr result (remarks.new.errors.1 ≡ true) }
    ensures stays { remarks.old.errors.1 ≡ true → remarks.new.errors.1 ≡ true }
    ensures held { teller.old.held.items ≡ [] → teller.new.held.items ≡ [] }
    ensures same { remarks.new ≡ record remarks.old { errors = remarks.new.errors } }
{
    let status = teller.status;
    match tell_file(alloc, outside, name, services, judging, teller, remarks) {
        Ok(()) => Ok(teller.told == 0),
        Err(fault) => {
            teller.status = status.max(2);
            remarks.tell_fault(name, fault)?;
            Ok(false)
        }
    }
}

/// Opens a file, tells its transfers, and then the rest.
fn tell_file<'a, O: Outside, W: Write + Drop, E: Write + Drop>(
    alloc: Global,
    outside: &O,
    name: &'a str,
    services: &[u16],
    judging: Judging,
    teller: &mut Teller<'a, W>,
    remarks: &mut Remarks<'_, E>,
) -> Result<(), O::Fault>
    ensures told { teller.old.held.items ≡ []
        → OnOk result ((tellings : List Telling) × (whole : Bool) × (rest : List (List ℕ)) × CameOf W.Write.contents remarks.new.errors.1 (O.opens outside.now name.entry.now) name.entry.now (O.holds outside.now name.entry.now) judging services.now teller.old.printer teller.new.printer (Told tellings whole rest)
        × (teller.new.status ≡ max teller.old.status (status_of_outcome (Told tellings whole rest))) × (teller.new.told ≡ counted tellings)
        × Appends (E.Write.contents remarks.old.errors.0) (E.Write.contents remarks.new.errors.0) (remarks_text remarks.old.program.now name.entry.now rest)) }
    ensures part { teller.old.held.items ≡ []
        → IfErr result (λ fault. (why : Why) × (rest : List (List ℕ)) × IsToldFor O.Fault.From.from_gives why fault
        × CameOf W.Write.contents remarks.new.errors.1 (O.opens outside.now name.entry.now) name.entry.now (O.holds outside.now name.entry.now) judging services.now teller.old.printer teller.new.printer (Faulty why rest)
        × SaysPart (E.Write.contents remarks.old.errors.0) (E.Write.contents remarks.new.errors.0) (remarks_text remarks.old.program.now name.entry.now rest)) }
    ensures stays { remarks.old.errors.1 ≡ true → remarks.new.errors.1 ≡ true }
    ensures held { teller.old.held.items ≡ [] → teller.new.held.items ≡ [] }
    ensures same { remarks.new ≡ record remarks.old { errors = remarks.new.errors } }
{
    let reader = outside.open(name)?;
    let notes = check_recording(alloc, reader, name, services, judging, teller)?;
    remarks.tell_rest(alloc, name, &notes, teller.told)?;
    teller.status = teller.status.max(status_of_whole(notes.is_whole()));
    Ok(())
}

/// The status of what was read whole, or not, but for its verdicts.
fn status_of_whole(is_whole: bool) -> u8
    ensures { result ≡ if is_whole then 0 else 2 }
{
    if is_whole { 0 } else { 2 }
}

/// Reads the recording of that name, whose service ports are these, and lists its transfers, and on standard error what else there is to
/// tell of it; answers the status: 2 where it was not read whole, else 0.
pub fn list_file<O: Outside, W: Write + Drop, E: Write + Drop>(
    alloc: Global,
    outside: &O,
    name: &str,
    services: &[u16],
    lister: &mut Lister<W>,
    remarks: &mut Remarks<'_, E>,
) -> Result<u8, O::Fault>
    ensures { ListsFile W.Write.contents E.Write.contents O.Fault.From.from_gives (O.opens outside.now name.now) (record lister.old { told = 0 }) lister.new (O.holds outside.now name.now) services.now name.now remarks.old remarks.new result }
{
    let file = outside.open(name)?;
    let notes = list_recording(alloc, file, services, lister)?;
    remarks.tell_rest(alloc, name, &notes, lister.told)?;
    Ok(status_of_whole(notes.is_whole()))
}

/// What stood on standard output stays there, whatever comes of the files. Where no file has a fault, what follows is the rows of all of
/// them, and nothing else: those of the first file, behind these those of the second one, and so on.
pub fn files_are_printed_in_order<W: Write + Drop>()
    ensures behind { (unheard : Bool) (opens : List ℕ → Bool) (holds : List ℕ → Option (List ℕ)) (judging : JudgingKind) (named : List ℕ) (names : List (List ℕ)) (before after : Printer W) (outcomes : List Outcome)
        → CameOfAll W.Write.contents unheard opens holds judging named names before after outcomes
        → (written : List ℕ) × Appends (W.Write.contents before.writer.0) (W.Write.contents after.writer.0) written }
    ensures in_order { (unheard : Bool) (opens : List ℕ → Bool) (holds : List ℕ → Option (List ℕ)) (judging : JudgingKind) (named : List ℕ) (names : List (List ℕ)) (before after : Printer W) (outcomes : List Outcome)
        → CameOfAll W.Write.contents unheard opens holds judging named names before after outcomes → has_fault outcomes ≡ false
        → (rows : List RowShown) × PrintsAll W.Write.contents verdict_lines before after rows × AreRowsOfFiles outcomes rows }
{}
