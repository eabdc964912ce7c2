//! The capture texts of a recording's transfers are written.

ghost use Rattle.std.specs.Prelude.{◌≡◌, ◌∷◌, [], ℕ, List, IfErr, IsSome, Ok, false, if◌then◌else◌, true};
ghost use Rattle.std.specs.BTreeMap.{get, keys};
ghost use Rattle.std.specs.Io.KnownBytes.{Appends};
ghost use Rattle.std.specs.Ordering.{nat_cmp};
ghost use Rattle.net_streams.specs.Streams.{IsFresh};
ghost use Rattle.net_udp.specs.Recording.{Step};
ghost use Rattle.audit_recording.specs.Blame.Frames.{Carried, whole_of};
ghost use Rattle.audit_recording.specs.Session.Kept.{IsSessionAfter, IsSessionOf};
ghost use Rattle.audit_recording.specs.Session.Noted.{Noticed, nothing_noticed};
ghost use Rattle.audit_recording.specs.Session.Texts.{IsTextFault, opened_numbers, ordinal};
ghost use Rattle.audit_recording.specs.declared.session.fault.TextFault.TheVariants.{NotWhole};
ghost use Rattle.audit_recording.specs.declared.session.kept.Wanted.TheVariants.{All, One};
ghost use Rattle.tftp_rows.specs.Remarks.{lacking_line};
ghost use Rattle.tftp_rows.specs.Texts.{IsOneStopped, IsSaid, IsText, WritesEach, WritesFileText, WritesFileTexts, WritesText, WritesTexts};

use crate::files::Outside;
use crate::reading::TellFault;
use crate::remarks::Remarks;
use audit_recording::judges::Judging;
use audit_recording::session::{Kept, Session, TextAt, TextFault, Wanted, read_whole};
use net_streams::streams::LineWriter;
use std::alloc::Global;
use std::io::{Read, Write};
use tftp_packet::End;

/// Which texts are wanted of a file.
#[derive(Clone, Copy)]
pub struct TextsOf<'a> {
    /// The file's name.
    pub file: &'a str,
    /// The service ports that are named.
    pub services: &'a [u16],
    /// The end whose texts they are.
    pub end: End,
}

/// Reads the recording of that name and writes the capture text of its transfer with this number, from 1, unless datagrams of it may
/// be missing. Before, it tells on standard error what there is to tell of the recording.
pub fn write_text<O: Outside, W: Write, E: Write + Drop>(
    alloc: Global,
    outside: &O,
    of: &TextsOf<'_>,
    number: u64,
    writer: &mut LineWriter<W>,
    remarks: &mut Remarks<'_, E>,
) -> Result<(), O::Fault>
    ensures { IsFresh writer.old → WritesFileText W.contents E.Write.contents of.now remarks.old remarks.new writer.old writer.new O.Fault.From.from_gives (O.opens outside.now of.now.file.now) (O.holds outside.now of.now.file.now) number result }
{
    let file = outside.open(of.file)?;
    text_of_recording(alloc, file, of, number, writer, remarks)?;
    Ok(())
}

/// The same of a recording that is open.
fn text_of_recording<R: Read + Drop, W: Write, E: Write + Drop>(
    alloc: Global,
    reader: R,
    of: &TextsOf<'_>,
    number: u64,
    writer: &mut LineWriter<W>,
    remarks: &mut Remarks<'_, E>,
) -> Result<(), TellFault>
    ensures { IsFresh writer.old → WritesText W.contents E.Write.contents of.now remarks.old remarks.new writer.old writer.new (R.Read.remaining reader) number result }
{
    let kept = Kept::new(alloc, Wanted::One(number));
    let mut session = Session::new(alloc, of.services, Judging::Nowhere, kept)?;
    let written = text_of_session(alloc, reader, &mut session, of, number, writer, remarks);
    session.let_go();
    written
}

/// The same of a recording that a new session reads.
fn text_of_session<R: Read + Drop, W: Write, E: Write + Drop>(
    alloc: Global,
    reader: R,
    session: &mut Session,
    of: &TextsOf<'_>,
    number: u64,
    writer: &mut LineWriter<W>,
    remarks: &mut Remarks<'_, E>,
) -> Result<(), TellFault>
    ensures { IsSessionAfter session.old of.now.services.now [] [] [] nothing_noticed → session.old.kept.wanted ≡ One number → IsFresh writer.old
        → WritesText W.contents E.Write.contents of.now remarks.old remarks.new writer.old writer.new (R.Read.remaining reader) number result }
{
    read_whole(alloc, reader, session)?;
    remarks.tell_notes(alloc, of.file, &session.notes)?;
    let found = TextAt::find(alloc, session, number, of.end, of.file)?;
    found.write(writer, of.end)?;
    Ok(())
}

/// Reads the recording of that name and writes the capture texts of its transfers, one behind the other, in their order. Of one of
/// which datagrams may be missing it tells that it has none; and before, on standard error, what there is to tell of the recording.
/// Answers the status: 2 where one has no text, else 0.
pub fn write_texts<O: Outside, W: Write, E: Write + Drop>(
    alloc: Global,
    outside: &O,
    of: &TextsOf<'_>,
    writer: &mut LineWriter<W>,
    remarks: &mut Remarks<'_, E>,
) -> Result<u8, O::Fault>
    ensures { IsFresh writer.old → WritesFileTexts W.contents E.Write.contents of.now remarks.old remarks.new writer.old writer.new O.Fault.From.from_gives (O.opens outside.now of.now.file.now) (O.holds outside.now of.now.file.now) result }
{
    let file = outside.open(of.file)?;
    let status = texts_of_recording(alloc, file, of, writer, remarks)?;
    Ok(status)
}

/// The same of a recording that is open.
fn texts_of_recording<R: Read + Drop, W: Write, E: Write + Drop>(
    alloc: Global,
    reader: R,
    of: &TextsOf<'_>,
    writer: &mut LineWriter<W>,
    remarks: &mut Remarks<'_, E>,
) -> Result<u8, TellFault>
    ensures { IsFresh writer.old → WritesTexts W.contents E.Write.contents of.now remarks.old remarks.new writer.old writer.new (R.Read.remaining reader) result }
{
    let kept = Kept::new(alloc, Wanted::All);
    let mut session = Session::new(alloc, of.services, Judging::Nowhere, kept)?;
    let written = texts_of_session(alloc, reader, &mut session, of, writer, remarks);
    session.let_go();
    written
}

/// The same of a recording that a new session reads.
fn texts_of_session<R: Read + Drop, W: Write, E: Write + Drop>(
    alloc: Global,
    reader: R,
    session: &mut Session,
    of: &TextsOf<'_>,
    writer: &mut LineWriter<W>,
    remarks: &mut Remarks<'_, E>,
) -> Result<u8, TellFault>
    ensures { IsSessionAfter session.old of.now.services.now [] [] [] nothing_noticed → session.old.kept.wanted ≡ All → IsFresh writer.old
        → WritesTexts W.contents E.Write.contents of.now remarks.old remarks.new writer.old writer.new (R.Read.remaining reader) result }
{
    read_whole(alloc, reader, session)?;
    let keys = session.transfers(alloc)?;
    remarks.tell_rest(alloc, of.file, &session.notes, keys.len() as u64)?;
    write_each(alloc, session, keys.as_slice(), of, writer, remarks)
}

/// Writes the texts of the transfers with these keys, which are all that the session has.
fn write_each<W: Write, E: Write + Drop>(
    alloc: Global,
    session: &Session,
    numbers: &[u64],
    of: &TextsOf<'_>,
    writer: &mut LineWriter<W>,
    remarks: &mut Remarks<'_, E>,
) -> Result<u8, TellFault>
    ensures { (history : List Step) (carried : List Carried) (s : Noticed) → IsSessionOf session.now of.now.services.now [] history carried s
        → session.now.kept.wanted ≡ All → numbers.now ≡ keys session.now.trails → numbers.now ≡ opened_numbers (whole_of of.now.services.now carried) → IsFresh writer.old
        → WritesEach W.contents E.Write.contents of.now remarks.old remarks.new writer.old writer.new session.now.notes carried s [] result }
{
    let mut status = 0;
    for place in 0..numbers.len() {
        let number = place as u64 + 1;
        let has_text = write_one(alloc, session, numbers[place], number, of, writer, remarks)?;
        status = status_with(status, has_text);
    }
    Ok(status)
}

/// The status with one transfer more: 2 once one has no text.
fn status_with(status: u8, has_text: bool) -> u8
    ensures { result ≡ if has_text then status else 2 }
{
    if has_text { status } else { 2 }
}

/// Writes the text of the transfer with this key, which has this number, or tells that datagrams of it may be missing; whether it wrote.
fn write_one<W: Write, E: Write + Drop>(
    alloc: Global,
    session: &Session,
    key: u64,
    number: u64,
    of: &TextsOf<'_>,
    writer: &mut LineWriter<W>,
    remarks: &mut Remarks<'_, E>,
) -> Result<bool, TellFault>
    ensures text { (history : List Step) (carried : List Carried) (s : Noticed) → IsSessionOf session.now of.now.services.now [] history carried s → IsFresh writer.old
        → ordinal key (whole_of of.now.services.now carried) ≡ number → result ≡ Ok true
        → ((text : List ℕ) × IsText of.now.end of.now.file.now of.now.services.now session.now.notes carried s number text × Appends (W.contents writer.old.inner) (W.contents writer.new.inner) text) × IsFresh writer.new }
    ensures wordless { result ≡ Ok true → remarks.new ≡ remarks.old }
    ensures none { (history : List Step) (carried : List Carried) (s : Noticed) → IsSessionOf session.now of.now.services.now [] history carried s
        → session.now.kept.wanted ≡ All → ordinal key (whole_of of.now.services.now carried) ≡ number → IsSome (get nat_cmp session.now.trails key) → result ≡ Ok false
        → IsTextFault session.now.notes.fault of.now.services.now carried s number of.now.end of.now.file.now NotWhole }
    ensures same { remarks.new ≡ record remarks.old { errors = remarks.new.errors } }
    ensures untold { result ≡ Ok false → IsSaid E.Write.contents remarks.old remarks.new of.now Appends (lacking_line number ∷ []) × (writer.new ≡ writer.old) }
    ensures stopped { (history : List Step) (carried : List Carried) (s : Noticed) → IsSessionOf session.now of.now.services.now [] history carried s
        → session.now.kept.wanted ≡ All → ordinal key (whole_of of.now.services.now carried) ≡ number → IsSome (get nat_cmp session.now.trails key) → IsFresh writer.old
        → IfErr result (IsOneStopped W.contents E.Write.contents of.now remarks.old remarks.new writer.old writer.new session.now.notes carried s number) }
{
    match TextAt::of(alloc, session, key, number, of.end, of.file) {
        Ok(found) => {
            found.write(writer, of.end)?;
            Ok(true)
        }
        Err(TextFault::NotWhole) => {
            remarks.tell_lacking(alloc, of.file, number)?;
            Ok(false)
        }
        Err(fault) => Err(TellFault::Text(fault)),
    }
}
