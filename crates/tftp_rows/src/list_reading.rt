//! A recording is read, and its transfers listed.

ghost use Rattle.std.specs.Prelude.{◌≡◌, [], ℕ, List, IfErr, IfOk, OnErr, OnOk, Option};
ghost use Rattle.std.specs.Io.KnownBytes.{IsAtEnd};
ghost use Rattle.net_streams.specs.{Standing};
ghost use Rattle.net_udp.specs.Recording.{standing_of};
ghost use Rattle.audit_recording.specs.Session.Kept.{IsSessionAfter};
ghost use Rattle.audit_recording.specs.Session.Noted.{nothing_noticed};
ghost use Rattle.audit_recording.specs.Session.Opened.{HasEnded, HasRead, left_of};
ghost use Rattle.tftp_rows.specs.Faults.{IsTellFault};
ghost use Rattle.tftp_rows.specs.ListedWhole.{IsListedOn, IsListedThrough, IsRecordingListed, IsRecordingListedInPart};
ghost use Rattle.tftp_rows.specs.declared.lister.Lister.{Lister as ListerKind};

use crate::lister::Lister;
use crate::reading::TellFault;
use audit_recording::judges::Judging;
use audit_recording::session::{Kept, Notes, Opened, Session, Wanted};
use std::alloc::Global;
use std::io::{Read, Write};

/// Reads a new recording, whose service ports are these, and lists its transfers, from number 1 on; answers what is to be told of it as a whole.
pub fn list_recording<R: Read + Drop, W: Write + Drop>(
    alloc: Global,
    reader: R,
    services: &[u16],
    lister: &mut Lister<W>,
) -> Result<Notes, TellFault>
    ensures listed { IfOk result (λ notes. IsRecordingListed W.Write.contents (record lister.old { told = 0 }) lister.new (R.Read.remaining reader) services.now notes) }
    ensures part { OnErr result (IsRecordingListedInPart W.Write.contents (record lister.old { told = 0 }) lister.new (R.Read.remaining reader) services.now) }
    ensures why { IfErr result (IsTellFault (R.Read.remaining reader) lister.new.printer.writer.1 lister.new.told) }
{
    let kept = Kept::new(alloc, Wanted::Nothing);
    let mut session = Session::new(alloc, services, Judging::Nowhere, kept)?;
    lister.told = 0;
    let listed = list_to_end(alloc, reader, &mut session, lister);
    let notes = session.into_notes();
    listed?;
    Ok(notes)
}

/// Reads a recording to its end with a new session, and lists its transfers, each as soon as nothing that comes later changes what is told of it.
fn list_to_end<R: Read + Drop, W: Write + Drop>(
    alloc: Global,
    reader: R,
    session: &mut Session,
    lister: &mut Lister<W>,
) -> Result<(), TellFault>
    ensures listed { (named : List ℕ) → IsSessionAfter session.old named [] [] [] nothing_noticed → lister.old.told ≡ 0
        → OnOk result (IsRecordingListed W.Write.contents lister.old lister.new (R.Read.remaining reader) named session.new.notes) }
    ensures part { (named : List ℕ) → IsSessionAfter session.old named [] [] [] nothing_noticed → lister.old.told ≡ 0
        → OnErr result (IsRecordingListedInPart W.Write.contents lister.old lister.new (R.Read.remaining reader) named) }
    ensures why { (named : List ℕ) → IsSessionAfter session.old named [] [] [] nothing_noticed → lister.old.told ≡ 0
        → IfErr result (IsTellFault (R.Read.remaining reader) lister.new.printer.writer.1 lister.new.told) }
{
    list_through(alloc, reader, session, lister)?;
    lister.list_all(alloc, session)?;
    lister.end(session.notes.is_whole());
    Ok(())
}

/// Reads a recording to its end, and closes it. What is over is listed, but for what is over by its end alone.
fn list_through<R: Read + Drop, W: Write + Drop>(
    alloc: Global,
    reader: R,
    session: &mut Session,
    lister: &mut Lister<W>,
) -> Result<(), TellFault>
    ensures listed { (named : List ℕ) → IsSessionAfter session.old named [] [] [] nothing_noticed → lister.old.told ≡ 0
        → OnOk result (IsListedThrough W.Write.contents lister.old lister.new (R.Read.remaining reader) session.new named) }
    ensures part { (named : List ℕ) → IsSessionAfter session.old named [] [] [] nothing_noticed → lister.old.told ≡ 0
        → OnErr result (IsRecordingListedInPart W.Write.contents lister.old lister.new (R.Read.remaining reader) named) }
    ensures why { (named : List ℕ) → IsSessionAfter session.old named [] [] [] nothing_noticed → lister.old.told ≡ 0
        → IfErr result (IsTellFault (R.Read.remaining reader) lister.new.printer.writer.1 lister.new.told) }
{
    let mut opened = Opened::begin(alloc, reader)?;
    let listed = list_frames(alloc, &mut opened, session, lister);
    let closed = opened.close(alloc, session);
    listed?;
    closed?;
    Ok(())
}

/// Reads a recording to its end, and lists each transfer as soon as nothing that comes later changes what is told of it.
fn list_frames<R: Read + Drop, W: Write + Drop>(
    alloc: Global,
    opened: &mut Opened<R>,
    session: &mut Session,
    lister: &mut Lister<W>,
) -> Result<(), TellFault>
    ensures listed { (begun : ListerKind W) (file : Option (List ℕ)) (named : List ℕ) → IsListedOn W.Write.contents begun lister.old (HasRead R.Read.remaining file opened.old) session.old named
        → OnOk result (IsListedOn W.Write.contents begun lister.new (HasRead R.Read.remaining file opened.new) session.new named) }
    ensures part { (begun : ListerKind W) (file : Option (List ℕ)) (named : List ℕ) → IsListedOn W.Write.contents begun lister.old (HasRead R.Read.remaining file opened.old) session.old named
        → OnErr result (IsRecordingListedInPart W.Write.contents begun lister.new file named) }
    ensures why { (begun : ListerKind W) (file : Option (List ℕ)) (named : List ℕ) → IsListedOn W.Write.contents begun lister.old (HasRead R.Read.remaining file opened.old) session.old named
        → IfErr result (IsTellFault file lister.new.printer.writer.1 lister.new.told) }
    ensures ends { OnOk result (HasEnded opened.new.recording session.new.notes) }
    ensures at_end { standing_of opened.old.recording ≡ Standing.Open
        → OnOk result (standing_of opened.new.recording ≡ Standing.Over → IsAtEnd (left_of R.Read.remaining opened.new)) }
{
    for _turn in 0..u64::MAX {
        if !opened.next(alloc, session)? {
            return Ok(());
        }
        lister.list_over(alloc, session)?;
    }
    Err(TellFault::TooManyFrames)
}
