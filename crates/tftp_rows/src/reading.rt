//! A recording is read, and its transfers told.

ghost use Rattle.std.specs.Prelude.{◌≡◌, [], ℕ, List, IfErr, IfOk, None, OnErr, OnOk, Option, false};
ghost use Rattle.std.specs.Io.KnownBytes.{IsAtEnd};
ghost use Rattle.net_streams.specs.{Standing};
ghost use Rattle.net_udp.specs.Recording.{Step, standing_of};
ghost use Rattle.audit_recording.specs.Blame.Frames.{Carried};
ghost use Rattle.audit_recording.specs.Session.Kept.{IsSessionAfter};
ghost use Rattle.audit_recording.specs.Session.Noted.{Noticed, nothing_noticed};
ghost use Rattle.audit_recording.specs.Session.Opened.{HasEnded, HasRead, left_of, may_lose_in};
ghost use Rattle.audit_recording.specs.declared.session.opened.Opened.{Opened as OpenedKind};
ghost use Rattle.audit_recording.specs.declared.session.session.Session.{Session as SessionKind};
ghost use Rattle.tftp_rows.specs.Faults.{IsTellFault};
ghost use Rattle.tftp_rows.specs.Telling.{JudgesAs, PrintsAllWith};
ghost use Rattle.tftp_rows.specs.Whole.{HasToldAll, IsReadInPart, IsReadOn, IsReadThrough, IsRecordingTold, IsRecordingToldInPart, Telling, numbers_of, so_far};
ghost use Rattle.tftp_rows.specs.declared.teller.Teller.{Teller as TellerKind};

use crate::printing::PrintFault;
use crate::teller::Teller;
use audit_recording::judges::Judging;
use audit_recording::session::{Kept, Notes, Opened, ReadFault, Session, TextFault, Wanted};
use net_streams::streams::WriteFault;
use std::alloc::{AllocError, Global};
use std::convert::From;
use std::io;
use std::io::{Read, Write};
use thiserror::Error;

/// Why a recording's transfers are not told.
#[derive(Debug, Drop, Error)]
pub enum TellFault {
    /// Memory was refused.
    #[error(transparent)]
    Alloc(AllocError),
    /// The recording is not read.
    #[error(transparent)]
    Read(ReadFault),
    /// A row is not printed.
    #[error(transparent)]
    Print(PrintFault),
    /// There are more transfers than can be counted.
    #[error("too many transfers")]
    TooMany,
    /// There are more frames than can be counted.
    #[error("too many frames")]
    TooManyFrames,
    /// What else there is to tell is not written.
    #[error(transparent)]
    Remark(io::Error),
    /// There is no text of a transfer.
    #[error(transparent)]
    Text(TextFault),
    /// A text is not written.
    #[error("the text can't be written")]
    Unwritten,
}

impl From<AllocError> for TellFault {
    ghost use Rattle.std.specs.Prelude.{◌≡◌};
    ghost use Rattle.tftp_rows.specs.declared.reading.TellFault.{TellFault};

    ghost from_gives = { λ error fault. fault ≡ TellFault.Alloc error };

    fn from(error: AllocError) -> Self {
        TellFault::Alloc(error)
    }
}

impl From<ReadFault> for TellFault {
    ghost use Rattle.std.specs.Prelude.{◌≡◌};
    ghost use Rattle.tftp_rows.specs.declared.reading.TellFault.{TellFault};

    ghost from_gives = { λ error fault. fault ≡ TellFault.Read error };

    fn from(error: ReadFault) -> Self {
        TellFault::Read(error)
    }
}

impl From<PrintFault> for TellFault {
    ghost use Rattle.std.specs.Prelude.{◌≡◌};
    ghost use Rattle.tftp_rows.specs.declared.reading.TellFault.{TellFault};

    ghost from_gives = { λ error fault. fault ≡ TellFault.Print error };

    fn from(error: PrintFault) -> Self {
        TellFault::Print(error)
    }
}

impl From<TextFault> for TellFault {
    ghost use Rattle.std.specs.Prelude.{◌≡◌};
    ghost use Rattle.tftp_rows.specs.declared.reading.TellFault.{TellFault};

    ghost from_gives = { λ error fault. fault ≡ TellFault.Text error };

    fn from(error: TextFault) -> Self {
        TellFault::Text(error)
    }
}

impl From<WriteFault> for TellFault {
    ghost use Rattle.std.specs.Prelude.{◌≡◌};
    ghost use Rattle.tftp_rows.specs.declared.reading.TellFault.{TellFault};

    ghost from_gives = { λ _ fault. fault ≡ TellFault.Unwritten };

    fn from(_fault: WriteFault) -> Self {
        TellFault::Unwritten
    }
}

impl From<io::Error> for TellFault {
    ghost use Rattle.std.specs.Prelude.{◌≡◌};
    ghost use Rattle.tftp_rows.specs.declared.reading.TellFault.{TellFault};

    ghost from_gives = { λ error fault. fault ≡ TellFault.Remark error };

    fn from(error: io::Error) -> Self {
        TellFault::Remark(error)
    }
}

/// Reads a new recording, whose service ports are these, and tells the verdicts on its transfers; answers what is to be told of it as a whole.
pub fn check_recording<'a, R: Read + Drop, W: Write + Drop>(
    alloc: Global,
    reader: R,
    file: &'a str,
    services: &[u16],
    judging: Judging,
    teller: &mut Teller<'a, W>,
) -> Result<Notes, TellFault>
    ensures told { teller.old.held.items ≡ []
        → IfOk result (λ notes. IsRecordingTold W.Write.contents (record teller.old { file = file.entry; told = 0; dropped = 0 }) teller.new (R.Read.remaining reader) judging services.now notes) }
    ensures part { teller.old.held.items ≡ []
        → OnErr result (IsRecordingToldInPart W.Write.contents (record teller.old { file = file.entry; told = 0; dropped = 0 }) teller.new (R.Read.remaining reader) judging services.now) }
    ensures why { teller.old.held.items ≡ [] → IfErr result (IsTellFault (R.Read.remaining reader) teller.new.printer.writer.1 teller.new.told) }
{
    let kept = Kept::new(alloc, Wanted::Nothing);
    let mut session = Session::new(alloc, services, judging, kept)?;
    teller.begin(file);
    let told = tell_recording(alloc, reader, &mut session, teller);
    let notes = session.into_notes();
    told?;
    Ok(notes)
}

/// Reads a recording to its end with a new session, and tells its transfers: each as soon as nothing that comes later changes what is told of
/// it, but a refusal only once its recorder can tell no more that it lost packets. Where reading fails, what was held back is told all the same.
pub fn tell_recording<R: Read + Drop, W: Write + Drop>(
    alloc: Global,
    reader: R,
    session: &mut Session,
    teller: &mut Teller<'_, W>,
) -> Result<(), TellFault>
    ensures told { (named : List ℕ) → IsSessionAfter session.old named [] [] [] nothing_noticed → teller.old.held.items ≡ [] → teller.old.told ≡ 0
        → OnOk result (IsRecordingTold W.Write.contents teller.old teller.new (R.Read.remaining reader) session.old.audit.judge.judging named session.new.notes) }
    ensures part { (named : List ℕ) → IsSessionAfter session.old named [] [] [] nothing_noticed → teller.old.held.items ≡ [] → teller.old.told ≡ 0
        → OnErr result (IsRecordingToldInPart W.Write.contents teller.old teller.new (R.Read.remaining reader) session.old.audit.judge.judging named) }
    ensures why { (named : List ℕ) → IsSessionAfter session.old named [] [] [] nothing_noticed → teller.old.held.items ≡ [] → teller.old.told ≡ 0
        → IfErr result (IsTellFault (R.Read.remaining reader) teller.new.printer.writer.1 teller.new.told) }
{
    let read = read_through(alloc, reader, session, teller);
    teller.tell_held(alloc, session.notes.dropped)?;
    read?;
    teller.tell_all(alloc, session)?;
    Ok(())
}

/// Reads a recording to its end, and closes it. What is over is told, but for what is held back, and for what is over by its end alone.
fn read_through<R: Read + Drop, W: Write + Drop>(
    alloc: Global,
    reader: R,
    session: &mut Session,
    teller: &mut Teller<'_, W>,
) -> Result<(), TellFault>
    ensures told { (named : List ℕ) → IsSessionAfter session.old named [] [] [] nothing_noticed → teller.old.held.items ≡ [] → teller.old.told ≡ 0
        → OnOk result (IsReadThrough W.Write.contents teller.old teller.new (R.Read.remaining reader) session.new named) }
    ensures part { (named : List ℕ) → IsSessionAfter session.old named [] [] [] nothing_noticed → teller.old.held.items ≡ [] → teller.old.told ≡ 0
        → OnErr result (IsReadInPart W.Write.contents teller.old teller.new (R.Read.remaining reader) session.old.audit.judge.judging named) }
    ensures why { (named : List ℕ) → IsSessionAfter session.old named [] [] [] nothing_noticed → teller.old.held.items ≡ [] → teller.old.told ≡ 0
        → IfErr result (IsTellFault (R.Read.remaining reader) teller.new.printer.writer.1 teller.new.told) }
    ensures judging { JudgesAs session.old session.new }
{
    let mut opened = Opened::begin(alloc, reader)?;
    let read = tell_frames(alloc, &mut opened, session, teller);
    let closed = opened.close(alloc, session);
    read?;
    closed?;
    Ok(())
}

/// Reads a recording to its end, and tells each transfer as soon as nothing that comes later changes what is told of it.
pub fn tell_frames<R: Read + Drop, W: Write + Drop>(
    alloc: Global,
    opened: &mut Opened<R>,
    session: &mut Session,
    teller: &mut Teller<'_, W>,
) -> Result<(), TellFault>
    ensures told { (begun : TellerKind W) (file : Option (List ℕ)) (named : List ℕ) → IsReadOn W.Write.contents begun teller.old (may_lose_in opened.old) (HasRead R.Read.remaining file opened.old) session.old named
        → OnOk result (IsReadOn W.Write.contents begun teller.new (may_lose_in opened.new) (HasRead R.Read.remaining file opened.new) session.new named) }
    ensures part { (begun : TellerKind W) (file : Option (List ℕ)) (named : List ℕ) → IsReadOn W.Write.contents begun teller.old (may_lose_in opened.old) (HasRead R.Read.remaining file opened.old) session.old named
        → OnErr result (IsReadInPart W.Write.contents begun teller.new file session.old.audit.judge.judging named) }
    ensures why { (begun : TellerKind W) (file : Option (List ℕ)) (named : List ℕ) → IsReadOn W.Write.contents begun teller.old (may_lose_in opened.old) (HasRead R.Read.remaining file opened.old) session.old named
        → IfErr result (IsTellFault file teller.new.printer.writer.1 teller.new.told) }
    ensures ends { OnOk result (HasEnded opened.new.recording session.new.notes) }
    ensures at_end { standing_of opened.old.recording ≡ Standing.Open
        → OnOk result (standing_of opened.new.recording ≡ Standing.Over → IsAtEnd (left_of R.Read.remaining opened.new)) }
    ensures judging { JudgesAs session.old session.new }
{
    for _turn in 0..u64::MAX {
        if !opened.next(alloc, session)? {
            return Ok(());
        }
        teller.tell_over(alloc, session)?;
    }
    Err(TellFault::TooManyFrames)
}

/// What was read of a recording is told, each transfer once and in order: so it is before the first frame, with a new session
/// (`begun`), stays so while it is read (`tell_frames`), and once what was held back is told none of it waits (`held`).
pub fn recordings_are_told_as_they_are_read<R: Read + Drop, W: Write + Drop>()
    ensures begun { (begun : TellerKind W) (file : Option (List ℕ)) (opened : OpenedKind R) (session : SessionKind) (named : List ℕ) → begun.held.items ≡ [] → begun.told ≡ 0
        → HasRead R.Read.remaining file opened [] → IsSessionAfter session named [] [] [] nothing_noticed → IsReadOn W.Write.contents begun begun (may_lose_in opened) (HasRead R.Read.remaining file opened) session named }
    ensures held { (begun old new : TellerKind W) (dropped : ℕ) (file : Option (List ℕ)) (opened : OpenedKind R) (session : SessionKind) (named : List ℕ) → IsReadOn W.Write.contents begun old (may_lose_in opened) (HasRead R.Read.remaining file opened) session named
        → PrintsAllWith W.Write.contents dropped old.printer new.printer old.held.items → new.held.items ≡ []
        → new ≡ record old { printer = new.printer; held = new.held; may_lose = false; dropped = dropped }
        → (history : List Step) × (carried : List Carried) × (s : Noticed) × (tellings : List Telling) × HasRead R.Read.remaining file opened history × IsSessionAfter session named (numbers_of tellings) history carried s
        × HasToldAll W.Write.contents begun new (may_lose_in opened) dropped session.audit.judge.judging named None (so_far history carried s) tellings }
{}
