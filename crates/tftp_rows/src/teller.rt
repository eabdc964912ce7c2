//! The verdicts on transfers are told, each in a row.

ghost use Rattle.std.specs.Prelude.{◌≡◌, ◌≢◌, ◌⊎◌, ◌∷◌, ◌+◌, ◌-◌, ◌^◌, [], ℕ, IfErr, IsSome, List, None, Ok, OnErr, OnOk, Option, false, max, min, option_to_list, true};
ghost use Rattle.net_udp.specs.Recording.{Step};
ghost use Rattle.audit_recording.specs.Blame.Frames.{Carried, whole_of};
ghost use Rattle.audit_recording.specs.Judges.{is_among, opened};
ghost use Rattle.audit_recording.specs.Rows.Told.{status_of};
ghost use Rattle.audit_recording.specs.Session.Kept.{IsSessionAfter, IsSessionOf};
ghost use Rattle.audit_recording.specs.Session.Noted.{Noticed};
ghost use Rattle.audit_recording.specs.Session.Over.{IsOldestOver};
ghost use Rattle.audit_recording.specs.declared.rows.row.Row.{Row as RowKind};
ghost use Rattle.audit_rows.specs.Judging.{IsToldOf};
ghost use Rattle.audit_rows.specs.Viewing.{said_in};
ghost use Rattle.tftp_rows.specs.Faults.{IsPrintFault, IsTellFault};
ghost use Rattle.tftp_rows.specs.Telling.{AreJudgedAt, JudgesAs, PrintsWith, Tells, TellsNext, TellsNextPart, TellsPlaces, TellsTurns, TellsTurnsPart, places_of, worst_at};

use crate::printing::{Form, PrintFault, RowPrinter};
use crate::reading::TellFault;
use crate::row::VerdictRow;
use crate::verdict::has_same_words;
use audit_recording::progress::read_until;
use audit_recording::rows::Row;
use audit_recording::session::Session;
use audit_rows::{Judged, Told};
use std::alloc::Global;
use std::io::Write;
use std::mem;

/// Tells the verdicts on transfers, each as soon as nothing that comes later changes what is told of it.
#[derive(Drop)]
pub struct Teller<'a, W: Drop> {
    printer: RowPrinter<W>,
    file: &'a str,
    /// How many transfers of the file were told.
    pub told: u64,
    /// 0 where all were accepted, else 1, or 2 after a fault.
    pub status: u8,
    /// From the first refusal on, while the recorder may still tell that it lost packets.
    held: Vec<VerdictRow<'a>>,
    may_lose: bool,
    /// How many packets the recorder lost.
    dropped: u64,
}

impl<'a, W: Write + Drop> Teller<'a, W> {
    /// Nothing was told.
    pub fn new(alloc: Global, writer: W, form: Form) -> Self
        ensures printer { result.printer ≡ record { writer = (writer, false); form = form; is_headed = false } }
        ensures held { result.held.items ≡ [] }
        ensures status { result.status ≡ 0 }
    {
        Teller {
            printer: RowPrinter::new(writer, form),
            file: "",
            told: 0,
            status: 0,
            held: Vec::new(alloc),
            may_lose: false,
            dropped: 0,
        }
    }

    /// Begins with a file.
    pub fn begin(&mut self, file: &'a str)
        ensures { self.new ≡ record self.old { file = file.entry; told = 0; dropped = 0 } }
    {
        self.file = file;
        self.told = 0;
        self.dropped = 0;
    }

    /// Tells the transfers of which all is known, from the oldest on.
    pub fn tell_over(&mut self, alloc: Global, session: &mut Session) -> Result<(), PrintFault>
        ensures turns { (named out : List ℕ) (history : List Step) (carried : List Carried) (s : Noticed) → IsSessionAfter session.old named out history carried s
            → OnOk result (TellsTurns W.Write.contents (λ before. IsOldestOver before named carried s × JudgesAs session.old before) (record self.old { may_lose = session.old.notes.may_lose }) self.new session.new named out history carried s) }
        ensures part { (named out : List ℕ) (history : List Step) (carried : List Carried) (s : Noticed) → IsSessionAfter session.old named out history carried s
            → OnErr result (TellsTurnsPart W.Write.contents (λ before. IsOldestOver before named carried s × JudgesAs session.old before) (record self.old { may_lose = session.old.notes.may_lose }) self.new session.old.audit.judge.judging named out history carried s) }
        ensures judging { JudgesAs session.old session.new }
        ensures why { IfErr result (IsPrintFault self.new.printer.writer.1) }
    {
        self.may_lose = session.notes.may_lose;
        for _ in 0..session.count() {
            if !session.is_first_over() {
                return Ok(());
            }
            if !self.tell_oldest(alloc, session)? {
                return Ok(());
            }
        }
        Ok(())
    }

    /// Tells what was held back, where the recording is read no further and its recorder has lost so many packets.
    pub fn tell_held(&mut self, alloc: Global, dropped: u64) -> Result<(), PrintFault>
        ensures prints { PrintsWith W.Write.contents dropped self.old.printer self.new.printer result self.old.held.items }
        ensures held { self.new.held.items ≡ [] }
        ensures rest { self.new ≡ record self.old { printer = self.new.printer; held = self.new.held; may_lose = false; dropped = dropped } }
        ensures why { IfErr result (IsPrintFault self.new.printer.writer.1) }
        ensures stays { self.old.printer.writer.1 ≡ true → self.new.printer.writer.1 ≡ true }
    {
        self.may_lose = false;
        self.dropped = dropped;
        let held = mem::replace(&mut self.held, Vec::new(alloc));
        for row in held {
            self.print(alloc, row)?;
        }
        Ok(())
    }

    /// Tells all transfers that were not told, where the recording has ended.
    pub fn tell_all(&mut self, alloc: Global, session: &mut Session) -> Result<(), TellFault>
        ensures turns { (named out : List ℕ) (history : List Step) (carried : List Carried) (s : Noticed) → IsSessionOf session.old named out history carried s
            → OnOk result ((turns : TellsTurns W.Write.contents (JudgesAs session.old) self.old self.new session.new named out history carried s)
            × ((n : ℕ) → (opened n (whole_of named carried) ≡ None) ⊎ (is_among n turns.left ≡ true))) }
        ensures part { (named out : List ℕ) (history : List Step) (carried : List Carried) (s : Noticed) → IsSessionOf session.old named out history carried s
            → OnErr result (TellsTurnsPart W.Write.contents (JudgesAs session.old) self.old self.new session.old.audit.judge.judging named out history carried s) }
        ensures judging { JudgesAs session.old session.new }
        ensures notes { session.new.notes ≡ session.old.notes }
        ensures why { (file : Option (List ℕ)) → IfErr result (IsTellFault file self.new.printer.writer.1 self.new.told) }
    {
        for _turn in 0..u64::MAX {
            if !self.tell_oldest(alloc, session)? {
                return Ok(());
            }
        }
        Err(TellFault::TooMany)
    }

    /// Tells the oldest transfer, if there is one; whether there was. It stays a call, since the room of a transfer that is handed
    /// out would be cleared for each datagram after which none is over.
    #[inline(never)]
    fn tell_oldest(&mut self, alloc: Global, session: &mut Session) -> Result<bool, PrintFault>
        ensures told { (named out : List ℕ) (history : List Step) (carried : List Carried) (s : Noticed) → IsSessionOf session.old named out history carried s
            → result ≡ Ok true → TellsNext W.Write.contents self.old self.new session.old session.new named out history carried s }
        ensures part { (named out : List ℕ) (history : List Step) (carried : List Carried) (s : Noticed) → IsSessionOf session.old named out history carried s
            → OnErr result (TellsNextPart W.Write.contents self.old self.new session.old.audit.judge.judging named out carried) }
        ensures nothing { result ≡ Ok false → self.new ≡ self.old }
        ensures judging { JudgesAs session.old session.new }
        ensures notes { session.new.notes ≡ session.old.notes }
        ensures same_session { (named out : List ℕ) (history : List Step) (carried : List Carried) (s : Noticed) → IsSessionOf session.old named out history carried s
            → result ≡ Ok false → IsSessionOf session.new named out history carried s }
        ensures all { (named out : List ℕ) (history : List Step) (carried : List Carried) (s : Noticed) → IsSessionOf session.old named out history carried s
            → result ≡ Ok false → (n : ℕ) → (opened n (whole_of named carried) ≡ None) ⊎ (is_among n out ≡ true) }
        ensures why { IfErr result (IsPrintFault self.new.printer.writer.1) }
        ensures number { result ≡ Ok true → self.new.told ≡ min (self.old.told + 1) (2 ^ 64 - 1) }
    {
        let Some(ended) = session.pop() else {
            return Ok(false);
        };
        let (missing, now) = (session.missing_of(&ended), read_until(session));
        self.told = self.told.saturating_add(1);
        let judged = Judged::new(alloc, ended, session.judging(), missing, now);
        self.tell_judged(alloc, &judged)?;
        Ok(true)
    }

    /// Tells the verdicts on a transfer.
    fn tell_judged(&mut self, alloc: Global, judged: &Judged) -> Result<(), PrintFault>
        ensures rows { TellsPlaces W.Write.contents self.old self.new result judged.now (places_of judged.now) }
        ensures status { OnOk result (self.new.status ≡ max self.old.status (worst_at judged.now (places_of judged.now))) }
        ensures why { IfErr result (IsPrintFault self.new.printer.writer.1) }
    {
        let rows = judged.rows(has_same_words(alloc, judged)?);
        self.tell_at(alloc, judged, rows.client)?;
        self.tell_at(alloc, judged, rows.server)?;
        self.tell_at(alloc, judged, rows.between)
    }

    /// Tells the verdict at a place, if one is told there.
    fn tell_at(
        &mut self,
        alloc: Global,
        judged: &Judged,
        row: Option<Row>,
    ) -> Result<(), PrintFault>
        ensures rows { AreJudgedAt judged.now (option_to_list row) → TellsPlaces W.Write.contents self.old self.new result judged.now (option_to_list row) }
        ensures status { AreJudgedAt judged.now (option_to_list row)
            → OnOk result (self.new.status ≡ max self.old.status (worst_at judged.now (option_to_list row))) }
        ensures why { IfErr result (IsPrintFault self.new.printer.writer.1) }
    {
        let Some(row) = row else {
            return Ok(());
        };
        match judged.told(&row) {
            Some(told) => self.tell_one(alloc, judged, &told),
            None => Ok(()),
        }
    }

    fn tell_one(
        &mut self,
        alloc: Global,
        judged: &Judged,
        told: &Told<'_>,
    ) -> Result<(), PrintFault>
        ensures rows { (place : RowKind) → IsToldOf told.now place judged.now → TellsPlaces W.Write.contents self.old self.new result judged.now (place ∷ []) }
        ensures status { OnOk result (self.new.status ≡ max self.old.status (status_of (said_in told.now.view.now))) }
        ensures why { IfErr result (IsPrintFault self.new.printer.writer.1) }
    {
        let row = VerdictRow::of(alloc, self.file, self.told, judged, told)?;
        self.status = self.status.max(told.view.status());
        self.put(alloc, row)
    }

    /// Tells a row, or holds it back behind others that wait, and a refusal while the recorder may tell that it lost packets.
    fn put(&mut self, alloc: Global, row: VerdictRow<'a>) -> Result<(), PrintFault>
        ensures rows { Tells W.Write.contents self.old self.new result (row.entry ∷ []) }
        ensures status { self.new.status ≡ self.old.status }
        ensures why { IfErr result (IsPrintFault self.new.printer.writer.1) }
    {
        if self.waits(&row) {
            self.held.push(row)?;
            return Ok(());
        }
        self.print(alloc, row)
    }

    /// Whether a row is held back.
    fn waits(&self, row: &VerdictRow<'_>) -> bool
        ensures behind { self.now.held.items ≢ [] → result ≡ true }
        ensures none { self.now.held.items ≡ [] → self.now.may_lose ≡ false → result ≡ false }
        ensures refusal { self.now.may_lose ≡ true → IsSome row.now.frame → result ≡ true }
    {
        !self.held.is_empty() || (self.may_lose && row.frame.is_some())
    }

    /// Prints a row. A refusal is doubtful where the recorder lost packets.
    fn print(&mut self, alloc: Global, row: VerdictRow<'a>) -> Result<(), PrintFault>
        ensures prints { PrintsWith W.Write.contents self.old.dropped self.old.printer self.new.printer result (row.entry ∷ []) }
        ensures rest { self.new ≡ record self.old { printer = self.new.printer } }
        ensures why { IfErr result (IsPrintFault self.new.printer.writer.1) }
        ensures stays { self.old.printer.writer.1 ≡ true → self.new.printer.writer.1 ≡ true }
    {
        let row = row.with_dropped(self.dropped)?;
        self.printer.print(alloc, &row)
    }
}
