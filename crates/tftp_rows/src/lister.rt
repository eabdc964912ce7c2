//! Transfers are listed, each in a row.

ghost use Rattle.std.specs.Prelude.{◌≡◌, ◌⊎◌, ◌+◌, ◌-◌, ◌^◌, ℕ, IfErr, List, None, Ok, OnErr, OnOk, Option, false, if◌then◌else◌, min, true};
ghost use Rattle.net_udp.specs.Recording.{Step};
ghost use Rattle.audit_recording.specs.Blame.Frames.{Carried, whole_of};
ghost use Rattle.audit_recording.specs.Judges.{is_among, opened};
ghost use Rattle.audit_recording.specs.Session.Kept.{IsSessionAfter, IsSessionOf};
ghost use Rattle.audit_recording.specs.Session.Noted.{Noticed};
ghost use Rattle.audit_recording.specs.Session.Over.{IsOldestOver};
ghost use Rattle.tftp_rows.specs.Faults.{IsPrintFault, IsTellFault};
ghost use Rattle.tftp_rows.specs.Listed.{ListsNext, ListsPart, ListsTurns, ListsTurnsPart};
ghost use Rattle.tftp_rows.specs.declared.listing.ListRow.{ListRow as ListRowKind};

use crate::listing::ListRow;
use crate::printing::{Form, PrintFault, RowPrinter};
use crate::reading::TellFault;
use audit_recording::progress::read_until;
use audit_recording::session::Session;
use std::alloc::Global;
use std::io::Write;

/// Lists transfers, each as soon as nothing that comes later changes what is told of it.
#[derive(Drop)]
pub struct Lister<W: Drop> {
    printer: RowPrinter<W>,
    /// How many transfers were listed.
    pub told: u64,
    /// 0, or 2 after a fault.
    pub status: u8,
}

impl<W: Write + Drop> Lister<W> {
    /// Nothing was listed.
    pub fn new(writer: W, form: Form) -> Self
        ensures printer { result.printer ≡ record { writer = (writer, false); form = form; is_headed = false } }
        ensures told { result.told ≡ 0 }
        ensures status { result.status ≡ 0 }
    {
        Lister {
            printer: RowPrinter::new(writer, form),
            told: 0,
            status: 0,
        }
    }

    /// Lists the transfers of which all is known, from the oldest on.
    pub fn list_over(&mut self, alloc: Global, session: &mut Session) -> Result<(), PrintFault>
        ensures turns { (named out : List ℕ) (history : List Step) (carried : List Carried) (s : Noticed) → IsSessionAfter session.old named out history carried s
            → OnOk result (ListsTurns W.Write.contents (λ before. IsOldestOver before named carried s) self.old self.new session.new named out history carried s) }
        ensures part { (named out : List ℕ) (history : List Step) (carried : List Carried) (s : Noticed) → IsSessionAfter session.old named out history carried s
            → OnErr result (ListsTurnsPart W.Write.contents (λ before. IsOldestOver before named carried s) self.old self.new named out history carried s) }
        ensures why { IfErr result (IsPrintFault self.new.printer.writer.1) }
    {
        for _ in 0..session.count() {
            if !session.is_first_over() {
                return Ok(());
            }
            if !self.list_oldest(alloc, session)? {
                return Ok(());
            }
        }
        Ok(())
    }

    /// Lists all transfers that were not listed, where the recording has ended.
    pub fn list_all(&mut self, alloc: Global, session: &mut Session) -> Result<(), TellFault>
        ensures turns { (named out : List ℕ) (history : List Step) (carried : List Carried) (s : Noticed) → IsSessionOf session.old named out history carried s
            → OnOk result ((turns : ListsTurns W.Write.contents (λ before. Unit {0}) self.old self.new session.new named out history carried s)
            × ((n : ℕ) → (opened n (whole_of named carried) ≡ None) ⊎ (is_among n turns.left ≡ true))) }
        ensures part { (named out : List ℕ) (history : List Step) (carried : List Carried) (s : Noticed) → IsSessionOf session.old named out history carried s
            → OnErr result (ListsTurnsPart W.Write.contents (λ before. Unit {0}) self.old self.new named out history carried s) }
        ensures notes { session.new.notes ≡ session.old.notes }
        ensures why { (file : Option (List ℕ)) → IfErr result (IsTellFault file self.new.printer.writer.1 self.new.told) }
    {
        for _turn in 0..u64::MAX {
            if !self.list_oldest(alloc, session)? {
                return Ok(());
            }
        }
        Err(TellFault::TooMany)
    }

    /// Ends a list, where its recording was read whole, or not.
    pub(crate) fn end(&mut self, is_whole: bool)
        ensures { self.new ≡ record self.old { status = if is_whole then self.old.status else 2 } }
    {
        if !is_whole {
            self.status = 2;
        }
    }

    /// Lists the oldest transfer, if there is one; whether there was. It stays a call, since the room of a transfer that is
    /// handed out would be cleared for each datagram after which none is over.
    #[inline(never)]
    fn list_oldest(&mut self, alloc: Global, session: &mut Session) -> Result<bool, PrintFault>
        ensures told { (named out : List ℕ) (history : List Step) (carried : List Carried) (s : Noticed) → IsSessionOf session.old named out history carried s
            → result ≡ Ok true → (row : ListRowKind) × ListsNext W.Write.contents self.old self.new row session.new named out history carried s }
        ensures part { (named out : List ℕ) (history : List Step) (carried : List Carried) (s : Noticed) → IsSessionOf session.old named out history carried s
            → OnErr result (ListsPart W.Write.contents self.old self.new named out history carried s) }
        ensures nothing { result ≡ Ok false → self.new ≡ self.old }
        ensures notes { session.new.notes ≡ session.old.notes }
        ensures same_session { (named out : List ℕ) (history : List Step) (carried : List Carried) (s : Noticed) → IsSessionOf session.old named out history carried s
            → result ≡ Ok false → IsSessionOf session.new named out history carried s }
        ensures all { (named out : List ℕ) (history : List Step) (carried : List Carried) (s : Noticed) → IsSessionOf session.old named out history carried s
            → result ≡ Ok false → (n : ℕ) → (opened n (whole_of named carried) ≡ None) ⊎ (is_among n out ≡ true) }
        ensures why { IfErr result (IsPrintFault self.new.printer.writer.1) }
        ensures number { result ≡ Ok true → self.new.told ≡ min (self.old.told + 1) (2 ^ 64 - 1) }
    {
        let Some(ended) = session.pop() else {
            return Ok(false);
        };
        self.told = self.told.saturating_add(1);
        let row = ListRow::of(alloc, self.told, &ended.trail, read_until(session))?;
        self.printer.print_listed(alloc, &row)?;
        Ok(true)
    }
}
