//! What there is to say of a transfer.

ghost use Rattle.std.specs.Prelude.{◌≡◌, ◌≢◌, ◌++◌, ℕ, List, [], IfOk, IfSome, IsErr, None, OnOk, option_map};
ghost use Rattle.audit_flows.specs.{Transfer};
ghost use Rattle.audit_flows.specs.Lines.{follows_request};
ghost use Rattle.audit_flows.specs.Transfers.{some_of};
ghost use Rattle.audit_recording.specs.Blame.Frames.{Carried, whole_of};
ghost use Rattle.audit_recording.specs.Blame.Named.{named_in};
ghost use Rattle.audit_recording.specs.Endings.Told.{IsEnding};
ghost use Rattle.audit_recording.specs.Judges.Kept.{IsWatching};
ghost use Rattle.audit_recording.specs.Rows.Accusing.{role_at};
ghost use Rattle.audit_recording.specs.Rows.Told.{rows_of, rows_told};
ghost use Rattle.audit_recording.specs.Session.Trails.{IsTrailAfter};
ghost use Rattle.audit_recording.specs.declared.judges.judging.Judging.{Judging as JudgingKind};
ghost use Rattle.audit_rows.specs.Accusing.{accused_of_row};
ghost use Rattle.audit_rows.specs.Charging.{IsChargeOf};
ghost use Rattle.audit_rows.specs.Doubting.{is_strangers, refusal_reasons, row_reasons};
ghost use Rattle.audit_rows.specs.Judging.{AreRefusalsKept, IsJudgedOf, IsToldOf, are_alike, comes_before, is_one_frame, said_there, view_at};
ghost use Rattle.audit_rows.specs.Viewing.{IsStanding, is_whole};
ghost use Rattle.audit_views.specs.Parties.{host_name};

use crate::charge::Charge;
use crate::told::Told;
use crate::viewed::Viewed;
use audit_recording::blame::{Blamed, Doubted, Ending, Missing, Reason, Stop, Trail, put_if};
use audit_recording::judges::{Judging, Verdicts};
use audit_recording::rows::{
    Accused, Point, Row, Rows, Said, Telling, accused_in_row, role_at, rows_told,
};
use audit_recording::session::Ended;
use std::alloc::{AllocError, Global};
use tftp_packet::End;

/// What there is to say of a transfer.
pub struct Judged {
    client: Option<Viewed>,
    server: Option<Viewed>,
    between: Option<Viewed>,
    /// What is kept of it beside its judges.
    trail: Trail,
    /// What makes a refusal doubtful.
    doubted: Doubted,
    /// Up to when the recording was read, in nanoseconds since 1970.
    until: u64,
}

impl Drop for Judged {
    // written out, since the prover takes a derived one apart again wherever a value is let go
    fn drop(self) {
        let Judged {
            client: _,
            server: _,
            between: _,
            trail: _,
            doubted: _,
            until: _,
        } = self;
    }
}

impl Judged {
    /// What there is to say of a transfer that has ended, which was judged there, and of whose client's datagrams these may be
    /// missing, by a recording that was read up to now. What was refused is told also where memory has run out since.
    pub fn new(alloc: Global, ended: Ended, judging: Judging, missing: Missing, now: u64) -> Self
        ensures judged { (x : Transfer) (named : List ℕ) (carried : List Carried) → IsTrailAfter ended.trail judging x named carried
            → IsWatching ended.watched judging x host_name (whole_of named carried) → IsJudgedOf result judging x named carried }
        ensures refused { AreRefusalsKept ended.watched.judges result }
        ensures missing { result.doubted.missing ≡ missing }
        ensures trail { result.trail ≡ ended.trail }
        ensures until { result.until ≡ now }
    {
        let Ended { trail, watched } = ended;
        let doubted = trail.doubted(watched.doubts(), missing);
        let Verdicts {
            client,
            server,
            between,
        } = watched.finish(alloc);
        Judged {
            client: Viewed::at_client(&trail, judging, client),
            server: Viewed::at_server(&trail, judging, server),
            between: Viewed::between(&trail, judging, between),
            trail,
            doubted,
            until: now,
        }
    }

    /// Which verdicts are told, where those of both ends have the same words or not: of two frames there are two rows.
    pub fn rows(&self, has_same_words: bool) -> Rows
        ensures { rows_of result ≡ rows_told (said_there self.now.client) (said_there self.now.server) (said_there self.now.between)
            (are_alike self.now.client self.now.server has_same_words) }
    {
        let (client, server) = (said_of(&self.client), said_of(&self.server));
        let between = said_of(&self.between);
        let is_alike = self.are_alike(has_same_words);
        rows_told(client.as_ref(), server.as_ref(), between.as_ref(), is_alike)
    }

    /// Whether both ends are told in one row.
    fn are_alike(&self, has_same_words: bool) -> bool
        ensures { result ≡ are_alike self.now.client self.now.server has_same_words }
    {
        match (&self.client, &self.server) {
            (Some(client), Some(server)) => {
                has_same_words && is_one_frame(client.frame(), server.frame())
            }
            _ => false,
        }
    }

    /// What is said in a row; nothing where the transfer was not judged at its point.
    pub fn told(&self, row: &Row) -> Option<Told<'_>>
        ensures is { IfSome result (λ told. IsToldOf told row.now self.now) }
        ensures none { result ≡ None → view_at row.now.point self.now ≡ None }
    {
        let view = self.view(row.point)?;
        Some(Told {
            place: row.place,
            view,
            telling: Telling {
                point: row.point,
                said: view.said(),
                between: said_of(&self.between),
            },
        })
    }

    /// The verdict at a point, if the transfer was judged there.
    pub fn view(&self, point: Point) -> Option<&Viewed>
        ensures { option_map (λ v. v.now) result ≡ view_at point self.now }
    {
        match point {
            Point::Client => self.client.as_ref(),
            Point::Server => self.server.as_ref(),
            Point::Between => self.between.as_ref(),
        }
    }

    /// Why a refusal in a row is no accusation, and why what is not whole there may be whole.
    pub fn reasons(&self, alloc: Global, told: &Told<'_>) -> Result<Vec<Reason>, AllocError>
        ensures listed { (judging : JudgingKind) (x : Transfer) (named : List ℕ) (carried : List Carried) → IsJudgedOf self.now judging x named carried
            → IfOk result (λ reasons. reasons.items ≡ row_reasons x (whole_of named carried) self.now.doubted told.now.telling told.now.view.now) }
        ensures spare { (judging : JudgingKind) (x : Transfer) (named : List ℕ) (carried : List Carried) → IsJudgedOf self.now judging x named carried
            → IsErr result → row_reasons x (whole_of named carried) self.now.doubted told.now.telling told.now.view.now ≢ [] }
    {
        let mut reasons = Vec::new(alloc);
        let put = self.put_reasons(&mut reasons, told);
        put?;
        Ok(reasons)
    }

    fn put_reasons(&self, reasons: &mut Vec<Reason>, told: &Told<'_>) -> Result<(), AllocError>
        ensures added { (judging : JudgingKind) (x : Transfer) (named : List ℕ) (carried : List Carried) → IsJudgedOf self.now judging x named carried
            → OnOk result (reasons.new.items ≡ reasons.old.items ++ row_reasons x (whole_of named carried) self.now.doubted told.now.telling told.now.view.now) }
        ensures spare { (judging : JudgingKind) (x : Transfer) (named : List ℕ) (carried : List Carried) → IsJudgedOf self.now judging x named carried
            → IsErr result → row_reasons x (whole_of named carried) self.now.doubted told.now.telling told.now.view.now ≢ [] }
    {
        match (&told.telling.said, &told.view.blamed) {
            (Said::Refused(_, _), Some(blamed)) => self.put_doubts(reasons, told, blamed),
            (Said::NotWhole, _) if told.view.found.is_cut_short() => {
                self.doubted.put_missing(reasons)
            }
            _ => Ok(()),
        }
    }

    /// Adds why the refusal of a datagram is no accusation.
    fn put_doubts(
        &self,
        reasons: &mut Vec<Reason>,
        told: &Told<'_>,
        blamed: &Blamed,
    ) -> Result<(), AllocError>
        ensures added { (judging : JudgingKind) (x : Transfer) (named : List ℕ) (carried : List Carried) → IsJudgedOf self.now judging x named carried
            → OnOk result (reasons.new.items ≡ reasons.old.items ++ refusal_reasons x (whole_of named carried) self.now.doubted told.now.telling blamed.now) }
        ensures spare { (judging : JudgingKind) (x : Transfer) (named : List ℕ) (carried : List Carried) → IsJudgedOf self.now judging x named carried
            → IsErr result → refusal_reasons x (whole_of named carried) self.now.doubted told.now.telling blamed.now ≢ [] }
    {
        let transfer = &self.trail.transfer;
        put_if(reasons, told.telling.depends_on_place(), Reason::Unplaced)?;
        put_if(reasons, told.is_unseen(blamed), Reason::Unseen)?;
        put_if(reasons, told.is_spoken_first(blamed), Reason::SpeaksFirst)?;
        put_if(reasons, told.goes_over(transfer, blamed), Reason::GoesOver)?;
        put_if(reasons, self.is_strangers(blamed), Reason::Stranger)?;
        self.doubted.put_reasons(reasons, blamed)
    }

    /// Whether neither end sent the datagram, which passed at the client.
    fn is_strangers(&self, blamed: &Blamed) -> bool
        ensures { (judging : JudgingKind) (x : Transfer) (named : List ℕ) (carried : List Carried) → IsJudgedOf self.now judging x named carried
            → result ≡ is_strangers x (whole_of named carried) blamed.now }
    {
        !blamed.is_beside && self.sender(blamed).is_none()
    }

    /// Which end sent the datagram; none where a stranger did.
    fn sender(&self, blamed: &Blamed) -> Option<End>
        ensures { (judging : JudgingKind) (x : Transfer) (named : List ℕ) (carried : List Carried) → IsJudgedOf self.now judging x named carried
            → result ≡ role_at x (whole_of named carried) blamed.now.source }
    {
        role_at(&self.trail.transfer, &self.trail.ends, blamed.source)
    }

    /// Whom a row accuses, of which these reasons for doubt are listed.
    pub fn accused(&self, told: &Told<'_>, reasons: &[Reason]) -> Option<Accused>
        ensures { (judging : JudgingKind) (x : Transfer) (named : List ℕ) (carried : List Carried) → IsJudgedOf self.now judging x named carried
            → result ≡ accused_of_row x (whole_of named carried) told.now.telling told.now.view.now.blamed reasons.now }
    {
        match &told.view.blamed {
            Some(blamed) => {
                accused_in_row(
                    &told.telling,
                    &self.trail.transfer,
                    &self.trail.ends,
                    blamed.source,
                    !reasons.is_empty(),
                )
            }
            None => None,
        }
    }

    /// Why what a row tells is doubtful, and whom it accuses. Where no reason is listed it takes no memory, so that an accusation
    /// is known whatever memory there is.
    pub fn charge(&self, alloc: Global, told: &Told<'_>) -> Result<Charge, AllocError>
        ensures charged { (judging : JudgingKind) (x : Transfer) (named : List ℕ) (carried : List Carried) → IsJudgedOf self.now judging x named carried
            → IfOk result (λ charge. IsChargeOf charge x (whole_of named carried) self.now.doubted told.now.telling told.now.view.now) }
        ensures spare { (judging : JudgingKind) (x : Transfer) (named : List ℕ) (carried : List Carried) → IsJudgedOf self.now judging x named carried
            → IsErr result → row_reasons x (whole_of named carried) self.now.doubted told.now.telling told.now.view.now ≢ [] }
    {
        let reasons = self.reasons(alloc, told)?;
        let accused = self.accused(told, reasons.as_slice());
        Ok(Charge {
            reasons,
            accused,
            is_refusal: told.telling.said.is_refused(),
        })
    }

    /// Of what a row refuses, whether that stands whatever datagrams of the transfer were missed; nothing where that is not known.
    pub fn stands(&self, told: &Told<'_>) -> Option<bool>
        ensures { (judging : JudgingKind) (x : Transfer) (named : List ℕ) (carried : List Carried) → IsJudgedOf self.now judging x named carried
            → IsStanding told.now.telling.point x (some_of x.number follows_request (whole_of named carried)) (named_in x (whole_of named carried)) told.now.view.now result }
    {
        told.stands(&self.trail, self.doubted.doubts.has_asked_more())
    }

    /// What is kept of the transfer beside its judges.
    pub fn trail(&self) -> &Trail
        ensures { result.now ≡ self.now.trail }
    {
        &self.trail
    }

    /// How the transfer ended, by what a row says.
    pub fn ending(&self, told: &Told<'_>) -> Ending<'_>
        ensures { (judging : JudgingKind) (x : Transfer) (named : List ℕ) (carried : List Carried) → IsJudgedOf self.now judging x named carried
            → IsEnding x named carried (is_whole told.now.view.now.found) self.now.until result }
    {
        self.trail.ending(told.view.found.is_whole(), self.until)
    }

    /// Whether the ERROR came before the datagram that is refused, and from the other end.
    pub fn comes_before(&self, stop: &Stop, told: &Told<'_>) -> bool
        ensures { (judging : JudgingKind) (x : Transfer) (named : List ℕ) (carried : List Carried) → IsJudgedOf self.now judging x named carried
            → result ≡ comes_before x (whole_of named carried) stop.now told.now.view.now.blamed }
    {
        match &told.view.blamed {
            Some(blamed) => match self.sender(blamed) {
                Some(role) => stop.frame < blamed.frame && stop.role != role,
                None => false,
            },
            None => false,
        }
    }
}

/// Whether they are one frame, or none.
fn is_one_frame(one: Option<u64>, other: Option<u64>) -> bool
    ensures { result ≡ is_one_frame one other }
{
    match (one, other) {
        (None, None) => true,
        (Some(one), Some(other)) => one == other,
        _ => false,
    }
}

/// What is said at a point, if the transfer was judged there.
fn said_of(viewed: &Option<Viewed>) -> Option<Said>
    ensures { result ≡ said_there viewed.now }
{
    match viewed {
        Some(viewed) => Some(viewed.said()),
        None => None,
    }
}
