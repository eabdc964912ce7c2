//! The transfers of a recording at its end, with their texts.

ghost use Rattle.std.specs.Prelude.{◌≡◌, ◌==◌, ◌-◌, ◌∷◌, [], ℕ, List, IfErr, IfOk, None, if◌then◌else◌, slice_get};
ghost use Rattle.audit_recording.specs.Blame.Frames.{Carried, whole_of};
ghost use Rattle.audit_recording.specs.Session.Requests.{AreAsked, IsAskedAs};
ghost use Rattle.audit_recording.specs.Session.Texts.{IsNoneNumbered};
ghost use Rattle.audit_recording.specs.declared.session.requests.Asked.{Asked as AskedKind};
ghost use Rattle.tftp_match.specs.Recorded.{AreRecordedRequests, IsRecordedLack, IsRecordedText, IsUnasked};

use crate::texts::{LackFault, Text, Texts};
use audit_recording::session::{Asked, Session, TextAt, TextFault, requests_of};
use net_streams::streams::LineWriter;
use std::alloc::Global;
use tftp_packet::End;

/// A recording at an end.
#[derive(Clone, Copy)]
pub struct Recorded<'a> {
    /// Its file; `-` is standard input.
    pub file: &'a str,
    /// The end at which it was made.
    pub end: End,
    /// What was read of it.
    pub session: &'a Session,
}

/// The requests of a recording's transfers; where one is named, of that.
pub fn asked_in(
    alloc: Global,
    session: &Session,
    number: Option<u64>,
) -> Result<Vec<Asked<'_>>, TextFault>
    ensures asked { IfOk result (λ asked. AreRecordedRequests session.now number asked.items) }
    ensures none { IfErr result (IsUnasked session.now number) }
{
    let asked = requests_of(alloc, session)?;
    match number {
        Some(number) => one_of(alloc, asked.as_slice(), number),
        None => Ok(asked),
    }
}

/// Of these requests that with this number, from 1.
fn one_of<'a>(alloc: Global, asked: &[Asked<'a>], number: u64) -> Result<Vec<Asked<'a>>, TextFault>
    ensures one { (named : List ℕ) (carried : List Carried) → AreAsked named carried asked.now
        → IfOk result (λ found. (one : AskedKind) × (found.items ≡ one ∷ []) × IsAskedAs named carried number one) }
    ensures none { (named : List ℕ) (carried : List Carried) → AreAsked named carried asked.now → IfErr result (IsNoneNumbered number (whole_of named carried)) }
{
    match request_at(asked, number) {
        Some(one) => Ok(Vec::from_slice(alloc, &[one])?),
        None => Err(TextFault::NoTransfer(number, asked.len())),
    }
}

/// The request with this number, from 1.
fn request_at<'a>(asked: &[Asked<'a>], number: u64) -> Option<Asked<'a>>
    ensures { result ≡ if number == 0 then None else slice_get asked.now (number - 1) }
{
    if number == 0 {
        return None;
    }
    let place = usize::try_from(number - 1).unwrap_or(usize::MAX);
    asked.get(place).copied()
}

impl Texts for Recorded<'_> {
    ghost is_text = { λ r number text. IsRecordedText r.session.now r.end r.file.now number text };

    ghost is_lack = { λ r number fault. IsRecordedLack r.session.now r.end r.file.now number fault };

    fn text(&self, alloc: Global, number: u64) -> Result<Text<'_>, LackFault> {
        let found = TextAt::find(alloc, self.session, number, self.end, self.file)?;
        let mut written = LineWriter::new(alloc, Vec::new(alloc));
        match found.write(&mut written, self.end) {
            Ok(()) => Ok(Text::Written(written.finish().0)),
            Err(_) => Err(LackFault::Memory),
        }
    }
}
