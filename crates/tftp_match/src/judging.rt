//! The captures are read, their transfers found, and both judged.

ghost use Rattle.std.specs.Prelude.{◌≡◌, ◌⊎◌, [], ℕ, List, IfErr, IfNone, IfOk, IfSome, None, Ok, OnOk, Some, false, if◌then◌else◌, option_map, true};
ghost use Rattle.std.specs.Io.KnownBytes.{Appends};
ghost use Rattle.std.specs.Option.{option_or};
ghost use Rattle.net_udp.specs.Recording.{Step};
ghost use Rattle.audit_recording.specs.Blame.Frames.{Carried, whole_of};
ghost use Rattle.audit_recording.specs.Session.Kept.{IsSessionOf};
ghost use Rattle.audit_recording.specs.Session.Noted.{Noticed};
ghost use Rattle.audit_recording.specs.Session.Texts.{opened_count};
ghost use Rattle.tftp_rows.specs.Remarks.{remarks_text, rest_lines};
ghost use Rattle.tftp_rows.specs.Faults.{IsRemarkFault};
ghost use Rattle.tftp_match.specs.Captures.{IsCaptureOf, IsFirstPayload, IsNoted, capture_of, whole_left};
ghost use Rattle.tftp_match.specs.Captures.Capture.{Recording, Text as TextCapture};
ghost use Rattle.tftp_match.specs.Matching.{IsMisnamed, IsSaidOfBoth, IsSaidOfFiles, IsTakenAs, IsTakenOf, IsToldOfBoth, IsToldOfFiles, IsUnaskedTold, IsUnsaidOfFiles, IsUntakenOf, is_alone};
ghost use Rattle.tftp_match.specs.Recorded.{AreRecordedRequests};
ghost use Rattle.tftp_match.specs.Sides.{IsUntold};
ghost use Rattle.tftp_match.specs.Unread.{AreWordsOf, IsFileFault, IsHeldFault, IsToldAs, IsUnreadTold};

use crate::choice::Judged;
use crate::choosing::Side;
use crate::faults::MatchFault;
use crate::held::Held;
use crate::recorded::{Recorded, asked_in};
use crate::sides::judge_sides;
use crate::source::{Source, Whole};
use crate::texts::{LackFault, said_of};
use crate::unread::{UnreadFault, Worded};
use audit_recording::session::{Asked, Session};
use judge_pair::match_texts::PairSaid;
use std::alloc::Global;
use std::io::{Read, Write};
use tftp_packet::End;
use tftp_rows::{Remarks, TellFault};
use tftp_words::MatchRequest;

const TRANSFER: &str = "--transfer";

const SERVER_TRANSFER: &str = "--server-transfer";

/// What there is to say of two captures.
#[derive(Drop)]
pub struct Matching {
    /// What there is to say of both.
    pub said: PairSaid,
    /// The numbers of their transfers, where they are recordings.
    pub client: Option<u64>,
    pub server: Option<u64>,
}

/// What there is to say of the captures that two readers give; none where one can't be judged, which is told.
pub fn judge_captures<F: Worded, R: Read + Drop, S: Read + Drop, E: Write + Drop>(
    alloc: Global,
    request: &MatchRequest<'_>,
    client: R,
    server: S,
    remarks: &mut Remarks<'_, E>,
) -> Result<Option<Matching>, MatchFault>
    ensures said { IfOk result (λ found. IfSome found (IsSaidOfFiles request.now remarks.old.program.now (R.Read.remaining client) (S.Read.remaining server) (E.Write.contents remarks.old.errors.0) (E.Write.contents remarks.new.errors.0))) }
    ensures told { IfOk result (λ found. IfNone found (IsToldOfFiles (AreWordsOf F.from_gives F.output) request.now remarks.old.program.now (R.Read.remaining client) (S.Read.remaining server) (E.Write.contents remarks.old.errors.0) (E.Write.contents remarks.new.errors.0))) }
    ensures fault { IfErr result (IsUnsaidOfFiles request.now (R.Read.remaining client) (S.Read.remaining server) remarks.new.errors.1) }
    ensures same { remarks.new ≡ record remarks.old { errors = remarks.new.errors } }
{
    let Some(client) = begun::<F, _, _>(alloc, request, request.client, client, remarks)? else {
        return Ok(None);
    };
    let Some(server) = begun::<F, _, _>(alloc, request, request.server, server, remarks)? else {
        return Ok(None);
    };
    judge_read::<F, _, _, _>(alloc, request, client, server, remarks)
}

/// The capture of a file, and a recording is read and told of; none where it is not read, which is told.
fn begun<F: Worded, R: Read + Drop, E: Write + Drop>(
    alloc: Global,
    request: &MatchRequest<'_>,
    file: &str,
    reader: R,
    remarks: &mut Remarks<'_, E>,
) -> Result<Option<Source<R>>, MatchFault>
    ensures begun { IfOk result (λ found. IfSome found (λ source. IsCaptureOf request.now.services.items (R.Read.remaining reader) (capture_of R.Read.remaining source)
        × IsNoted remarks.old.program.now file.now request.now.services.items (capture_of R.Read.remaining source) (E.Write.contents remarks.old.errors.0) (E.Write.contents remarks.new.errors.0))) }
    ensures unread { IfOk result (λ found. IfNone found (IsUnreadTold (AreWordsOf F.from_gives F.output) (IsFileFault (R.Read.remaining reader)) remarks.old.program.now file.now (E.Write.contents remarks.old.errors.0) (E.Write.contents remarks.new.errors.0))) }
    ensures fault { IfErr result (IsUntold remarks.new.errors.1) }
    ensures same { remarks.new ≡ record remarks.old { errors = remarks.new.errors } }
{
    let source = Source::begin(alloc, request.services.as_slice(), reader);
    let Some(source) = told::<F, _, _>(remarks, file, source)? else {
        return Ok(None);
    };
    tell_of(alloc, file, &source, remarks)?;
    Ok(Some(source))
}

/// Tells what there is to tell of a recording as a whole, and of a text nothing.
fn tell_of<R: Read + Drop, E: Write + Drop>(
    alloc: Global,
    file: &str,
    source: &Source<R>,
    remarks: &mut Remarks<'_, E>,
) -> Result<(), MatchFault>
    ensures noted { (named : List ℕ) → OnOk result (IsNoted remarks.old.program.now file.now named (capture_of R.Read.remaining source.now) (E.Write.contents remarks.old.errors.0) (E.Write.contents remarks.new.errors.0)) }
    ensures fault { IfErr result (IsUntold remarks.new.errors.1) }
    ensures same { remarks.new ≡ record remarks.old { errors = remarks.new.errors } }
{
    match source {
        Source::Text(_) => Ok(()),
        Source::Recording(session) => tell_recording(alloc, file, session, remarks),
    }
}

/// Tells what there is to tell of a recording as a whole.
fn tell_recording<E: Write + Drop>(
    alloc: Global,
    file: &str,
    session: &Session,
    remarks: &mut Remarks<'_, E>,
) -> Result<(), MatchFault>
    ensures noted { (named : List ℕ) (history : List Step) (carried : List Carried) (s : Noticed) → IsSessionOf session.now named [] history carried s
        → OnOk result (Appends (E.Write.contents remarks.old.errors.0) (E.Write.contents remarks.new.errors.0) (remarks_text remarks.old.program.now file.now (rest_lines session.now.notes s (opened_count (whole_of named carried))))) }
    ensures fault { IfErr result (IsUntold remarks.new.errors.1) }
    ensures same { remarks.new ≡ record remarks.old { errors = remarks.new.errors } }
{
    let transfers = session.transfers(alloc)?;
    remarks.tell_rest(alloc, file, &session.notes, transfers.len() as u64)?;
    Ok(())
}

/// What a result has; none where that is a fault, which is told of the file.
pub fn told<F: Worded, T, E: Write + Drop>(
    remarks: &mut Remarks<'_, E>,
    file: &str,
    outcome: Result<T, UnreadFault>,
) -> Result<Option<T>, TellFault>
    ensures some { (value : T) → outcome ≡ Ok value → (result ≡ Ok (Some value)) × (remarks.new ≡ remarks.old) }
    ensures none { IfErr outcome (λ fault. IfOk result (λ found. (found ≡ None) × IsToldAs (AreWordsOf F.from_gives F.output fault) remarks.old.program.now file.now (E.Write.contents remarks.old.errors.0) (E.Write.contents remarks.new.errors.0))) }
    ensures fault { IfErr result (IsRemarkFault remarks.new.errors.1) }
    ensures same { remarks.new ≡ record remarks.old { errors = remarks.new.errors } }
{
    match outcome {
        Ok(value) => Ok(Some(value)),
        Err(fault) => {
            remarks.tell_fault(file, F::from(fault))?;
            Ok(None)
        }
    }
}

/// What there is to say of two captures that were read as far as it is told of them.
fn judge_read<F: Worded, R: Read + Drop, S: Read + Drop, E: Write + Drop>(
    alloc: Global,
    request: &MatchRequest<'_>,
    client: Source<R>,
    server: Source<S>,
    remarks: &mut Remarks<'_, E>,
) -> Result<Option<Matching>, MatchFault>
    ensures said { IfOk result (λ found. IfSome found (λ m. IsSaidOfBoth request.now (capture_of R.Read.remaining client) (capture_of S.Read.remaining server) m × (remarks.new ≡ remarks.old))) }
    ensures told { IfOk result (λ found. IfNone found (IsToldOfBoth (AreWordsOf F.from_gives F.output) request.now (capture_of R.Read.remaining client) (capture_of S.Read.remaining server) remarks.old.program.now (E.Write.contents remarks.old.errors.0) (E.Write.contents remarks.new.errors.0))) }
    ensures fault { IfErr result (λ fault. IsUntold remarks.new.errors.1 fault ⊎ IsMisnamed request.now (capture_of R.Read.remaining client) (capture_of S.Read.remaining server) fault) }
    ensures same { remarks.new ≡ record remarks.old { errors = remarks.new.errors } }
{
    match client {
        Source::Text(client) => beside_text::<F, _, _, _>(alloc, request, client, server, remarks),
        Source::Recording(client) => beside_recording::<F, _, _>(
            alloc, request, &client, server, remarks,
        ),
    }
}

/// The same beside a text of the client.
fn beside_text<F: Worded, R: Read + Drop, S: Read + Drop, E: Write + Drop>(
    alloc: Global,
    request: &MatchRequest<'_>,
    client: Whole<R>,
    server: Source<S>,
    remarks: &mut Remarks<'_, E>,
) -> Result<Option<Matching>, MatchFault>
    ensures said { IfOk result (λ found. IfSome found (λ m. IsSaidOfBoth request.now (TextCapture (whole_left R.Read.remaining client)) (capture_of S.Read.remaining server) m × (remarks.new ≡ remarks.old))) }
    ensures told { IfOk result (λ found. IfNone found (IsToldOfBoth (AreWordsOf F.from_gives F.output) request.now (TextCapture (whole_left R.Read.remaining client)) (capture_of S.Read.remaining server) remarks.old.program.now (E.Write.contents remarks.old.errors.0) (E.Write.contents remarks.new.errors.0))) }
    ensures fault { IfErr result (λ fault. IsUntold remarks.new.errors.1 fault ⊎ IsMisnamed request.now (TextCapture (whole_left R.Read.remaining client)) (capture_of S.Read.remaining server) fault) }
    ensures same { remarks.new ≡ record remarks.old { errors = remarks.new.errors } }
{
    match server {
        Source::Text(server) => Ok(Some(texts(alloc, request, client, server)?)),
        Source::Recording(server) => {
            let judged = recorded_server::<F, _, _>(alloc, request, client, &server, remarks)?;
            Ok(numbered(judged, false, true))
        }
    }
}

/// The same beside a recording of the client.
fn beside_recording<F: Worded, S: Read + Drop, E: Write + Drop>(
    alloc: Global,
    request: &MatchRequest<'_>,
    client: &Session,
    server: Source<S>,
    remarks: &mut Remarks<'_, E>,
) -> Result<Option<Matching>, MatchFault>
    ensures said { IfOk result (λ found. IfSome found (λ m. IsSaidOfBoth request.now (Recording client.now) (capture_of S.Read.remaining server) m × (remarks.new ≡ remarks.old))) }
    ensures told { IfOk result (λ found. IfNone found (IsToldOfBoth (AreWordsOf F.from_gives F.output) request.now (Recording client.now) (capture_of S.Read.remaining server) remarks.old.program.now (E.Write.contents remarks.old.errors.0) (E.Write.contents remarks.new.errors.0))) }
    ensures fault { IfErr result (λ fault. IsUntold remarks.new.errors.1 fault ⊎ IsMisnamed request.now (Recording client.now) (capture_of S.Read.remaining server) fault) }
    ensures same { remarks.new ≡ record remarks.old { errors = remarks.new.errors } }
{
    match server {
        Source::Text(server) => {
            let judged = recorded_client::<F, _, _>(alloc, request, client, server, remarks)?;
            Ok(numbered(judged, true, false))
        }
        Source::Recording(server) => {
            let judged = recordings::<F, _>(alloc, request, client, &server, remarks)?;
            Ok(numbered(judged, true, true))
        }
    }
}

/// What was found, with the numbers of the transfers in those captures that are recordings.
fn numbered(found: Option<Judged>, has_client: bool, has_server: bool) -> Option<Matching>
    ensures { result ≡ option_map (λ judged. record { said = judged.said; client = if has_client then Some judged.client else None; server = if has_server then Some judged.server else None }) found }
{
    let Judged {
        client,
        server,
        said,
    } = found?;
    Some(Matching {
        said,
        client: if has_client { Some(client) } else { None },
        server: if has_server { Some(server) } else { None },
    })
}

/// Two texts, of which no transfer can be named.
fn texts<R: Read + Drop, S: Read + Drop>(
    alloc: Global,
    request: &MatchRequest<'_>,
    client: Whole<R>,
    server: Whole<S>,
) -> Result<Matching, MatchFault>
    ensures said { IfOk result (IsSaidOfBoth request.now (TextCapture (whole_left R.Read.remaining client)) (TextCapture (whole_left S.Read.remaining server))) }
    ensures fault { IfErr result (IsMisnamed request.now (TextCapture (whole_left R.Read.remaining client)) (TextCapture (whole_left S.Read.remaining server))) }
{
    if request.transfer.is_some() || request.server_transfer.is_some() {
        return Err(MatchFault::NoRecording);
    }
    Ok(Matching {
        said: said_of(alloc, request.rollover, client, server),
        client: None,
        server: None,
    })
}

/// A recording of the client and a text of the server.
fn recorded_client<F: Worded, S: Read + Drop, E: Write + Drop>(
    alloc: Global,
    request: &MatchRequest<'_>,
    client: &Session,
    server: Whole<S>,
    remarks: &mut Remarks<'_, E>,
) -> Result<Option<Judged>, MatchFault>
    ensures taken { IfOk result (λ found. IfSome found (λ judged. IsTakenAs request.now (Recording client.now) (TextCapture (whole_left S.Read.remaining server)) judged × (remarks.new ≡ remarks.old))) }
    ensures told { IfOk result (λ found. IfNone found (IsToldOfBoth (AreWordsOf F.from_gives F.output) request.now (Recording client.now) (TextCapture (whole_left S.Read.remaining server)) remarks.old.program.now (E.Write.contents remarks.old.errors.0) (E.Write.contents remarks.new.errors.0))) }
    ensures fault { IfErr result (λ fault. IsUntold remarks.new.errors.1 fault ⊎ IsMisnamed request.now (Recording client.now) (TextCapture (whole_left S.Read.remaining server)) fault) }
    ensures same { remarks.new ≡ record remarks.old { errors = remarks.new.errors } }
{
    if request.server_transfer.is_some() {
        return Err(MatchFault::NoServerRecording);
    }
    let Some(asked) = asked_of(alloc, request.client, client, request.transfer, remarks)? else {
        return Ok(None);
    };
    let Some(held) = held_of::<F, _, _>(alloc, request.server, server, asked.len() != 1, remarks)?
    else {
        return Ok(None);
    };
    beside_held_server(alloc, request, client, asked.as_slice(), &held, remarks)
}

/// The same where the requests of the recording are known, and the text is in memory.
fn beside_held_server<E: Write + Drop>(
    alloc: Global,
    request: &MatchRequest<'_>,
    client: &Session,
    asked: &[Asked<'_>],
    server: &Held,
    remarks: &mut Remarks<'_, E>,
) -> Result<Option<Judged>, MatchFault>
    ensures taken { AreRecordedRequests client.now request.now.transfer asked.now → (is_alone asked.now ≡ false → IsFirstPayload server.now.bytes.items server.now.request.items)
        → IfOk result (λ found. IfSome found (λ judged. IsTakenOf request.now (Recording client.now) (TextCapture (Some server.now.bytes.items)) judged × (remarks.new ≡ remarks.old))) }
    ensures untaken { AreRecordedRequests client.now request.now.transfer asked.now → (is_alone asked.now ≡ false → IsFirstPayload server.now.bytes.items server.now.request.items)
        → IfOk result (λ found. IfNone found (IsUntakenOf request.now (Recording client.now) (TextCapture (Some server.now.bytes.items)) remarks.old.program.now (E.Write.contents remarks.old.errors.0) (E.Write.contents remarks.new.errors.0))) }
    ensures fault { IfErr result (IsUntold remarks.new.errors.1) }
    ensures same { remarks.new ≡ record remarks.old { errors = remarks.new.errors } }
{
    let recorded = Recorded {
        file: request.client,
        end: End::Client,
        session: client,
    };
    let others = [server.asked()];
    let own = Side {
        file: request.client,
        option: Some(TRANSFER),
        asked,
        texts: &recorded,
    };
    let other = Side {
        file: request.server,
        option: None,
        asked: &others,
        texts: server,
    };
    judge_sides(alloc, request.rollover, &own, &other, remarks)
}

/// A text of the client and a recording of the server, whose transfer either word names.
fn recorded_server<F: Worded, R: Read + Drop, E: Write + Drop>(
    alloc: Global,
    request: &MatchRequest<'_>,
    client: Whole<R>,
    server: &Session,
    remarks: &mut Remarks<'_, E>,
) -> Result<Option<Judged>, MatchFault>
    ensures taken { IfOk result (λ found. IfSome found (λ judged. IsTakenAs request.now (TextCapture (whole_left R.Read.remaining client)) (Recording server.now) judged × (remarks.new ≡ remarks.old))) }
    ensures told { IfOk result (λ found. IfNone found (IsToldOfBoth (AreWordsOf F.from_gives F.output) request.now (TextCapture (whole_left R.Read.remaining client)) (Recording server.now) remarks.old.program.now (E.Write.contents remarks.old.errors.0) (E.Write.contents remarks.new.errors.0))) }
    ensures fault { IfErr result (λ fault. IsUntold remarks.new.errors.1 fault ⊎ IsMisnamed request.now (TextCapture (whole_left R.Read.remaining client)) (Recording server.now) fault) }
    ensures same { remarks.new ≡ record remarks.old { errors = remarks.new.errors } }
{
    if request.transfer.is_some() && request.server_transfer.is_some() {
        return Err(MatchFault::NoClientRecording);
    }
    let number = request.server_transfer.or(request.transfer);
    let Some(asked) = asked_of(alloc, request.server, server, number, remarks)? else {
        return Ok(None);
    };
    let Some(held) = held_of::<F, _, _>(alloc, request.client, client, asked.len() != 1, remarks)?
    else {
        return Ok(None);
    };
    beside_held_client(alloc, request, &held, server, asked.as_slice(), remarks)
}

/// The same where the text is in memory, and the requests of the recording are known.
fn beside_held_client<E: Write + Drop>(
    alloc: Global,
    request: &MatchRequest<'_>,
    client: &Held,
    server: &Session,
    asked: &[Asked<'_>],
    remarks: &mut Remarks<'_, E>,
) -> Result<Option<Judged>, MatchFault>
    ensures taken { AreRecordedRequests server.now (option_or request.now.server_transfer request.now.transfer) asked.now → (is_alone asked.now ≡ false → IsFirstPayload client.now.bytes.items client.now.request.items)
        → IfOk result (λ found. IfSome found (λ judged. IsTakenOf request.now (TextCapture (Some client.now.bytes.items)) (Recording server.now) judged × (remarks.new ≡ remarks.old))) }
    ensures untaken { AreRecordedRequests server.now (option_or request.now.server_transfer request.now.transfer) asked.now → (is_alone asked.now ≡ false → IsFirstPayload client.now.bytes.items client.now.request.items)
        → IfOk result (λ found. IfNone found (IsUntakenOf request.now (TextCapture (Some client.now.bytes.items)) (Recording server.now) remarks.old.program.now (E.Write.contents remarks.old.errors.0) (E.Write.contents remarks.new.errors.0))) }
    ensures fault { IfErr result (IsUntold remarks.new.errors.1) }
    ensures same { remarks.new ≡ record remarks.old { errors = remarks.new.errors } }
{
    let recorded = Recorded {
        file: request.server,
        end: End::Server,
        session: server,
    };
    let others = [client.asked()];
    let own = Side {
        file: request.client,
        option: None,
        asked: &others,
        texts: client,
    };
    let other = Side {
        file: request.server,
        option: Some(TRANSFER),
        asked,
        texts: &recorded,
    };
    judge_sides(alloc, request.rollover, &own, &other, remarks)
}

/// Two recordings.
fn recordings<F: Worded, E: Write + Drop>(
    alloc: Global,
    request: &MatchRequest<'_>,
    client: &Session,
    server: &Session,
    remarks: &mut Remarks<'_, E>,
) -> Result<Option<Judged>, MatchFault>
    ensures taken { IfOk result (λ found. IfSome found (λ judged. IsTakenAs request.now (Recording client.now) (Recording server.now) judged × (remarks.new ≡ remarks.old))) }
    ensures told { IfOk result (λ found. IfNone found (IsToldOfBoth (AreWordsOf F.from_gives F.output) request.now (Recording client.now) (Recording server.now) remarks.old.program.now (E.Write.contents remarks.old.errors.0) (E.Write.contents remarks.new.errors.0))) }
    ensures fault { IfErr result (IsUntold remarks.new.errors.1) }
    ensures same { remarks.new ≡ record remarks.old { errors = remarks.new.errors } }
{
    let Some(clients) = asked_of(alloc, request.client, client, request.transfer, remarks)? else {
        return Ok(None);
    };
    let number = request.server_transfer;
    let Some(servers) = asked_of(alloc, request.server, server, number, remarks)? else {
        return Ok(None);
    };
    let (clients, servers) = (clients.as_slice(), servers.as_slice());
    both_recorded(alloc, request, client, clients, server, servers, remarks)
}

/// The same where their requests are known.
fn both_recorded<E: Write + Drop>(
    alloc: Global,
    request: &MatchRequest<'_>,
    client: &Session,
    clients: &[Asked<'_>],
    server: &Session,
    servers: &[Asked<'_>],
    remarks: &mut Remarks<'_, E>,
) -> Result<Option<Judged>, MatchFault>
    ensures taken { AreRecordedRequests client.now request.now.transfer clients.now → AreRecordedRequests server.now request.now.server_transfer servers.now
        → IfOk result (λ found. IfSome found (λ judged. IsTakenOf request.now (Recording client.now) (Recording server.now) judged × (remarks.new ≡ remarks.old))) }
    ensures untaken { AreRecordedRequests client.now request.now.transfer clients.now → AreRecordedRequests server.now request.now.server_transfer servers.now
        → IfOk result (λ found. IfNone found (IsUntakenOf request.now (Recording client.now) (Recording server.now) remarks.old.program.now (E.Write.contents remarks.old.errors.0) (E.Write.contents remarks.new.errors.0))) }
    ensures fault { IfErr result (IsUntold remarks.new.errors.1) }
    ensures same { remarks.new ≡ record remarks.old { errors = remarks.new.errors } }
{
    let recorded = Recorded {
        file: request.client,
        end: End::Client,
        session: client,
    };
    let others = Recorded {
        file: request.server,
        end: End::Server,
        session: server,
    };
    let own = Side {
        file: request.client,
        option: Some(TRANSFER),
        asked: clients,
        texts: &recorded,
    };
    let other = Side {
        file: request.server,
        option: Some(SERVER_TRANSFER),
        asked: servers,
        texts: &others,
    };
    judge_sides(alloc, request.rollover, &own, &other, remarks)
}

/// The requests of a recording's transfers, or of the one that is named; none where there is none with that number, which is told.
fn asked_of<'a, E: Write + Drop>(
    alloc: Global,
    file: &str,
    session: &'a Session,
    number: Option<u64>,
    remarks: &mut Remarks<'_, E>,
) -> Result<Option<Vec<Asked<'a>>>, TellFault>
    ensures asked { IfOk result (λ found. IfSome found (λ asked. AreRecordedRequests session.now number asked.items × (remarks.new ≡ remarks.old))) }
    ensures unknown { IfOk result (λ found. IfNone found (IsUnaskedTold remarks.old.program.now file.now number session.now (E.Write.contents remarks.old.errors.0) (E.Write.contents remarks.new.errors.0))) }
    ensures fault { IfErr result (IsRemarkFault remarks.new.errors.1) }
    ensures same { remarks.new ≡ record remarks.old { errors = remarks.new.errors } }
{
    match asked_in(alloc, session, number) {
        Ok(asked) => Ok(Some(asked)),
        Err(fault) => {
            remarks.tell_fault(file, LackFault::Text(fault))?;
            Ok(None)
        }
    }
}

/// A text in memory, with its request, where that is wanted; none where it is not read, which is told.
fn held_of<F: Worded, R: Read + Drop, E: Write + Drop>(
    alloc: Global,
    file: &str,
    text: R,
    wants_request: bool,
    remarks: &mut Remarks<'_, E>,
) -> Result<Option<Held>, TellFault>
    ensures held { IfOk result (λ found. IfSome found (λ held. IfSome (R.Read.remaining text) (λ bytes. held.bytes.items ≡ bytes)
        × (wants_request ≡ true → IsFirstPayload held.bytes.items held.request.items) × (remarks.new ≡ remarks.old))) }
    ensures unread { IfOk result (λ found. IfNone found (IsUnreadTold (AreWordsOf F.from_gives F.output) (IsHeldFault wants_request (R.Read.remaining text)) remarks.old.program.now file.now (E.Write.contents remarks.old.errors.0) (E.Write.contents remarks.new.errors.0))) }
    ensures fault { IfErr result (IsRemarkFault remarks.new.errors.1) }
    ensures same { remarks.new ≡ record remarks.old { errors = remarks.new.errors } }
{
    let held = Held::read(alloc, text, wants_request);
    told::<F, _, _>(remarks, file, held)
}
