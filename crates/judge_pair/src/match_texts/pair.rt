ghost use Rattle.std.specs.Prelude.{◌≡◌, ◌⊎◌, ◌↔◌, ℕ, List, [], false, true, Option, None, Some, is_some, Result, IfOk, IfErr};
ghost use Rattle.std.specs.Io.KnownBytes.{Consumes, IsAtEnd};
ghost use Rattle.tftp_capture.specs.{IsCapture, Numbered, header_of};
ghost use Rattle.tftp_packet.specs.{End as EndKind, Rollover as RolloverKind};
ghost use Rattle.net_streams.specs.{Standing};
ghost use Rattle.tftp_packet.specs.Hosts.{Header as HeaderParts};
ghost use Rattle.law_model.specs.Model.{Meaning as MeaningParts};
ghost use Rattle.tftp_judge.specs.{EndsText, IsOfText, IsReadVerdict, IsReadVerdictBy, IsTextVerdict, IsTextVerdictBy, SaysReadFailed, WantsMemory, header_by, Verdict as VerdictKind};
ghost use Rattle.law_pair.specs.{AreConsistent};
ghost use Rattle.judge_pair.specs.Judge.Flags.{flags_in};
ghost use Rattle.judge_pair.specs.Judge.Kept.{IsNumbered, IsPairAfter, side_at};
ghost use Rattle.judge_pair.specs.MatchTexts.Datagrams.{capture_of};
ghost use Rattle.judge_pair.specs.MatchTexts.Judged.{IsJudgedBy};
ghost use Rattle.judge_pair.specs.MatchTexts.Merging.{HasBegun};
ghost use Rattle.judge_pair.specs.MatchTexts.Reading.{said_by};
ghost use Rattle.judge_pair.specs.declared.match_texts.reading.Halt.{Halt as HaltKind};
ghost use Rattle.judge_pair.specs.MatchTexts.Said.{AreNumbersBy, AreNumbersOf, AreTogether, IsApart, IsPairSaidBy, IsWhy, SaysMatched};

use crate::judge::acks::AckFlags;
use crate::judge::{PairJudge, PairVerdict};
use crate::match_texts::merging::merge;
use crate::match_texts::reading::{Halt, Reading, said_of};
use crate::match_texts::said::{Apart, PairSaid, together_of};
use net_streams::streams::Latched;
use std::alloc::Global;
use std::io::Read;
use tftp_capture::{CaptureFault, CaptureReader, Datagram, Header};
use tftp_ends::blocks::RingDelivered;
use tftp_judge::{Judge, Meaning, Verdict, judge_text};
use tftp_packet::End;
use tftp_packet::rounds::Rollover;

/// What there is to say of two capture texts, the first of a client and the second of a server, by the runs of two ends (RFC
/// 1350; RFC 2347; RFC 7440). Of each it says what there is to say of it alone, and of both how far one run has them
/// together: a datagram that came in is matched once the other end has sent what it says. A text is read till its last
/// datagram waits for the other, or to its end, its fault or its refusal, which hides nothing of the other text; what is left
/// of a text that waits is judged alone. Held are the blocks of both, and of each a line, the datagram that waits and flags of
/// the ACKs that it has sent.
pub fn judge_pair<R: Read, S: Read>(
    alloc: Global,
    client: &mut Latched<R>,
    server: &mut Latched<S>,
) -> PairSaid
    requires client_clean { client.old.1 ≡ false }
    requires server_clean { server.old.1 ≡ false }

    // Of the client's text all that is ensured of a text that is judged alone.
    ensures client_judged { (read : List ℕ) × Consumes (R.remaining client.old.0) (R.remaining client.new.0) read × IsReadVerdict read result.client }
    ensures client_ended { EndsText result.client → IsAtEnd (R.remaining client.new.0) }
    ensures client_read { SaysReadFailed result.client → client.new.1 ≡ true }
    ensures client_tally { client.new.1 ≡ true → SaysReadFailed result.client }
    ensures client_whole { (text : List ℕ) → R.remaining client.old.0 ≡ Some text → client.new.1 ≡ false → IsTextVerdict text result.client }
    ensures client_exact { (text : List ℕ) (said : Result MeaningParts VerdictKind) → R.remaining client.old.0 ≡ Some text → client.new.1 ≡ false
        → IsOfText said → IsTextVerdict text said → (result.client ≡ said) ⊎ WantsMemory result.client }

    // Of the server's text the same.
    ensures server_judged { (read : List ℕ) × Consumes (S.remaining server.old.0) (S.remaining server.new.0) read × IsReadVerdict read result.server }
    ensures server_ended { EndsText result.server → IsAtEnd (S.remaining server.new.0) }
    ensures server_read { SaysReadFailed result.server → server.new.1 ≡ true }
    ensures server_tally { server.new.1 ≡ true → SaysReadFailed result.server }
    ensures server_whole { (text : List ℕ) → S.remaining server.old.0 ≡ Some text → server.new.1 ≡ false → IsTextVerdict text result.server }
    ensures server_exact { (text : List ℕ) (said : Result MeaningParts VerdictKind) → S.remaining server.old.0 ≡ Some text → server.new.1 ≡ false
        → IsOfText said → IsTextVerdict text said → (result.server ≡ said) ⊎ WantsMemory result.server }

    // How far the datagrams of the two texts, before the first fault of each, are lawful and go together, and why no more do; or
    // why that is not told.
    ensures matched { IfOk result.together (AreNumbersOf (R.remaining client.old.0) (S.remaining server.old.0)) }
    ensures apart { IfErr result.together (IsWhy (R.remaining client.old.0) (S.remaining server.old.0) result.client result.server) }

    // Of two captures it says that they are matched exactly if one run of the two ends has both.
    ensures consistent { (text other : List ℕ) → R.remaining client.old.0 ≡ Some text → S.remaining server.old.0 ≡ Some other → client.new.1 ≡ false → server.new.1 ≡ false
        → (h k : HeaderParts) (ds es : List Numbered) → IsCapture text h ds → IsCapture other k es
        → (SaysMatched result.client result.server result.together ↔ AreConsistent (capture_of h ds) (capture_of k es)) ⊎ (WantsMemory result.client ⊎ WantsMemory result.server) }
{
    judge_both(alloc, None, client, server)
}

/// The same where numbers begin again after 65535 (RFC 1350, section 5, gives them two bytes and says no more), if `rollover` says what
/// comes then: at each end a number is read as the block near the highest that has passed there. A text does not say it. Held are of
/// each end 1 MiB of flags too.
pub fn judge_pair_by<R: Read, S: Read>(
    alloc: Global,
    rollover: Option<Rollover>,
    client: &mut Latched<R>,
    server: &mut Latched<S>,
) -> PairSaid
    requires client_clean { client.old.1 ≡ false }
    requires server_clean { server.old.1 ≡ false }

    // Of the client's text all that is ensured of a text that is judged alone.
    ensures client_judged { (read : List ℕ) × Consumes (R.remaining client.old.0) (R.remaining client.new.0) read × IsReadVerdictBy rollover read result.client }
    ensures client_ended { EndsText result.client → IsAtEnd (R.remaining client.new.0) }
    ensures client_read { SaysReadFailed result.client → client.new.1 ≡ true }
    ensures client_tally { client.new.1 ≡ true → SaysReadFailed result.client }
    ensures client_whole { (text : List ℕ) → R.remaining client.old.0 ≡ Some text → client.new.1 ≡ false → IsTextVerdictBy rollover text result.client }
    ensures client_exact { (text : List ℕ) (said : Result MeaningParts VerdictKind) → R.remaining client.old.0 ≡ Some text → client.new.1 ≡ false
        → IsOfText said → IsTextVerdictBy rollover text said → (result.client ≡ said) ⊎ WantsMemory result.client }

    // Of the server's text the same.
    ensures server_judged { (read : List ℕ) × Consumes (S.remaining server.old.0) (S.remaining server.new.0) read × IsReadVerdictBy rollover read result.server }
    ensures server_ended { EndsText result.server → IsAtEnd (S.remaining server.new.0) }
    ensures server_read { SaysReadFailed result.server → server.new.1 ≡ true }
    ensures server_tally { server.new.1 ≡ true → SaysReadFailed result.server }
    ensures server_whole { (text : List ℕ) → S.remaining server.old.0 ≡ Some text → server.new.1 ≡ false → IsTextVerdictBy rollover text result.server }
    ensures server_exact { (text : List ℕ) (said : Result MeaningParts VerdictKind) → S.remaining server.old.0 ≡ Some text → server.new.1 ≡ false
        → IsOfText said → IsTextVerdictBy rollover text said → (result.server ≡ said) ⊎ WantsMemory result.server }

    // How far the datagrams of the two texts, before the first fault of each, are lawful and go together, and why no more do; or
    // why that is not told.
    ensures matched { IfOk result.together (AreNumbersBy rollover (R.remaining client.old.0) (S.remaining server.old.0)) }
    ensures apart { IfErr result.together (IsWhy (R.remaining client.old.0) (S.remaining server.old.0) result.client result.server) }
{
    judge_both(alloc, rollover, client, server)
}

/// The same, in fewer words.
fn judge_both<R: Read, S: Read>(
    alloc: Global,
    rollover: Option<Rollover>,
    client: &mut Latched<R>,
    server: &mut Latched<S>,
) -> PairSaid
    requires client_clean { client.old.1 ≡ false }
    requires server_clean { server.old.1 ≡ false }
    ensures { IsPairSaidBy rollover (R.remaining client.old.0) (R.remaining client.new.0) (S.remaining server.old.0) (S.remaining server.new.0) client.new.1 server.new.1
        result.client result.server result.together }
{
    match (AckFlags::by(alloc, rollover), AckFlags::by(alloc, rollover)) {
        (Ok(client_acks), Ok(server_acks)) => {
            judge_read(alloc, rollover, client, client_acks, server, server_acks)
        }
        _ => PairSaid {
            client: Err(Verdict::Capture(CaptureFault::Memory(1))),
            server: Err(Verdict::Capture(CaptureFault::Memory(1))),
            together: Err(Apart::Stopped),
        },
    }
}

/// The same with the flags of the ACKs of each end, of which none is set.
fn judge_read<R: Read, S: Read>(
    alloc: Global,
    rollover: Option<Rollover>,
    client: &mut Latched<R>,
    client_acks: AckFlags,
    server: &mut Latched<S>,
    server_acks: AckFlags,
) -> PairSaid
    requires client_clean { client.old.1 ≡ false }
    requires server_clean { server.old.1 ≡ false }
    requires client_none { (j : ℕ) → flags_in client_acks j ≡ false }
    requires server_none { (j : ℕ) → flags_in server_acks j ≡ false }
    requires client_numbered { (r : RolloverKind) → rollover ≡ Some r → is_some client_acks.blocks ≡ true }
    requires server_numbered { (r : RolloverKind) → rollover ≡ Some r → is_some server_acks.blocks ≡ true }
    ensures { IsPairSaidBy rollover (R.remaining client.old.0) (R.remaining client.new.0) (S.remaining server.old.0) (S.remaining server.new.0) client.new.1 server.new.1
        result.client result.server result.together }
{
    let client_capture = match CaptureReader::begin(alloc, client) {
        Ok(capture) => capture,
        Err(fault) => {
            return PairSaid {
                client: Err(Verdict::Capture(fault)),
                server: judge_text(alloc, rollover, server),
                together: Err(Apart::Stopped),
            };
        }
    };
    match CaptureReader::begin(alloc, server) {
        Ok(capture) => judge_begun(
            alloc,
            rollover,
            client_capture,
            client_acks,
            client,
            capture,
            server_acks,
            server,
        ),
        Err(fault) => PairSaid {
            client: judge_alone(alloc, rollover, client_capture, client),
            server: Err(Verdict::Capture(fault)),
            together: Err(Apart::Stopped),
        },
    }
}

/// The header of a text, with what comes after block 65535 where anything does.
fn with_rollover(header: &Header, rollover: Option<Rollover>) -> Header
    ensures { header_of result ≡ header_by rollover (header_of header.now) }
{
    match rollover {
        None => *header,
        Some(_) => Header {
            rollover,
            ..*header
        },
    }
}

/// What there is to say of a text of which the header is read.
fn judge_alone<R: Read>(
    alloc: Global,
    rollover: Option<Rollover>,
    capture: CaptureReader,
    reader: &mut Latched<R>,
) -> Result<Meaning, Verdict>
    requires open { capture.standing ≡ Standing.Open }
    ensures { (before : Option (List ℕ)) → HasBegun rollover before (R.remaining reader.old.0) reader.old.1 capture
        → IsJudgedBy rollover before (R.remaining reader.new.0) reader.new.1 result }
{
    let header = with_rollover(capture.header(), rollover);
    let mut judge: Judge<RingDelivered> = Judge::new(alloc, &header);
    let mut reading = Reading {
        capture,
        halt: None,
    };
    let mut datagram = Datagram::empty(alloc);
    reading.read_alone(alloc, rollover, &mut judge, reader, &mut datagram);
    said_of(reading.halt, judge.finish(alloc))
}

/// The judge of two texts of which the headers are read.
fn begin_pair(
    alloc: Global,
    rollover: Option<Rollover>,
    client: &CaptureReader,
    client_acks: AckFlags,
    server: &CaptureReader,
    server_acks: AckFlags,
) -> PairJudge<RingDelivered>
    requires client_none { (j : ℕ) → flags_in client_acks j ≡ false }
    requires server_none { (j : ℕ) → flags_in server_acks j ≡ false }
    requires client_numbered { (r : RolloverKind) → rollover ≡ Some r → is_some client_acks.blocks ≡ true }
    requires server_numbered { (r : RolloverKind) → rollover ≡ Some r → is_some server_acks.blocks ≡ true }
    ensures after { IsPairAfter result (header_by rollover client.now.header) [] (header_by rollover server.now.header) [] }
    ensures goes_on { (result.client.judge.refused ≡ None) × (result.server.judge.refused ≡ None) }
    ensures free { (result.client.held ≡ None) × (result.server.held ≡ None) }
    ensures numbered { (r : RolloverKind) (e : EndKind) → rollover ≡ Some r → IsNumbered (side_at e result) }
{
    PairJudge::with_acks(
        alloc,
        &with_rollover(client.header(), rollover),
        client_acks,
        &with_rollover(server.header(), rollover),
        server_acks,
    )
}

/// What there is to say of two texts of which the headers are read.
fn judge_begun<R: Read, S: Read>(
    alloc: Global,
    rollover: Option<Rollover>,
    client: CaptureReader,
    client_acks: AckFlags,
    client_reader: &mut Latched<R>,
    server: CaptureReader,
    server_acks: AckFlags,
    server_reader: &mut Latched<S>,
) -> PairSaid
    requires client_open { client.standing ≡ Standing.Open }
    requires server_open { server.standing ≡ Standing.Open }
    requires client_none { (j : ℕ) → flags_in client_acks j ≡ false }
    requires server_none { (j : ℕ) → flags_in server_acks j ≡ false }
    requires client_numbered { (r : RolloverKind) → rollover ≡ Some r → is_some client_acks.blocks ≡ true }
    requires server_numbered { (r : RolloverKind) → rollover ≡ Some r → is_some server_acks.blocks ≡ true }
    ensures { (before other_before : Option (List ℕ)) → HasBegun rollover before (R.remaining client_reader.old.0) client_reader.old.1 client
        → HasBegun rollover other_before (S.remaining server_reader.old.0) server_reader.old.1 server
        → IsPairSaidBy rollover before (R.remaining client_reader.new.0) other_before (S.remaining server_reader.new.0) client_reader.new.1 server_reader.new.1
        result.client result.server result.together }
{
    let named = client.header().named;
    let other_named = server.header().named;
    let mut pair = begin_pair(alloc, rollover, &client, client_acks, &server, server_acks);
    let mut client = Reading::begin(client);
    let mut server = Reading::begin(server);
    let mut datagram = Datagram::empty(alloc);
    merge(
        alloc,
        rollover,
        &mut pair,
        &mut client,
        client_reader,
        &mut server,
        server_reader,
        &mut datagram,
    );
    let mut rest = pair.rest();
    client.read_rest(
        alloc,
        rollover,
        &mut rest,
        End::Client,
        client_reader,
        &mut datagram,
    );
    server.read_rest(
        alloc,
        rollover,
        &mut rest,
        End::Server,
        server_reader,
        &mut datagram,
    );
    pair_said(
        named,
        other_named,
        client.halt,
        server.halt,
        rest.finish(alloc),
    )
}

/// What there is to say of two texts which name these ends, and of which no more is read for these reasons.
fn pair_said(
    named: End,
    other_named: End,
    client_halt: Option<Halt>,
    server_halt: Option<Halt>,
    verdict: PairVerdict,
) -> PairSaid
    ensures client { (why : HaltKind) → client_halt ≡ Some why → result.client ≡ said_by why verdict.client }
    ensures server { (why : HaltKind) → server_halt ≡ Some why → result.server ≡ said_by why verdict.server }
    ensures ok { IfOk result.together (AreTogether named other_named result.client result.server verdict.matched) }
    ensures err { IfErr result.together (IsApart named other_named result.client result.server) }
{
    let client = said_of(client_halt, verdict.client);
    let server = said_of(server_halt, verdict.server);
    let numbers = verdict.matched;
    let together = together_of(named, other_named, &client, &server, numbers);
    PairSaid {
        client,
        server,
        together,
    }
}
