//! No row of a recording accuses where ends are lawful. Each law is the contract of a function that does nothing.

ghost use Rattle.std.specs.Prelude.{◌≡◌, ◌≢◌, [], ℕ, All, Bool, Contains, List, None, Option};
ghost use Rattle.tftp_packet.specs.{Rollover};
ghost use Rattle.audit_flows.specs.Lines.{Recorded};
ghost use Rattle.audit_flows.specs.{Address, Endpoint};
ghost use Rattle.audit_spared.specs.Spared.{AreInterleaved, AreServed, AreStrayed, IsServedCapture};
ghost use Rattle.audit_views.specs.Parties.{host_name};
ghost use Rattle.audit_recording.specs.Blame.Frames.{datagrams_of};
ghost use Rattle.audit_recording.specs.Judges.Points.{rollover_of};
ghost use Rattle.audit_recording.specs.declared.judges.judging.Judging.{Judging as JudgingKind};
ghost use Rattle.audit_recording.specs.declared.session.notes.Notes.{Notes as NotesKind};
ghost use Rattle.audit_cleared.specs.{HasAddresses};
ghost use Rattle.tftp_rows.specs.Accusing.{AccuseNobody, AccuseNobodyBetween, IsOfClient, IsOfServer, PartAccusesNobody, PartAccusesNobodyBetween};
ghost use Rattle.tftp_rows.specs.Telling.{IsRowWith};
ghost use Rattle.tftp_rows.specs.Whole.{IsRecordingTold, IsRecordingToldInPart};
ghost use Rattle.tftp_rows.specs.declared.row.VerdictRow.{VerdictRow as RowKind};
ghost use Rattle.tftp_rows.specs.declared.teller.Teller.{Teller as TellerKind};

use audit_cleared::rows::{
    no_row_accuses_between_where_a_client_is_lawful, no_row_accuses_where_a_client_is_lawful,
    no_row_accuses_where_a_server_is_lawful,
};
use std::io::Write;

/// What `check` prints of a recording accuses no lawful end, at an end. Where captures of lawful transfers follow one another at some clients,
/// no row that tells of such a client accuses anybody, though strays come to it; and where they do so between the clients and the server's
/// host, no row that tells of the server. Nor does a row of what passed between such a client and its server, where it was known by the refused
/// datagram who the server is, and numbers do not begin again. What the recorder lost makes no row accuse.
pub fn no_printed_row_accuses_where_ends_are_lawful<W: Write + Drop>()
    ensures clients { (begun now : TellerKind W) (file : Option (List ℕ)) (judging : JudgingKind) (notes : NotesKind) (clients : List Endpoint)
        → (told : IsRecordingTold W.Write.contents begun now file judging [] notes)
        → rollover_of judging ≡ None → AreInterleaved host_name clients (datagrams_of told.carried) → AccuseNobody IsOfClient clients told.tellings }
    ensures strayed { (begun now : TellerKind W) (file : Option (List ℕ)) (judging : JudgingKind) (notes : NotesKind) (clients : List Endpoint) (strays idle : Recorded → Bool)
        → (told : IsRecordingTold W.Write.contents begun now file judging [] notes)
        → rollover_of judging ≡ None → AreStrayed host_name strays idle clients (datagrams_of told.carried) → AccuseNobody IsOfClient clients told.tellings }
    ensures servers { (begun now : TellerKind W) (file : Option (List ℕ)) (judging : JudgingKind) (notes : NotesKind) (host : Address) (clients : List Endpoint)
        → (told : IsRecordingTold W.Write.contents begun now file judging [] notes)
        → rollover_of judging ≡ None → AreServed (IsServedCapture host_name) host_name host clients (datagrams_of told.carried) → AccuseNobody IsOfServer clients told.tellings }
    ensures between { (begun now : TellerKind W) (file : Option (List ℕ)) (judging : JudgingKind) (notes : NotesKind) (clients : List Endpoint)
        → (told : IsRecordingTold W.Write.contents begun now file judging [] notes)
        → ((rollover : Rollover) → judging ≢ JudgingKind.BetweenBy rollover)
        → AreInterleaved host_name clients (datagrams_of told.carried) → All HasAddresses (datagrams_of told.carried) → AccuseNobodyBetween clients told.carried told.tellings }
    ensures lost { (dropped : ℕ) (row last : RowKind) → IsRowWith dropped row last → row.charge.accused ≡ None → last.charge.accused ≡ None }
{
    no_row_accuses_where_a_client_is_lawful();
    no_row_accuses_where_a_server_is_lawful();
    no_row_accuses_between_where_a_client_is_lawful();
}

/// Nor does what it prints before a fault, of the transfers that were told by then and of the next one, which was told in part.
pub fn nothing_printed_before_a_fault_accuses_where_ends_are_lawful<W: Write + Drop>()
    ensures clients { (begun now : TellerKind W) (file : Option (List ℕ)) (judging : JudgingKind) (clients : List Endpoint)
        → (told : IsRecordingToldInPart W.Write.contents begun now file judging [])
        → rollover_of judging ≡ None → AreInterleaved host_name clients (datagrams_of told.carried)
        → AccuseNobody IsOfClient clients told.tellings × PartAccusesNobody IsOfClient clients begun.file.now judging told.carried told.tellings }
    ensures strayed { (begun now : TellerKind W) (file : Option (List ℕ)) (judging : JudgingKind) (clients : List Endpoint) (strays idle : Recorded → Bool)
        → (told : IsRecordingToldInPart W.Write.contents begun now file judging [])
        → rollover_of judging ≡ None → AreStrayed host_name strays idle clients (datagrams_of told.carried)
        → AccuseNobody IsOfClient clients told.tellings × PartAccusesNobody IsOfClient clients begun.file.now judging told.carried told.tellings }
    ensures servers { (begun now : TellerKind W) (file : Option (List ℕ)) (judging : JudgingKind) (host : Address) (clients : List Endpoint)
        → (told : IsRecordingToldInPart W.Write.contents begun now file judging [])
        → rollover_of judging ≡ None → AreServed (IsServedCapture host_name) host_name host clients (datagrams_of told.carried)
        → AccuseNobody IsOfServer clients told.tellings × PartAccusesNobody IsOfServer clients begun.file.now judging told.carried told.tellings }
    ensures between { (begun now : TellerKind W) (file : Option (List ℕ)) (judging : JudgingKind) (clients : List Endpoint)
        → (told : IsRecordingToldInPart W.Write.contents begun now file judging [])
        → ((rollover : Rollover) → judging ≢ JudgingKind.BetweenBy rollover)
        → AreInterleaved host_name clients (datagrams_of told.carried) → All HasAddresses (datagrams_of told.carried)
        → AccuseNobodyBetween clients told.carried told.tellings × PartAccusesNobodyBetween clients begun.file.now judging told.carried told.tellings }
{
    no_row_accuses_where_a_client_is_lawful();
    no_row_accuses_where_a_server_is_lawful();
    no_row_accuses_between_where_a_client_is_lawful();
}
