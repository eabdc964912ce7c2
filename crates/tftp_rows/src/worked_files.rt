//! Worked examples of what is told of several files. Each is the contract of a function that does nothing.

ghost use Rattle.std.specs.Prelude.{◌≡◌, ◌++◌, ◌∷◌, [], ℕ, Bool, List, None, Option, Some, codes, false, true};
ghost use Rattle.audit_recording.specs.Session.Lines.{ports_text};
ghost use Rattle.audit_recording.specs.Session.Noted.{Noticed};
ghost use Rattle.audit_recording.specs.declared.judges.judging.Judging.{Judging as JudgingKind};
ghost use Rattle.audit_recording.specs.declared.session.notes.Notes.{Notes as NotesKind};
ghost use Rattle.tftp_rows.specs.Faults.{Why};
ghost use Rattle.tftp_rows.specs.Faults.Why.{Unopened};
ghost use Rattle.tftp_rows.specs.Files.{AreFilesTold, AreFilesToldInPart, IsFileTold, status_among};
ghost use Rattle.tftp_rows.specs.Files.Outcome.{Faulty, Told};
ghost use Rattle.tftp_rows.specs.ListedWhole.{Entry, numbers_in, rows_in};
ghost use Rattle.tftp_rows.specs.Lists.{IsFileListedInPart};
ghost use Rattle.tftp_rows.specs.Remarks.{none_lines, remark_text, remarks_text, rest_lines};
ghost use Rattle.tftp_rows.specs.Texts.{all_texts, lacking_lines, status_of_texts};
ghost use Rattle.tftp_rows.specs.Whole.{Telling, worst_of};
ghost use Rattle.tftp_rows.specs.Worked.{AreOfCopyAndLoss};
ghost use Rattle.tftp_rows.specs.declared.lister.Lister.{Lister as ListerKind};
ghost use Rattle.tftp_rows.specs.declared.printing.RowPrinter.{RowPrinter as Printer};

use std::io::Write;

/// Statuses: of a file that has a fault beside one that has none, of one that was not read whole, of one with no transfer, of one
/// with a transfer that is not accepted beside one with no transfer, and of none at all.
pub fn worked_statuses()
    ensures faulty { (why : Why) (rest : List (List ℕ)) → status_among (Faulty why rest ∷ Told [] true rest ∷ []) ≡ 2 }
    ensures cut { (rest : List (List ℕ)) → status_among (Told [] false rest ∷ []) ≡ 2 }
    ensures none { (rest : List (List ℕ)) → status_among (Told [] true rest ∷ []) ≡ 3 }
    ensures refused { (t : Telling) (rest : List (List ℕ)) → worst_of (t ∷ []) ≡ 1 → status_among (Told (t ∷ []) true rest ∷ Told [] true rest ∷ []) ≡ 1 }
    ensures accepted { (t : Telling) (rest : List (List ℕ)) → worst_of (t ∷ []) ≡ 0 → status_among (Told (t ∷ []) true rest ∷ []) ≡ 0 }
{}

/// Of two files the first can't be opened: the second one is told as if it were alone, and the status is 2. On standard error stand a
/// line with the fault of the first, and behind it what there is to tell of the second. Where the fault of the first can't be told,
/// nothing is printed.
pub fn worked_files<W: Write + Drop>()
    ensures told { (opens : List ℕ → Bool) (holds : List ℕ → Option (List ℕ)) (judging : JudgingKind) (named program a b words : List ℕ) (before after : Printer W) (tellings : List Telling) (rest : List (List ℕ))
        → opens a ≡ false → IsFileTold W.Write.contents b (holds b) judging named before after tellings true rest → worst_of tellings ≡ 1
        → AreFilesTold W.Write.contents (λ why said. said ≡ words) false opens holds judging named program (a ∷ b ∷ []) before after (Some []) (Some (remark_text program a words ++ remarks_text program b rest)) 2 }
    ensures untold { (opens : List ℕ → Bool) (holds : List ℕ → Option (List ℕ)) (judging : JudgingKind) (named a b : List ℕ) (before : Printer W)
        → opens a ≡ false → AreFilesToldInPart W.Write.contents true opens holds judging named (a ∷ b ∷ []) before before }
{}

/// Of one file frame 3 is a copy and frame 8 is lost: two lines, and a third one where it has no transfer. Where something looks like
/// a request, a line before that one names its port.
pub fn worked_remarks()
    ensures two { (n : NotesKind) (s : Noticed) → AreOfCopyAndLoss n s → remarks_text (codes "tftp-transfers") (codes "a.pcap") (rest_lines n s 1)
        ≡ codes "tftp-transfers: a.pcap: 1 datagram left out as copies (frame 3)\n" ++ codes "tftp-transfers: a.pcap: 1 datagram not there whole, so that datagrams may be missing (frame 8)\n" }
    ensures three { (n : NotesKind) (s : Noticed) → AreOfCopyAndLoss n s → remarks_text (codes "tftp-transfers") (codes "a.pcap") (rest_lines n s 0)
        ≡ remarks_text (codes "tftp-transfers") (codes "a.pcap") (rest_lines n s 1) ++ codes "tftp-transfers: a.pcap: no request passed, so there is no transfer\n" }
    ensures port { none_lines (ports_text (1069 ∷ []))
        ≡ codes "what looks like a request went to port 1069: name the port by --service" ∷ codes "no request passed, so there is no transfer" ∷ [] }
{}

/// Of two transfers the first has no text: that of the second one stands alone, a line tells of the first, and the status is 2. Where both have
/// one, that of the first stands first.
pub fn worked_texts()
    ensures lacking { (text : List ℕ) → all_texts (Some text ∷ None ∷ []) ≡ text }
    ensures line { (text : List ℕ) → lacking_lines (Some text ∷ None ∷ []) ≡ codes "transfer 1: nothing is written, since the recording is not whole" ∷ [] }
    ensures status { (text : List ℕ) → status_of_texts (Some text ∷ None ∷ []) ≡ 2 }
    ensures both { (first second : List ℕ) → all_texts (Some second ∷ Some first ∷ []) ≡ first ++ second }
    ensures untold { (first second : List ℕ) → lacking_lines (Some second ∷ Some first ∷ []) ≡ [] }
    ensures whole { (first second : List ℕ) → status_of_texts (Some second ∷ Some first ∷ []) ≡ 0 }
{}

/// The rows of a list stand in the order in which its transfers were listed; and of a file that is not opened nothing
/// is printed or told.
pub fn worked_listings<W: Write + Drop>()
    ensures rows { (first second : Entry) → rows_in (second ∷ first ∷ []) ≡ first.row ∷ second.row ∷ [] }
    ensures numbers { (first second : Entry) → numbers_in (second ∷ first ∷ []) ≡ second.transfer.number ∷ first.transfer.number ∷ [] }
    ensures unopened { (begun : ListerKind W) (file : Option (List ℕ)) (named program name said : List ℕ) → IsFileListedInPart W.Write.contents false false begun begun file named program name (Some said) (Some said) Unopened }
{}
