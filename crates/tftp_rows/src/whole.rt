//! What is told of a whole recording, by the calls that a teller gets for it. Each law is the contract of a function that does
//! nothing.

ghost use Rattle.std.specs.Prelude.{◌≡◌, ◌++◌, [], ℕ, Bool, List, None, Option, Some, false, max};
ghost use Rattle.net_udp.specs.Recording.{Step};
ghost use Rattle.audit_flows.specs.{Transfer};
ghost use Rattle.audit_recording.specs.Blame.Frames.{Carried, whole_of};
ghost use Rattle.audit_recording.specs.Judges.{opened};
ghost use Rattle.audit_recording.specs.Session.Noted.{Noticed, frames_in, giving_up, nothing_noticed, told_in};
ghost use Rattle.audit_recording.specs.Session.Over.{IsOldestOver, IsOver};
ghost use Rattle.audit_recording.specs.Session.Recording.{IsNoticedOf};
ghost use Rattle.audit_recording.specs.Session.Told.{AreEachOnce, IsLostAlone};
ghost use Rattle.audit_recording.specs.declared.judges.judging.Judging.{Judging as JudgingKind};
ghost use Rattle.audit_recording.specs.declared.session.notes.Notes.{Notes as NotesKind};
ghost use Rattle.audit_recording.specs.declared.session.session.Session.{Session as SessionKind};
ghost use Rattle.audit_rows.specs.{IsJudgedOf};
ghost use Rattle.audit_rows.specs.declared.judged.Judged.{Judged as JudgedKind};
ghost use Rattle.tftp_rows.specs.Printing.{PrintsAll, verdict_lines};
ghost use Rattle.tftp_rows.specs.Telling.{JudgesAs, PrintsAllWith, TellsTurns};
ghost use Rattle.tftp_rows.specs.Whole.{AreBeside, AreInOrder, AreLacking, AreOf, AreTold, HasTold, HasToldAll, IsPartOf, IsRecordingTold, Part, Telling, numbers_of, so_far, worst_of};
ghost use Rattle.tftp_rows.specs.declared.teller.Teller.{Teller as TellerKind};

use std::io::Write;

/// The text that is printed of a recording is the rows of its transfers, each once and in order: so it is when the file is begun
/// (`begin`), stays so as more is read, and with each call that tells transfers (`tell_over`), what was held back (`tell_held`)
/// and all the rest (`tell_all`), which leaves none out. While the recorder may yet tell that it lost packets (`lose`), no row is printed that
/// refuses a datagram.
pub fn recordings_are_told_in_order<W: Write + Drop>()
    ensures begun { (begun : TellerKind W) (lose : Bool) (judging : JudgingKind) (named : List ℕ) → begun.held.items ≡ [] → begun.told ≡ 0
        → HasTold W.Write.contents begun begun lose judging named (so_far [] [] nothing_noticed) [] }
    ensures read_on { (begun now : TellerKind W) (lose : Bool) (judging : JudgingKind) (named : List ℕ) (all longer : Part) (tellings : List Telling) → IsPartOf all longer
        → HasTold W.Write.contents begun now lose judging named all tellings → HasTold W.Write.contents begun now lose judging named longer tellings }
    ensures told_over { (begun old new : TellerKind W) (before after : SessionKind) (lose : Bool) (named : List ℕ) (history : List Step) (carried : List Carried) (s : Noticed) (tellings : List Telling)
        → IsNoticedOf named history carried s → HasTold W.Write.contents begun old lose before.audit.judge.judging named (so_far history carried s) tellings
        → (turns : TellsTurns W.Write.contents (λ b. IsOldestOver b named carried s × JudgesAs before b) (record old { may_lose = lose }) new after named (numbers_of tellings) history carried s)
        → (more : List Telling) × HasTold W.Write.contents begun new lose before.audit.judge.judging named (so_far history carried s) more × (turns.left ≡ numbers_of more) }
    ensures told_held { (begun old new : TellerKind W) (lose : Bool) (dropped : ℕ) (judging : JudgingKind) (named : List ℕ) (end : Option Part) (all : Part) (tellings : List Telling)
        → HasTold W.Write.contents begun old lose judging named all tellings
        → PrintsAllWith W.Write.contents dropped old.printer new.printer old.held.items → new.held.items ≡ []
        → new ≡ record old { printer = new.printer; held = new.held; may_lose = false; dropped = dropped }
        → HasToldAll W.Write.contents begun new lose dropped judging named end all tellings }
    ensures told_all { (begun old new : TellerKind W) (lose : Bool) (dropped : ℕ) (before after : SessionKind) (named : List ℕ) (history : List Step) (carried : List Carried) (s : Noticed) (waiting : List ℕ) (tellings : List Telling)
        → IsNoticedOf named history carried s
        → HasToldAll W.Write.contents begun old lose dropped before.audit.judge.judging named (Some (so_far history carried (giving_up waiting s))) (so_far history carried s) tellings
        → (turns : TellsTurns W.Write.contents (JudgesAs before) old new after named (numbers_of tellings) history carried (giving_up waiting s))
        → (more : List Telling) × HasToldAll W.Write.contents begun new lose dropped before.audit.judge.judging named (Some (so_far history carried (giving_up waiting s))) (so_far history carried s) more × (turns.left ≡ numbers_of more) }
    ensures in_order { (name named : List ℕ) (judging : JudgingKind) (end : Option Part) (all : Part) (tellings : List Telling) → AreTold name judging named end all tellings → AreInOrder tellings }
{}

/// What is told of a transfer is what the whole recording says of it: once it is over, whatever comes later, it is the same transfer, and
/// its verdicts, the datagrams that they blame, and what the division doubts are the same (`over`). So each transfer that was told of a
/// recording is one that the whole recording has, and its rows are those of its verdicts by the whole (`whole`). And no frame that the
/// whole recording lacks of it is left out of its doubts (`missing`), nor what by the whole recording was left out or discarded, and may
/// have been of it (`beside`). Of the frames that are told as not there whole each is told once (`once`), and as nothing else (`alone`),
/// where memory did not run out.
pub fn what_is_told_is_of_the_whole_recording<W: Write + Drop>()
    ensures over { (j : JudgedKind) (judging : JudgingKind) (x : Transfer) (named : List ℕ) (carried later : List Carried) (s : Noticed) → opened x.number (whole_of named carried) ≡ Some x
        → IsJudgedOf j judging x named carried → IsOver j.trail named carried s
        → (opened x.number (whole_of named (later ++ carried)) ≡ Some x) × IsJudgedOf j judging x named (later ++ carried) }
    ensures whole { (begun now : TellerKind W) (file : Option (List ℕ)) (judging : JudgingKind) (named : List ℕ) (notes : NotesKind)
        → (told : IsRecordingTold W.Write.contents begun now file judging named notes) → AreOf begun.file.now judging named told.carried told.tellings }
    ensures missing { (begun now : TellerKind W) (file : Option (List ℕ)) (judging : JudgingKind) (named : List ℕ) (notes : NotesKind)
        → (told : IsRecordingTold W.Write.contents begun now file judging named notes) → AreLacking (giving_up (frames_in told.recording.waiting) told.noticed).events told.tellings }
    ensures beside { (begun now : TellerKind W) (file : Option (List ℕ)) (judging : JudgingKind) (named : List ℕ) (notes : NotesKind)
        → (told : IsRecordingTold W.Write.contents begun now file judging named notes) → AreBeside told.noticed.beside told.tellings }
    ensures once { (begun now : TellerKind W) (file : Option (List ℕ)) (judging : JudgingKind) (named : List ℕ) (notes : NotesKind)
        → (told : IsRecordingTold W.Write.contents begun now file judging named notes) → told.recording.refused ≡ None
        → AreEachOnce (told_in (giving_up (frames_in told.recording.waiting) told.noticed)).lost }
    ensures alone { (begun now : TellerKind W) (file : Option (List ℕ)) (judging : JudgingKind) (named : List ℕ) (notes : NotesKind)
        → (told : IsRecordingTold W.Write.contents begun now file judging named notes) → told.recording.refused ≡ None
        → IsLostAlone (told_in (giving_up (frames_in told.recording.waiting) told.noticed)) }
{}

/// What is told of a second file comes behind what was told of the first, and the status is the greatest of both.
pub fn recordings_are_told_one_after_another<W: Write + Drop>()
    ensures printed { (begun between next now : TellerKind W) (file other : Option (List ℕ)) (judging : JudgingKind) (named : List ℕ) (notes more : NotesKind)
        → (first : IsRecordingTold W.Write.contents begun between file judging named notes) → next.printer ≡ between.printer
        → (second : IsRecordingTold W.Write.contents next now other judging named more)
        → PrintsAll W.Write.contents verdict_lines begun.printer now.printer ((first.told.first ++ first.told.last) ++ (second.told.first ++ second.told.last)) }
    ensures status { (begun between next now : TellerKind W) (file other : Option (List ℕ)) (judging : JudgingKind) (named : List ℕ) (notes more : NotesKind)
        → (first : IsRecordingTold W.Write.contents begun between file judging named notes) → next.status ≡ between.status
        → (second : IsRecordingTold W.Write.contents next now other judging named more)
        → now.status ≡ max (max begun.status (worst_of first.tellings)) (worst_of second.tellings) }
{}
