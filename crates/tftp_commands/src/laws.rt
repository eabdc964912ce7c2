//! Laws of the definitions in `specs/`: output is one. Each is the contract of a function that does nothing but cite a law
//! below. The source may be a text that was given whole, and then the output is the text's. And for what memory may be
//! wanted: what was read has the datagram, unless nothing was read.

ghost use Rattle.std.specs.Prelude.{◌≡◌, ◌≤◌, ◌+◌, ◌++◌, ◌⊎◌, ℕ, List, [], ◌∷◌, Bool, codes, Option, None, Some, Result, false};
ghost use Rattle.tftp_packet.specs.{Rollover};
ghost use Rattle.tftp_packet.specs.Rounds.{half_round};
ghost use Rattle.tftp_packet.specs.Hosts.{Datagram, Header};
ghost use Rattle.tftp_capture.specs.{line, worked_header};
ghost use Rattle.tftp_capture.specs.declared.fault.CaptureFault.TheVariants.{Memory};
ghost use Rattle.law_model.specs.Model.{Meaning};
ghost use Rattle.law_model.specs.Rules.{IsHigh, transfer_of};
ghost use Rattle.law_end.specs.{OneEnded};
ghost use Rattle.law_rollover.specs.{AreUnrolled};
ghost use Rattle.tftp_judge.specs.{Verdict, header_by};
ghost use Rattle.tftp_commands.specs.Checked.{IsChecked};
ghost use Rattle.tftp_commands.specs.Counted.{IsCounted};
ghost use Rattle.tftp_commands.specs.Extracted.{IsExtracted};
ghost use Rattle.tftp_commands.specs.Losses.{IsToldOf};
ghost use Rattle.tftp_commands.specs.Normalised.{IsNormalised};
ghost use Rattle.tftp_commands.specs.One.{HasDatagram, IsLeft, IsMemoryOutput, IsNoMemoryEnding, IsUnread, SaysNoMemory, TellsOfMemory, empty_text, first_datagram, first_text};
ghost use Rattle.tftp_commands.specs.Outputs.{IsWritten, Output, memory_line};
ghost use Rattle.tftp_commands.specs.Run.{IsOutput, IsOutputOf};
ghost use Rattle.tftp_commands.specs.Beside.{IsHighFor, other_block};
ghost use Rattle.tftp_commands.specs.WorkedBeside.{past_the_round, shown_by_number, shown_by_one, shown_by_zero};
ghost use Rattle.tftp_commands.specs.Shown.{AreLines, AreTaken, Faulty, IsShown, WantsToShow};
ghost use Rattle.tftp_commands.specs.Sources.{Source, given, so_far};
ghost use Rattle.tftp_commands.specs.declared.status.Status.{Status};
ghost use Rattle.tftp_commands.specs.declared.words.Action.{Action};
ghost use Rattle.tftp_commands.specs.Judged.{IsJudged};

use tftp_judge::laws::text_has_one_verdict;

/// On what was read, and on whether a read failed, `check` has at most one right output, bytes and status, that does not
/// come of being out of memory.
pub fn check_has_one_output()
    ensures { (rollover : Option Rollover) (source : Source) (one other : Output) (first : IsChecked rollover source one) (second : IsChecked rollover source other) → SaysNoMemory first.said → SaysNoMemory second.said
        → one ≡ other }
{
    text_has_one_verdict();
}

/// `extract` has at most one right output on its source that does not come of being out of memory.
pub fn extract_has_one_output()
    ensures { (rollover : Option Rollover) (source : Source) (one other : Output) (first : IsExtracted rollover source one) (second : IsExtracted rollover source other) → SaysNoMemory first.said → SaysNoMemory second.said
        → one ≡ other }
{
    text_has_one_verdict();
}

/// `normal` has at most one right output on its source that does not come of being out of memory.
pub fn normal_has_one_output()
    ensures { (rollover : Option Rollover) (source : Source) (one other : Output) (first : IsNormalised rollover source one) (second : IsNormalised rollover source other) → SaysNoMemory first.said → SaysNoMemory second.said
        → one ≡ other }
{
    text_has_one_verdict();
}

/// `count` has at most one right output on its source that does not come of being out of memory.
pub fn count_has_one_output()
    ensures { (rollover : Option Rollover) (source : Source) (one other : Output) (first : IsCounted rollover source one) (second : IsCounted rollover source other) → SaysNoMemory first.said → SaysNoMemory second.said
        → one ≡ other }
{
    text_has_one_verdict();
}

/// `show` has at most one right output on its source that does not end with being out of memory, where no write failed: each
/// datagram has one line, and its showing one end.
pub fn show_has_one_output()
    ensures { (rollover : Option Rollover) (source : Source) (one other : Output) (first : IsShown rollover source false one) (second : IsShown rollover source false other) → IsNoMemoryEnding first.ending → IsNoMemoryEnding second.ending
        → one ≡ other }
{}

/// Whatever the words, `run` has at most one right output on its source, where no write failed, but for that of want of
/// memory: two that are right are the same, or one of them is that.
#[tactic(auto, using(crate::proofs::OneRun::one_output))]
pub fn run_has_one_output()
    ensures { (words : List (List ℕ)) (source : Source) (one other : Output) → IsOutput words source false one → IsOutput words source false other
        → (one ≡ other) ⊎ TellsOfMemory words one ⊎ TellsOfMemory words other }
{
    text_has_one_verdict();
}

/// An output is written in one way, where no write failed: what a writer then holds that tells its bytes, and the status,
/// are one.
#[tactic(auto, using(crate::proofs::Written::written_once))]
pub fn output_is_written_in_one_way()
    ensures { (held : List ℕ) (new other : Option (List ℕ)) (output : Output) (status also : Status) → IsWritten (Some held) new false output status
        → IsWritten (Some held) other false output also → (new ≡ other) × (status ≡ also) }
{}

/// Before any byte is read each command may be out of memory.
#[tactic(auto, using(crate::proofs::Memory::memory_first))]
pub fn memory_may_be_wanted_first()
    ensures { (action : Action) (left : Option (List ℕ)) (cut : Bool) → (output : Output) × IsMemoryOutput action output × IsOutputOf action (so_far [] left false) cut output }
{}

/// Once a byte was read, being out of memory is never what there is to say of a text that has no datagram, as of one with a
/// fault in its header, or whose total is 0.
#[tactic(auto, using(crate::proofs::Memory::memory_of))]
pub fn memory_is_wanted_for_a_datagram()
    ensures { (rollover : Option Rollover) (read : List ℕ) (left : Option (List ℕ)) (failed : Bool) (said : Result Meaning Verdict) → IsJudged rollover (so_far read left failed) said → SaysNoMemory said ⊎ (read ≡ []) ⊎ HasDatagram read }
{}

/// A text of no datagram is never out of memory, once it was read.
pub fn no_memory_is_wanted_for_an_empty_text()
    ensures { (rollover : Option Rollover) (left : Option (List ℕ)) (failed : Bool) (said : Result Meaning Verdict) → IsJudged rollover (so_far empty_text left failed) said → SaysNoMemory said }
{}

/// Memory is wanting for the first datagram of a text, on line 4: `show` says so, and shows nothing. Else it is taken.
pub fn memory_is_wanted_for_the_first_datagram()
    ensures wanted { WantsToShow first_text [] 4 }
    ensures shown { (rollover : Option Rollover) → IsShown rollover (so_far first_text (Some (line (codes "total 1"))) false) false (record { bytes = memory_line; status = Status.Fault }) }
    ensures taken { AreTaken first_text ((4, first_datagram) ∷ []) }
{}

/// Where `show` ends with being out of memory and no write failed, the next datagram of what was read is left unshown, and
/// the line is its line: memory is never wanted in place of the text's end or of its fault.
pub fn memory_is_wanted_for_what_is_left()
    ensures { (rollover : Option Rollover) (source : Source) (one other : Output) (first : IsShown rollover source false one) (second : IsShown rollover source false other) (line : ℕ) → first.ending ≡ Faulty (Memory line) → IsNoMemoryEnding second.ending
        → IsUnread source ⊎ IsLeft first.datagrams line second.datagrams }
{}

/// In the first round no block is named beside a number, unless it is more than half a round older than the highest one.
#[tactic(auto, using(crate::proofs::ShownBlocks::none_beside))]
pub fn no_block_is_named_in_the_first_round()
    ensures { (rollover : Option Rollover) (high number : ℕ) → number ≤ 65535 → high ≤ number + half_round → other_block rollover high number ≡ None }
{}

/// Of datagrams of which `check` refuses none, `show` reads numbers by the block that `check` reads them by: the highest of the
/// transfer, each taken for the block near.
pub fn numbers_are_shown_as_they_are_judged()
    ensures { (r : Rollover) (header : Header) (earlier taken : List Datagram) (high : ℕ) → AreUnrolled r (header_by (Some r) header) earlier taken
        → OneEnded (header_by (Some r) header) taken → IsHigh (transfer_of (header_by (Some r) header) taken) high → IsHighFor (Some r) header earlier high }
{}

/// A receiver takes block 65535, the two blocks after it, and block 65535 once more: what `show` prints by each rollover, and
/// without one.
pub fn blocks_past_the_round_are_named()
    ensures zero { AreLines (Some Rollover.Zero) worked_header [] (past_the_round 0) shown_by_zero }
    ensures one { AreLines (Some Rollover.One) worked_header [] (past_the_round 1) shown_by_one }
    ensures none { AreLines None worked_header [] (past_the_round 0) shown_by_number }
{}

/// `check --losses` says what `check` says of the same text, with the same status, and nothing before it.
pub fn losses_stand_behind_what_check_says()
    ensures { (text : List ℕ) (output : Output) → IsToldOf text output
        → (plain : Output) × (further : List ℕ) × IsChecked None (given text) plain × (output.bytes ≡ plain.bytes ++ further) × (output.status ≡ plain.status) }
{}
