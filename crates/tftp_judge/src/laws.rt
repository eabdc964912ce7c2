//! Laws of the definitions in `specs/`. Each is the contract of a function that does nothing.

ghost use Rattle.std.specs.Prelude.{◌≡◌, ◌↔◌, ◌^◌, ◌≤◌, ℕ, List, Option, Some, Result, Ok, length, true};
ghost use Rattle.tftp_capture.specs.{IsCapture, Numbered, in_version_two};
ghost use Rattle.tftp_packet.specs.Hosts.{Datagram, Header};
ghost use Rattle.tftp_packet.specs.{Message, Rollover, Spells};
ghost use Rattle.law_model.specs.Model.{Meaning};
ghost use Rattle.law_model.specs.Rules.{is_of_transfer, route_of, transfer_of, HasPassed, Passed};
ghost use Rattle.tftp_judge.specs.Memory.{TakesMemory};
ghost use Rattle.law_end.specs.{IsWritable};
ghost use Rattle.law_rollover.specs.{ShowsByNumber};
ghost use Rattle.tftp_judge.specs.TakenAs.{header_by};
ghost use Rattle.tftp_judge.specs.TextVerdict.{IsOfText, IsTextVerdictBy, unnumbered};
ghost use Rattle.tftp_judge.specs.Verdicts.{IsSaid, IsVerdict, IsVerdictByRules};
ghost use Rattle.tftp_judge.specs.declared.refusal.Refusal.{Refusal};
ghost use Rattle.tftp_judge.specs.declared.verdict.Verdict.{Verdict};

use law_rollover::laws::what_is_unrolled_shows_the_run;

/// What there is to say by the runs of two ends is what there is by the rules at one.
#[tactic(auto, using(crate::proofs::ByRuns::verdict))]
pub fn rules_give_the_verdict()
    ensures { (header : Header) (datagrams : List Datagram) (v : Result Meaning Refusal) → IsVerdict header datagrams v
        ↔ IsVerdictByRules header datagrams v }
{}

/// A list of datagrams has one verdict: two that are of the datagrams, and do not tell of being out of memory, are the same.
#[tactic(auto, using(crate::proofs::OneVerdict::one_verdict))]
pub fn verdict_is_one()
    ensures { (header : Header) (datagrams : List Datagram) (v w : Result Meaning Refusal) → IsSaid v → IsSaid w
        → IsVerdict header datagrams v → IsVerdict header datagrams w → v ≡ w }
{}

/// And a text has one verdict, whoever reads it: two that are of the text, and tell neither of a failed read nor of want
/// of memory, are the same.
#[tactic(auto, using(crate::proofs::OneTextVerdict::one_text_verdict))]
pub fn text_has_one_verdict()
    ensures { (rollover : Option Rollover) (text : List ℕ) (v w : Result Meaning Verdict) → IsOfText v → IsOfText w
        → IsTextVerdictBy rollover text v → IsTextVerdictBy rollover text w → v ≡ w }
{}

/// Where numbers begin again a text is accepted with a meaning exactly if some run of the two ends shows its numbers at the named
/// end as that whole transfer, no block and no ACK far from the highest block there.
pub fn texts_mean_what_runs_show_by_numbers()
    ensures { (r : Rollover) (text : List ℕ) (m : Meaning) → IsTextVerdictBy (Some r) text (Ok m)
        ↔ ((header : Header) × (datagrams : List Numbered) × IsCapture text header datagrams × IsWritable (Some r) m
        × (wire : List ℕ) × ShowsByNumber r (header_by (Some r) header) m wire (unnumbered datagrams)) }
{
    what_is_unrolled_shows_the_run();
}

/// A text of version 1 without a fault, and the same text in version 2 with `-` as each host, have the same verdicts,
/// where the second has at most 2^40 bytes.
pub fn text_in_version_two_has_the_same_verdicts()
    ensures { (rollover : Option Rollover) (text : List ℕ) (header : Header) (datagrams : List Numbered) (v : Result Meaning Verdict)
        → IsCapture text header datagrams → length (in_version_two text) ≤ 2 ^ 40
        → IsTextVerdictBy rollover text v ↔ IsTextVerdictBy rollover (in_version_two text) v }
{}

/// Of the datagrams of a transfer, an ACK takes no memory, nor does a block whose number has passed, or an ERROR after the
/// first that went its way.
pub fn what_comes_again_takes_no_memory()
    ensures ack { (h : Header) (earlier : List Datagram) (d : Datagram) → is_of_transfer (route_of h earlier d) ≡ true
        → (j : ℕ) → Spells d.payload (Message.Ack j) → TakesMemory h earlier d → ⊥ }
    ensures block { (h : Header) (earlier : List Datagram) (d : Datagram) → is_of_transfer (route_of h earlier d) ≡ true
        → (k : ℕ) (bytes other : List ℕ) → Spells d.payload (Message.Data k bytes)
        → HasPassed (Message.Data k other) (transfer_of h earlier) → TakesMemory h earlier d → ⊥ }
    ensures error { (h : Header) (earlier : List Datagram) (d : Datagram) → is_of_transfer (route_of h earlier d) ≡ true
        → (code other : ℕ) (text words : List ℕ) → Spells d.payload (Message.Error code text)
        → Passed d.dir (Message.Error other words) (transfer_of h earlier) → TakesMemory h earlier d → ⊥ }
{}
