//! Laws of the definitions in `specs/`. Each is the contract of a function that does nothing.

ghost use Rattle.std.specs.Prelude.{◌≡◌, ◌↔◌, ℕ, Bool, List, [], ◌∷◌, Option, Some, length};
ghost use Rattle.tftp_packet.specs.{Message};
ghost use Rattle.tftp_packet.specs.Hosts.{Header, Datagram};
ghost use Rattle.tftp_packet.specs.{Out, Zero};
ghost use Rattle.law_model.specs.Rules.{transfer_of, Passed};
ghost use Rattle.law_end.specs.{OneEnded};
ghost use Rattle.law_rollover.specs.{IsUnrolled};
ghost use Rattle.tftp_judge.specs.{Transfer, IsTransferOf, AreFlags, HasSentBy};
ghost use Rattle.law_pair.specs.{Capture, IsLawfulTo, IsPairVerdict};
ghost use Rattle.judge_pair.specs.Blocks.{at_block, with_block};
ghost use Rattle.judge_pair.specs.Counts.{packet_of, sent, taken};
ghost use Rattle.judge_pair.specs.Judge.Merging.{AreMergedBut, WasSent};
ghost use Rattle.judge_pair.specs.Judge.Verdicts.{GoesNoFurther, IsReadOf, IsWhyWaiting};
ghost use Rattle.judge_pair.specs.Judge.Worked.{block_65535, block_65536, by_its_number, sent_past_the_round, taken_before_it};
ghost use Rattle.judge_pair.specs.declared.judge.waiting.Wait.{Wait};

/// Where neither capture goes further, for one of it waits or all of it that is lawful was read, what is merged of each is
/// how far the two go together, however much of either is left.
pub fn what_is_merged_is_the_verdict()
    ensures { (client server : Capture) (read other_read : List Datagram) (held other_held : Option Datagram) (n k : ℕ)
        → (but : AreMergedBut held other_held client.header read server.header other_read)
        → IsReadOf client read → IsReadOf server other_read → OneEnded client.header read → OneEnded server.header other_read
        → IsLawfulTo client n → IsLawfulTo server k → GoesNoFurther held read n → GoesNoFurther other_held other_read k
        → IsPairVerdict client server n k (length but.part) (length but.other_part) }
{}

/// There is one answer why the datagram behind those that are matched waits, or that none is left.
pub fn why_it_waits_is_one()
    ensures { (own other : Capture) (n i k : ℕ) (why also : Option Wait) → IsWhyWaiting own n i other k why → IsWhyWaiting own n i other k also → why ≡ also }
{}

/// What the judge keeps of an end, and a flag for each of its ACKs, tell exactly what the end has sent.
#[tactic(auto, using(crate::proofs::JudgeLemmas::SentByKept::sent_by_kept))]
pub fn what_is_kept_tells_what_was_sent()
    ensures { (t : Transfer) (h : Header) (earlier : List Datagram) (flags : ℕ → Bool) → IsTransferOf t h earlier
        → AreFlags flags (transfer_of h earlier) → (x : Message) → Passed Out x (transfer_of h earlier) ↔ HasSentBy t flags x }
{}

/// After block 65535 a DATA of number 0 is read as block 65536. It was sent as that, and not as block 0; of it one copy was sent
/// and none taken, so that it was lost, and of block 0 none was sent.
pub fn worked_past_the_round()
    ensures read { IsUnrolled Zero (block_65535 ∷ []) by_its_number block_65536 }
    ensures block { at_block (Some 65536) by_its_number ≡ block_65536 }
    ensures was_sent { WasSent block_65536.payload sent_past_the_round }
    ensures not_by_its_number { WasSent by_its_number.payload sent_past_the_round → ⊥ }
    ensures sent { sent (packet_of block_65536.payload) sent_past_the_round ≡ 1 }
    ensures taken { taken (packet_of block_65536.payload) taken_before_it ≡ 0 }
    ensures not_block_0 { sent (packet_of by_its_number.payload) sent_past_the_round ≡ 0 }
{}

/// The ACK of block 65536, which has the number 0, is another packet than that of block 0.
pub fn worked_acks()
    ensures block { with_block (Some 65536) (0 ∷ 4 ∷ 0 ∷ 0 ∷ []) ≡ 0 ∷ 4 ∷ 256 ∷ 0 ∷ [] }
    ensures counted { packet_of (0 ∷ 4 ∷ 256 ∷ 0 ∷ []) ≡ 262146 }
    ensures of_block_0 { packet_of (0 ∷ 4 ∷ 0 ∷ 0 ∷ []) ≡ 2 }
{}
