//! Worked cases of recordings at an end that miss datagrams. Each is the contract of a function that does nothing.

ghost use Rattle.std.specs.Prelude.{ℕ, List, [], ◌∷◌, Option, codes};
ghost use Rattle.tftp_packet.specs.{End, Client, Message, Server, Short};
ghost use Rattle.tftp_packet.specs.{Rollover};
ghost use Rattle.law_model.specs.Model.{
  Meaning,
  IsView,
  request_of,
  two_bytes,
  two_bytes_written,
  ten_bytes,
  six_blocks,
};
ghost use Rattle.law_model.specs.{EndRule, PortRule};
ghost use Rattle.law_end.specs.{Broken, IsRefused, Rule};
ghost use Rattle.law_tap.specs.Losses.{IsSeenOf, IsNotedOf, IsLawfulWithLosses, IsCertain, IsFirstCertain};
ghost use Rattle.law_tap.specs.BesideEnd.{AreSidesOf};
ghost use Rattle.law_tap.specs.StandingAtEnd.{IsKnownOption, KnowsOtherEnd, StandsByOptions};
ghost use Rattle.law_tap.specs.WorkedLosses.{
  hi_in,
  odd_in,
  other_in,
  unknown_out,
  hi_back,
  ack_in,
  at_client,
  at_server,
  request_in,
  request_out,
  hi_out,
  second_ack_in,
  ack_out,
  read_without_block,
  write_in,
  zero_out,
  one_out,
  write_without_block,
  changed_block,
  changed_notes,
  ack_of_unseen,
  block_of_unseen_start,
  block_of_unseen_ack,
  block_of_unseen_other,
  zero_of_unseen_oack,
};
ghost use Rattle.law_tap.specs.WorkedTap.{worked_sides};

/// An ACK of a block that was never seen is not certain: what comes in may have been missed. Without losses the datagram is
/// refused by rule 2, since nothing came from where it goes.
pub fn an_ack_ahead_is_not_certain()
    ensures unlawful { IsView two_bytes two_bytes.file Client ack_of_unseen → ⊥ }
    ensures seen { IsSeenOf two_bytes two_bytes.file Client ack_of_unseen }
    ensures broken { Broken at_client (request_out ∷ []) ack_out (Rule.Port PortRule.Wrong) }
    ensures lawful { IsLawfulWithLosses at_client read_without_block }
    ensures certain { (i : ℕ) → IsCertain at_client read_without_block i → ⊥ }
{}

/// So it is at the server of a write, where such an ACK breaks rule 26.
pub fn an_ack_ahead_of_a_write_is_not_certain()
    ensures broken { Broken at_server (zero_out ∷ write_in ∷ []) one_out (Rule.Block EndRule.AckAhead) }
    ensures lawful { IsLawfulWithLosses at_server write_without_block }
{}

/// A server that sends block 1 with other bytes is refused at that datagram, whatever is missing.
#[tactic(auto, using(crate::proofs::WorkedLosses::change_certain))]
pub fn a_server_that_changes_a_block_is_certain()
    ensures { IsFirstCertain at_server changed_block 2 }
{}

/// In no run does an end note both.
pub fn a_block_and_a_changed_one_are_not_noted()
    ensures { (rollover : Option Rollover) (m : Meaning) (wire : List ℕ) (e : End) → IsNotedOf rollover m wire e changed_notes → ⊥ }
{}

/// A block that a client sends before an answer was seen (rule 18) is not certain: the answer may have been missed.
pub fn a_block_before_its_start_is_not_certain()
    ensures unlawful { IsView two_bytes_written two_bytes_written.file Client block_of_unseen_start → ⊥ }
    ensures seen { IsSeenOf two_bytes_written two_bytes_written.file Client block_of_unseen_start }
{}

/// A block that comes beyond the window (rule 22) is not certain: the ACK that allows it may have been missed.
pub fn a_block_beyond_the_window_is_not_certain()
    ensures unlawful { IsView ten_bytes ten_bytes.file Client block_of_unseen_ack → ⊥ }
    ensures seen { IsSeenOf ten_bytes ten_bytes.file Client block_of_unseen_ack }
{}

/// A block that a server sends before the one below it (rule 23) is not certain: that one may have been missed. The window
/// allows both.
pub fn a_block_that_skips_one_is_not_certain()
    ensures unlawful { IsView six_blocks six_blocks.file Server block_of_unseen_other → ⊥ }
    ensures seen { IsSeenOf six_blocks six_blocks.file Server block_of_unseen_other }
{}

/// An ACK 0 of a read before its OACK was seen (rule 27) is not certain: the OACK may have been missed.
pub fn an_ack_zero_before_its_oack_is_not_certain()
    ensures unlawful { IsView ten_bytes ten_bytes.file Client zero_of_unseen_oack → ⊥ }
    ensures seen { IsSeenOf ten_bytes ten_bytes.file Client zero_of_unseen_oack }
{}

/// A client that sends a block of a read is refused there (rule 6), and that is certain, whatever is missing.
pub fn a_block_of_the_reader_is_certain()
    ensures refused { IsRefused at_client (hi_in ∷ request_out ∷ []) hi_back Rule.WrongKind }
    ensures certain { IsFirstCertain at_client (request_out ∷ hi_in ∷ hi_back ∷ []) 2 }
{}

/// An ACK of the server of a read comes to a client that has gone on with it: that is certain too.
pub fn an_ack_of_the_sender_is_certain()
    ensures refused { IsRefused at_client (ack_out ∷ hi_in ∷ request_out ∷ []) ack_in Rule.WrongKind }
    ensures known { KnowsOtherEnd at_client (ack_in ∷ ack_out ∷ hi_in ∷ request_out ∷ []) }
    ensures certain { IsFirstCertain at_client (request_out ∷ hi_in ∷ ack_out ∷ ack_in ∷ []) 3 }
{}

/// What came to a client that has gone on with nobody is not certain: who sent it may be a stranger, and the server's answer may have been
/// missed.
pub fn what_came_from_who_may_be_a_stray_is_not_certain()
    ensures broken { Broken at_client (request_out ∷ []) odd_in (Rule.Malformed Short) }
    ensures unknown { KnowsOtherEnd at_client (odd_in ∷ request_out ∷ []) → ⊥ }
    ensures lawful { IsLawfulWithLosses at_client (request_out ∷ odd_in ∷ []) }
{}

/// A request after an ERROR 5 of its client (rule 7) is not certain: the ERROR may answer a stray.
pub fn a_request_after_an_answer_to_a_stray_is_not_certain()
    ensures broken { Broken at_client (unknown_out ∷ other_in ∷ request_out ∷ []) request_out Rule.AfterError }
    ensures unknown { KnowsOtherEnd at_client (request_out ∷ unknown_out ∷ other_in ∷ request_out ∷ []) → ⊥ }
    ensures lawful { IsLawfulWithLosses at_client (request_out ∷ other_in ∷ unknown_out ∷ request_out ∷ []) }
{}

/// An ACK 2 that comes to a server which has sent the whole file in block 1 is certain, whatever is missing: so it is between
/// the ends.
pub fn an_ack_above_the_last_block_is_certain_at_an_end()
    ensures sides { AreSidesOf at_server (codes "10.0.0.1") (second_ack_in ∷ hi_out ∷ request_in ∷ []) worked_sides }
    ensures certain { IsCertain at_server (request_in ∷ hi_out ∷ second_ack_in ∷ []) 2 }
{}

/// A read asks for a block size and for no window. So the window is known whatever is missing, and that a block goes back
/// stands. The block size is not known before an answer was seen, and that a block has a wrong length does not stand.
pub fn what_was_not_asked_for_is_known()
    ensures window { IsKnownOption (codes "windowsize") (request_of ten_bytes) [] }
    ensures size { IsKnownOption (codes "blksize") (request_of ten_bytes) [] → ⊥ }
    ensures back { StandsByOptions (request_of ten_bytes) [] (Message.Data 1 []) (Rule.Block EndRule.GoneBack) }
    ensures length { StandsByOptions (request_of ten_bytes) [] (Message.Data 1 []) (Rule.Block EndRule.BlockLength) → ⊥ }
{}
