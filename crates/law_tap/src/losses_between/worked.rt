//! Worked cases of what passed between the ends and was not all seen. Each is the contract of a function that does nothing.

ghost use Rattle.std.specs.Prelude.{List, [], ◌∷◌};
ghost use Rattle.tftp_packet.specs.{no_options, End, Message};
ghost use Rattle.law_model.specs.Model.{request_of, two_bytes};
ghost use Rattle.law_model.specs.{EndRule, PortRule};
ghost use Rattle.law_end.specs.{Rule};
ghost use Rattle.law_tap.specs.Tap.{IsTapView};
ghost use Rattle.law_tap.specs.TapRules.{TapBroken, BreaksNoTapRule};
ghost use Rattle.law_tap.specs.LossesBetween.{IsTapViewWithLosses, IsLawfulBetweenWithLosses, IsCertainBetween};
ghost use Rattle.law_tap.specs.LossyRules.{Explains, LossyBreaks, LossyBroken, StandsWhateverIsMissing};
ghost use Rattle.law_tap.specs.SaidFigures.{FitsSize, FitsTotal};
ghost use Rattle.law_tap.specs.WorkedTap.{worked_sides, request_passes, ack_passes, ack_of_nothing};
ghost use Rattle.law_tap.specs.WorkedLosses.{
  ack_between,
  ack_above,
  ho_passes,
  second_passes,
  zero_passes,
  sized_request,
  block_between,
  read_backwards,
  oack_of_nothing,
  server_acknowledges,
  two_blocks,
};

/// An ACK of a block that was not seen passed: the block may have been missed.
pub fn an_ack_ahead_is_not_certain_between()
    ensures unlawful { IsTapView two_bytes two_bytes.file ack_of_nothing → ⊥ }
    ensures seen { IsTapViewWithLosses two_bytes two_bytes.file ack_of_nothing }
    ensures lawful { IsLawfulBetweenWithLosses worked_sides ack_between }
{}

/// A read passed the other way round: the ACK, the block, and then the request. Each had passed before and was missed, and then
/// passed once more.
pub fn a_read_that_passes_backwards_is_not_certain()
    ensures { IsTapViewWithLosses two_bytes two_bytes.file read_backwards }
{}

/// Where nothing is agreed an OACK is no packet of the server, whatever is missing.
pub fn an_oack_of_nothing_is_unlawful_with_losses()
    ensures { IsTapViewWithLosses two_bytes two_bytes.file oack_of_nothing → ⊥ }
{}

/// It breaks no rule with losses, and is not certain: so it is where nothing was agreed to, and the file was empty.
pub fn an_ack_ahead_breaks_no_rule_with_losses()
    ensures ahead { (e : End) → LossyBreaks worked_sides (request_passes ∷ []) ack_passes (request_of two_bytes) e (Message.Ack 1)
        (Rule.Block EndRule.AckAhead) → ⊥ }
    ensures broken { (broken : Rule) → LossyBroken worked_sides (request_passes ∷ []) ack_passes broken → ⊥ }
    ensures certain { IsCertainBetween worked_sides (request_passes ∷ []) ack_passes → ⊥ }
{}

/// An ACK above the last block breaks rule 26 whatever is missing: with no option asked for block 1 of two bytes is the last.
pub fn an_ack_above_the_last_block_is_certain_between()
    ensures before { IsLawfulBetweenWithLosses worked_sides block_between }
    ensures broken { LossyBroken worked_sides block_between ack_above (Rule.Block EndRule.AckAhead) }
    ensures certain { IsCertainBetween worked_sides block_between ack_above }
{}

/// So does a block with other bytes rule 25.
pub fn a_changed_block_is_certain_between()
    ensures broken { LossyBroken worked_sides block_between ho_passes (Rule.Block EndRule.BlockChanged) }
    ensures certain { IsCertainBetween worked_sides block_between ho_passes }
{}

/// So does a block after the last one rule 21: where nothing can be agreed to, the one of two bytes was the last.
pub fn a_block_above_the_last_one_is_certain_between()
    ensures broken { LossyBroken worked_sides block_between second_passes (Rule.Block EndRule.BlockLength) }
    ensures certain { IsCertainBetween worked_sides block_between second_passes }
{}

/// And an ACK 0 rule 27: there is no OACK that it could answer.
pub fn an_ack_zero_of_nothing_is_certain_between()
    ensures broken { LossyBroken worked_sides (request_passes ∷ []) zero_passes (Rule.Block EndRule.AckZero) }
    ensures certain { IsCertainBetween worked_sides (request_passes ∷ []) zero_passes }
{}

/// A size that the client asks for says nothing before an OACK was seen: the server need not have agreed to it, and the block of
/// two bytes is the whole file.
pub fn a_size_binds_nothing_before_its_oack()
    ensures { Explains worked_sides sized_request block_between no_options 2 }
{}

/// An ACK of the server of a read breaks rule 6, which stands by its name, and so is certain.
pub fn an_ack_of_the_sender_stands()
    ensures before { BreaksNoTapRule worked_sides (request_passes ∷ []) }
    ensures broken { TapBroken worked_sides (request_passes ∷ []) server_acknowledges Rule.WrongKind }
    ensures named { StandsWhateverIsMissing Rule.WrongKind }
    ensures certain { IsCertainBetween worked_sides (request_passes ∷ []) server_acknowledges }
{}

/// An ACK to a server of which nothing has passed breaks rule 2, which does not stand by its name: what the server sent may have been
/// missed.
pub fn an_ack_to_a_silent_server_depends()
    ensures before { BreaksNoTapRule worked_sides (request_passes ∷ []) }
    ensures broken { TapBroken worked_sides (request_passes ∷ []) ack_passes (Rule.Port PortRule.Wrong) }
    ensures named { StandsWhateverIsMissing (Rule.Port PortRule.Wrong) → ⊥ }
    ensures lawful { IsLawfulBetweenWithLosses worked_sides ack_between }
{}

/// Blocks of 8 and 3 bytes are those of a file in blocks of 8 bytes, and of none in blocks of 512: the first of them is whole.
pub fn eight_bytes_fit()
    ensures lowered { FitsSize 8 two_blocks }
    ensures usual { FitsSize 512 two_blocks → ⊥ }
    ensures total { FitsTotal 8 11 two_blocks }
{}
