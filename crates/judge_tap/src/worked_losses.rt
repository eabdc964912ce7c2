//! Worked cases of what is refused with losses. Each is the contract of a function that does nothing.

ghost use Rattle.std.specs.Prelude.{ℕ, List, [], ◌∷◌, Some, None, true, false};
ghost use Rattle.law_model.specs.{EndRule};
ghost use Rattle.law_end.specs.{Rule};
ghost use Rattle.law_tap.specs.SaidFigures.{FitsSaid, FitsSize};
ghost use Rattle.law_tap.specs.WorkedTap.{ack_passes, hi_passes, request_passes, worked_sides};
ghost use Rattle.law_tap.specs.WorkedLosses.{ack_above, ack_between, block_between, ho_passes, second_passes, zero_passes};
ghost use Rattle.judge_tap.specs.Said.{IsErrorPut};
ghost use Rattle.judge_tap.specs.LossyKept.{HasBegun, IsNotCertain, RefusesWithLosses};
ghost use Rattle.judge_tap.specs.ToldKept.{IsStandingAtTap, IsStandingBy};
ghost use Rattle.judge_tap.specs.WorkedLossy.{long_blocks, lowered_request};
ghost use Rattle.judge_tap.specs.declared.lossy_refusal.LossyRefusal.{LossyRefusal};

/// After a request that asks for no option and block 1 "hi" an ACK 2 is certain to break the law, and so are other bytes of the
/// block and a block 2; after the request alone an ACK 0 is. The index tells which datagram it was.
pub fn what_is_certain_is_refused()
    ensures above { RefusesWithLosses worked_sides block_between ack_above (LossyRefusal.Certain 3 (Rule.Block EndRule.AckAhead)) }
    ensures changed { RefusesWithLosses worked_sides block_between ho_passes (LossyRefusal.Certain 3 (Rule.Block EndRule.BlockChanged)) }
    ensures second { RefusesWithLosses worked_sides block_between second_passes (LossyRefusal.Certain 3 (Rule.Block EndRule.BlockLength)) }
    ensures zero { RefusesWithLosses worked_sides (request_passes ∷ []) zero_passes (LossyRefusal.Certain 2 (Rule.Block EndRule.AckZero)) }
    ensures index { RefusesWithLosses worked_sides block_between ack_above (LossyRefusal.Certain 2 (Rule.Block EndRule.AckAhead)) → ⊥ }
{}

/// An ACK of a block that was not recorded is not refused, whatever the rule: the block may have been missed.
pub fn an_ack_ahead_is_not_refused()
    ensures begun { HasBegun worked_sides ack_between }
    ensures not_certain { IsNotCertain worked_sides (request_passes ∷ []) ack_passes }
    ensures refused { (index : ℕ) (broken : Rule) → RefusesWithLosses worked_sides (request_passes ∷ []) ack_passes (LossyRefusal.Certain index broken) → ⊥ }
{}

/// What was recorded does not begin with its request where a block came before it.
pub fn a_block_before_the_request_comes_first()
    ensures { HasBegun worked_sides (request_passes ∷ hi_passes ∷ []) → ⊥ }
{}

/// A block takes memory when it comes for the first time, and an ACK takes none.
pub fn a_block_takes_memory_once()
    ensures first { RefusesWithLosses worked_sides (request_passes ∷ []) hi_passes (LossyRefusal.Memory 1) }
    ensures again { RefusesWithLosses worked_sides block_between hi_passes (LossyRefusal.Memory 2) → ⊥ }
    ensures ack { RefusesWithLosses worked_sides (request_passes ∷ []) ack_passes (LossyRefusal.Memory 1) → ⊥ }
{}

/// Where the client asks for blocks of 8 bytes and no OACK was recorded, blocks of 512 bytes may be: the server need not have agreed.
/// Blocks of 8 bytes they are not.
pub fn a_size_binds_nothing_before_its_oack()
    ensures unseen { FitsSaid lowered_request None long_blocks }
    ensures lowered { FitsSize 8 long_blocks → ⊥ }
{}

/// The first ERROR of an end is kept; the same one again is the same, and with another code it is not.
pub fn an_error_again_is_the_same()
    ensures first { IsErrorPut None (5, []) (Some (5, [])) true }
    ensures again { IsErrorPut (Some (5, [])) (5, []) (Some (5, [])) true }
    ensures other { IsErrorPut (Some (5, [])) (1, []) (Some (5, [])) true → ⊥ }
{}

/// After the request and block 1 "hi" the refusal of an ACK 2 stands whatever is missing. After the request alone that of an ACK 1
/// does not: the block may have been missed. That of other bytes of the block stands by its rule's name, whatever is told.
pub fn a_refusal_stands_where_it_is_certain()
    ensures above { IsStandingAtTap worked_sides block_between ack_above (Rule.Block EndRule.AckAhead) (Some true) }
    ensures missed { IsStandingAtTap worked_sides (request_passes ∷ []) ack_passes (Rule.Block EndRule.AckAhead) (Some false) }
    ensures never { IsStandingAtTap worked_sides (request_passes ∷ []) ack_passes (Rule.Block EndRule.AckAhead) (Some true) → ⊥ }
    ensures name { IsStandingBy (Rule.Block EndRule.BlockChanged) (Some false) (Some true) }
    ensures told { IsStandingBy (Rule.Block EndRule.AckAhead) (Some false) (Some true) → ⊥ }
{}
