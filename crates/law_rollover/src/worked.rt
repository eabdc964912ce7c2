//! Worked cases of how numbers are read, by computation. Each is the contract of a function that does nothing.

ghost use Rattle.std.specs.Prelude.{◌≡◌, [], ◌∷◌};
ghost use Rattle.tftp_packet.specs.{One, Zero};
ghost use Rattle.law_rollover.specs.{numbers_of, positions_of, unrolled_payload};
ghost use Rattle.law_rollover.specs.Worked.{past_the_round, past_the_round_by_one, past_the_round_by_zero};

/// A receiver takes the blocks 65535, 65536 and then 65535 again, and acknowledges block 65536: the numbers of these by each
/// rollover, and the blocks that they are read as.
pub fn blocks_past_the_round_are_read_back()
    ensures zero { numbers_of Zero past_the_round ≡ past_the_round_by_zero }
    ensures one { numbers_of One past_the_round ≡ past_the_round_by_one }
    ensures from_zero { positions_of Zero past_the_round_by_zero ≡ past_the_round }
    ensures from_one { positions_of One past_the_round_by_one ≡ past_the_round }
{}

/// After block 65535 a DATA and an ACK of number 0 or 1 are of block 65536, whose place is spelled 256, 0. An ERROR of code 0 and an
/// ACK with a byte too many are as they were.
pub fn payloads_after_block_65535()
    ensures data_by_zero { unrolled_payload Zero 65535 (0 ∷ 3 ∷ 0 ∷ 0 ∷ 7 ∷ []) ≡ 0 ∷ 3 ∷ 256 ∷ 0 ∷ 7 ∷ [] }
    ensures data_by_one { unrolled_payload One 65535 (0 ∷ 3 ∷ 0 ∷ 1 ∷ 7 ∷ []) ≡ 0 ∷ 3 ∷ 256 ∷ 0 ∷ 7 ∷ [] }
    ensures ack_by_zero { unrolled_payload Zero 65536 (0 ∷ 4 ∷ 0 ∷ 0 ∷ []) ≡ 0 ∷ 4 ∷ 256 ∷ 0 ∷ [] }
    ensures late_ack { unrolled_payload Zero 65536 (0 ∷ 4 ∷ 255 ∷ 255 ∷ []) ≡ 0 ∷ 4 ∷ 255 ∷ 255 ∷ [] }
    ensures error { unrolled_payload Zero 65535 (0 ∷ 5 ∷ 0 ∷ 0 ∷ 0 ∷ []) ≡ 0 ∷ 5 ∷ 0 ∷ 0 ∷ 0 ∷ [] }
    ensures longer { unrolled_payload Zero 65535 (0 ∷ 4 ∷ 0 ∷ 0 ∷ 0 ∷ []) ≡ 0 ∷ 4 ∷ 0 ∷ 0 ∷ 0 ∷ [] }
{}
