//! Worked cases of how numbers between the ends are read. Each is the contract of a function that does nothing.

ghost use Rattle.std.specs.Prelude.{◌≡◌, [], ◌∷◌};
ghost use Rattle.tftp_packet.specs.{One, Zero};
ghost use Rattle.law_tap.specs.TapNumbers.{AreNearBetween, IsUnrolledBetween, high_between};
ghost use Rattle.law_tap.specs.WorkedNumbers.{block_65536, last_of_round, number_zero, past_the_round_between};

/// After block 65535 a DATA of number 0 is block 65536. Where 1 comes after 65535 it is block 0.
pub fn a_block_after_65535_is_65536_between()
    ensures first { IsUnrolledBetween Zero [] last_of_round last_of_round }
    ensures zero { IsUnrolledBetween Zero (last_of_round ∷ []) number_zero block_65536 }
    ensures one { IsUnrolledBetween One (last_of_round ∷ []) number_zero number_zero }
{}

/// Block 65536 is the highest that has passed after it, and it and its ACK are near.
pub fn blocks_past_the_round_are_near_between()
    ensures high { high_between past_the_round_between ≡ 65536 }
    ensures near { AreNearBetween Zero past_the_round_between }
{}
