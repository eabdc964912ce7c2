//! Worked cases of which block a number means, by computation. Each is the contract of a function that does nothing.

ghost use Rattle.std.specs.Prelude.{◌≡◌};
ghost use Rattle.tftp_packet.specs.Rounds.{One, Zero, position_of};

/// Where 0 comes after 65535 and block 65535 is the highest, 0 and 1 are the two blocks after it. Of 32768 it is half a round
/// late, and 32767 is of the next round.
pub fn near_block_65535_by_zero()
    ensures last { position_of Zero 65535 65535 ≡ 65535 }
    ensures zero { position_of Zero 65535 0 ≡ 65536 }
    ensures one { position_of Zero 65535 1 ≡ 65537 }
    ensures oldest { position_of Zero 65535 32768 ≡ 32768 }
    ensures newest { position_of Zero 65535 32767 ≡ 98303 }
{}

/// One block later 65535, 0 and 1 mean the same, and 32768 is of the next round too.
pub fn near_block_65536_by_zero()
    ensures last { position_of Zero 65536 65535 ≡ 65535 }
    ensures zero { position_of Zero 65536 0 ≡ 65536 }
    ensures one { position_of Zero 65536 1 ≡ 65537 }
    ensures newest { position_of Zero 65536 32768 ≡ 98304 }
{}

/// Where 1 comes after 65535 and block 65535 is the highest, 1 is the block after it, and 0 is the start.
pub fn near_block_65535_by_one()
    ensures last { position_of One 65535 65535 ≡ 65535 }
    ensures zero { position_of One 65535 0 ≡ 0 }
    ensures one { position_of One 65535 1 ≡ 65536 }
    ensures oldest { position_of One 65535 32768 ≡ 32768 }
    ensures newest { position_of One 65535 32767 ≡ 98302 }
{}

/// One block later 65535, 0 and 1 mean the same, and 32768 is of the next round too.
pub fn near_block_65536_by_one()
    ensures last { position_of One 65536 65535 ≡ 65535 }
    ensures zero { position_of One 65536 0 ≡ 0 }
    ensures one { position_of One 65536 1 ≡ 65536 }
    ensures newest { position_of One 65536 32768 ≡ 98303 }
{}

/// Until more than half a round has passed each number is its own block, by either rollover.
pub fn near_the_start()
    ensures start_by_zero { position_of Zero 0 65535 ≡ 65535 }
    ensures start_by_one { position_of One 0 65535 ≡ 65535 }
    ensures half_by_zero { position_of Zero 32767 0 ≡ 0 }
    ensures past_half_by_zero { position_of Zero 32768 0 ≡ 65536 }
    ensures past_half_by_one { position_of One 32769 1 ≡ 65536 }
{}
