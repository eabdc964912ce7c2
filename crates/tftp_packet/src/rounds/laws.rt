//! Laws of how numbers begin again. Each is the contract of a function that does nothing.

ghost use Rattle.std.specs.Prelude.{◌≡◌, ℕ, ◌+◌, ◌-◌, ◌≤◌, ◌%◌};
ghost use Rattle.tftp_packet.specs.Rounds.{IsNear, Rollover, first_of, half_round, number_of, position_of};

/// In the first round each block is its own number. A number comes again after 65536 blocks where 0 comes after 65535, and
/// after 65535 where 1 does.
pub fn numbers_come_again()
    ensures low { (first k : ℕ) → k ≤ 65535 → number_of first k ≡ k }
    ensures zero { (k : ℕ) → number_of 0 k ≡ k % 65536 }
    ensures one { (k : ℕ) → 1 ≤ k → number_of 1 k ≡ (k - 1) % 65535 + 1 }
    ensures small { (r : Rollover) (k : ℕ) → number_of (first_of r) k ≤ 65535 }
{}

/// Of the blocks that have a number exactly one is near.
pub fn one_block_is_near()
    ensures near { (r : Rollover) (high n : ℕ) → n ≤ 65535 → IsNear (first_of r) high (position_of r high n) }
    ensures number { (r : Rollover) (high n : ℕ) → n ≤ 65535 → number_of (first_of r) (position_of r high n) ≡ n }
    ensures only { (r : Rollover) (high k : ℕ) → IsNear (first_of r) high k
        → position_of r high (number_of (first_of r) k) ≡ k }
{}

/// A block that is at most half a round older or newer than the highest one is near, and so is each of the first round that
/// is not older.
pub fn half_a_round_is_near()
    ensures around { (r : Rollover) (high k : ℕ) → high ≤ k + half_round → k ≤ high + half_round
        → IsNear (first_of r) high k }
    ensures low { (r : Rollover) (high k : ℕ) → high ≤ k + half_round → k ≤ 65535 → IsNear (first_of r) high k }
{}
