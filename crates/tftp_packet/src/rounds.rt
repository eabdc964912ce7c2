//! Block numbers that begin again after 65535 (RFC 1350, section 5, gives them two bytes and says no more): which numbers
//! blocks have, which block a number means, and the greatest block.

mod greatest;
mod laws;
mod rollover;
mod worked;

pub use greatest::{greatest_block, greatest_is_one_of_two};
pub use laws::{half_a_round_is_near, numbers_come_again, one_block_is_near};
pub use rollover::Rollover;
pub use worked::{
    near_block_65535_by_one, near_block_65535_by_zero, near_block_65536_by_one,
    near_block_65536_by_zero, near_the_start,
};
