//! Two capture texts of one transfer, one of each end, judged side by side: what there is to say of each, and how far one
//! run of the two ends has both.

pub mod laws;
mod merging;
mod pair;
mod reading;
mod rest;
mod said;

pub use crate::judge::{Matched, Wait};
pub use pair::{judge_pair, judge_pair_by};
pub use said::{Apart, PairSaid};
