//! Which datagrams of a recording are one transfer, and what makes a refusal doubtful: the definitions, the line of one
//! client, and the place of each datagram in one pass.
#![tactic(auto)]

pub mod lines;
pub mod transfers;
