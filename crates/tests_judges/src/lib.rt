//! Tests of the stores of blocks, of the states and ports of one end, of the judge and its verdicts, of the normal capture
//! and of the program's commands.
#![tactic(auto)]

#[cfg(test)]
mod commands;
pub mod ends;
pub mod judges;
#[cfg(test)]
mod scripts;
