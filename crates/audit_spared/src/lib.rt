//! Whom a recording accuses: no lawful end is refused without a doubt, what may be left out of a lawful capture, and when
//! all is known of a transfer.
#![tactic(auto)]

pub mod fair;
pub mod finality;
pub mod spared;
