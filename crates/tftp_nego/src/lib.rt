//! Which options an OACK agrees on (RFC 2347).
#![tactic(auto)]

mod agreed;
mod fault;
mod laws;
mod names;
mod negotiate;
mod rule;
mod values;

pub use agreed::{Agreed, nothing_agreed};
pub use fault::NegoFault;
pub use laws::{agreed_has_no_fault, first_fault_is_one, worked_agreements, worked_faults};
pub use negotiate::agree;
pub use rule::AgreementRule;
