//! The audit of a recording: what became of each of its frames comes in, and the verdicts on its transfers go out.

mod audit;
pub mod laws;
mod next;

pub use audit::RecordingAudit;
pub use next::{AuditFault, NextFrame};
