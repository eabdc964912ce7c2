//! What each end of a transfer saw in a recording: its parties with the names of their hosts, the judges of both views in
//! one pass, and the capture text of a view.
#![tactic(auto)]

pub mod parties;
pub mod texts;
pub mod views;
