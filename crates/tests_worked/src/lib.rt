//! Worked cases of the law: what captures show by the runs of two ends, what they break by the rules, the verdicts, and
//! what the commands write of whole texts.
#![tactic(auto)]

pub mod worked_cases;
pub mod worked_hosts;
pub mod worked_offers;
pub mod worked_rules;
pub mod worked_strays;
pub mod worked_texts;
pub mod worked_verdicts;
