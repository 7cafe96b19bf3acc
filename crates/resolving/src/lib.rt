// Where references lead.
#![tactic(auto)]

pub mod resolve;
