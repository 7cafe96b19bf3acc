// Which file a span came from.
#![tactic(auto)]

pub mod files;
