// What an expression is reckoned with at a level (02, request 10).
#![tactic(auto)]

pub mod level;
pub mod unsigned;
