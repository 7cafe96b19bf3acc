// Paths that leave out unit addresses (02, request 5).
#![tactic(auto)]

pub mod short;
