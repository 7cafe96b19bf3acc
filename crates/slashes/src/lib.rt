// Slashes found a word at a time: 02, request 8.
#![tactic(auto)]

pub mod slash;
