// The files' numbers in the records of a log.
#![tactic(auto)]

pub mod file_words;
