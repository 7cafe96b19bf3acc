// The definition log: its records read, and tested by row 8.
#![tactic(auto)]

pub mod answer;
pub mod chain;
pub mod kinds;
pub mod layout;
pub mod limits;
mod links;
pub mod lists;
pub mod parts;
pub mod record;
pub mod sound;
