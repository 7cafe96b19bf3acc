// Lowering: items and nodes, which call each other, and the whole with rows 1 to 7 (lower).
#![tactic(auto)]

pub mod lower;
mod lower_item;
