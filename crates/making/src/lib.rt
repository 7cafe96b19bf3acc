// The log in the making: LowerCtx and the operations that make and unmake records.
#![tactic(auto)]

mod add;
mod body;
pub mod ctx;
mod drop;
mod finish;
mod parts;
pub mod place;
pub mod recs;
mod remove;
pub mod start;
mod text;
