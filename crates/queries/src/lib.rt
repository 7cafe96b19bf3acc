// Queries of a definition log: what is live, and what a path's history is.
#![tactic(auto)]

pub mod definition;
pub mod history;
mod later;
mod list;
pub mod live;
pub mod lookup;
pub mod mir;
pub mod path;
pub mod query;
