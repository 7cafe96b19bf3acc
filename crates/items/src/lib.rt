// One item of a description: what properties, directives and deletions add to the log, and where a
// node goes. Nodes and items call each other a crate above.
#![tactic(auto)]

pub mod directive;
pub mod dt_node;
pub mod dt_property;
pub mod item;
pub mod open_node;
pub mod report;
pub mod unbind;
