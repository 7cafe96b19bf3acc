// The lowest crate: paths, numbers, operators, cells, bytestrings and reference texts, each on the
// bytes that a caller lends. A module has the name of the Rust file that it ports.
#![tactic(auto)]

pub mod codes;
pub mod dt_node;
pub mod dt_property;
pub mod expr_eval;
pub mod mir;
pub mod operators;
pub mod phandle;
pub mod text;
