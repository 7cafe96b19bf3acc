// The description: its records tested by rows 1 to 6, and names, references, expressions and values
// read from them.
#![tactic(auto)]

pub mod chain;
pub mod expr_eval;
pub mod kinds;
pub mod layout;
pub mod limits;
pub mod linked;
pub mod name;
pub mod phandle;
mod place;
pub mod record;
pub mod refusal;
pub mod report;
pub mod value_read;
