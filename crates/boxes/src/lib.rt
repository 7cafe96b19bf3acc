// Box numbers in bytestrings: 02, request 1.
#![tactic(auto)]

pub mod box_number;
