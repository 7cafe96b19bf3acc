// The kinds of input records, by 01's numbers.
// kept: numbers, for a caller lends the words of a description, and any number may stand in them.
pub const NODE: u32 = 1;

pub const PROPERTY: u32 = 2;

pub const DIRECTIVE: u32 = 3;

pub const PREPROCESSOR: u32 = 4;

pub const NAME: u32 = 5;

pub const UNIT_ADDRESS: u32 = 6;

pub const LABEL: u32 = 7;

pub const REFERENCE: u32 = 8;

pub const MACRO: u32 = 9;

pub const SLASH: u32 = 10;

pub const OMIT: u32 = 11;

pub const STRING: u32 = 12;

pub const CELL_LIST: u32 = 13;

pub const BYTESTRING: u32 = 14;

pub const NUMBER: u32 = 15;

pub const CHARACTER: u32 = 16;

pub const EXPRESSION: u32 = 17;

pub const PREFIX: u32 = 18;

pub const PARENTHESIS: u32 = 19;

pub const INFIX: u32 = 20;
