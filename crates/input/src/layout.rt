// Where the words of an input record stand, in 01's order, and how many a record has.
pub const RECORD_WORDS: usize = 8;

pub const KIND: u32 = 0;

pub const NEXT: u32 = 1;

pub const CHILD: u32 = 2;

pub const TEXT_START: u32 = 3;

pub const TEXT_LENGTH: u32 = 4;

pub const W: u32 = 5;

pub const SPAN_START: u32 = 6;

pub const SPAN_END: u32 = 7;
