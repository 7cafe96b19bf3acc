// Where the words of an output record stand, in 01's order, and how many a record has.
pub const RECORD_WORDS: usize = 16;

pub const KIND: u32 = 0;

pub const NEXT: u32 = 1;

pub const TEXT_START: u32 = 2;

pub const TEXT_LENGTH: u32 = 3;

pub const SECOND_START: u32 = 4;

pub const SECOND_LENGTH: u32 = 5;

pub const CHILD: u32 = 6;

pub const N: u32 = 7;

pub const M: u32 = 8;

pub const SPAN_START: u32 = 9;

pub const SPAN_END: u32 = 10;

pub const NAME_START: u32 = 11;

pub const NAME_END: u32 = 12;

pub const FILE: u32 = 13;

pub const NAME_FILE: u32 = 14;

// The links by which a record is put into a chain, as places in its words.
pub const NEXT_AT: usize = NEXT as usize;

pub const CHILD_AT: usize = CHILD as usize;

// The words of record 0.
pub const RECORDS_USED: u32 = 0;

pub const FIRST_DEFINITION: u32 = 1;

pub const FIRST_EXTENSION: u32 = 2;

pub const FIRST_BINDING: u32 = 3;

pub const FIRST_DIAGNOSTIC: u32 = 4;

pub const BYTES_USED: u32 = 5;

pub const FIRST_POST: u32 = 6;
