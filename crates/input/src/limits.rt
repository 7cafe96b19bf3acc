// 01's limits of an input: its records and bytes of text (row 1), and the child, item and value links from record 0 (row 6).
pub const MOST_RECORDS: usize = 2048;

pub const MOST_TEXT: usize = 65536;

pub const MOST_LINKS: u32 = 64;
