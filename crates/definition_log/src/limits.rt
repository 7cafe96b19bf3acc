// How much a log can have, by row 7: records, and bytes of texts.
pub const MOST_RECORDS: usize = 65536;

pub const MOST_BYTES: usize = 16777216;

// Smaller logs, for which smaller arrays are set up sooner.
pub const FEW_RECORDS: usize = 8192;

pub const LEAST_RECORDS: usize = 1024;
