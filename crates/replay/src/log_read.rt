// A recorded log against the one that lowering left.
use crate::chains::chain;
use crate::records::ChainOf;
use crate::tally::Tally;
use definition_log::layout;
use definition_log::record::{Log, out_field};
use std::io;

// The chains of a log in the order in which they are recorded: where record 0 has the first record, and what the chain has.
const CHAINS: [(u32, ChainOf); 5] = [
    (layout::FIRST_DEFINITION, ChainOf::Definitions),
    (layout::FIRST_EXTENSION, ChainOf::Extensions),
    (layout::FIRST_BINDING, ChainOf::Bindings),
    (layout::FIRST_DIAGNOSTIC, ChainOf::Diagnostics),
    (layout::FIRST_POST, ChainOf::Diagnostics),
];

// The whole log: record 0's counts and what its chains have.
pub fn whole_log<R: Print>(log: Log<'_>, t: &mut Tally<R>) -> io::Result<()> {
    t.number(
        out_field(log.words, 0, layout::RECORDS_USED),
        "records used",
    )?;
    t.number(out_field(log.words, 0, layout::BYTES_USED), "bytes used")?;
    for (place, has) in &CHAINS {
        chain(log, *has, out_field(log.words, 0, *place), t)?;
    }
    Ok(())
}
