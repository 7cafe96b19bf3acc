// Recorded chains against those of the log. A chain that ends early is found by its length; what is read
// behind its end differs or not.
use crate::records::{ChainOf, record_itself};
use crate::tally::Tally;
use definition_log::kinds::{CELL_LIST, NODE, PROPERTY};
use definition_log::record::{Log, child_of, kind_of, next_of, out_field};
use definition_log::{chain, layout};
use std::io;

// A chain: how many records it has, and each of them with the chains that it has.
#[cycle(chain_chains_of)]
pub fn chain<R: Print>(log: Log<'_>, has: ChainOf, first: u32, t: &mut Tally<R>) -> io::Result<()> {
    let count = t.sample.peek();
    counted(log.words, has, first, t)?;
    let mut r = first;
    for _ in 0..count {
        let kind = t.sample.peek();
        record_itself(log, has, r, t)?;
        chains_of(log, has, r, kind, t)?;
        r = next_of(log.words, r);
    }
    Ok(())
}

// The chains of a record: an extension's body, the labels and values of a definition, and the cells of a
// value that is recorded as a cell list.
#[cycle(chain_chains_of)]
fn chains_of<R: Print>(
    log: Log<'_>,
    has: ChainOf,
    r: u32,
    kind: u32,
    t: &mut Tally<R>,
) -> io::Result<()> {
    match has {
        ChainOf::Extensions => {
            let body = out_field(log.words, r, layout::M);
            chain(log, ChainOf::Definitions, body, t)
        }
        ChainOf::Definitions => {
            let labels = child_if(log.words, r, NODE);
            let values = child_if(log.words, r, PROPERTY);
            chain(log, ChainOf::Labels, labels, t)?;
            chain(log, ChainOf::Values, values, t)
        }
        ChainOf::Values => {
            if kind != CELL_LIST {
                return Ok(());
            }
            let cells = child_of(log.words, r);
            chain(log, ChainOf::Cells, cells, t)
        }
        _ => Ok(()),
    }
}

// The children of a record that is of a kind.
// kept: 0 for none, which is how the words of the log say it
fn child_if(out: &[u32], r: u32, kind: u32) -> u32 {
    if kind_of(out, r) == kind {
        child_of(out, r)
    } else {
        0
    }
}

// Compares a chain's length with the number that is recorded; it has no first record if that is 0.
fn counted<R: Print>(out: &[u32], has: ChainOf, first: u32, t: &mut Tally<R>) -> io::Result<()> {
    let what = has.number_name();
    let none = t.sample.peek() == 0;
    t.noted((first == 0) == none, what)?;
    t.number(chain_len(out, first), what)
}

// How many records a chain has.
fn chain_len(out: &[u32], first: u32) -> u32 {
    u32::try_from(chain::chain(out, first).count()).unwrap_or(u32::MAX)
}
