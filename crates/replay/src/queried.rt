// Recorded queries against what ours answer. An answer is a record number; what is recorded is a
// definition's place in the main log, from 0.
use crate::tally::Tally;
use definition_log::answer::{Numbers, Refusal};
use definition_log::layout;
use definition_log::record::{Log, log_count, next_of, out_field};
use queries::query::{contains_node, history, iter_live_defs_under};
use std::io;

// The queries of a log.
pub fn asked<R: Print>(log: Log<'_>, list: &mut [u32], t: &mut Tally<R>) -> io::Result<()> {
    for _ in 0..t.sample.number() {
        query(log, list, t)?;
    }
    Ok(())
}

// The three queries of a path.
fn query<R: Print>(log: Log<'_>, list: &mut [u32], t: &mut Tally<R>) -> io::Result<()> {
    let path = t.sample.text();
    answered(contains_node(log, path).map(u32::from), t, "contains_node")?;
    let live = iter_live_defs_under(log, path, list);
    places(log.words, list, live, t, "live list")?;
    let past = history(log, path, list);
    places(log.words, list, past, t, "history")
}

// What is returned with number 0.
fn answered<R: Print>(
    answer: Result<u32, Refusal>,
    t: &mut Tally<R>,
    what: &str,
) -> io::Result<()> {
    t.noted(answer.is_ok(), what)?;
    t.number(Numbers::from(answer).returned, what)
}

// A list of places against the definitions that are listed.
fn places<R: Print>(
    out: &[u32],
    list: &[u32],
    answer: Result<u32, Refusal>,
    t: &mut Tally<R>,
    what: &str,
) -> io::Result<()> {
    let count = t.sample.peek() as usize;
    answered(answer, t, what)?;
    // kept: an index, for more may be recorded than are listed; the library has no `repeat` for what is missing
    for i in 0..count {
        let number = list.get(i).copied().unwrap_or(0);
        t.number(place_of(out, number), what)?;
    }
    Ok(())
}

// A definition's place in the main log, or a number behind the last place.
// kept: a walk along any links, and no `chain`: a list may name what ends it, and what is left of an older log may lead anywhere.
fn place_of(out: &[u32], number: u32) -> u32 {
    let most = log_count(out);
    let mut r = out_field(out, 0, layout::FIRST_DEFINITION);
    for place in 0..most {
        if r == number {
            return place;
        }
        r = next_of(out, r);
    }
    most
}
