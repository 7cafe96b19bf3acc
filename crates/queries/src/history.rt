// A path's history: one pass over a chain of definitions, from the first to the last.
ghost use Rattle.std.specs.Prelude.{◌≤◌, ◌≡◌, false, length};
ghost use Rattle.definition_log.specs.meaning.Record.{log_count, most_records};
ghost use Rattle.definition_log.specs.meaning.ReadBack.{def_at};
ghost use Rattle.queries.specs.machine.Lists.{history_in};
ghost use Rattle.queries.specs.machine.Pass.{is_listed, defined_after};
ghost use Rattle.queries.specs.machine.Table.{Listed};

use crate::definition::{defined_by, deletes_above};
use crate::list::fit;
use definition_log::chain::chain;
use definition_log::limits::{FEW_RECORDS, MOST_RECORDS};
use definition_log::record::{Log, log_count};
use paths_numbers::text::equals;

// How many definitions of a chain a path's history has. Their record numbers are written to the
// start of a list, earliest first, if it has room for them. Each call sets up an array: 256 KB, or
// 32 KB for a log of at most 8,192 records.
pub fn history_list(log: Log<'_>, first: u32, path: &[u8], list: &mut [u32]) -> u32
    ensures { Listed list.old list.new result
        (history_in log.entry.words.now log.entry.bytes.now first path.now) }
{
    if log_count(log.words) as usize <= FEW_RECORDS {
        return history_within::<FEW_RECORDS>(log, first, path, list);
    }
    history_within::<MOST_RECORDS>(log, first, path, list)
}

// The same of a log of at most N records, not inlined, so that no array is on the stack beside a larger one.
#[inline(never)]
fn history_within<const N: usize>(log: Log<'_>, first: u32, path: &[u8], list: &mut [u32]) -> u32
    requires room { log_count log.words.now ≤ N }
    requires size { N ≤ most_records }
    ensures { Listed list.old list.new result
        (history_in log.entry.words.now log.entry.bytes.now first path.now) }
{
    let mut found = [0u32; N];
    let history = history_of(log, first, path, &mut found);
    fit(list, history);
    history.len() as u32
}

// The record numbers of a path's history, earliest first, at the start of an array with room for them.
fn history_of<'a>(log: Log<'_>, first: u32, path: &[u8], found: &'a mut [u32]) -> &'a [u32]
    requires { length (history_in log.words.now log.bytes.now first path.now) ≤ length found.old }
    ensures { result.now ≡ history_in log.entry.words.now log.entry.bytes.now first path.now }
{
    // kept: a count of what is written, which is not each record, and is wanted behind the loop
    let mut count = 0;
    let mut defined = false;
    for r in chain(log.words, first) {
        let passed = history_at(log, r, path, defined);
        if passed.listed {
            found[count] = r;
            count += 1;
        }
        defined = passed.defined;
    }
    &found[..count]
}

// What becomes of a path's history at a definition.
#[derive(Clone, Copy, Debug, PartialEq, Eq)]
struct Passed {
    listed: bool,
    defined: bool,
}

// Whether a definition is in a path's history, and whether the path is defined after it.
fn history_at(log: Log<'_>, r: u32, path: &[u8], defined: bool) -> Passed
    ensures { result ≡ record {
      listed = is_listed path.now (def_at log.entry.words.now log.entry.bytes.now r) defined;
      defined = defined_after path.now (def_at log.entry.words.now log.entry.bytes.now r) defined;
    } }
{
    if equals(log.first_text(r), path) {
        return Passed {
            listed: true,
            defined: defined_by(log, r, defined),
        };
    }
    if !defined {
        return Passed {
            listed: false,
            defined: false,
        };
    }
    let deleted = deletes_above(log, r, path);
    Passed {
        listed: deleted,
        defined: !deleted,
    }
}
