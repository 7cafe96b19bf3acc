// The live list: one pass from a chain's last definition to its first, with the later definitions
// that can take something away in a table.
ghost use Rattle.std.specs.Prelude.{◌≤◌, ◌<◌, ◌≡◌, ◌∷◌, map, length};
ghost use Rattle.definition_log.specs.meaning.Record.{log_count};
ghost use Rattle.definition_log.specs.meaning.ReadBack.{chain_of, def_at};
ghost use Rattle.queries.specs.meaning.Live.{is_live};
ghost use Rattle.queries.specs.meaning.Query.{live_numbers};
ghost use Rattle.queries.specs.machine.Lists.{live_in};
ghost use Rattle.queries.specs.machine.Table.{least_heads, many_heads, Table, Room, RoomForOne, Listed};

use crate::later::{LaterDefs, LaterTable, Taken};
use crate::list::fit;
use definition_log::chain::chain;
use definition_log::kinds::{DELETED_NODE, DELETED_PROPERTY, PROPERTY};
use definition_log::limits::{FEW_RECORDS, LEAST_RECORDS, MOST_RECORDS};
use definition_log::record::{Log, kind_of, log_count};
use paths_numbers::mir::lies_under;

// How many definitions of a chain are live under a base. Their record numbers are written to the
// start of a list, latest first, if it has room for them. Each call sets up four arrays: 1 MB, 128 KB
// for a log of at most 8,192 records, or 16 KB for one of at most 1,024.
pub fn live_list(log: Log<'_>, first: u32, base: &[u8], list: &mut [u32]) -> u32
    ensures { Listed list.old list.new result
        (live_in log.entry.words.now log.entry.bytes.now first base.now) }
{
    let count = log_count(log.words) as usize;
    if count <= LEAST_RECORDS {
        return live_within::<LEAST_RECORDS>(log, first, base, list);
    }
    if count <= FEW_RECORDS {
        return live_within::<FEW_RECORDS>(log, first, base, list);
    }
    live_within::<MOST_RECORDS>(log, first, base, list)
}

// The same of a log of at most N records, not inlined, so that no arrays are on the stack beside larger ones.
#[inline(never)]
fn live_within<const N: usize>(log: Log<'_>, first: u32, base: &[u8], list: &mut [u32]) -> u32
    requires room { log_count log.words.now ≤ N }
    requires table_size { (least_heads ≤ N) × (N ≤ many_heads) }
    ensures { Listed list.old list.new result
        (live_in log.entry.words.now log.entry.bytes.now first base.now) }
{
    let mut numbers = [0u32; N];
    let mut heads = [0u32; N];
    let mut links = [0u32; N];
    let mut room = [0u32; N];
    let order = chain_order(log.words, first, &mut numbers);
    let mut table = LaterTable {
        heads: &mut heads,
        links: &mut links,
    };
    let live = live_of(log, base, order, &mut table, &mut room);
    fit(list, live);
    live.len() as u32
}

// The record numbers of a chain, at the start of an array with room for them.
fn chain_order<'a>(words: &[u32], first: u32, numbers: &'a mut [u32]) -> &'a [u32]
    requires { log_count words.now ≤ length numbers.old }
    ensures { result.now ≡ chain_of words.now first }
{
    // kept: a count, since how much of the array is filled is wanted behind the loop, where `enumerate` is gone
    let mut count = 0;
    for r in chain(words, first) {
        numbers[count] = r;
        count += 1;
    }
    &numbers[..count]
}

// The record numbers of the live definitions, latest first, at the start of an array with room for them.
fn live_of<'a>(
    log: Log<'_>,
    base: &[u8],
    order: &[u32],
    table: &mut LaterTable<'_>,
    live: &'a mut [u32],
) -> &'a [u32]
    requires { Room (length order.now) order.now table.old.heads.now table.old.links.now live.old }
    ensures { result.now ≡ live_numbers (def_at log.entry.words.now log.entry.bytes.now) base.now order.now }
{
    // kept: a count of what is written, which is not each record, and is wanted behind the loop
    let mut count = 0;
    let mut left = order;
    while let Some((r, earlier)) = left.split_last() {
        if pass(log, base, *r, &order[left.len()..], table) {
            live[count] = *r;
            count += 1;
        }
        left = earlier;
    }
    &live[..count]
}

// Whether a definition is live under a base, by the table of the later ones, into which it is
// entered if it can take something away.
// One lifetime with a name, which the check of borrows asks for where one struct holds the log, the list and the table.
fn pass<'x>(
    log: Log<'x>,
    base: &[u8],
    r: u32,
    later: &'x [u32],
    table: &'x mut LaterTable<'_>,
) -> bool
    requires table { Table (def_at log.words.now log.bytes.now) base.now (length table.old.heads.now)
        table.old.heads.now table.old.links.now later.now }
    requires room_for_one { RoomForOne table.old.heads.now table.old.links.now (length later.now) }
    ensures value { result ≡ is_live base.now (def_at log.entry.words.now log.entry.bytes.now r)
        (map (def_at log.entry.words.now log.entry.bytes.now) later.now) }
    ensures table_2 { Table (def_at log.entry.words.now log.entry.bytes.now) base.now (length table.new.heads.now)
        table.new.heads.now table.new.links.now (r ∷ later.now) }
    ensures lengths { (length table.new.heads.now ≡ length table.old.heads.now)
        × (length table.new.links.now ≡ length table.old.links.now) }
{
    let path = log.first_text(r);
    match kind_of(log.words, r) {
        DELETED_NODE => {
            table.enter_at(Taken::Node, path, later.len());
            false
        }
        _ if !lies_under(path, base) => false,
        DELETED_PROPERTY => {
            table.enter_at(Taken::Property, path, later.len());
            false
        }
        PROPERTY => {
            let seen = LaterDefs { log, later, table };
            let above = seen.look_above(path);
            let overwritten = seen.holds(Taken::Property, path, above.hash);
            table.enter(Taken::Property, above.hash, later.len());
            !(above.deleted || overwritten)
        }
        _ => !LaterDefs { log, later, table }.look_above(path).deleted,
    }
}
