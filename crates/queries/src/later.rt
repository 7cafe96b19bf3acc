// The later definitions that can take away what is live, held by the hash of their path. A table
// has a head for each slot and a link for each definition; both name a definition by how many
// there are from it on, and 0 ends a list (kept: an Option would double the arrays). A slot's list
// holds every such definition with the slot's hash, so a look-up misses none and compares only these.
ghost use Rattle.std.specs.Prelude.{◌+◌, ◌≤◌, ◌<◌, ◌≡◌, true, false, cond, map, length, get_or, set};
ghost use Rattle.paths_numbers.specs.meaning.Byte.{slash};
ghost use Rattle.paths_numbers.specs.meaning.Text.{starts_with};
ghost use Rattle.paths_numbers.specs.meaning.Path.{root};
ghost use Rattle.definition_log.specs.meaning.ReadBack.{def_at};
ghost use Rattle.paths_numbers.specs.meaning.Lists.{any};
ghost use Rattle.queries.specs.meaning.Live.{deletes};
ghost use Rattle.queries.specs.machine.Table.{mixed, hash_from, place_of, slot_of, Held, deleted_at, of_node, takes_at, Deleted, Sized};
ghost use Rattle.queries.specs.machine.Table.{RoomForOne};

use crate::definition::{is_deleted_at, overwrites_at};
use definition_log::limits::{FEW_RECORDS, MOST_RECORDS};
use definition_log::record::Log;

// The hash of "/".
const ROOT_HASH: u32 = 47;

// What a later definition can take away, by which its list is chosen.
#[derive(Clone, Copy, Debug, PartialEq, Eq)]
pub enum Taken {
    // A node and what is below it: a deleted node takes it away.
    Node,
    // A property: another property or a deleted property at its path takes it away.
    Property,
}

// The arrays of such a table.
#[derive(Drop)]
pub struct LaterTable<'a> {
    pub heads: &'a mut [u32],
    pub links: &'a mut [u32],
}

impl LaterTable<'_> {
    // Enters a definition with a path, behind which so many are later, into its list.
    pub fn enter_at(&mut self, taken: Taken, path: &[u8], later: usize)
        requires { RoomForOne self.old.heads.now self.old.links.now later }
        ensures heads_after { self.new.heads.now ≡ set self.old.heads.now
            (slot_of (length self.old.heads.now) (of_node taken) (hash_from 0 path.now)) (later + 1) }
        ensures links_after { self.new.links.now ≡ set self.old.links.now later
            (get_or self.old.heads.now (slot_of (length self.old.heads.now) (of_node taken) (hash_from 0 path.now)) 0) }
    {
        self.enter(taken, hash_of(path), later);
    }

    // The same, with the path's hash.
    pub fn enter(&mut self, taken: Taken, hash: u32, later: usize)
        requires { RoomForOne self.old.heads.now self.old.links.now later }
        ensures heads_after { self.new.heads.now ≡ set self.old.heads.now
            (slot_of (length self.old.heads.now) (of_node taken) hash) (later + 1) }
        ensures links_after { self.new.links.now ≡ set self.old.links.now later
            (get_or self.old.heads.now (slot_of (length self.old.heads.now) (of_node taken) hash) 0) }
    {
        let slot = slot_of(self.heads.len(), taken, hash);
        self.links[later] = self.heads[slot];
        self.heads[slot] = (later + 1) as u32;
    }

    // Whether a list holds a deleted node at a path, or a property or deleted property there.
    fn finds(&self, log: Log<'_>, later: &[u32], first: u32, taken: Taken, path: &[u8]) -> bool
        requires held { Held (def_at log.words.now log.bytes.now) (takes_at taken path.now) self.now.links.now later.now first }
        requires later_in_bounds { length later.now ≤ length self.now.links.now }
        ensures { result ≡ any (takes_at taken path.now)
            (map (def_at log.entry.words.now log.entry.bytes.now) later.now) }
    {
        // kept: over `successors` its two closures need the bound on an entry that the loop's invariant has, which is no plainer
        let mut e = first as usize;
        while 0 < e {
            if takes_at(log, later[later.len() - e], taken, path) {
                return true;
            }
            let next = self.links[e - 1];
            e = next as usize;
        }
        false
    }
}

// A table that is looked into, with a link for each of a log's later definitions.
#[derive(Clone, Copy)]
pub struct LaterDefs<'a, 'b> {
    pub log: Log<'a>,
    pub later: &'a [u32],
    pub table: &'a LaterTable<'b>,
    pub ghost sized: { Sized table.now.heads.now table.now.links.now later.now },
    pub ghost finds_deleted: { Deleted (def_at log.words.now log.bytes.now) table.now.heads.now table.now.links.now later.now },
}

impl LaterDefs<'_, '_> {
    // Whether a later definition is a deleted node at a path, which has this hash, or a property or
    // deleted property there.
    pub fn holds(self, taken: Taken, path: &[u8], hash: u32) -> bool
        requires { Held (def_at self.log.words.now self.log.bytes.now) (takes_at taken path.now)
            self.table.now.links.now self.later.now
            (get_or self.table.now.heads.now (slot_of (length self.table.now.heads.now) (of_node taken) hash) 0) }
        ensures { result ≡ any (takes_at taken path.now)
            (map (def_at self.entry.log.words.now self.entry.log.bytes.now) self.entry.later.now) }
    {
        let slot = slot_of(self.table.heads.len(), taken, hash);
        let first = self.table.heads[slot];
        self.table.finds(self.log, self.later, first, taken, path)
    }

    // Whether a later definition deletes the node at a path or one above it, and the path's hash. Each
    // byte goes into the hash, so that the loop goes byte by byte.
    pub fn look_above(self, path: &[u8]) -> Above
        ensures { result ≡ record {
          deleted = any (deletes path.now)
              (map (def_at self.entry.log.words.now self.entry.log.bytes.now) self.entry.later.now);
          hash = hash_from 0 path.now;
        } }
    {
        let mut deleted = self.root_deleted(path);
        let mut hash: u32 = 0;
        for (i, b) in path.iter().enumerate() {
            if *b == b'/' {
                deleted = self.or_deleted(&path[..i], hash, deleted);
            }
            hash = mix(hash, *b);
        }
        Above {
            deleted: self.or_deleted(path, hash, deleted),
            hash,
        }
    }

    // Whether a later definition deletes "/", where a path lies under it.
    fn root_deleted(self, path: &[u8]) -> bool
        ensures { result ≡ cond (starts_with slash path.now)
            (any (deleted_at root) (map (def_at self.entry.log.words.now self.entry.log.bytes.now) self.entry.later.now)) false }
    {
        match path {
            [b'/', ..] => self.or_deleted(b"/", ROOT_HASH, false),
            _ => false,
        }
    }

    // Whether a later definition deletes the node at a path, which has this hash, if none was found before.
    fn or_deleted(self, path: &[u8], hash: u32, found: bool) -> bool
        requires { hash ≡ hash_from 0 path.now }
        ensures { result ≡ cond found true (any (deleted_at path.now)
            (map (def_at self.entry.log.words.now self.entry.log.bytes.now) self.entry.later.now)) }
    {
        found || self.holds(Taken::Node, path, hash)
    }
}

// Whether a later definition deletes the node at a path or one above it, and the path's hash.
#[derive(Clone, Copy, Debug, PartialEq, Eq)]
pub struct Above {
    pub deleted: bool,
    pub hash: u32,
}

// The slot of a hash among so many heads.
fn slot_of(heads: usize, taken: Taken, hash: u32) -> usize
    ensures { result ≡ slot_of heads (of_node taken) hash }
{
    let place = place_of(heads, hash) * 2;
    match taken {
        Taken::Node => place + 1,
        Taken::Property => place,
    }
}

// The place of a hash in either half of so many heads.
fn place_of(heads: usize, hash: u32) -> usize
    ensures { result ≡ place_of heads hash }
{
    if heads < FEW_RECORDS {
        return (hash % 512) as usize;
    }
    if heads < MOST_RECORDS {
        return (hash % 4096) as usize;
    }
    (hash % 32768) as usize
}

// Whether a definition is a deleted node at a path, or a property or deleted property there.
fn takes_at(log: Log<'_>, r: u32, taken: Taken, path: &[u8]) -> bool
    ensures { result ≡ takes_at taken path.now (def_at log.entry.words.now log.entry.bytes.now r) }
{
    match taken {
        Taken::Node => is_deleted_at(log, r, path),
        Taken::Property => overwrites_at(log, r, path),
    }
}

// The hash of a path.
fn hash_of(path: &[u8]) -> u32
    ensures { result ≡ hash_from 0 path.now }
{
    path.iter().fold(0, |h, b| mix(h, *b))
}

// A hash with one byte more.
fn mix(h: u32, b: u8) -> u32
    ensures { result ≡ mixed h b }
{
    h % 16777216 * 33 + (b as u32)
}
