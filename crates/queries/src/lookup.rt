// The look-up of a path among the live nodes of a chain of definitions, where unit addresses may be left out
// (02, request 5).
ghost use Rattle.std.specs.Prelude.{◌≡◌, [], ◌∷◌, ◌++◌};
ghost use Rattle.definition_log.specs.meaning.Record.{first_text};
ghost use Rattle.paths_numbers.specs.meaning.Path.{joined};
ghost use Rattle.paths_numbers.specs.meaning.Byte.{slash};
ghost use Rattle.short_paths.specs.machine.Front.{front_of};
ghost use Rattle.definition_log.specs.meaning.ReadBack.{def_at, read_defs};
ghost use Rattle.queries.specs.machine.Looked.{AnswersLookup, AnswersShort, another, elsewhere};

use crate::mir::contains_node_in;
use definition_log::chain::chain;
use definition_log::kinds::NODE;
use definition_log::record::{Log, kind_of};
use paths_numbers::dt_node::Joined;
use paths_numbers::mir::lies_under;
use paths_numbers::text::equals;
use short_paths::short::{has_components, may_mean};

// What a look-up finds: a node at the path itself, no node, one by a definition of it, or several.
#[derive(Clone, Copy, Debug, PartialEq, Eq)]
pub enum Lookup {
    Exact,
    NoNode,
    Node(u32),
    Several,
}

// The look-up of a path.
pub fn lookup_in(log: Log<'_>, first: u32, path: &[u8]) -> Lookup
    ensures { AnswersLookup log.entry.words.now log.entry.bytes.now first path.now result }
{
    if contains_node_in(log, first, path) {
        return Lookup::Exact;
    }
    let [b'/', name @ ..] = path else {
        return Lookup::NoNode;
    };
    if !has_components(b"/", name) {
        return Lookup::NoNode;
    }
    short_node(log, first, b"/", name)
}

// The look-up of the path of a parent and a name.
// kept: beside `lookup_in`, which finds the two parts in its path first, and not where the path is empty or has no "/"
pub fn lookup_path(log: Log<'_>, first: u32, parent: &[u8], name: &[u8]) -> Lookup
    ensures { AnswersLookup log.entry.words.now log.entry.bytes.now first (joined parent.now name.now []) result }
{
    let path = Joined {
        parent,
        name,
        unit: &name[..0],
    };
    if contains_node_in(log, first, path) {
        return Lookup::Exact;
    }
    if !has_components(parent, name) {
        return Lookup::NoNode;
    }
    short_node(log, first, parent, name)
}

// The live nodes that the path of a parent and a name may mean, by their paths. Each node that matches, at
// another path than the one found before, costs a pass over the chain.
pub fn short_node(log: Log<'_>, first: u32, parent: &[u8], name: &[u8]) -> Lookup
    ensures { AnswersShort log.entry.words.now log.entry.bytes.now first
        (front_of parent.now ++ slash ∷ name.now) result }
{
    let mut found = None;
    for r in chain(log.words, first) {
        if is_another(log, first, r, found, parent, name) {
            if found.is_some() {
                return Lookup::Several;
            }
            found = Some(r);
        }
    }
    match found {
        Some(r) => Lookup::Node(r),
        None => Lookup::NoNode,
    }
}

// Whether a definition is a node whose path is live and may be meant, and is not that of the one found before.
fn is_another(
    log: Log<'_>,
    first: u32,
    r: u32,
    found: Option<u32>,
    parent: &[u8],
    name: &[u8],
) -> bool
    ensures { result ≡ another (def_at log.entry.words.now log.entry.bytes.now)
        (read_defs log.entry.words.now log.entry.bytes.now first)
        (front_of parent.now ++ slash ∷ name.now) found r }
{
    if kind_of(log.words, r) != NODE {
        return false;
    }
    let path = log.first_text(r);
    if !is_elsewhere(log, found, path) {
        return false;
    }
    if !may_mean(parent, name, path) {
        return false;
    }
    if !lies_under(path, &path[..0]) {
        return false;
    }
    contains_node_in(log, first, path)
}

// Whether a path is not that of the node found before, if any.
fn is_elsewhere(log: Log<'_>, found: Option<u32>, path: &[u8]) -> bool
    ensures { result ≡ elsewhere (first_text log.entry.words.now log.entry.bytes.now) found path.now }
{
    match found {
        Some(r) => !equals(log.first_text(r), path),
        None => true,
    }
}
