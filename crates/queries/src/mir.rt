// What mir.rs asks of a chain of definitions. The chain is given by its first record, and every
// function answers for any words and bytes: for what they read as.
ghost use Rattle.std.specs.Prelude.{◌≡◌, List, ℕ};
ghost use Rattle.definition_log.specs.meaning.ReadBack.{def_at, read_defs};
ghost use Rattle.queries.specs.meaning.Kind.{sets_overlay};
ghost use Rattle.paths_numbers.specs.meaning.Lists.{any};
ghost use Rattle.queries.specs.meaning.Live.{live, contains_node};
ghost use Rattle.queries.specs.meaning.Labels.{has_label_at};
ghost use Rattle.queries.specs.machine.Pass.{node_found, label_found};

use crate::definition::{deletes_above, has_label_at, is_node_at};
use crate::path::PathLike;
use definition_log::chain::chain;
use definition_log::kinds::PLUGIN;
use definition_log::record::{Log, kind_of};

// Whether a chain has a live node at a path.
pub fn contains_node_in<P: PathLike>(log: Log<'_>, first: u32, path: P) -> bool
    ensures { result ≡ contains_node (P.path path) (read_defs log.entry.words.now log.entry.bytes.now first) }
{
    let mut found = false;
    for r in chain(log.words, first) {
        found = contains_node_after(log, r, path, found);
    }
    found
}

// Whether a chain has a plugin directive.
pub fn sets_overlay_in(words: &[u32], first: u32) -> bool
    ensures { (bytes : List ℕ) → result ≡ sets_overlay (read_defs words.now bytes first) }
{
    chain(words, first).any(|r| kind_of(words, r) == PLUGIN)
}

// Whether a chain has a node with a label at a path, live under a base.
pub fn unbinds<B: PathLike>(log: Log<'_>, first: u32, base: B, label: &[u8], path: &[u8]) -> bool
    ensures { result ≡ any (has_label_at label.now path.now)
        (live (B.path base) (read_defs log.entry.words.now log.entry.bytes.now first)) }
{
    base.holds(path) && unbinds_in(log, first, label, path)
}

// Whether a chain has a node with a label at a path, live under that path.
// kept: the loop of `contains_node_in`; one loop over a closure needs a clause on what that answers, which is no plainer
fn unbinds_in(log: Log<'_>, first: u32, label: &[u8], path: &[u8]) -> bool
    ensures { result ≡ any (has_label_at label.now path.now)
        (live path.now (read_defs log.entry.words.now log.entry.bytes.now first)) }
{
    let mut found = false;
    for r in chain(log.words, first) {
        found = unbinds_after(log, r, label, path, found);
    }
    found
}

// Whether a live node at a path is found after a definition.
fn contains_node_after<P: PathLike>(log: Log<'_>, r: u32, path: P, found: bool) -> bool
    ensures { result ≡ node_found (P.path path) (def_at log.entry.words.now log.entry.bytes.now r) found }
{
    if found {
        return !deletes_above(log, r, path);
    }
    is_node_at(log, r, path)
}

// Whether a live node with a label at a path is found after a definition.
fn unbinds_after(log: Log<'_>, r: u32, label: &[u8], path: &[u8], found: bool) -> bool
    ensures { result ≡ label_found label.now path.now
        (def_at log.entry.words.now log.entry.bytes.now r) found }
{
    if found {
        return !deletes_above(log, r, path);
    }
    has_label_at(log, r, label, path)
}
