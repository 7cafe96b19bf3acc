// One definition of a chain: what it is, and what it does to a path.
ghost use Rattle.std.specs.Prelude.{◌≡◌};
ghost use Rattle.paths_numbers.specs.meaning.Text.{same};
ghost use Rattle.definition_log.specs.meaning.ReadBack.{def_at, read_labels};
ghost use Rattle.paths_numbers.specs.meaning.Lists.{any};
ghost use Rattle.queries.specs.meaning.Live.{deletes, overwrites, node_at};
ghost use Rattle.queries.specs.meaning.History.{defined_by};
ghost use Rattle.queries.specs.meaning.Labels.{has_label_at};
ghost use Rattle.queries.specs.machine.Table.{deleted_at};

use crate::path::PathLike;
use definition_log::chain::chain;
use definition_log::kinds::{DELETED_NODE, DELETED_PROPERTY, NODE, PROPERTY};
use definition_log::record::{Log, child_of, kind_of};
use paths_numbers::text::equals;

// Whether a definition is a node at a path.
pub fn is_node_at<P: PathLike>(log: Log<'_>, r: u32, path: P) -> bool
    ensures { result ≡ node_at (P.path path) (def_at log.entry.words.now log.entry.bytes.now r) }
{
    kind_of(log.words, r) == NODE && path.is(log.first_text(r))
}

// Whether a definition is a deleted node at or above a path.
pub fn deletes_above<P: PathLike>(log: Log<'_>, r: u32, path: P) -> bool
    ensures { result ≡ deletes (P.path path) (def_at log.entry.words.now log.entry.bytes.now r) }
{
    kind_of(log.words, r) == DELETED_NODE && path.lies_under(log.first_text(r))
}

// Whether a definition is a deleted node at a path.
pub fn is_deleted_at(log: Log<'_>, r: u32, path: &[u8]) -> bool
    ensures { result ≡ deleted_at path.now (def_at log.entry.words.now log.entry.bytes.now r) }
{
    kind_of(log.words, r) == DELETED_NODE && equals(log.first_text(r), path)
}

// Whether a definition is a property or a deleted property at a path.
pub fn overwrites_at(log: Log<'_>, r: u32, path: &[u8]) -> bool
    ensures { result ≡ overwrites path.now (def_at log.entry.words.now log.entry.bytes.now r) }
{
    match kind_of(log.words, r) {
        PROPERTY | DELETED_PROPERTY => equals(log.first_text(r), path),
        _ => false,
    }
}

// Whether a path is defined after a definition at it.
pub fn defined_by(log: Log<'_>, r: u32, defined: bool) -> bool
    ensures { result ≡ defined_by (def_at log.entry.words.now log.entry.bytes.now r) defined }
{
    match kind_of(log.words, r) {
        NODE | PROPERTY => true,
        DELETED_NODE | DELETED_PROPERTY => false,
        _ => defined,
    }
}

// Whether a definition is a node with a label at a path.
pub fn has_label_at(log: Log<'_>, r: u32, label: &[u8], path: &[u8]) -> bool
    ensures { result ≡ has_label_at label.now path.now (def_at log.entry.words.now log.entry.bytes.now r) }
{
    is_node_at(log, r, path) && has_label(log, child_of(log.words, r), label)
}

// Whether a chain of labels has a label.
pub fn has_label(log: Log<'_>, first: u32, label: &[u8]) -> bool
    ensures { result ≡ any (same label.now) (read_labels log.entry.words.now log.entry.bytes.now first) }
{
    chain(log.words, first).any(|r| equals(label, log.first_text(r)))
}
