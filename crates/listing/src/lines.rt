// The lines of a listing, each put on a page from a record of the log.
ghost use Rattle.std.specs.Prelude.{ℕ, ◌≡◌};
ghost use mathlib.Core.List.{List, flat_map};
ghost use Rattle.definition_log.specs.meaning.Answer.{refused};
ghost use Rattle.definition_log.specs.meaning.ReadBack.{read_labels, def_value_at, def_at, binding_at, diag_at};
ghost use Rattle.listing.specs.meaning.Listing.{letter, path_field, definition_line, label_line, definition_lines, binding_line};
ghost use Rattle.listing.specs.meaning.Listing.{diagnostic_line, refusal_line};
ghost use Rattle.listing.specs.machine.Page.{Puts};

use crate::page::Page;
use definition_log::answer::Refusal;
use definition_log::chain::chain;
use definition_log::kinds::{DELETED_NODE, DELETED_PROPERTY, NODE, PLUGIN, PROPERTY};
use definition_log::layout;
use definition_log::parts::{name_span_of, span_of};
use definition_log::record::{Log, child_of, kind_of, out_field};

// A definition with its labels.
pub fn put_definition(log: Log<'_>, r: u32, page: &mut Page)
    ensures { Puts (definition_lines (def_at log.entry.words.now log.entry.bytes.now r)) page.old page.new }
{
    put_definition_line(log, r, page);
    if kind_of(log.words, r) == NODE {
        put_labels(log, child_of(log.words, r), page);
    }
}

// A definition's own line.
fn put_definition_line(log: Log<'_>, r: u32, page: &mut Page)
    ensures { Puts (definition_line (def_at log.entry.words.now log.entry.bytes.now r)) page.old page.new }
{
    page.put_text(&[b'D', b' ', letter_of(log.words, r), b' ']);
    put_path(page, log.first_text(r));
    page.put_span(span_of(log.words, r));
    page.put_span(name_span_of(log.words, r));
    page.put_byte(b'\n');
}

// The letter of a definition's kind, whatever its texts are.
fn letter_of(words: &[u32], r: u32) -> u8
    ensures { (bytes : List ℕ) → result ≡ letter (def_value_at words.now bytes r) }
{
    match kind_of(words, r) {
        NODE => b'N',
        PROPERTY => b'P',
        DELETED_NODE => b'X',
        DELETED_PROPERTY => b'Y',
        PLUGIN => b'G',
        _ => b'V',
    }
}

// A path, - where it is empty.
fn put_path(page: &mut Page, path: &[u8])
    ensures { Puts (path_field path.now) page.old page.new }
{
    match path {
        [] => page.put_byte(b'-'),
        _ => page.put_text(path),
    }
}

// A chain of labels.
fn put_labels(log: Log<'_>, first: u32, page: &mut Page)
    ensures { Puts (flat_map label_line (read_labels log.entry.words.now log.entry.bytes.now first)) page.old page.new }
{
    for r in chain(log.words, first) {
        put_label(page, log.first_text(r));
    }
}

// A label.
fn put_label(page: &mut Page, label: &[u8])
    ensures { Puts (label_line label.now) page.old page.new }
{
    page.put_text(b"l ");
    page.put_text(label);
    page.put_byte(b'\n');
}

// A binding.
pub fn put_binding(log: Log<'_>, r: u32, page: &mut Page)
    ensures { Puts (binding_line (binding_at log.entry.words.now log.entry.bytes.now r)) page.old page.new }
{
    page.put_text(b"B ");
    page.put_text(log.first_text(r));
    page.put_byte(b' ');
    page.put_text(log.second_text(r));
    page.put_span(span_of(log.words, r));
    page.put_byte(b'\n');
}

// A diagnostic.
pub fn put_diagnostic(log: Log<'_>, r: u32, page: &mut Page)
    ensures { Puts (diagnostic_line (diag_at log.entry.words.now log.entry.bytes.now r)) page.old page.new }
{
    page.put_text(b"M ");
    page.put_number(out_field(log.words, r, layout::N));
    page.put_span(span_of(log.words, r));
    page.put_byte(b'\n');
}

// A refusal.
pub fn put_refusal(refusal: Refusal, page: &mut Page)
    ensures { Puts (refusal_line (refused refusal).number (refused refusal).returned) page.old page.new }
{
    page.put_text(b"R ");
    page.put_number(refusal.number());
    page.put_byte(b' ');
    page.put_number(refusal.returned());
    page.put_byte(b'\n');
}
