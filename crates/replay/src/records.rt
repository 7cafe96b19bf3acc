// A recorded record against one of the log, without the chains that it has.
use crate::tally::Tally;
use definition_log::kinds::{
    BINDING, BYTESTRING, CELL_LIST, DIAGNOSTIC, EXTENSION, LABEL, NUMBER, REFERENCE, STRING,
};
use definition_log::layout;
use definition_log::record::{Log, child_of, kind_of, out_field};
use std::io;

// What a chain has.
#[derive(Clone, Copy)]
pub enum ChainOf {
    Cells,
    Labels,
    Values,
    Definitions,
    Extensions,
    Bindings,
    Diagnostics,
}

impl ChainOf {
    // What the number of a chain's records is printed as.
    pub fn number_name(self) -> &'static str {
        match self {
            ChainOf::Cells => "number of cells",
            ChainOf::Labels => "number of labels",
            ChainOf::Values => "number of values",
            ChainOf::Definitions => "number of definitions",
            ChainOf::Extensions => "number of extensions",
            ChainOf::Bindings => "number of bindings",
            ChainOf::Diagnostics => "number of diagnostics",
        }
    }
}

// A record of a chain.
pub fn record_itself<R: Print>(
    log: Log<'_>,
    has: ChainOf,
    r: u32,
    t: &mut Tally<R>,
) -> io::Result<()> {
    match has {
        ChainOf::Cells => cell(log, r, t),
        ChainOf::Labels => label(log, r, t),
        ChainOf::Values => value(log, r, t),
        ChainOf::Definitions => definition(log, r, t),
        ChainOf::Extensions => extension(log, r, t),
        ChainOf::Bindings => binding(log, r, t),
        ChainOf::Diagnostics => diagnostic(log, r, t),
    }
}

// A cell.
fn cell<R: Print>(log: Log<'_>, r: u32, t: &mut Tally<R>) -> io::Result<()> {
    let kind = t.sample.peek();
    t.number(kind_of(log.words, r), "kind of a cell")?;
    if kind == NUMBER {
        t.number(out_field(log.words, r, layout::N), "low word of a cell")?;
        return t.number(out_field(log.words, r, layout::M), "high word of a cell");
    }
    reference(log, r, t)
}

// A label.
fn label<R: Print>(log: Log<'_>, r: u32, t: &mut Tally<R>) -> io::Result<()> {
    t.noted(kind_of(log.words, r) == LABEL, "kind of a label")?;
    t.text(log.first_text(r), "label")
}

// A value.
fn value<R: Print>(log: Log<'_>, r: u32, t: &mut Tally<R>) -> io::Result<()> {
    let kind = t.sample.peek();
    t.number(kind_of(log.words, r), "kind of a value")?;
    match kind {
        STRING => t.text(log.first_text(r), "string"),
        BYTESTRING => t.text(log.first_text(r), "bytestring"),
        CELL_LIST => t.number(out_field(log.words, r, layout::N), "width of a cell list"),
        _ => reference(log, r, t),
    }
}

// A definition.
fn definition<R: Print>(log: Log<'_>, r: u32, t: &mut Tally<R>) -> io::Result<()> {
    t.number(kind_of(log.words, r), "kind of a definition")?;
    t.text(log.first_text(r), "path of a definition")?;
    spans(log.words, r, t)?;
    t.number(out_field(log.words, r, layout::N), "omit mark")
}

// An extension, with its reference.
fn extension<R: Print>(log: Log<'_>, r: u32, t: &mut Tally<R>) -> io::Result<()> {
    t.noted(kind_of(log.words, r) == EXTENSION, "kind of an extension")?;
    spans(log.words, r, t)?;
    reference(log, child_of(log.words, r), t)
}

// A binding.
fn binding<R: Print>(log: Log<'_>, r: u32, t: &mut Tally<R>) -> io::Result<()> {
    t.noted(kind_of(log.words, r) == BINDING, "kind of a binding")?;
    t.text(log.first_text(r), "label of a binding")?;
    t.text(log.second_text(r), "path of a binding")?;
    span(log.words, r, t)
}

// A diagnostic.
fn diagnostic<R: Print>(log: Log<'_>, r: u32, t: &mut Tally<R>) -> io::Result<()> {
    t.noted(kind_of(log.words, r) == DIAGNOSTIC, "kind of a diagnostic")?;
    t.number(out_field(log.words, r, layout::N), "code of a diagnostic")?;
    t.text(log.first_text(r), "text of a diagnostic")?;
    spans(log.words, r, t)
}

// What a reference names.
fn reference<R: Print>(log: Log<'_>, r: u32, t: &mut Tally<R>) -> io::Result<()> {
    t.noted(kind_of(log.words, r) == REFERENCE, "kind of a reference")?;
    t.number(out_field(log.words, r, layout::N), "form of a reference")?;
    t.text(log.first_text(r), "label of a reference")?;
    t.text(log.second_text(r), "path of a reference")
}

// The span and the name span of a record.
fn spans<R: Print>(out: &[u32], r: u32, t: &mut Tally<R>) -> io::Result<()> {
    span(out, r, t)?;
    t.number(
        out_field(out, r, layout::NAME_START),
        "start of a name span",
    )?;
    t.number(out_field(out, r, layout::NAME_END), "end of a name span")
}

// The span of a record.
fn span<R: Print>(out: &[u32], r: u32, t: &mut Tally<R>) -> io::Result<()> {
    t.number(out_field(out, r, layout::SPAN_START), "start of a span")?;
    t.number(out_field(out, r, layout::SPAN_END), "end of a span")
}
