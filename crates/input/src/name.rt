// Names with their unit addresses, and name spans, in a chain of parts (resolve_name_or_macro and get_name_and_unit_addr of
// dt_node.rs).
ghost use Rattle.std.specs.Prelude.{◌≡◌, List, ℕ};
ghost use Rattle.input.specs.meaning.Tree.{name_kind, first_of};
ghost use Rattle.input.specs.meaning.Name.{name_or_macro, span_to, slash_span, own_span, node_name_span, property_name_span};
ghost use Rattle.input.specs.machine.ChainLeft.{trees_over};
ghost use Rattle.definition_log.specs.machine.Parts.{meant};
ghost use Rattle.input.specs.machine.Read.{optional};
ghost use Rattle.input.specs.machine.NameRead.{name_read, name_text, unit_text, is_there, full_read, FullNameRead};

use crate::kinds::{MACRO, NAME, REFERENCE, SLASH, UNIT_ADDRESS};
use crate::layout;
use crate::linked::{Chain, Record};
use crate::record::{field, no_text, span_at, text_at};
use crate::report::Report;
use definition_log::parts::Span;

// A name, by its record or by what is reported in its place, and the name in its unit address, where it has one.
#[derive(Clone, Copy, Debug, PartialEq, Eq)]
pub struct FullName {
    pub name: Result<u32, Report>,
    pub unit: Option<Result<u32, Report>>,
}

impl Chain<'_> {
    // The name: its record, or what is reported in its place, which is nothing where no macro stands there.
    pub fn name_or_macro(self) -> Result<u32, Report>
        ensures { (text : List ℕ) → name_read self.entry.input.words.now text result ≡ name_or_macro (trees_over text self.entry) }
    {
        if let Some(n) = self.first_of(NAME) {
            return Ok(n);
        }
        match self.first_of(MACRO) {
            Some(m) => Err(Report::Macro(m)),
            None => Err(Report::Nothing),
        }
    }

    // The name of what has these parts, with its unit address where there is one.
    pub fn full_name(self) -> FullName
        ensures { FullNameRead self.entry.input.words.now self.entry.next result }
    {
        let name = self.name_or_macro();
        let Some(number) = self.first_of(UNIT_ADDRESS) else {
            return FullName { name, unit: None };
        };
        let input = self.input;
        let address = Record { input, number };
        let unit = Some(address.parts().name_or_macro());
        FullName { name, unit }
    }
}

// Whether there is a name, and one in its unit address where there is one.
pub fn is_named(f: FullName) -> bool
    ensures { (words text : List ℕ) → result ≡ is_there (full_read words text f).result }
{
    match f.unit {
        Some(unit) => f.name.is_ok() && unit.is_ok(),
        None => f.name.is_ok(),
    }
}

// The text of a name, empty where there is none.
pub fn name_text<'a, 'b>(words: &'b [u32], text: &'a [u8], n: Result<u32, Report>) -> &'a [u8]
    ensures { result.now ≡ name_text words.now text.now n }
{
    match n {
        Ok(r) => text_at(words, text, r),
        Err(_) => no_text(text),
    }
}

// The text of the name in a unit address, empty where there is none.
pub fn unit_text<'a, 'b>(
    words: &'b [u32],
    text: &'a [u8],
    unit: Option<Result<u32, Report>>,
) -> &'a [u8]
    ensures { result.now ≡ unit_text words.now text.now unit }
{
    match unit {
        Some(n) => name_text(words, text, n),
        None => no_text(text),
    }
}

impl Chain<'_> {
    // A node's name span: its reference's, else its name's, else its slash's, else its own.
    pub fn node_name_span(self, span: Span) -> Span
        ensures { (text : List ℕ) → meant result ≡ node_name_span (trees_over text self.entry) (meant span) }
    {
        match self.first_of(REFERENCE) {
            Some(r) => span_at(self.input.words, r),
            None => self.own_span(span),
        }
    }

    // A property's name span: its name's, else its own.
    pub fn property_name_span(self, span: Span) -> Span
        ensures { (text : List ℕ) → meant result ≡ property_name_span (trees_over text self.entry) (meant span) }
    {
        span_or(self.input.words, self.first_of(NAME), span)
    }

    // The name span of a node without a reference.
    fn own_span(self, span: Span) -> Span
        ensures { (text : List ℕ) → meant result ≡ own_span (first_of name_kind (trees_over text self.entry))
            (trees_over text self.entry) (meant span) }
    {
        let words = self.input.words;
        let Some(n) = self.first_of(NAME) else {
            return span_or(words, self.first_of(SLASH), span);
        };
        span_to(words, span_at(words, n), self.first_of(UNIT_ADDRESS))
    }
}

// The span of a record, or the given one where there is no record.
fn span_or(words: &[u32], r: Option<u32>, span: Span) -> Span
    ensures { (text : List ℕ) → meant result ≡ slash_span (optional words.now text r) (meant span) }
{
    match r {
        Some(n) => span_at(words, n),
        None => span,
    }
}

// A name's span up to the later end of the name and of a unit address, where there is one.
fn span_to(words: &[u32], span: Span, u: Option<u32>) -> Span
    ensures { (text : List ℕ) → meant result ≡ span_to (meant span) (optional words.now text u) }
{
    let Some(address) = u else {
        return span;
    };
    let end = field(words, address, layout::SPAN_END);
    Span {
        from: span.from,
        to: span.to.max(end),
    }
}
