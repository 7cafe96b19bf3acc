// Input records read. What lies outside the words reads as 0, and a text ends where the bytes do.
ghost use Rattle.std.specs.Prelude.{◌≡◌, List, [], ℕ};
ghost use Rattle.input.specs.meaning.Tree.{has};
ghost use Rattle.input.specs.meaning.Input.{field, kind_at, next_at, child_at, w_at, second_at, number_at, span_at, text_at};
ghost use Rattle.input.specs.machine.ChainLeft.{trees_over};
ghost use Rattle.definition_log.specs.machine.Parts.{meant};
ghost use Rattle.input.specs.machine.Read.{after_at, FirstOf};
ghost use Rattle.input.specs.machine.OfRecord.{kind_in, span_in, text_in};

use crate::layout;
use crate::linked::{Chain, Record};
use crate::place::links_by_w;
use definition_log::parts::Span;
use definition_log::record::{record_word, text_in};

// Word i of a record.
pub fn field(words: &[u32], r: u32, i: u32) -> u32
    ensures { result ≡ field words.now r i }
{
    record_word::<{ layout::RECORD_WORDS }>(words, r, i)
}

// The kind of a record.
pub fn kind_at(words: &[u32], r: u32) -> u32
    ensures { result ≡ kind_at words.now r }
{
    field(words, r, layout::KIND)
}

// The record that follows in its chain, 0 where it is the last.
pub fn next_at(words: &[u32], r: u32) -> u32
    ensures { result ≡ next_at words.now r }
{
    field(words, r, layout::NEXT)
}

// The record that follows in its chain, 0 behind the last and behind none.
pub fn after(words: &[u32], r: u32) -> u32
    ensures { result ≡ after_at words.now r }
{
    if r == 0 {
        return 0;
    }
    next_at(words, r)
}

// The first of a record's children, 0 where it has none.
pub fn child_at(words: &[u32], r: u32) -> u32
    ensures { result ≡ child_at words.now r }
{
    field(words, r, layout::CHILD)
}

// A record's W, a link or a number.
pub fn w_at(words: &[u32], r: u32) -> u32
    ensures { result ≡ w_at words.now r }
{
    field(words, r, layout::W)
}

// The record that W leads to, 0 where W is a number.
pub fn second_at(words: &[u32], r: u32) -> u32
    ensures { result ≡ second_at words.now r }
{
    if links_by_w(kind_at(words, r)) {
        return w_at(words, r);
    }
    0
}

// The number that W is, 0 where W is a link.
pub fn number_at(words: &[u32], r: u32) -> u32
    ensures { result ≡ number_at words.now r }
{
    if links_by_w(kind_at(words, r)) {
        return 0;
    }
    w_at(words, r)
}

// Where a record stands.
pub fn span_at(words: &[u32], r: u32) -> Span
    ensures { meant result ≡ span_at words.now r }
{
    Span {
        from: field(words, r, layout::SPAN_START),
        to: field(words, r, layout::SPAN_END),
    }
}

// A record's text.
pub fn text_at<'a, 'b>(words: &'b [u32], text: &'a [u8], r: u32) -> &'a [u8]
    ensures { result.now ≡ text_at words.now text.now r }
{
    text_in(
        text,
        field(words, r, layout::TEXT_START),
        field(words, r, layout::TEXT_LENGTH),
    )
}

// The empty end of a text.
pub fn no_text(text: &[u8]) -> &[u8]
    ensures { result.now ≡ [] }
{
    let n = text.len();
    &text[n..]
}

impl<'a> Record<'a> {
    // Its kind.
    pub fn kind(self) -> u32
        ensures { result ≡ kind_in self.entry }
    {
        kind_at(self.input.words, self.number)
    }

    // Where it stands.
    pub fn span(self) -> Span
        ensures { meant result ≡ span_in self.entry }
    {
        span_at(self.input.words, self.number)
    }

    // Its text.
    pub fn text(self) -> &'a [u8]
        ensures { result.now ≡ text_in self.entry }
    {
        text_at(self.input.words, self.input.text, self.number)
    }
}

impl Chain<'_> {
    // The first record of a kind.
    pub fn first_of(mut self, kind: u32) -> Option<u32>
        ensures { FirstOf self.entry kind result }
    {
        let words = self.input.words;
        self.find(|&r| kind_at(words, r) == kind)
    }

    // Whether there is a record of a kind.
    pub fn has_kind(self, kind: u32) -> bool
        ensures { (text : List ℕ) → result ≡ has kind (trees_over text self.entry) }
    {
        self.first_of(kind).is_some()
    }
}
