// Output records read. Every function answers for any words and bytes: what lies outside reads as 0,
// and a text ends where the bytes do.
#![tactic(auto, unfolding(crate::specs::meaning::Record::out_field, crate::specs::meaning::Record::log_count))]

ghost use Rattle.std.specs.Prelude.{◌≡◌, ◌≤◌, ◌+◌, ◌*◌, get_or};
ghost use Rattle.definition_log.specs.meaning.Record.{out_field, kind_of, next_of, child_of, log_count, leads, text_in, first_text};
ghost use Rattle.definition_log.specs.meaning.Record.{record_words, second_text};

use crate::layout;
use crate::limits::MOST_RECORDS;

// A log as it is read: its words and its bytes.
#[derive(Clone, Copy)]
pub struct Log<'a> {
    pub words: &'a [u32],
    pub bytes: &'a [u8],
}

// Word i of a record, of records of W words each.
pub fn record_word<const W: usize>(words: &[u32], r: u32, i: u32) -> u32
    requires { W ≤ record_words }
    ensures { result ≡ get_or words.now (r * W + i) 0 }
{
    let at = (r as usize) * W + (i as usize);
    words.get(at).copied().unwrap_or(0)
}

// Word i of an output record.
pub fn out_field(words: &[u32], r: u32, i: u32) -> u32
    ensures { result ≡ out_field words.now r i }
{
    record_word::<{ layout::RECORD_WORDS }>(words, r, i)
}

// The kind of a record.
pub fn kind_of(words: &[u32], r: u32) -> u32
    ensures { result ≡ kind_of words.now r }
{
    out_field(words, r, layout::KIND)
}

// The record that follows in its chain, 0 where it is the last.
pub fn next_of(words: &[u32], r: u32) -> u32
    ensures { result ≡ next_of words.now r }
{
    out_field(words, r, layout::NEXT)
}

// The first of a record's children, 0 where it has none.
pub fn child_of(words: &[u32], r: u32) -> u32
    ensures { result ≡ child_of words.now r }
{
    out_field(words, r, layout::CHILD)
}

// How many records a log can have: links lead below this number.
pub fn log_count(words: &[u32]) -> u32
    ensures { result ≡ log_count words.now }
{
    (words.len() / layout::RECORD_WORDS).min(MOST_RECORDS) as u32
}

// Whether a link leads to a record of a log of this many records.
pub fn leads_to(words: &[u32], r: u32) -> bool
    ensures { result ≡ leads words.now r }
{
    r != 0 && r < log_count(words)
}

// The bytes of a text, as far as there are any.
pub fn text_in(bytes: &[u8], start: u32, size: u32) -> &[u8]
    ensures { result.now ≡ text_in bytes.now start size }
{
    let from = bytes.len().min(start as usize);
    let behind = &bytes[from..];
    &behind[..behind.len().min(size as usize)]
}

// A record's first text, which lies in the bytes alone.
pub fn first_text<'a>(words: &[u32], bytes: &'a [u8], r: u32) -> &'a [u8]
    ensures { result.now ≡ first_text words.now bytes.now r }
{
    text_in(
        bytes,
        out_field(words, r, layout::TEXT_START),
        out_field(words, r, layout::TEXT_LENGTH),
    )
}

// A record's second text, which lies in the bytes alone.
pub fn second_text<'a>(words: &[u32], bytes: &'a [u8], r: u32) -> &'a [u8]
    ensures { result.now ≡ second_text words.now bytes.now r }
{
    text_in(
        bytes,
        out_field(words, r, layout::SECOND_START),
        out_field(words, r, layout::SECOND_LENGTH),
    )
}

impl<'a> Log<'a> {
    // A record's first text.
    pub fn first_text(self, r: u32) -> &'a [u8]
        ensures { result.now ≡ first_text self.entry.words.now self.entry.bytes.now r }
    {
        first_text(self.words, self.bytes, r)
    }

    // A record's second text.
    pub fn second_text(self, r: u32) -> &'a [u8]
        ensures { result.now ≡ second_text self.entry.words.now self.entry.bytes.now r }
    {
        second_text(self.words, self.bytes, r)
    }
}
