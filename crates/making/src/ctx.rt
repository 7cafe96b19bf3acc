// The log in the making: LowerCtx of lowering/mod.rs, by value, with the counts and the chain ends.
ghost use Rattle.std.specs.Prelude.{◌≡◌, ◌+◌, ◌*◌, ◌≤◌, ◌<◌, length, []};
ghost use Rattle.paths_numbers.specs.meaning.Bytestring.{bytes_of, count_of};
ghost use Rattle.paths_numbers.specs.meaning.Reading.{value};
ghost use Rattle.paths_numbers.specs.meaning.Text.{written};
ghost use Rattle.definition_log.specs.meaning.Record.{log_count, most_bytes};
ghost use Rattle.making.specs.machine.Removed.{without};
ghost use Rattle.making.specs.machine.Texts.{text_said};
ghost use Rattle.making.specs.machine.Made.{start_at, sixteen, set_link, has_room, makes, ran_short, one_more, end_link, grown};
ghost use Rattle.making.specs.machine.Made.{Told};

use crate::text::Text;
use definition_log::layout::{NEXT_AT, RECORD_WORDS};
use definition_log::limits::MOST_BYTES;
use definition_log::parts::Span;
use definition_log::record::log_count;
use paths_numbers::dt_property::lower_bytestring;

// The first and the last record of a chain, 0 where there is none.
// kept: 0 for none, as the links in the log's words have it. As Options, a chain takes 12 bytes and not 8, and the state, with its part and
// cell, 76 and not 52 (size_of): it is copied by value in each call.
#[derive(Clone, Copy, Debug, PartialEq, Eq)]
pub struct Chain {
    pub first: u32,
    pub last: u32,
}

impl Chain {
    pub(crate) const NONE: Chain = Chain { first: 0, last: 0 };

    // The chain with one record more, where that was made.
    pub(crate) fn grown(self, short: bool, number: u32) -> Chain
        ensures { result ≡ grown short self number }
    {
        if short {
            return self;
        }
        Chain {
            first: if self.first == 0 { number } else { self.first },
            last: number,
        }
    }

    // The chain without a record that stood between these two, 0 where it was the first or the last.
    pub(crate) fn without(self, previous: u32, next: u32) -> Chain
        ensures { result ≡ without self previous next }
    {
        Chain {
            first: if previous == 0 { next } else { self.first },
            last: if next == 0 { previous } else { self.last },
        }
    }

    // Where the link to its next record stands, 0 where there is none.
    pub(crate) fn end_link(self) -> usize
        ensures { result ≡ end_link self }
    {
        if self.last == 0 {
            return 0;
        }
        (self.last as usize) * RECORD_WORDS + NEXT_AT
    }
}

// The log in hand: how many records and bytes are made, its chains, and whether the buffers ran
// short. Bindings and diagnostics are in one chain each for all logs. `part` is the last label or
// value of the newest definition and `cell` the last cell of that value, 0 where there is none.
// kept: `short` is a flag and no Result, since an operation that could not fail still cannot
// kept: 01 has this state by value and handed back, and `words` and `bytes` stand beside it. A struct of both `&mut` was tried on eight
// functions of `items`, which prove: where one reads the words and then writes, they have to be lent in a line of their own, and 38
// relations of four lists would be said again over two structs.
#[derive(Clone, Copy, Debug, PartialEq, Eq)]
pub struct LowerCtx {
    pub records: u32,
    pub bytes: u32,
    pub defs: Chain,
    pub exts: Chain,
    pub binds: Chain,
    pub diags: Chain,
    pub part: u32,
    pub cell: u32,
    pub short: bool,
}

// What a record says beside its texts and its links.
#[derive(Clone, Copy, Debug, PartialEq, Eq)]
pub struct Rec {
    pub kind: u32,
    pub n: u32,
    pub m: u32,
    pub span: Span,
    pub name_span: Span,
}

// Writes record `number`, whose texts start at `at` and have these lengths, and sets the link at
// index `link`, where that is not 0, to it. What makes a record is inlined from here to `make`, so that what its
// texts are is known where it is called (docs/PERFORMANCE.md).
#[inline(always)]
pub(crate) fn put_record(
    words: &mut [u32],
    number: u32,
    at: u32,
    first: u32,
    second: u32,
    link: usize,
    rec: Rec,
)
    requires { (number * 16 + 16 ≤ length words.old) × (link < length words.old) × (at + first < 4294967296) }
    ensures { words.new ≡ set_link link number (written words.old (number * 16) (sixteen at first second rec)) }
{
    let from = (number as usize) * RECORD_WORDS;
    words[from..from + RECORD_WORDS].copy_from_slice(&[
        rec.kind,
        0,
        start_of(at, first),
        first,
        start_of(at + first, second),
        second,
        0,
        rec.n,
        rec.m,
        rec.span.from,
        rec.span.to,
        rec.name_span.from,
        rec.name_span.to,
        0,
        0,
        0,
    ]);
    if link != 0 {
        words[link] = number;
    }
}

// Where a text of this length starts: an empty one at 0.
fn start_of(at: u32, size: u32) -> u32
    ensures { result ≡ start_at at size }
{
    if size == 0 { 0 } else { at }
}

// Whether one record more, with so many bytes of texts, has room.
#[inline(always)]
fn has_room(ctx: LowerCtx, words: &[u32], bytes: &[u8], size: usize) -> bool
    ensures { result ≡ has_room ctx words.now bytes.now size }
{
    if log_count(words) <= ctx.records {
        return false;
    }
    let end = (ctx.bytes as usize).saturating_add(size);
    end <= MOST_BYTES && end <= bytes.len()
}

impl LowerCtx {
    // Makes a record with these texts, to which the link at index `link` leads, where that is not 0;
    // or runs short.
    #[inline(always)]
    pub(crate) fn make(
        self,
        words: &mut [u32],
        bytes: &mut [u8],
        rec: Rec,
        first: Text<'_>,
        second: Text<'_>,
        link: usize,
    ) -> LowerCtx
        ensures { Told self result words.old bytes.old words.new bytes.new rec
            (text_said self.bytes bytes.old first.entry) (text_said self.bytes bytes.old second.entry) link }
    {
        let size = first.len(self.bytes, bytes);
        let more = second.len(self.bytes, bytes);
        if !self.admits(words, bytes, size.saturating_add(more), link) {
            return self.run_short();
        }
        first.write(self.bytes, bytes, self.bytes as usize);
        second.write(self.bytes, bytes, (self.bytes as usize) + size);
        self.put(words, rec, size as u32, more as u32, link)
    }

    // The same with one text, the bytes of a bytestring, which lacks no digit and stands for so many bytes.
    // kept: beside `make`, since as a variant of `Text` it could lack a digit, and `len` and `write` have no answer then.
    pub(crate) fn make_bytestring(
        self,
        words: &mut [u32],
        bytes: &mut [u8],
        rec: Rec,
        text: &[u8],
        size: usize,
        link: usize,
    ) -> LowerCtx
        requires { count_of text.now ≡ value size }
        ensures { Told self result words.old bytes.old words.new bytes.new rec (bytes_of text.now) [] link }
    {
        if !self.admits(words, bytes, size, link) {
            return self.run_short();
        }
        let _ = lower_bytestring(text, bytes, self.bytes as usize); // there is room, and no digit is missing
        self.put(words, rec, size as u32, 0, link)
    }

    // Whether a record with so many bytes of texts is made.
    #[inline(always)]
    fn admits(self, words: &[u32], bytes: &[u8], size: usize, link: usize) -> bool
        ensures { result ≡ makes self words.now bytes.now size link }
    {
        if self.short || words.len() <= link {
            return false;
        }
        has_room(self, words, bytes, size)
    }

    // Writes a record that has room, and counts it with its texts, whose lengths these are.
    #[inline(always)]
    fn put(self, words: &mut [u32], rec: Rec, first: u32, second: u32, link: usize) -> LowerCtx
        requires { (self.records < log_count words.old) × (link < length words.old) × (self.bytes + (first + second) ≤ most_bytes) }
        ensures value { result ≡ one_more self (first + second) }
        ensures words_after { words.new ≡ set_link link self.records
            (written words.old (self.records * 16) (sixteen self.bytes first second rec)) }
    {
        put_record(words, self.records, self.bytes, first, second, link, rec);
        self.count_one(first + second)
    }

    // The same, with the buffers short: nothing more is made.
    fn run_short(self) -> LowerCtx
        ensures { result ≡ ran_short self }
    {
        LowerCtx {
            short: true,
            ..self
        }
    }

    // One record and so many bytes more.
    fn count_one(self, size: u32) -> LowerCtx
        requires { (self.records + 1 < 4294967296) × (self.bytes + size < 4294967296) }
        ensures { result ≡ one_more self size }
    {
        LowerCtx {
            records: self.records + 1,
            bytes: self.bytes + size,
            ..self
        }
    }
}
