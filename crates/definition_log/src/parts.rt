// Parts of what a log says, as code holds them.
ghost use Rattle.std.specs.Prelude.{◌≡◌, ltb};
ghost use Rattle.definition_log.specs.meaning.ReadBack.{span_at, name_span_at};
ghost use Rattle.definition_log.specs.machine.Parts.{meant};

use crate::layout;
use crate::record::out_field;

// A span: where it starts and where it ends.
#[derive(Clone, Copy, Debug, PartialEq, Eq)]
pub struct Span {
    pub from: u32,
    pub to: u32,
}

impl Span {
    // Whether it ends before it starts.
    pub(crate) fn is_reversed(self) -> bool
        ensures { result ≡ ltb self.to self.from }
    {
        self.to < self.from
    }
}

// The span of a record.
// kept: two functions of two words each, of which one by the word's place would take its callers' knowledge of the places.
pub fn span_of(words: &[u32], r: u32) -> Span
    ensures { meant result ≡ span_at words.now r }
{
    Span {
        from: out_field(words, r, layout::SPAN_START),
        to: out_field(words, r, layout::SPAN_END),
    }
}

// Its name span.
pub fn name_span_of(words: &[u32], r: u32) -> Span
    ensures { meant result ≡ name_span_at words.now r }
{
    Span {
        from: out_field(words, r, layout::NAME_START),
        to: out_field(words, r, layout::NAME_END),
    }
}
