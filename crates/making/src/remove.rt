// What lowering takes out of the log again: bindings.
ghost use Rattle.std.specs.Prelude.{◌≡◌};
ghost use Rattle.making.specs.machine.Removed.{cleared_text, cleared_texts, cleared_words, set_next};
ghost use Rattle.making.specs.machine.Represents.{Unlinks};

use crate::ctx::LowerCtx;
use definition_log::layout;
use definition_log::record::{next_of, out_field};

impl LowerCtx {
    // Takes binding `r` out of its chain, in which `previous` stands before it, 0 where none does.
    pub fn unlink_binding(
        self,
        words: &mut [u32],
        bytes: &mut [u8],
        previous: u32,
        r: u32,
    ) -> LowerCtx
        ensures { Unlinks self result words.old bytes.old words.new bytes.new previous r }
    {
        if self.short {
            return self;
        }
        let next = next_of(words, r);
        clear_texts(words, bytes, r);
        clear_words(words, r);
        set_next(words, previous, next);
        LowerCtx {
            binds: self.binds.without(previous, next),
            ..self
        }
    }
}

// Sets both texts of a record to zeros.
pub(crate) fn clear_texts(words: &[u32], bytes: &mut [u8], r: u32)
    ensures { bytes.new ≡ cleared_texts words.now bytes.old r }
{
    clear_text(
        bytes,
        out_field(words, r, layout::TEXT_START),
        out_field(words, r, layout::TEXT_LENGTH),
    );
    clear_text(
        bytes,
        out_field(words, r, layout::SECOND_START),
        out_field(words, r, layout::SECOND_LENGTH),
    );
}

// Sets a text to zeros, where it lies in the bytes.
fn clear_text(bytes: &mut [u8], start: u32, size: u32)
    ensures { bytes.new ≡ cleared_text bytes.old start size }
{
    let from = start as usize;
    let end = from + (size as usize);
    if end <= bytes.len() {
        bytes[from..end].fill(0);
    }
}

// Sets the words of a record to zeros, where they lie in the words.
pub(crate) fn clear_words(words: &mut [u32], r: u32)
    ensures { words.new ≡ cleared_words words.old r }
{
    let at = (r as usize) * layout::RECORD_WORDS;
    let end = at + layout::RECORD_WORDS;
    if end <= words.len() {
        words[at..end].fill(0);
    }
}

// Sets the next link of a record, where there is one.
fn set_next(words: &mut [u32], r: u32, next: u32)
    ensures { words.new ≡ set_next r next words.old }
{
    let at = (r as usize) * layout::RECORD_WORDS + layout::NEXT_AT;
    if r != 0 && at < words.len() {
        words[at] = next;
    }
}
