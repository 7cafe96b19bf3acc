// What lowering drops with a body that is not kept.
ghost use Rattle.std.specs.Prelude.{◌≡◌};
ghost use Rattle.making.specs.machine.Dropped.{stays_kind, dropped_words, dropped_bytes, Drops, DropsFrom};

use crate::ctx::LowerCtx;
use crate::remove::{clear_texts, clear_words};
use definition_log::kinds::{BINDING, DIAGNOSTIC};
use definition_log::record::kind_of;

impl LowerCtx {
    // Clears the records from `mark` on with their texts, but for bindings and diagnostics.
    pub fn drop_from(self, words: &mut [u32], bytes: &mut [u8], mark: u32)
        ensures { DropsFrom self words.old bytes.old words.new bytes.new mark }
    {
        if !self.short {
            drop_records(words, bytes, mark, self.records);
        }
    }
}

// The same of the records below `end`.
fn drop_records(words: &mut [u32], bytes: &mut [u8], mark: u32, end: u32)
    ensures { Drops words.old bytes.old words.new bytes.new mark end }
{
    for r in mark..end {
        drop_record(words, bytes, r);
    }
}

// The same of one record.
fn drop_record(words: &mut [u32], bytes: &mut [u8], r: u32)
    ensures words_after { words.new ≡ dropped_words words.old r }
    ensures bytes_after { bytes.new ≡ dropped_bytes words.old bytes.old r }
{
    if !stays(kind_of(words, r)) {
        clear_texts(words, bytes, r);
        clear_words(words, r);
    }
}

// Whether a record of a kind stays; one that is not there has kind 0.
fn stays(kind: u32) -> bool
    ensures { result ≡ stays_kind kind }
{
    matches!(kind, 0 | BINDING | DIAGNOSTIC)
}
