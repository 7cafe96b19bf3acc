// Where a log ends: record 0.
ghost use Rattle.making.specs.machine.Represents.{Finishes};

use crate::ctx::LowerCtx;
use definition_log::layout::RECORD_WORDS;

impl LowerCtx {
    // Writes record 0: the counts, and the first record of each chain. `diags` is lowering's first
    // diagnostic; the state has the post checks'.
    pub fn finish(self, words: &mut [u32], diags: u32)
        ensures { Finishes self words.old words.new diags }
    {
        if self.short || words.len() < RECORD_WORDS {
            return;
        }
        words[..RECORD_WORDS].copy_from_slice(&[
            self.records,
            self.defs.first,
            self.exts.first,
            self.binds.first,
            diags,
            self.bytes,
            self.diags.first,
            0,
            0,
            0,
            0,
            0,
            0,
            0,
            0,
            0,
        ]);
    }
}
