// Where a log starts: both buffers cleared, and nothing made; and where the post checks start.
ghost use Rattle.std.specs.Prelude.{◌≡◌, length, replicate};
ghost use Rattle.making.specs.meaning.State.{start};
ghost use Rattle.making.specs.machine.Represents.{Represents, at_start, StartsChecks};

use crate::ctx::{Chain, LowerCtx};
use definition_log::record::log_count;

// Clears both buffers.
pub fn clear(words: &mut [u32], bytes: &mut [u8])
    ensures words_after { words.new ≡ replicate (length words.old) 0 }
    ensures bytes_after { bytes.new ≡ replicate (length bytes.old) 0 }
{
    words.fill(0);
    bytes.fill(0);
}

// The state of an empty log in cleared buffers: record 0 is made, where it has room.
pub fn start(words: &mut [u32], bytes: &mut [u8]) -> LowerCtx
    ensures { Represents at_start result words.new bytes.new start }
{
    clear(words, bytes);
    LowerCtx {
        records: 1,
        bytes: 0,
        defs: Chain::NONE,
        exts: Chain::NONE,
        binds: Chain::NONE,
        diags: Chain::NONE,
        part: 0,
        cell: 0,
        short: log_count(words) == 0,
    }
}

impl LowerCtx {
    // The state with lowering's diagnostics put aside: those of the post checks have their own chain.
    pub fn start_checks(self) -> LowerCtx
        ensures { StartsChecks self result }
    {
        LowerCtx {
            diags: Chain::NONE,
            ..self
        }
    }
}
