// The input: the record count, the words of the records and the text.
ghost use Rattle.std.specs.Prelude.{◌+◌, ◌*◌, ◌≤◌, ◌≡◌, length, drop};
ghost use Rattle.paths_numbers.specs.meaning.Text.{written};
ghost use Rattle.listing.specs.meaning.Program.{word_bytes, word_of, words_of};

use input::layout::RECORD_WORDS;

// The bytes of a word and of a record.
pub const WORD_BYTES: usize = 4;

pub const RECORD_BYTES: usize = RECORD_WORDS * WORD_BYTES;

// The word at an index, low byte first.
pub fn word_at(s: &[u8], at: usize) -> u32
    requires { at + word_bytes ≤ length s.now }
    ensures { result ≡ word_of (drop at s.now) }
{
    u32::from_le_bytes([s[at], s[at + 1], s[at + 2], s[at + 3]])
}

// Writes the first `n` words that bytes hold to the start of `words`.
pub fn read_words(s: &[u8], n: usize, words: &mut [u32])
    requires { (n * word_bytes ≤ length s.now) × (n ≤ length words.old) }
    ensures { words.new ≡ written words.old 0 (words_of n s.now) }
{
    // kept: an index, for a proof does not learn what was written through `iter_mut().zip(..)`.
    for i in 0..n {
        words[i] = word_at(s, i * WORD_BYTES);
    }
}
