// The next "/" of a path: eight bytes are looked at as one word, and the last ones singly.
ghost use Rattle.std.specs.Prelude.{◌≡◌, ◌==◌, position};
ghost use Rattle.slashes.specs.meaning.Slash.{slash, next_slash};
ghost use Rattle.slashes.specs.machine.Word.{Loaded, Marked};

// How many bytes a word has.
const WORD: usize = 8;

// Eight times "/", and the seven low bits of each byte.
const SLASHES: u64 = 0x2f2f_2f2f_2f2f_2f2f;

const LOW_BITS: u64 = 0x7f7f_7f7f_7f7f_7f7f;

// The first "/" at or behind a place.
pub fn next_slash(path: &[u8], from: usize) -> Option<usize>
    ensures { result ≡ next_slash path.now from }
{
    let mut rest = path.get(from..)?;
    while let Some((word, behind)) = rest.split_first_chunk::<WORD>() {
        let marks = slash_marks(load_word(word));
        let k = (marks.trailing_zeros() / 8) as usize;
        if k < WORD {
            return Some(path.len() - rest.len() + k);
        }
        rest = behind;
    }
    let k = first_slash(rest)?;
    Some(path.len() - rest.len() + k)
}

// The same of a whole text, a byte at a time.
fn first_slash(s: &[u8]) -> Option<usize>
    ensures { result ≡ position (λ b. b == slash) s.now }
{
    s.iter().position(|b| *b == b'/')
}

// The mark of each byte of a word: bit 7 where it is "/", and no other bit. The sum stays within each byte.
fn slash_marks(w: u64) -> u64
    ensures { Marked w result }
{
    let x = w ^ SLASHES;
    !(((x & LOW_BITS) + LOW_BITS) | x | LOW_BITS)
}

// Eight bytes as one word, low byte first.
fn load_word(bytes: &[u8; WORD]) -> u64
    ensures { Loaded bytes.now result }
{
    u64::from_le_bytes(*bytes)
}
