// Numbers and texts of the sample. Every method answers for any bytes: what lies behind the end reads as 0, and a text ends where the bytes
// do.
ghost use Rattle.std.specs.Prelude.{◌≤◌, length};

// The byte that a number of five bytes starts with.
const LONG: u8 = 255;

// What is left of the sample.
#[derive(Clone, Copy)]
pub struct Sample<'a> {
    rest: &'a [u8],
}

impl<'a> Sample<'a> {
    // The whole sample.
    pub fn new(bytes: &'a [u8]) -> Sample<'a> {
        Sample { rest: bytes }
    }

    // Whether nothing is left.
    pub fn is_at_end(&self) -> bool {
        self.rest.is_empty()
    }

    // The next number, which is left where it is.
    pub fn peek(&self) -> u32 {
        split_number(self.rest).0
    }

    // The next number.
    pub fn number(&mut self) -> u32 {
        let (number, rest) = split_number(self.rest);
        self.rest = rest;
        number
    }

    // The next text.
    pub fn text(&mut self) -> &'a [u8] {
        let size = self.number() as usize;
        let (text, rest) = split_up_to(self.rest, size);
        self.rest = rest;
        text
    }

    // Puts the next list of numbers at the start of `words`, as far as they reach, and returns those that it put there.
    pub fn numbers<'w>(&mut self, words: &'w mut [u32]) -> &'w [u32]
        ensures { length result.now ≤ length words.old }
    {
        let count = self.number() as usize;
        let n = count.min(words.len());
        let list = &mut words[..n];
        for word in list.iter_mut() {
            *word = self.number();
        }
        self.skip(count - n);
        list
    }

    // Reads so many numbers more.
    fn skip(&mut self, count: usize) {
        for _ in 0..count {
            self.number();
        }
    }
}

// A number at the start of bytes, and what is behind it.
fn split_number(bytes: &[u8]) -> (u32, &[u8]) {
    match bytes {
        [] => (0, bytes),
        [LONG, behind @ ..] => {
            let (word, rest) = split_up_to(behind, 4);
            (word_of(word), rest)
        }
        [number, rest @ ..] => (*number as u32, rest),
    }
}

// The number of four bytes, low byte first; bytes that are missing are 0.
fn word_of(bytes: &[u8]) -> u32 {
    let mut word = [0; 4];
    for (place, byte) in word.iter_mut().zip(bytes) {
        *place = *byte;
    }
    u32::from_le_bytes(word)
}

// The first bytes, as many as are asked for or there are, and the rest.
fn split_up_to(bytes: &[u8], size: usize) -> (&[u8], &[u8]) {
    bytes.split_at(size.min(bytes.len()))
}
