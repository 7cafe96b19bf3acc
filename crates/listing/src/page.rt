// The page that is printed: texts, numbers and spans put on it, one behind the other. What does not fit is cut at its end.
ghost use Rattle.std.specs.Prelude.{[], ◌∷◌, ◌≡◌, replicate};
ghost use Rattle.definition_log.specs.machine.Parts.{meant};
ghost use Rattle.listing.specs.meaning.Listing.{decimal, span_field};
ghost use Rattle.listing.specs.meaning.Program.{most_printed};
ghost use Rattle.listing.specs.machine.Page.{page_at, Puts};

use definition_log::parts::Span;
use itoa::Buffer;

// "1,024 records and 65,536 bytes".
pub const OUT_RECORDS: usize = 1024;

pub const OUT_BYTES: usize = 65536;

// The longest listing: each record but record 0 has at most 50 bytes beside its texts, and the last line 2.
const MOST_PAGE: usize = (OUT_RECORDS - 1) * 50 + OUT_BYTES + 2;

// Its bytes, and where the next one goes.
#[derive(Drop)]
pub struct Page {
    pub bytes: [u8; MOST_PAGE],
    pub at: usize,
}

impl Page {
    // An empty one.
    pub fn new() -> Page
        ensures { result ≡ page_at (replicate most_printed 0) 0 }
    {
        Page {
            bytes: [0; MOST_PAGE],
            at: 0,
        }
    }

    // A byte.
    pub fn put_byte(&mut self, b: u8)
        ensures { Puts (b ∷ []) self.old self.new }
    {
        if self.at < MOST_PAGE {
            self.bytes[self.at] = b;
            self.at += 1;
        }
    }

    // A text.
    pub fn put_text(&mut self, text: &[u8])
        ensures { Puts text.now self.old self.new }
    {
        for b in text {
            self.put_byte(*b);
        }
    }

    // A number in decimal.
    pub fn put_number(&mut self, n: u32)
        ensures { Puts (decimal n) self.old self.new }
    {
        let mut digits = Buffer::new();
        self.put_text(digits.format(n).as_bytes());
    }

    // A span behind a space.
    // kept: no Display of Span, which would need a Write for Page beside it: two impls for these four lines.
    pub fn put_span(&mut self, span: Span)
        ensures { Puts (span_field (meant span)) self.old self.new }
    {
        self.put_byte(b' ');
        self.put_number(span.from);
        self.put_byte(b'-');
        self.put_number(span.to);
    }
}
