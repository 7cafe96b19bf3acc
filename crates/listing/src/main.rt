// Reads a description from standard input, lowers it and prints the listing of its log.
#![tactic(auto)]

ghost use Rattle.std.specs.Prelude.{ℕ, ◌+◌, ◌*◌, ◌≤◌, ◌≡◌, List, length, take, replicate, OnOk, IfOk, IfErr, IfSome};
ghost use Rattle.definition_log.specs.meaning.Answer.{refused};
ghost use Rattle.input.specs.meaning.Rows.{most_records};
ghost use Rattle.listing.specs.meaning.Listing.{refusal_line};
ghost use Rattle.std.specs.Io.KnownBytes.{Appends};
ghost use Rattle.listing.specs.machine.Page.{page_at, Puts, IsPrefixLen};
ghost use Rattle.listing.specs.meaning.Program.{word_bytes, most_words, words_of, out_length, bytes_length, listed, printed};
ghost use Rattle.listing.specs.meaning.Program.{count_in, most_printed, most_read, ReadOf};

mod lines;
mod listing;
mod page;
mod reading;

use definition_log::answer::Refusal;
use definition_log::layout;
use definition_log::record::Log;
use full_reads::read_full;
use input::layout::RECORD_WORDS;
use input::limits::{MOST_RECORDS, MOST_TEXT};
use levels::level::SIGNED;
use lines::put_refusal;
use listing::list_answer;
use lowering::lower::lower;
use page::{OUT_BYTES, OUT_RECORDS, Page};
use reading::{RECORD_BYTES, WORD_BYTES, read_words, word_at};
use std::io;
use std::io::{Read, Write};

// The longest input that is not refused by its size, and one byte more, by which a longer one is seen to be
// longer.
const MOST_INPUT: usize = WORD_BYTES + MOST_RECORDS * RECORD_BYTES + MOST_TEXT + 1;

fn main(rt: HostRuntime) -> io::Result<()> {
    list(&mut rt.reader(), &mut io::writer(&rt))
}

// Reads an input and writes what is printed for all of it.
fn list<R: Read, W: Write>(input: &mut R, out: &mut W) -> io::Result<()>
    ensures { OnOk result (IfSome (R.remaining input.old) (λ whole. Appends (W.contents out.old) (W.contents out.new) (printed whole))) }
{
    let mut buffer = [0u8; MOST_INPUT];
    let n = read_full(input, &mut buffer)?;
    let mut page = Page::new();
    list_whole(&buffer, n, &mut page);
    out.write_all(&page.bytes[..page.at])
}

// Puts what is printed for an input on an empty page, which is long enough for any. The input's first `n` bytes
// are in a buffer that is long enough for any that is not refused by its size; only if the buffer is full does
// the input go on.
fn list_whole(buffer: &[u8], n: usize, page: &mut Page)
    requires prefix_len { IsPrefixLen n buffer.now }
    requires most_read_in_bounds { most_read ≤ length buffer.now }
    requires empty { page.old ≡ page_at (replicate most_printed 0) 0 }
    ensures in_bounds { page.new.at ≤ most_printed }
    ensures prefix_len_2 { IsPrefixLen page.new.at page.new.bytes }
    ensures by_index { (input : List ℕ) → ReadOf input buffer.now n → take page.new.at page.new.bytes ≡ printed input }
{
    list_input(&buffer[..n], page);
}

// Puts what is printed for an input on a page.
fn list_input(input: &[u8], page: &mut Page)
    ensures { Puts (printed input.now) page.old page.new }
{
    match records_of(input) {
        Ok(count) => list_records(
            &input[WORD_BYTES..],
            count * RECORD_WORDS,
            &input[WORD_BYTES + count * RECORD_BYTES..],
            page,
        ),
        Err(refusal) => put_refusal(refusal, page),
    }
}

// How many records an input has, which are all there.
fn records_of(input: &[u8]) -> Result<usize, Refusal>
    ensures count { IfOk result (λ n. (n ≡ count_in input.now) × (4 + n * 32 ≤ length input.now) × (n ≤ most_records)) }
    ensures refusal { IfErr result (λ e. refusal_line (refused e).number (refused e).returned ≡ printed input.now) }
{
    if input.len() < WORD_BYTES {
        return Err(Refusal::Size);
    }
    let count = word_at(input, 0) as usize;
    let from = WORD_BYTES + count * RECORD_BYTES;
    if input.len() < from {
        return Err(Refusal::Size);
    }
    if MOST_RECORDS < count {
        return Err(Refusal::Size);
    }
    Ok(count)
}

// The same for the bytes of `n` words, and a text.
fn list_records(records: &[u8], n: usize, text: &[u8], page: &mut Page)
    requires { (n * word_bytes ≤ length records.now) × (n ≤ most_words) }
    ensures { Puts (listed (words_of n records.now) text.now) page.old page.new }
{
    let mut words = [0u32; MOST_RECORDS * RECORD_WORDS];
    read_words(records, n, &mut words);
    list_words(&words[..n], text, page);
}

// The same for words and a text.
fn list_words(words: &[u32], text: &[u8], page: &mut Page)
    ensures { Puts (listed words.now text.now) page.old page.new }
{
    let mut out = [0u32; OUT_RECORDS * layout::RECORD_WORDS];
    let mut bytes = [0u8; OUT_BYTES];
    list_lowered(words, text, &mut out, &mut bytes, page);
}

// The same with room for the log.
fn list_lowered(words: &[u32], text: &[u8], out: &mut [u32], bytes: &mut [u8], page: &mut Page)
    requires out_len { length out.old ≡ out_length }
    requires bytes_len { length bytes.old ≡ bytes_length }
    ensures { Puts (listed words.now text.now) page.old page.new }
{
    let one_file = [0u32];
    let answer = lower(words, text, SIGNED, &one_file, out, bytes);
    list_answer(answer, Log { words: out, bytes }, page);
}
