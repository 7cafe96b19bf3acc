// Replays the recorded sample (README.md): lowers each case into buffers of several sizes, reads the
// log back, asks the queries, and compares all of it with what the Rust answered. It prints a line
// for each difference, and how many there were.
#![tactic(auto)]

mod chains;
mod log_read;
mod queried;
mod recorded;
mod records;
mod replayed;
mod tally;

ghost use Rattle.std.specs.Prelude.{◌≡◌, length};

use full_reads::read_full;
use recorded::Sample;
use replayed::replay_case;
use std::{fs, io};
use tally::Tally;

// Room for the sample; for an input of 2,048 records of 8 words, and for a log of 1,024 of 16; for the bytes of a log; for the answers of a
// query.
const SAMPLE: usize = 524288;

const WORDS: usize = 16384;

const BYTES: usize = 65536;

const ANSWERS: usize = 1024;

fn main(rt: HostRuntime) -> io::Result<()> {
    let mut sample = sample_buffer();
    let mut file = fs::open(&rt, "answers.bin")?;
    let n = read_full(&mut file, &mut sample)?;
    replay(&rt, &sample[..n])
}

// Room for the sample, as a function: where the file is read, the check would count the bytes one by one.
fn sample_buffer() -> [u8; SAMPLE]
    ensures { 524288 ≡ length result }
{
    [0; SAMPLE]
}

// Replays a sample: its first number says how many cases it has.
fn replay<'a, R: Print>(rt: &'a R, sample: &'a [u8]) -> io::Result<()> {
    let mut input = [0; WORDS];
    let mut out = [0; WORDS];
    let mut bytes = [0; BYTES];
    let mut list = [0; ANSWERS];
    let mut t = Tally::new(rt, Sample::new(sample));
    let cases = t.sample.number();
    for _ in 0..cases {
        t.next_case();
        replay_case(&mut input, &mut out, &mut bytes, &mut list, &mut t)?;
    }
    let ended = t.sample.is_at_end();
    t.noted(ended, "end of the sample")?;
    t.print_total(cases)
}
