// A case of the sample: its input lowered into buffers of several sizes.
use crate::log_read::whole_log;
use crate::queried::asked;
use crate::tally::Tally;
use definition_log::answer::{Numbers, Refusal};
use definition_log::layout::RECORD_WORDS;
use definition_log::record::Log;
use levels::level::SIGNED;
use lowering::lower::lower;
use std::io;

// An input: its words and its text.
#[derive(Clone, Copy)]
struct Case<'a> {
    words: &'a [u32],
    text: &'a [u8],
}

impl<'a> Case<'a> {
    // Lowers it.
    fn lower(self, out: &mut [u32], bytes: &mut [u8]) -> Result<u32, Refusal> {
        lower(self.words, self.text, SIGNED, &[0], out, bytes)
    }
}

// Replays a case: its words, its text, and what comes of them.
pub fn replay_case<R: Print>(
    input: &mut [u32],
    out: &mut [u32],
    bytes: &mut [u8],
    list: &mut [u32],
    t: &mut Tally<R>,
) -> io::Result<()> {
    let words = t.sample.numbers(input);
    let text = t.sample.text();
    replay_input(Case { words, text }, out, bytes, list, t)
}

// Replays an input, in larger buffers first; what is recorded starts with how many records and bytes
// are made. Then in buffers that are one record short, and one byte, and in such as are just large enough.
fn replay_input<R: Print>(
    case: Case<'_>,
    out: &mut [u32],
    bytes: &mut [u8],
    list: &mut [u32],
    t: &mut Tally<R>,
) -> io::Result<()> {
    let start = t.sample;
    let records = t.sample.number() as usize;
    let size = t.sample.number() as usize;
    t.sample = start;
    replay_log(case, out, bytes, t)?;
    t.sample = start;
    if let Some(fewer) = records.checked_sub(1) {
        in_room(fewer, size, out, bytes, t, |out, bytes, t| {
            replay_refused(case, out, bytes, t)
        })?;
    }
    if let Some(less) = size.checked_sub(1) {
        in_room(records, less, out, bytes, t, |out, bytes, t| {
            replay_refused(case, out, bytes, t)
        })?;
    }
    in_room(records, size, out, bytes, t, |out, bytes, t| {
        replay_log(case, out, bytes, t)?;
        asked(Log { words: out, bytes }, list, t)
    })
}

// Replays an input by a step, in the first records and bytes of buffers.
// kept: `out` and `bytes` beside each other, as `lower` takes them: a struct of both would be taken apart at each call.
fn in_room<R: Print, F: FnOnce(&mut [u32], &mut [u8], &mut Tally<R>) -> io::Result<()>>(
    records: usize,
    size: usize,
    out: &mut [u32],
    bytes: &mut [u8],
    t: &mut Tally<R>,
    step: F,
) -> io::Result<()>
    requires { F.IsAlwaysCallable step }
{
    if out.len() / RECORD_WORDS < records {
        return t.noted(false, "room for records");
    }
    if bytes.len() < size {
        return t.noted(false, "room for bytes");
    }
    let n = records * RECORD_WORDS;
    step(&mut out[..n], &mut bytes[..size], t)
}

// Lowers an input into buffers that are too small: what is answered and left.
fn replay_refused<R: Print>(
    case: Case<'_>,
    out: &mut [u32],
    bytes: &mut [u8],
    t: &mut Tally<R>,
) -> io::Result<()> {
    let answer = case.lower(out, bytes);
    t.noted(
        matches!(answer, Err(Refusal::Room)),
        "number of an input without room",
    )?;
    t.noted(
        Numbers::from(answer).returned == 0,
        "returned of an input without room",
    )?;
    t.noted(
        out.iter().all(|word| *word == 0),
        "words of an input without room",
    )?;
    t.noted(
        bytes.iter().all(|byte| *byte == 0),
        "bytes of an input without room",
    )
}

// Lowers an input where there is room, and compares what is answered and the log.
fn replay_log<R: Print>(
    case: Case<'_>,
    out: &mut [u32],
    bytes: &mut [u8],
    t: &mut Tally<R>,
) -> io::Result<()> {
    let answer = case.lower(out, bytes);
    t.noted(answer.is_ok(), "number of an input")?;
    t.noted(Numbers::from(answer).returned == 0, "returned of an input")?;
    whole_log(Log { words: out, bytes }, t)
}
