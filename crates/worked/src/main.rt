// Prints the worked cases of standard input, a case to a line, each with what the crates
// paths_numbers, slashes and boxes answer behind it. Fields are parted by tabs; \xHH stands for any byte.
#![tactic(auto)]

mod answer;
mod field;

use field::{FIELD, unescape};
use full_reads::read_full;
use std::io;
use std::io::Write;

// How many bytes of standard input are read.
const MOST_INPUT: usize = 65536;

fn main(rt: HostRuntime) -> io::Result<()> {
    let mut input = [0u8; MOST_INPUT];
    let n = read_full(&mut rt.reader(), &mut input)?;
    print_lines(&mut io::writer(&rt), &input[..n])
}

// Prints each line with its answer.
fn print_lines<W: Write>(out: &mut W, text: &[u8]) -> io::Result<()> {
    if text.is_empty() {
        return Ok(());
    }
    let lines = text.strip_suffix(b"\n").unwrap_or(text);
    for line in lines.split(|b| *b == b'\n') {
        print_case(out, line)?;
    }
    Ok(())
}

// Prints a line with its answer.
fn print_case<W: Write>(out: &mut W, line: &[u8]) -> io::Result<()> {
    out.write_all(line)?;
    out.write_all(b"\t")?;
    let mut fields = line.split(|b| *b == b'\t');
    let kind = fields.next().unwrap_or_default();
    let mut a = [0u8; FIELD];
    let mut b = [0u8; FIELD];
    let mut c = [0u8; FIELD];
    let a = unescape(fields.next().unwrap_or_default(), &mut a);
    let b = unescape(fields.next().unwrap_or_default(), &mut b);
    let c = unescape(fields.next().unwrap_or_default(), &mut c);
    answer::answer(out, kind, a, b, c)?;
    out.write_all(b"\n")
}
