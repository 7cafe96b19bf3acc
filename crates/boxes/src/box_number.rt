// Box numbers as packed decimal: two digits a byte, high digit first.
#![tactic(auto, unfolding(crate::specs::meaning::Box::is_packed, crate::specs::meaning::Box::two_digits, crate::specs::meaning::Box::pack, crate::specs::meaning::Box::is_length, crate::specs::meaning::Box::read_answer, crate::specs::meaning::Box::write_number, crate::specs::meaning::Box::write_answer, crate::specs::meaning::Box::write_out))]

ghost use Rattle.std.specs.Prelude.{◌≡◌, ◌≤◌, ◌<◌, ltb, length};
ghost use Rattle.definition_log.specs.meaning.Answer.{told_done};
ghost use Rattle.boxes.specs.meaning.Box.{is_packed, is_length, two_digits, pack, hundreds, packed_value, packed_bytes};
ghost use Rattle.boxes.specs.meaning.Box.{box_told, read_answer, write_answer, write_out};

use definition_log::answer::Refusal;

// The most bytes of a box number.
const MOST_BYTES: usize = 8;

// Reads a box number of 1 to 8 bytes.
pub fn read_box(bytes: &[u8]) -> Result<u64, Refusal>
    ensures { box_told result ≡ read_answer bytes.now }
{
    if !is_length(bytes.len()) {
        return Err(Refusal::Length);
    }
    parse(bytes).ok_or(Refusal::Digit)
}

// Writes a box number into all of a slice of 1 to 8 bytes, with leading zeros. A refusal writes nothing.
pub fn write_box(value: u64, out: &mut [u8]) -> Result<(), Refusal>
    ensures result_value { told_done result ≡ write_answer (length out.old) value }
    ensures out_after { out.new ≡ write_out out.old value }
{
    if !is_length(out.len()) {
        return Err(Refusal::Length);
    }
    if !fits(value, out.len()) {
        return Err(Refusal::Number);
    }
    put(value, out);
    Ok(())
}

// Whether a box number may have so many bytes.
fn is_length(n: usize) -> bool
    ensures { result ≡ is_length n }
{
    (1..=MOST_BYTES).contains(&n)
}

// What bytes stand for, none where a digit is above 9.
fn parse(s: &[u8]) -> Option<u64>
    requires { length s.now ≤ 8 }
    ensures { result ≡ packed_value s.now }
{
    let mut n = 0;
    for &b in s {
        if !is_packed(b) {
            return None;
        }
        n = n * 100 + two_digits(b);
    }
    Some(n)
}

// Whether both digits of a byte are at most 9.
fn is_packed(b: u8) -> bool
    ensures { result ≡ is_packed b }
{
    b / 16 <= 9 && b % 16 <= 9
}

// What the two digits of a byte stand for.
fn two_digits(b: u8) -> u64
    ensures { result ≡ two_digits b }
{
    (b / 16 * 10 + b % 16) as u64
}

// Whether a number has no more than two digits for each of so many bytes.
fn fits(value: u64, bytes: usize) -> bool
    requires { bytes ≤ 8 }
    ensures { result ≡ ltb value (hundreds bytes) }
{
    value < 100u64.pow(bytes as u32)
}

// Writes a number's last digits into a slice, from its end on.
fn put(value: u64, out: &mut [u8])
    ensures { out.new ≡ packed_bytes (length out.old) value }
{
    let mut rest = value;
    // kept: an index, for a proof does not learn what was written through `iter_mut().rev()`.
    for i in (0..out.len()).rev() {
        out[i] = packed(rest % 100);
        rest /= 100;
    }
}

// Two digits as a byte.
fn packed(d: u64) -> u8
    requires { d < 100 }
    ensures { result ≡ pack d }
{
    (d / 10 * 16 + d % 10) as u8
}
