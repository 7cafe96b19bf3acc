// What expr_eval.rs makes of number texts and operators.
ghost use Rattle.std.specs.Prelude.{◌≡◌, ◌+◌, ◌*◌, ◌≤◌, IfOk};
ghost use Rattle.std.specs.Option.{SomeIff};
ghost use Rattle.paths_numbers.specs.meaning.Number.{trimmed, base_of, behind_prefix, digits, behind_sign, unsigned};
ghost use Rattle.paths_numbers.specs.meaning.Number.{unsigned_number, signed, signed_number, int_code, int_told, i64_told};
ghost use Rattle.paths_numbers.specs.meaning.Cell.{largest};

use crate::codes::{self, Code};
use crate::dt_property::BitsSize;

// The base of a number's digits.
#[derive(Clone, Copy)]
struct Base {
    radix: u32,
    ghost least: { 2 ≤ radix },
    ghost highest: { radix ≤ 16 },
}

const BINARY: Base = Base { radix: 2 };

const OCTAL: Base = Base { radix: 8 };

const DECIMAL: Base = Base { radix: 10 };

const HEX: Base = Base { radix: 16 };

// The distance of the lowest signed 64-bit number from 0.
const MOST_DOWN: u64 = i64::MAX as u64 + 1;

// How the reading of an integer fails, by the names of the Rust's std::num::IntErrorKind.
#[derive(Clone, Copy, Debug, PartialEq, Eq)]
pub enum IntErrorKind {
    Empty,
    InvalidDigit,
    PosOverflow,
    NegOverflow,
}

impl Code for IntErrorKind {
    ghost code_of = { int_code };

    fn code(self) -> u32 {
        match self {
            IntErrorKind::Empty => codes::NUMBER_EMPTY,
            IntErrorKind::InvalidDigit => codes::NOT_A_DIGIT,
            IntErrorKind::PosOverflow => codes::NUMBER_TOO_LARGE,
            IntErrorKind::NegOverflow => codes::NUMBER_TOO_SMALL,
        }
    }
}

// An unsigned number's text, read at a width.
#[tactic(auto, unfolding(crate::specs::meaning::Number::unsigned_number))]
pub fn parse_int_tok(text: &[u8], size: BitsSize) -> Result<u64, IntErrorKind>
    ensures { int_told result ≡ unsigned_number (largest size) text.now }
{
    let (base, s) = split_base(trim_suffixes(text));
    read_unsigned(s, base, size.most())
}

// A number's text, read as a signed 64-bit number.
#[tactic(auto, unfolding(crate::specs::meaning::Number::signed_number))]
pub fn parse_int_tok_i64(text: &[u8]) -> Result<i64, IntErrorKind>
    ensures { i64_told result ≡ signed_number text.now }
{
    let (base, s) = split_base(trim_suffixes(text));
    read_signed(s, base)
}

// The text without the letters u, U, l and L at its end.
fn trim_suffixes(text: &[u8]) -> &[u8]
    ensures { result.now ≡ trimmed text.now }
{
    let mut s = text;
    while let [front @ .., b'u' | b'U' | b'l' | b'L'] = s {
        s = front;
    }
    s
}

// The base of a text, by its prefix, 8 behind another leading 0, else 10; and the part behind that prefix.
#[tactic(auto, using(crate::proofs::Prefix::first_bytes), unfolding(crate::specs::meaning::Number::base_of, crate::specs::meaning::Number::behind_prefix, crate::specs::meaning::Number::has_prefix, crate::specs::meaning::Number::is_prefix_letter))]
fn split_base(s: &[u8]) -> (Base, &[u8])
    ensures base { result.0.radix ≡ base_of s.now }
    ensures rest { result.1.now ≡ behind_prefix s.now }
{
    match s {
        [b'0', b'x' | b'X', rest @ ..] => (HEX, rest),
        [b'0', b'b' | b'B', rest @ ..] => (BINARY, rest),
        [b'0', b'o' | b'O', rest @ ..] => (OCTAL, rest),
        [b'0', ..] => (OCTAL, s),
        _ => (DECIMAL, s),
    }
}

// An unsigned number behind its prefix.
#[tactic(auto, using(crate::proofs::Signs::sign_steps))]
fn read_unsigned(s: &[u8], base: Base, most: u64) -> Result<u64, IntErrorKind>
    ensures told { int_told result ≡ unsigned base.radix most s.now }
    ensures within { IfOk result (λ n. n ≤ most) }
{
    match s {
        [] => Err(IntErrorKind::Empty),
        [b'+', rest @ ..] => read_behind_sign(rest, base, most, IntErrorKind::PosOverflow),
        _ => read_digits(s, base, most, IntErrorKind::PosOverflow),
    }
}

// A signed number behind its prefix.
fn read_signed(s: &[u8], base: Base) -> Result<i64, IntErrorKind>
    ensures { i64_told result ≡ signed base.radix s.now }
{
    if let [b'-', rest @ ..] = s {
        let n = read_behind_sign(rest, base, MOST_DOWN, IntErrorKind::NegOverflow)?;
        return Ok(n.wrapping_neg().cast_signed());
    }
    let n = read_unsigned(s, base, i64::MAX as u64)?;
    Ok(n as i64)
}

// Digits behind a sign: a lone sign is no digit.
#[tactic(auto, using(crate::proofs::Signs::sign_steps))]
fn read_behind_sign(
    s: &[u8],
    base: Base,
    most: u64,
    over: IntErrorKind,
) -> Result<u64, IntErrorKind>
    ensures told { int_told result ≡ behind_sign base.radix most (int_code over) s.now }
    ensures within { IfOk result (λ n. n ≤ most) }
{
    if s.is_empty() {
        return Err(IntErrorKind::InvalidDigit);
    }
    read_digits(s, base, most, over)
}

// Digits in a base, up to a largest value.
fn read_digits(s: &[u8], base: Base, most: u64, over: IntErrorKind) -> Result<u64, IntErrorKind>
    ensures told { int_told result ≡ digits base.radix most (int_code over) 0 s.now }
    ensures within { IfOk result (λ n. n ≤ most) }
{
    let mut acc: u64 = 0;
    for b in s {
        let Some(digit) = char::from(*b).to_digit(base.radix) else {
            return Err(IntErrorKind::InvalidDigit);
        };
        let Some(next) = with_digit(acc, base.radix, digit, most) else {
            return Err(over);
        };
        acc = next;
    }
    Ok(acc)
}

// A number with one more digit behind it, where it is not too large.
fn with_digit(acc: u64, radix: u32, digit: u32, most: u64) -> Option<u64>
    ensures { SomeIff result (acc * radix + digit ≤ most) (acc * radix + digit) }
{
    acc.checked_mul(radix as u64)?
        .checked_add(digit as u64)
        .filter(|n| *n <= most)
}
