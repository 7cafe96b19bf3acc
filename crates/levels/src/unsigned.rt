// The operators of expr_eval.rs's eval at level 2 (02, request 10): unsigned 64-bit numbers that wrap. A
// value is held as the signed one of the same bits, so that one walk over an expression serves both levels.
ghost use Rattle.std.specs.Prelude.{◌≡◌};
ghost use Rattle.std.specs.Int.{w64};
ghost use Rattle.std.proofs.Common.{of_z};
ghost use Rattle.paths_numbers.specs.meaning.Number.{unsigned_number, i64_told};
ghost use Rattle.paths_numbers.specs.meaning.Expression.{eval_code, eval_told};
ghost use Rattle.paths_numbers.specs.meaning.Reading.{told};
ghost use Rattle.levels.specs.meaning.Unsigned.{unsigned_prefix, unsigned_infix, unsigned_relation};
ghost use Rattle.levels.specs.machine.Held.{held};

use paths_numbers::dt_property::BitsSize;
use paths_numbers::expr_eval::{IntErrorKind, parse_int_tok};
use paths_numbers::operators::{AND, EvalError, OR, is_true};

// A literal's text, read as an unsigned 64-bit number.
pub fn literal_unsigned(text: &[u8]) -> Result<i64, IntErrorKind>
    ensures { i64_told result ≡ held (unsigned_number 18446744073709551615 text.now) }
{
    let n = parse_int_tok(text, BitsSize::Bits64)?;
    Ok(n.cast_signed())
}

// The prefix operator of this number on a value.
#[tactic(auto, unfolding(crate::specs::meaning::Unsigned::unsigned_prefix))]
pub fn eval_prefix_unsigned(op: u32, a: i64) -> Result<i64, EvalError>
    ensures { eval_told result ≡ held (unsigned_prefix op (of_z w64 a)) }
{
    match op {
        1 => Ok(a),
        2 => Ok(a.wrapping_neg()),
        3 => Ok(!a),
        4 => Ok(!is_true(a) as i64),
        _ => Err(EvalError::Missing),
    }
}

// The infix operator of this number on two values.
pub fn eval_infix_unsigned(op: u32, a: i64, b: i64) -> Result<i64, EvalError>
    ensures { eval_told result ≡ held (unsigned_infix op (of_z w64 a) (of_z w64 b)) }
{
    let n = infix_unsigned(op, a.cast_unsigned(), b.cast_unsigned())?;
    Ok(n.cast_signed())
}

// The infix operator of this number on two numbers.
#[tactic(auto, unfolding(crate::specs::meaning::Unsigned::unsigned_infix))]
fn infix_unsigned(op: u32, a: u64, b: u64) -> Result<u64, EvalError>
    ensures { told eval_code result ≡ unsigned_infix op a b }
{
    match op {
        1 => Ok(a.wrapping_add(b)),
        2 => Ok(a.wrapping_sub(b)),
        3 => Ok(a.wrapping_mul(b)),
        4 => a.checked_div(b).ok_or(EvalError::ZeroDivisor),
        5 => a.checked_rem(b).ok_or(EvalError::ZeroDivisor),
        6 => Ok(a & b),
        7 => Ok(a | b),
        8 => Ok(a ^ b),
        9 if b < 64 => Ok(a << b),
        10 if b < 64 => Ok(a >> b),
        9 | 10 => Err(EvalError::ShiftAmount),
        _ => relation_unsigned(op, a, b),
    }
}

// The infix operators whose result is a truth.
// kept: one table for u64 and i64 would be handed the order, the test of 0 and the definition of each type: more than these lines.
#[tactic(auto, unfolding(crate::specs::meaning::Unsigned::unsigned_relation))]
fn relation_unsigned(op: u32, a: u64, b: u64) -> Result<u64, EvalError>
    ensures { told eval_code result ≡ unsigned_relation op a b }
{
    match op {
        AND => Ok((a != 0 && b != 0) as u64),
        OR => Ok((a != 0 || b != 0) as u64),
        13 => Ok((a < b) as u64),
        14 => Ok((b < a) as u64),
        15 => Ok((a <= b) as u64),
        16 => Ok((b <= a) as u64),
        17 => Ok((a == b) as u64),
        18 => Ok((a != b) as u64),
        _ => Err(EvalError::Missing),
    }
}
