// The operators of expr_eval.rs's eval, on signed 64-bit values.
ghost use Rattle.std.specs.Prelude.{◌≡◌, ◌<◌, ℕ, ℤ, pos, true, false, IfOk, IfErr};
ghost use Rattle.paths_numbers.specs.meaning.Code.{shift_amount};
ghost use Rattle.paths_numbers.specs.meaning.Expression.{is_true, eval_prefix, eval_infix, eval_relation, eval_conditional, shift_by};
ghost use Rattle.paths_numbers.specs.meaning.Expression.{eval_code, eval_told};
ghost use Rattle.paths_numbers.specs.meaning.Reading.{fails};

use crate::codes::{self, Code};

// Why an operator has no result.
#[derive(Clone, Copy, Debug, PartialEq, Eq)]
pub enum EvalError {
    // outside 64 bits
    Outside,
    // a zero divisor
    ZeroDivisor,
    // a shift amount outside 0 to 63
    ShiftAmount,
    // no such operator
    Missing,
}

// The infix operators that evaluate only what they need: && || ?:
// kept: the public `eval_prefix` and `eval_infix` take any number and may not ask more; an enum would need a second table, of 23 arms.
pub const AND: u32 = 11;

pub const OR: u32 = 12;

pub const CONDITIONAL: u32 = 19;

// 01's code of each way to fail, 0 where the operator is missing.
impl Code for EvalError {
    ghost code_of = { eval_code };

    fn code(self) -> u32 {
        match self {
            EvalError::Outside => codes::OUTSIDE_64_BITS,
            EvalError::ZeroDivisor => codes::ZERO_DIVISOR,
            EvalError::ShiftAmount => codes::SHIFT_AMOUNT,
            EvalError::Missing => 0,
        }
    }
}

// Whether a value holds as a condition.
pub fn is_true(a: i64) -> bool
    ensures { result ≡ is_true a }
{
    a != 0
}

// The prefix operator of this number on a value.
#[tactic(auto, unfolding(crate::specs::meaning::Expression::eval_prefix))]
pub fn eval_prefix(op: u32, a: i64) -> Result<i64, EvalError>
    ensures { eval_told result ≡ eval_prefix op a }
{
    match op {
        1 => Ok(a),
        2 => a.checked_neg().ok_or(EvalError::Outside),
        3 => Ok(!a),
        4 => Ok(!is_true(a) as i64),
        _ => Err(EvalError::Missing),
    }
}

// The infix operator of this number on two values.
#[tactic(auto, unfolding(crate::specs::meaning::Expression::eval_infix, crate::specs::meaning::Expression::quotient, crate::specs::meaning::Expression::remainder, crate::specs::meaning::Expression::shift_left, crate::specs::meaning::Expression::shift_right))]
pub fn eval_infix(op: u32, a: i64, b: i64) -> Result<i64, EvalError>
    ensures { eval_told result ≡ eval_infix op a b }
{
    match op {
        1 => a.checked_add(b).ok_or(EvalError::Outside),
        2 => a.checked_sub(b).ok_or(EvalError::Outside),
        3 => a.checked_mul(b).ok_or(EvalError::Outside),
        4 => a.checked_div(divisor(b)?).ok_or(EvalError::Outside),
        5 => a.checked_rem(divisor(b)?).ok_or(EvalError::Outside),
        6 => Ok(a & b),
        7 => Ok(a | b),
        8 => Ok(a ^ b),
        9 => Ok(a << amount(b)?),
        10 => Ok(a >> amount(b)?),
        _ => eval_relation(op, a, b),
    }
}

// The infix operators whose result is a truth.
#[tactic(auto, unfolding(crate::specs::meaning::Expression::eval_relation))]
fn eval_relation(op: u32, a: i64, b: i64) -> Result<i64, EvalError>
    ensures { eval_told result ≡ eval_relation op a b }
{
    match op {
        AND => Ok((is_true(a) && is_true(b)) as i64),
        OR => Ok((is_true(a) || is_true(b)) as i64),
        13 => Ok((a < b) as i64),
        14 => Ok((b < a) as i64),
        15 => Ok((a <= b) as i64),
        16 => Ok((b <= a) as i64),
        17 => Ok((a == b) as i64),
        18 => Ok((a != b) as i64),
        _ => Err(EvalError::Missing),
    }
}

// The last infix operator: of two values, the one that a condition picks.
#[tactic(auto, unfolding(crate::specs::meaning::Expression::eval_conditional))]
pub fn eval_conditional(a: i64, b: i64, c: i64) -> i64
    ensures { result ≡ eval_conditional a b c }
{
    if is_true(a) { b } else { c }
}

// A divisor: any value but 0.
fn divisor(b: i64) -> Result<i64, EvalError>
    ensures ok { IfOk result (λ n. (n ≡ b) × (is_true b ≡ true)) }
    ensures err { IfErr result (λ e. (e ≡ EvalError.ZeroDivisor) × (is_true b ≡ false)) }
{
    if b == 0 {
        return Err(EvalError::ZeroDivisor);
    }
    Ok(b)
}

// The amount of a shift: 0 to 63.
fn amount(b: i64) -> Result<u32, EvalError>
    ensures ok { IfOk result (λ n. (n < 64) × (b ≡ pos n)) }
    ensures err { IfErr result (λ e. (e ≡ EvalError.ShiftAmount) × ((f : ℕ → ℤ) → shift_by f b ≡ fails shift_amount)) }
{
    match b {
        0..=63 => Ok(b as u32),
        _ => Err(EvalError::ShiftAmount),
    }
}
