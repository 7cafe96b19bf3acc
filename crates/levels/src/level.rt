// What an expression is reckoned with, by the level.
ghost use Rattle.std.specs.Prelude.{◌≡◌};
ghost use Rattle.paths_numbers.specs.meaning.Number.{i64_told};
ghost use Rattle.paths_numbers.specs.meaning.Expression.{eval_told};
ghost use Rattle.levels.specs.meaning.Rules.{is_level};
ghost use Rattle.levels.specs.machine.Held.{rules_at};

use crate::unsigned::{eval_infix_unsigned, eval_prefix_unsigned, literal_unsigned};
use paths_numbers::expr_eval::{IntErrorKind, parse_int_tok_i64};
use paths_numbers::operators::{EvalError, eval_infix, eval_prefix};

// The level that keeps 01's signed rule, and the one of unsigned numbers that wrap.
// kept: the public `literal`, `unary` and `binary` take any number as a level and may not ask more.
pub const SIGNED: u32 = 1;

pub const UNSIGNED: u32 = 2;

// Whether there is such a level.
#[tactic(auto, unfolding(crate::specs::meaning::Rules::is_level))]
pub fn is_level(level: u32) -> bool
    ensures { result ≡ is_level level }
{
    level == SIGNED || level == UNSIGNED
}

// A literal's text.
#[tactic(auto, unfolding(crate::specs::machine::Held::rules_at))]
pub fn literal(level: u32, text: &[u8]) -> Result<i64, IntErrorKind>
    ensures { i64_told result ≡ (rules_at level).literal text.now }
{
    match level {
        UNSIGNED => literal_unsigned(text),
        _ => parse_int_tok_i64(text),
    }
}

// The prefix operator of this number on a value.
#[tactic(auto, unfolding(crate::specs::machine::Held::rules_at))]
pub fn unary(level: u32, op: u32, a: i64) -> Result<i64, EvalError>
    ensures { eval_told result ≡ (rules_at level).unary op a }
{
    match level {
        UNSIGNED => eval_prefix_unsigned(op, a),
        _ => eval_prefix(op, a),
    }
}

// The infix operator of this number on two values.
#[tactic(auto, unfolding(crate::specs::machine::Held::rules_at))]
pub fn binary(level: u32, op: u32, a: i64, b: i64) -> Result<i64, EvalError>
    ensures { eval_told result ≡ (rules_at level).binary op a b }
{
    match level {
        UNSIGNED => eval_infix_unsigned(op, a, b),
        _ => eval_infix(op, a, b),
    }
}
