// The value of an expression (eval of expr_eval.rs). The nesting, which falls with each link to
// operands, is what row 6 leaves; the level says what it is reckoned with.
ghost use Rattle.std.specs.Prelude.{◌≡◌, List, ℕ, ◌≤◌};
ghost use Rattle.paths_numbers.specs.meaning.Expression.{conditional_op};
ghost use Rattle.paths_numbers.specs.meaning.Reading.{told};
ghost use Rattle.levels.specs.machine.Held.{rules_at};
ghost use Rattle.definition_log.specs.meaning.Contents.{Span};
ghost use Rattle.input.specs.meaning.Expr.{evaluated, first_operand, applied, prefix_of, infix_of, eval, evals};
ghost use Rattle.input.specs.meaning.Input.{span_at};
ghost use Rattle.input.specs.machine.ChainLeft.{chain_left, trees_left};
ghost use Rattle.input.specs.machine.Fits.{depth_of, depths_of};
ghost use Rattle.input.specs.machine.OfRecord.{tree_of, parts_of, w_in, span_in};
ghost use Rattle.input.specs.machine.Evaluation.{first_two, first_three, outcome_of, outcome_in, failure, is_logical, decides};

use crate::kinds::{CHARACTER, INFIX, MACRO, NUMBER, PARENTHESIS, PREFIX};
use crate::linked::{Chain, Record};
use crate::record::number_at;
use crate::report::Report;
use levels::level::{binary, literal, unary};
use paths_numbers::codes::Code;
use paths_numbers::operators::{AND, CONDITIONAL, OR, is_true};

impl Record<'_> {
    // The value of an expression, or what is reported where there is none, which is nothing for a missing operand or operator.
    #[cycle(eval)]
    pub fn eval(self, nesting: u32, level: u32) -> Result<i64, Report>
        requires shallow { depth_of (tree_of self) ≤ nesting }
        ensures { outcome_in self.entry.input result ≡ eval (rules_at level) (tree_of self.entry) }
    {
        if nesting == 0 {
            return Err(Report::Nothing);
        }
        let r = self.number;
        match self.kind() {
            MACRO => Err(Report::Macro(r)),
            NUMBER => evaluation_of(r, literal(level, self.text())),
            CHARACTER => Ok(number_at(self.input.words, r) as i64),
            PREFIX => self.eval_prefix_at(nesting - 1, level),
            PARENTHESIS => self.parts().eval_first(nesting - 1, level),
            INFIX => self.eval_infix_at(nesting - 1, level),
            _ => Err(Report::Nothing),
        }
    }

    // The value of a prefix record.
    #[cycle(eval)]
    fn eval_prefix_at(self, nesting: u32, level: u32) -> Result<i64, Report>
        requires shallow { depths_of (parts_of self) ≤ nesting }
        ensures { outcome_in self.entry.input result ≡ prefix_of (rules_at level) (w_in self.entry) (span_in self.entry)
            (evals (rules_at level) (parts_of self.entry)) }
    {
        let op = number_at(self.input.words, self.number);
        if op == 0 {
            return Err(Report::Nothing);
        }
        let a = self.parts().eval_first(nesting, level)?;
        evaluation_of(self.number, unary(level, op, a))
    }

    // The value of an infix record.
    #[cycle(eval)]
    fn eval_infix_at(self, nesting: u32, level: u32) -> Result<i64, Report>
        requires shallow { depths_of (parts_of self) ≤ nesting }
        ensures { outcome_in self.entry.input result ≡ infix_of (rules_at level) (w_in self.entry) (span_in self.entry)
            (evals (rules_at level) (parts_of self.entry)) }
    {
        let op = number_at(self.input.words, self.number);
        if op == 0 {
            return Err(Report::Nothing);
        }
        let operands = self.parts();
        if op == CONDITIONAL {
            return operands.eval_conditional_at(nesting, level);
        }
        operands.eval_binary(self.number, op, nesting, level)
    }
}

impl Chain<'_> {
    // Its first two records.
    fn first_two(mut self) -> Option<(u32, u32)>
        ensures { result ≡ first_two (chain_left self.entry) }
    {
        Some((self.next()?, self.next()?))
    }

    // Its first three.
    fn first_three(mut self) -> Option<(u32, u32, u32)>
        ensures { result ≡ first_three (chain_left self.entry) }
    {
        Some((self.next()?, self.next()?, self.next()?))
    }

    // The value of the first of a chain of operands.
    #[cycle(eval)]
    pub fn eval_first(mut self, nesting: u32, level: u32) -> Result<i64, Report>
        requires shallow { depths_of (trees_left self) ≤ nesting }
        ensures { outcome_in self.entry.input result ≡ first_operand (evals (rules_at level) (trees_left self.entry)) }
    {
        let input = self.input;
        let Some(number) = self.next() else {
            return Err(Report::Nothing);
        };
        let first = Record { input, number };
        first.eval(nesting, level)
    }

    // The value of an infix record whose operator takes three operands, by these.
    #[cycle(eval)]
    fn eval_conditional_at(self, nesting: u32, level: u32) -> Result<i64, Report>
        requires shallow { depths_of (trees_left self) ≤ nesting }
        ensures { (span : Span) → outcome_in self.entry.input result ≡ infix_of (rules_at level) conditional_op span
            (evals (rules_at level) (trees_left self.entry)) }
    {
        let input = self.input;
        let Some((x, y, z)) = self.first_three() else {
            return Err(Report::Nothing);
        };
        let test = Record { input, number: x };
        let a = test.eval(nesting, level)?;
        if is_true(a) {
            let then = Record { input, number: y };
            return then.eval(nesting, level);
        }
        let other = Record { input, number: z };
        other.eval(nesting, level)
    }

    // The value of an infix record r whose operator takes two operands, by these.
    #[cycle(eval)]
    fn eval_binary(self, r: u32, op: u32, nesting: u32, level: u32) -> Result<i64, Report>
        requires shallow { depths_of (trees_left self) ≤ nesting }
        requires fact { (op ≡ 0 → ⊥) × (op ≡ conditional_op → ⊥) }
        ensures { outcome_in self.entry.input result ≡ infix_of (rules_at level) op (span_at self.entry.input.words.now r)
            (evals (rules_at level) (trees_left self.entry)) }
    {
        let input = self.input;
        let Some((x, y)) = self.first_two() else {
            return Err(Report::Nothing);
        };
        let first = Record { input, number: x };
        let a = first.eval(nesting, level)?;
        let second = Record { input, number: y };
        second.eval_second(r, op, a, nesting, level)
    }
}

impl Record<'_> {
    // The value of an infix record r from its first operand's value and its second operand, which this is.
    #[cycle(eval)]
    fn eval_second(self, r: u32, op: u32, a: i64, nesting: u32, level: u32) -> Result<i64, Report>
        requires shallow { depth_of (tree_of self) ≤ nesting }
        ensures { outcome_in self.entry.input result ≡ applied (rules_at level) op (span_at self.entry.input.words.now r) a
            (eval (rules_at level) (tree_of self.entry)) }
    {
        if first_decides(op, a) {
            return Ok(is_true(a) as i64);
        }
        let b = self.eval(nesting, level)?;
        if is_logical(op) {
            return Ok(is_true(b) as i64);
        }
        evaluation_of(r, binary(level, op, a, b))
    }
}

// Whether an infix operator's first operand decides.
fn first_decides(op: u32, a: i64) -> bool
    ensures { result ≡ decides op a }
{
    match op {
        AND => !is_true(a),
        OR => is_true(a),
        _ => false,
    }
}

// Whether an infix operator is && or ||.
fn is_logical(op: u32) -> bool
    ensures { result ≡ is_logical op }
{
    op == AND || op == OR
}

// A value that was made at record r, or what is reported where there is none: nothing of a failure without a code.
fn evaluation_of<E: Code>(r: u32, v: Result<i64, E>) -> Result<i64, Report>
    ensures { (words text : List ℕ) → outcome_of words text result ≡ evaluated (span_at words r) (told E.code_of v) }
{
    v.map_err(|e| failure(r, e.code()))
}

// What is reported of a code at record r: nothing of none.
fn failure(r: u32, code: u32) -> Report
    ensures { result ≡ failure r code }
{
    if code == 0 {
        return Report::Nothing;
    }
    Report::Code(code, r)
}
