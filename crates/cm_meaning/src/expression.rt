//! The steps of expressions.
ghost use Rattle.std.specs.Prelude.{◌≡◌, IfOk, Some, true, length, slice_get};
ghost use Rattle.cm_syntax.specs.Operator.{natural};
ghost use Rattle.cm_meaning.specs.declared.work.Work.TheVariants as works;
ghost use Rattle.cm_syntax.specs.Step as step;
ghost use Rattle.cm_meaning.specs.Evaluator.{IsReady, Does, left_work};

use crate::ended::Trap;
use crate::evaluator::Evaluator;
use crate::operator::{binary, truth, unary};
use crate::work::{Hand, Outcome, Purpose, Work};
use cm_syntax::{Expr, Op};
use cm_text::Memory;

impl<'a> Evaluator<'a> {
    /// Begins an expression.
    pub(crate) fn evaluate(&mut self, e: &'a Expr<u32>) -> Result<Outcome, Memory>
        requires { IsReady self.old (works.Evaluate e) }
        ensures { IfOk result (λ outcome. Does self.old (works.Evaluate e.entry) outcome self.new) }
    {
        match e {
            Expr::Number(value) => self.hold(*value),
            Expr::Scalar(x) => {
                let value = self.frames.word(self.top(), x.name, 0);
                self.hold(value)
            }
            Expr::Index(a, place) => self.then(Work::Evaluate(place.get()), Work::Element(a.name)),
            Expr::Len(a) => {
                let row = self.frames.row(a.name);
                self.hold(row.length as i32)
            }
            Expr::Input(place) => self.then(Work::Evaluate(place.get()), Work::Read),
            Expr::Inputs => self.hold(self.input.len() as i32),
            Expr::Unary(op, operand) => {
                self.then(Work::Evaluate(operand.get()), Work::Prefix(*op))
            }
            Expr::Binary(op, left, right) => {
                let behind = behind_left(*op, right.get());
                self.then(Work::Evaluate(left.get()), behind)
            }
            Expr::Call(call) => {
                let arguments = Work::Arguments(
                    Purpose::Called,
                    call.function.name,
                    0,
                    call.arguments.items(),
                );
                self.then(arguments, Work::TakeBack)
            }
        }
    }

    /// The left operand is at hand, and the right one comes.
    pub(crate) fn right(&mut self, op: Op, right: &'a Expr<u32>) -> Result<Outcome, Memory>
        requires { IsReady self.old (works.Right op right) }
        ensures { IfOk result (λ outcome. Does self.old (works.Right op right.entry) outcome self.new) }
    {
        let left = self.value();
        self.then(Work::Evaluate(right), Work::Apply(op, left))
    }

    /// Both operands are known. A division by 0 traps.
    pub(crate) fn apply(&mut self, op: Op, left: i32) -> Result<Outcome, Memory>
        requires { IsReady self.old (works.Apply op left) }
        ensures { IfOk result (λ outcome. Does self.old (works.Apply op left) outcome self.new) }
    {
        match binary(op, left, self.value()) {
            Some(value) => self.hold(value),
            None => Ok(Outcome::Trapped(Trap::Divide)),
        }
    }

    /// The only operand is at hand.
    pub(crate) fn prefix(&mut self, op: Op) -> Result<Outcome, Memory>
        requires { IsReady self.old (works.Prefix op) }
        ensures { IfOk result (λ outcome. Does self.old (works.Prefix op) outcome self.new) }
    {
        match unary(op, self.value()) {
            Some(value) => self.hold(value),
            None => unreachable!(),
        }
    }

    /// The left operand of `&&` is at hand.
    pub(crate) fn both(&mut self, right: &'a Expr<u32>) -> Result<Outcome, Memory>
        requires { IsReady self.old (works.Both right) }
        ensures { IfOk result (λ outcome. Does self.old (works.Both right.entry) outcome self.new) }
    {
        if self.value() == 0 {
            self.rest.push(Work::Truth)?;
            Ok(Outcome::Going)
        } else {
            self.then(Work::Evaluate(right), Work::Truth)
        }
    }

    /// The left operand of `||` is at hand.
    pub(crate) fn either(&mut self, right: &'a Expr<u32>) -> Result<Outcome, Memory>
        requires { IsReady self.old (works.Either right) }
        ensures { IfOk result (λ outcome. Does self.old (works.Either right.entry) outcome self.new) }
    {
        if self.value() == 0 {
            self.then(Work::Evaluate(right), Work::Truth)
        } else {
            self.rest.push(Work::Truth)?;
            Ok(Outcome::Going)
        }
    }

    /// The value at hand becomes 1 where it isn't 0.
    pub(crate) fn truth(&mut self) -> Result<Outcome, Memory>
        requires { IsReady self.old works.Truth }
        ensures { IfOk result (λ outcome. Does self.old works.Truth outcome self.new) }
    {
        let value = self.value();
        self.hold(truth(value != 0))
    }

    /// The index of an element is at hand. One that is outside traps.
    pub(crate) fn element(&mut self, slot: u32) -> Result<Outcome, Memory>
        requires { IsReady self.old (works.Element slot) }
        ensures { IfOk result (λ outcome. Does self.old (works.Element slot) outcome self.new) }
    {
        let index = self.value();
        let row = self.frames.row(slot);
        if !is_index(index, row.length) {
            return Ok(Outcome::Trapped(Trap::Index));
        }
        let value = self
            .frames
            .word(row.depth, row.slot, row.start + index as u32);
        self.hold(value)
    }

    /// The index of a number of the input is at hand. One that is outside traps.
    pub(crate) fn read(&mut self) -> Result<Outcome, Memory>
        requires { IsReady self.old works.Read }
        ensures { IfOk result (λ outcome. Does self.old works.Read outcome self.new) }
    {
        let index = self.value();
        let input = self.input;
        if !is_index(index, input.len() as u32) {
            return Ok(Outcome::Trapped(Trap::Input));
        }
        self.hold(number_at(input, index))
    }
}

/// What is to be done with the value of a left operand.
fn behind_left<'a>(op: Op, right: &'a Expr<u32>) -> Work<'a>
    ensures { result ≡ left_work op right.entry }
{
    match op {
        Op::Both => Work::Both(right),
        Op::Either => Work::Either(right),
        _ => Work::Right(op, right),
    }
}

/// The number at an index that is inside.
fn number_at(input: &[i32], index: i32) -> i32
    requires { step.is_index index (length input.now) ≡ true }
    ensures { slice_get input.now (natural index) ≡ Some result }
{
    input[index as usize]
}

/// Whether a value is an index into so many words.
pub(crate) fn is_index(index: i32, count: u32) -> bool
    ensures { result ≡ step.is_index index count }
{
    0 <= index && (index as u32) < count
}
