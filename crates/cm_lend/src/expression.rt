//! The paths of expressions and of calls.
ghost use Rattle.std.specs.Prelude.{◌≡◌, ◌++◌, [], ◌∷◌, IfOk};
ghost use Rattle.cm_syntax.specs.Walk as orders;
ghost use Rattle.cm_syntax.specs.Evaluation as evaluation;
ghost use Rattle.cm_syntax.specs.Frame.{is_short_circuit};
ghost use Rattle.cm_syntax.specs.declared.expr.Expr.TheVariants as expressions;
ghost use Rattle.cm_lend.specs.Summary.{Sums};

use crate::breach::again;
use crate::meeting::Mention;
use crate::summary::Summary;
use cm_syntax::{Arg, Call, Expr, Mark, Op};
use cm_text::{List, Memory};
use std::alloc::Global;

/// A mention at an offset.
pub(crate) fn mention_at(alloc: Global, variable: u32, at: u32) -> Result<Summary, Memory>
    ensures { IfOk result (Sums (orders.event (orders.mentions variable at))) }
{
    let mut entering = List::new(alloc);
    entering.push(Mention { variable, at })?;
    Ok(Summary {
        passes: true,
        leaving: List::new(alloc),
        entering,
        found: None,
    })
}

/// A mention.
pub(crate) fn mention(alloc: Global, mark: &Mark<u32>) -> Result<Summary, Memory>
    ensures { IfOk result (Sums (evaluation.mention_order mark.now)) }
{
    mention_at(alloc, mark.name, mark.at)
}

/// Whether an operator may leave out its right operand.
fn stops_early(op: Op) -> bool
    ensures { result ≡ is_short_circuit op }
{
    match op {
        Op::Both | Op::Either => true,
        _ => false,
    }
}

/// An expression.
#[cycle(expression)]
pub(crate) fn expression(alloc: Global, value: &Expr<u32>) -> Result<Summary, Memory>
    ensures { IfOk result (Sums (evaluation.expression_order value.now)) }
{
    match value {
        Expr::Number(_) => Ok(Summary::nothing(alloc)),
        Expr::Scalar(mark) => mention(alloc, mark),
        Expr::Index(mark, index) => {
            let before = expression(alloc, index.get())?;
            let whole = before.next(alloc, mention(alloc, mark)?)?;
            Ok(whole)
        }
        Expr::Len(mark) => mention(alloc, mark),
        Expr::Input(index) => expression(alloc, index.get()),
        Expr::Inputs => Ok(Summary::nothing(alloc)),
        Expr::Unary(_, operand) => expression(alloc, operand.get()),
        Expr::Binary(op, left, right) => {
            let first = expression(alloc, left.get())?;
            let second = expression(alloc, right.get())?;
            let whole = binary(alloc, *op, first, second)?;
            Ok(whole)
        }
        Expr::Call(call) => call_of(alloc, call),
    }
}

/// An operator's two operands.
fn binary(alloc: Global, op: Op, first: Summary, second: Summary) -> Result<Summary, Memory>
    ensures { (p q : orders.Order) → Sums p first → Sums q second
        → IfOk result (Sums (evaluation.joined_order op p q)) }
{
    if stops_early(op) {
        let right = Summary::nothing(alloc).choice(second)?;
        let whole = first.next(alloc, right)?;
        Ok(whole)
    } else {
        let whole = first.next(alloc, second)?;
        Ok(whole)
    }
}

/// A call of an expression: its arguments, and then what it passes.
#[cycle(expression)]
pub(crate) fn call_of(alloc: Global, call: &Call<u32>) -> Result<Summary, Memory>
    ensures { IfOk result (Sums (evaluation.expression_order (expressions.Call call.now))) }
{
    let before = arguments(alloc, call.arguments.items())?;
    let whole = before.next(alloc, passing(alloc, call.arguments.items())?)?;
    Ok(whole)
}

/// The arguments of a call, one after another.
#[cycle(expression)]
pub(crate) fn arguments(alloc: Global, passed: &[Arg<u32>]) -> Result<Summary, Memory>
    ensures { IfOk result (Sums (evaluation.arguments_order passed.now)) }
{
    let mut whole = Summary::nothing(alloc);
    for argument in passed {
        whole = whole.next(alloc, argument_of(alloc, argument)?)?;
    }
    Ok(whole)
}

/// An argument.
#[cycle(expression)]
fn argument_of(alloc: Global, argument: &Arg<u32>) -> Result<Summary, Memory>
    ensures { IfOk result (Sums (evaluation.argument_order argument.now)) }
{
    match argument {
        Arg::Value(value) => expression(alloc, value),
        Arg::Slice(mark) => mention(alloc, mark),
        Arg::Address(mark) => mention(alloc, mark),
    }
}

/// The list with this mention last.
pub(crate) fn with_mark(
    before: List<Mark<u32>>,
    mark: &Mark<u32>,
) -> Result<List<Mark<u32>>, Memory>
    ensures { IfOk result (λ all. all ≡ before ++ mark.now ∷ []) }
{
    let mut all = before;
    all.push(Mark {
        name: mark.name,
        at: mark.at,
    })?;
    Ok(all)
}

/// The list with what an argument passes as a slice last.
fn with_slice(before: List<Mark<u32>>, argument: &Arg<u32>) -> Result<List<Mark<u32>>, Memory>
    ensures { IfOk result (λ all. all ≡ before ++ evaluation.slice_of argument.now) }
{
    match argument {
        Arg::Value(_) => Ok(before),
        Arg::Slice(mark) => with_mark(before, mark),
        Arg::Address(mark) => with_mark(before, mark),
    }
}

/// The list with what the arguments pass as slices last.
pub(crate) fn with_slices(
    before: List<Mark<u32>>,
    passed: &[Arg<u32>],
) -> Result<List<Mark<u32>>, Memory>
    ensures { IfOk result (λ all. all ≡ before ++ evaluation.slices passed.now) }
{
    let mut all = before;
    for argument in passed {
        all = with_slice(all, argument)?;
    }
    Ok(all)
}

/// The passing of a call's slices.
fn passing(alloc: Global, passed: &[Arg<u32>]) -> Result<Summary, Memory>
    ensures { IfOk result (Sums (orders.event (orders.calls (evaluation.slices passed.now)))) }
{
    let slices = with_slices(List::new(alloc), passed)?;
    Ok(Summary {
        passes: true,
        leaving: List::new(alloc),
        entering: List::new(alloc),
        found: again(slices.items()),
    })
}

/// A value that may not be there.
pub(crate) fn optional(alloc: Global, value: &Option<Expr<u32>>) -> Result<Summary, Memory>
    ensures { IfOk result (Sums (evaluation.optional_order value.now)) }
{
    match value {
        None => Ok(Summary::nothing(alloc)),
        Some(value) => expression(alloc, value),
    }
}
