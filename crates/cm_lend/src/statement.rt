//! The paths of statements.
ghost use Rattle.std.specs.Prelude.{◌≡◌, ◌++◌, IfOk, Some, map};
ghost use Rattle.cm_syntax.specs.Walk as orders;
ghost use Rattle.cm_syntax.specs.Evaluation as evaluation;
ghost use Rattle.cm_syntax.specs.Lending.{variables};
ghost use Rattle.cm_lend.specs.Summary.{Sums, loan};

use crate::breach::again;
use crate::expression::{
    arguments, call_of, expression, mention, mention_at, optional, with_mark, with_slices,
};
use crate::meeting::Loan;
use crate::summary::Summary;
use cm_syntax::{Arg, Call, Expr, Item, Mark, Stmt, Target};
use cm_text::{List, Memory};
use std::alloc::Global;

/// A condition, turns that begin with it, and what is behind the last turn.
fn loop_of(alloc: Global, test: Summary, turn: Summary, behind: Summary) -> Result<Summary, Memory>
    ensures { (p q r : orders.Order) → Sums p test → Sums q turn → Sums r behind
        → IfOk result (Sums (orders.next (orders.turns (orders.next p q)) r)) }
{
    let one = test.next(alloc, turn)?;
    let whole = one.turns(alloc)?.next(alloc, behind)?;
    Ok(whole)
}

/// Statements one after another.
#[cycle(statement)]
pub(crate) fn statements(alloc: Global, body: &[Stmt<u32>]) -> Result<Summary, Memory>
    ensures { IfOk result (Sums (evaluation.body_order body.now)) }
{
    let mut whole = Summary::nothing(alloc);
    for statement in body {
        whole = whole.next(alloc, statement_of(alloc, statement)?)?;
    }
    Ok(whole)
}

/// A statement.
#[cycle(statement)]
fn statement_of(alloc: Global, statement: &Stmt<u32>) -> Result<Summary, Memory>
    ensures { IfOk result (Sums (evaluation.statement_order statement.now)) }
{
    match statement {
        Stmt::If { test, then, other } => {
            let condition = expression(alloc, test)?;
            let chosen = statement_of(alloc, then.get())?;
            match other {
                None => branches(alloc, condition, chosen, Summary::nothing(alloc)),
                Some(other) => {
                    let second = statement_of(alloc, other.get())?;
                    branches(alloc, condition, chosen, second)
                }
            }
        }
        Stmt::While { test, body } => {
            let turn = statement_of(alloc, body.get())?;
            while_loop(alloc, test, turn)
        }
        Stmt::For {
            first,
            test,
            step,
            body,
        } => {
            let before = statement_of(alloc, first.get())?;
            let inside = statement_of(alloc, body.get())?;
            let after = statement_of(alloc, step.get())?;
            let turn = inside.next(alloc, after)?;
            for_loop(alloc, before, test, turn)
        }
        Stmt::Split {
            whole,
            place,
            left,
            right,
            body,
            close,
        } => {
            let index = expression(alloc, place)?;
            let inside = statements(alloc, body.items())?;
            split(alloc, whole, index, left, right, inside, *close)
        }
        Stmt::Block(body) => statements(alloc, body.items()),
        Stmt::Empty => Ok(Summary::nothing(alloc)),
        Stmt::Declare(items) => declaration(alloc, items.items()),
        Stmt::Assign { target, value, .. } => assignment(alloc, target, expression(alloc, value)?),
        Stmt::Call(call) => call_of(alloc, call),
        Stmt::Spawn { at, target, call } => spawn(alloc, *at, target, call),
        Stmt::Sync { .. } => Ok(Summary::end(alloc)),
        Stmt::Return { value, .. } => returning(alloc, optional(alloc, value)?),
        Stmt::Print(value) => expression(alloc, value),
    }
}

/// A condition, and one of two branches behind it.
fn branches(
    alloc: Global,
    test: Summary,
    chosen: Summary,
    other: Summary,
) -> Result<Summary, Memory>
    ensures { (p q r : orders.Order) → Sums p test → Sums q chosen → Sums r other
        → IfOk result (Sums (orders.next p (orders.choice q r))) }
{
    let whole = test.next(alloc, chosen.choice(other)?)?;
    Ok(whole)
}

/// The turns of a `while`.
fn while_loop(alloc: Global, test: &Expr<u32>, turn: Summary) -> Result<Summary, Memory>
    ensures { (p : orders.Order) → Sums p turn
        → IfOk result (Sums (evaluation.rounds_order (Some test.now) p)) }
{
    let before = expression(alloc, test)?;
    let behind = expression(alloc, test)?;
    let whole = loop_of(alloc, before, turn, behind)?;
    Ok(whole)
}

/// What is before a `for`, and its turns: without a condition no path leads behind them.
fn for_loop(
    alloc: Global,
    before: Summary,
    test: &Option<Expr<u32>>,
    turn: Summary,
) -> Result<Summary, Memory>
    ensures { (p q : orders.Order) → Sums p before → Sums q turn
        → IfOk result (Sums (orders.next p (evaluation.rounds_order test.now q))) }
{
    match test {
        None => {
            let rounds = turn.turns(alloc)?.next(alloc, Summary::end(alloc))?;
            let whole = before.next(alloc, rounds)?;
            Ok(whole)
        }
        Some(test) => {
            let rounds = while_loop(alloc, test, turn)?;
            let whole = before.next(alloc, rounds)?;
            Ok(whole)
        }
    }
}

/// A `return` behind its value.
fn returning(alloc: Global, value: Summary) -> Result<Summary, Memory>
    ensures { (p : orders.Order) → Sums p value
        → IfOk result (Sums (orders.next p (orders.event orders.ends))) }
{
    let whole = value.next(alloc, Summary::end(alloc))?;
    Ok(whole)
}

/// Declared items.
fn declaration(alloc: Global, items: &[Item<u32>]) -> Result<Summary, Memory>
    ensures { IfOk result (Sums (evaluation.items_order items.now)) }
{
    let mut whole = Summary::nothing(alloc);
    for item in items {
        let one = optional(alloc, &item.first)?.next(alloc, mention(alloc, &item.name)?)?;
        whole = whole.next(alloc, one)?;
    }
    Ok(whole)
}

/// An assignment of a value.
fn assignment(alloc: Global, target: &Target<u32>, value: Summary) -> Result<Summary, Memory>
    ensures { (p : orders.Order) → Sums p value
        → IfOk result (Sums (evaluation.assignment_order target.now p)) }
{
    match target {
        Target::Scalar(mark) => {
            let whole = value.next(alloc, mention(alloc, mark)?)?;
            Ok(whole)
        }
        Target::Index(mark, index) => {
            let behind = mention(alloc, mark)?.next(alloc, value)?;
            let whole = expression(alloc, index)?.next(alloc, behind)?;
            Ok(whole)
        }
    }
}

/// A spawn: its call's arguments, its destination, and then what it lends.
fn spawn(
    alloc: Global,
    at: u32,
    target: &Option<Mark<u32>>,
    call: &Call<u32>,
) -> Result<Summary, Memory>
    ensures { IfOk result (Sums (evaluation.spawn_order at target.now call.now)) }
{
    let lends = lending(alloc, at, target, call.arguments.items())?;
    let behind = destination(alloc, target)?.next(alloc, lends)?;
    let whole = arguments(alloc, call.arguments.items())?.next(alloc, behind)?;
    Ok(whole)
}

/// The destination of a spawn, if it has one.
fn destination(alloc: Global, target: &Option<Mark<u32>>) -> Result<Summary, Memory>
    ensures { IfOk result (Sums (evaluation.destination_order target.now)) }
{
    match target {
        None => Ok(Summary::nothing(alloc)),
        Some(mark) => mention(alloc, mark),
    }
}

/// What a spawn lends: its destination, and what its call passes as slices.
fn lending(
    alloc: Global,
    at: u32,
    target: &Option<Mark<u32>>,
    passed: &[Arg<u32>],
) -> Result<Summary, Memory>
    ensures { IfOk result (Sums (orders.event
        (orders.spawns at (evaluation.destination_of target.now ++ evaluation.slices passed.now)))) }
{
    let lent = with_slices(with_destination(alloc, target)?, passed)?;
    let leaving = loans(alloc, at, lent.items())?;
    Ok(Summary {
        passes: true,
        leaving,
        entering: List::new(alloc),
        found: again(lent.items()),
    })
}

/// The destination alone.
fn with_destination(alloc: Global, target: &Option<Mark<u32>>) -> Result<List<Mark<u32>>, Memory>
    ensures { IfOk result (λ all. all ≡ evaluation.destination_of target.now) }
{
    match target {
        None => Ok(List::new(alloc)),
        Some(mark) => with_mark(List::new(alloc), mark),
    }
}

/// The loans of a spawn.
fn loans(alloc: Global, at: u32, lent: &[Mark<u32>]) -> Result<List<Loan>, Memory>
    ensures { IfOk result (λ all. all ≡ map (loan at) (variables lent.now)) }
{
    let mut all = List::new(alloc);
    for mark in lent {
        all.push(Loan {
            spawn: at,
            variable: mark.name,
        })?;
    }
    Ok(all)
}

/// A split.
fn split(
    alloc: Global,
    whole: &Mark<u32>,
    index: Summary,
    left: &Mark<u32>,
    right: &Mark<u32>,
    body: Summary,
    close: u32,
) -> Result<Summary, Memory>
    ensures { (p q : orders.Order) → Sums p index → Sums q body
        → IfOk result (Sums (evaluation.split_order whole.now p left.now right.now q close)) }
{
    let brace = mention_at(alloc, left.name, close)?.next(
        alloc,
        mention_at(alloc, right.name, close)?,
    )?;
    let inside = body.next(alloc, brace)?;
    let parts = mention(alloc, right)?.next(alloc, inside)?;
    let parts = mention(alloc, left)?.next(alloc, parts)?;
    let behind = mention(alloc, whole)?.next(alloc, parts)?;
    let all = index.next(alloc, behind)?;
    Ok(all)
}
