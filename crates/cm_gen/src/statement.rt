//! The code of statements, put down before the code that stands behind it.
//!
//! `exit` is the number of words from the exit of the function on, so that what stands behind a statement
//! says how far `return` jumps.
#![tactic(auto, using(crate::proofs::parts::CodeLaw::behind))]

ghost use Rattle.std.specs.Prelude.{◌≡◌, ◌+◌, ◌-◌, ◌≤◌, ◌<◌, ◌++◌, ◌∷◌, List, length, Some, None, OnOk};
ghost use Rattle.cm_syntax.specs.declared.stmt.Slot.{Slot};
ghost use Rattle.cm_gen.specs.Part.{Part};
ghost use Rattle.cm_gen.specs.Builder.{back};
ghost use Rattle.cm_gen.specs.Statement as code_of;
ghost use Rattle.cm_gen.specs.Fits as fits;

use crate::builder::CodeBuilder;
use crate::evaluation::expression;
use crate::form::Form;
use crate::layout::Layout;
use crate::simple::{assign, declare, invoke, optional, print, spawn, split, sync};
use crate::straight::{skip_unless, tick};
use cm_syntax::{Expr, Stmt};
use cm_text::Memory;

/// A statement.
#[cycle(statement)]
pub(crate) fn statement(
    code: &mut CodeBuilder,
    layout: &Layout,
    form: Form,
    exit: usize,
    value: &Stmt<u32>,
) -> Result<(), Memory>
    requires fits { fits.StatementFits value.now }
    requires exit { exit ≤ length code.old }
    ensures { OnOk result (code.new
        ≡ code_of.statement_code form layout.now (length code.old - exit) value.now ++ code.old) }
{
    match value {
        Stmt::Empty => Ok(()),
        Stmt::Declare(items) => declare(code, layout, items.items()),
        Stmt::Assign { target, op, value } => assign(code, layout, target, *op, value),
        Stmt::Call(call) => invoke(code, layout, call),
        Stmt::Spawn { target, call, .. } => spawn(code, layout, form, target, call),
        Stmt::Sync { .. } => sync(code, form),
        Stmt::If { test, then, other } => match other {
            None => {
                alone(code, layout, form, exit, then.get())?;
                expression(code, layout, test, 0)
            }
            Some(other) => {
                choice(code, layout, form, exit, then.get(), other.get())?;
                expression(code, layout, test, 0)
            }
        },
        Stmt::While { test, body } => repeat(code, layout, form, exit, test, body.get()),
        Stmt::For {
            first,
            test,
            step,
            body,
        } => {
            count(code, layout, form, exit, test, step.get(), body.get())?;
            statement(code, layout, form, exit, first.get())
        }
        Stmt::Split {
            whole,
            place,
            left,
            right,
            body,
            ..
        } => {
            statements(code, layout, form, exit, body.items())?;
            split(code, layout, whole.name, left.name, right.name)?;
            expression(code, layout, place, 0)
        }
        Stmt::Return { value, .. } => {
            let behind = code.len() - exit;
            code.skip(behind)?;
            optional(code, layout, value)
        }
        Stmt::Print(value) => {
            print(code)?;
            expression(code, layout, value, 0)
        }
        Stmt::Block(body) => statements(code, layout, form, exit, body.items()),
    }
}

/// Behind the condition of an `if` without an `else`.
#[cycle(statement)]
fn alone(
    code: &mut CodeBuilder,
    layout: &Layout,
    form: Form,
    exit: usize,
    chosen: &Stmt<u32>,
) -> Result<(), Memory>
    requires fits { fits.StatementFits chosen.now }
    requires exit { exit ≤ length code.old }
    ensures { OnOk result (code.new
        ≡ code_of.alone_of (code_of.statement_code form layout.now (length code.old - exit) chosen.now) ++ code.old) }
{
    let behind = code.len();
    statement(code, layout, form, exit, chosen)?;
    let words = code.len() - behind;
    skip_unless(code, words)
}

/// Behind the condition of an `if` with an `else`.
#[cycle(statement)]
fn choice(
    code: &mut CodeBuilder,
    layout: &Layout,
    form: Form,
    exit: usize,
    chosen: &Stmt<u32>,
    other: &Stmt<u32>,
) -> Result<(), Memory>
    requires chosen { fits.StatementFits chosen.now }
    requires other { fits.StatementFits other.now }
    requires exit { exit ≤ length code.old }
    ensures { OnOk result (code.new
        ≡ code_of.choice_of
        (code_of.statement_code form layout.now
        (length code.old - exit + (code_of.statement_size form layout.now other.now + 1)) chosen.now)
        (code_of.statement_code form layout.now (length code.old - exit) other.now) ++ code.old) }
{
    let behind = code.len();
    statement(code, layout, form, exit, other)?;
    let words = code.len() - behind;
    code.skip(words)?;
    let start = code.len();
    statement(code, layout, form, exit, chosen)?;
    let words = code.len() - start;
    skip_unless(code, words + 1)
}

/// A `while`.
#[cycle(statement)]
fn repeat(
    code: &mut CodeBuilder,
    layout: &Layout,
    form: Form,
    exit: usize,
    test: &Expr<u32>,
    body: &Stmt<u32>,
) -> Result<(), Memory>
    requires test { fits.Fits test.now 0 }
    requires body { fits.StatementFits body.now }
    requires exit { exit ≤ length code.old }
    ensures { OnOk result (code.new
        ≡ code_of.loop_code layout.now (Some test.now)
        (code_of.statement_code form layout.now (length code.old - exit + 1) body.now) ++ code.old) }
{
    let behind = code.len();
    code.open()?;
    statement(code, layout, form, exit, body)?;
    test_head(code, layout, behind, test)
}

/// A `for` behind what is done before it.
#[cycle(statement)]
fn count(
    code: &mut CodeBuilder,
    layout: &Layout,
    form: Form,
    exit: usize,
    test: &Option<Expr<u32>>,
    step: &Stmt<u32>,
    body: &Stmt<u32>,
) -> Result<(), Memory>
    requires test { fits.OptionFits test.now }
    requires step { fits.StatementFits step.now }
    requires body { fits.StatementFits body.now }
    requires exit { exit ≤ length code.old }
    ensures { OnOk result (code.new
        ≡ code_of.loop_code layout.now test.now
        (code_of.turn_code form layout.now (length code.old - exit) step.now body.now) ++ code.old) }
{
    let behind = code.len();
    code.open()?;
    statement(code, layout, form, exit, step)?;
    statement(code, layout, form, exit, body)?;
    match test {
        None => endless_head(code, behind),
        Some(test) => test_head(code, layout, behind, test),
    }
}

/// The beginning of a loop with a condition, before the code of a turn and an open jump; the jump is closed.
fn test_head(
    code: &mut CodeBuilder,
    layout: &Layout,
    behind: usize,
    test: &Expr<u32>,
) -> Result<(), Memory>
    requires test { fits.Fits test.now 0 }
    requires place { behind < length code.old }
    ensures { OnOk result ((inner rest : List Part) → code.old ≡ inner ++ (back 0 ∷ rest) → length rest ≡ behind
        → code.new ≡ code_of.loop_code layout.now (Some test.now) inner ++ rest) }
{
    tick(code)?;
    let words = code.len() - behind;
    skip_unless(code, words)?;
    expression(code, layout, test, 0)?;
    let words = code.len() - behind - 1;
    code.close(behind, words);
    Ok(())
}

/// The beginning of a loop without a condition.
fn endless_head(code: &mut CodeBuilder, behind: usize) -> Result<(), Memory>
    requires place { behind < length code.old }
    ensures { OnOk result ((slots : List Slot) (inner rest : List Part) → code.old ≡ inner ++ (back 0 ∷ rest)
        → length rest ≡ behind → code.new ≡ code_of.loop_code slots None inner ++ rest) }
{
    tick(code)?;
    let words = code.len() - behind - 1;
    code.close(behind, words);
    Ok(())
}

/// Statements one after another, the last one first.
#[cycle(statement)]
pub(crate) fn statements(
    code: &mut CodeBuilder,
    layout: &Layout,
    form: Form,
    exit: usize,
    list: &[Stmt<u32>],
) -> Result<(), Memory>
    requires fits { fits.BodyFits list.now }
    requires exit { exit ≤ length code.old }
    ensures { OnOk result (code.new
        ≡ code_of.body_code form layout.now (length code.old - exit) list.now ++ code.old) }
{
    let mut at = list.len();
    while at > 0 {
        at -= 1;
        statement(code, layout, form, exit, &list[at])?;
    }
    Ok(())
}
