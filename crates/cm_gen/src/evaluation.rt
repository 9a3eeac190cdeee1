//! The code of expressions, put down before the code that stands behind it.
#![tactic(auto, using(crate::proofs::parts::CodeLaw::behind))]

ghost use Rattle.std.specs.Prelude.{◌≡◌, ◌+◌, ◌≤◌, ◌<◌, ◌++◌, OnOk};
ghost use Rattle.cm_syntax.specs.Frame.{argument_words as words_of};
ghost use Rattle.cm_syntax.specs.Limit.{max_frame_words};
ghost use Rattle.cm_gen.specs.Expression.{expression_code, both_code, either_code, right_code};
ghost use Rattle.cm_gen.specs.Fits as fits;

use crate::builder::CodeBuilder;
use crate::layout::Layout;
use crate::straight::{
    apply, element, hand_over, keep_scalar, keep_slice, keep_word, load_length, load_number,
    load_slot, prefix, service, skip_if, skip_unless, take_back, truth,
};
use cm_isa::convention::{RESULT, VALUE};
use cm_syntax::{Arg, Expr, Op};
use cm_text::Memory;

/// x5 takes the expression's value; `depth` temporaries are in use before.
#[cycle(expression)]
pub(crate) fn expression(
    code: &mut CodeBuilder,
    layout: &Layout,
    value: &Expr<u32>,
    depth: u32,
) -> Result<(), Memory>
    requires { fits.Fits value.now depth }
    ensures { OnOk result (code.new ≡ expression_code layout.now value.now depth ++ code.old) }
{
    match value {
        Expr::Number(number) => load_number(code, VALUE, *number),
        Expr::Scalar(name) => load_slot(code, VALUE, layout.offset(name.name)),
        Expr::Index(name, index) => {
            element(code, layout, name.name)?;
            expression(code, layout, index.get(), depth)
        }
        Expr::Len(name) => load_length(code, layout, name.name),
        Expr::Input(index) => {
            service(code, 2)?;
            expression(code, layout, index.get(), depth)
        }
        Expr::Inputs => service(code, 3),
        Expr::Unary(op, operand) => {
            prefix(code, *op)?;
            expression(code, layout, operand.get(), depth)
        }
        Expr::Binary(op, left, right) => {
            behind_left(code, layout, *op, right.get(), depth)?;
            expression(code, layout, left.get(), depth)
        }
        Expr::Call(call) => {
            take_back(code)?;
            code.call(call.function.name)?;
            arguments(code, layout, call.arguments.items(), depth, 0)
        }
    }
}

/// What stands behind the left operand of an operator.
#[cycle(expression)]
fn behind_left(
    code: &mut CodeBuilder,
    layout: &Layout,
    op: Op,
    right: &Expr<u32>,
    depth: u32,
) -> Result<(), Memory>
    requires { fits.RightFits op right.now depth }
    ensures { OnOk result (code.new ≡ fits.behind_left layout.now op right.now depth ++ code.old) }
{
    match op {
        Op::Both => both(code, layout, right, depth),
        Op::Either => either(code, layout, right, depth),
        _ => right_operand(code, layout, op, right, depth),
    }
}

/// Behind the left operand of `&&`: the right one isn't evaluated where the left one is 0.
#[cycle(expression)]
fn both(
    code: &mut CodeBuilder,
    layout: &Layout,
    right: &Expr<u32>,
    depth: u32,
) -> Result<(), Memory>
    requires { fits.Fits right.now depth }
    ensures { OnOk result (code.new ≡ both_code layout.now right.now depth ++ code.old) }
{
    truth(code)?;
    let behind = code.len();
    expression(code, layout, right, depth)?;
    let words = code.len() - behind;
    skip_unless(code, words)
}

/// Behind the left operand of `||`: the right one isn't evaluated where the left one isn't 0.
#[cycle(expression)]
fn either(
    code: &mut CodeBuilder,
    layout: &Layout,
    right: &Expr<u32>,
    depth: u32,
) -> Result<(), Memory>
    requires { fits.Fits right.now depth }
    ensures { OnOk result (code.new ≡ either_code layout.now right.now depth ++ code.old) }
{
    truth(code)?;
    let behind = code.len();
    expression(code, layout, right, depth)?;
    let words = code.len() - behind;
    skip_if(code, words)
}

/// Behind the left operand of another operator: it is kept while the right one is evaluated.
#[cycle(expression)]
fn right_operand(
    code: &mut CodeBuilder,
    layout: &Layout,
    op: Op,
    right: &Expr<u32>,
    depth: u32,
) -> Result<(), Memory>
    requires room { depth < max_frame_words }
    requires operand { fits.Fits right.now (depth + 1) }
    ensures { OnOk result (code.new ≡ right_code layout.now op right.now depth ++ code.old) }
{
    apply(code, layout, op, depth)?;
    expression(code, layout, right, depth + 1)?;
    keep_word(code, layout, depth)
}

/// The arguments of a call that are still to come, where those before them have so many words, kept from temporary
/// `depth` on; then all words go to the registers.
#[cycle(expression)]
pub(crate) fn arguments(
    code: &mut CodeBuilder,
    layout: &Layout,
    list: &[Arg<u32>],
    depth: u32,
    words: u32,
) -> Result<(), Memory>
    requires { fits.ListFits list.now depth words }
    ensures { OnOk result (code.new ≡ fits.list_code layout.now list.now depth words ++ code.old) }
{
    match list {
        [] => hand_over(code, layout, depth, RESULT, words as u8),
        [first, more @ ..] => {
            arguments(code, layout, more, depth, words + argument_words(first))?;
            argument(code, layout, first, depth + words)
        }
    }
}

/// An argument, kept in a temporary.
#[cycle(expression)]
fn argument(
    code: &mut CodeBuilder,
    layout: &Layout,
    value: &Arg<u32>,
    number: u32,
) -> Result<(), Memory>
    requires { fits.ArgumentFits value.now number }
    ensures { OnOk result (code.new ≡ fits.argument_code layout.now value.now number ++ code.old) }
{
    match value {
        Arg::Value(value) => {
            keep_word(code, layout, number)?;
            expression(code, layout, value, number)
        }
        Arg::Slice(name) => keep_slice(code, layout, name.name, number),
        Arg::Address(name) => keep_scalar(code, layout, name.name, number),
    }
}

/// The words that an argument takes: a value one, a slice its address and its length.
fn argument_words(argument: &Arg<u32>) -> u32
    ensures { result ≡ words_of argument.now }
{
    match argument {
        Arg::Value(_) => 1,
        Arg::Slice(_) => 2,
        Arg::Address(_) => 2,
    }
}
