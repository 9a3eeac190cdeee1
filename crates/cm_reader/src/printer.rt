//! The canonical text of a tree. Each function puts tokens last, with a space behind each of them; `write` takes
//! the last space away.
#![tactic(auto, using(crate::proofs::SpacedLaw::spaced_laws))]

ghost use Rattle.std.specs.Prelude.{◌≡◌, ◌+◌, ◌++◌, ◌∷◌, [], ℕ, true, nat_lt, ◌==◌, ◌↔◌, IsTrue, if◌then◌else◌, pos, IfOk, OnOk};
ghost use Rattle.std.specs.Fmt.{decimal};
ghost use Rattle.cm_syntax.specs.Token.{Token};
ghost use Rattle.cm_syntax.specs.Refusal.{IsSoundTree};
ghost use Rattle.cm_syntax.specs.Canonical as canonical;
ghost use Rattle.cm_syntax.specs.Canonical.{word_token, sign_token, name_token, literal_token};
ghost use Rattle.cm_syntax.specs.declared.expr.Expr.TheVariants as expressions;
ghost use Rattle.cm_syntax.specs.declared.stmt.Target.TheVariants as targets;
ghost use Rattle.cm_syntax.specs.declared.stmt.Stmt.TheVariants as statements;
ghost use Rattle.cm_syntax.specs.declared.token.Keyword.TheVariants as keywords;
ghost use Rattle.cm_syntax.specs.declared.token.Sign.TheVariants as signs;
ghost use Rattle.cm_reader.specs.ReadBack.{ReadsBack};
ghost use Rattle.cm_reader.specs.Spaced.{spaced, comma, block, head, for_head, split_head};

use crate::spelling::{assign_sign, keyword_text, level_of, sign_of, sign_text};
use cm_syntax::{
    Arg, Call, Expr, Function, Item, Keyword, Mark, Name, Sign, Slot, Stmt, Target, Tree,
};
use cm_text::{Bytes, Memory};
use std::alloc::Global;

/// The canonical text of a tree: its tokens in the order of the grammar with one space between two. An index by the
/// literal 0 is written `* p`, a slice parameter `int a [ ]`, an update with its operator, and parentheses stand only
/// where the levels of the operators need them. `Memory` is want of memory.
///
/// The text of a sound tree reads back as the same tree, in all but the offsets and the length. The call takes time in
/// proportion to the text, and calls itself as deep as expressions and statements are nested in the tree.
pub fn write(alloc: Global, tree: &Tree) -> Result<Bytes, Memory>
    ensures text { IfOk result (λ text. text ≡ canonical.canonical tree.now) }
    ensures again { IsSoundTree tree.now → IfOk result (λ text. ReadsBack text tree.now) }
{
    let mut text = Bytes::new(alloc);
    put_functions(&mut text, tree.functions.items())?;
    text.pop();
    Ok(text)
}

/// Puts functions last.
fn put_functions(text: &mut Bytes, functions: &[Function<Name>]) -> Result<(), Memory>
    ensures { OnOk result (text.new ≡ text.old ++ spaced (canonical.functions_text functions.now)) }
{
    for function in functions {
        put_function(text, function)?;
    }
    Ok(())
}

/// Puts a function last.
fn put_function(text: &mut Bytes, function: &Function<Name>) -> Result<(), Memory>
    ensures { OnOk result (text.new ≡ text.old ++ spaced (canonical.function_text function.now)) }
{
    if function.cilk {
        put_word(text, Keyword::Cilk)?;
    }
    put_word(text, return_type(function.gives))?;
    put_name(text, &function.name)?;
    put_sign(text, Sign::ParenOpen)?;
    put_parameters(text, function.parameters.items())?;
    put_sign(text, Sign::ParenClose)?;
    put_block(text, function.body.items())?;
    Ok(())
}

/// The word for what a function returns.
fn return_type(gives: bool) -> Keyword
    ensures { result ≡ if gives then keywords.Int else keywords.Void }
{
    if gives { Keyword::Int } else { Keyword::Void }
}

/// Puts parameters last.
fn put_parameters(text: &mut Bytes, parameters: &[Item<Name>]) -> Result<(), Memory>
    ensures { OnOk result (text.new ≡ text.old ++ spaced (canonical.parameters_text parameters.now)) }
{
    for (index, parameter) in parameters.iter().enumerate() {
        put_comma(text, index)?;
        put_parameter(text, parameter)?;
    }
    Ok(())
}

/// Puts a parameter last.
fn put_parameter(text: &mut Bytes, parameter: &Item<Name>) -> Result<(), Memory>
    ensures { OnOk result (text.new ≡ text.old ++ spaced (word_token keywords.Int ∷ canonical.item_text parameter.now)) }
{
    put_word(text, Keyword::Int)?;
    put_item(text, parameter)?;
    Ok(())
}

// ---- statements

/// Puts statements last, between braces.
#[cycle(statement)]
fn put_block(text: &mut Bytes, body: &[Stmt<Name>]) -> Result<(), Memory>
    ensures { OnOk result (text.new ≡ text.old ++ spaced (block body.now)) }
{
    put_sign(text, Sign::BraceOpen)?;
    for statement in body {
        put_statement(text, statement)?;
    }
    put_sign(text, Sign::BraceClose)?;
    Ok(())
}

/// Puts a statement last.
#[cycle(statement)]
fn put_statement(text: &mut Bytes, statement: &Stmt<Name>) -> Result<(), Memory>
    ensures { OnOk result (text.new ≡ text.old ++ spaced (canonical.statement_text statement.now)) }
{
    put_head(text, statement)?;
    match statement {
        Stmt::If { then, other, .. } => {
            put_statement(text, then.get())?;
            match other {
                None => Ok(()),
                Some(other) => {
                    put_word(text, Keyword::Else)?;
                    put_statement(text, other.get())?;
                    Ok(())
                }
            }
        }
        Stmt::While { body, .. } => put_statement(text, body.get()),
        Stmt::For { body, .. } => put_statement(text, body.get()),
        Stmt::Split { body, .. } => put_block(text, body.items()),
        Stmt::Block(body) => put_block(text, body.items()),
        Stmt::Spawn { target, call, .. } => put_spawn(text, target, call),
        Stmt::Sync { .. } => put_sync(text),
        Stmt::Return { value, .. } => put_return(text, value),
        Stmt::Print(value) => put_print(text, value),
        Stmt::Empty | Stmt::Declare(_) | Stmt::Assign { .. } | Stmt::Call(_) => {
            put_simple(text, statement)?;
            put_sign(text, Sign::Semicolon)?;
            Ok(())
        }
    }
}

/// Puts what stands in front of the bodies or the block of a statement last.
fn put_head(text: &mut Bytes, statement: &Stmt<Name>) -> Result<(), Memory>
    ensures { OnOk result (text.new ≡ text.old ++ spaced (head statement.now)) }
{
    match statement {
        Stmt::If { test, .. } => put_condition(text, Keyword::If, test),
        Stmt::While { test, .. } => put_condition(text, Keyword::While, test),
        Stmt::For {
            first,
            test,
            step,
            ..
        } => put_for_head(text, first.get(), test, step.get()),
        Stmt::Split {
            whole,
            place,
            left,
            right,
            ..
        } => put_split_head(text, whole, place, left, right),
        _ => Ok(()),
    }
}

/// Puts a word last, and an expression between parentheses.
fn put_condition(text: &mut Bytes, keyword: Keyword, test: &Expr<Name>) -> Result<(), Memory>
    ensures { OnOk result (text.new ≡ text.old ++ spaced (canonical.condition_text keyword test.now)) }
{
    put_word(text, keyword)?;
    put_group(text, test)?;
    Ok(())
}

/// Puts what stands in front of the body of a `for` last.
fn put_for_head(
    text: &mut Bytes,
    first: &Stmt<Name>,
    test: &Option<Expr<Name>>,
    step: &Stmt<Name>,
) -> Result<(), Memory>
    ensures { OnOk result (text.new ≡ text.old ++ spaced (for_head first.now test.now step.now)) }
{
    put_word(text, Keyword::For)?;
    put_sign(text, Sign::ParenOpen)?;
    put_simple(text, first)?;
    put_sign(text, Sign::Semicolon)?;
    put_optional(text, test)?;
    put_sign(text, Sign::Semicolon)?;
    put_simple(text, step)?;
    put_sign(text, Sign::ParenClose)?;
    Ok(())
}

/// Puts what stands in front of the block of a `split` last.
fn put_split_head(
    text: &mut Bytes,
    whole: &Mark<Name>,
    place: &Expr<Name>,
    left: &Mark<Name>,
    right: &Mark<Name>,
) -> Result<(), Memory>
    ensures { OnOk result (text.new ≡ text.old ++ spaced (split_head whole.now place.now left.now right.now)) }
{
    put_word(text, Keyword::Split)?;
    put_name(text, whole)?;
    put_word(text, Keyword::At)?;
    put_expression(text, place)?;
    put_word(text, Keyword::As)?;
    put_name(text, left)?;
    put_sign(text, Sign::Comma)?;
    put_name(text, right)?;
    Ok(())
}

/// Puts a spawn last.
fn put_spawn(
    text: &mut Bytes,
    destination: &Option<Mark<Name>>,
    call: &Call<Name>,
) -> Result<(), Memory>
    ensures { (at : ℕ) → OnOk result (text.new ≡ text.old ++ spaced (canonical.statement_text (statements.Spawn at destination.now call.now))) }
{
    if let Some(name) = destination {
        put_name(text, name)?;
        put_sign(text, Sign::Assign)?;
    }
    put_word(text, Keyword::Spawn)?;
    put_call(text, call)?;
    put_sign(text, Sign::Semicolon)?;
    Ok(())
}

/// Puts a `sync` last.
fn put_sync(text: &mut Bytes) -> Result<(), Memory>
    ensures { (at : ℕ) → OnOk result (text.new ≡ text.old ++ spaced (canonical.statement_text (statements.Sync at))) }
{
    put_word(text, Keyword::Sync)?;
    put_sign(text, Sign::Semicolon)?;
    Ok(())
}

/// Puts a `return` last.
fn put_return(text: &mut Bytes, value: &Option<Expr<Name>>) -> Result<(), Memory>
    ensures { (at : ℕ) → OnOk result (text.new ≡ text.old ++ spaced (canonical.statement_text (statements.Return at value.now))) }
{
    put_word(text, Keyword::Return)?;
    put_optional(text, value)?;
    put_sign(text, Sign::Semicolon)?;
    Ok(())
}

/// Puts a `print` last.
fn put_print(text: &mut Bytes, value: &Expr<Name>) -> Result<(), Memory>
    ensures { OnOk result (text.new ≡ text.old ++ spaced (canonical.statement_text (statements.Print value.now))) }
{
    put_word(text, Keyword::Print)?;
    put_group(text, value)?;
    put_sign(text, Sign::Semicolon)?;
    Ok(())
}

// ---- simple statements

/// Puts a declaration, an assignment or a call last, without its semicolon, and nothing for another statement.
fn put_simple(text: &mut Bytes, statement: &Stmt<Name>) -> Result<(), Memory>
    ensures { OnOk result (text.new ≡ text.old ++ spaced (canonical.simple_text statement.now)) }
{
    match statement {
        Stmt::Declare(items) => {
            put_word(text, Keyword::Int)?;
            put_items(text, items.items())?;
            Ok(())
        }
        Stmt::Assign { target, op, value } => {
            put_target(text, target)?;
            put_sign(text, assign_sign(*op))?;
            put_expression(text, value)?;
            Ok(())
        }
        Stmt::Call(call) => put_call(text, call),
        _ => Ok(()),
    }
}

/// Puts declared variables last.
fn put_items(text: &mut Bytes, items: &[Item<Name>]) -> Result<(), Memory>
    ensures { OnOk result (text.new ≡ text.old ++ spaced (canonical.items_text items.now)) }
{
    for (index, item) in items.iter().enumerate() {
        put_comma(text, index)?;
        put_item(text, item)?;
    }
    Ok(())
}

/// Puts a declared variable or a parameter last.
fn put_item(text: &mut Bytes, item: &Item<Name>) -> Result<(), Memory>
    ensures { OnOk result (text.new ≡ text.old ++ spaced (canonical.item_text item.now)) }
{
    put_name(text, &item.name)?;
    put_size(text, item.slot)?;
    if let Some(value) = &item.first {
        put_sign(text, Sign::Assign)?;
        put_expression(text, value)?;
    }
    Ok(())
}

/// Puts the brackets of an array or a slice last.
fn put_size(text: &mut Bytes, slot: Slot) -> Result<(), Memory>
    ensures { OnOk result (text.new ≡ text.old ++ spaced (canonical.size_text slot)) }
{
    match slot {
        Slot::Scalar => Ok(()),
        Slot::Array(words) => {
            put_sign(text, Sign::BracketOpen)?;
            put_number(text, words)?;
            put_sign(text, Sign::BracketClose)?;
            Ok(())
        }
        Slot::Slice => {
            put_sign(text, Sign::BracketOpen)?;
            put_sign(text, Sign::BracketClose)?;
            Ok(())
        }
    }
}

/// Puts what an assignment writes last.
fn put_target(text: &mut Bytes, target: &Target<Name>) -> Result<(), Memory>
    ensures { OnOk result (text.new ≡ text.old ++ spaced (canonical.target_text target.now)) }
{
    match target {
        Target::Scalar(name) => put_name(text, name),
        Target::Index(name, index) => put_element(text, name, index),
    }
}

// ---- expressions

/// Puts an expression last, or nothing.
fn put_optional(text: &mut Bytes, value: &Option<Expr<Name>>) -> Result<(), Memory>
    ensures { OnOk result (text.new ≡ text.old ++ spaced (canonical.optional_text value.now)) }
{
    match value {
        None => Ok(()),
        Some(value) => put_expression(text, value),
    }
}

/// Puts an expression last.
#[cycle(expression)]
fn put_expression(text: &mut Bytes, value: &Expr<Name>) -> Result<(), Memory>
    ensures { OnOk result (text.new ≡ text.old ++ spaced (canonical.expression_text value.now)) }
{
    match value {
        Expr::Number(number) => put_literal(text, *number),
        Expr::Scalar(name) => put_name(text, name),
        Expr::Index(name, index) => put_element(text, name, index.get()),
        Expr::Len(name) => put_len(text, name),
        Expr::Input(index) => {
            put_word(text, Keyword::Input)?;
            put_group(text, index.get())?;
            Ok(())
        }
        Expr::Inputs => put_inputs(text),
        Expr::Unary(op, operand) => {
            put_sign(text, sign_of(*op))?;
            put_operand(text, operand.get(), level_of(*op))?;
            Ok(())
        }
        Expr::Binary(op, left, right) => {
            put_operand(text, left.get(), level_of(*op))?;
            put_sign(text, sign_of(*op))?;
            put_operand(text, right.get(), level_of(*op) + 1)?;
            Ok(())
        }
        Expr::Call(call) => put_call(text, call),
    }
}

/// Puts an operand last, between parentheses where its level is below this one.
#[cycle(expression)]
fn put_operand(text: &mut Bytes, operand: &Expr<Name>, level: u32) -> Result<(), Memory>
    ensures { OnOk result (text.new ≡ text.old ++ spaced (canonical.parenthesize
        (nat_lt (canonical.own_level operand.now) level) (canonical.expression_text operand.now))) }
{
    if own_level(operand) < level {
        put_group(text, operand)
    } else {
        put_expression(text, operand)
    }
}

/// Puts an expression last, between parentheses.
#[cycle(expression)]
fn put_group(text: &mut Bytes, value: &Expr<Name>) -> Result<(), Memory>
    ensures { OnOk result (text.new ≡ text.old ++ spaced (canonical.parenthesize true (canonical.expression_text value.now))) }
{
    put_sign(text, Sign::ParenOpen)?;
    put_expression(text, value)?;
    put_sign(text, Sign::ParenClose)?;
    Ok(())
}

/// Puts an element last, `* p` where the index is the literal 0.
#[cycle(expression)]
fn put_element(text: &mut Bytes, name: &Mark<Name>, index: &Expr<Name>) -> Result<(), Memory>
    ensures { OnOk result (text.new ≡ text.old ++ spaced (canonical.target_text (targets.Index name.now index.now))) }
{
    if is_zero(index) {
        put_sign(text, Sign::Star)?;
        put_name(text, name)?;
        return Ok(());
    }
    put_name(text, name)?;
    put_sign(text, Sign::BracketOpen)?;
    put_expression(text, index)?;
    put_sign(text, Sign::BracketClose)?;
    Ok(())
}

/// Puts a call last.
#[cycle(expression)]
fn put_call(text: &mut Bytes, call: &Call<Name>) -> Result<(), Memory>
    ensures { OnOk result (text.new ≡ text.old ++ spaced (canonical.expression_text (expressions.Call call.now))) }
{
    put_name(text, &call.function)?;
    put_sign(text, Sign::ParenOpen)?;
    for (index, argument) in call.arguments.items().iter().enumerate() {
        put_comma(text, index)?;
        put_argument(text, argument)?;
    }
    put_sign(text, Sign::ParenClose)?;
    Ok(())
}

/// Puts an argument last.
#[cycle(expression)]
fn put_argument(text: &mut Bytes, argument: &Arg<Name>) -> Result<(), Memory>
    ensures { OnOk result (text.new ≡ text.old ++ spaced (canonical.argument_text argument.now)) }
{
    match argument {
        Arg::Value(value) => put_expression(text, value),
        Arg::Slice(name) => put_name(text, name),
        Arg::Address(name) => {
            put_sign(text, Sign::Ampersand)?;
            put_name(text, name)?;
            Ok(())
        }
    }
}

/// Puts the length of an array or a slice last.
fn put_len(text: &mut Bytes, name: &Mark<Name>) -> Result<(), Memory>
    ensures { OnOk result (text.new ≡ text.old ++ spaced (canonical.expression_text (expressions.Len name.now))) }
{
    put_word(text, Keyword::Len)?;
    put_sign(text, Sign::ParenOpen)?;
    put_name(text, name)?;
    put_sign(text, Sign::ParenClose)?;
    Ok(())
}

/// Puts the count of the input's numbers last.
fn put_inputs(text: &mut Bytes) -> Result<(), Memory>
    ensures { OnOk result (text.new ≡ text.old ++ spaced (canonical.expression_text expressions.Inputs)) }
{
    put_word(text, Keyword::Inputs)?;
    put_sign(text, Sign::ParenOpen)?;
    put_sign(text, Sign::ParenClose)?;
    Ok(())
}

/// The level of an expression's outermost operator, or that of what stands by itself.
fn own_level(value: &Expr<Name>) -> u32
    ensures { result ≡ canonical.own_level value.now }
{
    match value {
        Expr::Unary(op, _) => level_of(*op),
        Expr::Binary(op, _, _) => level_of(*op),
        _ => 12,
    }
}

/// Whether an expression is the literal 0.
fn is_zero(value: &Expr<Name>) -> bool
    ensures { IsTrue result ↔ (value.now ≡ expressions.Number (pos 0)) }
{
    match value {
        Expr::Number(number) => *number == 0,
        _ => false,
    }
}

// ---- tokens

/// Puts a comma last, unless what follows it is the first of a list.
fn put_comma(text: &mut Bytes, index: usize) -> Result<(), Memory>
    ensures { OnOk result (text.new ≡ text.old ++ spaced (comma (index == 0))) }
{
    if index == 0 {
        return Ok(());
    }
    put_sign(text, Sign::Comma)
}

/// Puts a word last.
fn put_word(text: &mut Bytes, keyword: Keyword) -> Result<(), Memory>
    ensures { OnOk result (text.new ≡ text.old ++ spaced (word_token keyword ∷ [])) }
{
    put_bytes(text, keyword_text(keyword))
}

/// Puts a sign last.
fn put_sign(text: &mut Bytes, sign: Sign) -> Result<(), Memory>
    ensures { OnOk result (text.new ≡ text.old ++ spaced (sign_token sign ∷ [])) }
{
    put_bytes(text, sign_text(sign))
}

/// Puts a name last.
fn put_name(text: &mut Bytes, mark: &Mark<Name>) -> Result<(), Memory>
    ensures { OnOk result (text.new ≡ text.old ++ spaced (name_token mark.now ∷ [])) }
{
    put_bytes(text, mark.name.bytes())
}

/// Puts a literal last. No tree of a source has a negative one, of which nothing is written.
fn put_literal(text: &mut Bytes, literal: i32) -> Result<(), Memory>
    ensures { OnOk result (text.new ≡ text.old ++ spaced (literal_token literal ∷ [])) }
{
    match u32::try_from(literal) {
        Ok(number) => put_number(text, number),
        Err(_) => put_bytes(text, b""),
    }
}

/// Puts a number last.
fn put_number(text: &mut Bytes, number: u32) -> Result<(), Memory>
    ensures { OnOk result (text.new ≡ text.old ++ spaced (Token.number number ∷ [])) }
{
    put_digits(text, number)?;
    text.push(b' ')?;
    Ok(())
}

/// Puts the decimal digits of a number last.
#[tactic(auto, using(std::proofs::lemmas::Fmt::decimal_digit, std::proofs::lemmas::Fmt::decimal_step, crate::proofs::SpacedLaw::spaced_laws))]
fn put_digits(text: &mut Bytes, number: u32) -> Result<(), Memory>
    ensures { OnOk result (text.new ≡ text.old ++ decimal number) }
{
    if number < 10 {
        text.push(b'0' + number as u8)?;
        return Ok(());
    }
    put_digits(text, number / 10)?;
    text.push(b'0' + (number % 10) as u8)?;
    Ok(())
}

/// Puts a token of these bytes last, with a space behind it.
fn put_bytes(text: &mut Bytes, bytes: &[u8]) -> Result<(), Memory>
    ensures { OnOk result (text.new ≡ text.old ++ (bytes.now ++ 32 ∷ [])) }
{
    text.append(bytes)?;
    text.push(b' ')?;
    Ok(())
}
