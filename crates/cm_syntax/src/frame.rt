//! The words of a function's frame: two that are saved, its slots, and its temporaries.
//!
//! Temporaries are counted up to one more than the words of the greatest frame, so that no sum wraps.
ghost use Rattle.std.specs.Prelude.{◌≡◌, ◌+◌, ◌*◌, ◌<◌, ◌≤◌, if◌then◌else◌, MatchOption};
ghost use Rattle.cm_syntax.specs.Frame as frame;
ghost use Rattle.cm_syntax.specs.Frame.{capped};
ghost use Rattle.cm_syntax.specs.Limit.{max_frame_words};
ghost use Rattle.cm_syntax.specs.declared.expr.Expr.TheVariants as expression;

use crate::expr::{Arg, Call, Expr, Op};
use crate::stmt::{Extent, Function, Item, Slot, Stmt, Target};

/// The words of the greatest frame.
const MAX_FRAME_WORDS: u32 = 32_768;

/// Where a count of temporaries stops.
const TOO_MANY_WORDS: u32 = MAX_FRAME_WORDS + 1;

/// The words of a function's frame: two for the return address and the caller's frame pointer, then its
/// slots, then its temporaries, rounded up to a multiple of 4. They have to be within the limit of a frame,
/// 32,768, as those of every function of a sound program are (`frames_of_sound_programs`). It takes no
/// memory.
pub fn frame_words(function: &Function<u32>) -> u32
    requires { frame.frame_words function.now ≤ max_frame_words }
    ensures { result ≡ frame.frame_words function.now }
{
    match checked_frame_words(function.slots.items(), function.body.items()) {
        Some(words) => words,
        None => unreachable!(),
    }
}

/// The bytes of a function's frame, 4 for each of its words, under the same condition. It takes no memory.
pub fn frame_bytes(function: &Function<u32>) -> u32
    requires { frame.frame_words function.now ≤ max_frame_words }
    ensures { result ≡ 4 * frame.frame_words function.now }
{
    4 * frame_words(function)
}

/// The words of a frame with these slots and this body, counted as for `frame_words`. `None` comes exactly
/// where they are more than the limit of a frame, 32,768. It takes no memory.
pub fn checked_frame_words<N>(slots: &[Slot], body: &[Stmt<N>]) -> Option<u32>
    ensures { let words = frame.rounded_frame (frame.slots_words slots.now) (frame.body_temporaries body.now) in
        MatchOption result (max_frame_words < words) (λ counted. (counted ≡ words) × (words ≤ max_frame_words)) }
{
    let slots = checked_slots_words(slots, MAX_FRAME_WORDS)?;
    let temporaries = statements_temporaries(body);
    let words = (2 + slots + temporaries + 3) / 4 * 4;
    if words <= MAX_FRAME_WORDS {
        Some(words)
    } else {
        None
    }
}

/// The words of all slots: a scalar has one, an array as many as its length, a slice two. `None` comes exactly
/// where they are more than `limit`. It takes no memory.
pub fn checked_slots_words(slots: &[Slot], limit: u32) -> Option<u32>
    ensures { let words = frame.slots_words slots.now in
        MatchOption result (limit < words) (λ counted. (counted ≡ words) × (words ≤ limit)) }
{
    let mut words: u32 = 0;
    for slot in slots {
        words = words.checked_add(slot_words(*slot))?;
    }
    if words <= limit { Some(words) } else { None }
}

/// The words of a slot. It takes no memory.
pub fn slot_words(slot: Slot) -> u32
    ensures { result ≡ frame.slot_words slot }
{
    match slot.extent() {
        Extent::Word => 1,
        Extent::Words(words) => words,
        Extent::Reference => 2,
    }
}

/// The greatest number of temporaries of the statements, one after another.
#[cycle(statement)]
fn statements_temporaries<N>(statements: &[Stmt<N>]) -> u32
    ensures { result ≡ capped (frame.body_temporaries statements.now) }
{
    let mut most: u32 = 0;
    for statement in statements {
        most = most.max(statement_temporaries(statement));
    }
    most
}

/// The greatest number of temporaries of the expressions of a statement, each of which begins with none
/// in use.
#[cycle(statement)]
fn statement_temporaries<N>(statement: &Stmt<N>) -> u32
    ensures { result ≡ capped (frame.statement_temporaries statement.now) }
{
    match statement {
        Stmt::Empty => 0,
        Stmt::Declare(items) => items_temporaries(items.items()),
        Stmt::Assign { target, value, .. } => assignment_temporaries(target, value),
        Stmt::Call(call) => call_temporaries(call, 0),
        Stmt::Spawn { call, .. } => call_temporaries(call, 0),
        Stmt::Sync { .. } => 0,
        Stmt::If { test, then, other } => {
            let most = temporaries(test, 0).max(statement_temporaries(then.get()));
            match other {
                None => most,
                Some(other) => most.max(statement_temporaries(other.get())),
            }
        }
        Stmt::While { test, body } => temporaries(test, 0).max(statement_temporaries(body.get())),
        Stmt::For {
            first,
            test,
            step,
            body,
        } => {
            let before = statement_temporaries(first.get()).max(optional_temporaries(test));
            let turn = statement_temporaries(step.get()).max(statement_temporaries(body.get()));
            before.max(turn)
        }
        Stmt::Split { place, body, .. } => {
            let inside = statements_temporaries(body.items());
            temporaries(place, 0).max(inside)
        }
        Stmt::Return { value, .. } => optional_temporaries(value),
        Stmt::Print(value) => temporaries(value, 0),
        Stmt::Block(body) => statements_temporaries(body.items()),
    }
}

/// The greatest number of temporaries of the values that declared variables begin with.
fn items_temporaries<N>(items: &[Item<N>]) -> u32
    ensures { result ≡ capped (frame.items_temporaries items.now) }
{
    let mut most: u32 = 0;
    for item in items {
        most = most.max(optional_temporaries(&item.first));
    }
    most
}

/// The temporaries of an assignment. The value of an element begins with the element's address in a
/// temporary.
fn assignment_temporaries<N>(target: &Target<N>, value: &Expr<N>) -> u32
    ensures { result ≡ capped (frame.assignment_temporaries target.now value.now) }
{
    match target {
        Target::Scalar(_) => temporaries(value, 0),
        Target::Index(_, index) => temporaries(index, 0).max(temporaries(value, 1)),
    }
}

/// The temporaries of an expression that may not be there, which begins with none in use.
fn optional_temporaries<N>(value: &Option<Expr<N>>) -> u32
    ensures { result ≡ capped (frame.optional_temporaries value.now) }
{
    match value {
        None => 0,
        Some(value) => temporaries(value, 0),
    }
}

/// The temporaries that are in use, at most, while an expression is evaluated of which `depth` are in
/// use before.
#[cycle(expression)]
fn temporaries<N>(value: &Expr<N>, depth: u32) -> u32
    requires { depth ≤ max_frame_words + 1 }
    ensures { result ≡ capped (frame.temporaries value.now depth) }
{
    match value {
        Expr::Number(_) => depth,
        Expr::Scalar(_) => depth,
        Expr::Index(_, index) => temporaries(index.get(), depth),
        Expr::Len(_) => depth,
        Expr::Input(index) => temporaries(index.get(), depth),
        Expr::Inputs => depth,
        Expr::Unary(_, operand) => temporaries(operand.get(), depth),
        Expr::Binary(op, left, right) => {
            let first = temporaries(left.get(), depth);
            first.max(temporaries(right.get(), right_depth(*op, depth)))
        }
        Expr::Call(call) => call_temporaries(call, depth),
    }
}

/// The temporaries in use before the right operand: one more than before the left one, which is kept,
/// unless the operator stops early.
fn right_depth(op: Op, depth: u32) -> u32
    requires { depth ≤ max_frame_words + 1 }
    ensures { result ≡ capped (if frame.is_short_circuit op then depth else depth + 1) }
{
    match op {
        Op::Both | Op::Either => depth,
        _ => (depth + 1).min(TOO_MANY_WORDS),
    }
}

/// The same as `temporaries` of a call, whose arguments are kept from temporary `depth` on.
#[cycle(expression)]
fn call_temporaries<N>(call: &Call<N>, depth: u32) -> u32
    requires { depth ≤ max_frame_words + 1 }
    ensures { result ≡ capped (frame.temporaries (expression.Call call.now) depth) }
{
    let mut used = depth;
    let mut most = depth;
    for argument in call.arguments.items() {
        most = most.max(argument_temporaries(argument, used));
        used = (used + argument_words(argument)).min(TOO_MANY_WORDS);
    }
    most.max(used)
}

/// The same of an argument, with `depth` in use before it.
#[cycle(expression)]
fn argument_temporaries<N>(argument: &Arg<N>, depth: u32) -> u32
    requires { depth ≤ max_frame_words + 1 }
    ensures { result ≡ capped (frame.argument_temporaries argument.now depth) }
{
    match argument {
        Arg::Value(value) => temporaries(value, depth),
        Arg::Slice(_) => depth,
        Arg::Address(_) => depth,
    }
}

/// The words that an argument takes: a value one, a slice its address and its length.
fn argument_words<N>(argument: &Arg<N>) -> u32
    ensures words { result ≡ frame.argument_words argument.now }
    ensures few { result ≤ 2 }
{
    match argument {
        Arg::Value(_) => 1,
        Arg::Slice(_) => 2,
        Arg::Address(_) => 2,
    }
}
