//! How declarations, assignments and calls are read.
ghost use Rattle.std.specs.Prelude.{◌≡◌, ◌≤◌, ◌<◌, [], IfOk, IfErr, length};
ghost use Rattle.cm_syntax.specs.Parser.{State, declarator, call, pointee, is_within};
ghost use Rattle.cm_syntax.specs.Parser as machine;
ghost use Rattle.cm_syntax.specs.Yield.{Quantity};
ghost use Rattle.cm_reader.specs.Read.{Reads, Refuses, ReadsSimple, RefusesSimple, ReadsWriting, RefusesWriting, item_next, statement_of};
ghost use Rattle.cm_reader.specs.Read as read;

use crate::cursor::Reader;
use crate::refusal::ReadRefusal;
use crate::start::{is_next, next_assignment, next_number};
use crate::token::LocatedToken;
use cm_syntax::{Call, Expr, Item, Mark, Name, Op, Sign, Slot, Stmt, Target};
use cm_text::List;

/// The most words of an array.
const MAX_ARRAY_WORDS: u32 = 16384;

// ---- declarations

impl Reader {
    /// The declarators of a declaration, behind `int`.
    pub(crate) fn declaration<'a>(
        self,
        tokens: &'a [LocatedToken],
    ) -> Result<(List<Item<Name>>, &'a [LocatedToken]), ReadRefusal>
        ensures shorter { IfOk result (λ read. length read.1.now < length tokens.now) }
        ensures ok { IfOk result (λ read. Reads self.length (declarator []) tokens.now read.0 read.1.now) }
        ensures err { IfErr result (Refuses self.length (declarator []) tokens.now) }
    {
        let mut items = List::new(self.alloc);
        let (first, mut rest) = self.item(tokens)?;
        items.push(first)?;
        while is_next(rest, Sign::Comma) {
            let behind = self.accept(rest, true)?;
            let (more, end) = self.item(behind)?;
            items.push(more)?;
            rest = end;
        }
        Ok((items, rest))
    }

    /// A declarator.
    fn item<'a>(
        self,
        tokens: &'a [LocatedToken],
    ) -> Result<(Item<Name>, &'a [LocatedToken]), ReadRefusal>
        ensures shorter { IfOk result (λ read. length read.1.now < length tokens.now) }
        ensures ok { IfOk result (λ read. Reads self.length item_next tokens.now read.0 read.1.now) }
        ensures err { IfErr result (Refuses self.length item_next tokens.now) }
    {
        let (name, rest) = self.name(tokens)?;
        let (item, rest) = self.item_of(name, rest)?;
        Ok((item, rest))
    }

    /// What follows the name of a declarator: a value, the words of an array, or nothing.
    fn item_of<'a>(
        self,
        name: Mark<Name>,
        tokens: &'a [LocatedToken],
    ) -> Result<(Item<Name>, &'a [LocatedToken]), ReadRefusal>
        ensures shorter { IfOk result (λ read. length read.1.now ≤ length tokens.now) }
        ensures ok { IfOk result (λ read. Reads self.length (State.item_name name) tokens.now read.0 read.1.now) }
        ensures err { IfErr result (Refuses self.length (State.item_name name) tokens.now) }
    {
        if is_next(tokens, Sign::Assign) {
            let rest = self.accept(tokens, true)?;
            let (value, rest) = self.value(rest)?;
            let first = Some(value);
            Ok((
                Item {
                    name,
                    slot: Slot::Scalar,
                    first,
                },
                rest,
            ))
        } else if is_next(tokens, Sign::BracketOpen) {
            let rest = self.accept(tokens, true)?;
            let (words, rest) = self.array_words(rest)?;
            let rest = self.sign(rest, Sign::BracketClose)?;
            Ok((
                Item {
                    name,
                    slot: Slot::Array(words),
                    first: None,
                },
                rest,
            ))
        } else {
            Ok((
                Item {
                    name,
                    slot: Slot::Scalar,
                    first: None,
                },
                tokens,
            ))
        }
    }

    /// The words of an array.
    fn array_words<'a>(
        self,
        tokens: &'a [LocatedToken],
    ) -> Result<(u32, &'a [LocatedToken]), ReadRefusal>
        ensures shorter { IfOk result (λ read. length read.1.now < length tokens.now) }
        ensures ok { IfOk result (λ read. Reads self.length State.array_words tokens.now read.0 read.1.now) }
        ensures err { IfErr result (Refuses self.length State.array_words tokens.now) }
    {
        let Some(words) = next_number(tokens) else {
            return Err(self.refuse(tokens));
        };
        let rest = self.accept(tokens, is_array_size(words))?;
        Ok((words, rest))
    }
}

/// Whether an array may have so many words.
fn is_array_size(words: u32) -> bool
    ensures { result ≡ is_within (Quantity.words words) }
{
    0 < words && words <= MAX_ARRAY_WORDS
}

// ---- assignments and calls

/// An assignment or a call.
#[derive(Debug, Drop)]
pub enum Simple {
    /// An assignment.
    Assign {
        /// What is written.
        target: Target<Name>,
        /// The binary operator of an update.
        op: Option<Op>,
        /// The value, or the operator's right operand.
        value: Expr<Name>,
    },
    /// A call.
    Call(Call<Name>),
}

/// The statement that an assignment or a call is.
pub(crate) fn statement_of(simple: Simple) -> Stmt<Name>
    ensures { result ≡ read.statement_of simple }
{
    match simple {
        Simple::Assign { target, op, value } => Stmt::Assign { target, op, value },
        Simple::Call(call) => Stmt::Call(call),
    }
}

impl Reader {
    /// An assignment or a call. What is counted at its first token is within its limit or not.
    pub(crate) fn simple<'a>(
        self,
        tokens: &'a [LocatedToken],
        fits: bool,
    ) -> Result<(Simple, &'a [LocatedToken]), ReadRefusal>
        ensures shorter { IfOk result (λ read. length read.1.now < length tokens.now) }
        ensures ok { IfOk result (λ read. ReadsSimple self.length fits tokens.now (statement_of read.0) read.1.now) }
        ensures err { IfErr result (RefusesSimple self.length fits tokens.now) }
    {
        if is_next(tokens, Sign::Star) {
            let rest = self.accept(tokens, fits)?;
            let (target, rest) = self.pointee(rest)?;
            let (assignment, rest) = self.writing(target, rest)?;
            Ok((assignment, rest))
        } else if is_next(tokens, Sign::PlusPlus) {
            let rest = self.accept(tokens, fits)?;
            let (target, rest) = self.target(rest)?;
            Ok((count_on(true, target), rest))
        } else if is_next(tokens, Sign::MinusMinus) {
            let rest = self.accept(tokens, fits)?;
            let (target, rest) = self.target(rest)?;
            Ok((count_on(false, target), rest))
        } else {
            let (name, rest) = self.counted_name(tokens, fits)?;
            let (simple, rest) = self.simple_of(name, rest)?;
            Ok((simple, rest))
        }
    }

    /// What follows the name that begins an assignment or a call.
    pub(crate) fn simple_of<'a>(
        self,
        name: Mark<Name>,
        tokens: &'a [LocatedToken],
    ) -> Result<(Simple, &'a [LocatedToken]), ReadRefusal>
        ensures shorter { IfOk result (λ read. length read.1.now < length tokens.now) }
        ensures ok { IfOk result (λ read. Reads self.length (State.simple_name name) tokens.now (statement_of read.0) read.1.now) }
        ensures err { IfErr result (Refuses self.length (State.simple_name name) tokens.now) }
    {
        if is_next(tokens, Sign::BracketOpen) {
            let rest = self.accept(tokens, true)?;
            let (place, rest) = self.index(rest)?;
            let (assignment, rest) = self.writing(Target::Index(name, place), rest)?;
            Ok((assignment, rest))
        } else if is_next(tokens, Sign::ParenOpen) {
            let rest = self.accept(tokens, true)?;
            let (call, rest) = self.call_of(name, rest)?;
            Ok((Simple::Call(call), rest))
        } else {
            let (assignment, rest) = self.writing(Target::Scalar(name), tokens)?;
            Ok((assignment, rest))
        }
    }

    /// What an assignment writes.
    fn target<'a>(
        self,
        tokens: &'a [LocatedToken],
    ) -> Result<(Target<Name>, &'a [LocatedToken]), ReadRefusal>
        ensures shorter { IfOk result (λ read. length read.1.now < length tokens.now) }
        ensures ok { IfOk result (λ read. Reads self.length State.target_next tokens.now read.0 read.1.now) }
        ensures err { IfErr result (Refuses self.length State.target_next tokens.now) }
    {
        if is_next(tokens, Sign::Star) {
            let rest = self.accept(tokens, true)?;
            let (target, rest) = self.pointee(rest)?;
            Ok((target, rest))
        } else {
            let (name, rest) = self.counted_name(tokens, true)?;
            let (target, rest) = self.target_of(name, rest)?;
            Ok((target, rest))
        }
    }

    /// The target `*p`, behind the sign.
    fn pointee<'a>(
        self,
        tokens: &'a [LocatedToken],
    ) -> Result<(Target<Name>, &'a [LocatedToken]), ReadRefusal>
        ensures shorter { IfOk result (λ read. length read.1.now < length tokens.now) }
        ensures ok { IfOk result (λ read. Reads self.length pointee tokens.now read.0 read.1.now) }
        ensures err { IfErr result (Refuses self.length pointee tokens.now) }
    {
        let (name, rest) = self.name(tokens)?;
        Ok((Target::Index(name, Expr::Number(0)), rest))
    }

    /// What follows the name of a target: an index, or nothing.
    fn target_of<'a>(
        self,
        name: Mark<Name>,
        tokens: &'a [LocatedToken],
    ) -> Result<(Target<Name>, &'a [LocatedToken]), ReadRefusal>
        ensures shorter { IfOk result (λ read. length read.1.now ≤ length tokens.now) }
        ensures ok { IfOk result (λ read. Reads self.length (State.target_name name) tokens.now read.0 read.1.now) }
        ensures err { IfErr result (Refuses self.length (State.target_name name) tokens.now) }
    {
        if is_next(tokens, Sign::BracketOpen) {
            let rest = self.accept(tokens, true)?;
            let (place, rest) = self.index(rest)?;
            Ok((Target::Index(name, place), rest))
        } else {
            Ok((Target::Scalar(name), tokens))
        }
    }

    /// What follows the target of an assignment: its sign, and its value.
    fn writing<'a>(
        self,
        target: Target<Name>,
        tokens: &'a [LocatedToken],
    ) -> Result<(Simple, &'a [LocatedToken]), ReadRefusal>
        ensures shorter { IfOk result (λ read. length read.1.now < length tokens.now) }
        ensures ok { IfOk result (λ read. Reads self.length (State.writing target) tokens.now (statement_of read.0) read.1.now) }
        ensures err { IfErr result (Refuses self.length (State.writing target) tokens.now) }
    {
        let (op, value, rest) = self.sign_and_value(tokens)?;
        Ok((Simple::Assign { target, op, value }, rest))
    }

    /// The sign of an assignment, as the operator of an update or none, and the value.
    fn sign_and_value<'a>(
        self,
        tokens: &'a [LocatedToken],
    ) -> Result<(Option<Op>, Expr<Name>, &'a [LocatedToken]), ReadRefusal>
        ensures shorter { IfOk result (λ read. length read.2.now < length tokens.now) }
        ensures ok { IfOk result (λ read. ReadsWriting self.length tokens.now read.0 read.1 read.2.now) }
        ensures err { IfErr result (RefusesWriting self.length tokens.now) }
    {
        if is_next(tokens, Sign::PlusPlus) {
            let rest = self.accept(tokens, true)?;
            Ok((Some(Op::Add), Expr::Number(1), rest))
        } else if is_next(tokens, Sign::MinusMinus) {
            let rest = self.accept(tokens, true)?;
            Ok((Some(Op::Sub), Expr::Number(1), rest))
        } else {
            let Some(op) = next_assignment(tokens) else {
                return Err(self.refuse(tokens));
            };
            let rest = self.accept(tokens, true)?;
            let (value, rest) = self.value(rest)?;
            Ok((op, value, rest))
        }
    }

    /// The name of a function, and the arguments of its call.
    pub(crate) fn call<'a>(
        self,
        tokens: &'a [LocatedToken],
    ) -> Result<(Call<Name>, &'a [LocatedToken]), ReadRefusal>
        ensures shorter { IfOk result (λ read. length read.1.now < length tokens.now) }
        ensures ok { IfOk result (λ read. Reads self.length call tokens.now read.0 read.1.now) }
        ensures err { IfErr result (Refuses self.length call tokens.now) }
    {
        let (name, rest) = self.name(tokens)?;
        let rest = self.sign(rest, Sign::ParenOpen)?;
        let (call, rest) = self.call_of(name, rest)?;
        Ok((call, rest))
    }
}

/// `++` adds 1, and `--` subtracts it.
fn count_on(up: bool, target: Target<Name>) -> Simple
    ensures { read.statement_of result ≡ machine.count_on up target }
{
    let op = if up { Op::Add } else { Op::Sub };
    Simple::Assign {
        target,
        op: Some(op),
        value: Expr::Number(1),
    }
}
