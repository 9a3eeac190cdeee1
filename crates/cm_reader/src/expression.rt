//! How expressions are read.
ghost use Rattle.std.specs.Prelude.{◌≡◌, ◌≤◌, ◌<◌, ◌∷◌, ◌++◌, [], IfOk, IfErr, IfSome, IfNone, length, None};
ghost use Rattle.cm_syntax.specs.declared.expr.Expr.TheVariants as expressions;
ghost use Rattle.cm_syntax.specs.Parser.{State, whole, value, index, call_of, parenthesized};
ghost use Rattle.cm_reader.specs.declared.start.PrimaryStart.TheVariants as starts;
ghost use Rattle.cm_reader.specs.declared.refusal.ReadRefusal.TheVariants.{Memory as OutOfMemory};
ghost use Rattle.cm_reader.specs.Read.{Reads, Refuses, ReadsExpression, RefusesExpression, ReadsArgument, RefusesArgument, ReadsPrimary, RefusesPrimary, ReadsNamed, RefusesNamed, parenthesized_name, IsOperator, NoOperator};
ghost use Rattle.cm_reader.specs.Next as next;

use crate::cursor::Reader;
use crate::refusal::ReadRefusal;
use crate::spelling::level_of;
use crate::start::{PrimaryStart, binary_operator, is_next, primary_start, unary_operator};
use crate::token::LocatedToken;
use cm_syntax::{Arg, Call, Expr, Mark, Name, Op, Sign};
use cm_text::List;
use sqlite_items::Boxed;
use std::alloc::Global;

/// The most operators of one expression between the same brackets.
const MAX_OPERATORS: u32 = 64;

/// The greatest literal.
const MAX_LITERAL: u32 = 2147483647;

impl Reader {
    /// An expression of this level or a higher one, behind so many operators; then how many stand before
    /// what follows it.
    #[cycle(expression)]
    fn expression<'a>(
        self,
        tokens: &'a [LocatedToken],
        level: u32,
        operators: u32,
    ) -> Result<(Expr<Name>, u32, &'a [LocatedToken]), ReadRefusal>
        requires { operators ≤ 64 }
        ensures shorter { IfOk result (λ read. length read.2.now < length tokens.now) }
        ensures few { IfOk result (λ read. read.1 ≤ 64) }
        ensures ok { IfOk result (λ read. ReadsExpression self.length (whole level operators) tokens.now read.0 read.1 read.2.now) }
        ensures err { IfErr result (RefusesExpression self.length (whole level operators) tokens.now) }
    {
        let (mut left, mut count, mut rest) = self.operand(tokens, operators)?;
        while let Some(op) = operator_of_level(rest, level) {
            let behind = self.accept(rest, count < MAX_OPERATORS)?;
            let (right, more, end) = self.expression(behind, level_of(op) + 1, count + 1)?;
            left = joined(self.alloc, op, left, right)?;
            count = more;
            rest = end;
        }
        Ok((left, count, rest))
    }

    /// An operand with its unary operators, behind so many operators.
    #[cycle(expression)]
    fn operand<'a>(
        self,
        tokens: &'a [LocatedToken],
        operators: u32,
    ) -> Result<(Expr<Name>, u32, &'a [LocatedToken]), ReadRefusal>
        requires { operators ≤ 64 }
        ensures shorter { IfOk result (λ read. length read.2.now < length tokens.now) }
        ensures few { IfOk result (λ read. read.1 ≤ 64) }
        ensures ok { IfOk result (λ read. ReadsExpression self.length (State.operand operators) tokens.now read.0 read.1 read.2.now) }
        ensures err { IfErr result (RefusesExpression self.length (State.operand operators) tokens.now) }
    {
        let Some(op) = unary_operator(tokens) else {
            let (primary, rest) = self.primary(tokens)?;
            return Ok((primary, operators, rest));
        };
        let rest = self.accept(tokens, operators < MAX_OPERATORS)?;
        let (operand, count, rest) = self.operand(rest, operators + 1)?;
        Ok((
            Expr::Unary(op, Boxed::new(self.alloc, operand)?),
            count,
            rest,
        ))
    }

    /// An operand without unary operators.
    #[cycle(expression)]
    fn primary<'a>(
        self,
        tokens: &'a [LocatedToken],
    ) -> Result<(Expr<Name>, &'a [LocatedToken]), ReadRefusal>
        requires { next.unary_operator tokens.now ≡ None }
        ensures shorter { IfOk result (λ read. length read.1.now < length tokens.now) }
        ensures ok { IfOk result (λ read. ReadsPrimary self.length tokens.now read.0 read.1.now) }
        ensures err { IfErr result (RefusesPrimary self.length tokens.now) }
    {
        match primary_start(tokens) {
            PrimaryStart::Number(literal) => self.number(tokens, literal),
            PrimaryStart::Name => {
                let (name, rest) = self.counted_name(tokens, true)?;
                self.named_operand(name, rest)
            }
            PrimaryStart::Pointee => self.pointed_value(tokens),
            PrimaryStart::Group => self.parenthesized(tokens),
            PrimaryStart::Len => self.array_length(tokens),
            PrimaryStart::Input => self.input(tokens),
            PrimaryStart::Inputs => self.inputs(tokens),
            PrimaryStart::Nothing => Err(self.refuse(tokens)),
        }
    }

    /// The literal that stands next.
    fn number<'a>(
        self,
        tokens: &'a [LocatedToken],
        literal: u32,
    ) -> Result<(Expr<Name>, &'a [LocatedToken]), ReadRefusal>
        requires none { next.unary_operator tokens.now ≡ None }
        requires start { next.primary_start tokens.now ≡ starts.Number literal }
        ensures shorter { IfOk result (λ read. length read.1.now < length tokens.now) }
        ensures ok { IfOk result (λ read. ReadsPrimary self.length tokens.now read.0 read.1.now) }
        ensures err { IfErr result (RefusesPrimary self.length tokens.now) }
    {
        let rest = self.accept(tokens, literal <= MAX_LITERAL)?;
        Ok((Expr::Number(literal as i32), rest))
    }

    /// What a pointer points at: its first word.
    fn pointed_value<'a>(
        self,
        tokens: &'a [LocatedToken],
    ) -> Result<(Expr<Name>, &'a [LocatedToken]), ReadRefusal>
        requires none { next.unary_operator tokens.now ≡ None }
        requires start { next.primary_start tokens.now ≡ starts.Pointee }
        ensures shorter { IfOk result (λ read. length read.1.now < length tokens.now) }
        ensures ok { IfOk result (λ read. ReadsPrimary self.length tokens.now read.0 read.1.now) }
        ensures err { IfErr result (RefusesPrimary self.length tokens.now) }
    {
        let rest = self.accept(tokens, true)?;
        let (name, rest) = self.name(rest)?;
        let first = Boxed::new(self.alloc, Expr::Number(0))?;
        Ok((Expr::Index(name, first), rest))
    }

    /// The length of an array.
    fn array_length<'a>(
        self,
        tokens: &'a [LocatedToken],
    ) -> Result<(Expr<Name>, &'a [LocatedToken]), ReadRefusal>
        requires none { next.unary_operator tokens.now ≡ None }
        requires start { next.primary_start tokens.now ≡ starts.Len }
        ensures shorter { IfOk result (λ read. length read.1.now < length tokens.now) }
        ensures ok { IfOk result (λ read. ReadsPrimary self.length tokens.now read.0 read.1.now) }
        ensures err { IfErr result (RefusesPrimary self.length tokens.now) }
    {
        let rest = self.accept(tokens, true)?;
        let (name, rest) = self.parenthesized_name(rest)?;
        Ok((Expr::Len(name), rest))
    }

    /// A word of the input.
    #[cycle(expression)]
    fn input<'a>(
        self,
        tokens: &'a [LocatedToken],
    ) -> Result<(Expr<Name>, &'a [LocatedToken]), ReadRefusal>
        requires none { next.unary_operator tokens.now ≡ None }
        requires start { next.primary_start tokens.now ≡ starts.Input }
        ensures shorter { IfOk result (λ read. length read.1.now < length tokens.now) }
        ensures ok { IfOk result (λ read. ReadsPrimary self.length tokens.now read.0 read.1.now) }
        ensures err { IfErr result (RefusesPrimary self.length tokens.now) }
    {
        let rest = self.accept(tokens, true)?;
        let (place, rest) = self.parenthesized(rest)?;
        Ok((Expr::Input(Boxed::new(self.alloc, place)?), rest))
    }

    /// How many words the input has.
    fn inputs<'a>(
        self,
        tokens: &'a [LocatedToken],
    ) -> Result<(Expr<Name>, &'a [LocatedToken]), ReadRefusal>
        requires none { next.unary_operator tokens.now ≡ None }
        requires start { next.primary_start tokens.now ≡ starts.Inputs }
        ensures shorter { IfOk result (λ read. length read.1.now < length tokens.now) }
        ensures ok { IfOk result (λ read. ReadsPrimary self.length tokens.now read.0 read.1.now) }
        ensures err { IfErr result (RefusesPrimary self.length tokens.now) }
    {
        let rest = self.accept(tokens, true)?;
        let rest = self.sign(rest, Sign::ParenOpen)?;
        let rest = self.sign(rest, Sign::ParenClose)?;
        Ok((Expr::Inputs, rest))
    }

    /// What follows a name in an expression: an index, arguments, or nothing.
    #[cycle(expression)]
    fn named_operand<'a>(
        self,
        name: Mark<Name>,
        tokens: &'a [LocatedToken],
    ) -> Result<(Expr<Name>, &'a [LocatedToken]), ReadRefusal>
        ensures shorter { IfOk result (λ read. length read.1.now ≤ length tokens.now) }
        ensures ok { IfOk result (λ read. ReadsNamed self.length name tokens.now read.0 read.1.now) }
        ensures err { IfErr result (RefusesNamed self.length name tokens.now) }
    {
        if is_next(tokens, Sign::BracketOpen) {
            let rest = self.accept(tokens, true)?;
            let (place, rest) = self.index(rest)?;
            Ok((Expr::Index(name, Boxed::new(self.alloc, place)?), rest))
        } else if is_next(tokens, Sign::ParenOpen) {
            let rest = self.accept(tokens, true)?;
            let (arguments, rest) = self.arguments(rest)?;
            let function = name;
            Ok((
                Expr::Call(Call {
                    function,
                    arguments,
                }),
                rest,
            ))
        } else {
            Ok((Expr::Scalar(name), tokens))
        }
    }

    /// The arguments of a call behind `(`, and `)`.
    #[cycle(expression)]
    fn arguments<'a>(
        self,
        tokens: &'a [LocatedToken],
    ) -> Result<(List<Arg<Name>>, &'a [LocatedToken]), ReadRefusal>
        ensures shorter { IfOk result (λ read. length read.1.now < length tokens.now) }
        ensures ok { IfOk result (λ read. Reads self.length State.first_argument tokens.now read.0 read.1.now) }
        ensures err { IfErr result (Refuses self.length State.first_argument tokens.now) }
    {
        let mut arguments = List::new(self.alloc);
        if is_next(tokens, Sign::ParenClose) {
            let rest = self.accept(tokens, true)?;
            return Ok((arguments, rest));
        }
        let (first, mut rest) = self.argument(tokens)?;
        arguments.push(first)?;
        while is_next(rest, Sign::Comma) {
            let behind = self.accept(rest, true)?;
            let (more, end) = self.argument(behind)?;
            arguments.push(more)?;
            rest = end;
        }
        let rest = self.sign(rest, Sign::ParenClose)?;
        Ok((arguments, rest))
    }

    /// An argument.
    #[cycle(expression)]
    fn argument<'a>(
        self,
        tokens: &'a [LocatedToken],
    ) -> Result<(Arg<Name>, &'a [LocatedToken]), ReadRefusal>
        ensures shorter { IfOk result (λ read. length read.1.now < length tokens.now) }
        ensures ok { IfOk result (λ read. ReadsArgument self.length tokens.now read.0 read.1.now) }
        ensures err { IfErr result (RefusesArgument self.length tokens.now) }
    {
        if is_next(tokens, Sign::Ampersand) {
            let rest = self.accept(tokens, true)?;
            let (name, rest) = self.name(rest)?;
            Ok((Arg::Address(name), rest))
        } else {
            let (given, rest) = self.value(tokens)?;
            Ok((Arg::Value(given), rest))
        }
    }

    /// An expression of any level.
    #[cycle(expression)]
    pub(crate) fn value<'a>(
        self,
        tokens: &'a [LocatedToken],
    ) -> Result<(Expr<Name>, &'a [LocatedToken]), ReadRefusal>
        ensures shorter { IfOk result (λ read. length read.1.now < length tokens.now) }
        ensures ok { IfOk result (λ read. Reads self.length value tokens.now read.0 read.1.now) }
        ensures err { IfErr result (Refuses self.length value tokens.now) }
    {
        let (value, _, rest) = self.expression(tokens, 1, 0)?;
        Ok((value, rest))
    }

    /// An index behind `[`, and `]`.
    #[cycle(expression)]
    pub(crate) fn index<'a>(
        self,
        tokens: &'a [LocatedToken],
    ) -> Result<(Expr<Name>, &'a [LocatedToken]), ReadRefusal>
        ensures shorter { IfOk result (λ read. length read.1.now < length tokens.now) }
        ensures ok { IfOk result (λ read. Reads self.length index tokens.now read.0 read.1.now) }
        ensures err { IfErr result (Refuses self.length index tokens.now) }
    {
        let (place, rest) = self.value(tokens)?;
        let rest = self.sign(rest, Sign::BracketClose)?;
        Ok((place, rest))
    }

    /// An expression between parentheses.
    #[cycle(expression)]
    pub(crate) fn parenthesized<'a>(
        self,
        tokens: &'a [LocatedToken],
    ) -> Result<(Expr<Name>, &'a [LocatedToken]), ReadRefusal>
        ensures shorter { IfOk result (λ read. length read.1.now < length tokens.now) }
        ensures ok { IfOk result (λ read. Reads self.length parenthesized tokens.now read.0 read.1.now) }
        ensures err { IfErr result (Refuses self.length parenthesized tokens.now) }
    {
        let rest = self.sign(tokens, Sign::ParenOpen)?;
        let (inner, rest) = self.value(rest)?;
        let rest = self.sign(rest, Sign::ParenClose)?;
        Ok((inner, rest))
    }

    /// The arguments of a call of this function, behind `(`, and `)`.
    pub(crate) fn call_of<'a>(
        self,
        function: Mark<Name>,
        tokens: &'a [LocatedToken],
    ) -> Result<(Call<Name>, &'a [LocatedToken]), ReadRefusal>
        ensures shorter { IfOk result (λ read. length read.1.now < length tokens.now) }
        ensures ok { IfOk result (λ read. Reads self.length (call_of function) tokens.now read.0 read.1.now) }
        ensures err { IfErr result (Refuses self.length (call_of function) tokens.now) }
    {
        let (arguments, rest) = self.arguments(tokens)?;
        Ok((
            Call {
                function,
                arguments,
            },
            rest,
        ))
    }

    /// A name between parentheses.
    fn parenthesized_name<'a>(
        self,
        tokens: &'a [LocatedToken],
    ) -> Result<(Mark<Name>, &'a [LocatedToken]), ReadRefusal>
        ensures shorter { IfOk result (λ read. length read.1.now < length tokens.now) }
        ensures ok { IfOk result (λ read. Reads self.length parenthesized_name tokens.now read.0 read.1.now) }
        ensures err { IfErr result (Refuses self.length parenthesized_name tokens.now) }
    {
        let rest = self.sign(tokens, Sign::ParenOpen)?;
        let (name, rest) = self.name(rest)?;
        let rest = self.sign(rest, Sign::ParenClose)?;
        Ok((name, rest))
    }
}

/// Two operands and the operator between them.
fn joined(
    alloc: Global,
    op: Op,
    left: Expr<Name>,
    right: Expr<Name>,
) -> Result<Expr<Name>, ReadRefusal>
    ensures ok { IfOk result (λ whole. whole ≡ expressions.Binary op left right) }
    ensures err { IfErr result (λ refusal. refusal ≡ OutOfMemory) }
{
    let left = Boxed::new(alloc, left)?;
    let right = Boxed::new(alloc, right)?;
    Ok(Expr::Binary(op, left, right))
}

/// The operator of at least this level that stands next.
fn operator_of_level(tokens: &[LocatedToken], level: u32) -> Option<Op>
    ensures found { IfSome result (λ op. IsOperator level op tokens.now) }
    ensures none { IfNone result (NoOperator level tokens.now) }
{
    let op = binary_operator(tokens)?;
    if level_of(op) < level { None } else { Some(op) }
}
