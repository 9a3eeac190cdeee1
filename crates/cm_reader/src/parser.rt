//! How programs are read.
ghost use Rattle.std.specs.Prelude.{◌≡◌, ◌≤◌, ◌<◌, IfOk, IfErr, length};
ghost use Rattle.cm_syntax.specs.Parser.{State, start, accepted, function_of, end_answer, some_functions};
ghost use Rattle.cm_reader.specs.Read.{answer, Reads, Refuses, ReadsMark, RefusesMark, IsRefusal, parameter_next, some_parameters};

use crate::cursor::{MAX_SOURCE_BYTES, Reader};
use crate::refusal::ReadRefusal;
use crate::start::{is_next, is_next_word};
use crate::token::LocatedToken;
use cm_syntax::{Function, Item, Keyword, Mark, Name, Sign, Slot};
use cm_text::List;
use std::alloc::Global;

/// The functions of a text of this length that has these tokens.
pub(crate) fn parse(
    alloc: Global,
    tokens: &[LocatedToken],
    length: u32,
) -> Result<List<Function<Name>>, ReadRefusal>
    ensures ok { IfOk result (λ functions. answer length start tokens.now ≡ accepted functions) }
    ensures err { IfErr result (λ refusal. IsRefusal refusal (answer length start tokens.now)) }
{
    let reader = Reader { alloc, length };
    let mut functions = List::new(alloc);
    let mut rest = tokens;
    while !rest.is_empty() {
        let (function, end) = reader.function(rest)?;
        functions.push(function)?;
        rest = end;
    }
    reader.finish(functions)
}

impl Reader {
    /// The functions of a text whose tokens have ended behind them.
    fn finish(self, functions: List<Function<Name>>) -> Result<List<Function<Name>>, ReadRefusal>
        ensures ok { IfOk result (λ read. end_answer self.length (some_functions functions) ≡ accepted read) }
        ensures err { IfErr result (λ refusal. IsRefusal refusal (end_answer self.length (some_functions functions))) }
    {
        if self.length > MAX_SOURCE_BYTES {
            return Err(self.refuse_end());
        }
        if functions.is_empty() {
            return Err(self.refuse_end());
        }
        Ok(functions)
    }

    /// A function.
    fn function<'a>(
        self,
        tokens: &'a [LocatedToken],
    ) -> Result<(Function<Name>, &'a [LocatedToken]), ReadRefusal>
        ensures shorter { IfOk result (λ read. length read.1.now < length tokens.now) }
        ensures ok { IfOk result (λ read. Reads self.length State.function_next tokens.now read.0 read.1.now) }
        ensures err { IfErr result (Refuses self.length State.function_next tokens.now) }
    {
        let (cilk, rest) = self.mark(tokens)?;
        let (gives, rest) = self.return_type(rest)?;
        let (function, rest) = self.function_of(cilk, gives, rest)?;
        Ok((function, rest))
    }

    /// Whether a function is marked `cilk`.
    fn mark<'a>(self, tokens: &'a [LocatedToken]) -> Result<(bool, &'a [LocatedToken]), ReadRefusal>
        ensures shorter { IfOk result (λ read. length read.1.now ≤ length tokens.now) }
        ensures ok { IfOk result (λ read. ReadsMark self.length tokens.now read.0 read.1.now) }
        ensures err { IfErr result (RefusesMark self.length tokens.now) }
    {
        if is_next_word(tokens, Keyword::Cilk) {
            let rest = self.accept(tokens, true)?;
            Ok((true, rest))
        } else {
            Ok((false, tokens))
        }
    }

    /// Whether a function returns a value: `int` or `void`.
    fn return_type<'a>(
        self,
        tokens: &'a [LocatedToken],
    ) -> Result<(bool, &'a [LocatedToken]), ReadRefusal>
        ensures shorter { IfOk result (λ read. length read.1.now < length tokens.now) }
        ensures ok { IfOk result (λ read. Reads self.length State.return_type tokens.now read.0 read.1.now) }
        ensures err { IfErr result (Refuses self.length State.return_type tokens.now) }
    {
        if is_next_word(tokens, Keyword::Int) {
            let rest = self.accept(tokens, true)?;
            Ok((true, rest))
        } else {
            let rest = self.word(tokens, Keyword::Void)?;
            Ok((false, rest))
        }
    }

    /// What follows the mark and the type of a function.
    fn function_of<'a>(
        self,
        cilk: bool,
        gives: bool,
        tokens: &'a [LocatedToken],
    ) -> Result<(Function<Name>, &'a [LocatedToken]), ReadRefusal>
        ensures shorter { IfOk result (λ read. length read.1.now < length tokens.now) }
        ensures ok { IfOk result (λ read. Reads self.length (function_of cilk gives) tokens.now read.0 read.1.now) }
        ensures err { IfErr result (Refuses self.length (function_of cilk gives) tokens.now) }
    {
        let (name, rest) = self.name(tokens)?;
        let rest = self.sign(rest, Sign::ParenOpen)?;
        let (parameters, rest) = self.parameters(rest)?;
        let rest = self.sign(rest, Sign::BraceOpen)?;
        let (body, _, rest) = self.statements(rest, 1)?;
        let slots = List::new(self.alloc);
        Ok((
            Function {
                name,
                cilk,
                gives,
                parameters,
                body,
                slots,
            },
            rest,
        ))
    }

    /// The parameters of a function behind `(`, and `)`.
    fn parameters<'a>(
        self,
        tokens: &'a [LocatedToken],
    ) -> Result<(List<Item<Name>>, &'a [LocatedToken]), ReadRefusal>
        ensures shorter { IfOk result (λ read. length read.1.now < length tokens.now) }
        ensures ok { IfOk result (λ read. Reads self.length State.first_parameter tokens.now read.0 read.1.now) }
        ensures err { IfErr result (Refuses self.length State.first_parameter tokens.now) }
    {
        if is_next(tokens, Sign::ParenClose) {
            let rest = self.accept(tokens, true)?;
            Ok((List::new(self.alloc), rest))
        } else if is_next_word(tokens, Keyword::Void) {
            let rest = self.accept(tokens, true)?;
            let rest = self.sign(rest, Sign::ParenClose)?;
            Ok((List::new(self.alloc), rest))
        } else {
            let (parameters, rest) = self.some_parameters(tokens)?;
            Ok((parameters, rest))
        }
    }

    /// One parameter or more, and `)`.
    fn some_parameters<'a>(
        self,
        tokens: &'a [LocatedToken],
    ) -> Result<(List<Item<Name>>, &'a [LocatedToken]), ReadRefusal>
        ensures shorter { IfOk result (λ read. length read.1.now < length tokens.now) }
        ensures ok { IfOk result (λ read. Reads self.length some_parameters tokens.now read.0 read.1.now) }
        ensures err { IfErr result (Refuses self.length some_parameters tokens.now) }
    {
        let mut parameters = List::new(self.alloc);
        let (first, mut rest) = self.parameter(tokens)?;
        parameters.push(first)?;
        while is_next(rest, Sign::Comma) {
            let behind = self.accept(rest, true)?;
            let (more, end) = self.parameter(behind)?;
            parameters.push(more)?;
            rest = end;
        }
        let rest = self.sign(rest, Sign::ParenClose)?;
        Ok((parameters, rest))
    }

    /// A parameter: its `int` and its declarator.
    fn parameter<'a>(
        self,
        tokens: &'a [LocatedToken],
    ) -> Result<(Item<Name>, &'a [LocatedToken]), ReadRefusal>
        ensures shorter { IfOk result (λ read. length read.1.now < length tokens.now) }
        ensures ok { IfOk result (λ read. Reads self.length parameter_next tokens.now read.0 read.1.now) }
        ensures err { IfErr result (Refuses self.length parameter_next tokens.now) }
    {
        let rest = self.word(tokens, Keyword::Int)?;
        let (parameter, rest) = self.parameter_declarator(rest)?;
        Ok((parameter, rest))
    }

    /// A parameter behind its `int`.
    fn parameter_declarator<'a>(
        self,
        tokens: &'a [LocatedToken],
    ) -> Result<(Item<Name>, &'a [LocatedToken]), ReadRefusal>
        ensures shorter { IfOk result (λ read. length read.1.now < length tokens.now) }
        ensures ok { IfOk result (λ read. Reads self.length State.parameter_declarator tokens.now read.0 read.1.now) }
        ensures err { IfErr result (Refuses self.length State.parameter_declarator tokens.now) }
    {
        if is_next(tokens, Sign::Star) {
            let rest = self.accept(tokens, true)?;
            let (name, rest) = self.name(rest)?;
            Ok((
                Item {
                    name,
                    slot: Slot::Slice,
                    first: None,
                },
                rest,
            ))
        } else {
            let (name, rest) = self.counted_name(tokens, true)?;
            let (parameter, rest) = self.parameter_of(name, rest)?;
            Ok((parameter, rest))
        }
    }

    /// What follows the name of a parameter: brackets, or nothing.
    fn parameter_of<'a>(
        self,
        name: Mark<Name>,
        tokens: &'a [LocatedToken],
    ) -> Result<(Item<Name>, &'a [LocatedToken]), ReadRefusal>
        ensures shorter { IfOk result (λ read. length read.1.now ≤ length tokens.now) }
        ensures ok { IfOk result (λ read. Reads self.length (State.parameter_name name) tokens.now read.0 read.1.now) }
        ensures err { IfErr result (Refuses self.length (State.parameter_name name) tokens.now) }
    {
        if is_next(tokens, Sign::BracketOpen) {
            let rest = self.accept(tokens, true)?;
            let rest = self.sign(rest, Sign::BracketClose)?;
            Ok((
                Item {
                    name,
                    slot: Slot::Slice,
                    first: None,
                },
                rest,
            ))
        } else {
            Ok((
                Item {
                    name,
                    slot: Slot::Scalar,
                    first: None,
                },
                tokens,
            ))
        }
    }
}
