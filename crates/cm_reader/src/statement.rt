//! How statements are read.
ghost use Rattle.std.specs.Prelude.{true, false, ◌≡◌, ◌≤◌, ◌<◌, ◌+◌, [], IfOk, IfErr, length};
ghost use Rattle.cm_syntax.specs.declared.token.Sign.TheVariants.{BraceClose};
ghost use Rattle.cm_syntax.specs.declared.token.Keyword.TheVariants.{Int};
ghost use Rattle.cm_syntax.specs.Parser.{State, body, spawned};
ghost use Rattle.cm_reader.specs.declared.start.FlatStart.TheVariants as flats;
ghost use Rattle.cm_reader.specs.declared.start.StatementStart.TheVariants as starts;
ghost use Rattle.cm_reader.specs.declared.start.StatementStart.TheVariants.{Flat};
ghost use Rattle.cm_reader.specs.Next as next;
ghost use Rattle.cm_reader.specs.Read.{Reads, Refuses, ReadsFlat, RefusesFlat, ReadsStatement, RefusesStatement, ReadsTurns, RefusesTurns, first_turn, turn_test, last_turn, ReadsParts, RefusesParts, ReadsPlace, RefusesPlace, ReadsNames, RefusesNames, ReadsBlock, RefusesBlock, ReadsOther, RefusesOther, ReadsBranches, RefusesBranches};

use crate::cursor::Reader;
use crate::refusal::ReadRefusal;
use crate::simple::statement_of;
use crate::start::{
    FlatStart, StatementStart, is_next, is_next_word, next_offset, statement_start,
};
use crate::token::LocatedToken;
use cm_syntax::{Expr, Keyword, Mark, Name, Sign, Stmt, Target};
use cm_text::List;
use sqlite_items::Boxed;

/// The most blocks and bodies round a statement.
const MAX_DEPTH: u32 = 64;

// ---- statements without statements in them

impl Reader {
    /// A statement at this depth that begins so and has no statement in it.
    fn flat<'a>(
        self,
        tokens: &'a [LocatedToken],
        start: FlatStart,
        depth: u32,
    ) -> Result<(Stmt<Name>, &'a [LocatedToken]), ReadRefusal>
        requires { next.statement_start tokens.now ≡ Flat start }
        ensures shorter { IfOk result (λ read. length read.1.now < length tokens.now) }
        ensures ok { IfOk result (λ read. ReadsFlat self.length depth tokens.now read.0 read.1.now) }
        ensures err { IfErr result (RefusesFlat self.length depth tokens.now) }
    {
        match start {
            FlatStart::Name => self.named_statement(tokens, depth),
            FlatStart::Empty => self.empty_statement(tokens, depth),
            FlatStart::Return => self.return_statement(tokens, depth),
            FlatStart::Print => self.print_statement(tokens, depth),
            FlatStart::Sync => self.sync_statement(tokens, depth),
            FlatStart::Spawn => self.spawn_statement(tokens, depth),
            FlatStart::Simple => self.simple_statement(tokens, depth),
        }
    }

    /// A statement that begins with a name.
    fn named_statement<'a>(
        self,
        tokens: &'a [LocatedToken],
        depth: u32,
    ) -> Result<(Stmt<Name>, &'a [LocatedToken]), ReadRefusal>
        requires { next.statement_start tokens.now ≡ Flat flats.Name }
        ensures shorter { IfOk result (λ read. length read.1.now < length tokens.now) }
        ensures ok { IfOk result (λ read. ReadsFlat self.length depth tokens.now read.0 read.1.now) }
        ensures err { IfErr result (RefusesFlat self.length depth tokens.now) }
    {
        let (name, rest) = self.counted_name(tokens, depth <= MAX_DEPTH)?;
        let (statement, rest) = self.named_parts(name, rest)?;
        Ok((statement, rest))
    }

    /// The statement `;`.
    fn empty_statement<'a>(
        self,
        tokens: &'a [LocatedToken],
        depth: u32,
    ) -> Result<(Stmt<Name>, &'a [LocatedToken]), ReadRefusal>
        requires { next.statement_start tokens.now ≡ Flat flats.Empty }
        ensures shorter { IfOk result (λ read. length read.1.now < length tokens.now) }
        ensures ok { IfOk result (λ read. ReadsFlat self.length depth tokens.now read.0 read.1.now) }
        ensures err { IfErr result (RefusesFlat self.length depth tokens.now) }
    {
        let rest = self.accept(tokens, depth <= MAX_DEPTH)?;
        Ok((Stmt::Empty, rest))
    }

    /// A statement that begins with `return`.
    fn return_statement<'a>(
        self,
        tokens: &'a [LocatedToken],
        depth: u32,
    ) -> Result<(Stmt<Name>, &'a [LocatedToken]), ReadRefusal>
        requires { next.statement_start tokens.now ≡ Flat flats.Return }
        ensures shorter { IfOk result (λ read. length read.1.now < length tokens.now) }
        ensures ok { IfOk result (λ read. ReadsFlat self.length depth tokens.now read.0 read.1.now) }
        ensures err { IfErr result (RefusesFlat self.length depth tokens.now) }
    {
        let at = next_offset(tokens);
        let rest = self.accept(tokens, depth <= MAX_DEPTH)?;
        let (value, rest) = self.optional_value(rest)?;
        let rest = self.sign(rest, Sign::Semicolon)?;
        Ok((Stmt::Return { at, value }, rest))
    }

    /// A statement that begins with `print`.
    fn print_statement<'a>(
        self,
        tokens: &'a [LocatedToken],
        depth: u32,
    ) -> Result<(Stmt<Name>, &'a [LocatedToken]), ReadRefusal>
        requires { next.statement_start tokens.now ≡ Flat flats.Print }
        ensures shorter { IfOk result (λ read. length read.1.now < length tokens.now) }
        ensures ok { IfOk result (λ read. ReadsFlat self.length depth tokens.now read.0 read.1.now) }
        ensures err { IfErr result (RefusesFlat self.length depth tokens.now) }
    {
        let rest = self.accept(tokens, depth <= MAX_DEPTH)?;
        let (value, rest) = self.parenthesized(rest)?;
        let rest = self.sign(rest, Sign::Semicolon)?;
        Ok((Stmt::Print(value), rest))
    }

    /// The statement `sync;`.
    fn sync_statement<'a>(
        self,
        tokens: &'a [LocatedToken],
        depth: u32,
    ) -> Result<(Stmt<Name>, &'a [LocatedToken]), ReadRefusal>
        requires { next.statement_start tokens.now ≡ Flat flats.Sync }
        ensures shorter { IfOk result (λ read. length read.1.now < length tokens.now) }
        ensures ok { IfOk result (λ read. ReadsFlat self.length depth tokens.now read.0 read.1.now) }
        ensures err { IfErr result (RefusesFlat self.length depth tokens.now) }
    {
        let at = next_offset(tokens);
        let rest = self.accept(tokens, depth <= MAX_DEPTH)?;
        let rest = self.sign(rest, Sign::Semicolon)?;
        Ok((Stmt::Sync { at }, rest))
    }

    /// A statement that begins with `spawn`.
    fn spawn_statement<'a>(
        self,
        tokens: &'a [LocatedToken],
        depth: u32,
    ) -> Result<(Stmt<Name>, &'a [LocatedToken]), ReadRefusal>
        requires { next.statement_start tokens.now ≡ Flat flats.Spawn }
        ensures shorter { IfOk result (λ read. length read.1.now < length tokens.now) }
        ensures ok { IfOk result (λ read. ReadsFlat self.length depth tokens.now read.0 read.1.now) }
        ensures err { IfErr result (RefusesFlat self.length depth tokens.now) }
    {
        let at = next_offset(tokens);
        let rest = self.accept(tokens, depth <= MAX_DEPTH)?;
        let (spawn, rest) = self.spawned(at, None, rest)?;
        Ok((spawn, rest))
    }

    /// An assignment or a call that doesn't begin with a name.
    fn simple_statement<'a>(
        self,
        tokens: &'a [LocatedToken],
        depth: u32,
    ) -> Result<(Stmt<Name>, &'a [LocatedToken]), ReadRefusal>
        requires { next.statement_start tokens.now ≡ Flat flats.Simple }
        ensures shorter { IfOk result (λ read. length read.1.now < length tokens.now) }
        ensures ok { IfOk result (λ read. ReadsFlat self.length depth tokens.now read.0 read.1.now) }
        ensures err { IfErr result (RefusesFlat self.length depth tokens.now) }
    {
        let (simple, rest) = self.simple(tokens, depth <= MAX_DEPTH)?;
        let rest = self.sign(rest, Sign::Semicolon)?;
        Ok((statement_of(simple), rest))
    }

    /// A declaration in a block at this depth.
    fn declared_items<'a>(
        self,
        tokens: &'a [LocatedToken],
        depth: u32,
    ) -> Result<(Stmt<Name>, &'a [LocatedToken]), ReadRefusal>
        requires more { next.is_next BraceClose tokens.now ≡ false }
        requires int { next.is_next_word Int tokens.now ≡ true }
        ensures shorter { IfOk result (λ read. length read.1.now < length tokens.now) }
        ensures ok { IfOk result (λ read. ReadsStatement self.length depth tokens.now read.0 read.1.now) }
        ensures err { IfErr result (RefusesStatement self.length depth tokens.now) }
    {
        let rest = self.accept(tokens, depth <= MAX_DEPTH)?;
        let (items, rest) = self.declaration(rest)?;
        let rest = self.sign(rest, Sign::Semicolon)?;
        Ok((Stmt::Declare(items), rest))
    }

    /// What follows the name that begins a statement.
    fn named_parts<'a>(
        self,
        name: Mark<Name>,
        tokens: &'a [LocatedToken],
    ) -> Result<(Stmt<Name>, &'a [LocatedToken]), ReadRefusal>
        ensures shorter { IfOk result (λ read. length read.1.now < length tokens.now) }
        ensures ok { IfOk result (λ read. Reads self.length (State.plain_name name) tokens.now read.0 read.1.now) }
        ensures err { IfErr result (Refuses self.length (State.plain_name name) tokens.now) }
    {
        if is_next(tokens, Sign::Assign) {
            let rest = self.accept(tokens, true)?;
            let (statement, rest) = self.destination(name, rest)?;
            Ok((statement, rest))
        } else {
            let (simple, rest) = self.simple_of(name, tokens)?;
            let rest = self.sign(rest, Sign::Semicolon)?;
            Ok((statement_of(simple), rest))
        }
    }

    /// What follows a name and `=` that begin a statement: a spawn, or a value.
    fn destination<'a>(
        self,
        name: Mark<Name>,
        tokens: &'a [LocatedToken],
    ) -> Result<(Stmt<Name>, &'a [LocatedToken]), ReadRefusal>
        ensures shorter { IfOk result (λ read. length read.1.now < length tokens.now) }
        ensures ok { IfOk result (λ read. Reads self.length (State.destination name) tokens.now read.0 read.1.now) }
        ensures err { IfErr result (Refuses self.length (State.destination name) tokens.now) }
    {
        if is_next_word(tokens, Keyword::Spawn) {
            let at = next_offset(tokens);
            let rest = self.accept(tokens, true)?;
            let (spawn, rest) = self.spawned(at, Some(name), rest)?;
            Ok((spawn, rest))
        } else {
            let (value, rest) = self.value(tokens)?;
            let rest = self.sign(rest, Sign::Semicolon)?;
            let target = Target::Scalar(name);
            Ok((
                Stmt::Assign {
                    target,
                    op: None,
                    value,
                },
                rest,
            ))
        }
    }

    /// The call of a spawn behind the word `spawn`, which has this offset, and the semicolon.
    fn spawned<'a>(
        self,
        at: u32,
        target: Option<Mark<Name>>,
        tokens: &'a [LocatedToken],
    ) -> Result<(Stmt<Name>, &'a [LocatedToken]), ReadRefusal>
        ensures shorter { IfOk result (λ read. length read.1.now < length tokens.now) }
        ensures ok { IfOk result (λ read. Reads self.length (spawned at target) tokens.now read.0 read.1.now) }
        ensures err { IfErr result (Refuses self.length (spawned at target) tokens.now) }
    {
        let (call, rest) = self.call(tokens)?;
        let rest = self.sign(rest, Sign::Semicolon)?;
        Ok((Stmt::Spawn { at, target, call }, rest))
    }

    /// An expression, or nothing in front of `;`.
    fn optional_value<'a>(
        self,
        tokens: &'a [LocatedToken],
    ) -> Result<(Option<Expr<Name>>, &'a [LocatedToken]), ReadRefusal>
        ensures shorter { IfOk result (λ read. length read.1.now ≤ length tokens.now) }
        ensures ok { IfOk result (λ read. Reads self.length State.optional_value tokens.now read.0 read.1.now) }
        ensures err { IfErr result (Refuses self.length State.optional_value tokens.now) }
    {
        if is_next(tokens, Sign::Semicolon) {
            return Ok((None, tokens));
        }
        let (value, rest) = self.value(tokens)?;
        Ok((Some(value), rest))
    }

    /// The first part of a `for`.
    fn first_part<'a>(
        self,
        tokens: &'a [LocatedToken],
    ) -> Result<(Boxed<Stmt<Name>>, &'a [LocatedToken]), ReadRefusal>
        ensures shorter { IfOk result (λ read. length read.1.now ≤ length tokens.now) }
        ensures ok { IfOk result (λ read. Reads self.length State.first_part tokens.now read.0 read.1.now) }
        ensures err { IfErr result (Refuses self.length State.first_part tokens.now) }
    {
        if is_next(tokens, Sign::Semicolon) {
            let empty = Boxed::new(self.alloc, Stmt::Empty)?;
            Ok((empty, tokens))
        } else if is_next_word(tokens, Keyword::Int) {
            let rest = self.accept(tokens, true)?;
            let (items, rest) = self.declaration(rest)?;
            let declaration = Boxed::new(self.alloc, Stmt::Declare(items))?;
            Ok((declaration, rest))
        } else {
            let (simple, rest) = self.simple(tokens, true)?;
            let statement = Boxed::new(self.alloc, statement_of(simple))?;
            Ok((statement, rest))
        }
    }

    /// The last part of a `for`.
    fn last_part<'a>(
        self,
        tokens: &'a [LocatedToken],
    ) -> Result<(Boxed<Stmt<Name>>, &'a [LocatedToken]), ReadRefusal>
        ensures shorter { IfOk result (λ read. length read.1.now ≤ length tokens.now) }
        ensures ok { IfOk result (λ read. Reads self.length State.last_part tokens.now read.0 read.1.now) }
        ensures err { IfErr result (Refuses self.length State.last_part tokens.now) }
    {
        if is_next(tokens, Sign::ParenClose) {
            let empty = Boxed::new(self.alloc, Stmt::Empty)?;
            Ok((empty, tokens))
        } else {
            let (simple, rest) = self.simple(tokens, true)?;
            let statement = Boxed::new(self.alloc, statement_of(simple))?;
            Ok((statement, rest))
        }
    }

    /// What stands between `for` and its body: the three parts between parentheses.
    fn turns<'a>(
        self,
        tokens: &'a [LocatedToken],
    ) -> Result<
        (
            Boxed<Stmt<Name>>,
            Option<Expr<Name>>,
            Boxed<Stmt<Name>>,
            &'a [LocatedToken],
        ),
        ReadRefusal,
    >
        ensures shorter { IfOk result (λ read. length read.3.now < length tokens.now) }
        ensures ok { IfOk result (λ read. ReadsTurns self.length tokens.now read.0 read.1 read.2 read.3.now) }
        ensures err { IfErr result (RefusesTurns self.length tokens.now) }
    {
        let (first, rest) = self.first_turn(tokens)?;
        let (test, rest) = self.turn_test(rest)?;
        let (step, rest) = self.last_turn(rest)?;
        Ok((first, test, step, rest))
    }

    /// The first part of a `for`, between `(` and `;`.
    fn first_turn<'a>(
        self,
        tokens: &'a [LocatedToken],
    ) -> Result<(Boxed<Stmt<Name>>, &'a [LocatedToken]), ReadRefusal>
        ensures shorter { IfOk result (λ read. length read.1.now < length tokens.now) }
        ensures ok { IfOk result (λ read. Reads self.length first_turn tokens.now read.0 read.1.now) }
        ensures err { IfErr result (Refuses self.length first_turn tokens.now) }
    {
        let rest = self.sign(tokens, Sign::ParenOpen)?;
        let (first, rest) = self.first_part(rest)?;
        let rest = self.sign(rest, Sign::Semicolon)?;
        Ok((first, rest))
    }

    /// The condition of a `for`, if there is one, and `;`.
    fn turn_test<'a>(
        self,
        tokens: &'a [LocatedToken],
    ) -> Result<(Option<Expr<Name>>, &'a [LocatedToken]), ReadRefusal>
        ensures shorter { IfOk result (λ read. length read.1.now < length tokens.now) }
        ensures ok { IfOk result (λ read. Reads self.length turn_test tokens.now read.0 read.1.now) }
        ensures err { IfErr result (Refuses self.length turn_test tokens.now) }
    {
        let (test, rest) = self.optional_value(tokens)?;
        let rest = self.sign(rest, Sign::Semicolon)?;
        Ok((test, rest))
    }

    /// The last part of a `for`, and `)`.
    fn last_turn<'a>(
        self,
        tokens: &'a [LocatedToken],
    ) -> Result<(Boxed<Stmt<Name>>, &'a [LocatedToken]), ReadRefusal>
        ensures shorter { IfOk result (λ read. length read.1.now < length tokens.now) }
        ensures ok { IfOk result (λ read. Reads self.length last_turn tokens.now read.0 read.1.now) }
        ensures err { IfErr result (Refuses self.length last_turn tokens.now) }
    {
        let (step, rest) = self.last_part(tokens)?;
        let rest = self.sign(rest, Sign::ParenClose)?;
        Ok((step, rest))
    }

    /// What stands between `split` and its block: the array, the words of its left part, and the names of
    /// the parts.
    fn parts<'a>(
        self,
        tokens: &'a [LocatedToken],
    ) -> Result<
        (
            Mark<Name>,
            Expr<Name>,
            (Mark<Name>, Mark<Name>),
            &'a [LocatedToken],
        ),
        ReadRefusal,
    >
        ensures shorter { IfOk result (λ read. length read.3.now < length tokens.now) }
        ensures ok { IfOk result (λ read. ReadsParts self.length tokens.now read.0 read.1 read.2.0 read.2.1 read.3.now) }
        ensures err { IfErr result (RefusesParts self.length tokens.now) }
    {
        let (whole, place, rest) = self.split_place(tokens)?;
        let (left, right, rest) = self.part_names(rest)?;
        Ok((whole, place, (left, right), rest))
    }

    /// The array of a `split` and the words of its left part, up to the word `as`.
    fn split_place<'a>(
        self,
        tokens: &'a [LocatedToken],
    ) -> Result<(Mark<Name>, Expr<Name>, &'a [LocatedToken]), ReadRefusal>
        ensures shorter { IfOk result (λ read. length read.2.now < length tokens.now) }
        ensures ok { IfOk result (λ read. ReadsPlace self.length tokens.now read.0 read.1 read.2.now) }
        ensures err { IfErr result (RefusesPlace self.length tokens.now) }
    {
        let (whole, rest) = self.name(tokens)?;
        let rest = self.word(rest, Keyword::At)?;
        let (place, rest) = self.value(rest)?;
        let rest = self.word(rest, Keyword::As)?;
        Ok((whole, place, rest))
    }

    /// The names of the two parts, and `{`.
    fn part_names<'a>(
        self,
        tokens: &'a [LocatedToken],
    ) -> Result<(Mark<Name>, Mark<Name>, &'a [LocatedToken]), ReadRefusal>
        ensures shorter { IfOk result (λ read. length read.2.now < length tokens.now) }
        ensures ok { IfOk result (λ read. ReadsNames self.length tokens.now read.0 read.1 read.2.now) }
        ensures err { IfErr result (RefusesNames self.length tokens.now) }
    {
        let (left, rest) = self.name(tokens)?;
        let rest = self.sign(rest, Sign::Comma)?;
        let (right, rest) = self.name(rest)?;
        let rest = self.sign(rest, Sign::BraceOpen)?;
        Ok((left, right, rest))
    }
}

// ---- statements with statements in them

impl Reader {
    /// The statements of a block at this depth behind `{`, and `}` with its offset.
    #[cycle(statement)]
    pub(crate) fn statements<'a>(
        self,
        tokens: &'a [LocatedToken],
        depth: u32,
    ) -> Result<(List<Stmt<Name>>, u32, &'a [LocatedToken]), ReadRefusal>
        requires { depth ≤ 65 }
        ensures shorter { IfOk result (λ read. length read.2.now < length tokens.now) }
        ensures ok { IfOk result (λ read. ReadsBlock self.length depth tokens.now read.0 read.1 read.2.now) }
        ensures err { IfErr result (RefusesBlock self.length depth tokens.now) }
    {
        let mut statements = List::new(self.alloc);
        let mut rest = tokens;
        while !is_next(rest, Sign::BraceClose) {
            let (statement, end) = self.statement(rest, depth)?;
            statements.push(statement)?;
            rest = end;
        }
        let close = next_offset(rest);
        let rest = self.accept(rest, true)?;
        Ok((statements, close, rest))
    }

    /// A statement of a block at this depth.
    #[cycle(statement)]
    fn statement<'a>(
        self,
        tokens: &'a [LocatedToken],
        depth: u32,
    ) -> Result<(Stmt<Name>, &'a [LocatedToken]), ReadRefusal>
        requires depth { depth ≤ 65 }
        requires more { next.is_next BraceClose tokens.now ≡ false }
        ensures shorter { IfOk result (λ read. length read.1.now < length tokens.now) }
        ensures ok { IfOk result (λ read. ReadsStatement self.length depth tokens.now read.0 read.1.now) }
        ensures err { IfErr result (RefusesStatement self.length depth tokens.now) }
    {
        if is_next_word(tokens, Keyword::Int) {
            self.declared_items(tokens, depth)
        } else {
            let (statement, rest) = self.plain(tokens, depth, depth + 1)?;
            Ok((statement, rest))
        }
    }

    /// A statement at this depth that may be a body; the statements in it are at depth `inner` where it is a
    /// block.
    #[cycle(statement)]
    fn plain<'a>(
        self,
        tokens: &'a [LocatedToken],
        depth: u32,
        inner: u32,
    ) -> Result<(Stmt<Name>, &'a [LocatedToken]), ReadRefusal>
        requires { inner ≤ depth + 1 }
        ensures shorter { IfOk result (λ read. length read.1.now < length tokens.now) }
        ensures ok { IfOk result (λ read. Reads self.length (State.plain depth inner) tokens.now read.0 read.1.now) }
        ensures err { IfErr result (Refuses self.length (State.plain depth inner) tokens.now) }
    {
        match statement_start(tokens) {
            StatementStart::Block => self.block(tokens, depth, inner),
            StatementStart::If => self.if_statement(tokens, depth),
            StatementStart::While => self.while_statement(tokens, depth),
            StatementStart::For => self.for_statement(tokens, depth),
            StatementStart::Split => self.split_statement(tokens, depth),
            StatementStart::Flat(start) => self.flat(tokens, start, depth),
        }
    }

    /// A block at this depth, whose statements are at depth `inner`.
    #[cycle(statement)]
    fn block<'a>(
        self,
        tokens: &'a [LocatedToken],
        depth: u32,
        inner: u32,
    ) -> Result<(Stmt<Name>, &'a [LocatedToken]), ReadRefusal>
        requires inner { inner ≤ depth + 1 }
        requires start { next.statement_start tokens.now ≡ starts.Block }
        ensures shorter { IfOk result (λ read. length read.1.now < length tokens.now) }
        ensures ok { IfOk result (λ read. Reads self.length (State.plain depth inner) tokens.now read.0 read.1.now) }
        ensures err { IfErr result (Refuses self.length (State.plain depth inner) tokens.now) }
    {
        let rest = self.accept(tokens, depth <= MAX_DEPTH)?;
        let (inside, _, rest) = self.statements(rest, inner)?;
        Ok((Stmt::Block(inside), rest))
    }

    /// A body of a statement at this depth.
    #[cycle(statement)]
    fn body<'a>(
        self,
        tokens: &'a [LocatedToken],
        depth: u32,
    ) -> Result<(Boxed<Stmt<Name>>, &'a [LocatedToken]), ReadRefusal>
        requires { depth ≤ 64 }
        ensures shorter { IfOk result (λ read. length read.1.now < length tokens.now) }
        ensures ok { IfOk result (λ read. Reads self.length (body depth) tokens.now read.0 read.1.now) }
        ensures err { IfErr result (Refuses self.length (body depth) tokens.now) }
    {
        let (inside, rest) = self.plain(tokens, depth + 1, depth + 1)?;
        let body = Boxed::new(self.alloc, inside)?;
        Ok((body, rest))
    }

    /// A statement that begins with `if`.
    #[cycle(statement)]
    fn if_statement<'a>(
        self,
        tokens: &'a [LocatedToken],
        depth: u32,
    ) -> Result<(Stmt<Name>, &'a [LocatedToken]), ReadRefusal>
        requires { next.statement_start tokens.now ≡ starts.If }
        ensures shorter { IfOk result (λ read. length read.1.now < length tokens.now) }
        ensures ok { IfOk result (λ read. ReadsFlat self.length depth tokens.now read.0 read.1.now) }
        ensures err { IfErr result (RefusesFlat self.length depth tokens.now) }
    {
        let rest = self.accept(tokens, depth <= MAX_DEPTH)?;
        let (test, rest) = self.parenthesized(rest)?;
        let (then, other, rest) = self.branches(rest, depth)?;
        Ok((Stmt::If { test, then, other }, rest))
    }

    /// The statement of an `if` at this depth, and its `else`, where there is one.
    #[cycle(statement)]
    fn branches<'a>(
        self,
        tokens: &'a [LocatedToken],
        depth: u32,
    ) -> Result<
        (
            Boxed<Stmt<Name>>,
            Option<Boxed<Stmt<Name>>>,
            &'a [LocatedToken],
        ),
        ReadRefusal,
    >
        requires { depth ≤ 64 }
        ensures shorter { IfOk result (λ read. length read.2.now < length tokens.now) }
        ensures ok { IfOk result (λ read. ReadsBranches self.length depth tokens.now read.0 read.1 read.2.now) }
        ensures err { IfErr result (RefusesBranches self.length depth tokens.now) }
    {
        let (then, rest) = self.body(tokens, depth)?;
        let (other, rest) = self.otherwise(rest, depth)?;
        Ok((then, other, rest))
    }

    /// `else` and what follows it behind an `if` at this depth, or nothing.
    #[cycle(statement)]
    fn otherwise<'a>(
        self,
        tokens: &'a [LocatedToken],
        depth: u32,
    ) -> Result<(Option<Boxed<Stmt<Name>>>, &'a [LocatedToken]), ReadRefusal>
        requires { depth ≤ 64 }
        ensures shorter { IfOk result (λ read. length read.1.now ≤ length tokens.now) }
        ensures ok { IfOk result (λ read. ReadsOther self.length depth tokens.now read.0 read.1.now) }
        ensures err { IfErr result (RefusesOther self.length depth tokens.now) }
    {
        if is_next_word(tokens, Keyword::Else) {
            let rest = self.accept(tokens, true)?;
            let (other, rest) = self.body(rest, depth)?;
            Ok((Some(other), rest))
        } else {
            Ok((None, tokens))
        }
    }

    /// A statement that begins with `while`.
    #[cycle(statement)]
    fn while_statement<'a>(
        self,
        tokens: &'a [LocatedToken],
        depth: u32,
    ) -> Result<(Stmt<Name>, &'a [LocatedToken]), ReadRefusal>
        requires { next.statement_start tokens.now ≡ starts.While }
        ensures shorter { IfOk result (λ read. length read.1.now < length tokens.now) }
        ensures ok { IfOk result (λ read. ReadsFlat self.length depth tokens.now read.0 read.1.now) }
        ensures err { IfErr result (RefusesFlat self.length depth tokens.now) }
    {
        let rest = self.accept(tokens, depth <= MAX_DEPTH)?;
        let (test, rest) = self.parenthesized(rest)?;
        let (body, rest) = self.body(rest, depth)?;
        Ok((Stmt::While { test, body }, rest))
    }

    /// A statement that begins with `for`.
    #[cycle(statement)]
    fn for_statement<'a>(
        self,
        tokens: &'a [LocatedToken],
        depth: u32,
    ) -> Result<(Stmt<Name>, &'a [LocatedToken]), ReadRefusal>
        requires { next.statement_start tokens.now ≡ starts.For }
        ensures shorter { IfOk result (λ read. length read.1.now < length tokens.now) }
        ensures ok { IfOk result (λ read. ReadsFlat self.length depth tokens.now read.0 read.1.now) }
        ensures err { IfErr result (RefusesFlat self.length depth tokens.now) }
    {
        let rest = self.accept(tokens, depth <= MAX_DEPTH)?;
        let (first, test, step, rest) = self.turns(rest)?;
        let (body, rest) = self.body(rest, depth)?;
        Ok((
            Stmt::For {
                first,
                test,
                step,
                body,
            },
            rest,
        ))
    }

    /// A statement that begins with `split`.
    #[cycle(statement)]
    fn split_statement<'a>(
        self,
        tokens: &'a [LocatedToken],
        depth: u32,
    ) -> Result<(Stmt<Name>, &'a [LocatedToken]), ReadRefusal>
        requires { next.statement_start tokens.now ≡ starts.Split }
        ensures shorter { IfOk result (λ read. length read.1.now < length tokens.now) }
        ensures ok { IfOk result (λ read. ReadsFlat self.length depth tokens.now read.0 read.1.now) }
        ensures err { IfErr result (RefusesFlat self.length depth tokens.now) }
    {
        let rest = self.accept(tokens, depth <= MAX_DEPTH)?;
        let (whole, place, (left, right), rest) = self.parts(rest)?;
        let (body, close, rest) = self.statements(rest, depth + 1)?;
        Ok((
            Stmt::Split {
                whole,
                place,
                left,
                right,
                body,
                close,
            },
            rest,
        ))
    }
}
