//! What a part of a program begins with, by its first token.
ghost use Rattle.std.specs.Prelude.{◌≡◌, Option};
ghost use Rattle.cm_syntax.specs.Token as machine;
ghost use Rattle.cm_syntax.specs.Parser.{is_sign, is_word, sign_operator, update_operator};
ghost use Rattle.cm_reader.specs.Next as next;

use crate::token::{LocatedToken, Token};
use cm_syntax::{Keyword, Op, Sign};

/// What an operand begins with that has no unary operator.
#[derive(Clone, Copy)]
pub enum PrimaryStart {
    /// A literal.
    Number(u32),
    /// A name.
    Name,
    /// `*`
    Pointee,
    /// `(`
    Group,
    /// `len`
    Len,
    /// `input`
    Input,
    /// `inputs`
    Inputs,
    /// No operand begins so.
    Nothing,
}

/// What a statement begins with that may be a body.
#[derive(Clone, Copy)]
pub enum StatementStart {
    /// `{`
    Block,
    /// `if`
    If,
    /// `while`
    While,
    /// `for`
    For,
    /// `split`
    Split,
    /// What no statement in a statement can follow.
    Flat(FlatStart),
}

/// What a statement begins with that has no statement in it.
#[derive(Clone, Copy)]
pub enum FlatStart {
    /// A name.
    Name,
    /// `;`
    Empty,
    /// `return`
    Return,
    /// `print`
    Print,
    /// `sync`
    Sync,
    /// `spawn`
    Spawn,
    /// Another assignment or call, or no statement.
    Simple,
}

/// The sign that stands next.
pub(crate) fn sign_of(tokens: &[LocatedToken]) -> Option<Sign>
    ensures { result ≡ next.sign_of tokens.now }
{
    let (first, _) = tokens.split_first()?;
    match &first.token {
        Token::Sign(sign) => Some(*sign),
        _ => None,
    }
}

/// Whether this sign stands next.
pub(crate) fn is_next(tokens: &[LocatedToken], sign: Sign) -> bool
    ensures { result ≡ next.is_next sign tokens.now }
{
    let Some((first, _)) = tokens.split_first() else {
        return false;
    };
    match &first.token {
        Token::Sign(found) => same_sign(*found, sign),
        _ => false,
    }
}

/// Whether this word stands next.
pub(crate) fn is_next_word(tokens: &[LocatedToken], word: Keyword) -> bool
    ensures { result ≡ next.is_next_word word tokens.now }
{
    let Some((first, _)) = tokens.split_first() else {
        return false;
    };
    match &first.token {
        Token::Keyword(found) => same_word(*found, word),
        _ => false,
    }
}

/// Whether the signs are the same.
fn same_sign(found: Sign, sign: Sign) -> bool
    ensures { result ≡ is_sign sign (machine.Token.sign found) }
{
    found == sign
}

/// Whether the words are the same.
fn same_word(found: Keyword, word: Keyword) -> bool
    ensures { result ≡ is_word word (machine.Token.keyword found) }
{
    found == word
}

/// The offset of the next token, or 0 where the tokens end.
pub(crate) fn next_offset(tokens: &[LocatedToken]) -> u32
    ensures { result ≡ next.next_offset tokens.now }
{
    match tokens.split_first() {
        Some((first, _)) => first.at,
        None => 0,
    }
}

// ---- operators

/// The binary operator that stands next.
pub(crate) fn binary_operator(tokens: &[LocatedToken]) -> Option<Op>
    ensures { result ≡ next.binary_operator tokens.now }
{
    match sign_of(tokens) {
        Some(sign) => sign_binary_operator(sign),
        None => None,
    }
}

/// The binary operator of a sign.
fn sign_binary_operator(sign: Sign) -> Option<Op>
    ensures { result ≡ sign_operator sign }
{
    match sign {
        Sign::Star => Some(Op::Mul),
        Sign::Slash => Some(Op::Div),
        Sign::Percent => Some(Op::Rem),
        Sign::Plus => Some(Op::Add),
        Sign::Minus => Some(Op::Sub),
        Sign::ShiftLeft => Some(Op::Shl),
        Sign::ShiftRight => Some(Op::Shr),
        Sign::Less => Some(Op::Lt),
        Sign::LessEqual => Some(Op::Le),
        Sign::Greater => Some(Op::Gt),
        Sign::GreaterEqual => Some(Op::Ge),
        Sign::Equal => Some(Op::Eq),
        Sign::NotEqual => Some(Op::Ne),
        Sign::Ampersand => Some(Op::And),
        Sign::Caret => Some(Op::Xor),
        Sign::Bar => Some(Op::Or),
        Sign::AndAnd => Some(Op::Both),
        Sign::OrOr => Some(Op::Either),
        _ => None,
    }
}

/// The unary operator that stands next.
pub(crate) fn unary_operator(tokens: &[LocatedToken]) -> Option<Op>
    ensures { result ≡ next.unary_operator tokens.now }
{
    match sign_of(tokens) {
        Some(sign) => sign_unary_operator(sign),
        None => None,
    }
}

/// The unary operator of a sign.
fn sign_unary_operator(sign: Sign) -> Option<Op>
    ensures { result ≡ next.sign_unary_operator sign }
{
    match sign {
        Sign::Minus => Some(Op::Neg),
        Sign::Exclamation => Some(Op::Not),
        Sign::Tilde => Some(Op::Flip),
        _ => None,
    }
}

/// What the assignment does whose sign stands next: the operator of an update, or none for `=`.
pub(crate) fn next_assignment(tokens: &[LocatedToken]) -> Option<Option<Op>>
    ensures { result ≡ next.next_assignment tokens.now }
{
    match sign_of(tokens) {
        Some(sign) => sign_assignment(sign),
        None => None,
    }
}

/// What the assignment does that has this sign.
fn sign_assignment(sign: Sign) -> Option<Option<Op>>
    ensures { result ≡ next.sign_assignment sign }
{
    match sign_update(sign) {
        Some(op) => Some(Some(op)),
        None if same_sign(sign, Sign::Assign) => Some(None),
        None => None,
    }
}

/// The operator of the sign of an update.
fn sign_update(sign: Sign) -> Option<Op>
    ensures { result ≡ update_operator sign }
{
    match sign {
        Sign::StarAssign => Some(Op::Mul),
        Sign::SlashAssign => Some(Op::Div),
        Sign::PercentAssign => Some(Op::Rem),
        Sign::PlusAssign => Some(Op::Add),
        Sign::MinusAssign => Some(Op::Sub),
        Sign::ShiftLeftAssign => Some(Op::Shl),
        Sign::ShiftRightAssign => Some(Op::Shr),
        Sign::AndAssign => Some(Op::And),
        Sign::CaretAssign => Some(Op::Xor),
        Sign::OrAssign => Some(Op::Or),
        _ => None,
    }
}

// ---- operands and statements

/// The number that stands next.
pub(crate) fn next_number(tokens: &[LocatedToken]) -> Option<u32>
    ensures { result ≡ next.next_number tokens.now }
{
    let (first, _) = tokens.split_first()?;
    match &first.token {
        Token::Number(value) => Some(*value),
        _ => None,
    }
}

/// What the operand that stands next begins with, behind its unary operators.
pub(crate) fn primary_start(tokens: &[LocatedToken]) -> PrimaryStart
    ensures { result ≡ next.primary_start tokens.now }
{
    let Some((first, _)) = tokens.split_first() else {
        return PrimaryStart::Nothing;
    };
    match &first.token {
        Token::Number(value) => PrimaryStart::Number(*value),
        Token::Name(_) => PrimaryStart::Name,
        Token::Sign(sign) => sign_primary(*sign),
        Token::Keyword(word) => word_primary(*word),
        Token::Unfit => PrimaryStart::Nothing,
    }
}

/// What an operand begins with where its first token is this sign.
fn sign_primary(sign: Sign) -> PrimaryStart
    ensures { result ≡ next.sign_primary sign }
{
    match sign {
        Sign::Star => PrimaryStart::Pointee,
        Sign::ParenOpen => PrimaryStart::Group,
        _ => PrimaryStart::Nothing,
    }
}

/// What an operand begins with where its first token is this word.
fn word_primary(word: Keyword) -> PrimaryStart
    ensures { result ≡ next.word_primary word }
{
    match word {
        Keyword::Len => PrimaryStart::Len,
        Keyword::Input => PrimaryStart::Input,
        Keyword::Inputs => PrimaryStart::Inputs,
        _ => PrimaryStart::Nothing,
    }
}

/// What the statement that stands next begins with.
pub(crate) fn statement_start(tokens: &[LocatedToken]) -> StatementStart
    ensures { result ≡ next.statement_start tokens.now }
{
    let Some((first, _)) = tokens.split_first() else {
        return StatementStart::Flat(FlatStart::Simple);
    };
    match &first.token {
        Token::Name(_) => StatementStart::Flat(FlatStart::Name),
        Token::Sign(sign) => sign_statement(*sign),
        Token::Keyword(word) => word_statement(*word),
        Token::Number(_) => StatementStart::Flat(FlatStart::Simple),
        Token::Unfit => StatementStart::Flat(FlatStart::Simple),
    }
}

/// What a statement begins with where its first token is this sign.
fn sign_statement(sign: Sign) -> StatementStart
    ensures { result ≡ next.sign_statement sign }
{
    match sign {
        Sign::BraceOpen => StatementStart::Block,
        Sign::Semicolon => StatementStart::Flat(FlatStart::Empty),
        _ => StatementStart::Flat(FlatStart::Simple),
    }
}

/// What a statement begins with where its first token is this word.
fn word_statement(word: Keyword) -> StatementStart
    ensures { result ≡ next.word_statement word }
{
    match word {
        Keyword::If => StatementStart::If,
        Keyword::While => StatementStart::While,
        Keyword::For => StatementStart::For,
        Keyword::Split => StatementStart::Split,
        Keyword::Return => StatementStart::Flat(FlatStart::Return),
        Keyword::Print => StatementStart::Flat(FlatStart::Print),
        Keyword::Sync => StatementStart::Flat(FlatStart::Sync),
        Keyword::Spawn => StatementStart::Flat(FlatStart::Spawn),
        _ => StatementStart::Flat(FlatStart::Simple),
    }
}
