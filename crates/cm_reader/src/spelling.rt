//! How words and signs are written, and the signs and levels of operators.
ghost use Rattle.std.specs.Prelude.{◌≡◌};
ghost use Rattle.std.specs.List.{list_any, find};
ghost use Rattle.cm_syntax.specs.Text as spelled;
ghost use Rattle.cm_syntax.specs.Token as token;
ghost use Rattle.cm_syntax.specs.Lexer as lexer;
ghost use Rattle.cm_syntax.specs.ParseTree as grammar;
ghost use Rattle.cm_syntax.specs.Yield as yield_;
ghost use Rattle.cm_syntax.specs.Canonical as canonical;
ghost use Rattle.cm_reader.specs.Spelling.{signs_from};

use cm_syntax::{Keyword, Op, Sign};

/// All words that are no names.
const KEYWORDS: [Keyword; 17] = [
    Keyword::Int,
    Keyword::Void,
    Keyword::Cilk,
    Keyword::Spawn,
    Keyword::Sync,
    Keyword::If,
    Keyword::Else,
    Keyword::While,
    Keyword::For,
    Keyword::Return,
    Keyword::Print,
    Keyword::Input,
    Keyword::Inputs,
    Keyword::Len,
    Keyword::Split,
    Keyword::At,
    Keyword::As,
];

/// The words that are set aside.
const RESERVED: [&[u8]; 30] = [
    b"const",
    b"cilk_spawn",
    b"cilk_sync",
    b"cilk_for",
    b"grain",
    b"reducer",
    b"foreign",
    b"extern",
    b"break",
    b"continue",
    b"do",
    b"goto",
    b"switch",
    b"case",
    b"default",
    b"struct",
    b"union",
    b"enum",
    b"typedef",
    b"static",
    b"char",
    b"short",
    b"long",
    b"unsigned",
    b"signed",
    b"float",
    b"double",
    b"sizeof",
    b"inlet",
    b"abort",
];

/// The word that is written so.
pub(crate) fn keyword_written(text: &[u8]) -> Option<Keyword>
    ensures { result ≡ lexer.keyword_written text.now }
{
    keyword_among(text, &KEYWORDS)
}

/// The first of these words that is written so.
fn keyword_among(text: &[u8], keywords: &[Keyword]) -> Option<Keyword>
    ensures { result ≡ find (λ keyword. spelled.is_same (spelled.keyword_text keyword) text.now) keywords.now }
{
    keywords
        .iter()
        .copied()
        .find(|keyword| keyword_text(*keyword) == text)
}

/// The sign that is written so.
pub(crate) fn sign_written(text: &[u8]) -> Option<Sign>
    ensures { result ≡ lexer.sign_written text.now }
{
    match text.split_first() {
        None => None,
        Some((first, _)) => sign_among(text, signs_from(*first)),
    }
}

/// The signs that begin with a byte, the longest first.
fn signs_from(first: u8) -> &'static [Sign]
    ensures { result.now ≡ signs_from first }
{
    match first {
        b'<' => &[
            Sign::ShiftLeftAssign,
            Sign::ShiftLeft,
            Sign::LessEqual,
            Sign::Less,
        ],
        b'>' => &[
            Sign::ShiftRightAssign,
            Sign::ShiftRight,
            Sign::GreaterEqual,
            Sign::Greater,
        ],
        b'=' => &[Sign::Equal, Sign::Assign],
        b'!' => &[Sign::NotEqual, Sign::Exclamation],
        b'&' => &[Sign::AndAnd, Sign::AndAssign, Sign::Ampersand],
        b'|' => &[Sign::OrOr, Sign::OrAssign, Sign::Bar],
        b'+' => &[Sign::PlusAssign, Sign::PlusPlus, Sign::Plus],
        b'-' => &[Sign::MinusAssign, Sign::MinusMinus, Sign::Minus],
        b'*' => &[Sign::StarAssign, Sign::Star],
        b'/' => &[Sign::SlashAssign, Sign::Slash],
        b'%' => &[Sign::PercentAssign, Sign::Percent],
        b'^' => &[Sign::CaretAssign, Sign::Caret],
        b'~' => &[Sign::Tilde],
        b'(' => &[Sign::ParenOpen],
        b')' => &[Sign::ParenClose],
        b'{' => &[Sign::BraceOpen],
        b'}' => &[Sign::BraceClose],
        b'[' => &[Sign::BracketOpen],
        b']' => &[Sign::BracketClose],
        b',' => &[Sign::Comma],
        b';' => &[Sign::Semicolon],
        _ => &[],
    }
}

/// The first of these signs that is written so.
fn sign_among(text: &[u8], signs: &[Sign]) -> Option<Sign>
    ensures { result ≡ find (λ sign. spelled.is_same (spelled.sign_text sign) text.now) signs.now }
{
    signs.iter().copied().find(|sign| sign_text(*sign) == text)
}

/// Whether a word is set aside.
pub(crate) fn is_reserved(text: &[u8]) -> bool
    ensures { result ≡ token.is_reserved text.now }
{
    is_among(text, &RESERVED)
}

/// Whether a text is one of these words.
fn is_among(text: &[u8], words: &[&[u8]]) -> bool
    ensures { result ≡ list_any (λ word. spelled.is_same text.now word.now) words.now }
{
    words.iter().any(|word| text == *word)
}

/// The bytes of a word.
pub(crate) fn keyword_text(keyword: Keyword) -> &'static [u8]
    ensures { result.now ≡ spelled.keyword_text keyword }
{
    match keyword {
        Keyword::Int => b"int",
        Keyword::Void => b"void",
        Keyword::Cilk => b"cilk",
        Keyword::Spawn => b"spawn",
        Keyword::Sync => b"sync",
        Keyword::If => b"if",
        Keyword::Else => b"else",
        Keyword::While => b"while",
        Keyword::For => b"for",
        Keyword::Return => b"return",
        Keyword::Print => b"print",
        Keyword::Input => b"input",
        Keyword::Inputs => b"inputs",
        Keyword::Len => b"len",
        Keyword::Split => b"split",
        Keyword::At => b"at",
        Keyword::As => b"as",
    }
}

/// The bytes of a sign.
pub(crate) fn sign_text(sign: Sign) -> &'static [u8]
    ensures { result.now ≡ spelled.sign_text sign }
{
    match sign {
        Sign::ShiftLeftAssign => b"<<=",
        Sign::ShiftRightAssign => b">>=",
        Sign::ShiftLeft => b"<<",
        Sign::ShiftRight => b">>",
        Sign::LessEqual => b"<=",
        Sign::GreaterEqual => b">=",
        Sign::Equal => b"==",
        Sign::NotEqual => b"!=",
        Sign::AndAnd => b"&&",
        Sign::OrOr => b"||",
        Sign::PlusAssign => b"+=",
        Sign::MinusAssign => b"-=",
        Sign::StarAssign => b"*=",
        Sign::SlashAssign => b"/=",
        Sign::PercentAssign => b"%=",
        Sign::AndAssign => b"&=",
        Sign::CaretAssign => b"^=",
        Sign::OrAssign => b"|=",
        Sign::PlusPlus => b"++",
        Sign::MinusMinus => b"--",
        Sign::Plus => b"+",
        Sign::Minus => b"-",
        Sign::Star => b"*",
        Sign::Slash => b"/",
        Sign::Percent => b"%",
        Sign::Less => b"<",
        Sign::Greater => b">",
        Sign::Assign => b"=",
        Sign::Exclamation => b"!",
        Sign::Tilde => b"~",
        Sign::Ampersand => b"&",
        Sign::Caret => b"^",
        Sign::Bar => b"|",
        Sign::ParenOpen => b"(",
        Sign::ParenClose => b")",
        Sign::BraceOpen => b"{",
        Sign::BraceClose => b"}",
        Sign::BracketOpen => b"[",
        Sign::BracketClose => b"]",
        Sign::Comma => b",",
        Sign::Semicolon => b";",
    }
}

/// The sign of an operator.
pub(crate) fn sign_of(op: Op) -> Sign
    ensures { result ≡ yield_.sign_of op }
{
    match op {
        Op::Neg => Sign::Minus,
        Op::Not => Sign::Exclamation,
        Op::Flip => Sign::Tilde,
        Op::Mul => Sign::Star,
        Op::Div => Sign::Slash,
        Op::Rem => Sign::Percent,
        Op::Add => Sign::Plus,
        Op::Sub => Sign::Minus,
        Op::Shl => Sign::ShiftLeft,
        Op::Shr => Sign::ShiftRight,
        Op::Lt => Sign::Less,
        Op::Le => Sign::LessEqual,
        Op::Gt => Sign::Greater,
        Op::Ge => Sign::GreaterEqual,
        Op::Eq => Sign::Equal,
        Op::Ne => Sign::NotEqual,
        Op::And => Sign::Ampersand,
        Op::Xor => Sign::Caret,
        Op::Or => Sign::Bar,
        Op::Both => Sign::AndAnd,
        Op::Either => Sign::OrOr,
    }
}

/// The sign of an update by an operator; `=` for one that no update has.
pub(crate) fn update_sign(op: Op) -> Sign
    ensures { result ≡ yield_.update_sign op }
{
    match op {
        Op::Mul => Sign::StarAssign,
        Op::Div => Sign::SlashAssign,
        Op::Rem => Sign::PercentAssign,
        Op::Add => Sign::PlusAssign,
        Op::Sub => Sign::MinusAssign,
        Op::Shl => Sign::ShiftLeftAssign,
        Op::Shr => Sign::ShiftRightAssign,
        Op::And => Sign::AndAssign,
        Op::Xor => Sign::CaretAssign,
        Op::Or => Sign::OrAssign,
        _ => Sign::Assign,
    }
}

/// The sign of an assignment, or of an update by an operator.
pub(crate) fn assign_sign(op: Option<Op>) -> Sign
    ensures { result ≡ canonical.assign_sign op }
{
    match op {
        None => Sign::Assign,
        Some(op) => update_sign(op),
    }
}

/// The level of an operator: one of a higher level binds tighter.
pub(crate) fn level_of(op: Op) -> u32
    ensures { result ≡ grammar.level_of op }
{
    match op {
        Op::Either => 1,
        Op::Both => 2,
        Op::Or => 3,
        Op::Xor => 4,
        Op::And => 5,
        Op::Eq | Op::Ne => 6,
        Op::Lt | Op::Le | Op::Gt | Op::Ge => 7,
        Op::Shl | Op::Shr => 8,
        Op::Add | Op::Sub => 9,
        Op::Mul | Op::Div | Op::Rem => 10,
        Op::Neg | Op::Not | Op::Flip => 11,
    }
}
