//! From a text to its tokens.
ghost use Rattle.std.specs.Prelude.{◌≡◌, ◌&&◌, ◌<◌, ◌+◌, ◌-◌, List as ListOf, ℕ, length, take, drop, map, nat_lt, if◌then◌else◌, option_map, IfOk, Some, None};
ghost use Rattle.cm_syntax.specs.Text as spelled;
ghost use Rattle.std.specs.Str.Parse.{digits_value};
ghost use Rattle.cm_syntax.specs.Token as language;
ghost use Rattle.cm_syntax.specs.Limit.{max_open_brackets, max_source_bytes};
ghost use Rattle.cm_syntax.specs.Lexer as lexer;
ghost use Rattle.cm_syntax.specs.Refusal as refusal;
ghost use Rattle.cm_syntax.specs.Parser.{capped, capped_token, nested_tokens, readable};
ghost use Rattle.cm_reader.specs.Next.{token_of, nested};
ghost use Rattle.cm_reader.specs.Found.{next_of, capped_next};

use crate::cursor::MAX_SOURCE_BYTES;
use crate::scan::{
    begins_letter, begins_space, begins_word, block_length, digits_value, is_number, is_pair,
    line_length, run_length,
};
use crate::spelling::{is_reserved, keyword_written, sign_text, sign_written};
use crate::token::{LocatedToken, Token};
use cm_syntax::{Name, Sign};
use cm_text::{List, Memory};
use std::alloc::Global;

/// The `(` and `[` that are open at once in a statement, at most.
const MAX_OPEN_BRACKETS: u32 = 64;

/// What stands at the front of a text.
#[derive(Debug, Drop)]
pub(crate) enum Found {
    /// So many bytes of white space or of a comment.
    Skips(usize),
    /// A token of so many bytes.
    Finds(Token, usize),
    /// A byte that begins nothing.
    Fails,
}

/// The tokens of a source text, up to the first byte that begins no token or the first token that stands beyond the
/// limit of a source, 65,536 bytes. `Memory` is want of memory.
pub(crate) fn tokens(alloc: Global, source: &[u8]) -> Result<List<LocatedToken>, Memory>
    ensures { (all : ListOf language.LocatedToken) → language.Tokens 0 source.now all
        → IfOk result (λ tokens. nested tokens ≡ nested_tokens 0 0 (readable (map capped all))) }
{
    let mut tokens = List::new(alloc);
    let mut brackets = Brackets {
        opened: 0,
        closed: 0,
    };
    let end = source.len().min(MAX_SOURCE_BYTES as usize);
    let mut at = 0;
    while at < end {
        match front(alloc, &source[at..])? {
            Found::Skips(bytes) => at += bytes,
            Found::Finds(token, bytes) => {
                let too_nested = brackets.count(&token);
                tokens.push(LocatedToken {
                    token,
                    at: at as u32,
                    too_nested,
                })?;
                at += bytes;
            }
            Found::Fails => {
                tokens.push(LocatedToken {
                    token: Token::Unfit,
                    at: at as u32,
                    too_nested: false,
                })?;
                return Ok(tokens);
            }
        }
    }
    Ok(tokens)
}

/// What stands at the front of a text that isn't empty.
fn front(alloc: Global, bytes: &[u8]) -> Result<Found, Memory>
    requires { 0 < length bytes.now }
    ensures { IfOk result (λ found. next_of found ≡ capped_next (lexer.next bytes.now)) }
{
    if begins_space(bytes) {
        return Ok(Found::Skips(1));
    }
    if is_pair(bytes, b'/', b'/') {
        return Ok(Found::Skips(line_length(bytes)));
    }
    if is_pair(bytes, b'/', b'*') {
        return Ok(block(bytes));
    }
    if begins_word(bytes) {
        return run(alloc, bytes);
    }
    Ok(sign(bytes))
}

/// How many brackets stand before a token.
#[derive(Clone, Copy, Debug)]
struct Brackets {
    /// Those that are `(` or `[`.
    opened: u32,
    /// Those that are `)` or `]`.
    closed: u32,
}

impl Brackets {
    /// Counts a token, and says whether it opens one bracket more than may be open at once.
    fn count(&mut self, token: &Token) -> bool
        requires opened { self.old.opened < max_source_bytes }
        requires closed { self.old.closed < max_source_bytes }
        ensures nested { result ≡ (refusal.is_opening (token_of token.now) && nat_lt max_open_brackets (self.old.opened + 1 - self.old.closed)) }
        ensures opened { self.new.opened ≡ if refusal.is_opening (token_of token.now) then self.old.opened + 1 else self.old.opened }
        ensures closed { self.new.closed ≡ if refusal.is_closing (token_of token.now) then self.old.closed + 1 else self.old.closed }
    {
        if is_closing(token) {
            self.closed += 1;
        }
        if !is_opening(token) {
            return false;
        }
        self.opened += 1;
        self.opened > self.closed + MAX_OPEN_BRACKETS
    }
}

/// Whether a token is `(` or `[`.
fn is_opening(token: &Token) -> bool
    ensures { result ≡ refusal.is_opening (token_of token.now) }
{
    match token {
        Token::Sign(sign) => match sign {
            Sign::ParenOpen | Sign::BracketOpen => true,
            _ => false,
        },
        _ => false,
    }
}

/// Whether a token is `)` or `]`.
fn is_closing(token: &Token) -> bool
    ensures { result ≡ refusal.is_closing (token_of token.now) }
{
    match token {
        Token::Sign(sign) => match sign {
            Sign::ParenClose | Sign::BracketClose => true,
            _ => false,
        },
        _ => false,
    }
}

/// A block comment, or nothing where it has no end.
fn block(bytes: &[u8]) -> Found
    ensures { next_of result ≡ if lexer.has_end (drop 2 bytes.now) then lexer.skips (lexer.block_length bytes.now) else lexer.fails }
{
    match block_length(bytes) {
        Some(length) => Found::Skips(length),
        None => Found::Fails,
    }
}

/// The run of letters, digits and `_` that a text begins with.
fn run(alloc: Global, bytes: &[u8]) -> Result<Found, Memory>
    ensures { IfOk result (λ found. next_of found ≡ capped_next (lexer.run_next
        (lexer.run_token (lexer.front spelled.is_word_byte bytes.now)) (length (lexer.front spelled.is_word_byte bytes.now)))) }
{
    let length = run_length(bytes);
    match run_token(alloc, &bytes[..length])? {
        Some(token) => Ok(Found::Finds(token, length)),
        None => Ok(Found::Fails),
    }
}

/// What a run of letters, digits and `_` is, where it is a token.
fn run_token(alloc: Global, text: &[u8]) -> Result<Option<Token>, Memory>
    ensures { IfOk result (λ token. option_map token_of token ≡ option_map capped_token (lexer.run_token text.now)) }
{
    if let Some(keyword) = keyword_written(text) {
        return Ok(Some(Token::Keyword(keyword)));
    }
    if !begins_letter(text) {
        return Ok(number(text));
    }
    if is_reserved(text) {
        return Ok(Some(Token::Unfit));
    }
    let name = Name::of(alloc, text)?;
    Ok(Some(Token::Name(name)))
}

/// A number, where the text is one.
fn number(text: &[u8]) -> Option<Token>
    ensures { option_map token_of result ≡ option_map capped_token (if lexer.is_number text.now then Some (language.Token.number (digits_value 10 text.now)) else None) }
{
    if is_number(text) {
        Some(Token::Number(digits_value(text)))
    } else {
        None
    }
}

/// A sign, or nothing.
fn sign(bytes: &[u8]) -> Found
    ensures { next_of result ≡ lexer.sign_next (lexer.sign_there bytes.now) }
{
    match sign_there(bytes) {
        Some(sign) => Found::Finds(Token::Sign(sign), sign_text(sign).len()),
        None => Found::Fails,
    }
}

/// The longest sign that a text begins with, where it begins with one.
fn sign_there(bytes: &[u8]) -> Option<Sign>
    ensures { result ≡ lexer.sign_there bytes.now }
{
    if let Some(sign) = sign_written(at_most(bytes, 3)) {
        return Some(sign);
    }
    if let Some(sign) = sign_written(at_most(bytes, 2)) {
        return Some(sign);
    }
    sign_written(at_most(bytes, 1))
}

/// The first bytes of a text, at most so many.
fn at_most(bytes: &[u8], length: usize) -> &[u8]
    ensures { result.now ≡ take length bytes.now }
{
    if length < bytes.len() {
        &bytes[..length]
    } else {
        bytes
    }
}
