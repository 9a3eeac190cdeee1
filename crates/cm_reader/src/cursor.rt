//! How tokens are taken.
ghost use Rattle.std.specs.Prelude.{true, ◌≡◌, ◌<◌, IfOk, IfErr, length};
ghost use Rattle.std.specs.Prelude.{None};
ghost use Rattle.cm_syntax.specs.Parser.{State, end_answer};
ghost use Rattle.cm_reader.specs.Read.{answer, IsRefusal, IsStuck, Goes, Reads, Refuses, ReadsName, RefusesName};

use crate::refusal::ReadRefusal;
use crate::start::{is_next, is_next_word};
use crate::token::{LocatedToken, Token};
use cm_syntax::{Keyword, Mark, Name, Sign};
use std::alloc::Global;

/// The most bytes that a source has.
pub(crate) const MAX_SOURCE_BYTES: u32 = 65536;

/// What each part of the reader needs: where trees are made, and the bytes of the text.
#[derive(Clone, Copy)]
pub struct Reader {
    /// Where trees are made.
    pub alloc: Global,
    /// The bytes of the text.
    pub length: u32,
}

impl Reader {
    /// Why a text is refused that ends too early.
    pub(crate) fn refuse_end(self) -> ReadRefusal
        ensures { IsRefusal result (end_answer self.length None) }
    {
        if self.length > MAX_SOURCE_BYTES {
            ReadRefusal::Size {
                at: MAX_SOURCE_BYTES,
            }
        } else {
            ReadRefusal::Syntax { at: self.length }
        }
    }

    /// Why a text is refused where the next token doesn't fit.
    pub(crate) fn refuse(self, tokens: &[LocatedToken]) -> ReadRefusal
        ensures { (s : State) → IsStuck s tokens.now → IsRefusal result (answer self.length s tokens.now) }
    {
        match tokens.split_first() {
            Some((first, _)) => ReadRefusal::Syntax { at: first.at },
            None => self.refuse_end(),
        }
    }

    /// Takes the next token, which the grammar allows here; what is counted at it is within its limit or not.
    pub(crate) fn accept<'a>(
        self,
        tokens: &'a [LocatedToken],
        fits: bool,
    ) -> Result<&'a [LocatedToken], ReadRefusal>
        ensures within { IfOk result (λ rest. fits ≡ true) }
        ensures shorter { IfOk result (λ rest. length rest.now < length tokens.now) }
        ensures ok { IfOk result (λ rest. (s : State) (next : State) → Goes s tokens.now fits next → answer self.length s tokens.now ≡ answer self.length next rest.now) }
        ensures err { IfErr result (λ refusal. (s : State) (next : State) → Goes s tokens.now fits next → IsRefusal refusal (answer self.length s tokens.now)) }
    {
        let Some((first, rest)) = tokens.split_first() else {
            return Err(self.refuse(tokens));
        };
        if !fits || first.too_nested {
            return Err(ReadRefusal::Size { at: first.at });
        }
        Ok(rest)
    }

    /// Takes this sign.
    pub(crate) fn sign<'a>(
        self,
        tokens: &'a [LocatedToken],
        sign: Sign,
    ) -> Result<&'a [LocatedToken], ReadRefusal>
        ensures shorter { IfOk result (λ rest. length rest.now < length tokens.now) }
        ensures ok { IfOk result (λ rest. (next : State) → answer self.length (State.sign_next sign next) tokens.now ≡ answer self.length next rest.now) }
        ensures err { IfErr result (λ refusal. (next : State) → IsRefusal refusal (answer self.length (State.sign_next sign next) tokens.now)) }
    {
        if is_next(tokens, sign) {
            self.accept(tokens, true)
        } else {
            Err(self.refuse(tokens))
        }
    }

    /// Takes this word.
    pub(crate) fn word<'a>(
        self,
        tokens: &'a [LocatedToken],
        word: Keyword,
    ) -> Result<&'a [LocatedToken], ReadRefusal>
        ensures shorter { IfOk result (λ rest. length rest.now < length tokens.now) }
        ensures ok { IfOk result (λ rest. (next : State) → answer self.length (State.word_next word next) tokens.now ≡ answer self.length next rest.now) }
        ensures err { IfErr result (λ refusal. (next : State) → IsRefusal refusal (answer self.length (State.word_next word next) tokens.now)) }
    {
        if is_next_word(tokens, word) {
            self.accept(tokens, true)
        } else {
            Err(self.refuse(tokens))
        }
    }

    /// Takes a name; what is counted at it is within its limit or not.
    pub(crate) fn counted_name<'a>(
        self,
        tokens: &'a [LocatedToken],
        fits: bool,
    ) -> Result<(Mark<Name>, &'a [LocatedToken]), ReadRefusal>
        ensures shorter { IfOk result (λ read. length read.1.now < length tokens.now) }
        ensures ok { IfOk result (λ read. ReadsName self.length tokens.now fits read.0 read.1.now) }
        ensures err { IfErr result (RefusesName self.length tokens.now fits) }
    {
        let Some((first, _)) = tokens.split_first() else {
            return Err(self.refuse(tokens));
        };
        let Token::Name(found) = &first.token else {
            return Err(self.refuse(tokens));
        };
        let rest = self.accept(tokens, fits)?;
        let name = Name::of(self.alloc, found.bytes())?;
        Ok((Mark { name, at: first.at }, rest))
    }

    /// Takes a name.
    pub(crate) fn name<'a>(
        self,
        tokens: &'a [LocatedToken],
    ) -> Result<(Mark<Name>, &'a [LocatedToken]), ReadRefusal>
        ensures shorter { IfOk result (λ read. length read.1.now < length tokens.now) }
        ensures ok { IfOk result (λ read. Reads self.length State.name_next tokens.now read.0 read.1.now) }
        ensures err { IfErr result (Refuses self.length State.name_next tokens.now) }
    {
        self.counted_name(tokens, true)
    }
}
