//! Tokens as the reader holds them.
use cm_syntax::{Keyword, Name, Sign};

/// What a token is.
#[derive(Debug, Drop)]
pub enum Token {
    /// A word of the language.
    Keyword(Keyword),
    /// A sign.
    Sign(Sign),
    /// A name.
    Name(Name),
    /// A number, at most 2,147,483,648, which is beyond each limit.
    Number(u32),
    /// What fits nowhere: a word that is set aside, or a byte that begins no token.
    Unfit,
}

/// A token, its offset, and whether it opens one bracket more than may be open at once.
#[derive(Debug, Drop)]
pub struct LocatedToken {
    /// The token.
    pub token: Token,
    /// The number of source bytes before it.
    pub at: u32,
    /// Whether it opens the 65th bracket that is open at once.
    pub too_nested: bool,
}
