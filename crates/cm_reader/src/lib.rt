//! The reader of source texts, and the printer of their trees.
#![tactic(auto)]

mod cursor;
mod expression;
mod lexer;
mod parser;
mod printer;
mod refusal;
mod scan;
mod simple;
mod source;
mod spelling;
mod start;
mod statement;
mod token;

pub use printer::write;
pub use refusal::ReadRefusal;
pub use source::read;
