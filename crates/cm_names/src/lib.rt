//! Names: from a tree, whose names are as they are written, to the program in which each name is its number.
//!
//! This crate decides what each mention stands for and which fault is answered; the definitions of both are
//! `cm_syntax`'s. It reads no text and makes no code.
#![tactic(auto)]

mod expression;
mod finding;
mod functions;
mod pass;
mod reading;
mod refusal;
mod resolver;
mod role;
mod statement;
mod variable;

pub use refusal::NameRefusal;
pub use resolver::resolve;
