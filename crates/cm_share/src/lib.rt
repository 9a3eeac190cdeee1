//! Shares of a word that many may read: what a share is, what two come to together, how one is halved, and the laws of
//! these. This crate holds definitions alone: it knows of no stack and no memory, so that the stacks of the language and
//! the words of the machine's threads can both be said over it.
#![tactic(auto)]

mod law;

pub use law::{shares_are_halved, shares_are_strings, shares_come_together};
