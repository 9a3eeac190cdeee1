//! A worker on threads. This is its first piece: the words of a hart over a region, a grant of its places and a page map.
#![tactic(auto)]

mod grant_words;
mod law;
mod stepping;
#[cfg(test)]
mod tests;

pub use grant_words::GrantWords;
pub use law::grants_are_maps;
pub use stepping::step_over;
