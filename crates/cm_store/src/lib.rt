//! Free pages with the grants of all their words, and stores of them.
#![tactic(auto)]

mod page;
mod store;
#[cfg(test)]
mod tests;

pub use page::Page;
pub use store::Store;
