//! Page maps: which place of memory an address of a worker's stack shows, and lists of pages that aren't in use.
#![tactic(auto)]

mod chain;
mod law;
mod map;
mod page_list;
#[cfg(test)]
mod tests;

pub use chain::Chain;
pub use law::{distinct_pages_stay_distinct, pages_show_their_bytes};
pub use map::{Map, STACK_TOP};
pub use page_list::PageList;
