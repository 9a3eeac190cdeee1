//! The lending check: which programs obey the lending rule, exactly.
//!
//! A piece of text is summed up by the paths through it, out of it, into it and in it, and the sum of a whole comes
//! from the sums of its parts. So each statement is looked at once, however deep its loops are.
#![tactic(auto)]

mod breach;
mod checking;
mod expression;
mod law;
mod meeting;
mod refusal;
mod statement;
mod summary;

pub use checking::check;
pub use law::{
    accepted_sources, lent_sources, paths_of_parts, paths_want_a_spawn, same_sources,
    sync_adds_no_path,
};
pub use refusal::LendRefusal;
