//! Words that threads share: what a thread may read and write is a grant, which only its own steps change.
#![tactic(auto)]

mod law;
mod play;
mod region;
mod rule;
#[cfg(test)]
mod tests;
mod view;

pub use law::{grants_come_together, spans_part_grants};
pub use region::{Grant, Region, Span};
pub use rule::RegionRule;
pub use view::View;
