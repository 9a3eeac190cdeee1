//! Join boards: the children of one scope put their answers down, and who arrives last takes the parked task.
#![tactic(auto)]

mod board;
mod calls;
mod job;
mod law;
mod owner;
mod play;
mod rule;
#[cfg(test)]
mod tests;
mod view;

pub use board::Board;
pub use calls::{arrive, back, collect, deposit, fetch, park, post, spawn, start};
pub use job::Job;
pub use law::{each_slot_is_accounted_for, last_comes_once};
pub use owner::{Arrived, Child, Leave, Owner};
pub use rule::BoardRule;
pub use view::{Cargo, Content, Lead, Parked, Role, Scope, View};
