//! Schedules: which worker takes each turn, and which victim it steals from where it steals.
#![tactic(auto)]

mod drawn;
mod generated;
mod listed;
mod round_robin;
mod schedule;
#[cfg(test)]
mod tests;

pub use generated::Generated;
pub use listed::Listed;
pub use schedule::Schedule;
