//! Deques of tasks that threads share: the owner pushes and pops at one end, and thieves steal at the other.
//! Proved: the owner's order, in which a pop gives the last push that lies there; the home in which each task lies; and that
//! what was pushed is popped, lies there or was stolen, each once. That a steal gives the oldest task, and answers Retry or
//! Empty only where it must, is the answer of the deque below, and of the tests.
#![tactic(auto)]

mod calls;
mod ends;
mod known;
mod law;
mod rule;
mod task;
#[cfg(test)]
mod tests;

pub use ends::{Deque, Refused, Side, Stolen};
pub use known::Known;
pub use law::no_task_is_lost;
pub use task::Task;
