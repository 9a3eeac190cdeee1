//! A hart: one instruction of an image at a time, over any words of memory.
#![tactic(auto)]

mod code;
mod hart;
mod law;
mod reply;
mod stepping;
#[cfg(test)]
mod tests;

pub use code::Code;
pub use hart::{Halt, Hart};
pub use law::machine_steps_are_allowed;
pub use stepping::step;
