//! The generator of draws, and large sources and inputs that are made from a number.
#![tactic(auto)]

mod big;
mod generator;
#[cfg(test)]
mod tests;

pub use big::{Big, make};
pub use generator::Generator;
