//! The instructions of RV32IM: their fields, their words, and the effect of one instruction on the
//! registers, the program counter and the words of memory (RISC-V Unprivileged ISA, RV32I and M).
#![tactic(auto)]

mod arithmetic;
mod coding;
pub mod convention;
mod execution;
mod field;
mod instruction;
mod kind;
mod law;
mod memory;
mod register;
#[cfg(test)]
mod tests;

pub use coding::{decode, encode};
pub use execution::{Action, FaultKind, Next, Size, effect};
pub use instruction::Instr;
pub use kind::{Format, Kind};
pub use law::{
    machines_do_what_outcomes_say, one_instruction_per_word, one_word_per_instruction,
    replies_determine_runs, runs_join_and_split, runs_keep_more_words,
};
pub use memory::{Shown, Words};
pub use register::Regs;
