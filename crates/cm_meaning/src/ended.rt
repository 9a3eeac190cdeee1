//! What a run may take, how it ended, and what it took of the stack.

use crate::output::Output;

/// What a run may take.
#[derive(Clone, Copy, Debug, PartialEq, Eq)]
pub struct Limits {
    /// The ticks.
    pub ticks: u32,
    /// The pages of the stack account.
    pub stack: u32,
    /// The bytes of a page.
    pub page: u32,
}

/// The program's own errors.
#[derive(Clone, Copy, Debug, PartialEq, Eq)]
pub enum Trap {
    /// A division or remainder by 0.
    Divide,
    /// An index or a split outside of its array or slice.
    Index,
    /// A number of the input that isn't there.
    Input,
    /// A call whose frame doesn't fit the stack account.
    Stack,
}

/// How a run ended.
#[derive(Debug, Drop)]
pub enum Ended {
    /// By the value that main returned.
    Done {
        /// The printed numbers.
        output: Output,
        /// The value.
        value: i32,
        /// How many ticks were taken.
        ticks: u32,
    },
    /// By a trap.
    Trap {
        /// The numbers that were printed before it.
        output: Output,
        /// Which trap it is.
        kind: Trap,
        /// How many ticks were taken.
        ticks: u32,
    },
    /// It would take more ticks than there are; then nothing is printed.
    Spent,
}

/// The two numbers that bound the pages of a parallel run.
#[derive(Clone, Copy, Debug, PartialEq, Eq)]
pub struct Measure {
    /// The pages of the greatest sum of frame bytes of live calls.
    pub pages: u32,
    /// The greatest number of live calls of functions marked `cilk`.
    pub depth: u32,
}
