//! The two builds of a program, and the parts that code is made of.

use cm_isa::Instr;

/// Which build of a program: one in which a spawn is a call, or one in which it parts the strand.
#[derive(Clone, Copy, Debug, PartialEq, Eq)]
pub enum Form {
    /// A spawn is a call, and a sync is nothing.
    Serial,
    /// A spawn, a sync and the return of a Cilk function are services of the environment.
    Cilk,
}

/// A part of the code, one word. Only a call tells where it stands, since it jumps to the table of functions.
#[derive(Clone, Copy, Debug)]
pub enum Part {
    /// An instruction, the same wherever it stands.
    Plain(Instr),
    /// A call of the function with this index.
    Call(u32),
}
