//! A hart, and what comes of one step.

use cm_isa::{FaultKind, Regs};

/// A hart: its registers and its program counter (RISC-V Unprivileged ISA, RV32I 2.1).
#[derive(Drop)]
pub struct Hart {
    /// The 32 registers.
    pub regs: Regs,
    /// The address of the next instruction, in bytes.
    pub pc: u32,
}

/// What comes of one step.
#[derive(Clone, Copy, Debug, PartialEq, Eq)]
pub enum Halt {
    /// The instruction is done, and the next one may follow.
    Going,
    /// An `ecall` asks the environment for the service whose number x31 holds.
    Service(u32),
    /// The page of this address is to be mapped, and then the same instruction again.
    PageFault {
        /// The address of the load or store.
        address: u32,
    },
    /// There is no instruction, or it can't be done.
    Fault {
        /// Why it can't.
        kind: FaultKind,
        /// The address of the load or store (Align and Place), the target of the jump or the pc
        /// (Jump), or the pc (Word and Break).
        address: u32,
    },
}
