//! Items of a program in assembly: instructions, labels, and jumps and branches to labels.
use cm_isa::{Instr, Kind};

/// The most items that can be assembled.
pub const MAX_ITEMS: usize = 4_194_304;

/// One item. Each item but a label becomes one word.
#[derive(Clone, Copy, Debug)]
pub enum Item {
    /// An instruction as it stands.
    Plain(Instr),

    /// A label of this number, at the address of the next word.
    Label(u32),

    /// `jal` to the first label of a number, with the next address in rd.
    Jump {
        /// The register that takes the next address, below 32.
        rd: u8,
        /// The number of the label.
        label: u32,
    },

    /// A branch to the first label of a number.
    Branch {
        /// Its kind: Beq, Bne, Blt, Bge, Bltu or Bgeu.
        kind: Kind,
        /// The first register that is compared, below 32.
        rs1: u8,
        /// The second register that is compared, below 32.
        rs2: u8,
        /// The number of the label.
        label: u32,
    },
}
