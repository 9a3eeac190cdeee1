//! Why a program isn't accepted.
use cm_text::Memory;

/// Why a program doesn't obey the lending rule. The least offset is answered, and at one offset `Lent` stands before
/// `Same`.
#[derive(Clone, Copy, Debug, PartialEq, Eq)]
pub enum LendRefusal {
    /// A variable is mentioned where a child that it was lent to may still run: a path leads from the spawn to the
    /// mention, with no `sync` and no `return` on it.
    Lent {
        /// The offset of the mention.
        at: u32,
        /// The offset of the word `spawn`: of the nearest spawn before the mention that lends to it, and where none
        /// stands before it, of the first that does.
        spawn: u32,
    },
    /// One call passes a variable as a slice twice, or a spawn lends one twice.
    Same {
        /// The offset of the second mention.
        at: u32,
    },
    /// There was no memory left.
    Memory,
}

impl From<Memory> for LendRefusal {
    ghost use Rattle.std.specs.Prelude.{◌≡◌};
    ghost use Rattle.cm_lend.specs.declared.refusal.LendRefusal.TheVariants.{Memory as OutOfMemory};

    ghost from_gives = { λ _ refusal. refusal ≡ OutOfMemory };

    fn from(_error: Memory) -> LendRefusal {
        LendRefusal::Memory
    }
}
