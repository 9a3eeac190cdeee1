//! Why a source text isn't read.
use cm_text::Memory;
use std::alloc::AllocError;

/// Why a source text has no tree. At one offset `Size` stands before `Syntax`, and the least offset is
/// answered.
#[derive(Clone, Copy, Debug, PartialEq, Eq)]
pub enum ReadRefusal {
    /// A program begins with the tokens before this offset, and none with the token or the byte that stands
    /// there as well. A text that ends too early has its length here.
    Syntax {
        /// The number of source bytes before it.
        at: u32,
    },
    /// What is counted at this offset is more than its limit.
    Size {
        /// The number of source bytes before it.
        at: u32,
    },
    /// There was no memory left.
    Memory,
}

impl From<Memory> for ReadRefusal {
    ghost use Rattle.std.specs.Prelude.{◌≡◌};
    ghost use Rattle.cm_reader.specs.declared.refusal.ReadRefusal.TheVariants.{Memory as OutOfMemory};

    ghost from_gives = { λ _ refusal. refusal ≡ OutOfMemory };

    fn from(_error: Memory) -> ReadRefusal {
        ReadRefusal::Memory
    }
}

impl From<AllocError> for ReadRefusal {
    ghost use Rattle.std.specs.Prelude.{◌≡◌};
    ghost use Rattle.cm_reader.specs.declared.refusal.ReadRefusal.TheVariants.{Memory as OutOfMemory};

    ghost from_gives = { λ _ refusal. refusal ≡ OutOfMemory };

    fn from(_error: AllocError) -> ReadRefusal {
        ReadRefusal::Memory
    }
}
