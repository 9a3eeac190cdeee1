//! Why a tree isn't resolved.
use cm_text::Memory;

/// Why a tree has no program: what is faulty, and the offset of the faulty name or word, in bytes of the source. The
/// least faulty offset is answered, and at one offset the variant that stands first here.
#[derive(Clone, Copy, Debug, PartialEq, Eq)]
pub enum NameRefusal {
    /// A name stands for nothing.
    Unknown {
        /// The number of source bytes before it.
        at: u32,
    },
    /// A name stands a second time where it may stand once: of a function, of an item of one scope, or of the second
    /// part of a `split`.
    Twice {
        /// The number of source bytes before it.
        at: u32,
    },
    /// A call has another number of arguments than its function has parameters.
    Arity {
        /// The number of source bytes before the function's name in the call.
        at: u32,
    },
    /// Something of one kind stands where another is wanted.
    Kind {
        /// The number of source bytes before the name or the word.
        at: u32,
    },
    /// No function is called `main`.
    NoMain {
        /// The bytes of the source.
        at: u32,
    },
    /// A function's frame has more than 32,768 words.
    Frame {
        /// The number of source bytes before the function's name.
        at: u32,
    },
    /// It is the 257th function, or one with more than 8 words of parameters.
    Count {
        /// The number of source bytes before the function's name.
        at: u32,
    },
    /// There was no memory left.
    Memory,
}

impl From<Memory> for NameRefusal {
    ghost use Rattle.std.specs.Prelude.{◌≡◌};
    ghost use Rattle.cm_names.specs.declared.refusal.NameRefusal.TheVariants.{Memory as OutOfMemory};

    ghost from_gives = { λ _ refusal. refusal ≡ OutOfMemory };

    fn from(_error: Memory) -> NameRefusal {
        NameRefusal::Memory
    }
}
