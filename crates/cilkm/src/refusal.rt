//! Why a command comes to no end with a source.
ghost use Rattle.std.specs.Prelude.{◌≡◌};

use cm_gen::GenRefusal;
use cm_lend::LendRefusal;
use cm_names::NameRefusal;
use cm_reader::ReadRefusal;
use cm_text::Memory;

/// Why a source is refused.
#[derive(Clone, Copy, Debug, PartialEq, Eq)]
pub enum Refusal {
    /// No program begins so.
    Syntax,
    /// A limit of the text is passed.
    Size,
    /// A name stands for nothing.
    Unknown,
    /// A name stands a second time where it may stand once.
    Twice,
    /// A call has another number of arguments than its function has parameters.
    Arity,
    /// Something of one kind stands where another is wanted.
    Kind,
    /// No function is called `main`.
    NoMain,
    /// A frame has too many words.
    Frame,
    /// There are too many functions, or parameter words of a function.
    Count,
    /// A variable is mentioned where the child of the spawn at this offset, which it was lent to, may still run.
    Lent(u32),
    /// One call passes a variable as a slice twice, or a spawn lends one twice.
    Same,
    /// The image of the program has more than 200,000 words.
    Long,
}

impl Refusal {
    ghost use Rattle.std.specs.Prelude.{◌≡◌};
    ghost use Rattle.cilkm.specs.Verdict.{refusal_word};

    /// The word that is printed for it.
    pub fn word(self) -> &'static str
        ensures { result.now ≡ refusal_word self }
    {
        match self {
            Refusal::Syntax => "syntax",
            Refusal::Size => "size",
            Refusal::Unknown => "unknown",
            Refusal::Twice => "twice",
            Refusal::Arity => "arity",
            Refusal::Kind => "kind",
            Refusal::NoMain => "nomain",
            Refusal::Frame => "frame",
            Refusal::Count => "count",
            Refusal::Lent(_) => "lent",
            Refusal::Same => "same",
            Refusal::Long => "long",
        }
    }
}

/// Why a command comes to no end with a source.
#[derive(Clone, Copy, Debug, PartialEq, Eq)]
pub enum Stop {
    /// It is refused at an offset, in bytes from its start.
    Refused(u32, Refusal),
    /// There was no memory left.
    Memory,
}

impl From<ReadRefusal> for Stop {
    ghost use Rattle.std.specs.Prelude.{◌≡◌};
    ghost use Rattle.cilkm.specs.Source.{stop_of_reading};

    ghost from_gives = { λ refusal stop. stop ≡ stop_of_reading refusal };

    fn from(refusal: ReadRefusal) -> Stop {
        match refusal {
            ReadRefusal::Syntax { at } => Stop::Refused(at, Refusal::Syntax),
            ReadRefusal::Size { at } => Stop::Refused(at, Refusal::Size),
            ReadRefusal::Memory => Stop::Memory,
        }
    }
}

impl From<NameRefusal> for Stop {
    ghost use Rattle.std.specs.Prelude.{◌≡◌};
    ghost use Rattle.cilkm.specs.Source.{stop_of_names};

    ghost from_gives = { λ refusal stop. stop ≡ stop_of_names refusal };

    fn from(refusal: NameRefusal) -> Stop {
        match refusal {
            NameRefusal::Unknown { at } => Stop::Refused(at, Refusal::Unknown),
            NameRefusal::Twice { at } => Stop::Refused(at, Refusal::Twice),
            NameRefusal::Arity { at } => Stop::Refused(at, Refusal::Arity),
            NameRefusal::Kind { at } => Stop::Refused(at, Refusal::Kind),
            NameRefusal::NoMain { at } => Stop::Refused(at, Refusal::NoMain),
            NameRefusal::Frame { at } => Stop::Refused(at, Refusal::Frame),
            NameRefusal::Count { at } => Stop::Refused(at, Refusal::Count),
            NameRefusal::Memory => Stop::Memory,
        }
    }
}

impl From<LendRefusal> for Stop {
    ghost use Rattle.std.specs.Prelude.{◌≡◌};
    ghost use Rattle.cilkm.specs.Source.{stop_of_lending};

    ghost from_gives = { λ refusal stop. stop ≡ stop_of_lending refusal };

    fn from(refusal: LendRefusal) -> Stop {
        match refusal {
            LendRefusal::Lent { at, spawn } => Stop::Refused(at, Refusal::Lent(spawn)),
            LendRefusal::Same { at } => Stop::Refused(at, Refusal::Same),
            LendRefusal::Memory => Stop::Memory,
        }
    }
}

impl From<GenRefusal> for Stop {
    ghost use Rattle.std.specs.Prelude.{◌≡◌};
    ghost use Rattle.cilkm.specs.Source.{stop_of_making};

    ghost from_gives = { λ refusal stop. stop ≡ stop_of_making refusal };

    fn from(refusal: GenRefusal) -> Stop {
        match refusal {
            GenRefusal::Long { .. } => Stop::Refused(0, Refusal::Long),
            GenRefusal::Memory => Stop::Memory,
        }
    }
}

impl From<Memory> for Stop {
    ghost use Rattle.std.specs.Prelude.{◌≡◌};
    ghost use Rattle.cilkm.specs.declared.refusal.Stop.TheVariants.{Memory as OutOfMemory};

    ghost from_gives = { λ _ stop. stop ≡ OutOfMemory };

    fn from(_error: Memory) -> Stop {
        Stop::Memory
    }
}
