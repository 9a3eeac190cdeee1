//! The printed numbers of a run in serial order, with holes where a child's output comes later.
ghost use Rattle.std.specs.Prelude.{◌≡◌, ◌++◌, ◌∷◌, [], Some, IsSome, IfOk, OnOk, OnErr};
ghost use Rattle.cm_meaning.specs.Output as entry;
ghost use Rattle.cm_meaning.specs.Output.{cut_at, filled_at, hole_at, hole_count, numbers_of, open_count};
ghost use Rattle.cm_meaning.specs.Printed.{before_of, entries_of};

use cm_text::Memory;
use std::alloc::Global;
use std::marker::Model;

/// The printed numbers of a run in serial order, with holes where a child's output comes later. Contracts see the list
/// of its numbers and holes, each filled hole with the numbers of its piece. A printed number takes 4 bytes, and at
/// most 8 with the room that is kept for more.
#[derive(Debug, Drop)]
pub struct Output {
    printed: Printed,
}

/// The numbers that stand outside of the holes, and the holes.
#[cycle(output)]
#[derive(Debug, Drop)]
pub(crate) struct Printed {
    /// The numbers, in their order.
    pub(crate) numbers: Vec<i32>,
    /// The holes, in their order.
    pub(crate) holes: Vec<Hole>,
}

/// A hole, and how many of the numbers stand before it.
#[cycle(output)]
#[derive(Debug, Drop)]
pub(crate) enum Hole {
    /// It isn't filled yet.
    Open(usize),
    /// It is filled with a piece.
    Filled(usize, Printed),
}

impl Hole {
    /// How many of the numbers stand before it.
    pub(crate) fn before(&self) -> usize
        ensures { result ≡ before_of self.now }
    {
        match self {
            Hole::Open(before) => *before,
            Hole::Filled(before, _) => *before,
        }
    }
}

impl Model for Output {
    ghost use Rattle.std.specs.Prelude.{List};
    ghost use Rattle.cm_meaning.specs.Output.{Entry};
    ghost use Rattle.cm_meaning.specs.Printed.{entries_of, IsOrdered};

    ghost Value = { List Entry };

    ghost view = { λ output. entries_of output.printed };

    ghost invariant = { λ output. IsOrdered output.printed };
}

impl Output {
    /// The empty output, which keeps its allocator and takes no memory yet.
    pub fn new(alloc: Global) -> Output
        ensures { result ≡ [] }
    {
        Output {
            printed: Printed {
                numbers: Vec::new(alloc),
                holes: Vec::new(alloc),
            },
        }
    }

    /// Puts a number last. `Memory` is want of memory; the output is then as before.
    pub fn number(&mut self, number: i32) -> Result<(), Memory>
        ensures ok { OnOk result (self.new ≡ self.old ++ entry.Number number ∷ []) }
        ensures err { OnErr result (self.new ≡ self.old) }
    {
        self.printed.numbers.push(number)?;
        Ok(())
    }

    /// Puts a new hole last, and answers its number: how many holes stand before it. `Memory` is want of memory, also
    /// where there are 2^32 holes already; the output is then as before.
    pub fn hole(&mut self) -> Result<u32, Memory>
        ensures number { IfOk result (λ hole. hole ≡ hole_count self.old) }
        ensures ok { OnOk result (self.new ≡ self.old ++ entry.Open ∷ []) }
        ensures err { OnErr result (self.new ≡ self.old) }
    {
        let Ok(hole) = u32::try_from(self.printed.holes.len()) else {
            return Err(Memory);
        };
        let before = self.printed.numbers.len();
        self.printed.holes.push(Hole::Open(before))?;
        Ok(hole)
    }

    /// Puts a piece into the hole of this number. The hole has to be there and not to be filled, and each hole of the
    /// piece has to be filled. It takes no memory.
    pub fn fill(&mut self, hole: u32, piece: Output)
        requires hole { hole_at hole self.old ≡ Some entry.Open }
        requires piece { open_count piece ≡ 0 }
        ensures { self.new ≡ filled_at hole (numbers_of piece) self.old }
    {
        let index = hole as usize;
        let before = self.printed.holes[index].before();
        self.printed.holes[index] = Hole::Filled(before, piece.printed);
    }

    /// What was printed, as it is kept.
    pub(crate) fn printed(&self) -> &Printed
        ensures { entries_of result.now ≡ self.now }
    {
        &self.printed
    }

    /// Takes away all that stands behind the hole of this number, which has to be there. It takes no memory.
    pub fn cut(&mut self, hole: u32)
        requires { IsSome (hole_at hole self.old) }
        ensures { self.new ≡ cut_at hole self.old }
    {
        let last = hole as usize;
        let before = self.printed.holes[last].before();
        self.printed.holes.truncate(last + 1);
        self.printed.numbers.truncate(before);
    }
}
