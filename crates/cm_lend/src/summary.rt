//! What is kept of a piece of text: the paths through it, out of it, into it and in it.
ghost use Rattle.std.specs.Prelude.{◌≡◌, ◌↔◌, ◌⊎◌, ◌++◌, if◌then◌else◌, IfOk, true};
ghost use Rattle.cm_syntax.specs.Walk as orders;
ghost use Rattle.cm_syntax.specs.Walk.{Order};
ghost use Rattle.cm_lend.specs.Summary.{Sums};

use crate::breach::{Breach, better};
use crate::meeting::{Loan, Mention, meet};
use cm_text::{List, Memory};
use std::alloc::Global;

/// The paths of a piece of text.
#[derive(Debug, Drop)]
pub struct Summary {
    /// Whether a path leads through.
    pub passes: bool,
    /// The loans from which a path leads to the end.
    pub leaving: List<Loan>,
    /// The mentions to which a path leads from the start.
    pub entering: List<Mention>,
    /// The breach of the lending rule that is answered.
    pub found: Option<Breach>,
}

/// Whether both hold.
fn both(one: bool, other: bool) -> bool
    ensures { (result ≡ true) ↔ ((one ≡ true) × (other ≡ true)) }
{
    one && other
}

/// Whether one of both holds.
fn either(one: bool, other: bool) -> bool
    ensures { (result ≡ true) ↔ ((one ≡ true) ⊎ (other ≡ true)) }
{
    one || other
}

/// The items of both lists.
fn joined<T: Copy>(front: List<T>, rest: &[T]) -> Result<List<T>, Memory>
    ensures { IfOk result (λ all. all ≡ front ++ rest.now) }
{
    let mut all = front;
    all.append(rest)?;
    Ok(all)
}

/// What leaves two pieces one after another: the loans of the first only where a path leads through the second.
fn left(front: List<Loan>, rest: List<Loan>, passes: bool) -> Result<List<Loan>, Memory>
    ensures { IfOk result (λ all. all ≡ (if passes then front ++ rest else rest)) }
{
    if passes {
        joined(front, rest.items())
    } else {
        Ok(rest)
    }
}

/// What is entered of two pieces one after another: the mentions of the second only where a path leads through the
/// first.
fn entered(front: List<Mention>, rest: &[Mention], passes: bool) -> Result<List<Mention>, Memory>
    ensures { IfOk result (λ all. all ≡ (if passes then front ++ rest.now else front)) }
{
    if passes {
        joined(front, rest)
    } else {
        Ok(front)
    }
}

impl Summary {
    /// Of no text.
    pub(crate) fn nothing(alloc: Global) -> Summary
        ensures { Sums orders.nothing result }
    {
        Summary {
            passes: true,
            leaving: List::new(alloc),
            entering: List::new(alloc),
            found: None,
        }
    }

    /// Of what ends a path.
    pub(crate) fn end(alloc: Global) -> Summary
        ensures { Sums (orders.event orders.ends) result }
    {
        Summary {
            passes: false,
            leaving: List::new(alloc),
            entering: List::new(alloc),
            found: None,
        }
    }

    /// Of one piece after another.
    pub(crate) fn next(self, alloc: Global, second: Summary) -> Result<Summary, Memory>
        ensures { (p q : Order) → Sums p self → Sums q second → IfOk result (Sums (orders.next p q)) }
    {
        let before = better(self.found, second.found);
        let found = meet(alloc, before, self.leaving.items(), second.entering.items())?;
        let entering = entered(self.entering, second.entering.items(), self.passes)?;
        let leaving = left(self.leaving, second.leaving, second.passes)?;
        let passes = both(self.passes, second.passes);
        Ok(Summary {
            passes,
            leaving,
            entering,
            found,
        })
    }

    /// Of one of two pieces.
    pub(crate) fn choice(self, other: Summary) -> Result<Summary, Memory>
        ensures { (p q : Order) → Sums p self → Sums q other → IfOk result (Sums (orders.choice p q)) }
    {
        let found = better(self.found, other.found);
        let entering = joined(self.entering, other.entering.items())?;
        let leaving = joined(self.leaving, other.leaving.items())?;
        let passes = either(self.passes, other.passes);
        Ok(Summary {
            passes,
            leaving,
            entering,
            found,
        })
    }

    /// Of any number of turns.
    pub(crate) fn turns(self, alloc: Global) -> Result<Summary, Memory>
        ensures { (p : Order) → Sums p self → IfOk result (Sums (orders.turns p)) }
    {
        let met = meet(
            alloc,
            self.found,
            self.leaving.items(),
            self.entering.items(),
        )?;
        Ok(Summary {
            passes: true,
            leaving: self.leaving,
            entering: self.entering,
            found: met,
        })
    }
}
