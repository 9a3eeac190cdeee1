//! From a program to one that obeys the lending rule.
ghost use Rattle.std.specs.Prelude.{◌≡◌, ℕ, IfOk, IfErr, Ok, Err};
ghost use Rattle.cm_syntax.specs.Fault.{IsSoundProgram};
ghost use Rattle.cm_syntax.specs.Lending.{IsLentAnswer, IsSameAnswer, IsAccepted};
ghost use Rattle.cm_lend.specs.Breach.{IsBest, BreaksAmong};
ghost use Rattle.cm_lend.specs.Answer.{IsAnswer, IsRefusalOf, Gives};
ghost use Rattle.cm_lend.specs.declared.refusal.LendRefusal.TheVariants as refusals;

use crate::breach::{Breach, better};
use crate::refusal::LendRefusal;
use crate::statement::statements;
use cm_syntax::{Checked, Function, Program};
use cm_text::Memory;
use std::alloc::Global;

/// The breach of all functions that is answered.
fn breach_among(alloc: Global, functions: &[Function<u32>]) -> Result<Option<Breach>, Memory>
    ensures { IfOk result (IsBest (BreaksAmong functions.now)) }
{
    let mut best = None;
    for function in functions {
        let one = statements(alloc, function.body.items())?;
        best = better(best, one.found);
    }
    Ok(best)
}

/// The breach of a program that is answered, if it has one.
fn breach_of(alloc: Global, program: &Program) -> Result<Option<Breach>, Memory>
    ensures { IfOk result (IsAnswer program.now) }
{
    let found = breach_among(alloc, program.functions.items())?;
    Ok(found)
}

/// Whether a program obeys the lending rule: on no path through a function's text is a variable mentioned where a
/// child that it was lent to may still run, and no call passes a variable as a slice twice. The program has to be
/// sound. On a refusal it is dropped. The time is at most linear in the text times the loans that no path's `sync` or
/// `return` has ended yet.
///
/// # Errors
/// `Lent` and `Same` as the rule has them, exactly there, at the least offset that is refused, and at one offset `Lent`
/// first; `Memory` is want of memory.
pub fn check(alloc: Global, program: Program) -> Result<Checked, LendRefusal>
    requires sound { IsSoundProgram program }
    ensures program { IfOk result (λ checked. checked ≡ program) }
    ensures accepted { IfOk result (λ _. IsAccepted program) }
    ensures refusal { IfErr result (IsRefusalOf program) }
    ensures each_accepted { IsAccepted program → Gives result (Ok program) }
    ensures each_lent { (at spawn : ℕ) → IsLentAnswer program at spawn
        → Gives result (Err (refusals.Lent at spawn)) }
    ensures each_same { (at : ℕ) → IsSameAnswer program at → Gives result (Err (refusals.Same at)) }
{
    match breach_of(alloc, &program)? {
        None => Ok(Checked::of(program)),
        Some(Breach::Lent { at, spawn }) => Err(LendRefusal::Lent { at, spawn }),
        Some(Breach::Same { at }) => Err(LendRefusal::Same { at }),
    }
}
