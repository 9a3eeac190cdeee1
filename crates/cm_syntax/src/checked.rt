//! Programs that obey the lending rule.
ghost use Rattle.std.specs.Prelude.{◌≡◌};
ghost use Rattle.cm_syntax.specs.Fault.{IsSoundProgram};
ghost use Rattle.cm_syntax.specs.Lending.{IsAccepted};

use crate::stmt::Program;
use std::marker::Model;

/// A program that obeys the lending rule: no mention is lent, and no call has the same variable twice among what it
/// passes as slices. It is sound too. Contracts see the program.
#[derive(Debug, Drop)]
pub struct Checked {
    program: Program,
}

impl Model for Checked {
    ghost use Rattle.cm_syntax.specs.declared.stmt.Program.{Program};
    ghost use Rattle.cm_syntax.specs.contracts.stmt.Program as contract;
    ghost use Rattle.cm_syntax.specs.Fault.{IsSoundProgram};
    ghost use Rattle.cm_syntax.specs.Lending.{IsAccepted};

    ghost Value = { Program };

    ghost coded = { contract.the_row.coded };

    ghost view = { λ checked. checked.program };

    ghost invariant = { λ checked. IsSoundProgram checked.program × IsAccepted checked.program };
}

impl Checked {
    /// This program, which has to be sound and to obey the lending rule. It takes no memory.
    pub fn of(program: Program) -> Checked
        requires sound { IsSoundProgram program }
        requires accepted { IsAccepted program }
        ensures { result ≡ program }
    {
        Checked { program }
    }

    /// The program, which is sound and obeys the lending rule.
    pub fn program(&self) -> &Program
        ensures program { result.now ≡ self.now }
        ensures sound { IsSoundProgram self.now }
        ensures accepted { IsAccepted self.now }
    {
        &self.program
    }
}
