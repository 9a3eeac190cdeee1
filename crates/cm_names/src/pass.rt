//! What changes while a function is resolved.
ghost use Rattle.std.specs.Prelude.{◌≡◌, ◌++◌, ◌∷◌, [], drop, length, IfOk, OnOk};
ghost use Rattle.cm_syntax.specs.declared.name.Name as names;
ghost use Rattle.cm_syntax.specs.Text.{is_same};
ghost use Rattle.cm_names.specs.Visible.{stack_of};
ghost use Rattle.cm_names.specs.Passing.{Declares, items_count, statement_count, body_count, is_kept_since, shown_again};

use crate::finding::Findings;
use crate::variable::{Variable, Variables};
use cm_syntax::{Item, Name, Slot, Stmt};
use cm_text::{List, Memory};
use std::alloc::Global;

/// What changes while a function is resolved.
#[derive(Drop)]
pub(crate) struct Pass {
    /// The variables that are visible.
    pub variables: Variables,
    /// The slots of the declarations so far, in the order of the text.
    pub slots: List<Slot>,
    /// What was found in the names so far.
    pub found: Findings,
}

impl Pass {
    /// The number of the next slot. `Memory` where it doesn't fit.
    pub(crate) fn next_slot(&self) -> Result<u32, Memory>
        ensures { IfOk result (λ slot. slot ≡ length self.now.slots) }
    {
        let Ok(slot) = u32::try_from(self.slots.len()) else {
            return Err(Memory);
        };
        Ok(slot)
    }

    /// Declares a name, and hands out its slot.
    pub(crate) fn declare(&mut self, alloc: Global, name: &Name, kind: Slot) -> Result<u32, Memory>
        ensures { IfOk result (λ slot. Declares name.now kind self.old self.new slot) }
    {
        let slot = self.next_slot()?;
        self.variables.push(alloc, name, Variable { slot, kind })?;
        self.slots.push(kind)?;
        Ok(slot)
    }
}

/// Whether a variable has the base's slot or a later one.
pub(crate) fn is_since(variable: Option<Variable>, base: u32) -> bool
    ensures { result ≡ is_kept_since base variable }
{
    match variable {
        None => false,
        Some(variable) => variable.slot >= base,
    }
}

/// Takes the variables of these items back.
pub(crate) fn take_back_items(variables: &mut Variables, items: &[Item<Name>])
    ensures { (x : names.Name) → stack_of variables.new x ≡ drop (items_count x items.now) (stack_of variables.old x) }
{
    for item in items {
        variables.pop(&item.name.name);
    }
}

/// Takes back what a statement has declared in its scope.
pub(crate) fn take_back(variables: &mut Variables, statement: &Stmt<Name>)
    ensures { (x : names.Name) → stack_of variables.new x ≡ drop (statement_count x statement.now) (stack_of variables.old x) }
{
    if let Stmt::Declare(items) = statement {
        take_back_items(variables, items.items());
    }
}

/// Takes back what statements have declared in their scope.
pub(crate) fn take_back_body(variables: &mut Variables, body: &[Stmt<Name>])
    ensures { (x : names.Name) → stack_of variables.new x ≡ drop (body_count x body.now) (stack_of variables.old x) }
{
    for statement in body {
        take_back(variables, statement);
    }
}

/// Makes what a name stood for visible again, where it stood for something.
pub(crate) fn show_again(
    alloc: Global,
    variables: &mut Variables,
    name: &Name,
    hidden: Option<Variable>,
) -> Result<(), Memory>
    ensures { OnOk result ((x : names.Name) → stack_of variables.new x ≡ shown_again hidden (is_same name.now x) (stack_of variables.old x)) }
{
    match hidden {
        None => Ok(()),
        Some(variable) => {
            variables.push(alloc, name, variable)?;
            Ok(())
        }
    }
}
