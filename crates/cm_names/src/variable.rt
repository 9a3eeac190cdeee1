//! The variables that are visible at a point of a function.
ghost use Rattle.std.specs.Prelude.{◌≡◌, ◌++◌, ◌∷◌, [], Some, if◌then◌else◌, reverse, MatchOption, OnOk, IfOk};
ghost use Rattle.std.specs.Option.{option_map};
ghost use Rattle.cm_syntax.specs.Text.{is_same};
ghost use Rattle.cm_syntax.specs.Resolution as resolution;
ghost use Rattle.cm_syntax.specs.declared.name.Name as names;
ghost use Rattle.cm_names.specs.Visible.{Shows, Sight, below_top, kept_of, stack_of, top};

use cm_syntax::{Name, Slot};
use cm_text::{List, Memory};
use indexmap::IndexMap;
use std::alloc::Global;

/// A variable: its slot, and what it is.
#[derive(Clone, Copy, Debug, PartialEq, Eq)]
pub struct Variable {
    /// The number of its slot.
    pub slot: u32,
    /// What it is.
    pub kind: Slot,
}

/// The variables that are visible, for each name the nearest last.
#[derive(Drop)]
pub struct Variables {
    stacks: IndexMap<Name, List<Variable>>,
}

impl Variables {
    /// No variables.
    pub fn new(alloc: Global) -> Variables
        ensures { Shows result [] }
    {
        Variables {
            stacks: IndexMap::new(alloc),
        }
    }

    /// The variable that a name stands for: that of the nearest declaration.
    pub fn lookup(&self, name: &Name) -> Option<Variable>
        ensures nearest { result ≡ top (stack_of self.now name.now) }
        ensures shown { (visible : Sight) → Shows self.now visible
            → result ≡ option_map kept_of (resolution.lookup visible name.now) }
    {
        self.nearest(name)
    }

    // The last variable of a name's stack.
    fn nearest(&self, name: &Name) -> Option<Variable>
        ensures { result ≡ top (stack_of self.now name.now) }
    {
        let stack = self.stacks.get(name)?;
        stack.items().last().copied()
    }

    /// Makes a variable the nearest one of its name. `Memory` is want of memory; the table is of no use then.
    pub fn push(&mut self, alloc: Global, name: &Name, variable: Variable) -> Result<(), Memory>
        ensures { OnOk result ((x : names.Name) → stack_of self.new x
            ≡ if is_same name.now x then variable ∷ stack_of self.old x else stack_of self.old x) }
    {
        match self.stacks.get_mut(name) {
            Some(stack) => {
                stack.push(variable)?;
                Ok(())
            }
            None => {
                let key = name.copy(alloc)?;
                self.stacks.insert(key, stack_with(alloc, variable)?)?;
                Ok(())
            }
        }
    }

    /// Takes out the nearest variable of a name: `None` exactly where the name has none.
    pub fn pop(&mut self, name: &Name) -> Option<Variable>
        ensures nearest { result ≡ top (stack_of self.old name.now) }
        ensures rest { (x : names.Name) → stack_of self.new x
            ≡ if is_same name.now x then below_top (stack_of self.old x) else stack_of self.old x }
    {
        self.stacks.get_mut(name)?.pop()
    }
}

/// A stack of one variable.
fn stack_with(alloc: Global, variable: Variable) -> Result<List<Variable>, Memory>
    ensures { IfOk result (λ stack. stack ≡ variable ∷ []) }
{
    let mut stack = List::new(alloc);
    stack.push(variable)?;
    Ok(stack)
}
