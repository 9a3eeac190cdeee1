//! The table of the functions of a tree.
ghost use Rattle.std.specs.Prelude.{◌≡◌, ◌+◌, ℕ, None, Some, List, position, option_map, take, if◌then◌else◌, IfOk, OnOk};
ghost use Rattle.std.specs.Option.{option_or};
ghost use Rattle.std.specs.List.{list_any};
ghost use Rattle.indexmap.specs.IndexMap.{get};
ghost use Rattle.cm_syntax.specs.Text.{is_same};
ghost use Rattle.cm_syntax.specs.Resolution.{lookup_function};
ghost use Rattle.cm_names.specs.FunctionTable.{IsTable};

use cm_syntax::{Function, Name};
use cm_text::Memory;
use indexmap::IndexMap;
use std::alloc::Global;
use std::marker::Model;

/// The functions of a tree, found by their names: of several functions of one name the first. Contracts see the list of
/// the functions.
#[derive(Drop)]
pub(crate) struct Functions<'a> {
    functions: &'a [Function<Name>],
    numbers: IndexMap<Name, u32>,
}

impl<'a> Model for Functions<'a> {
    ghost use Rattle.std.specs.Prelude.{List};
    ghost use Rattle.cm_syntax.specs.declared.name.Name.{Name as TheName};
    ghost use Rattle.cm_syntax.specs.declared.stmt.Function.{Function as TheFunction};
    ghost use Rattle.cm_names.specs.FunctionTable.{IsTable};
    ghost use Rattle.cm_syntax.specs.contracts.name.Name.{the_row as name_row};
    ghost use Rattle.cm_syntax.specs.contracts.stmt.Function.{the_row as function_row};
    ghost use Rattle.std.specs.Coded.{coded_list};

    ghost Value = { List (TheFunction TheName) };

    ghost coded = { coded_list (function_row name_row).coded };

    ghost view = { λ table. table.functions.now };

    ghost invariant = { λ table. IsTable table.functions.now table.numbers };
}

impl<'a> Functions<'a> {
    /// The table of these functions. `Memory` is want of memory.
    pub(crate) fn new(
        alloc: Global,
        functions: &'a [Function<Name>],
    ) -> Result<Functions<'a>, Memory>
        ensures { IfOk result (λ table. table ≡ functions.now) }
    {
        let numbers = numbers_of(alloc, functions)?;
        Ok(Functions { functions, numbers })
    }

    /// The functions in their order.
    pub(crate) fn items(&self) -> &'a [Function<Name>]
        ensures { result.now ≡ self.now }
    {
        self.functions
    }

    /// The index of the first function of a name.
    pub(crate) fn number(&self, name: &Name) -> Option<u32>
        ensures { result ≡ position (λ g. is_same g.name.name name.now) self.now }
    {
        self.numbers.get(name).copied()
    }

    /// Whether a function before the one of this index has the name.
    pub(crate) fn is_second(&self, index: u32, name: &Name) -> bool
        ensures { result ≡ list_any (λ g. is_same g.name.name name.now) (take index self.now) }
    {
        match self.number(name) {
            None => false,
            Some(first) => first < index,
        }
    }

    /// The first function of a name.
    pub(crate) fn find(&self, name: &Name) -> Option<&'a Function<Name>>
        ensures { option_map (λ f. f.now) result ≡ lookup_function self.now name.now }
    {
        match self.number(name) {
            None => None,
            Some(index) => self.functions.get(index as usize),
        }
    }
}

/// For each name the index of its first function.
fn numbers_of(alloc: Global, functions: &[Function<Name>]) -> Result<IndexMap<Name, u32>, Memory>
    ensures { IfOk result (λ numbers. IsTable functions.now numbers) }
{
    let mut numbers = IndexMap::new(alloc);
    for (index, function) in functions.iter().enumerate() {
        let Ok(number) = u32::try_from(index) else {
            return Err(Memory);
        };
        note_function(alloc, &mut numbers, &function.name.name, number)?;
    }
    Ok(numbers)
}

/// Puts a function into the table, where it is the first one of its name.
fn note_function(
    alloc: Global,
    numbers: &mut IndexMap<Name, u32>,
    name: &Name,
    number: u32,
) -> Result<(), Memory>
    ensures { OnOk result ((x : List ℕ) → get is_same numbers.new x
        ≡ option_or (get is_same numbers.old x) (if is_same name.now x then Some number else None)) }
{
    if !numbers.contains_key(name) {
        numbers.insert(name.copy(alloc)?, number)?;
    }
    Ok(())
}
