//! What stands before the functions in an image: the end service and the table, with the functions' addresses.
#![tactic(auto)]

ghost use Rattle.std.specs.Prelude.{◌≡◌, ◌+◌, ◌*◌, ◌<◌, ◌≤◌, ◌^◌, ◌%◌, pos, ◌-ℤ◌, [], ◌∷◌, ◌++◌, length, map, IfOk, OnOk};
ghost use Rattle.cm_isa.specs.declared.convention.TheConstants as reg;
ghost use Rattle.cm_syntax.specs.Frame as frame;
ghost use Rattle.cm_syntax.specs.Fault as fault;
ghost use Rattle.cm_gen.specs.Assembler as code;
ghost use Rattle.cm_gen.specs.Code.{service};
ghost use Rattle.cm_gen.specs.Fits as fits;
ghost use Rattle.cm_gen.specs.Image as image;

use crate::builder::CodeBuilder;
use crate::form::Form;
use crate::function_code::function;
use crate::instruction::{addi, ecall, jal};
use cm_isa::Instr;
use cm_isa::convention::{SERVICE, ZERO};
use cm_syntax::{Function, Item, Slot, frame_words};
use cm_text::{List, Memory};
use std::alloc::Global;

/// The addresses of functions, and the instructions before the functions.
#[derive(Drop)]
pub(crate) struct Front {
    pub(crate) entries: List<u32>,
    pub(crate) code: List<Instr>,
}

impl Front {
    /// The addresses, without the instructions.
    pub(crate) fn into_entries(self) -> List<u32>
        ensures { result ≡ self.entries }
    {
        let Front { entries, code: _ } = self;
        entries
    }
}

/// The service that ends a run, to which main goes back.
pub(crate) fn end_service(code: &mut List<Instr>) -> Result<(), Memory>
    ensures { OnOk result (code.new ≡ code.old ++ service (pos 0)) }
{
    code.push(addi(SERVICE, ZERO, 0))?;
    code.push(ecall())?;
    Ok(())
}

/// A function's address, and its word in the table, which stands at `address`.
fn put(front: &mut Front, address: u32, entry: u32) -> Result<(), Memory>
    requires place { (address < 2 ^ 12) × (address % 4 ≡ 0) }
    requires target { (entry < 2 ^ 20) × (entry % 4 ≡ 0) }
    ensures entries { OnOk result (front.new.entries ≡ front.old.entries ++ entry ∷ []) }
    ensures code { OnOk result (front.new.code ≡ front.old.code ++ code.jal reg.ZERO (pos entry -ℤ pos address) ∷ []) }
{
    front.entries.push(entry)?;
    front.code.push(jal(ZERO, entry as i32 - address as i32))?;
    Ok(())
}

/// How many words the code of a function has.
fn function_size(
    alloc: Global,
    form: Form,
    page: u32,
    value: &Function<u32>,
) -> Result<usize, Memory>
    requires fits { fits.FunctionFits value.now }
    requires page { page ≤ 2 ^ 16 }
    ensures { IfOk result (λ words. words ≡ length (image.function_code form page value.now)) }
{
    let mut code = CodeBuilder::new(alloc);
    function(alloc, &mut code, form, page, value)?;
    Ok(code.len())
}

/// The addresses of functions and their words in the table, which stand from `address` on, where the next one that isn't
/// marked `cilk` and the next one that is stand at `serial` and `cilk`.
pub(crate) fn table(
    alloc: Global,
    front: &mut Front,
    form: Form,
    page: u32,
    address: u32,
    serial: u32,
    cilk: u32,
    list: &[Function<u32>],
) -> Result<(), Memory>
    requires fits { fits.FunctionsFit list.now }
    requires page { page ≤ 2 ^ 16 }
    requires place { (address + 4 * length list.now < 2 ^ 12) × (address % 4 ≡ 0) }
    requires room { image.HaveRoom form page serial cilk list.now }
    ensures entries { OnOk result (front.new.entries ≡ front.old.entries ++ image.entries_from form page serial cilk list.now) }
    ensures code { OnOk result (front.new.code ≡ front.old.code ++ image.table_from address (image.entries_from form page serial cilk list.now)) }
{
    match list {
        [] => Ok(()),
        [first, more @ ..] => {
            let words = function_size(alloc, form, page, first)?;
            if first.cilk {
                put(front, address, cilk)?;
                let next = cilk + 4 * words as u32;
                table(alloc, front, form, page, address + 4, serial, next, more)
            } else {
                put(front, address, serial)?;
                let next = serial + 4 * words as u32;
                table(alloc, front, form, page, address + 4, next, cilk, more)
            }
        }
    }
}

/// The frame words of functions.
pub(crate) fn frames(alloc: Global, list: &[Function<u32>]) -> Result<List<u32>, Memory>
    requires { fits.FunctionsFit list.now }
    ensures { IfOk result (λ words. words ≡ map frame.frame_words list.now) }
{
    let mut words = List::new(alloc);
    for function in list {
        words.push(frame_words(function))?;
    }
    Ok(words)
}

/// The slots of a function's parameters.
fn slots_of(alloc: Global, items: &[Item<u32>]) -> Result<List<Slot>, Memory>
    ensures { IfOk result (λ slots. slots ≡ map (λ item. item.slot) items.now) }
{
    let mut slots = List::new(alloc);
    for item in items {
        slots.push(item.slot)?;
    }
    Ok(slots)
}

/// The slots of the parameters of functions.
pub(crate) fn parameters(alloc: Global, list: &[Function<u32>]) -> Result<List<List<Slot>>, Memory>
    ensures { IfOk result (λ slots. slots ≡ map fault.parameter_slots list.now) }
{
    let mut slots = List::new(alloc);
    for function in list {
        slots.push(slots_of(alloc, function.parameters.items())?)?;
    }
    Ok(slots)
}
