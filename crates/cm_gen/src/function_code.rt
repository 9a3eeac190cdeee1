//! The code of functions, put down before the code that stands behind it.
#![tactic(auto, using(crate::proofs::parts::CodeLaw::behind))]

ghost use Rattle.std.specs.Prelude.{◌≡◌, ◌+◌, ◌-◌, ◌*◌, ◌≤◌, ◌<◌, ◌^◌, ◌++◌, length, if◌then◌else◌, IfOk, OnOk};
ghost use Rattle.cm_syntax.specs.Frame.{frame_words, slot_words as words_of, slots_words};
ghost use Rattle.cm_syntax.specs.Limit.{max_frame_words};
ghost use Rattle.cm_gen.specs.Code as pattern;
ghost use Rattle.cm_gen.specs.Part.{straight};
ghost use Rattle.cm_gen.specs.Image as image;
ghost use Rattle.cm_gen.specs.Fits as fits;

use crate::builder::CodeBuilder;
use crate::form::Form;
use crate::instruction::{add, addi, bgeu, jalr, lw, sub, sw};
use crate::layout::Layout;
use crate::simple::{store_pair, sync};
use crate::statement::statements;
use crate::straight::{load_number, service, store_slot, tick};
use cm_isa::convention::{ACCOUNT, FP, HELP, RA, RESULT, SP, VALUE, ZERO};
use cm_syntax::{Extent, Function, Item, Program, Slot, frame_bytes, slot_words};
use cm_text::Memory;
use std::alloc::Global;

/// The account is tested for so many bytes, and they are taken from it.
fn take_account(code: &mut CodeBuilder, need: u32) -> Result<(), Memory>
    requires { need < 2 ^ 31 }
    ensures { OnOk result (code.new ≡ straight (pattern.take_account need) ++ code.old) }
{
    code.plain(sub(ACCOUNT, ACCOUNT, HELP))?;
    service(code, 9)?;
    code.plain(bgeu(ACCOUNT, HELP, 12))?;
    load_number(code, HELP, need as i32)
}

/// The saved words of a new frame, and the frame pointer.
fn save_words(code: &mut CodeBuilder) -> Result<(), Memory>
    ensures { OnOk result (code.new ≡ straight image.save_words ++ code.old) }
{
    code.plain(addi(FP, HELP, 0))?;
    code.plain(sw(FP, HELP, -8))?;
    code.plain(sw(RA, HELP, -4))
}

/// A frame of so many bytes below the stack pointer, with the saved words.
fn make_frame(code: &mut CodeBuilder, bytes: u32) -> Result<(), Memory>
    requires { bytes < 2 ^ 31 }
    ensures { OnOk result (code.new ≡ straight (pattern.make_frame bytes) ++ code.old) }
{
    save_words(code)?;
    code.plain(add(HELP, SP, HELP))?;
    code.plain(sw(ZERO, SP, 0))?;
    code.plain(sub(SP, SP, HELP))?;
    load_number(code, HELP, bytes as i32)
}

/// The code before a function's parameters.
fn entry(code: &mut CodeBuilder, bytes: u32, need: u32) -> Result<(), Memory>
    requires frame { bytes < 2 ^ 31 }
    requires account { need < 2 ^ 31 }
    ensures { OnOk result (code.new ≡ straight (pattern.entry bytes need) ++ code.old) }
{
    make_frame(code, bytes)?;
    take_account(code, need)?;
    tick(code)
}

/// The caller's registers come back, and the call returns.
fn go_back(code: &mut CodeBuilder) -> Result<(), Memory>
    ensures { OnOk result (code.new ≡ straight image.go_back ++ code.old) }
{
    code.plain(jalr(ZERO, RA, 0))?;
    code.plain(lw(FP, FP, -8))?;
    code.plain(addi(SP, FP, 0))?;
    code.plain(lw(RA, FP, -4))
}

/// The end of a call, which gives `need` back to the account.
fn leave(code: &mut CodeBuilder, need: u32) -> Result<(), Memory>
    requires { need < 2 ^ 31 }
    ensures { OnOk result (code.new ≡ straight (pattern.leave need) ++ code.old) }
{
    go_back(code)?;
    code.plain(addi(RESULT, VALUE, 0))?;
    code.plain(add(ACCOUNT, ACCOUNT, HELP))?;
    load_number(code, HELP, need as i32)
}

/// The words of a parameter go from the registers from this one on into its slot.
fn parameter(
    code: &mut CodeBuilder,
    layout: &Layout,
    slot: u32,
    register: u8,
    kind: Slot,
) -> Result<(), Memory>
    requires { register + words_of kind ≤ 32 }
    ensures { OnOk result (code.new ≡ straight (image.parameter_code layout.now slot register kind) ++ code.old) }
{
    match kind.extent() {
        Extent::Word => store_slot(code, register, layout.offset(slot)),
        Extent::Words(_) => Ok(()),
        Extent::Reference => store_pair(code, register, register + 1, layout.offset(slot)),
    }
}

/// The words of all parameters, from this slot and register on.
fn parameters(
    code: &mut CodeBuilder,
    layout: &Layout,
    slot: u32,
    register: u8,
    list: &[Item<u32>],
) -> Result<(), Memory>
    requires { fits.ParametersFit slot register list.now }
    ensures { OnOk result (code.new ≡ straight (image.parameters_code layout.now slot register list.now) ++ code.old) }
{
    match list {
        [] => Ok(()),
        [first, more @ ..] => {
            parameters(
                code,
                layout,
                slot + 1,
                register + slot_words(first.slot) as u8,
                more,
            )?;
            parameter(code, layout, slot, register, first.slot)
        }
    }
}

/// The form of a function's spawns, syncs and return.
fn form_in(form: Form, function: &Function<u32>) -> Form
    ensures { result ≡ image.form_in form function.now }
{
    if function.cilk { form } else { Form::Serial }
}

/// What a call takes of the account.
fn need_of(page: u32, function: &Function<u32>) -> u32
    requires frame { frame_words function.now ≤ max_frame_words }
    requires page { page ≤ 2 ^ 16 }
    ensures value { result ≡ image.need_of page function.now }
    ensures small { result < 2 ^ 31 }
{
    let bytes = frame_bytes(function);
    if function.cilk { bytes + page } else { bytes }
}

/// The code behind a function's frame.
fn inner(
    code: &mut CodeBuilder,
    layout: &Layout,
    form: Form,
    need: u32,
    function: &Function<u32>,
) -> Result<(), Memory>
    requires account { need < 2 ^ 31 }
    requires body { fits.BodyFits function.now.body }
    requires parameters { fits.ParametersFit 0 10 function.now.parameters }
    ensures { OnOk result (code.new ≡ image.inner_of form need layout.now function.now ++ code.old) }
{
    leave(code, need)?;
    sync(code, form)?;
    let exit = code.len();
    code.plain(addi(VALUE, ZERO, 0))?;
    statements(code, layout, form, exit, function.body.items())?;
    parameters(code, layout, 0, RESULT, function.parameters.items())
}

/// A function. `Memory` is want of memory.
pub(crate) fn function(
    alloc: Global,
    code: &mut CodeBuilder,
    form: Form,
    page: u32,
    value: &Function<u32>,
) -> Result<(), Memory>
    requires fits { fits.FunctionFits value.now }
    requires page { page ≤ 2 ^ 16 }
    ensures { OnOk result (code.new ≡ image.function_code form page value.now ++ code.old) }
{
    let layout = Layout::of(alloc, value.slots.items())?;
    let need = need_of(page, value);
    inner(code, &layout, form_in(form, value), need, value)?;
    entry(code, frame_bytes(value), need)
}

/// The functions that are marked `cilk`, or those that aren't, the last one first.
pub(crate) fn functions(
    alloc: Global,
    code: &mut CodeBuilder,
    form: Form,
    page: u32,
    cilk: bool,
    list: &[Function<u32>],
) -> Result<(), Memory>
    requires fits { fits.FunctionsFit list.now }
    requires page { page ≤ 2 ^ 16 }
    ensures { OnOk result (code.new ≡ image.functions_code form page (image.marked cilk list.now) ++ code.old) }
{
    let mut at = list.len();
    while at > 0 {
        at -= 1;
        let value = &list[at];
        if value.cilk == cilk {
            function(alloc, code, form, page, value)?;
        }
    }
    Ok(())
}

/// The code of all functions of a program, in the order of the image: those that aren't marked `cilk`, and those that are.
/// `Memory` is want of memory.
pub(crate) fn program_code(
    alloc: Global,
    form: Form,
    page: u32,
    value: &Program,
) -> Result<CodeBuilder, Memory>
    requires fits { fits.FunctionsFit value.now.functions }
    requires page { page ≤ 2 ^ 16 }
    ensures { IfOk result (λ code. code ≡ image.program_code value.now form page) }
{
    let mut code = CodeBuilder::new(alloc);
    functions(alloc, &mut code, form, page, true, value.functions.items())?;
    functions(alloc, &mut code, form, page, false, value.functions.items())?;
    Ok(code)
}
