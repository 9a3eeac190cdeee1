//! The code of statements that have no statements in them, put down before the code that stands behind it.
#![tactic(auto, using(crate::proofs::parts::CodeLaw::behind))]

ghost use Rattle.std.specs.Prelude.{◌≡◌, ◌+◌, ◌-◌, ◌*◌, ◌≤◌, ◌<◌, ◌≤ℤ◌, ◌^◌, ◌++◌, length, pos, ◌+ℤ◌, OnOk};
ghost use Rattle.cm_syntax.specs.declared.expr.Expr.TheVariants as expressions;
ghost use Rattle.cm_syntax.specs.Extent.{extent_of};
ghost use Rattle.cm_syntax.specs.Frame.{slot_words};
ghost use Rattle.cm_syntax.specs.Limit.{max_frame_words};
ghost use Rattle.cm_syntax.specs.Rest.{called, spawned};
ghost use Rattle.cm_syntax.specs.Step.{destination_slot as slot_in};
ghost use Rattle.cm_gen.specs.Part.{straight};
ghost use Rattle.cm_gen.specs.Statement as statement;
ghost use Rattle.cm_gen.specs.Fits as fits;

use crate::builder::CodeBuilder;
use crate::evaluation::{arguments, expression};
use crate::form::Form;
use crate::instruction::{add, addi, bgeu, bltu, lw, slli, sub, sw};
use crate::layout::Layout;
use crate::straight::{
    base, keep_word, load_address, load_number, load_slot, locate, operator, service, store_slot,
    take_back, tick,
};
use cm_isa::convention::{HELP, LEFT, SPARE, VALUE, ZERO};
use cm_syntax::{Call, Expr, Extent, Item, Mark, Op, Slot, Target};
use cm_text::Memory;

/// A variable that is declared without a value is 0, an array in all its words.
fn clear(code: &mut CodeBuilder, layout: &Layout, slot: u32, kind: Slot) -> Result<(), Memory>
    requires { slot_words kind ≤ max_frame_words }
    ensures { OnOk result (code.new ≡ straight (statement.clear_for layout.now slot (extent_of kind)) ++ code.old) }
{
    match kind.extent() {
        Extent::Word => store_slot(code, ZERO, layout.offset(slot)),
        Extent::Words(words) => clear_array(code, layout.offset(slot), words),
        Extent::Reference => Ok(()),
    }
}

/// The words of an array at an offset become 0.
fn clear_array(code: &mut CodeBuilder, offset: i32, words: u32) -> Result<(), Memory>
    requires words { words ≤ max_frame_words }
    requires offset { offset ≤ℤ pos 0 }
    ensures { OnOk result (code.new ≡ straight (statement.clear_array_code offset words) ++ code.old) }
{
    clear_words(code)?;
    load_address(code, LEFT, end_of(offset, words))?;
    load_address(code, VALUE, offset)
}

/// The words from the address in x5 to the one in x6 become 0.
fn clear_words(code: &mut CodeBuilder) -> Result<(), Memory>
    ensures { OnOk result (code.new ≡ straight statement.clear_words_code ++ code.old) }
{
    code.plain(bltu(VALUE, LEFT, -8))?;
    code.plain(addi(VALUE, VALUE, 4))?;
    code.plain(sw(ZERO, VALUE, 0))
}

/// The offset behind so many words.
fn end_of(offset: i32, words: u32) -> i32
    requires words { words ≤ max_frame_words }
    requires offset { offset ≤ℤ pos 0 }
    ensures { result ≡ offset +ℤ pos (4 * words) }
{
    offset + 4 * (words as i32)
}

/// x5 goes into a scalar.
fn assign_scalar(code: &mut CodeBuilder, layout: &Layout, slot: u32) -> Result<(), Memory>
    ensures { OnOk result (code.new ≡ straight (statement.assign_code layout.now slot) ++ code.old) }
{
    store_slot(code, VALUE, layout.offset(slot))
}

/// An operation with the old word goes into a scalar.
fn update_scalar(code: &mut CodeBuilder, layout: &Layout, slot: u32, op: Op) -> Result<(), Memory>
    ensures { OnOk result (code.new ≡ straight (statement.update_code layout.now slot op) ++ code.old) }
{
    assign_scalar(code, layout, slot)?;
    operator(code, op)?;
    load_slot(code, LEFT, layout.offset(slot))
}

/// x5, or an operation with the old word, goes into the element whose address is in temporary 0.
fn store_element(code: &mut CodeBuilder, layout: &Layout, op: Option<Op>) -> Result<(), Memory>
    ensures { OnOk result (code.new ≡ straight (statement.store_code layout.now op) ++ code.old) }
{
    match op {
        None => {
            code.plain(sw(VALUE, LEFT, 0))?;
            load_slot(code, LEFT, layout.temporary(0))
        }
        Some(op) => {
            code.plain(sw(VALUE, HELP, 0))?;
            operator(code, op)?;
            code.plain(lw(LEFT, HELP, 0))?;
            load_slot(code, HELP, layout.temporary(0))
        }
    }
}

/// Behind the index of an element that is written.
fn write_element(
    code: &mut CodeBuilder,
    layout: &Layout,
    slot: u32,
    op: Option<Op>,
    value: &Expr<u32>,
) -> Result<(), Memory>
    requires { fits.Fits value.now 1 }
    ensures { OnOk result (code.new ≡ statement.write_code layout.now slot op value.now ++ code.old) }
{
    store_element(code, layout, op)?;
    expression(code, layout, value, 1)?;
    keep_word(code, layout, 0)?;
    locate(code, layout, slot)
}

/// An assignment.
pub(crate) fn assign(
    code: &mut CodeBuilder,
    layout: &Layout,
    target: &Target<u32>,
    op: Option<Op>,
    value: &Expr<u32>,
) -> Result<(), Memory>
    requires { fits.AssignmentFits target.now value.now }
    ensures { OnOk result (code.new ≡ statement.assignment_code layout.now target.now op value.now ++ code.old) }
{
    match target {
        Target::Scalar(name) => {
            match op {
                None => assign_scalar(code, layout, name.name)?,
                Some(op) => update_scalar(code, layout, name.name, op)?,
            }
            expression(code, layout, value, 0)
        }
        Target::Index(name, index) => {
            write_element(code, layout, name.name, op, value)?;
            expression(code, layout, index, 0)
        }
    }
}

/// A variable that is declared.
fn declare_item(
    code: &mut CodeBuilder,
    layout: &Layout,
    slot: u32,
    kind: Slot,
    first: &Option<Expr<u32>>,
) -> Result<(), Memory>
    requires kind { slot_words kind ≤ max_frame_words }
    requires first { fits.OptionFits first.now }
    ensures { OnOk result (code.new ≡ statement.item_code layout.now slot kind first.now ++ code.old) }
{
    match first {
        None => clear(code, layout, slot, kind),
        Some(value) => match kind.extent() {
            Extent::Word => {
                assign_scalar(code, layout, slot)?;
                expression(code, layout, value, 0)
            }
            _ => clear(code, layout, slot, kind),
        },
    }
}

/// The items of a declaration, the last one first.
pub(crate) fn declare(
    code: &mut CodeBuilder,
    layout: &Layout,
    items: &[Item<u32>],
) -> Result<(), Memory>
    requires { fits.ItemsFit items.now }
    ensures { OnOk result (code.new ≡ statement.items_code layout.now items.now ++ code.old) }
{
    let mut at = items.len();
    while at > 0 {
        at -= 1;
        let item = &items[at];
        declare_item(code, layout, item.name.name, item.slot, &item.first)?;
    }
    Ok(())
}

/// A call that is a statement.
pub(crate) fn invoke(
    code: &mut CodeBuilder,
    layout: &Layout,
    call: &Call<u32>,
) -> Result<(), Memory>
    requires { fits.Fits (expressions.Call call.now) 0 }
    ensures { OnOk result (code.new ≡ statement.call_code layout.now (expressions.Call call.now) ++ code.old) }
{
    code.call(call.function.name)?;
    arguments(code, layout, call.arguments.items(), 0, 0)
}

/// What a spawn that is a call came back with goes to its destination.
fn deliver(code: &mut CodeBuilder, layout: &Layout, destination: Option<u32>) -> Result<(), Memory>
    ensures { OnOk result (code.new ≡ straight (statement.deliver_code layout.now destination) ++ code.old) }
{
    match destination {
        None => Ok(()),
        Some(slot) => {
            assign_scalar(code, layout, slot)?;
            take_back(code)
        }
    }
}

/// x6 takes the address of a spawn's destination, or 0.
fn load_destination(
    code: &mut CodeBuilder,
    layout: &Layout,
    destination: Option<u32>,
) -> Result<(), Memory>
    ensures { OnOk result (code.new ≡ straight (statement.destination_code layout.now destination) ++ code.old) }
{
    match destination {
        None => load_number(code, LEFT, 0),
        Some(slot) => load_address(code, LEFT, layout.offset(slot)),
    }
}

/// Behind the arguments of a spawn: a call in the serial form, and service 4 in the Cilk form.
fn enter_spawn(
    code: &mut CodeBuilder,
    layout: &Layout,
    form: Form,
    destination: Option<u32>,
    function: u32,
) -> Result<(), Memory>
    requires { fits.IsIndex function }
    ensures { OnOk result (code.new ≡ statement.enter_code form layout.now (spawned destination) function ++ code.old) }
{
    match form {
        Form::Serial => {
            deliver(code, layout, destination)?;
            code.call(function)
        }
        Form::Cilk => {
            service(code, 4)?;
            load_destination(code, layout, destination)?;
            load_number(code, VALUE, (8 + 4 * function) as i32)
        }
    }
}

/// The slot of a spawn's destination.
fn destination_slot(target: &Option<Mark<u32>>) -> Option<u32>
    ensures { result ≡ slot_in target.now }
{
    match target {
        None => None,
        Some(name) => Some(name.name),
    }
}

/// A spawn.
pub(crate) fn spawn(
    code: &mut CodeBuilder,
    layout: &Layout,
    form: Form,
    target: &Option<Mark<u32>>,
    call: &Call<u32>,
) -> Result<(), Memory>
    requires call { fits.Fits (expressions.Call call.now) 0 }
    requires index { fits.IsIndex call.now.function.name }
    ensures { OnOk result (code.new
        ≡ statement.invoke_code form layout.now (spawned (slot_in target.now)) (expressions.Call call.now) ++ code.old) }
{
    enter_spawn(
        code,
        layout,
        form,
        destination_slot(target),
        call.function.name,
    )?;
    arguments(code, layout, call.arguments.items(), 0, 0)
}

/// A sync, which is nothing in the serial form.
pub(crate) fn sync(code: &mut CodeBuilder, form: Form) -> Result<(), Memory>
    ensures { OnOk result (code.new ≡ straight (statement.sync_code form) ++ code.old) }
{
    match form {
        Form::Serial => Ok(()),
        Form::Cilk => service(code, 5),
    }
}

/// Two registers go into the words of a slice at an offset.
pub(crate) fn store_pair(
    code: &mut CodeBuilder,
    address: u8,
    words: u8,
    offset: i32,
) -> Result<(), Memory>
    requires registers { (address < 32) × (words < 32) }
    requires offset { offset ≤ℤ pos 0 }
    ensures { OnOk result (code.new ≡ straight (statement.store_pair address words offset) ++ code.old) }
{
    store_slot(code, words, offset + 4)?;
    store_slot(code, address, offset)
}

/// Behind the test of a place: the parts go into their slots.
fn store_parts(code: &mut CodeBuilder, layout: &Layout, left: u32, right: u32) -> Result<(), Memory>
    ensures { OnOk result (code.new ≡ straight (statement.store_parts layout.now left right) ++ code.old) }
{
    store_pair(code, VALUE, SPARE, layout.offset(right))?;
    code.plain(add(VALUE, LEFT, VALUE))?;
    code.plain(slli(VALUE, VALUE, 2))?;
    store_pair(code, LEFT, VALUE, layout.offset(left))
}

/// Behind the place where a slice is split: it is tested, and the parts go into their slots.
pub(crate) fn split(
    code: &mut CodeBuilder,
    layout: &Layout,
    whole: u32,
    left: u32,
    right: u32,
) -> Result<(), Memory>
    ensures { OnOk result (code.new ≡ straight (statement.part_code layout.now whole left right) ++ code.old) }
{
    store_parts(code, layout, left, right)?;
    code.plain(sub(SPARE, HELP, VALUE))?;
    service(code, 8)?;
    code.plain(bgeu(HELP, VALUE, 12))?;
    base(code, layout, whole)
}

/// An expression that may not be there.
pub(crate) fn optional(
    code: &mut CodeBuilder,
    layout: &Layout,
    value: &Option<Expr<u32>>,
) -> Result<(), Memory>
    requires { fits.OptionFits value.now }
    ensures { OnOk result (code.new ≡ statement.optional_code layout.now value.now ++ code.old) }
{
    match value {
        None => Ok(()),
        Some(value) => expression(code, layout, value, 0),
    }
}

/// x5 is printed, after a tick.
pub(crate) fn print(code: &mut CodeBuilder) -> Result<(), Memory>
    ensures { OnOk result (code.new ≡ statement.print_code ++ code.old) }
{
    service(code, 1)?;
    tick(code)
}
