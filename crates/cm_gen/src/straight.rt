//! The patterns of the code that don't call, put down before the code that stands behind them.
#![tactic(auto, using(crate::proofs::parts::CodeLaw::behind))]

ghost use Rattle.std.specs.Prelude.{◌≡◌, ◌+◌, ◌*◌, ◌<◌, ◌≤◌, ◌^◌, [], ◌∷◌, ◌++◌, length, pos, ◌≤ℤ◌, OnOk, Some};
ghost use Rattle.cm_isa.specs.Bits.{IsSigned};
ghost use Rattle.cm_syntax.specs.Extent.{extent_of};
ghost use Rattle.cm_syntax.specs.Frame.{slot_words};
ghost use Rattle.cm_syntax.specs.Limit.{max_frame_words};
ghost use Rattle.cm_gen.specs.Code as pattern;
ghost use Rattle.cm_gen.specs.Expression as expression;
ghost use Rattle.cm_gen.specs.Part.{straight};

use crate::builder::CodeBuilder;
use crate::immediate::{high_part, is_near, low_part};
use crate::instruction::{
    add, addi, and, beq, bltu, bne, div, ecall, lui, lw, mul, or, rem, sll, slli, slt, sltiu, sltu,
    sra, sub, sw, xor, xori,
};
use crate::layout::Layout;
use cm_isa::Instr;
use cm_isa::convention::{FP, HELP, LEFT, RESULT, SERVICE, TICKS, VALUE, ZERO};
use cm_syntax::{Extent, Op, Slot};
use cm_text::Memory;

/// The register takes a number.
pub(crate) fn load_number(code: &mut CodeBuilder, register: u8, number: i32) -> Result<(), Memory>
    requires { register < 32 }
    ensures { OnOk result (code.new ≡ straight (pattern.load_number register number) ++ code.old) }
{
    if is_near(number) {
        code.plain(addi(register, ZERO, number))
    } else {
        code.plain(addi(register, register, low_part(number)))?;
        code.plain(lui(register, high_part(number)))
    }
}

/// The register takes the word at an offset from the frame pointer, in bytes.
pub(crate) fn load_slot(code: &mut CodeBuilder, register: u8, offset: i32) -> Result<(), Memory>
    requires { register < 32 }
    ensures { OnOk result (code.new ≡ straight (pattern.load_slot register offset) ++ code.old) }
{
    if is_near(offset) {
        code.plain(lw(register, FP, offset))
    } else {
        code.plain(lw(register, register, low_part(offset)))?;
        code.plain(add(register, register, FP))?;
        code.plain(lui(register, high_part(offset)))
    }
}

/// The word at an offset from the frame pointer, in bytes, becomes the register's.
pub(crate) fn store_slot(code: &mut CodeBuilder, register: u8, offset: i32) -> Result<(), Memory>
    requires { register < 32 }
    ensures { OnOk result (code.new ≡ straight (pattern.store_slot register offset) ++ code.old) }
{
    if is_near(offset) {
        code.plain(sw(register, FP, offset))
    } else {
        code.plain(sw(register, HELP, low_part(offset)))?;
        code.plain(add(HELP, HELP, FP))?;
        code.plain(lui(HELP, high_part(offset)))
    }
}

/// The register takes the address at an offset from the frame pointer, in bytes.
pub(crate) fn load_address(code: &mut CodeBuilder, register: u8, offset: i32) -> Result<(), Memory>
    requires { register < 32 }
    ensures { OnOk result (code.new ≡ straight (expression.load_address register offset) ++ code.old) }
{
    if is_near(offset) {
        code.plain(addi(register, FP, offset))
    } else {
        code.plain(add(register, register, FP))?;
        code.plain(addi(register, register, low_part(offset)))?;
        code.plain(lui(register, high_part(offset)))
    }
}

/// A service of the environment.
pub(crate) fn service(code: &mut CodeBuilder, number: i32) -> Result<(), Memory>
    requires { IsSigned 12 number }
    ensures { OnOk result (code.new ≡ straight (pattern.service number) ++ code.old) }
{
    code.plain(ecall())?;
    code.plain(addi(SERVICE, ZERO, number))
}

/// One tick is taken, or the run ends as spent where none is left.
pub(crate) fn tick(code: &mut CodeBuilder) -> Result<(), Memory>
    ensures { OnOk result (code.new ≡ straight pattern.tick ++ code.old) }
{
    code.plain(addi(TICKS, TICKS, -1))?;
    service(code, 6)?;
    code.plain(bne(TICKS, ZERO, 12))
}

/// The next words are jumped over where x5 is 0.
pub(crate) fn skip_unless(code: &mut CodeBuilder, words: usize) -> Result<(), Memory>
    requires { words ≤ length code.old }
    ensures { OnOk result (code.new ≡ straight (expression.skip_unless words) ++ code.old) }
{
    code.skip(words)?;
    code.plain(bne(VALUE, ZERO, 8))
}

/// The next words are jumped over where x5 isn't 0.
pub(crate) fn skip_if(code: &mut CodeBuilder, words: usize) -> Result<(), Memory>
    requires { words ≤ length code.old }
    ensures { OnOk result (code.new ≡ straight (expression.skip_if words) ++ code.old) }
{
    code.skip(words)?;
    code.plain(beq(VALUE, ZERO, 8))
}

/// A divisor in x5 is tested; where it is 0, service 7 ends the run with the trap `divide`.
fn test_divisor(code: &mut CodeBuilder) -> Result<(), Memory>
    ensures { OnOk result (code.new ≡ straight expression.test_divisor ++ code.old) }
{
    service(code, 7)?;
    code.plain(bne(VALUE, ZERO, 12))
}

/// An operator that divides, by the instruction that gives what is wanted.
fn divide(code: &mut CodeBuilder, instr: Instr) -> Result<(), Memory>
    ensures { OnOk result (code.new ≡ straight (expression.test_divisor ++ instr ∷ []) ++ code.old) }
{
    code.plain(instr)?;
    test_divisor(code)
}

/// Two instructions.
fn two(code: &mut CodeBuilder, first: Instr, second: Instr) -> Result<(), Memory>
    ensures { OnOk result (code.new ≡ straight (first ∷ second ∷ []) ++ code.old) }
{
    code.plain(second)?;
    code.plain(first)
}

/// A binary operator, with its left operand in x6 and its right one in x5.
pub(crate) fn operator(code: &mut CodeBuilder, op: Op) -> Result<(), Memory>
    ensures { OnOk result (code.new ≡ straight (expression.operator_code op) ++ code.old) }
{
    match op {
        Op::Mul => code.plain(mul(VALUE, LEFT, VALUE)),
        Op::Div => divide(code, div(VALUE, LEFT, VALUE)),
        Op::Rem => divide(code, rem(VALUE, LEFT, VALUE)),
        Op::Add => code.plain(add(VALUE, LEFT, VALUE)),
        Op::Sub => code.plain(sub(VALUE, LEFT, VALUE)),
        Op::Shl => code.plain(sll(VALUE, LEFT, VALUE)),
        Op::Shr => code.plain(sra(VALUE, LEFT, VALUE)),
        Op::Lt => code.plain(slt(VALUE, LEFT, VALUE)),
        Op::Le => two(code, slt(VALUE, VALUE, LEFT), xori(VALUE, VALUE, 1)),
        Op::Gt => code.plain(slt(VALUE, VALUE, LEFT)),
        Op::Ge => two(code, slt(VALUE, LEFT, VALUE), xori(VALUE, VALUE, 1)),
        Op::Eq => two(code, sub(VALUE, LEFT, VALUE), sltiu(VALUE, VALUE, 1)),
        Op::Ne => two(code, sub(VALUE, LEFT, VALUE), sltu(VALUE, ZERO, VALUE)),
        Op::And => code.plain(and(VALUE, LEFT, VALUE)),
        Op::Xor => code.plain(xor(VALUE, LEFT, VALUE)),
        Op::Or => code.plain(or(VALUE, LEFT, VALUE)),
        Op::Neg | Op::Not | Op::Flip | Op::Both | Op::Either => Ok(()),
    }
}

/// A unary operator on x5.
pub(crate) fn prefix(code: &mut CodeBuilder, op: Op) -> Result<(), Memory>
    ensures { OnOk result (code.new ≡ straight (expression.prefix_code op) ++ code.old) }
{
    match op {
        Op::Neg => code.plain(sub(VALUE, ZERO, VALUE)),
        Op::Not => code.plain(sltiu(VALUE, VALUE, 1)),
        Op::Flip => code.plain(xori(VALUE, VALUE, -1)),
        _ => Ok(()),
    }
}

/// x5 becomes 1 for all but 0.
pub(crate) fn truth(code: &mut CodeBuilder) -> Result<(), Memory>
    ensures { OnOk result (code.new ≡ straight expression.truth_code ++ code.old) }
{
    code.plain(sltu(VALUE, ZERO, VALUE))
}

/// x6 takes the address of a slot's first word and x7 the number of its words.
fn base_of(code: &mut CodeBuilder, kind: Slot, offset: i32) -> Result<(), Memory>
    requires kind { slot_words kind ≤ max_frame_words }
    requires offset { offset ≤ℤ pos 0 }
    ensures { OnOk result (code.new ≡ straight (expression.base_for (Some (extent_of kind)) offset) ++ code.old) }
{
    match kind.extent() {
        Extent::Word => {
            load_number(code, HELP, 1)?;
            load_address(code, LEFT, offset)
        }
        Extent::Words(words) => {
            load_number(code, HELP, words as i32)?;
            load_address(code, LEFT, offset)
        }
        Extent::Reference => {
            load_slot(code, HELP, offset + 4)?;
            load_slot(code, LEFT, offset)
        }
    }
}

/// The same for a slot by its number.
pub(crate) fn base(code: &mut CodeBuilder, layout: &Layout, slot: u32) -> Result<(), Memory>
    ensures { OnOk result (code.new ≡ straight (expression.base layout.now slot) ++ code.old) }
{
    match layout.kind(slot) {
        Some(kind) => base_of(code, kind, layout.offset(slot)),
        None => Ok(()),
    }
}

/// x5 takes the number of words.
fn length_of(code: &mut CodeBuilder, kind: Slot, offset: i32) -> Result<(), Memory>
    requires kind { slot_words kind ≤ max_frame_words }
    requires offset { offset ≤ℤ pos 0 }
    ensures { OnOk result (code.new ≡ straight (expression.length_for (Some (extent_of kind)) offset) ++ code.old) }
{
    match kind.extent() {
        Extent::Word => load_number(code, VALUE, 1),
        Extent::Words(words) => load_number(code, VALUE, words as i32),
        Extent::Reference => load_slot(code, VALUE, offset + 4),
    }
}

/// The same for a slot by its number.
pub(crate) fn load_length(code: &mut CodeBuilder, layout: &Layout, slot: u32) -> Result<(), Memory>
    ensures { OnOk result (code.new ≡ straight (expression.length_code layout.now slot) ++ code.old) }
{
    match layout.kind(slot) {
        Some(kind) => length_of(code, kind, layout.offset(slot)),
        None => Ok(()),
    }
}

/// An index in x5 is tested, and becomes the address of the element.
pub(crate) fn locate(code: &mut CodeBuilder, layout: &Layout, slot: u32) -> Result<(), Memory>
    ensures { OnOk result (code.new ≡ straight (expression.locate_code layout.now slot) ++ code.old) }
{
    code.plain(add(VALUE, VALUE, LEFT))?;
    code.plain(slli(VALUE, VALUE, 2))?;
    service(code, 8)?;
    code.plain(bltu(VALUE, HELP, 12))?;
    base(code, layout, slot)
}

/// An index in x5 is tested, and becomes the word of the element.
pub(crate) fn element(code: &mut CodeBuilder, layout: &Layout, slot: u32) -> Result<(), Memory>
    ensures { OnOk result (code.new ≡ straight (expression.element_code layout.now slot) ++ code.old) }
{
    code.plain(lw(VALUE, VALUE, 0))?;
    locate(code, layout, slot)
}

/// Behind the right operand: the left one comes from its temporary, and the operator follows.
pub(crate) fn apply(
    code: &mut CodeBuilder,
    layout: &Layout,
    op: Op,
    depth: u32,
) -> Result<(), Memory>
    requires { depth ≤ 2 ^ 20 }
    ensures { OnOk result (code.new ≡ straight (expression.apply_code layout.now op depth) ++ code.old) }
{
    operator(code, op)?;
    load_slot(code, LEFT, layout.temporary(depth))
}

/// A value is kept in a temporary.
pub(crate) fn keep_word(code: &mut CodeBuilder, layout: &Layout, number: u32) -> Result<(), Memory>
    requires { number ≤ 2 ^ 20 }
    ensures { OnOk result (code.new ≡ straight (expression.keep_word layout.now number) ++ code.old) }
{
    store_slot(code, VALUE, layout.temporary(number))
}

/// A slice is kept in two temporaries.
pub(crate) fn keep_slice(
    code: &mut CodeBuilder,
    layout: &Layout,
    slot: u32,
    number: u32,
) -> Result<(), Memory>
    requires { number < 2 ^ 20 }
    ensures { OnOk result (code.new ≡ straight (expression.keep_slice layout.now slot number) ++ code.old) }
{
    store_slot(code, VALUE, layout.temporary(number + 1))?;
    store_slot(code, LEFT, layout.temporary(number))?;
    code.plain(addi(VALUE, HELP, 0))?;
    base(code, layout, slot)
}

/// The slice of one scalar is kept in two temporaries.
pub(crate) fn keep_scalar(
    code: &mut CodeBuilder,
    layout: &Layout,
    slot: u32,
    number: u32,
) -> Result<(), Memory>
    requires { number < 2 ^ 20 }
    ensures { OnOk result (code.new ≡ straight (expression.keep_scalar layout.now slot number) ++ code.old) }
{
    store_slot(code, VALUE, layout.temporary(number + 1))?;
    load_number(code, VALUE, 1)?;
    store_slot(code, LEFT, layout.temporary(number))?;
    load_address(code, LEFT, layout.offset(slot))
}

/// So many words, from a temporary on, go to registers, from this one on.
pub(crate) fn hand_over(
    code: &mut CodeBuilder,
    layout: &Layout,
    number: u32,
    register: u8,
    count: u8,
) -> Result<(), Memory>
    requires temporaries { number + count ≤ 2 ^ 20 }
    requires registers { register + count ≤ 32 }
    ensures { OnOk result (code.new ≡ straight (expression.hand_over layout.now number register count) ++ code.old) }
{
    if count > 0 {
        hand_over(code, layout, number + 1, register + 1, count - 1)?;
        load_slot(code, register, layout.temporary(number))
    } else {
        Ok(())
    }
}

/// What a call came back with becomes x5.
pub(crate) fn take_back(code: &mut CodeBuilder) -> Result<(), Memory>
    ensures { OnOk result (code.new ≡ straight expression.take_back_code ++ code.old) }
{
    code.plain(addi(VALUE, RESULT, 0))
}
