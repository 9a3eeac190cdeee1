//! The words of instructions, and of code that is laid out from an address on.
#![tactic(auto)]

ghost use Rattle.std.specs.Prelude.{◌≡◌, ◌+◌, ◌*◌, ◌≤◌, ◌<◌, ◌^◌, ◌%◌, length, IfOk};
ghost use Rattle.cm_isa.specs.Address.{AreWordsOf};
ghost use Rattle.cm_gen.specs.Builder as builder;
ghost use Rattle.cm_gen.specs.Part.{placed, laid};
ghost use Rattle.cm_gen.specs.Build.{max_image_words};

use crate::builder::{CodeBuilder, Word};
use crate::instruction::jal;
use cm_isa::convention::{RA, ZERO};
use cm_isa::{Instr, encode};
use cm_text::{List, Memory};
use std::alloc::Global;

/// The words of instructions, one for each.
pub(crate) fn assemble_code(alloc: Global, code: &[Instr]) -> Result<List<u32>, Memory>
    ensures { IfOk result (λ words. AreWordsOf words code.now) }
{
    let mut words = List::new(alloc);
    for instr in code {
        words.push(encode(*instr))?;
    }
    Ok(words)
}

/// The instruction that a word is at an address.
fn place(word: Word, address: u32) -> Instr
    requires reach { builder.reach word ≤ max_image_words }
    requires call { builder.IsCallWithin (2 ^ 16) (builder.seen word) }
    requires address { address < 2 ^ 20 }
    requires aligned { address % 4 ≡ 0 }
    ensures { result ≡ placed address (builder.seen word) }
{
    match word {
        Word::Plain(instr) => instr,
        Word::Call(function) => jal(RA, (8 + 4 * function) as i32 - address as i32),
        Word::Skip(words) => jal(ZERO, 4 * (words as i32 + 1)),
        Word::Back(words) => jal(ZERO, -4 * (words as i32)),
    }
}

/// The words of the code, from an address on. `Memory` is want of memory.
pub(crate) fn lay(alloc: Global, code: &CodeBuilder, start: u32) -> Result<List<u32>, Memory>
    requires length { length code.now ≤ max_image_words }
    requires calls { builder.AreCallsWithin (2 ^ 16) code.now }
    requires start { start ≤ 2 ^ 12 }
    requires aligned { start % 4 ≡ 0 }
    ensures { IfOk result (λ words. AreWordsOf words (laid start code.now)) }
{
    let mut words = List::new(alloc);
    let mut address = start;
    for at in 0..code.len() {
        words.push(encode(place(code.word(at), address)))?;
        address += 4;
    }
    Ok(words)
}
