//! The instructions of an image, each decoded once.
ghost use Rattle.std.specs.Prelude.{◌≡◌, ◌↔◌, ℕ, IfOk, MatchResult};
ghost use Rattle.cm_isa.specs.Address.{InstructionAt, IsCodeAddress};
ghost use Rattle.cm_isa.specs.Operation.{Operation};
ghost use Rattle.cm_hart.specs.Address.{IsStranger, Lacks};
ghost use Rattle.cm_hart.specs.Code.{AreDecoded};

use cm_asm::Image;
use cm_isa::{FaultKind, Instr, decode};
use cm_text::Memory;
use std::alloc::Global;
use std::marker::Model;

/// The instructions of an image, decoded once, so that a step looks its instruction up. A word that is no
/// instruction's is kept as such. Contracts see the image's words.
#[derive(Drop)]
pub struct Code {
    words: Vec<u32>,
    instrs: Vec<Option<Instr>>,
}

impl Model for Code {
    ghost use Rattle.std.specs.Prelude.{ℕ, List};
    ghost use Rattle.cm_hart.specs.Code.{AreDecoded};

    ghost Value = { List ℕ };

    ghost view = { λ code. code.words.items };

    ghost invariant = { λ code. AreDecoded code.words.items code.instrs.items };
}

impl Code {
    /// The code of an image: 16 bytes a word. `Memory` is want of memory.
    pub fn of(alloc: Global, image: &Image) -> Result<Code, Memory>
        ensures { IfOk result (λ code. code ≡ image.now.words) }
    {
        let words = image.words.items().to_vec(alloc)?;
        let instrs = decoded(alloc, words.as_slice())?;
        Ok(Code { words, instrs })
    }

    /// The instruction at pc, or why there is none: Jump where pc is no address of the image, else Word.
    #[inline(always)]
    pub(crate) fn fetch(&self, pc: u32) -> Result<Instr, FaultKind>
        ensures cases { MatchResult result (InstructionAt self.now pc) (Lacks self.now pc) }
        ensures found { (i : Operation) → InstructionAt self.now pc i → result ≡ Ok i }
        ensures jump { (result ≡ Err FaultKind.Jump) ↔ (¬ IsCodeAddress self.now pc) }
        ensures word { (result ≡ Err FaultKind.Word) ↔ IsStranger self.now pc }
    {
        if pc % 4 != 0 {
            return Err(FaultKind::Jump);
        }
        match self.instrs.get(pc as usize / 4) {
            Some(Some(instr)) => Ok(*instr),
            Some(None) => Err(FaultKind::Word),
            None => Err(FaultKind::Jump),
        }
    }
}

/// What each of the words decodes to.
fn decoded(alloc: Global, words: &[u32]) -> Result<Vec<Option<Instr>>, Memory>
    ensures { IfOk result (λ instrs. AreDecoded words.now instrs.items) }
{
    let mut instrs = Vec::with_capacity(alloc, words.len())?;
    'words: for index in 0..words.len() {
        instrs.push(decode(words[index]))?;
    }
    Ok(instrs)
}
