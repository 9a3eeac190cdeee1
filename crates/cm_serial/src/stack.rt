//! The stack of a serial run, and the registers at its start.
ghost use Rattle.std.specs.Prelude.{◌≡◌, ◌≤◌, IfOk, length, replicate};
ghost use Rattle.cm_meaning.specs.Range.{max_stack_words};
ghost use Rattle.cm_serial.specs.Stack.{first_registers};

use cm_isa::convention::{ACCOUNT, SP, TICKS};
use cm_isa::{Regs, Shown, Words};
use cm_maps::STACK_TOP;
use cm_text::Memory;
use std::alloc::Global;
use std::marker::Model;

/// The words of the stack, from the lowest address on. Contracts see a list of them.
#[derive(Drop)]
pub(crate) struct Stack {
    words: Vec<u32>,
}

impl Model for Stack {
    ghost use Rattle.std.specs.Prelude.{ℕ, List, ◌≤◌, vec_len};
    ghost use Rattle.cm_meaning.specs.Range.{max_stack_words};

    ghost Value = { List ℕ };

    ghost view = { λ stack. stack.words.items };

    ghost invariant = { λ stack. vec_len stack.words ≤ max_stack_words };
}

impl Stack {
    /// A stack of so many words, each of them 0. `Memory` is want of memory.
    pub(crate) fn new(alloc: Global, count: usize) -> Result<Stack, Memory>
        requires { count ≤ max_stack_words }
        ensures { IfOk result (λ stack. stack ≡ replicate count 0) }
    {
        let words = vec![in alloc; 0; count]?;
        Ok(Stack { words })
    }
}

impl Words for Stack {
    ghost use Rattle.std.specs.Prelude.{ℕ, length};
    ghost use Rattle.cm_serial.specs.Stack.{stack_view};

    ghost view = { λ stack. stack_view stack };

    ghost Rest = { ℕ };

    ghost rest = { λ stack. length stack };

    fn show(&self, address: u32) -> Shown {
        let size = 4 * self.words.len() as u32;
        let offset = address.wrapping_sub(STACK_TOP - size);
        if offset < size {
            Shown::Place(offset / 4)
        } else {
            Shown::Outside
        }
    }

    fn load(&mut self, place: u32) -> u32 {
        self.words[place as usize]
    }

    fn store(&mut self, place: u32, word: u32) {
        self.words[place as usize] = word;
    }
}

/// The registers at the start of a run.
pub(crate) fn first_regs(account: u32, ticks: u32) -> Regs
    ensures value { result ≡ first_registers account ticks }
    ensures count { length result ≡ 32 }
{
    let mut regs = Regs::zero();
    regs.set(SP, STACK_TOP);
    regs.set(ACCOUNT, account);
    regs.set(TICKS, ticks);
    regs
}
