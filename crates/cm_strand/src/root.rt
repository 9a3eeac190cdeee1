//! The strand of main.
ghost use Rattle.std.specs.Prelude.{◌≡◌, ℕ, ◌*◌, ◌+◌, ◌<◌, ◌^◌, IfOk, slice_index, None};
ghost use Rattle.cm_gen.specs.Run.{start_registers};
ghost use Rattle.cm_isa.specs.Register.{IsRegisters};
ghost use Rattle.cm_strand.specs.Owned.{Owned};
ghost use Rattle.cm_strand.specs.Seen.{IsStrand, chain_of};
ghost use Rattle.cm_strand.specs.Root.{root_of};

use crate::log::Log;
use crate::strand::{Course, Strand};
use cm_gen::Build;
use cm_hart::Hart;
use cm_isa::Regs;
use cm_isa::convention::{ACCOUNT, SP, TICKS};
use cm_maps::STACK_TOP;
use cm_meaning::Limits;
use cm_text::Memory;
use std::alloc::Global;

impl Strand {
    /// The start of main: x2 is the top of the stack, x3 the stack account in bytes, x4 the ticks. `Memory` is want of memory.
    pub fn root(alloc: Global, build: &Build, limits: &Limits) -> Result<Strand, Memory>
        requires stack { limits.now.stack * limits.now.page < 2 ^ 32 }
        requires main { 8 + 4 * build.now.main < 2 ^ 32 }
        ensures strand { IfOk result (λ root. (words : Owned) → IsStrand root (root_of build.now.main (limits.now.stack * limits.now.page) limits.now.ticks words)) }
        ensures chain { IfOk result (λ root. chain_of root ≡ None) }
    {
        Ok(Strand {
            hart: Hart {
                regs: start_regs(limits.stack * limits.page, limits.ticks),
                pc: 8 + 4 * build.main,
            },
            start: limits.ticks,
            log: Log::new(alloc),
            scopes: Vec::new(alloc),
            course: Course::Going,
            chain: None,
        })
    }
}

/// The registers at the start of a run.
fn start_regs(account: u32, ticks: u32) -> Regs
    ensures { start_registers account ticks ≡ slice_index result }
{
    let mut regs = Regs::zero();
    regs.set(SP, STACK_TOP);
    regs.set(ACCOUNT, account);
    regs.set(TICKS, ticks);
    regs
}
