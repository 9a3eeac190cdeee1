//! One step of a hart, in two stages: which instruction is at the pc, and its effect.
ghost use Rattle.std.specs.Prelude.{◌≡◌, ◌≢◌, ◌↔◌, ℕ, ◌%◌, slice_index};
ghost use Rattle.cm_isa.specs.Action.{action_at};
ghost use Rattle.cm_isa.specs.Address.{InstructionAt, IsCodeAddress};
ghost use Rattle.cm_isa.specs.Effect.{MayAccess};
ghost use Rattle.cm_isa.specs.Machine.{IsMap, Machine, StepsTo};
ghost use Rattle.cm_isa.specs.Operation.{Operation, ecall};
ghost use Rattle.cm_isa.specs.Register.{IsRegisters};
ghost use Rattle.cm_isa.specs.View.{SameMap};
ghost use Rattle.cm_hart.specs.Address.{IsStranger};
ghost use Rattle.cm_hart.specs.Step.{HasHartOutcome, MayStep, hart_machine, hart_outcome};

use crate::code::Code;
use crate::hart::{Halt, Hart};
use cm_isa::convention::SERVICE;
use cm_isa::{FaultKind, Instr, Next, Shown, Words, effect};

/// Has the effect of the instruction at the pc.
#[inline(always)]
fn execute<W: Words>(instr: Instr, hart: &mut Hart, words: &mut W) -> Halt
    requires { MayAccess (W.view words.old)
        (action_at instr (slice_index hart.old.regs) hart.old.pc) }
    ensures outcome { let after = hart_outcome (W.view words.old) instr hart.old in
        HasHartOutcome after hart.old result hart.new (W.view words.new) }
    ensures halts { result ≢ Halt.Going →
        (hart.new ≡ hart.old) × (W.view words.new ≡ W.view words.old) }
    ensures page_fault { (a : ℕ) → result ≡ Halt.PageFault a →
        (W.view words.old).shown a ≡ Shown.Page }
    ensures outside { (a : ℕ) → result ≡ Halt.Fault FaultKind.Place a →
        (W.view words.old).shown a ≡ Shown.Outside }
    ensures registers { IsRegisters hart.old.regs }
    ensures same_map { SameMap (W.view words.old) (W.view words.new) }
    ensures same_rest { W.rest words.new ≡ W.rest words.old }
{
    match effect(instr, &mut hart.regs, hart.pc, words) {
        Next::At(address) => {
            hart.pc = address;
            Halt::Going
        }
        Next::Service => Halt::Service(hart.regs.get(SERVICE)),
        Next::PageFault { address } => Halt::PageFault { address },
        Next::Fault { kind, address } => Halt::Fault { kind, address },
    }
}

/// Does one instruction: the one at the pc of the image whose code this is. At Going it is done: the registers, the words and
/// the pc are those after it. Each other answer leaves the hart and the words as they were. Service
/// carries the word of x31, and the pc stays at the `ecall`. A pc that is no multiple of 4 or is outside
/// the image is a fault (Jump) with the pc; else a word that is no instruction's is one (Word) with the
/// pc; else PageFault and Fault are as `cm_isa::effect` says. It takes no memory.
#[inline(always)]
pub fn step<W: Words>(hart: &mut Hart, code: &Code, words: &mut W) -> Halt
    requires { MayStep (W.view words.old) code.now hart.old }
    // Where an instruction is at the pc.
    ensures outcome { (i : Operation) → InstructionAt code.now hart.old.pc i →
        let after = hart_outcome (W.view words.old) i hart.old in
        HasHartOutcome after hart.old result hart.new (W.view words.new) }

    // Where none is.
    ensures jump { (result ≡ Halt.Fault FaultKind.Jump hart.old.pc) ↔
        (¬ IsCodeAddress code.now hart.old.pc) }
    ensures word { (a : ℕ) → (result ≡ Halt.Fault FaultKind.Word a) ↔
        ((a ≡ hart.old.pc) × IsStranger code.now hart.old.pc) }

    // What each answer tells.
    ensures there { result ≢ Halt.Fault FaultKind.Jump hart.old.pc →
        result ≢ Halt.Fault FaultKind.Word hart.old.pc →
        (i : Operation) × InstructionAt code.now hart.old.pc i }
    ensures going { result ≡ Halt.Going →
        (i : Operation) × InstructionAt code.now hart.old.pc i ×
        ((hart_outcome (W.view words.old) i hart.old).next ≡ Next.At hart.new.pc) }
    ensures service { (n : ℕ) → (result ≡ Halt.Service n) ↔
        ((n ≡ slice_index hart.old.regs SERVICE) × InstructionAt code.now hart.old.pc ecall) }
    ensures halts { result ≢ Halt.Going →
        (hart.new ≡ hart.old) × (W.view words.new ≡ W.view words.old) }
    ensures target { (a : ℕ) → IsCodeAddress code.now hart.old.pc →
        result ≡ Halt.Fault FaultKind.Jump a → a % 4 ≢ 0 }
    ensures page_fault { (a : ℕ) → result ≡ Halt.PageFault a →
        (W.view words.old).shown a ≡ Shown.Page }
    ensures outside { (a : ℕ) → result ≡ Halt.Fault FaultKind.Place a →
        (W.view words.old).shown a ≡ Shown.Outside }

    // The machine takes this step exactly where the answer is Going.
    ensures machine { IsMap (W.view words.old) → (m : Machine) →
        StepsTo (InstructionAt code.now) (hart_machine (W.view words.old) hart.old) m ↔
        ((result ≡ Halt.Going) × (m ≡ hart_machine (W.view words.new) hart.new)) }

    // What stays as it was.
    ensures same_map { SameMap (W.view words.old) (W.view words.new) }
    ensures same_rest { W.rest words.new ≡ W.rest words.old }
{
    match code.fetch(hart.pc) {
        Ok(instr) => execute(instr, hart, words),
        Err(kind) => Halt::Fault {
            kind,
            address: hart.pc,
        },
    }
}
