//! One instruction of a strand.
ghost use Rattle.std.specs.Prelude.{◌≡◌, ◌≢◌, ◌↔◌, ℕ, ◌%◌, slice_index};
ghost use Rattle.cm_isa.specs.Address.{InstructionAt, IsCodeAddress};
ghost use Rattle.cm_isa.specs.Machine.{IsMap, Machine, StepsTo};
ghost use Rattle.cm_isa.specs.Operation.{Operation, ecall};
ghost use Rattle.cm_isa.specs.View.{SameMap};
ghost use Rattle.cm_hart.specs.Address.{IsStranger};
ghost use Rattle.cm_hart.specs.Step.{HasHartOutcome, MayStep, hart_machine, hart_outcome};
ghost use Rattle.cm_strand.specs.Owned.{Owned};
ghost use Rattle.cm_strand.specs.Turn as turn;
ghost use Rattle.cm_strand.specs.Seen.{IsStrand, StrandOf, chain_of, hart_of};

use crate::strand::Strand;
use cm_hart::{Code, Halt, step};
use cm_isa::convention::SERVICE;
use cm_isa::{FaultKind, Next, Shown, Words};

impl Strand {
    /// Does one instruction: `cm_hart::step` of its hart. It takes no memory.
    #[inline(always)]
    pub fn step<W: Words>(&mut self, code: &Code, words: &mut W) -> Halt
        requires { MayStep (W.view words.old) code.now (hart_of self.old) }
        ensures strand { StrandOf self.old (λ S. (owned : Owned)
            → IsStrand self.new (turn.after_instruction S (slice_index (hart_of self.new).regs) (hart_of self.new).pc owned)) }
        ensures chain { chain_of self.new ≡ chain_of self.old }

        // Where an instruction is at the pc.
        ensures outcome { (i : Operation) → InstructionAt code.now (hart_of self.old).pc i →
            let after = hart_outcome (W.view words.old) i (hart_of self.old) in
            HasHartOutcome after (hart_of self.old) result (hart_of self.new) (W.view words.new) }

        // Where none is.
        ensures jump { (result ≡ Halt.Fault FaultKind.Jump (hart_of self.old).pc) ↔
            (¬ IsCodeAddress code.now (hart_of self.old).pc) }
        ensures word { (a : ℕ) → (result ≡ Halt.Fault FaultKind.Word a) ↔
            ((a ≡ (hart_of self.old).pc) × IsStranger code.now (hart_of self.old).pc) }

        // What each answer tells.
        ensures there { result ≢ Halt.Fault FaultKind.Jump (hart_of self.old).pc →
            result ≢ Halt.Fault FaultKind.Word (hart_of self.old).pc →
            (i : Operation) × InstructionAt code.now (hart_of self.old).pc i }
        ensures going { result ≡ Halt.Going →
            (i : Operation) × InstructionAt code.now (hart_of self.old).pc i ×
            ((hart_outcome (W.view words.old) i (hart_of self.old)).next ≡ Next.At (hart_of self.new).pc) }
        ensures service { (n : ℕ) → (result ≡ Halt.Service n) ↔
            ((n ≡ slice_index (hart_of self.old).regs SERVICE) × InstructionAt code.now (hart_of self.old).pc ecall) }
        ensures halts { result ≢ Halt.Going →
            ((hart_of self.new) ≡ (hart_of self.old)) × (W.view words.new ≡ W.view words.old) }
        ensures target { (a : ℕ) → IsCodeAddress code.now (hart_of self.old).pc →
            result ≡ Halt.Fault FaultKind.Jump a → a % 4 ≢ 0 }
        ensures page_fault { (a : ℕ) → result ≡ Halt.PageFault a →
            (W.view words.old).shown a ≡ Shown.Page }
        ensures outside { (a : ℕ) → result ≡ Halt.Fault FaultKind.Place a →
            (W.view words.old).shown a ≡ Shown.Outside }

        // The machine takes this step exactly where the answer is Going.
        ensures machine { IsMap (W.view words.old) → (m : Machine) →
            StepsTo (InstructionAt code.now) (hart_machine (W.view words.old) (hart_of self.old)) m ↔
            ((result ≡ Halt.Going) × (m ≡ hart_machine (W.view words.new) (hart_of self.new))) }

        // What stays as it was.
        ensures same_map { SameMap (W.view words.old) (W.view words.new) }
        ensures same_rest { W.rest words.new ≡ W.rest words.old }
    {
        step(&mut self.hart, code, words)
    }
}
