//! How the environment lets a hart go on from an `ecall`.
ghost use Rattle.std.specs.Prelude.{◌≡◌, List, ℕ};
ghost use Rattle.cm_isa.specs.Address.{InstructionAt};
ghost use Rattle.cm_isa.specs.Operation.{ecall};
ghost use Rattle.cm_isa.specs.Run.{LabelledStep, call, call_of};
ghost use Rattle.cm_isa.specs.View.{View};
ghost use Rattle.cm_hart.specs.Step.{hart_machine, replied_hart};

use crate::hart::Hart;
use cm_isa::convention::VALUE;

impl Hart {
    /// Replies to the `ecall` at the pc: x5 takes the word, if there is one, and the instruction after the
    /// `ecall` is next.
    pub fn reply(&mut self, word: Option<u32>)
        ensures hart { self.new ≡ replied_hart self.old word }
        ensures machine { (view : View) (image : List ℕ) →
            InstructionAt image self.old.pc ecall →
            let asks = hart_machine view self.old in
            LabelledStep (InstructionAt image) (call (call_of asks word)) asks (hart_machine view self.new) }
    {
        if let Some(value) = word {
            self.regs.set(VALUE, value);
        }
        self.pc = self.pc.wrapping_add(4);
    }
}
