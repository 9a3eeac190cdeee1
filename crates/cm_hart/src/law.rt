//! Laws of the definitions that the contracts are stated by, each the contract of a function that does
//! nothing.
ghost use Rattle.std.specs.Prelude.{List, ℕ};
ghost use Rattle.cm_isa.specs.Address.{InstructionAt};
ghost use Rattle.cm_isa.specs.Machine.{IsMap, Machine};
ghost use Rattle.cm_isa.specs.Run.{Label, LabelledStep};
ghost use Rattle.cm_isa.specs.View.{View};
ghost use Rattle.cm_hart.specs.Step.{MayStep, hart_machine};
ghost use Rattle.cm_hart.specs.declared.hart.Hart.{Hart};

/// A hart whose machine takes a step, of an instruction or of a call, may take it: so what a run of the
/// machine needs mapped is all that its words have to allow.
pub fn machine_steps_are_allowed()
    ensures { (view : View) (image : List ℕ) (hart : Hart) (label : Label) (m : Machine) →
        IsMap view → LabelledStep (InstructionAt image) label (hart_machine view hart) m →
        MayStep view image hart }
{}
