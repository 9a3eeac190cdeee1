//! What a serial run comes to, as laws of the definitions. The functions do nothing: their contracts are the laws.

ghost use Rattle.std.specs.Prelude.{◌≡◌, ◌≤◌, [], ℕ, ℤ, List, FitsSigned, Contains, length};
ghost use Rattle.std.specs.Int.{w32};
ghost use Rattle.cm_isa.specs.Address.{AreWordsOf, InstructionAt};
ghost use Rattle.cm_isa.specs.Machine.{Machine};
ghost use Rattle.cm_syntax.specs.declared.stmt.Program.{Program};
ghost use Rattle.cm_syntax.specs.Fault.{IsSoundProgram};
ghost use Rattle.cm_meaning.specs.End.{End};
ghost use Rattle.cm_meaning.specs.Meaning.{Limits, SerialEnd};
ghost use Rattle.cm_meaning.specs.Range.{HasRanges, max_input_numbers};
ghost use Rattle.cm_gen.specs.declared.form.Form.TheVariants.{Serial};
ghost use Rattle.cm_gen.specs.Build.{max_image_words};
ghost use Rattle.cm_gen.specs.Image.{image_of};
ghost use Rattle.cm_serial.specs.Run.{RunEnds, IsStart};

use cm_gen::{
    code_takes_each_step, first_machine_stands, images_are_compiled, steps_keep_states_formed,
};

/// The run of an image ends as the elision of its program, with the same output, the same value or trap and the same ticks:
/// from each start with the whole stack mapped, so many steps lead to the service that ends it. So nothing on the way
/// faults, no word is missing, and no address is outside of the stack.
pub fn images_run_as_elisions()
    ensures { (program : Program) (input : List ℤ) (limits : Limits) (words : List ℕ) (m : Machine) (e : End)
        → IsSoundProgram program → HasRanges limits → length input ≤ max_input_numbers
        → ((v : ℤ) → Contains input v → FitsSigned w32 v)
        → AreWordsOf words (image_of program Serial limits.page)
        → length (image_of program Serial limits.page) ≤ max_image_words
        → IsStart program limits m → SerialEnd program input limits e
        → (steps : ℕ) × RunEnds (InstructionAt words) input limits.ticks m [] steps e }
{
    images_are_compiled();
    steps_keep_states_formed();
    first_machine_stands();
    code_takes_each_step();
}

/// A run has one end, in one number of steps: so `IsSteps` is of one number, since a program has its words.
pub fn runs_end_once()
    ensures { (words : List ℕ) (input : List ℤ) (ticks : ℕ) (m : Machine) (printed : List ℤ) (a b : ℕ) (d e : End)
        → RunEnds (InstructionAt words) input ticks m printed a d → RunEnds (InstructionAt words) input ticks m printed b e
        → (a ≡ b) × (d ≡ e) }
{}
