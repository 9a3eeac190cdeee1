//! What the code does, as laws of the definitions: after every single instruction it is known for which state of the
//! meaning the machine stands. The functions do nothing: their contracts are the laws.
//!
//! They speak of code at places and of a partial map of words, and of no kind of machine: one hart, strands and threads
//! have the same laws.

ghost use Rattle.std.specs.Prelude.{◌≡◌, ◌≤◌, ◌<◌, ◌+◌, ◌^◌, ℕ, ℤ, List, [], length};
ghost use Rattle.cm_isa.specs.declared.convention.TheConstants as reg;
ghost use Rattle.cm_isa.specs.Address.{AreWordsOf, InstructionAt};
ghost use Rattle.cm_isa.specs.Operation.{ecall};
ghost use Rattle.cm_isa.specs.Register.{with_register};
ghost use Rattle.cm_isa.specs.Machine.{Machine, Mapped, StepsTo};
ghost use Rattle.cm_isa.specs.Run.{Extends};
ghost use Rattle.cm_syntax.specs.declared.stmt.Program.{Program};
ghost use Rattle.cm_syntax.specs.Fault.{IsSoundProgram};
ghost use Rattle.cm_syntax.specs.Stack.{Stack, StackSum, empty_stack};
ghost use Rattle.cm_syntax.specs.Rest.{Control};
ghost use Rattle.cm_syntax.specs.Step.{step, start_of};
ghost use Rattle.cm_meaning.specs.Activation.{end_count};
ghost use Rattle.cm_meaning.specs.Meaning.{Comes};
ghost use Rattle.cm_gen.specs.declared.form.Form.{Form};
ghost use Rattle.cm_gen.specs.Image.{image_of, program_code};
ghost use Rattle.cm_gen.specs.Returns.{call, back, Links};
ghost use Rattle.cm_gen.specs.Standing.{Frame, IsCompiled};
ghost use Rattle.cm_gen.specs.FrameWord.{MayStand, AreFrames, Holds, Touches};
ghost use Rattle.cm_gen.specs.Formed.{Runs, Formed, KeepsFormed};
ghost use Rattle.cm_gen.specs.StandsFor.{Spot, first_spot, spot_at, ExactAt, LeadsFrom, Begins, with_words, with_registers};
ghost use Rattle.cm_gen.specs.Moment.{WholesAreWritable, Passes, StandsFor, MapsFrame, GoesOn, Settles};
ghost use Rattle.cm_gen.specs.Build.{max_image_words};

/// The words of an image are the code of its program: every function stands behind its word in the table.
pub fn images_are_compiled()
    ensures { (program : Program) (form : Form) (page : ℕ) (words : List ℕ) → IsSoundProgram program
        → AreWordsOf words (image_of program form page) → length (program_code program form page) ≤ max_image_words
        → IsCompiled program form page (InstructionAt words) }
{}

/// The states for which the code is proved: the first state of a run is one, and every step keeps them, of a spawn the
/// child's, the continuation's and the call's of the elision.
pub fn steps_keep_states_formed()
    ensures first { (program : Program) (page limit : ℕ) (input : List ℤ) → Runs program page limit input
        → Formed program page limit (start_of program.main limit) empty_stack }
    ensures step { (program : Program) (page limit : ℕ) (input : List ℤ) (c : Control) (h : Stack)
        → Runs program page limit input → Formed program page limit c h
        → KeepsFormed program page limit h (step program page input c h) }
{}

/// The machine at the start of a run stands for the first state, with no frame yet; main comes back to the end service.
pub fn first_machine_stands()
    ensures { (program : Program) (form : Form) (page limit : ℕ) (input : List ℤ) (words : List ℕ) (left : ℕ) (m : Machine)
        → IsCompiled program form page (InstructionAt words) → Begins program limit left m
        → ExactAt program form page input (InstructionAt words) first_spot left (start_of program.main limit) empty_stack m }
{}

/// What the code does: a machine that stands exactly for a state comes by instructions to where the state's next step
/// arrives, whatever the step is, in both forms. No frame moves but at a call, where one comes, and at a return; none of
/// these instructions calls or goes back but the last one of a call and of a return.
pub fn code_takes_each_step()
    ensures { (program : Program) (form : Form) (page limit : ℕ) (input : List ℤ) (words : List ℕ) (spot : Spot) (left : ℕ)
        (c : Control) (h : Stack) (m : Machine) → Runs program page limit input
        → IsCompiled program form page (InstructionAt words) → left < 2 ^ 32 → Formed program page limit c h
        → ExactAt program form page input (InstructionAt words) spot left c h m
        → LeadsFrom program form page input (InstructionAt words) spot left c.calls h (step program page input c h) m }
{}

/// A call that comes back goes on behind its own instruction, with the returns that there were before it.
pub fn calls_come_back()
    ensures address { (m next last behind : Machine) (returns within later : List ℕ) → Links call m next returns within
        → Links back last behind within later → behind.counter ≡ m.counter + 4 }
    ensures returns { (m next last behind : Machine) (returns within later : List ℕ) → Links call m next returns within
        → Links back last behind within later → later ≡ returns }
{}

/// After every single instruction the machine stands for the state or for one to which it passes, unless that is a state
/// that no rule has. No frame moves; the returns stay, but a call adds the address behind it, and a return goes to the one
/// that was added. Where a frame is opened its words have to be mapped.
pub fn each_instruction_keeps_standing()
    ensures { (program : Program) (form : Form) (page limit : ℕ) (input : List ℤ) (words : List ℕ) (spot : Spot) (left : ℕ)
        (c : Control) (h : Stack) (m next : Machine) → Runs program page limit input
        → IsCompiled program form page (InstructionAt words) → left < 2 ^ 32 → Formed program page limit c h
        → AreFrames program page c.calls spot.frames
        → StandsFor program form page input (InstructionAt words) spot left c h m
        → MapsFrame program form page input (InstructionAt words) spot m → StepsTo (InstructionAt words) m next
        → GoesOn program form page input (InstructionAt words) spot left c h m next }
{}

/// A machine at a service is told what the step of its state is: with which number, with what in its registers, and for
/// what the machine behind the service stands. No instruction is done, and no frame moves.
pub fn services_tell_steps()
    ensures { (program : Program) (form : Form) (page limit : ℕ) (input : List ℤ) (words : List ℕ) (spot : Spot) (left : ℕ)
        (c : Control) (h : Stack) (m : Machine) → Runs program page limit input
        → IsCompiled program form page (InstructionAt words) → left < 2 ^ 32 → Formed program page limit c h
        → AreFrames program page c.calls spot.frames
        → StandsFor program form page input (InstructionAt words) spot left c h m → InstructionAt words m.counter ecall
        → Settles program form page input (InstructionAt words) spot left c h m }
{}

/// What a machine passes from one state to another is a way of the serial elision that prints nothing, and it takes as
/// many ticks as are gone.
pub fn passing_is_the_elision()
    ensures { (program : Program) (form : Form) (page : ℕ) (input : List ℤ) (old new : Spot) (left later : ℕ) (c d : Control)
        (h g : Stack) → Passes program form page input old left c h new later d g
        → (n : ℕ) × Comes program page input c h [] n d g × (left ≡ n + later) }
{}

/// With more words beside its own, as with a page that comes, a machine stands as before, also in the middle of a step.
pub fn standing_keeps_with_more_words()
    ensures exact { (program : Program) (form : Form) (page : ℕ) (input : List ℤ) (words : List ℕ) (spot : Spot) (left : ℕ)
        (c : Control) (h : Stack) (m : Machine) (more : Mapped)
        → ExactAt program form page input (InstructionAt words) spot left c h m → Extends m.words more
        → ExactAt program form page input (InstructionAt words) spot left c h (with_words m more) }
    ensures within { (program : Program) (form : Form) (page : ℕ) (input : List ℤ) (words : List ℕ) (spot : Spot) (left : ℕ)
        (c : Control) (h : Stack) (m : Machine) (more : Mapped)
        → StandsFor program form page input (InstructionAt words) spot left c h m → Extends m.words more
        → StandsFor program form page input (InstructionAt words) spot left c h (with_words m more) }
    ensures holds { (program : Program) (page : ℕ) (calls : List ℕ) (frames : List Frame) (h : Stack) (words more : Mapped)
        → Extends words more → Holds program page calls frames h words → Holds program page calls frames h more }
{}

/// A machine that stands for a state needs only the words that the state speaks of: whatever becomes of the others, and
/// also where they are no longer mapped, it stands for it still.
pub fn standing_needs_its_words()
    ensures exact { (program : Program) (form : Form) (page limit : ℕ) (input : List ℤ) (words : List ℕ) (spot : Spot) (left : ℕ)
        (c : Control) (h : Stack) (m : Machine) (later : Mapped) → Formed program page limit c h
        → ExactAt program form page input (InstructionAt words) spot left c h m
        → ((a : ℕ) → Touches program page c.calls spot.frames h (end_count c.rest) a → later a ≡ m.words a)
        → ExactAt program form page input (InstructionAt words) spot left c h (with_words m later) }
    ensures holds { (program : Program) (page : ℕ) (calls : List ℕ) (frames : List Frame) (h : Stack) (words later : Mapped)
        → Holds program page calls frames h words
        → ((a : ℕ) → Touches program page calls frames h 0 a → later a ≡ words a) → Holds program page calls frames h later }
{}

/// A machine that stands exactly for a state has the ticks that are left in their register, and in the stack pointer the
/// place of the next frame: with others there it stands with those.
pub fn ticks_and_places_are_registers()
    ensures ticks { (program : Program) (form : Form) (page : ℕ) (input : List ℤ) (words : List ℕ) (spot : Spot) (left later : ℕ)
        (c : Control) (h : Stack) (m : Machine) → ExactAt program form page input (InstructionAt words) spot left c h m
        → ExactAt program form page input (InstructionAt words) spot later c h
        (with_registers m (with_register m.registers reg.TICKS later)) }
    ensures low { (program : Program) (form : Form) (page : ℕ) (input : List ℤ) (words : List ℕ) (spot : Spot) (low left : ℕ)
        (c : Control) (h : Stack) (m : Machine) → MayStand program page c.calls spot.frames low
        → ExactAt program form page input (InstructionAt words) spot left c h m
        → ExactAt program form page input (InstructionAt words) (spot_at spot low) left c h
        (with_registers m (with_register m.registers reg.SP low)) }
{}

/// A machine that stands exactly for a state holds more, where more is joined to what it holds and is in its words. A word
/// of which the whole is held only now has to be one that may be written.
pub fn standing_takes_what_is_joined()
    ensures { (program : Program) (form : Form) (page : ℕ) (input : List ℤ) (words : List ℕ) (spot : Spot) (left : ℕ)
        (c : Control) (h more all : Stack) (m : Machine) → ExactAt program form page input (InstructionAt words) spot left c h m
        → StackSum h more all → Holds program page c.calls spot.frames more m.words
        → WholesAreWritable program page c.calls spot.frames h more all m.words
        → ExactAt program form page input (InstructionAt words) spot left c all m }
{}
