//! Laws of the definitions that the contracts are stated by: of the listings, and of runs of the machine.
//! Each is the contract of a function that does nothing.
ghost use Rattle.std.specs.Prelude.{◌≡◌, ◌↔◌, ℕ, ◌<◌, List, ◌++◌, length, slice_index, Option, Some, is_some};
ghost use Rattle.cm_isa.specs.Action.{action_at};
ghost use Rattle.cm_isa.specs.Address.{InstructionAt};
ghost use Rattle.cm_isa.specs.Effect.{MayAccess, outcome};
ghost use Rattle.cm_isa.specs.Format.{Row};
ghost use Rattle.cm_isa.specs.Machine.{read_only, writes, IsMap, Machine, Mapped, StepsTo, machine_after, machine_of};
ghost use Rattle.cm_isa.specs.Operation.{Operation, ecall};
ghost use Rattle.cm_isa.specs.Run.{Extends, Label, Runs, StaysReadable, machine_with_more, replies, with_more};
ghost use Rattle.cm_isa.specs.View.{View};

use crate::execution::Next;

/// A word is in the row of at most one instruction: to decode the word of an instruction gives this
/// instruction back.
pub fn one_instruction_per_word(word: u32)
    ensures { (i j : Operation) → Row word i → Row word j → i ≡ j }
{}

/// An instruction has one word: to encode the instruction of a word gives this word back.
pub fn one_word_per_instruction(first: u32, second: u32)
    ensures { (i : Operation) → Row first i → Row second i → first ≡ second }
{}

/// Two runs one after the other are a run, and a run can be cut after each of its steps.
pub fn runs_join_and_split()
    ensures join { (image : List ℕ) (first second : List Label) (m n last : Machine) →
        Runs (InstructionAt image) first m n → Runs (InstructionAt image) second n last →
        Runs (InstructionAt image) (first ++ second) m last }
    ensures split { (image : List ℕ) (first second : List Label) (m last : Machine) →
        Runs (InstructionAt image) (first ++ second) m last →
        (n : Machine) × Runs (InstructionAt image) first m n ×
        Runs (InstructionAt image) second n last }
{}

/// The number of steps and the replies to its calls determine a run: what it calls, and the machine that
/// it comes to. At an `ecall` a machine goes on by a reply alone, and stops where it gets none.
pub fn replies_determine_runs()
    ensures run { (image : List ℕ) (first second : List Label) (m last other : Machine) →
        Runs (InstructionAt image) first m last → Runs (InstructionAt image) second m other →
        length first ≡ length second → replies first ≡ replies second →
        (first ≡ second) × (last ≡ other) }
    ensures stop { (image : List ℕ) (m next : Machine) → InstructionAt image m.counter ecall →
        StepsTo (InstructionAt image) m next → ⊥ }
{}

/// A run is a run with further words beside its own too, and leaves those as they are: a page may be added
/// between two instructions. What the run may only read has to be there to be read. No step maps an address or takes one out of the map.
pub fn runs_keep_more_words()
    ensures beside { (image : List ℕ) (labels : List Label) (m last : Machine) (more : Mapped) →
        StaysReadable m.words more → Runs (InstructionAt image) labels m last →
        Runs (InstructionAt image) labels (machine_with_more m more) (machine_with_more last more) }
    ensures read_only { (image : List ℕ) (labels : List Label) (m last : Machine) (address word : ℕ) →
        Runs (InstructionAt image) labels m last → (last.words address ≡ read_only word) ↔ (m.words address ≡ read_only word) }
    ensures larger { (small large : Mapped) → Extends small large → with_more small large ≡ large }
    ensures map { (image : List ℕ) (labels : List Label) (m last : Machine) (address : ℕ) →
        Runs (InstructionAt image) labels m last →
        is_some (writes (last.words address)) ≡ is_some (writes (m.words address)) }
{}

/// The machine of a view does an instruction exactly where the outcome goes on and touches what the view
/// allows, and then it is the machine of the outcome.
pub fn machines_do_what_outcomes_say()
    ensures step { (view : View) (rs : List ℕ) (pc : ℕ) (i : Operation) (m : Machine) → IsMap view →
        i.rd < length rs → machine_after i (machine_of view rs pc) ≡ Some m →
        let after = outcome view i rs pc in
        (after.next ≡ Next.At m.counter) ×
        (machine_of after.memory after.registers m.counter ≡ m) }
    ensures outcome { (view : View) (rs : List ℕ) (pc address : ℕ) (i : Operation) → IsMap view →
        i.rd < length rs → MayAccess view (action_at i (slice_index rs) pc) →
        let after = outcome view i rs pc in
        after.next ≡ Next.At address →
        machine_after i (machine_of view rs pc) ≡ Some (machine_of after.memory after.registers address) }
    ensures allowed { (view : View) (rs : List ℕ) (pc : ℕ) (i : Operation) (m : Machine) → IsMap view →
        machine_after i (machine_of view rs pc) ≡ Some m →
        MayAccess view (action_at i (slice_index rs) pc) }
{}
