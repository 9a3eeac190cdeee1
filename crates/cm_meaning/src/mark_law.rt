//! The laws of marks: only functions that are marked `cilk` spawn and sync, and only their frames have children. The
//! functions do nothing: their contracts are the laws.

ghost use Rattle.std.specs.Prelude.{◌≡◌, ◌++◌, ◌⊎◌, ℕ, Bool, true, Option, Some, List, ◌∷◌, length, ℤ, slice_get};
ghost use Rattle.cm_syntax.specs.declared.stmt.Function.{Function};
ghost use Rattle.cm_syntax.specs.declared.stmt.Program.{Program};
ghost use Rattle.cm_syntax.specs.Fault.{IsSoundProgram};
ghost use Rattle.cm_syntax.specs.Lending.{IsAccepted};
ghost use Rattle.cm_syntax.specs.Label.{spawns, syncs};
ghost use Rattle.cm_syntax.specs.Stack.{Stack, Destination};
ghost use Rattle.cm_syntax.specs.Rest.{Item, join, Control};
ghost use Rattle.cm_syntax.specs.Step.{step, depth};
ghost use Rattle.cm_meaning.specs.Meaning.{Limits, Piece, Reached, begun, main_ask};
ghost use Rattle.cm_meaning.specs.Activation.{end_count};
ghost use Rattle.cm_meaning.specs.Loan.{HasUnjoined};
ghost use Rattle.cm_meaning.specs.Mark.{AllowsItem, mark_of, IsMarkedAt, AllowsRest, AreAllowed, HasAllowedBodies, KeepsMarks};

/// In a sound program the mark of each function allows its body: only one that is marked has spawns and syncs. Steps keep
/// rests that the marks of their calls allow; and in such a rest each item behind so many ends of calls is allowed by the
/// mark of the function that is then running. A call at a depth is the one with so many behind it.
pub fn marks_allow_rests()
    ensures bodies { (program : Program) → IsSoundProgram program → HasAllowedBodies program }
    ensures kept { (program : Program) (page : ℕ) (input : List ℤ) (c : Control) (h : Stack) → HasAllowedBodies program
        → AreAllowed program c → KeepsMarks program c (step program page input c h) }
    ensures frames { (program : Program) (newer older : List ℕ) (f : ℕ) (function : Function ℕ)
        (before after : List Item) (item : Item) → AllowsRest program (newer ++ f ∷ older) (before ++ item ∷ after)
        → end_count before ≡ length newer → slice_get program.functions f ≡ Some function
        → AllowsItem function.cilk item }
    ensures depths { (program : Program) (newer older : List ℕ) (f : ℕ) (function : Function ℕ)
        → IsMarkedAt program (newer ++ f ∷ older) (length older) → slice_get program.functions f ≡ Some function
        → function.cilk ≡ true }
{}

/// Only functions that are marked spawn and sync in a sound program: the rest of each reached piece is one that the marks of
/// its calls allow; a spawn is of a function that is marked, and so is a sync but for the join of one that isn't. In a
/// program that obeys the lending rule too, children that aren't joined are of frames of functions that are marked, so
/// the join of any other has none to wait for.
pub fn marked_functions_spawn()
    ensures rests { (program : Program) (input : List ℤ) (limits : Limits) (p : Piece) → IsSoundProgram program
        → Reached program limits.page input (begun (main_ask program limits)) p → AreAllowed program p.control }
    ensures spawned { (program : Program) (input : List ℤ) (limits : Limits) (p : Piece) (call d : Control)
        (lent g : Stack) (x : Destination) → IsSoundProgram program
        → Reached program limits.page input (begun (main_ask program limits)) p
        → step program limits.page input p.control p.held ≡ spawns call lent x d g
        → mark_of program p.control.calls ≡ true }
    ensures synced { (program : Program) (input : List ℤ) (limits : Limits) (p : Piece) (d : Control)
        → IsSoundProgram program → Reached program limits.page input (begun (main_ask program limits)) p
        → step program limits.page input p.control p.held ≡ syncs d
        → (mark_of program p.control.calls ≡ true) ⊎ (p.control.rest ≡ join ∷ d.rest) }
    ensures children { (program : Program) (input : List ℤ) (limits : Limits) (p : Piece) (d : ℕ)
        → IsSoundProgram program → IsAccepted program
        → Reached program limits.page input (begun (main_ask program limits)) p
        → HasUnjoined d p.log → IsMarkedAt program p.control.calls d }
    ensures joins { (program : Program) (input : List ℤ) (limits : Limits) (p : Piece) → IsSoundProgram program
        → IsAccepted program → Reached program limits.page input (begun (main_ask program limits)) p
        → HasUnjoined (depth p.control) p.log → mark_of program p.control.calls ≡ true }
{}
