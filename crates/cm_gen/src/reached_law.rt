//! What is known of each piece that the rules of fork and join lead to in a program that is sound and obeys the lending
//! rule. The functions do nothing: their contracts are the laws.

ghost use Rattle.std.specs.Prelude.{◌≡◌, ◌<◌, ◌*◌, ◌^◌, ℕ, ℤ, List, Option, Some, Bool, FitsSigned};
ghost use Rattle.std.specs.Int.{w32};
ghost use Rattle.cm_isa.specs.Machine.{Mapped, with_word};
ghost use Rattle.cm_syntax.specs.declared.stmt.Program.{Program};
ghost use Rattle.cm_syntax.specs.Lending.{IsAccepted};
ghost use Rattle.cm_syntax.specs.Cell.{value_in};
ghost use Rattle.cm_syntax.specs.Stack.{Stack, Scalar, Destination, settle};
ghost use Rattle.cm_syntax.specs.Rest.{Control};
ghost use Rattle.cm_syntax.specs.Step.{scalar_slice};
ghost use Rattle.cm_meaning.specs.End.{Done};
ghost use Rattle.cm_meaning.specs.Piece.{Answer, child, HasNote};
ghost use Rattle.cm_meaning.specs.Meaning.{Ask, Piece, Limits, Fork, Reached, begun, main_ask};
ghost use Rattle.cm_gen.specs.Standing.{Frame};
ghost use Rattle.cm_gen.specs.FrameWord.{bits, AreFrames, Holds, reference_address};
ghost use Rattle.cm_gen.specs.Formed.{Runs, Formed};
ghost use Rattle.cm_gen.specs.Spawn.{ComesFromSpawn, IsLentScalar};

/// The state of each reached piece is one for which the code is proved, behind joins too; and each child of its log was
/// spawned from such a state, to which its call and its continuation belong.
pub fn reached_states_are_formed()
    ensures pieces { (program : Program) (input : List ℤ) (limits : Limits) (p : Piece)
        → Runs program limits.page (limits.stack * limits.page) input → IsAccepted program
        → Reached program limits.page input (begun (main_ask program limits)) p
        → Formed program limits.page (limits.stack * limits.page) p.control p.held }
    ensures children { (program : Program) (input : List ℤ) (limits : Limits) (p : Piece) (d own : ℕ)
        (x : Destination) (joined : Bool) (ask : Ask) (r : Answer Control Stack Destination)
        → Runs program limits.page (limits.stack * limits.page) input → IsAccepted program
        → Reached program limits.page input (begun (main_ask program limits)) p
        → HasNote Control Stack Destination p.log (child d own x joined ask r)
        → ComesFromSpawn program limits.page (limits.stack * limits.page) input d x ask }
{}

/// The words of an end by a value, which the rules allow to a reached call, are words of the machine. Where a child has a
/// destination it gives a value, which is one too; and the destination is a scalar of a live frame, which was lent to it.
pub fn children_give_words()
    ensures words { (program : Program) (input : List ℤ) (limits : Limits) (ask : Ask) (out : List ℤ) (v : Option ℤ)
        (n : ℕ) (w : Stack) → Runs program limits.page (limits.stack * limits.page) input → IsAccepted program
        → Reached program limits.page input (begun (main_ask program limits)) (begun ask)
        → Fork program limits.page input (begun ask) (Done out v n) w
        → (d s i : ℕ) (u : ℤ) → value_in (w.words d s i) ≡ Some u → FitsSigned w32 u }
    ensures value { (program : Program) (input : List ℤ) (limits : Limits) (p : Piece) (d own : ℕ) (x : Scalar)
        (joined : Bool) (ask : Ask) (r : Answer Control Stack Destination) (out : List ℤ) (v : Option ℤ) (n : ℕ)
        (w : Stack) → Runs program limits.page (limits.stack * limits.page) input → IsAccepted program
        → Reached program limits.page input (begun (main_ask program limits)) p
        → HasNote Control Stack Destination p.log (child d own (Some x) joined ask r)
        → Fork program limits.page input (begun ask) (Done out v n) w → (u : ℤ) × (v ≡ Some u) × FitsSigned w32 u }
    ensures destination { (program : Program) (input : List ℤ) (limits : Limits) (p : Piece) (d own : ℕ) (x : Scalar)
        (joined : Bool) (ask : Ask) (r : Answer Control Stack Destination)
        → Runs program limits.page (limits.stack * limits.page) input → IsAccepted program
        → Reached program limits.page input (begun (main_ask program limits)) p
        → HasNote Control Stack Destination p.log (child d own (Some x) joined ask r) → IsLentScalar program d x ask }
{}

/// The value that a child gives is put at the address of its destination, which isn't 0 where the stack's account is less
/// than the addresses below its top: then the mapped words hold what the child gives back with its value.
pub fn destinations_are_written()
    ensures settled { (program : Program) (input : List ℤ) (limits : Limits) (p : Piece) (d own : ℕ) (x : Scalar)
        (joined : Bool) (ask : Ask) (r : Answer Control Stack Destination) (out : List ℤ) (u : ℤ) (n : ℕ) (w : Stack)
        (frames : List Frame) (mapped : Mapped) → Runs program limits.page (limits.stack * limits.page) input
        → IsAccepted program → Reached program limits.page input (begun (main_ask program limits)) p
        → HasNote Control Stack Destination p.log (child d own (Some x) joined ask r)
        → Fork program limits.page input (begun ask) (Done out (Some u) n) w
        → AreFrames program limits.page ask.call.calls frames
        → Holds program limits.page ask.call.calls frames w mapped
        → Holds program limits.page ask.call.calls frames (settle (Some x) (Some u) w)
        (with_word mapped
        (reference_address program limits.page ask.call.calls frames (scalar_slice x.depth x.slot)) (bits u)) }
    ensures address { (program : Program) (input : List ℤ) (limits : Limits) (p : Piece) (d own : ℕ) (x : Scalar)
        (joined : Bool) (ask : Ask) (r : Answer Control Stack Destination) (frames : List Frame)
        → Runs program limits.page (limits.stack * limits.page) input → IsAccepted program
        → limits.stack * limits.page < 2 ^ 30
        → Reached program limits.page input (begun (main_ask program limits)) p
        → HasNote Control Stack Destination p.log (child d own (Some x) joined ask r)
        → AreFrames program limits.page ask.call.calls frames
        → reference_address program limits.page ask.call.calls frames (scalar_slice x.depth x.slot) ≡ 0 → ⊥ }
{}
