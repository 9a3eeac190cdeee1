//! The laws of what children hold: with what their piece holds it makes one stack, and no frame goes before its children
//! are joined. The functions do nothing: their contracts are the laws.

ghost use Rattle.std.specs.Prelude.{◌≡◌, ◌<◌, ◌≤◌, ℕ, true, List, ◌∷◌, length, ℤ, Option};
ghost use Rattle.cm_syntax.specs.declared.stmt.Program.{Program};
ghost use Rattle.cm_syntax.specs.Fault.{IsSoundProgram};
ghost use Rattle.cm_syntax.specs.Lending.{IsAccepted};
ghost use Rattle.cm_syntax.specs.Label.{silent, ends};
ghost use Rattle.cm_syntax.specs.Cell.{is_held};
ghost use Rattle.cm_syntax.specs.Stack.{Stack};
ghost use Rattle.cm_syntax.specs.Rest.{Control};
ghost use Rattle.cm_syntax.specs.Step.{step};
ghost use Rattle.cm_meaning.specs.Meaning.{Limits, Note, Piece, Reached, begun, main_ask};
ghost use Rattle.cm_meaning.specs.Activation.{base};
ghost use Rattle.cm_meaning.specs.Loan.{floor, HasUnjoined, Loans, IsWithChild, IsOneStack};

/// What a reached piece of a program that is sound and obeys the lending rule holds is joined with what its unjoined
/// children hold, as one stack: the piece's own frames are whole in it, and nothing is held beyond them. What the children
/// hold is determined by the log, and each word of it is with one that isn't joined.
pub fn loans_make_one_stack()
    ensures one { (program : Program) (input : List ℤ) (limits : Limits) (p : Piece) → IsSoundProgram program
        → IsAccepted program → Reached program limits.page input (begun (main_ask program limits)) p
        → IsOneStack p.control p.held p.log }
    ensures same { (low high least most : ℕ) (log : List Note) (a b : Stack) → Loans low high log a
        → Loans least most log b → a ≡ b }
    ensures words { (low high : ℕ) (log : List Note) (loans : Stack) (d s i : ℕ) → Loans low high log loans
        → (is_held (loans.words d s i) ≡ true → IsWithChild log d s i)
        × (IsWithChild log d s i → is_held (loans.words d s i) ≡ true) }
{}

/// No frame of a reached piece of such a program goes before its children are joined: those that aren't are of its own
/// frames below the floor, which no silent step lowers; where a frame goes it has none, and where the piece ends there is
/// none at all.
pub fn frames_go_without_children()
    ensures below { (program : Program) (input : List ℤ) (limits : Limits) (p : Piece) (d : ℕ) → IsSoundProgram program
        → IsAccepted program → Reached program limits.page input (begun (main_ask program limits)) p
        → HasUnjoined d p.log → (base p.control ≤ d) × (d < floor p.control) }
    ensures rises { (program : Program) (input : List ℤ) (limits : Limits) (p : Piece) (d : Control) (g : Stack)
        → IsSoundProgram program → IsAccepted program
        → Reached program limits.page input (begun (main_ask program limits)) p
        → step program limits.page input p.control p.held ≡ silent d g → floor p.control ≤ floor d }
    ensures gone { (program : Program) (input : List ℤ) (limits : Limits) (p : Piece) (f : ℕ) (d : Control) (g : Stack)
        → IsSoundProgram program → IsAccepted program
        → Reached program limits.page input (begun (main_ask program limits)) p
        → step program limits.page input p.control p.held ≡ silent d g → p.control.calls ≡ f ∷ d.calls
        → HasUnjoined (length d.calls) p.log → ⊥ }
    ensures ended { (program : Program) (input : List ℤ) (limits : Limits) (p : Piece) (v : Option ℤ) (d : ℕ)
        → IsSoundProgram program → IsAccepted program
        → Reached program limits.page input (begun (main_ask program limits)) p
        → step program limits.page input p.control p.held ≡ ends v → HasUnjoined d p.log → ⊥ }
{}
