//! The laws of calls: which come and go, and what they take of the stack. The functions do nothing: their contracts are
//! the laws.

ghost use Rattle.std.specs.Prelude.{◌≡◌, ◌+◌, ◌*◌, ℕ, List, ℤ};
ghost use Rattle.cm_syntax.specs.declared.stmt.Program.{Program};
ghost use Rattle.cm_syntax.specs.Label.{silent};
ghost use Rattle.cm_syntax.specs.Stack.{Stack};
ghost use Rattle.cm_syntax.specs.Rest.{Control};
ghost use Rattle.cm_syntax.specs.Step.{step};
ghost use Rattle.cm_meaning.specs.Meaning.{Limits, Piece, Reached, begun, main_ask};
ghost use Rattle.cm_meaning.specs.Measure.{account_of, frame_bytes, cilk_frames, FitPages};
ghost use Rattle.cm_meaning.specs.Shift.{ShiftsCalls, KeepsBase, IsWithinOne};

/// Of the calls at most the last one comes or goes in a step: a silent step leaves them, adds the call at hand, or takes
/// the last one, whose end stood first in the rest. A spawned call has the calls of its parent and nothing else to do. So
/// the calls that no end in the rest takes away stay as many.
pub fn steps_shift_calls()
    ensures calls { (program : Program) (page : ℕ) (input : List ℤ) (c : Control) (h : Stack)
        → ShiftsCalls c (step program page input c h) }
    ensures base { (program : Program) (page : ℕ) (input : List ℤ) (c d : Control) (h g : Stack)
        → step program page input c h ≡ silent d g → KeepsBase c d }
    ensures one { (program : Program) (page : ℕ) (input : List ℤ) (c d : Control) (h g : Stack)
        → step program page input c h ≡ silent d g → IsWithinOne c d }
{}

/// The account of each reached piece is that of its calls: with their frame bytes, and a page for each call of a function
/// marked `cilk`, it comes to the bytes of the stack. So the frame bytes are at most the stack's pages, however the run
/// ends.
pub fn accounts_of_pieces()
    ensures account { (program : Program) (input : List ℤ) (limits : Limits) (p : Piece)
        → Reached program limits.page input (begun (main_ask program limits)) p
        → p.control.account ≡ account_of program limits p.control.calls }
    ensures bytes { (program : Program) (input : List ℤ) (limits : Limits) (p : Piece)
        → Reached program limits.page input (begun (main_ask program limits)) p
        → frame_bytes program p.control.calls + cilk_frames program p.control.calls * limits.page + p.control.account
        ≡ limits.stack * limits.page }
    ensures pages { (program : Program) (input : List ℤ) (limits : Limits) → FitPages program input limits limits.stack }
{}
