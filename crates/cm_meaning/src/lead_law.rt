//! What the rules of pieces do allow: that they lead on, that an end is found from wherever they lead, that children who are
//! Done join, and that answers are heard. The functions do nothing: their contracts are the laws.

ghost use Rattle.std.specs.Prelude.{◌≡◌, ◌+◌, ◌<◌, ◌≤◌, ◌⊎◌, ℕ, List, ℤ};
ghost use Rattle.cm_syntax.specs.declared.stmt.Program.{Program};
ghost use Rattle.cm_syntax.specs.Fault.{IsSoundProgram};
ghost use Rattle.cm_syntax.specs.Lending.{IsAccepted};
ghost use Rattle.cm_syntax.specs.Label.{syncs};
ghost use Rattle.cm_syntax.specs.Stack.{Stack, StackSum};
ghost use Rattle.cm_syntax.specs.Rest.{Control};
ghost use Rattle.cm_syntax.specs.Step.{step, depth};
ghost use Rattle.cm_meaning.specs.End.{End};
ghost use Rattle.cm_meaning.specs.Piece.{IsDone, runs_out};
ghost use Rattle.cm_meaning.specs.Meaning.{Ask, Note, Piece, Fork, Goes, Reached, Stops, HoldSameCells, Answers, begun, main_ask, Limits};
ghost use Rattle.cm_meaning.specs.Activation.{base};
ghost use Rattle.cm_meaning.specs.Loan.{floor, HasUnjoined, Loans};
ghost use Rattle.cm_meaning.specs.Leads.{Leads, Hears, Collects, Counts, IsAsked, AreDone, Tells, with_log, joined_piece};

/// Zero or more rules, one after another, lead on: each rule is one, and they compose; an end that is allowed where they
/// lead is allowed before, and what they lead to from a reached piece is reached. Each reached piece is one to which they
/// lead from a call that was asked for.
pub fn pieces_lead_on()
    ensures one { (program : Program) (page : ℕ) (input : List ℤ) (p q : Piece) → Goes program page input p q
        → Leads program page input p q }
    ensures both { (program : Program) (page : ℕ) (input : List ℤ) (p q r : Piece) → Leads program page input p q
        → Leads program page input q r → Leads program page input p r }
    ensures ends { (program : Program) (page : ℕ) (input : List ℤ) (p q : Piece) (e : End) (w : Stack)
        → Leads program page input p q → Fork program page input q e w → Fork program page input p e w }
    ensures reached { (program : Program) (page : ℕ) (input : List ℤ) (first p q : Piece)
        → Reached program page input first p → Leads program page input p q → Reached program page input first q }
    ensures from_calls { (program : Program) (input : List ℤ) (limits : Limits) (p : Piece)
        → Reached program limits.page input (begun (main_ask program limits)) p
        → (ask : Ask) × IsAsked program input limits ask × Leads program limits.page input (begun ask) p }
{}

/// From each reached piece of a program that is sound and obeys the lending rule the rules lead to an end, whichever of its
/// children were heard of, and in which order.
pub fn pieces_find_ends()
    ensures { (program : Program) (input : List ℤ) (limits : Limits) (p : Piece) → IsSoundProgram program
        → IsAccepted program → Reached program limits.page input (begun (main_ask program limits)) p
        → (e : End) × (w : Stack) × Fork program limits.page input p e w }
{}

/// At a sync of a reached piece of such a program, where all unjoined children of this frame are Done, they join: their
/// words can be joined in, and where the ticks fit the piece goes on; it goes on so, or its ticks are spent whichever other
/// children are counted. And back: what joins at a sync are children who are Done. Behind it the frame has none that isn't
/// joined, and with what the other children hold the piece holds the same stack as before.
pub fn done_children_join()
    ensures collects { (program : Program) (input : List ℤ) (limits : Limits) (p : Piece) (t : Control)
        → IsSoundProgram program → IsAccepted program
        → Reached program limits.page input (begun (main_ask program limits)) p
        → step program limits.page input p.control p.held ≡ syncs t → AreDone (depth p.control) p.log
        → (later : List Note) × (g : Stack)
        × Collects program limits.page input (depth p.control) p.log p.held later g
        × ((m : ℕ) → Counts later m → p.own + m ≤ p.start
        → Goes program limits.page input p (joined_piece p t g later)) }
    ensures some { (program : Program) (input : List ℤ) (limits : Limits) (p : Piece) (t : Control)
        → IsSoundProgram program → IsAccepted program
        → Reached program limits.page input (begun (main_ask program limits)) p
        → step program limits.page input p.control p.held ≡ syncs t → AreDone (depth p.control) p.log
        → (later : List Note) × (g : Stack)
        × Collects program limits.page input (depth p.control) p.log p.held later g
        × (Goes program limits.page input p (joined_piece p t g later)
        ⊎ (Stops program limits.page input p.start p.own p.control p.held p.log runs_out
        × ((m : ℕ) → Counts later m → p.start < p.own + m))) }
    ensures back { (program : Program) (input : List ℤ) (limits : Limits) (p : Piece) (t : Control) (later : List Note)
        (g loans one : Stack) → IsSoundProgram program → IsAccepted program
        → Reached program limits.page input (begun (main_ask program limits)) p
        → step program limits.page input p.control p.held ≡ syncs t
        → Collects program limits.page input (depth p.control) p.log p.held later g
        → Loans (base p.control) (floor p.control) p.log loans → StackSum p.held loans one
        → AreDone (depth p.control) p.log × (HasUnjoined (depth p.control) later → ⊥)
        × ((left : Stack) × Loans (base p.control) (depth p.control) later left × StackSum g left one) }
{}

/// What a parent hears is an answer, and each answer is heard. An answer may be told at any time to a piece that awaits
/// it; what a reached piece is told answers the child's ask, and of an end that isn't by a value it does with each words
/// that stand where the lent ones stood; and for each answer some reached piece awaits it, and may be told it. The words
/// of an answer are those that were lent, whatever is in them.
pub fn answers_are_heard()
    ensures heard { (program : Program) (input : List ℤ) (limits : Limits) (p : Piece) (later : List Note) (ask : Ask)
        (e : End) (w : Stack) → Answers program input limits ask e w → Tells ask e w p.log later
        → Goes program limits.page input p (with_log p later) }
    ensures answered { (program : Program) (input : List ℤ) (limits : Limits) (p : Piece) (later : List Note)
        → IsSoundProgram program → IsAccepted program
        → Reached program limits.page input (begun (main_ask program limits)) p
        → Hears program limits.page input p.log later
        → (ask : Ask) × (e : End) × (w : Stack) × Tells ask e w p.log later
        × (IsDone e ⊎ HoldSameCells ask.lent w → Answers program input limits ask e w) }
    ensures awaited { (program : Program) (input : List ℤ) (limits : Limits) (ask : Ask) (e : End) (w : Stack)
        → Answers program input limits ask e w
        → (p : Piece) × (later : List Note)
        × Reached program limits.page input (begun (main_ask program limits)) p × Tells ask e w p.log later
        × Hears program limits.page input p.log later }
    ensures cells { (program : Program) (input : List ℤ) (limits : Limits) (ask : Ask) (e : End) (w : Stack)
        → Answers program input limits ask e w → HoldSameCells ask.lent w }
{}
