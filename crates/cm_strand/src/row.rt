//! Rows: what logs come to and which scopes are open, worked out by hand. The functions do nothing.

ghost use Rattle.std.specs.Prelude.{◌≡◌, ◌∷◌, [], None, Some, pos};
ghost use Rattle.cm_syntax.specs.Trap as kind;
ghost use Rattle.cm_meaning.specs.End.{Done, Trapped, Spent};
ghost use Rattle.cm_meaning.specs.Piece.{returns, fails, runs_out};
ghost use Rattle.cm_strand.specs.Owned.{Owned};
ghost use Rattle.cm_strand.specs.Strand.{Request, paid};
ghost use Rattle.cm_strand.specs.Turn.{entries_sum, decided, unpaid, joined_log, scopes_at};
ghost use Rattle.cm_strand.specs.Row.{two_done, a_trap, a_spent, one_scope};

/// What a log with two children comes to. All output is in the order of the log, and a value takes the strand's own ticks
/// and the children's; a trap of its own too, and beyond the ticks at the start it is spent. The first child that isn't done
/// decides, whatever came of later ones and of the strand itself, with the ticks of the serial order.
pub fn logs_decide()
    ensures value { (q : Request) (w : Owned) → decided 100 6 (entries_sum (two_done q w)) (returns (Some (pos 5)))
        ≡ Done (pos 1 ∷ pos 2 ∷ pos 7 ∷ []) (Some (pos 5)) 13 }
    ensures own_trap { (q : Request) (w : Owned) → decided 100 6 (entries_sum (two_done q w)) (fails kind.Index)
        ≡ Trapped (pos 1 ∷ pos 2 ∷ pos 7 ∷ []) kind.Index 13 }
    ensures beyond { (q : Request) (w : Owned) → decided 12 6 (entries_sum (two_done q w)) (returns None) ≡ Spent }
    ensures trap { (q : Request) (w : Owned) → decided 100 9 (entries_sum (a_trap q w)) runs_out
        ≡ Trapped (pos 1 ∷ pos 2 ∷ pos 7 ∷ []) kind.Divide 12 }
    ensures spent { (q : Request) (w : Owned) → decided 100 6 (entries_sum (a_spent q w)) (returns None) ≡ Spent }
{}

/// The ticks of a popped child are taken, those of the other one aren't before the join, and then both are, once.
pub fn ticks_are_taken_once()
    ensures paid_before { (q : Request) (w : Owned) → paid (two_done q w) ≡ 4 }
    ensures at_join { (q : Request) (w : Owned) → unpaid 0 (two_done q w) ≡ 3 }
    ensures paid_behind { (q : Request) (w : Owned) → paid (joined_log 0 (two_done q w)) ≡ 7 }
    ensures later_scope { (q : Request) (w : Owned) → paid (joined_log 2 (two_done q w)) ≡ 4 }
{}

/// A spawn opens a scope where the innermost open one is of another frame, from the next hole on, and else none.
pub fn scopes_open_once()
    ensures first { scopes_at [] 4000 3960 1 0 ≡ one_scope ∷ [] }
    ensures same { scopes_at (one_scope ∷ []) 4000 3960 2 0 ≡ one_scope ∷ [] }
    ensures other { scopes_at (one_scope ∷ []) 3960 3900 2 1 ≡ record { frame = 3960; low = 3900; first = 2; depth = 1 } ∷ one_scope ∷ [] }
{}
