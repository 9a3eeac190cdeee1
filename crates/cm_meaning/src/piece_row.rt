//! Single pieces to which the rules do lead, worked out by hand, so that they allow at least these. The functions do
//! nothing: their contracts are the rows.

ghost use Rattle.std.specs.Prelude.{◌≡◌, false, ℕ, List, ℤ, pos, Some, None, [], ◌∷◌};
ghost use Rattle.cm_syntax.specs.Trap as kind;
ghost use Rattle.cm_syntax.specs.Stack.{Stack};
ghost use Rattle.cm_meaning.specs.End.{Done, Trapped};
ghost use Rattle.cm_meaning.specs.Piece.{awaited, told, printed, child, fails, runs_out};
ghost use Rattle.cm_meaning.specs.Meaning.{Ask, Piece, Fork, Goes, Reached, Stops, Answers, begun, main_ask};
ghost use Rattle.cm_meaning.specs.Row as row;

/// A piece may come to its own trap while a child is still awaited.
pub fn traps_beside_awaited()
    ensures { (p : Piece) × (ask : Ask)
        × Reached row.loop_beside_trap 256 [] (begun (main_ask row.loop_beside_trap (row.with_ticks 12))) p
        × (p.log ≡ child 0 1 None false ask awaited ∷ [])
        × Stops row.loop_beside_trap 256 [] p.start p.own p.control p.held p.log (fails kind.Divide) }
{}

/// Of two awaited children the later one may be heard first.
pub fn later_child_heard_first()
    ensures { (p : Piece) × (first second : Ask) × (w : Stack)
        × Reached row.spawns_twice 256 [] (begun (main_ask row.spawns_twice (row.with_ticks 5))) p
        × (p.log ≡ child 0 1 None false second (told (Done [] (Some (pos 0)) 1) w) ∷ child 0 1 None false first awaited ∷ []) }
{}

/// Of five ticks main takes one, and its first child, which is Done, another one. From there the second child may be asked
/// with four ticks, or with three.
pub fn asks_with_or_without_ticks()
    ensures { (p q r : Piece) × (first second third : Ask) × (w : Stack)
        × Reached row.spawns_twice 256 [] (begun (main_ask row.spawns_twice (row.with_ticks 5))) p
        × (p.log ≡ child 0 1 None false first (told (Done [] (Some (pos 0)) 1) w) ∷ [])
        × Goes row.spawns_twice 256 [] p q × (q.log ≡ child 0 1 None false second awaited ∷ p.log) × (second.start ≡ 4)
        × Goes row.spawns_twice 256 [] p r × (r.log ≡ child 0 1 None false third awaited ∷ p.log) × (third.start ≡ 3) }
{}

/// A piece one of whose children has trapped may be at its end at once; and it may go on, here to a print that isn't shown.
/// The end is the same.
pub fn decides_or_goes_on()
    ensures { (p q : Piece) × (v w : Stack)
        × Reached row.traps_behind_print 256 [] (begun (main_ask row.traps_behind_print (row.with_ticks 9))) p
        × Stops row.traps_behind_print 256 [] p.start p.own p.control p.held p.log runs_out
        × Fork row.traps_behind_print 256 [] p (Trapped (pos 7 ∷ []) kind.Index 3) v
        × Goes row.traps_behind_print 256 [] p q × (q.log ≡ printed (pos 8) ∷ p.log)
        × Fork row.traps_behind_print 256 [] q (Trapped (pos 7 ∷ []) kind.Index 3) w }
{}

/// A child that returns 4 answers that it is Done with 4 after one tick.
pub fn answer_of_child()
    ensures { (ask : Ask) × (w : Stack)
        × Answers row.spawns_and_syncs [] (row.with_ticks 2) ask (Done [] (Some (pos 4)) 1) w }
{}
