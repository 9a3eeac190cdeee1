//! What every turn of the machine keeps, and what it says. The functions do nothing: their contracts are the laws, for
//! any P workers of V pages each, of strands whose maps come to no more than B pages.
ghost use Rattle.std.specs.Prelude.{◌≡◌, ℕ, ◌+◌, ◌*◌, ◌<◌, ◌≤◌, List, ◌∷◌, [], Some, length, take};
ghost use Rattle.cm_core.specs.Table.{total};
ghost use Rattle.cm_core.specs.State.{State, width, start, chain_of, closed};
ghost use Rattle.cm_core.specs.Event.{Strands};
ghost use Rattle.cm_core.specs.Turn.{Why, NotYet, turned, turn, run, Pair};
ghost use Rattle.cm_core.specs.Row.{Row, row_result};
ghost use Rattle.cm_core.specs.Held.{held, Run, run_counted, StandOnce, stored_pages, posted_pages};
ghost use Rattle.cm_core.specs.Valid.{Location, Valid, base, IsFront, Under};
ghost use Rattle.cm_core.specs.Goes.{KeepsFit, WorkerGoes, GoesAlong, AreAmong};
ghost use Rattle.cm_core.specs.Post.{PostedIn, filled_bit, leaving_bit};
ghost use Rattle.cm_core.specs.Share.{Shares, Whole, Lends, moves};
ghost use Rattle.cm_core.specs.Law.{Sound, IsCause, DoesAs};

use crate::strand::Strand;

/// Each turn of a valid state is a row of the table, each row whose conditions hold is what the turn does, and a turn is
/// what it says: one that did nothing yet has its cause and leaves the state as it was.
pub fn turns_are_rows<S: Strand>()
    ensures row { (P V B : ℕ) (s : State S.Body S.Ended) (location : ℕ → Location) (w v : ℕ) → Valid S.fits P V s location → w < P
        → B ≤ V → WorkerGoes S.fits B S.strands s w → (r : Row S.strands s w v) × (turn S.strands s w v ≡ row_result r) }
    ensures only { (s : State S.Body S.Ended) (w v : ℕ) (r : Row S.strands s w v) → turn S.strands s w v ≡ row_result r }
    ensures says { (P V B : ℕ) (s : State S.Body S.Ended) (location : ℕ → Location) (w v : ℕ) → Valid S.fits P V s location → w < P
        → B ≤ V → WorkerGoes S.fits B S.strands s w
        → DoesAs S.strands s w v (turn S.strands s w v).did (turn S.strands s w v) }
    ensures caused { (s : State S.Body S.Ended) (w v : ℕ) (why : Why) → IsCause S.strands s w v why
        → turn S.strands s w v ≡ turned s (NotYet why) }
{}

/// The start is sound, and every turn of every run of pairs below P keeps it sound.
pub fn turns_keep<S: Strand>()
    ensures start { (P V B : ℕ) (root : S.Body) → S.fits (0 ∷ []) root → Sound {Ended = S.Ended} S.fits P V B (start V root) }
    ensures turn { (P V B : ℕ) (s : State S.Body S.Ended) (w v : ℕ) → KeepsFit S.fits S.strands → B ≤ V → w < P → v < P
        → WorkerGoes S.fits B S.strands s w → Sound S.fits P V B s → Sound S.fits P V B (turn S.strands s w v).state }
    ensures run { (P V B : ℕ) (root : S.Body) (pairs : List Pair) → KeepsFit S.fits S.strands → B ≤ V → S.fits (0 ∷ []) root
        → AreAmong P pairs → GoesAlong S.fits B S.strands (start V root) pairs
        → Sound S.fits P V B (run S.strands (start V root) pairs) }
{}

/// Each page is held, or stands once in a store or a surplus place, never both: held, stored and posted they are all
/// pages. At most P times B are held after any turn, and at most P times V always.
pub fn pages_stand_once<S: Strand>()
    ensures once { (P V B : ℕ) (s : State S.Body S.Ended) → Sound S.fits P V B s → StandOnce P V s }
    ensures all { (P V B : ℕ) (s : State S.Body S.Ended) → Sound S.fits P V B s
        → held P V s + stored_pages P s + posted_pages s ≡ P * V }
    ensures always { (P V B : ℕ) (s : State S.Body S.Ended) → Sound S.fits P V B s → held P V s ≤ P * V }
    ensures bound { (P V B : ℕ) (s : State S.Body S.Ended) → Sound S.fits P V B s → held P V s ≤ P * B }
    ensures most { (P V B : ℕ) (root : S.Body) (pairs : List Pair) → KeepsFit S.fits S.strands → B ≤ V → S.fits (0 ∷ []) root
        → AreAmong P pairs → GoesAlong S.fits B S.strands (start V root) pairs
        → (run_counted P V S.strands (record { state = start V root; steals = 0; most = 0 }) pairs).most ≤ P * B }
{}

/// Maps and chains below one scope begin with its chain, so they show the same pages for it.
pub fn common_scopes_show_common_pages<S: Strand>()
    ensures chains { (P V B : ℕ) (s : State S.Body S.Ended) (n m : ℕ) → Sound S.fits P V B s → m < s.scopes
        → Under s.outer n (Some m) → IsFront (s.chain n) (s.chain m) }
    ensures maps { (P V B : ℕ) (s : State S.Body S.Ended) (n w : ℕ) → Sound S.fits P V B s → w < P
        → Under s.outer n (base (s.workers w).task) → IsFront (s.chain n) (s.workers w).pages }
    ensures same { (P V B : ℕ) (s : State S.Body S.Ended) (n w v : ℕ) → Sound S.fits P V B s → w < P → v < P
        → Under s.outer n (base (s.workers w).task) → Under s.outer n (base (s.workers v).task)
        → take (length (s.chain n)) (s.workers w).pages ≡ take (length (s.chain n)) (s.workers v).pages }
{}

/// A closed scope has as many posts as workers that leave it.
pub fn closed_scopes_owe_posts<S: Strand>()
    ensures { (P V B : ℕ) (s : State S.Body S.Ended) (n : ℕ) → Sound S.fits P V B s → n < s.scopes → s.phase n ≡ closed
        → total width (λ i. filled_bit (s.surplus n i)) ≡ total P (λ w. leaving_bit n (s.workers w).task) }
{}

/// Where all shares of every word make the whole, they do after each turn: a spawn moves what the parent lends, and
/// an answer that is popped or collected what the child has.
pub fn shares_move<S: Strand>()
    ensures { (P V B : ℕ) (s : State S.Body S.Ended) (w v whole : ℕ) (lent has : Shares) → KeepsFit S.fits S.strands → B ≤ V → w < P
        → WorkerGoes S.fits B S.strands s w → Sound S.fits P V B s → Whole whole s.strands has
        → Lends lent s.strands (turn S.strands s w v).moved has
        → Whole whole (turn S.strands s w v).state.strands (moves lent s.strands (turn S.strands s w v).moved has) }
{}
