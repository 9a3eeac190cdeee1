//! Short runs, turn by turn, with two workers of four pages each, with which the machine on paper has to agree. The
//! functions do nothing: their contracts are the rows.

ghost use Rattle.std.specs.Prelude.{◌≡◌, ℕ, ◌∷◌, []};
ghost use Rattle.cm_core.specs.State.{start};
ghost use Rattle.cm_core.specs.Turn.{Instruction, Page, Spawn, Steal, Map, End, Deposit, Arrive, Fetch, Park, Collect, Resume, Finish, NotYet, Empty, Stopped, Unposted, run};
ghost use Rattle.cm_core.specs.Goes.{GoesAlong, AreAmong, KeepsFit};
ghost use Rattle.cm_core.specs.Law.{Sound};
ghost use Rattle.cm_core.specs.Script.{Script, returns, needs, first, breaks, sync, one_child, scripts, dids, helds, by, Any, park_schedule};

/// One worker: the child is popped back, and the sync finds nobody out.
pub fn a_fork()
    ensures did { dids (start 4 one_child) (by 0 0 ∷ by 0 0 ∷ by 0 0 ∷ by 0 0 ∷ by 0 0 ∷ by 0 0 ∷ by 0 0 ∷ by 0 0 ∷ [])
        ≡ Page ∷ Instruction ∷ Spawn ∷ Instruction ∷ End ∷ Park ∷ Resume ∷ Finish ∷ [] }
    ensures held { helds 1 4 (start 4 one_child) (by 0 0 ∷ by 0 0 ∷ by 0 0 ∷ by 0 0 ∷ by 0 0 ∷ by 0 0 ∷ by 0 0 ∷ by 0 0 ∷ [])
        ≡ 1 ∷ 1 ∷ 1 ∷ 1 ∷ 1 ∷ 1 ∷ 1 ∷ 1 ∷ [] }
{}

/// The parent is stolen, and the child arrives first: the thief goes on with its own parent, and the child's worker takes
/// the pages that the thief posts. After a child that ended otherwise than by return nothing is stolen.
pub fn a_steal()
    ensures did { dids (start 4 one_child) (by 0 0 ∷ by 0 0 ∷ by 0 0 ∷ by 1 0 ∷ by 0 0 ∷ by 0 0 ∷ by 0 0 ∷ by 0 1 ∷ by 0 1
        ∷ by 1 0 ∷ by 0 1 ∷ by 1 0 ∷ by 1 0 ∷ by 1 0 ∷ by 1 0 ∷ [])
        ≡ Page ∷ Instruction ∷ Spawn ∷ Steal ∷ Instruction ∷ End ∷ Deposit ∷ Arrive ∷ NotYet Unposted
        ∷ Map ∷ Fetch ∷ Park ∷ Collect ∷ Resume ∷ Finish ∷ [] }
    ensures stopped { dids (start 4 (needs 1 (first 1 (breaks (returns 7)) (sync (returns 8)))))
        (by 0 0 ∷ by 0 0 ∷ by 0 0 ∷ by 0 0 ∷ by 1 0 ∷ by 0 0 ∷ by 0 0 ∷ by 0 0 ∷ by 0 0 ∷ by 1 0 ∷ [])
        ≡ Page ∷ Instruction ∷ Spawn ∷ Instruction ∷ NotYet Stopped ∷ End ∷ Park ∷ Resume ∷ Finish ∷ NotYet Stopped ∷ [] }
{}

/// The thief parks, and the child's worker collects and resumes its strand. This run meets the conditions of the laws.
pub fn a_park_and_resume()
    ensures did { dids (start 4 one_child) park_schedule
        ≡ NotYet Empty ∷ Page ∷ Instruction ∷ Spawn ∷ Steal ∷ Map ∷ Park ∷ Instruction ∷ End ∷ Deposit ∷ Arrive ∷ Fetch
        ∷ NotYet Empty ∷ Collect ∷ Resume ∷ Finish ∷ [] }
    ensures held { helds 2 4 (start 4 one_child) park_schedule
        ≡ 0 ∷ 1 ∷ 1 ∷ 1 ∷ 1 ∷ 1 ∷ 1 ∷ 1 ∷ 1 ∷ 1 ∷ 1 ∷ 1 ∷ 1 ∷ 1 ∷ 1 ∷ 1 ∷ [] }
    ensures fits { KeepsFit Any scripts }
    ensures among { AreAmong 2 park_schedule }
    ensures goes { GoesAlong Any 1 scripts (start 4 one_child) park_schedule }
    ensures sound { Sound Any 2 4 1 (run scripts (start 4 one_child) park_schedule) }
{}
