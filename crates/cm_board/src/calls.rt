//! The calls on a board.
ghost use Rattle.std.specs.Prelude.{◌≡◌, ◌≢◌, ℕ, ◌+◌, ◌<◌, List, [], ◌∷◌, true, false, Some, None, replicate, slice_set, IfOk, IfSome, IfNone, MatchResult};
ghost use Rattle.std.specs.Arc.{arc_value};
ghost use mathlib.Core.Option.{some};
ghost use lib.ListN.{get_elem?};
ghost use Rattle.cm_board.specs.Slots.{lead_at, first_free, IsLast, counter_word, place_word, surplus_word, full_mark};
ghost use Rattle.cm_board.specs.Seen.{board_of, home_of, pages_of, asks_of, log_of, child_board_of, child_home_of, child_pages_of, leave_board_of, leave_home_of, leave_pages_of, leave_log_of, WhenEarlier, WhenLast};

use crate::board::{Board, Place};
use crate::job::Job;
use crate::owner::{Arrived, Child, Leave, Owner};
use crate::view::{Parked, Scope};
use cm_text::Memory;
use std::alloc::Global;
use std::marker::Brand;
use std::sync::Arc;

/// An open owner of a new scope, with no place in use.
pub fn start<J: Job>(alloc: Global, pages: u32, home: J::Home) -> Result<Owner<J>, Memory>
    ensures scope { IfOk result (λ o. (home_of o ≡ home) × (pages_of o ≡ pages)) }
    ensures owner { IfOk result (λ o. (o.is_open ≡ true) × (asks_of o ≡ replicate 16 None) × (log_of o ≡ [])) }
{
    let scope = Scope { home, pages };
    let Ok((board, seat)) = Board::open(alloc, &scope) else {
        return Err(Memory);
    };
    let Ok(board) = Arc::new(alloc, board) else {
        return Err(Memory);
    };
    Ok(Owner {
        board,
        seat,
        is_open: true,
        spawned: 0,
        marks: [false; 16],
    })
}

impl<J: Job> Owner<J> {
    /// Whether a place is in use.
    pub fn used(&self, place: u32) -> bool
        requires { place < 16 }
        ensures used { result ≡ true → (a : J.Ask) × (get_elem? (asks_of self.now) place ≡ some (Some a)) }
        ensures unused { result ≡ false → get_elem? (asks_of self.now) place ≡ some None }
    {
        self.marks[place as usize]
    }

    /// The least place that is not in use, or 16.
    pub fn free(&self) -> u32
        ensures { result ≡ first_free (asks_of self.now) }
    {
        for at in 0..16 {
            if !self.marks[at as usize] {
                return at;
            }
        }
        16
    }
}

impl<J: Job> Child<J> {
    /// Its place.
    pub fn place(&self) -> u32
        ensures { result ≡ self.now.place }
    {
        self.place
    }
}

/// Counts a child and gives it the least free place.
pub fn spawn<J: Job>(owner: &mut Owner<J>, ask: J::Ask) -> Result<Child<J>, Memory>
    requires open { owner.old.is_open ≡ true }
    requires room { first_free (asks_of owner.old) < 16 }
    ensures scope { board_of owner.new ≡ board_of owner.old }
    ensures open { owner.new.is_open ≡ true }
    ensures log { log_of owner.new ≡ log_of owner.old }
    ensures spawned { MatchResult result (λ c. asks_of owner.new ≡ slice_set (asks_of owner.old) (first_free (asks_of owner.old)) (Some ask)) (λ _. asks_of owner.new ≡ asks_of owner.old) }
    ensures child { IfOk result (λ c. (child_board_of c ≡ board_of owner.old) × (c.place ≡ first_free (asks_of owner.old)) × (c.ask ≡ ask) × (c.is_full ≡ false)) }
{
    let Ok(board) = Arc::try_clone(&owner.board) else {
        return Err(Memory);
    };
    if owner.spawned >= u64::MAX - 2 {
        return Err(Memory);
    }
    let place = owner.free();
    let seat = board.add::<Brand>(&mut owner.seat, place, &ask);
    owner.spawned += 1;
    owner.marks[place as usize] = true;
    Ok(Child {
        board,
        seat,
        place,
        ask,
        is_full: false,
    })
}

/// Undoes a spawn whose child hasn't deposited. Its place was in use with its ask, and isn't any more.
pub fn back<J: Job>(owner: &mut Owner<J>, child: Child<J>) -> J::Ask
    requires open { owner.old.is_open ≡ true }
    requires child { (child_board_of child ≡ board_of owner.old) × (child.is_full ≡ false) }
    ensures scope { board_of owner.new ≡ board_of owner.old }
    ensures open { owner.new.is_open ≡ true }
    ensures place { asks_of owner.new ≡ slice_set (asks_of owner.old) child.place None }
    ensures entry { get_elem? (asks_of owner.old) child.place ≡ some (Some child.ask) }
    ensures log { log_of owner.new ≡ log_of owner.old }
    ensures ask { result ≡ child.ask }
{
    let Child {
        board,
        seat,
        place,
        ask,
        is_full: _,
    } = child;
    board.take_back(&mut owner.seat, seat, place, &ask);
    owner.marks[place as usize] = false;
    ask
}

/// Puts the child's answer down at its place.
pub fn deposit<J: Job>(child: &mut Child<J>, answer: J::Answer)
    requires empty { child.old.is_full ≡ false }
    requires answers { J.answers child.old.ask answer }
    ensures scope { child_board_of child.new ≡ child_board_of child.old }
    ensures child { (child.new.place ≡ child.old.place) × (child.new.ask ≡ child.old.ask) × (child.new.is_full ≡ true) }
{
    child
        .board
        .deposit(&mut child.seat, child.place, &child.ask, answer);
    child.is_full = true;
}

// The last to arrive is the owner, with the task that belongs to it.
fn last<J: Job>(
    board: Arc<Board<J>, Global>,
    mut seat: Place<J::Answer, J::Task, J::Surplus, J::Home, J::Ask>,
) -> (Owner<J>, J::Task)
    requires table { seat.table_id ≡ (arc_value board).table.shared.table_id }
    requires last { IsLast (arc_value board).table.shared.key seat.me }
    ensures scope { board_of result.0 ≡ arc_value board }
    ensures owner { (result.0.is_open ≡ false) × (asks_of result.0 ≡ (lead_at seat.me).asks) × (log_of result.0 ≡ (lead_at seat.me).log) }
    ensures task { J.belongs (arc_value board).table.shared.key.home (arc_value board).table.shared.key.pages (asks_of result.0) result.1 }
{
    let Parked { task, marks } = board.take(&mut seat);
    let owner = Owner {
        board,
        seat,
        is_open: false,
        spawned: 0,
        marks,
    };
    (owner, task)
}

/// A child that has deposited leaves the count. The last to arrive is the owner, which is not open any more, with the task that was parked.
pub fn arrive<J: Job>(child: Child<J>) -> Arrived<J>
    requires full { child.is_full ≡ true }
    ensures earlier { WhenEarlier result (λ l. (leave_board_of l ≡ child_board_of child) × (l.is_spent ≡ false) × ((n : ℕ) × (1 < n) × (leave_log_of l ≡ (counter_word, n) ∷ []))) }
    ensures last { WhenLast result (λ o t. (board_of o ≡ child_board_of child) × (o.is_open ≡ false) × (log_of o ≡ (counter_word, 1) ∷ []) × J.belongs (child_home_of child) (child_pages_of child) (asks_of o) t) }
{
    let Child {
        board,
        mut seat,
        place: _,
        ask,
        is_full: _,
    } = child;
    drop(ask);
    if board.arrive(&mut seat) == 1 {
        let (owner, task) = last(board, seat);
        Arrived::Last(owner, task)
    } else {
        Arrived::Earlier(Leave {
            board,
            seat,
            is_spent: false,
        })
    }
}

/// The owner puts its task down and leaves the count. Where it is the last, it has the task back.
pub fn park<J: Job>(owner: Owner<J>, task: J::Task) -> Arrived<J>
    requires open { owner.is_open ≡ true }
    requires belongs { J.belongs (home_of owner) (pages_of owner) (asks_of owner) task }
    ensures earlier { WhenEarlier result (λ l. (leave_board_of l ≡ board_of owner) × (l.is_spent ≡ false) × ((n : ℕ) × (1 < n) × (leave_log_of l ≡ (counter_word, n) ∷ log_of owner))) }
    ensures last { WhenLast result (λ o t. (board_of o ≡ board_of owner) × (o.is_open ≡ false) × (asks_of o ≡ asks_of owner) × (log_of o ≡ (counter_word, 1) ∷ log_of owner) × J.belongs (home_of owner) (pages_of owner) (asks_of o) t) }
{
    let Owner {
        board,
        mut seat,
        is_open: _,
        spawned: _,
        marks,
    } = owner;
    if board.park(&mut seat, Parked { task, marks }) == 1 {
        let (owner, task) = last(board, seat);
        Arrived::Last(owner, task)
    } else {
        Arrived::Earlier(Leave {
            board,
            seat,
            is_spent: false,
        })
    }
}

/// Takes the answer of a place in use. None where it was not there, which does not come once the owner is not open.
pub fn collect<J: Job>(owner: &mut Owner<J>, place: u32) -> Option<J::Answer>
    requires used { (place < 16) × ((a : J.Ask) × (get_elem? (asks_of owner.old) place ≡ some (Some a))) }
    ensures scope { board_of owner.new ≡ board_of owner.old }
    ensures open { owner.new.is_open ≡ owner.old.is_open }
    ensures none { IfNone result ((asks_of owner.new ≡ asks_of owner.old) × (owner.old.is_open ≡ true) × ((n : ℕ) × (n ≢ full_mark) × (log_of owner.new ≡ (place_word place, n) ∷ log_of owner.old))) }
    ensures some { IfSome result (λ b. (log_of owner.new ≡ (place_word place, full_mark) ∷ log_of owner.old) × (asks_of owner.new ≡ slice_set (asks_of owner.old) place None) × ((a : J.Ask) × (get_elem? (asks_of owner.old) place ≡ some (Some a)) × J.answers a b)) }
{
    let answer = owner.board.collect(&mut owner.seat, place)?;
    owner.marks[place as usize] = false;
    Some(answer)
}

/// Puts surplus pages down in a slot. They come back where it was not empty.
pub fn post<J: Job>(owner: &mut Owner<J>, slot: u32, surplus: J::Surplus) -> Result<(), J::Surplus>
    requires open { owner.old.is_open ≡ true }
    requires slot { slot < 16 }
    requires surplus { J.lies_in (home_of owner.old) (pages_of owner.old) surplus }
    ensures scope { board_of owner.new ≡ board_of owner.old }
    ensures owner { (owner.new.is_open ≡ true) × (asks_of owner.new ≡ asks_of owner.old) }
    ensures told { MatchResult result (λ _. log_of owner.new ≡ (surplus_word slot, 0) ∷ log_of owner.old) (λ s. (s ≡ surplus) × ((n : ℕ) × (n ≢ 0) × (log_of owner.new ≡ (surplus_word slot, n) ∷ log_of owner.old))) }
{
    owner.board.post(&mut owner.seat, slot, surplus)
}

/// Takes surplus pages. None where the slot was not filled. After Some the leave is spent.
pub fn fetch<J: Job>(leave: &mut Leave<J>, slot: u32) -> Option<J::Surplus>
    requires fresh { leave.old.is_spent ≡ false }
    requires slot { slot < 16 }
    ensures scope { leave_board_of leave.new ≡ leave_board_of leave.old }
    ensures none { IfNone result ((leave.new.is_spent ≡ false) × ((n : ℕ) × (n ≢ full_mark) × (leave_log_of leave.new ≡ (surplus_word slot, n) ∷ leave_log_of leave.old))) }
    ensures some { IfSome result (λ s. (leave.new.is_spent ≡ true) × (leave_log_of leave.new ≡ (surplus_word slot, full_mark) ∷ leave_log_of leave.old) × J.lies_in (leave_home_of leave.old) (leave_pages_of leave.old) s) }
{
    let surplus = leave.board.fetch(&mut leave.seat, slot)?;
    leave.is_spent = true;
    Some(surplus)
}
