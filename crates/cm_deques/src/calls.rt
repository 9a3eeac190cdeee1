//! The calls on a deque.
ghost use Rattle.std.specs.Prelude.{◌≡◌, ◌⊎◌, ◌+◌, ◌-◌, ◌^◌, ◌<◌, ◌≤◌, [], ◌∷◌, Some, None, true, false, IfOk, IfErr, MatchOption, length};
ghost use Rattle.crossbeam_deque.specs.Handles.{view, IsPassOf, worker_deque, stealer_deque, worker_flavor, stealer_flavor, worker_view, worker_capacity, worker_index};
ghost use Rattle.cm_deques.specs.Rule.{known, lies_at};
ghost use Rattle.cm_deques.specs.Seen.{deque_of, home_of, pushed_in, sure_of, side_deque, side_home, stolen_by};
ghost use Rattle.cm_deques.specs.Answers.{MatchStolen};

use crate::ends::{Deque, Refused, Side, Stolen};
use crate::known::Known;
use crate::rule::{DequeRule, Named, Naming, Popped, Pushed, Taken};
use crate::task::Task;
use cm_text::Memory;
use crossbeam_deque::{Pass, Steal, Worker};
use std::alloc::Global;
use std::marker::Brand;

// The owner names the home, and the new pass is a side's.
fn name<T: Drop + Task, N: Naming<T::Home>>(
    worker: &mut Worker<T, Global, Known<T, T::Home>, DequeRule>,
    home: &T::Home,
) -> Pass<T, Known<T, T::Home>>
    requires picked { N.home ≡ Some home.now }
    requires owner { (worker_view worker.old).is_owner ≡ true }
    requires home { ((worker_view worker.old).home ≡ None) ⊎ ((worker_view worker.old).home ≡ Some home.now) }
    ensures same { (worker_deque worker.new ≡ worker_deque worker.old) × (worker_flavor worker.new ≡ worker_flavor worker.old) × (worker_capacity worker.old ≤ worker_capacity worker.new) × (worker_index worker.new ≡ worker_index worker.old) }
    ensures pass { IsPassOf (worker_deque worker.old) result × (view result ≡ known (Some home.now) false [] []) }
    ensures owner { worker_view worker.new ≡ known (Some home.now) true (worker_view worker.old).pushed (worker_view worker.old).stolen }
{
    let _ = home;
    worker.another::<Named<N>>()
}

impl<T: Drop + Task> Deque<T> {
    /// An empty deque in a home, in which so many pushes can't be refused, and a side of it.
    #[tactic(auto, using(crate::proofs::Steps::begins))]
    pub fn make(alloc: Global, capacity: u32, home: &T::Home) -> Result<(Deque<T>, Side<T>), Memory>
        ensures home { IfOk result (λ r. (home_of r.0 ≡ Some home.now) × (side_home r.1 ≡ Some home.now)) }
        ensures same { IfOk result (λ r. side_deque r.1 ≡ deque_of r.0) }
        ensures empty { IfOk result (λ r. (pushed_in r.0 ≡ []) × (stolen_by r.1 ≡ [])) }
        ensures sure { IfOk result (λ r. sure_of r.0 ≡ capacity) }
    {
        let Ok(mut worker) = Worker::lifo_as(alloc, capacity as usize) else {
            return Err(Memory);
        };
        let pass = name::<T, Brand>(&mut worker, home);
        let Ok(stealer) = worker.stealer() else {
            return Err(Memory);
        };
        let side = Side { stealer, pass };
        let deque = Deque {
            worker,
            count: 0,
            sure: capacity as u64,
        };
        Ok((deque, side))
    }

    /// One more side, in the deque's home. Only the owner makes one, since a thief's end can't hand on what it knows.
    pub fn share(&mut self, home: &T::Home) -> Result<Side<T>, Memory>
        requires home { home_of self.old ≡ Some home.now }
        ensures same { (deque_of self.new ≡ deque_of self.old) × (home_of self.new ≡ home_of self.old) × (sure_of self.new ≡ sure_of self.old) × (pushed_in self.new ≡ pushed_in self.old) }
        ensures side { IfOk result (λ s. (side_deque s ≡ deque_of self.old) × (side_home s ≡ Some home.now) × (stolen_by s ≡ [])) }
    {
        let Ok(stealer) = self.worker.stealer() else {
            return Err(Memory);
        };
        let pass = name::<T, Brand>(&mut self.worker, home);
        Ok(Side { stealer, pass })
    }

    /// Puts a task last. It is handed back for want of memory, and not while pushes are sure.
    pub fn push(&mut self, task: T) -> Result<(), Refused<T>>
        requires lies { lies_at T.lies (home_of self.old) task }
        ensures home { (deque_of self.new ≡ deque_of self.old) × (home_of self.new ≡ home_of self.old) }
        ensures sure { sure_of self.new ≡ sure_of self.old - 1 }
        ensures pushed { IfOk result (λ _. pushed_in self.new ≡ task ∷ pushed_in self.old) }
        ensures refused { IfErr result (λ r. (r.task ≡ task) × (pushed_in self.new ≡ pushed_in self.old) × (sure_of self.old ≡ 0)) }
    {
        if self.count == u64::MAX {
            return Err(Refused { task });
        }
        if let Err(task) = self.worker.push_as::<Pushed>(task) {
            return Err(Refused { task });
        }
        self.count += 1;
        self.sure = self.sure.saturating_sub(1);
        Ok(())
    }

    /// The task that was pushed last, and neither popped nor stolen. None leaves nothing of the pushes.
    pub fn pop(&mut self) -> Option<T>
        ensures home { (deque_of self.new ≡ deque_of self.old) × (home_of self.new ≡ home_of self.old) }
        ensures sure { sure_of self.new ≡ sure_of self.old }
        ensures popped { MatchOption result (pushed_in self.new ≡ []) (λ t. lies_at T.lies (home_of self.old) t × (pushed_in self.old ≡ t ∷ pushed_in self.new)) }
    {
        if self.count == 0 {
            return None;
        }
        match self.worker.pop_as::<Popped>() {
            Some(task) => {
                self.count -= 1;
                Some(task)
            }
            None => {
                self.count = 0;
                None
            }
        }
    }
}

impl<T: Drop + Task> Side<T> {
    /// The oldest task.
    pub fn steal(&mut self) -> Stolen<T>
        ensures home { (side_deque self.new ≡ side_deque self.old) × (side_home self.new ≡ side_home self.old) }
        ensures stolen { MatchStolen result (stolen_by self.new ≡ stolen_by self.old) (λ t. lies_at T.lies (side_home self.old) t × (stolen_by self.new ≡ t ∷ stolen_by self.old)) }
    {
        match self.stealer.steal_as::<Taken>(&mut self.pass) {
            Steal::Success(task) => Stolen::Got(task),
            Steal::Empty => Stolen::Empty,
            Steal::Retry => Stolen::Retry,
        }
    }
}
