//! The two ends of a deque.
ghost use Rattle.std.specs.Prelude.{◌≡◌, ◌+◌, ◌^◌, ◌<◌, ◌≤◌, true, length};
ghost use Rattle.std.specs.Option.{is_some};
ghost use Rattle.crossbeam_deque.specs.Handles.{view, IsPassOf, stealer_deque, worker_flavor, worker_view, worker_capacity, worker_index};

use crate::known::Known;
use crate::rule::DequeRule;
use crate::task::Task;
use crossbeam_deque::{Pass, Stealer, Worker};
use std::alloc::Global;

/// The owner's end. `count` is how many of the last pushes may still lie there, and `sure` how many more can't be refused.
#[derive(Drop)]
pub struct Deque<T: Drop + Task> {
    pub(crate) worker: Worker<T, Global, Known<T, T::Home>, DequeRule>,
    pub(crate) count: u64,
    pub(crate) sure: u64,
    ghost last_first: { worker_flavor worker ≡ 1 },
    ghost owns: { (worker_view worker).is_owner ≡ true },
    ghost counted: { count ≤ length (worker_view worker).pushed },
    ghost surely: { 0 < sure → sure + worker_index worker ≤ worker_capacity worker },
    ghost bounded: { count + sure < 2 ^ 64 },
}

/// A thief's end.
#[derive(Drop)]
pub struct Side<T: Drop + Task> {
    pub(crate) stealer: Stealer<T, Global, Known<T, T::Home>, DequeRule>,
    pub(crate) pass: Pass<T, Known<T, T::Home>>,
    ghost seated: { IsPassOf (stealer_deque stealer) pass },
    ghost housed: { is_some (view pass).home ≡ true },
}

/// What a steal answers.
#[derive(Drop)]
pub enum Stolen<T> {
    /// The oldest task.
    Got(T),
    /// At one moment of the call at most one task lay there.
    Empty,
    /// Another thread came between.
    Retry,
}

/// A push found no memory.
#[derive(Drop)]
pub struct Refused<T: Drop> {
    /// What was to be pushed.
    pub task: T,
}
