//! The rule of a deque, and what its steps tell.
ghost use Rattle.std.specs.Prelude.{Option, None, [], ◌≡◌, ◌++◌, true, false, All};
ghost use Rattle.cm_deques.specs.Rule.{known, lies_at, Kept};

use crate::known::Known;
use crate::task::Task;
use crossbeam_deque::protocol::{Outcome, Protocol, Split};
use std::marker::{Brand, PhantomData};

/// The rule of a deque.
pub struct DequeRule;

impl<T: Task> Protocol<T, Known<T, T::Home>> for DequeRule {
    ghost holds = { Kept T.lies };

    ghost first = { known None true [] [] };

    ghost guest = { known None false [] [] };
}

/// The owner put a task last.
pub struct Pushed;

impl<T, H> Outcome<T, Known<T, H>> for Pushed {
    ghost then = { λ v xs w. w ≡ known v.home v.is_owner (xs ++ v.pushed) v.stolen };
}

/// The owner took the last task.
pub struct Popped;

impl<T: Task> Outcome<T, Known<T, T::Home>> for Popped {
    ghost then = { λ v xs w. (w.home ≡ v.home) × (w.is_owner ≡ v.is_owner) × (v.pushed ≡ xs ++ w.pushed) × All (lies_at T.lies v.home) xs };
}

/// A thief took the oldest task.
pub struct Taken;

impl<T: Task> Outcome<T, Known<T, T::Home>> for Taken {
    ghost then = { λ v xs w. (w ≡ known v.home v.is_owner v.pushed (xs ++ v.stolen)) × All (lies_at T.lies v.home) xs };
}

/// The home that a call picks.
pub trait Naming<H> {
    ghost home: { Option H };
}

impl<H> Naming<H> for Brand {
    ghost home = { None };
}

/// The owner names the home, or keeps it, and a new pass knows it.
pub struct Named<N> {
    names: PhantomData<N>,
}

impl<T, H, N: Naming<H>> Split<Known<T, H>> for Named<N> {
    ghost left = { λ v. known N.home v.is_owner v.pushed v.stolen };

    ghost right = { λ v. known N.home false [] [] };
}
