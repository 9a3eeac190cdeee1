//! The names of the steps on a board's table.
ghost use Rattle.std.specs.Prelude.{◌-◌, ℕ, Option, None};
ghost use Rattle.cm_board.specs.Rule.{spent};
ghost use Rattle.cm_board.specs.Play.{begun, filled, arrived, added, uncounted, tried, emptied, lifted, parked_as, taken, laid, post_tried, posted, fetch_tried, fetched, owner_part, child_part, back};
ghost use Rattle.cm_board.specs.Slots.{cargo_fits, cargo_lies_in};

use crate::job::Job;
use crate::view::{Cargo, Content, View};
use atomic_table::{Join, Play, Split};
use std::marker::{Brand, PhantomData};

/// A child takes the slot of its place.
pub struct Begin;

impl<H, A, B, T> Play<Option<Content<B, T>>, View<H, A>> for Begin {
    ghost then = { λ st m r n. begun m.0.scope m.1 m.0.role r n };
}

/// A child gives its slot back, with its answer.
pub struct Fill;

impl<H, A, B, T> Play<Option<Content<B, T>>, View<H, A>> for Fill {
    ghost then = { λ st m r n. filled m.0.scope m.1 m.0.role r n };
}

/// A child or a parked owner leaves the join counter.
pub struct Arrive;

impl<H, A, B, T> Play<Option<Content<B, T>>, View<H, A>> for Arrive {
    ghost then = { λ st m r n. arrived m.0.scope m.1 m.0.role r n };
}

/// The place and the ask of a child, which the call that counts it picks.
pub trait Naming<A> {
    // The place.
    ghost at: { ℕ };

    // The ask.
    ghost ask: { Option A };
}

impl<A> Naming<A> for Brand {
    ghost at = { 0 };

    ghost ask = { None };
}

/// The owner counts a child that it is about to give a place.
pub struct Count<N> {
    names: PhantomData<N>,
}

impl<H, A, B, T, N: Naming<A>> Play<Option<Content<B, T>>, View<H, A>> for Count<N> {
    ghost then = { λ st m r n. added N.at N.ask m.0.scope m.1 m.0.role r n };
}

/// The owner takes a child back from the join counter.
pub struct Uncount;

impl<H, A, B, T> Play<Option<Content<B, T>>, View<H, A>> for Uncount {
    ghost then = { λ st m r n. uncounted m.0.scope m.1 m.0.role r n };
}

/// The owner tries to take the slot of a place.
pub struct Try<J> {
    job: PhantomData<J>,
}

impl<J: Job> Play<Option<Content<J::Answer, Cargo<J::Task, J::Surplus>>>, View<J::Home, J::Ask>>
    for Try<J> {
    ghost then = { λ st m r n. tried J.answers (st.word - 1) m.0.scope m.1 m.0.role r n };
}

/// The owner gives the slot of a place back, empty.
pub struct Empty;

impl<H, A, B, T> Play<Option<Content<B, T>>, View<H, A>> for Empty {
    ghost then = { λ st m r n. emptied m.0.scope m.1 m.0.role r n };
}

/// The owner takes the slot of the task.
pub struct Lift;

impl<H, A, B, T> Play<Option<Content<B, T>>, View<H, A>> for Lift {
    ghost then = { λ st m r n. lifted m.0.scope m.1 m.0.role r n };
}

/// The owner gives the slot of the task back, with its task.
pub struct PutDown;

impl<H, A, B, T> Play<Option<Content<B, T>>, View<H, A>> for PutDown {
    ghost then = { λ st m r n. parked_as m.0.scope m.1 m.0.role r n };
}

/// The last to arrive takes the slot of the task.
pub struct Take<J> {
    job: PhantomData<J>,
}

impl<J: Job> Play<Option<Content<J::Answer, Cargo<J::Task, J::Surplus>>>, View<J::Home, J::Ask>>
    for Take<J> {
    ghost then = { λ st m r n. taken (cargo_fits J.belongs) m.0.scope m.1 m.0.role r n };
}

/// The last gives the slot of the task back, empty.
pub struct LayDown;

impl<H, A, B, T> Play<Option<Content<B, T>>, View<H, A>> for LayDown {
    ghost then = { λ st m r n. laid m.0.scope m.1 m.0.role r n };
}

/// The owner tries to take an empty surplus slot.
pub struct TryPost;

impl<H, A, B, T> Play<Option<Content<B, T>>, View<H, A>> for TryPost {
    ghost then = { λ st m r n. post_tried (st.word - 18) m.0.scope m.1 m.0.role r n };
}

/// The owner gives a surplus slot back, with pages.
pub struct Post;

impl<H, A, B, T> Play<Option<Content<B, T>>, View<H, A>> for Post {
    ghost then = { λ st m r n. posted m.0.scope m.1 m.0.role r n };
}

/// A leave tries to take a filled surplus slot.
pub struct TryFetch<J> {
    job: PhantomData<J>,
}

impl<J: Job> Play<Option<Content<J::Answer, Cargo<J::Task, J::Surplus>>>, View<J::Home, J::Ask>>
    for TryFetch<J> {
    ghost then = { λ st m r n. fetch_tried (cargo_lies_in J.lies_in) (st.word - 18) m.0.scope m.1 m.0.role r n };
}

/// A leave gives a surplus slot back, empty.
pub struct Fetch;

impl<H, A, B, T> Play<Option<Content<B, T>>, View<H, A>> for Fetch {
    ghost then = { λ st m r n. fetched m.0.scope m.1 m.0.role r n };
}

/// A child leaves the owner.
pub struct Part;

impl<H, A> Split<View<H, A>> for Part {
    ghost left = { owner_part };

    ghost right = { child_part };
}

/// A child goes back into the owner.
pub struct Back;

impl<H, A> Join<View<H, A>> for Back {
    ghost both = { back };

    ghost spent = { spent };
}
