//! The names of the steps on a rack's table.
ghost use Rattle.std.specs.Prelude.{[]};
ghost use Rattle.cm_rack.specs.declared.view.View.TheVariants.{Idle};
ghost use Rattle.cm_rack.specs.Play.{put_tried, filled, take_tried, emptied, hand_part, ticket_part};

use crate::racked::Racked;
use crate::view::View;
use atomic_table::{Play, Split};
use std::marker::PhantomData;

/// A hand tries to take the slot of an empty place.
pub struct TryPut;

impl<T, G> Play<Option<T>, View<G>> for TryPut {
    ghost then = { λ st m r n. put_tried st.word m.1 m.0 r n };
}

/// A hand gives the slot back, with a task in it.
pub struct Fill<T> {
    task: PhantomData<T>,
}

impl<T: Racked> Play<Option<T>, View<T::Tag>> for Fill<T> {
    ghost then = { λ st m r n. filled T.tag m.1 m.0 r n };
}

/// A ticket takes the slot of its place.
pub struct Claim<T> {
    task: PhantomData<T>,
}

impl<T: Racked> Play<Option<T>, View<T::Tag>> for Claim<T> {
    ghost then = { λ st m r n. take_tried T.tag m.1 m.0 r n };
}

/// A ticket gives the slot back, empty.
pub struct Empty;

impl<T, G> Play<Option<T>, View<G>> for Empty {
    ghost then = { λ st m r n. emptied m.1 m.0 r n };
}

/// The ticket leaves the hand.
pub struct Part;

impl<G> Split<View<G>> for Part {
    ghost left = { hand_part };

    ghost right = { ticket_part };
}

/// One more hand.
pub struct Another;

impl<G> Split<View<G>> for Another {
    ghost left = { λ v. v };

    ghost right = { λ v. Idle [] };
}
