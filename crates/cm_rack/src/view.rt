//! What a seat at a rack knows. No value of it is made.
use std::collections::LinkedList;

/// A hand has the log of what its takes found: the place and the number, the latest first.
pub enum View<G> {
    /// A seat whose task was taken.
    Spent,
    /// A hand that names nothing.
    Idle(LinkedList<(u64, u64)>),
    /// A hand that holds the slot of a place.
    Putting(u64, LinkedList<(u64, u64)>),
    /// A hand that has filled a place with a task of this tag, and has not given the ticket.
    Holding(u64, G, LinkedList<(u64, u64)>),
    /// A ticket: the place, and the tag of the task there.
    Placed(u64, G),
    /// A ticket that holds the slot of its place.
    Taking(u64),
}
