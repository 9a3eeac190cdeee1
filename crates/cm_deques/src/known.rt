//! What an end of a deque knows. No value of it is made.
use std::collections::LinkedList;

/// The home, once it is named; whether the end is the owner's; the tasks that the owner pushed and didn't pop, of which
/// the oldest may be stolen; and the tasks that this end stole. The latest task stands first.
pub struct Known<T, H> {
    pub home: Option<H>,
    pub is_owner: bool,
    pub pushed: LinkedList<T>,
    pub stolen: LinkedList<T>,
}
