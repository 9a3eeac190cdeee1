//! What lies in a deque.

/// A task has a fact of its own, which it carries in its type, and lies in a home.
pub trait Task {
    type Home;

    ghost lies: { Self.Home → Self → Type 0 };
}
