//! Scopes: the children of one frame.

/// An open scope, which holds the children of one frame.
#[derive(Clone, Copy, Debug, PartialEq, Eq)]
pub struct Scope {
    /// The frame pointer.
    pub frame: u32,
    /// The lowest address of the frames at its opening.
    pub low: u32,
    /// The number of its first hole.
    pub first: u32,
}
