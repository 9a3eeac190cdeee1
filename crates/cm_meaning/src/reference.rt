//! Slices and arguments, as the evaluator keeps them.

/// So many words of a slot of the frame at a depth, from an index on.
#[derive(Clone, Copy, Debug)]
pub(crate) struct Reference {
    /// How many frames stand before the frame.
    pub(crate) depth: u32,
    /// The slot.
    pub(crate) slot: u32,
    /// The index of the first word.
    pub(crate) start: u32,
    /// How many words they are.
    pub(crate) length: u32,
}

/// What a call hands to a parameter.
#[derive(Clone, Copy, Debug)]
pub(crate) enum Argument {
    /// A value.
    Word(i32),
    /// A slice.
    Slice(Reference),
}
