//! What lies in a rack.

/// Each value has one tag, plain data, whose type does not name the value's.
pub trait Racked {
    /// What its ticket tells.
    type Tag;

    // The tag of a value.
    ghost tag: { Self → Self.Tag };
}
