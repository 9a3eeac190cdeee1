//! The words of a program.
use cm_text::List;

/// The most words of an image that can be listed.
pub const MAX_WORDS: usize = 4_194_304;

/// The words of a program, whose addresses go from 0 on, 4 bytes each.
#[derive(Debug, Drop)]
pub struct Image {
    /// The words in order.
    pub words: List<u32>,
}
