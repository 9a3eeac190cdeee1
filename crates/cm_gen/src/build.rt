//! The build of a program: its image, and what the layers above want to know of it.

use crate::form::Form;
use cm_asm::Image;
use cm_syntax::{Checked, Slot};
use cm_text::List;
use std::snapshot::Snapshot;

/// The most words of an image.
pub const MAX_IMAGE_WORDS: usize = 200_000;

/// The build of a program in one form. `make` makes it, and contracts say by `IsBuild` what the fields of such a one are.
#[derive(Drop)]
pub struct Build {
    /// The words of the code.
    pub image: Image,
    /// In which form spawns and syncs are done.
    pub form: Form,
    /// The bytes of a page.
    pub page: u32,
    /// The index of main among the functions.
    pub main: u32,
    /// The addresses of the functions.
    pub entries: List<u32>,
    /// The words of their frames.
    pub frames: List<u32>,
    /// The slots of their parameters.
    pub parameters: List<List<Slot>>,
    /// The address behind the last function that isn't marked `cilk`.
    pub serial_end: u32,
    /// The program that it was made from. It has no bytes: only contracts see it.
    pub made: Snapshot<Checked>,
}
