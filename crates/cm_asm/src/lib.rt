//! Labels and the assembler, the image, and the listing of an image.
#![tactic(auto)]

mod assembler;
mod image;
mod item;
mod law;
mod listing;
mod reading;

pub use assembler::{AsmRefusal, assemble};
pub use image::{Image, MAX_WORDS};
pub use item::{Item, MAX_ITEMS};
pub use law::one_image_per_listing;
pub use listing::list;
pub use reading::{ListRefusal, unlist};

#[cfg(test)]
mod tests;
