//! The images that are made of programs, and their listings.
ghost use Rattle.std.specs.Prelude.{IfOk, IfErr};
ghost use Rattle.cm_maps.specs.Pages.{IsPage};
ghost use Rattle.cilkm.specs.Built.{IsCompiled};
ghost use Rattle.cilkm.specs.Source.{IsStopOfBuild};

use crate::refusal::Stop;
use cm_asm::{Image, list};
use cm_gen::{Build, Form, MAX_IMAGE_WORDS, make};
use cm_syntax::Checked;
use cm_text::{Bytes, Memory};
use std::alloc::Global;
use std::marker::Model;

/// An image of at most 200,000 words. Contracts see its words.
#[derive(Debug, Drop)]
pub struct BuiltImage {
    image: Image,
}

impl Model for BuiltImage {
    ghost use Rattle.std.specs.Prelude.{ℕ, List, ◌≤◌, length};
    ghost use Rattle.cm_gen.specs.Build.{max_image_words};

    ghost Value = { List ℕ };

    ghost view = { λ built. built.image.words };

    ghost invariant = { λ built. length built.image.words ≤ max_image_words };
}

impl BuiltImage {
    ghost use Rattle.std.specs.Prelude.{◌≡◌, ◌<◌, ◌≤◌, ◌^◌, ℕ, length, slice_index, IfOk};
    ghost use Rattle.cm_asm.specs.Listing.{listing};
    ghost use Rattle.cm_gen.specs.Build.{max_image_words};

    /// An image that is not too long.
    pub fn of(image: Image) -> BuiltImage
        requires { length image.words ≤ max_image_words }
        ensures words { result ≡ image.words }
        ensures each { (k : ℕ) → slice_index result k < 2 ^ 32 }
    {
        let words = image.words.items();
        prove!(words.len() <= MAX_IMAGE_WORDS);
        BuiltImage { image }
    }

    /// The listing of the image. `Memory` is want of memory.
    pub fn listing(&self, alloc: Global) -> Result<Bytes, Memory>
        ensures { IfOk result (λ text. text ≡ listing self.now) }
    {
        list(alloc, &self.image)
    }
}

/// The build of a checked program, in this form and with pages of so many bytes.
///
/// # Errors
/// The refusal `Long` at 0, exactly where the image has more than 200,000 words; `Memory` is want of memory.
pub fn compile(alloc: Global, program: &Checked, form: Form, page: u32) -> Result<Build, Stop>
    requires page { IsPage page }
    ensures compiled { IfOk result (IsCompiled program.now form page) }
    ensures stop { IfErr result (IsStopOfBuild program.now form page) }
{
    let build = make(alloc, program, form, page)?;
    Ok(build)
}
