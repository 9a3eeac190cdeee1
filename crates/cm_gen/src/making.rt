//! The build of a program: its image, with what the layers above want to know of it.
#![tactic(auto)]

ghost use Rattle.std.specs.Prelude.{◌≡◌, ◌+◌, ◌*◌, ◌<◌, ◌≤◌, ◌^◌, ◌%◌, ◌++◌, length, IfOk, ℕ, Err};
ghost use Rattle.cm_isa.specs.Address.{AreWordsOf};
ghost use Rattle.cm_gen.specs.Image as image;
ghost use Rattle.cm_maps.specs.Pages.{IsPage};
ghost use Rattle.cm_gen.specs.Build.{IsBuild, max_image_words};
ghost use Rattle.cm_gen.specs.Fits as fits;
ghost use Rattle.cm_gen.specs.Builder as builder;
ghost use Rattle.cm_gen.specs.Part.{laid};
ghost use Rattle.cm_gen.specs.declared.making.GenRefusal.TheVariants as refusal;
ghost use Rattle.cm_syntax.specs.Limit.{max_functions};

use crate::build::{Build, MAX_IMAGE_WORDS};
use crate::builder::CodeBuilder;
use crate::form::Form;
use crate::front::{Front, end_service, frames, parameters, table};
use crate::function_code::{functions, program_code};
use crate::laying::{assemble_code, lay};
use cm_asm::Image;
use cm_syntax::{Checked, Program};
use cm_text::{List, Memory};
use std::alloc::Global;
use std::snapshot::Snapshot;

/// How many words the code of the functions has that aren't marked `cilk`.
fn serial_size(alloc: Global, page: u32, value: &Program) -> Result<usize, Memory>
    requires fits { fits.FunctionsFit value.now.functions }
    requires page { page ≤ 2 ^ 16 }
    ensures { IfOk result (λ words. words ≡ length (image.serial_code value.now page)) }
{
    let mut code = CodeBuilder::new(alloc);
    functions(
        alloc,
        &mut code,
        Form::Serial,
        page,
        false,
        value.functions.items(),
    )?;
    Ok(code.len())
}

/// The addresses of a program's functions, and what stands before the functions, where the last one that isn't marked
/// `cilk` ends at `serial_end`.
fn front(
    alloc: Global,
    form: Form,
    page: u32,
    serial_end: u32,
    value: &Program,
) -> Result<Front, Memory>
    requires fits { fits.FunctionsFit value.now.functions }
    requires few { length value.now.functions ≤ max_functions }
    requires page { page ≤ 2 ^ 16 }
    requires end { serial_end ≡ image.serial_end value.now page }
    requires room { image.HaveRoom form page (image.functions_start value.now) serial_end value.now.functions }
    ensures entries { IfOk result (λ front. front.entries ≡ image.entries value.now form page) }
    ensures code { IfOk result (λ front. front.code ≡ image.front_of value.now form page) }
{
    let start = 8 + 4 * value.functions.len() as u32;
    let mut code = List::new(alloc);
    end_service(&mut code)?;
    let mut front = Front {
        entries: List::new(alloc),
        code,
    };
    table(
        alloc,
        &mut front,
        form,
        page,
        8,
        start,
        serial_end,
        value.functions.items(),
    )?;
    Ok(front)
}

/// The words of an image, of what stands before the functions and of their code.
fn join(alloc: Global, front: &Front, code: &CodeBuilder, start: u32) -> Result<List<u32>, Memory>
    requires length { length code.now ≤ max_image_words }
    requires calls { builder.AreCallsWithin (2 ^ 16) code.now }
    requires start { (start ≤ 2 ^ 12) × (start % 4 ≡ 0) }
    ensures { IfOk result (λ words. AreWordsOf words (front.now.code ++ laid start code.now)) }
{
    let mut words = assemble_code(alloc, front.code.items())?;
    let later = lay(alloc, code, start)?;
    words.append(later.items())?;
    Ok(words)
}

/// The build of a program, by the code of its functions.
#[tactic(auto, using(crate::proofs::images::MakingLaw::fits_of, crate::proofs::images::MakingLaw::few_of))]
fn build_of(
    alloc: Global,
    program: &Checked,
    form: Form,
    page: u32,
    code: &CodeBuilder,
) -> Result<Build, Memory>
    requires page { page ≤ 2 ^ 16 }
    requires code { code.now ≡ image.program_code program.now form page }
    requires length { length code.now ≤ max_image_words }
    requires calls { builder.AreCallsWithin (2 ^ 16) code.now }
    requires room { image.HaveRoom form page (image.functions_start program.now) (image.serial_end program.now page) program.now.functions }
    ensures { IfOk result (λ build. IsBuild program.now form page build) }
{
    let value = program.program();
    let list = value.functions.items();
    let start = 8 + 4 * list.len() as u32;
    let serial_end = start + 4 * serial_size(alloc, page, value)? as u32;
    let front = front(alloc, form, page, serial_end, value)?;
    let words = join(alloc, &front, code, start)?;
    let frames = frames(alloc, list)?;
    let parameters = parameters(alloc, list)?;
    Ok(Build {
        image: Image { words },
        form,
        page,
        main: value.main,
        entries: front.into_entries(),
        frames,
        parameters,
        serial_end,
        made: Snapshot::of(program),
    })
}

/// Why no build is made.
#[derive(Clone, Copy, Debug, PartialEq, Eq)]
pub enum GenRefusal {
    /// The image would have so many words, which are more than 200,000.
    Long {
        /// The words that it would have.
        words: u32,
    },
    /// There was no memory left.
    Memory,
}

impl From<Memory> for GenRefusal {
    ghost from_gives = { λ error stop. stop ≡ refusal.Memory };

    fn from(_error: Memory) -> GenRefusal {
        GenRefusal::Memory
    }
}

/// The build of a checked program, in this form and with pages of so many bytes.
///
/// `Long` comes only where the image would have more than 200,000 words, and no build has more. Its time grows as the
/// words of the image do.
#[tactic(auto, using(crate::proofs::images::MakingLaw::fits_of, crate::proofs::images::MakingLaw::few_of, crate::proofs::sizes::WithinLaw::sound_calls, crate::proofs::images::ImageLaw::room_of))]
pub fn make(alloc: Global, program: &Checked, form: Form, page: u32) -> Result<Build, GenRefusal>
    requires page { IsPage page }
    ensures made { IfOk result (λ build. IsBuild program.now form page build) }
    ensures short { IfOk result (λ build. length (image.image_of program.now form page) ≤ max_image_words) }
    ensures long { (words : ℕ) → result ≡ Err (refusal.Long words)
        → (words ≡ length (image.image_of program.now form page)) × (max_image_words < words) }
{
    let value = program.program();
    let code = program_code(alloc, form, page, value)?;
    let words = 2 + value.functions.len() as u64 + code.size();
    if words > MAX_IMAGE_WORDS as u64 {
        return Err(GenRefusal::Long {
            words: words as u32,
        });
    }
    let build = build_of(alloc, program, form, page, &code)?;
    Ok(build)
}
