//! From a source to its program, and to the build of it.
ghost use Rattle.std.specs.Prelude.{IfOk, IfErr};
ghost use Rattle.cilkm.specs.declared.command.Command.TheVariants as commands;
ghost use Rattle.cilkm.specs.Source.{HasProgram, HasAccepted, BuildsAs, CompilesAs, IsStopOf};
ghost use Rattle.cm_maps.specs.Pages.{IsPage};

use crate::built::{BuiltImage, compile};
use crate::refusal::Stop;
use cm_gen::{Build, Form};
use cm_lend::check;
use cm_names::resolve;
use cm_reader::read;
use cm_syntax::{Checked, Program};
use std::alloc::Global;

/// The program of a source, which obeys the lending rule: it is read, its names are resolved, and it is checked.
///
/// # Errors
/// The refusal of the source at its offset, exactly there; `Memory` is want of memory.
pub fn check_source(alloc: Global, source: &[u8]) -> Result<Checked, Stop>
    ensures program { IfOk result (HasAccepted source.now) }
    ensures stop { IfErr result (IsStopOf commands.Check source.now) }
{
    let program = program_of(alloc, source)?;
    let checked = check(alloc, program)?;
    Ok(checked)
}

/// The build of a source's program, in this form and with pages of so many bytes: the source is checked, and its program
/// is compiled.
///
/// # Errors
/// The refusal of the source at its offset, exactly there, or `Long` at 0 exactly where its image has more than 200,000
/// words; `Memory` is want of memory.
pub fn compile_source(alloc: Global, source: &[u8], form: Form, page: u32) -> Result<Build, Stop>
    requires page { IsPage page }
    ensures compiled { IfOk result (CompilesAs source.now form page) }
    ensures stop { IfErr result (IsStopOf (commands.Build form page) source.now) }
{
    let checked = check_source(alloc, source)?;
    let _program = checked.program();
    compile(alloc, &checked, form, page)
}

/// The image of a source's program, in this form and with pages of so many bytes.
///
/// # Errors
/// As of `compile_source`.
pub fn build_source(alloc: Global, source: &[u8], form: Form, page: u32) -> Result<BuiltImage, Stop>
    requires page { IsPage page }
    ensures image { IfOk result (BuildsAs source.now form page) }
    ensures stop { IfErr result (IsStopOf (commands.Build form page) source.now) }
{
    let Build { image, .. } = compile_source(alloc, source, form, page)?;
    Ok(BuiltImage::of(image))
}

/// The program of a source.
fn program_of(alloc: Global, source: &[u8]) -> Result<Program, Stop>
    ensures program { IfOk result (HasProgram source.now) }
    ensures stop { IfErr result (IsStopOf commands.Check source.now) }
{
    let tree = read(alloc, source)?;
    let program = resolve(alloc, tree)?;
    Ok(program)
}
