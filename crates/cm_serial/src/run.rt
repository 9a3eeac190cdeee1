//! The run of a program's image: a loop of single steps, with the services of the environment.
ghost use Rattle.std.specs.Prelude.{◌≡◌, ◌≢◌, ◌≤◌, [], ℕ, All, FitsSigned, IfOk, length, slice_index};
ghost use Rattle.std.specs.Int.{w32};
ghost use Rattle.cm_isa.specs.Address.{InstructionAt};
ghost use Rattle.cm_isa.specs.Register.{IsRegisters};
ghost use Rattle.cm_isa.specs.declared.convention.TheConstants as reg;
ghost use Rattle.cm_syntax.specs.Fault.{IsSoundProgram};
ghost use Rattle.cm_meaning.specs.End.{End};
ghost use Rattle.cm_meaning.specs.Ended.{end_of, limits_of};
ghost use Rattle.cm_meaning.specs.Meaning.{SerialEnd};
ghost use Rattle.cm_meaning.specs.Range.{HasRanges, max_input_numbers};
ghost use Rattle.cm_meaning.specs.Output.{numbers_of};
ghost use Rattle.cm_hart.specs.Step.{hart_machine};
ghost use Rattle.cm_gen.specs.declared.form.Form.TheVariants.{Serial};
ghost use Rattle.cm_gen.specs.Build.{IsBuild, max_image_words};
ghost use Rattle.cm_gen.specs.Image.{image_of};
ghost use Rattle.cm_serial.specs.Run.{RunEnds, StopsAs, IsSteps};
ghost use Rattle.cm_serial.specs.Stack.{stack_view};
ghost use Rattle.cm_serial.specs.Service.{answer_at};
ghost use Rattle.cm_serial.specs.Turn.{DoneAt, Leaves};
ghost use Rattle.cm_serial.specs.declared.service.Answer.TheVariants as answer;

use crate::law::images_run_as_elisions;
use crate::service::{Answer, Stop, answer_to};
use crate::stack::{Stack, first_regs};
use cm_gen::{Build, sound_programs_fit};
use cm_hart::{Code, Halt, Hart, step};
use cm_isa::convention::{RESULT, TICKS, VALUE};
use cm_meaning::{Ended, Limits, Output, sound_programs_end};
use cm_text::Memory;
use std::alloc::Global;

/// A serial run that is at its end.
#[derive(Debug, Drop)]
pub struct Served {
    /// How it ended.
    pub ended: Ended,
    /// The number of its instructions, with the service that ended it.
    pub steps: u64,
}

/// Runs a program's serial build on one hart, from its start to the service that ends it: the end is that of the serial
/// elision of the program, with output, value or trap, and ticks. Limits and input have to be in their ranges, as for
/// `elide`, and the page is that of the build. `Memory` is want of memory, also where a run has more than 2^64 - 1 steps.
/// The words of the stack and the instructions are taken once, and a step takes no memory but for a print.
pub fn serial(
    alloc: Global,
    build: &Build,
    input: &[i32],
    limits: &Limits,
) -> Result<Served, Memory>
    requires build { IsBuild build.now.made.value Serial limits.now.page build.now }
    requires sound { IsSoundProgram build.now.made.value }
    requires short { length (image_of build.now.made.value Serial limits.now.page) ≤ max_image_words }
    requires input { length input.now ≤ max_input_numbers }
    requires limits { HasRanges (limits_of limits.now) }
    ensures ended { IfOk result (λ served. SerialEnd build.now.made.value input.now (limits_of limits.now) (end_of served.ended)) }
    ensures steps { IfOk result (λ served. IsSteps build.now.made.value input.now (limits_of limits.now) served.steps) }
{
    images_run_as_elisions();
    sound_programs_end();
    sound_programs_fit();
    read_all(input);
    let code = Code::of(alloc, &build.image)?;
    let account = limits.stack * limits.page;
    let mut stack = Stack::new(alloc, account as usize / 4)?;
    let mut hart = Hart {
        regs: first_regs(account, limits.ticks),
        pc: 8 + 4 * build.main,
    };
    let served = run(alloc, &code, &mut hart, &mut stack, input, limits.ticks)?;
    Ok(served)
}

/// Goes on to the end of the run, and counts the steps.
fn run(
    alloc: Global,
    code: &Code,
    hart: &mut Hart,
    stack: &mut Stack,
    input: &[i32],
    ticks: u32,
) -> Result<Served, Memory>
    requires input { length input.now ≤ max_input_numbers }
    requires run { (e : End) × (steps : ℕ) × RunEnds (InstructionAt code.now) input.now ticks (hart_machine (stack_view stack.old) hart.old) [] steps e }
    ensures { IfOk result (λ served. (e : End) (steps : ℕ)
        → RunEnds (InstructionAt code.now) input.now ticks (hart_machine (stack_view stack.old) hart.old) [] steps e
        → (end_of served.ended ≡ e) × (served.steps ≡ steps)) }
{
    let mut output = Output::new(alloc);
    'run: for before in 0..u64::MAX {
        if let Some(stop) = turn(code, hart, stack, &mut output, input)? {
            return Ok(Served {
                ended: ended(stop, hart, output, ticks),
                steps: before + 1,
            });
        }
    }
    Err(Memory)
}

/// Does one step: the instruction at the pc, or the service that it asks for. Where the run is stopped, the answer tells how.
#[inline(always)]
fn turn(
    code: &Code,
    hart: &mut Hart,
    stack: &mut Stack,
    output: &mut Output,
    input: &[i32],
) -> Result<Option<Stop>, Memory>
    requires input { length input.now ≤ max_input_numbers }
    requires run { (ticks : ℕ) × (e : End) × (steps : ℕ)
        × RunEnds (InstructionAt code.now) input.now ticks (hart_machine (stack_view stack.old) hart.old) (numbers_of output.old) steps e }
    ensures { IfOk result (λ stop. (ticks : ℕ) (e : End) (steps : ℕ)
        → RunEnds (InstructionAt code.now) input.now ticks (hart_machine (stack_view stack.old) hart.old) (numbers_of output.old) steps e
        → Leaves (InstructionAt code.now) input.now ticks stop (hart_machine (stack_view stack.new) hart.new) (numbers_of output.new) steps e) }
{
    match step(hart, code, stack) {
        Halt::Going => Ok(None),
        Halt::Service(service) => {
            let stop = serve(service, hart, output, input)?;
            Ok(stop)
        }
        Halt::PageFault { .. } => unreachable!(),
        Halt::Fault { .. } => unreachable!(),
    }
}

/// Does what the environment does at the service of this number.
fn serve(
    service: u32,
    hart: &mut Hart,
    output: &mut Output,
    input: &[i32],
) -> Result<Option<Stop>, Memory>
    requires input { length input.now ≤ max_input_numbers }
    requires known { answer_at input.now service (slice_index hart.old.regs reg.VALUE) ≢ answer.Nothing }
    ensures done { IfOk result (λ done. DoneAt (answer_at input.now service (slice_index hart.old.regs reg.VALUE)) done hart.old hart.new output.old output.new) }
    ensures registers { IsRegisters hart.old.regs }
{
    let value = hart.regs.get(VALUE);
    match answer_to(service, value, input) {
        Answer::Prints => {
            output.number(value.cast_signed())?;
            hart.reply(None);
            Ok(None)
        }
        Answer::Replies(word) => {
            hart.reply(Some(word));
            Ok(None)
        }
        Answer::Stops(stop) => Ok(Some(stop)),
        Answer::Nothing => unreachable!(),
    }
}

/// The end of a run that is stopped so.
fn ended(stop: Stop, hart: &Hart, output: Output, ticks: u32) -> Ended
    requires { (e : End) × StopsAs ticks stop (numbers_of output) (slice_index hart.now.regs) e }
    ensures { (e : End) → StopsAs ticks stop (numbers_of output) (slice_index hart.now.regs) e → end_of result ≡ e }
{
    match stop {
        Stop::Value => Ended::Done {
            output,
            value: hart.regs.get(RESULT).cast_signed(),
            ticks: ticks - hart.regs.get(TICKS),
        },
        Stop::Trap(kind) => Ended::Trap {
            output,
            kind,
            ticks: ticks - hart.regs.get(TICKS),
        },
        Stop::Spent => Ended::Spent,
    }
}

/// Reads the numbers, so that contracts know that each is a word of 32 bits.
fn read_all(input: &[i32])
    ensures { All (FitsSigned w32) input.now }
{
    'numbers: for index in 0..input.len() {
        let _number = input[index];
    }
}
