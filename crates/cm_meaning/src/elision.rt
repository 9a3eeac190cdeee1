//! The end of the serial elision, and what it takes of the stack: the two loops around the single step.
ghost use Rattle.std.specs.Prelude.{◌≡◌, ◌≤◌, ◌*◌, IfOk, IfSome, MatchOption, [], length};
ghost use Rattle.cm_syntax.specs.Fault.{IsSoundProgram};
ghost use Rattle.cm_syntax.specs.Lending.{IsAccepted};
ghost use Rattle.cm_meaning.specs.End.{End};
ghost use Rattle.cm_meaning.specs.Ended.{end_of, limits_of, IsFilled};
ghost use Rattle.cm_meaning.specs.Meaning.{SerialEnd, ForkEnd};
ghost use Rattle.cm_meaning.specs.Measure.{IsSerialPages, IsCilkDepth, FitPages, FitDepth, cilk_frames, pages_of};
ghost use Rattle.cm_meaning.specs.Output.{open_count};
ghost use Rattle.cm_meaning.specs.Range.{HasRanges, max_input_numbers};
ghost use Rattle.cm_meaning.specs.Layout.{calls_in, room_in};
ghost use Rattle.cm_meaning.specs.Evaluator.{IsKept};
ghost use Rattle.cm_meaning.specs.Progress.{Progress, IsUnderWay, StopsFrom, EndsByValue, HasMost, noted};

use crate::ended::{Ended, Limits, Measure};
use crate::evaluator::Evaluator;
use crate::frames::Frames;
use crate::output::Output;
use crate::work::{Hand, Outcome};
use cm_syntax::{Checked, Program};
use cm_text::Memory;
use std::alloc::Global;

/// The most that a run took of the stack so far.
#[derive(Clone, Copy, Debug)]
struct Most {
    /// The bytes of the whole stack account.
    account: u32,
    /// The greatest sum of frame bytes of live calls.
    bytes: u32,
    /// The greatest number of live calls of functions marked `cilk`.
    depth: u32,
}

/// A run that is at its end.
#[derive(Debug, Drop)]
struct Finished {
    /// How it ended.
    ended: Ended,
    /// What it took of the stack.
    most: Most,
}

/// The end of the serial elision of a program with this input and these limits; fork and join allow it, and no other
/// end. Its output has no open hole. Input and limits have to be in their ranges:
/// ticks from 1 to 100,000,000, stack from 16 to 256 pages, a page of 256, 1024 or 4096 bytes, and at most 65,536
/// numbers. `Memory` is want of memory. The time grows with the ticks that are taken, and between two ticks with the
/// text of a function, its arrays and what a `return` leaves; the memory with the bytes of the stack, the calls that are
/// live and the numbers that are printed.
pub fn elide(
    alloc: Global,
    program: &Checked,
    input: &[i32],
    limits: &Limits,
) -> Result<Ended, Memory>
    requires input { length input.now ≤ max_input_numbers }
    requires limits { HasRanges (limits_of limits.now) }
    ensures serial { IfOk result (λ ended. SerialEnd program.now input.now (limits_of limits.now) (end_of ended)) }
    ensures fork { IfOk result (λ ended. ForkEnd program.now input.now (limits_of limits.now) (end_of ended)) }
    ensures only { IfOk result (λ ended. (e : End) → ForkEnd program.now input.now (limits_of limits.now) e → e ≡ end_of ended) }
    ensures filled { IfOk result IsFilled }
{
    let finished = run(alloc, program, input, limits)?;
    Ok(finished.ended)
}

/// The two numbers that bound the pages of a parallel run: the pages of the greatest sum of frame bytes of live calls
/// in the elision, and the greatest number of live calls of functions marked `cilk`. No piece of the program goes beyond
/// them. None is answered exactly where the elision doesn't end by a value. Input and limits have to be in their ranges, as for `elide`; time and memory are its.
pub fn measure(
    alloc: Global,
    program: &Checked,
    input: &[i32],
    limits: &Limits,
) -> Result<Option<Measure>, Memory>
    requires input { length input.now ≤ max_input_numbers }
    requires limits { HasRanges (limits_of limits.now) }
    ensures pages { IfOk result (λ found. IfSome found (λ m.
        IsSerialPages program.now input.now (limits_of limits.now) m.pages)) }
    ensures depth { IfOk result (λ found. IfSome found (λ m.
        IsCilkDepth program.now input.now (limits_of limits.now) m.depth)) }
    ensures value { IfOk result (λ found. MatchOption found
        (EndsByValue program.now input.now (limits_of limits.now) → ⊥)
        (λ m. EndsByValue program.now input.now (limits_of limits.now))) }
    ensures piece_pages { IfOk result (λ found. IfSome found (λ m.
        FitPages program.now input.now (limits_of limits.now) m.pages)) }
    ensures piece_depth { IfOk result (λ found. IfSome found (λ m.
        FitDepth program.now input.now (limits_of limits.now) m.depth)) }
{
    let finished = run(alloc, program, input, limits)?;
    match finished.ended {
        Ended::Done { .. } => Ok(Some(Measure {
            pages: pages(limits.page, finished.most.bytes),
            depth: finished.most.depth,
        })),
        Ended::Trap { .. } => Ok(None),
        Ended::Spent => Ok(None),
    }
}

/// So many bytes in pages, rounded up.
fn pages(page: u32, bytes: u32) -> u32
    requires { 1 ≤ page }
    ensures { result ≡ pages_of page bytes }
{
    bytes.div_ceil(page)
}

/// Runs the elision to its end, tick by tick.
fn run(alloc: Global, program: &Checked, input: &[i32], limits: &Limits) -> Result<Finished, Memory>
    requires input { length input.now ≤ max_input_numbers }
    requires limits { HasRanges (limits_of limits.now) }
    ensures end { IfOk result (λ finished. SerialEnd program.now input.now (limits_of limits.now) (end_of finished.ended)) }
    ensures most { IfOk result (λ finished. HasMost program.now input.now (limits_of limits.now) finished.ended finished.most) }
    ensures sound { IfOk result (λ finished. IsSoundProgram program.now) }
    ensures accepted { IfOk result (λ finished. IsAccepted program.now) }
    ensures filled { IfOk result (λ finished. IsFilled finished.ended) }
{
    let mut evaluator = Evaluator::new(alloc, program.program(), input, limits)?;
    let mut output = Output::new(alloc);
    let mut most = Most {
        account: evaluator.account,
        bytes: 0,
        depth: 0,
    };
    'ticks: for ticks in 0..limits.ticks + 1 {
        let ended = match evaluator.until_tick(&mut output, &mut most)? {
            Outcome::Tick => continue 'ticks,
            Outcome::Trapped(kind) => Ended::Trap {
                output,
                kind,
                ticks,
            },
            Outcome::Ended(value) => Ended::Done {
                output,
                value,
                ticks,
            },
            Outcome::Going => unreachable!(),
            Outcome::Printed(_) => unreachable!(),
        };
        return Ok(Finished { ended, most });
    }
    Ok(Finished {
        ended: Ended::Spent,
        most,
    })
}

impl Most {
    /// Notes what the live calls take now.
    fn note(&mut self, evaluator: &Evaluator)
        requires kept { IsKept evaluator.now }
        requires page { 1 ≤ evaluator.now.page }
        requires account { self.old.account ≡ 4 * room_in evaluator.now.frames }
        ensures { self.new ≡ noted self.old evaluator.now }
    {
        self.bytes = self.bytes.max(evaluator.frames.used_bytes());
        self.depth = self.depth.max(evaluator.cilk_calls(self.account));
    }
}

impl<'a> Evaluator<'a> {
    /// The first state of a run: the call of main is at hand. It takes the room for all words that the stack account
    /// has bytes for. `Memory` is want of memory.
    fn new(
        alloc: Global,
        program: &'a Program,
        input: &'a [i32],
        limits: &Limits,
    ) -> Result<Evaluator<'a>, Memory>
        requires sound { IsSoundProgram program.now }
        requires input { length input.now ≤ max_input_numbers }
        requires limits { HasRanges (limits_of limits.now) }
        ensures { IfOk result (λ evaluator. Progress
            (record { program = program.now; input = input.now; limits = limits_of limits.now }) evaluator 0 []
            (record { account = evaluator.account; bytes = 0; depth = 0 })) }
    {
        let account = limits.stack * limits.page;
        let frames = Frames::new(alloc, program, account / 4)?;
        Ok(Evaluator {
            program,
            input,
            page: limits.page,
            account,
            hand: Hand::Entering(program.main, 0),
            rest: Vec::new(alloc),
            passed: Vec::new(alloc),
            frames,
        })
    }

    /// Goes on to the next tick, or to the end, and notes what is printed and what the live calls take.
    fn until_tick(&mut self, output: &mut Output, most: &mut Most) -> Result<Outcome, Memory>
        requires { IsUnderWay self.old output.old most.old }
        ensures stops { IfOk result (λ outcome. StopsFrom self.old output.old most.old outcome self.new output.new most.new) }
        ensures open { IfOk result (λ outcome. open_count output.new ≡ open_count output.old) }
    {
        'steps: loop {
            let outcome = self.step()?;
            match outcome {
                Outcome::Going => most.note(self),
                Outcome::Printed(value) => {
                    output.number(value)?;
                    most.note(self);
                }
                Outcome::Tick => {
                    most.note(self);
                    return Ok(outcome);
                }
                Outcome::Trapped(_) => return Ok(outcome),
                Outcome::Ended(_) => return Ok(outcome),
            }
        }
    }

    /// How many live calls are of functions marked `cilk`: each of them has taken a page of the stack account, of which
    /// there were so many bytes.
    fn cilk_calls(&self, account: u32) -> u32
        requires kept { IsKept self.now }
        requires page { 1 ≤ self.now.page }
        requires account { account ≡ 4 * room_in self.now.frames }
        ensures { result ≡ cilk_frames self.now.program.now (calls_in self.now.frames) }
    {
        (account - self.account - self.frames.used_bytes()) / self.page
    }
}
