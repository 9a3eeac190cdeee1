//! The end of a strand.
ghost use Rattle.std.specs.Prelude.{◌≡◌, ◌+◌, ◌≤◌, ◌^◌, ℕ, List, [], min, length, IsSome};
ghost use Rattle.std.specs.Int.{w32, cast_signed};
ghost use Rattle.cm_isa.specs.declared.convention.TheConstants as reg;
ghost use Rattle.cm_meaning.specs.Ended as ended;
ghost use Rattle.cm_meaning.specs.End as end;
ghost use Rattle.cm_meaning.specs.Piece as piece;
ghost use Rattle.cm_meaning.specs.Output.{numbers_of, open_count, cut_at, hole_at};
ghost use Rattle.cm_strand.specs.Strand as paper;
ghost use Rattle.cm_strand.specs.Turn as turn;
ghost use Rattle.cm_strand.specs.Seen.{IsStrand, StrandOf, output_of, course_of};
ghost use Rattle.cm_strand.specs.Fall.{FallIs, fall_from, most};
ghost use Rattle.cm_strand.specs.declared.ending.Fall.TheVariants as fall_;

use crate::log::{Filling, Hole, Log};
use crate::strand::{Course, Strand};
use cm_isa::convention::RESULT;
use cm_meaning::{Ended, Output, Trap};

/// What the children of a log come to, in serial order.
#[derive(Clone, Copy, Debug, PartialEq, Eq)]
pub(crate) enum Fall {
    /// All are `Done`, with so many ticks together.
    None(u64),
    /// The child of this hole is the first that isn't `Done`: trapped, after so many ticks of the serial order.
    Trapped(u32, Trap, u64),
    /// The first child that isn't `Done` is spent.
    Spent,
}

/// The end of a strand that is ending or at its end service, where no scope is open and every hole is filled: the first child
/// that isn't `Done` decides, and else the strand's own end; it is spent where it took more ticks than there were.
pub fn resolve(strand: Strand) -> Ended
    requires { (S : paper.Strand) × IsStrand strand S × (S.scopes ≡ []) × turn.AllFilled S.log }
    ensures end { StrandOf strand (λ S. turn.AllFilled S.log → ended.end_of result ≡ turn.end_of S (cast_signed w32 (S.registers reg.RESULT))) }
    ensures filled { ended.IsFilled result }
{
    let own = strand.used();
    let value = strand.hart.regs.get(RESULT).cast_signed();
    let Strand {
        start,
        log,
        course,
        ..
    } = strand;
    let Log { output, holes, .. } = log;
    let fall = first_fall(holes.as_slice());
    decide(start, own, fall, course, value, output)
}

/// The end, by what the children come to and else by the strand's own end.
fn decide(start: u32, own: u32, fall: Fall, course: Course, value: i32, output: Output) -> Ended
    requires { (log : List paper.Entry) × (output ≡ output_of log) × FallIs fall log }
    ensures end { (log : List paper.Entry) → output ≡ output_of log → FallIs fall log
        → ended.end_of result ≡ turn.decided start own (turn.entries_sum log) (turn.own_end (course_of course) value) }
    ensures filled { ended.IsFilled result }
{
    match fall {
        Fall::Spent => Ended::Spent,
        Fall::Trapped(hole, kind, ticks) => child_end(start, hole, kind, ticks, output),
        Fall::None(children) => {
            let ticks = u64::from(own).saturating_add(children);
            own_end(start, ticks, course, value, output)
        }
    }
}

/// The end by a child that trapped after so many ticks: what stands behind its hole isn't printed.
fn child_end(start: u32, hole: u32, kind: Trap, ticks: u64, output: Output) -> Ended
    requires hole { IsSome (hole_at hole output) }
    requires filled { open_count (cut_at hole output) ≡ 0 }
    ensures end { (n : ℕ) → ticks ≡ min n most
        → ended.end_of result ≡ turn.within_start start n (end.Trapped (numbers_of (cut_at hole output)) (ended.trap_of kind) n) }
    ensures filled { ended.IsFilled result }
{
    if ticks > u64::from(start) {
        return Ended::Spent;
    }
    let mut output = output;
    output.cut(hole);
    let ticks = ticks as u32;
    Ended::Trap {
        output,
        kind,
        ticks,
    }
}

/// The strand's own end, after so many ticks.
fn own_end(start: u32, ticks: u64, course: Course, value: i32, output: Output) -> Ended
    requires filled { open_count output ≡ 0 }
    ensures end { (own n : ℕ) → ticks ≡ min (own + n) most
        → ended.end_of result ≡ turn.decided start own (piece.going (numbers_of output) n) (turn.own_end (course_of course) value) }
    ensures filled { ended.IsFilled result }
{
    if ticks > u64::from(start) {
        return Ended::Spent;
    }
    let ticks = ticks as u32;
    match course {
        Course::Going => Ended::Done {
            output,
            value,
            ticks,
        },
        Course::Ending(Some(kind)) => Ended::Trap {
            output,
            kind,
            ticks,
        },
        Course::Ending(None) => Ended::Spent,
    }
}

/// The first child that isn't `Done`.
#[tactic(auto, using(crate::proofs::FallLaw::stays_trapped, crate::proofs::FallLaw::stays_spent))]
fn first_fall(holes: &[Hole]) -> Fall
    requires { length holes.now ≤ 2 ^ 32 }
    ensures { result ≡ fall_from 0 (fall_.None 0) holes.now }
{
    let mut ticks: u64 = 0;
    for index in 0..holes.len() {
        let hole = holes[index];
        match hole.filling {
            Filling::Done { ticks: more, .. } => ticks = ticks.saturating_add(u64::from(more)),
            Filling::Trapped { kind, ticks: more } => {
                let before = ticks.saturating_add(u64::from(hole.used));
                let all = before.saturating_add(u64::from(more));
                return Fall::Trapped(index as u32, kind, all);
            }
            Filling::Spent => return Fall::Spent,
            Filling::Empty => return Fall::Spent,
        }
    }
    Fall::None(ticks)
}
