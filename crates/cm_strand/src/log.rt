//! The log of a strand: what it printed, and the holes for its children.
ghost use Rattle.std.specs.Prelude.{◌≡◌, ◌<◌, ℕ, List, ◌∷◌, [], Bool, Some, true, false, vec_len, slice_get, set, OnOk, OnErr, IfOk};
ghost use Rattle.cm_meaning.specs.Ended.{end_of, IsFilled};
ghost use Rattle.cm_meaning.specs.End.{End};
ghost use Rattle.cm_meaning.specs.Output.{hole_at, Open};
ghost use Rattle.cm_meaning.specs.Piece.{IsDone};
ghost use Rattle.cm_strand.specs.Owned.{Owned};
ghost use Rattle.cm_strand.specs.Turn.{HoleAt, fill};
ghost use Rattle.cm_strand.specs.declared.log.Hole as code_hole;
ghost use Rattle.cm_strand.specs.Strand.{hole_count};
ghost use Rattle.cm_strand.specs.Strand as paper;
ghost use Rattle.cm_strand.specs.Seen.{IsLog, LogOf, end_filling, fresh_hole, pieced};

use cm_meaning::{Ended, Output, Trap};
use cm_text::Memory;
use std::alloc::Global;

/// What fills a hole. The printed numbers of a child stand in the output, and its value went to its destination.
#[derive(Clone, Copy, Debug, PartialEq, Eq)]
pub(crate) enum Filling {
    /// Nothing yet.
    Empty,
    /// A child that ended by a value.
    Done {
        /// Its ticks.
        ticks: u32,
        /// Whether they were taken from those that are left.
        paid: bool,
    },
    /// A child that ended by a trap.
    Trapped {
        /// Which trap it is.
        kind: Trap,
        /// Its ticks.
        ticks: u32,
    },
    /// A child that would have taken too many ticks.
    Spent,
}

/// A hole for the end of a child.
#[derive(Clone, Copy, Debug, PartialEq, Eq)]
pub(crate) struct Hole {
    /// The strand's own ticks at the spawn.
    pub(crate) used: u32,
    /// The address of the destination, or 0.
    pub(crate) target: u32,
    /// What fills it.
    pub(crate) filling: Filling,
}

/// The printed numbers and the holes of a strand, in serial order.
#[derive(Debug, Drop)]
pub(crate) struct Log {
    /// The numbers and the holes.
    pub(crate) output: Output,
    /// What else is known of the holes.
    pub(crate) holes: Vec<Hole>,
    /// The ticks of holes that were taken, at most 2^32 - 1.
    pub(crate) paid: u32,
}

impl Log {
    /// The empty log, which takes no memory yet.
    pub(crate) fn new(alloc: Global) -> Log
        ensures { IsLog result [] }
    {
        Log {
            output: Output::new(alloc),
            holes: Vec::new(alloc),
            paid: 0,
        }
    }

    /// Puts a number last. At `Memory` the log is as before.
    pub(crate) fn number(&mut self, number: i32) -> Result<(), Memory>
        ensures ok { OnOk result (LogOf self.old (λ log. IsLog self.new (paper.number number ∷ log))) }
        ensures err { OnErr result (self.new ≡ self.old) }
    {
        self.output.number(number)?;
        Ok(())
    }

    /// Puts a new hole last, and answers its number. At `Memory` the log is as before.
    pub(crate) fn hole(&mut self, used: u32, target: u32) -> Result<u32, Memory>
        ensures number { IfOk result (λ number. LogOf self.old (λ log. number ≡ hole_count log)) }
        ensures ok { OnOk result (LogOf self.old (λ log. (request : paper.Request) → IsLog self.new (paper.hole (fresh_hole used target request) ∷ log))) }
        ensures err { OnErr result (LogOf self.old (IsLog self.new)) }
    {
        self.holes.reserve(1)?;
        let number = self.output.hole()?;
        self.holes.push_reserved(Hole {
            used,
            target,
            filling: Filling::Empty,
        });
        Ok(number)
    }

    /// Fills an empty hole with the end of its child. Each hole of the end's output has to be filled.
    pub(crate) fn fill(&mut self, hole: u32, ended: Ended)
        requires hole { (log : List paper.Entry) × (H : paper.Hole) × IsLog self.old log × HoleAt log hole H × (H.filling ≡ paper.empty) }
        requires ended { IsFilled ended }
        ensures { LogOf self.old (λ log. (H : paper.Hole) (aside : Owned) → HoleAt log hole H → H.filling ≡ paper.empty
            → IsLog self.new (fill log hole (end_of ended) false aside)) }
    {
        let filling = self.piece(hole, ended);
        put_filling(&mut self.holes, hole, filling);
    }

    /// The ticks of a hole that a `Done` child filled are taken; answers how many they are.
    pub(crate) fn pay(&mut self, hole: u32) -> u32
        requires { (log : List paper.Entry) × (H : paper.Hole) × (e : End) × (aside : Owned) × IsLog self.old (fill log hole e false aside)
            × HoleAt log hole H × (H.filling ≡ paper.empty) × IsDone e }
        ensures { (log : List paper.Entry) (H : paper.Hole) (e : End) (aside : Owned) → IsLog self.old (fill log hole e false aside)
            → HoleAt log hole H → H.filling ≡ paper.empty → IsDone e
            → IsLog self.new (fill log hole e true aside) × (result ≡ paper.done_ticks e) }
    {
        let ticks = ticks_of(&self.holes[hole as usize].filling);
        put_filling(&mut self.holes, hole, Filling::Done { ticks, paid: true });
        self.paid = self.paid.saturating_add(ticks);
        ticks
    }

    /// Puts what a child printed into its hole, and answers what fills the hole besides.
    fn piece(&mut self, hole: u32, ended: Ended) -> Filling
        requires hole { hole_at hole self.old.output ≡ Some Open }
        requires ended { IsFilled ended }
        ensures filling { result ≡ end_filling (end_of ended) false }
        ensures output { self.new ≡ record self.old { output = pieced hole (end_of ended) self.old.output } }
    {
        match ended {
            Ended::Done { output, ticks, .. } => {
                self.output.fill(hole, output);
                Filling::Done { ticks, paid: false }
            }
            Ended::Trap {
                output,
                kind,
                ticks,
            } => {
                self.output.fill(hole, output);
                Filling::Trapped { kind, ticks }
            }
            Ended::Spent => Filling::Spent,
        }
    }
}

/// Another filling for the hole of this number, which has to be there.
fn put_filling(holes: &mut Vec<Hole>, hole: u32, filling: Filling)
    requires { hole < vec_len holes.old }
    ensures { (h : code_hole.Hole) → slice_get holes.old.items hole ≡ Some h
        → holes.new.items ≡ set holes.old.items hole (record h { filling = filling }) }
{
    holes[hole as usize].filling = filling;
}

/// The ticks of an end by a value, and else 0.
fn ticks_of(filling: &Filling) -> u32
    ensures { (e : End) (paid : Bool) → filling.now ≡ end_filling e paid → result ≡ paper.done_ticks e }
{
    match filling {
        Filling::Done { ticks, .. } => *ticks,
        _ => 0,
    }
}
