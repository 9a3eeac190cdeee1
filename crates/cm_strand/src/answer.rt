//! The ends of children come to their parent.
ghost use Rattle.std.specs.Prelude.{◌≡◌, ◌≤◌, ◌<◌, ◌+◌, ◌^◌, ◌↔◌, Some, true, false};
ghost use Rattle.cm_isa.specs.declared.convention.TheConstants as reg;
ghost use Rattle.cm_meaning.specs.End.{End};
ghost use Rattle.cm_meaning.specs.Ended.{end_of, IsFilled};
ghost use Rattle.cm_meaning.specs.Piece.{IsDone};
ghost use Rattle.cm_strand.specs.Owned.{Owned};
ghost use Rattle.cm_strand.specs.Strand as paper;
ghost use Rattle.cm_strand.specs.Turn as turn;
ghost use Rattle.cm_strand.specs.Seen.{course_of, IsStrand, PopsFallen, StrandOf, chain_of};

use crate::strand::{Course, Strand, read_registers};
use cm_isa::convention::{SP, TICKS};
use cm_meaning::Ended;

/// Fills an empty hole with the end of its child. The hole has to be there and empty, and each hole of the end's output
/// filled.
pub fn merge(strand: &mut Strand, hole: u32, ended: Ended)
    requires hole { (S : paper.Strand) × (H : paper.Hole) × IsStrand strand.old S × turn.HoleAt S.log hole H × (H.filling ≡ paper.empty) }
    requires ended { IsFilled ended }
    ensures strand { StrandOf strand.old (λ S. (H : paper.Hole) (aside words : Owned) → turn.HoleAt S.log hole H → H.filling ≡ paper.empty
        → IsStrand strand.new (turn.collect S hole (end_of ended) aside words)) }
    ensures chain { chain_of strand.new ≡ chain_of strand.old }
{
    strand.log.fill(hole, ended);
}

impl Strand {
    /// The ticks of a hole are taken from x4, as of a popped child. A `Done` child has to have filled it, its ticks not to be
    /// taken yet, and to fit x4.
    pub fn pay(&mut self, hole: u32)
        requires { (S : paper.Strand) × (H : paper.Hole) × (e : End) × (aside words : Owned)
            × IsStrand self.old (turn.collect S hole e aside words) × turn.HoleAt S.log hole H × (H.filling ≡ paper.empty)
            × IsDone e × (paper.done_ticks e ≤ S.registers reg.TICKS) }
        ensures strand { (S : paper.Strand) (H : paper.Hole) (e : End) (aside words : Owned)
            → IsStrand self.old (turn.collect S hole e aside words) → turn.HoleAt S.log hole H → H.filling ≡ paper.empty
            → IsDone e → S.course ≡ paper.going → IsStrand self.new (turn.pop S hole e aside words) }
        ensures chain { chain_of self.new ≡ chain_of self.old }
    {
        read_registers(&self.hart);
        let ticks = self.log.pay(hole);
        let left = self.hart.regs.get(TICKS);
        self.hart.regs.set(TICKS, left - ticks);
    }
}

/// A child that ended otherwise than by a value is popped by `merge` and `Strand::fail` for want of ticks.
pub fn fallen_children_end_their_parent()
    ensures { PopsFallen }
{}

/// Joins the children of the innermost scope, all holes of which have to be filled. It is true where all of them are `Done`
/// and their ticks fit: then the scope is closed, the ticks are taken, and x2 is the low end of the scope. Otherwise the
/// scope is closed and the strand is ending, by want of ticks or as it was about to.
pub fn join(strand: &mut Strand) -> bool
    requires { (S : paper.Strand) × (s : paper.Scope) × IsStrand strand.old S × (turn.first_scope S.scopes ≡ Some s)
        × turn.AllFilledFrom s.first S.log × (s.first ≤ paper.hole_count S.log) }
    ensures joined { result ≡ true → StrandOf strand.old (λ S. (s : paper.Scope) (words : Owned) → turn.first_scope S.scopes ≡ Some s
        → S.counter + 4 < 2 ^ 32 → IsStrand strand.new (turn.join S s words)) }
    ensures broken { result ≡ false → StrandOf strand.old (λ S. IsStrand strand.new (turn.broken S)) }
    ensures which { StrandOf strand.old (λ S. (s : paper.Scope) → turn.first_scope S.scopes ≡ Some s
        → (result ≡ true) ↔ (turn.AllFilledDone s.first S.log × (turn.unpaid s.first S.log ≤ S.registers reg.TICKS))) }
    ensures chain { chain_of strand.new ≡ chain_of strand.old }
{
    let scope = strand.scopes.pop().unwrap();
    let left = strand.hart.regs.get(TICKS);
    match strand.log.due(scope.first, left) {
        Some(due) => {
            strand.log.take_due(scope.first, due);
            strand.hart.regs.set(TICKS, left - due);
            strand.hart.regs.set(SP, scope.low);
            strand.hart.reply(None);
            true
        }
        None => {
            strand.course = stopped(strand.course);
            false
        }
    }
}

/// The course behind a join that doesn't fit.
fn stopped(course: Course) -> Course
    ensures { course_of result ≡ turn.stopped_course (course_of course) }
{
    match course {
        Course::Going => Course::Ending(None),
        Course::Ending(kind) => Course::Ending(kind),
    }
}
