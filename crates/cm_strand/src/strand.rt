//! A strand: what a worker runs of one piece.
ghost use Rattle.std.specs.Prelude.{◌≡◌, ℕ, ◌+◌, ◌<◌, ◌^◌, ◌-◌, ◌↔◌, ◌≢◌, [], ◌∷◌, List, OnOk, OnErr, IfOk, Option, IsSome, IsTrue, MatchOption, Some, None, vec_len};
ghost use Rattle.cm_isa.specs.Register.{IsRegisters};
ghost use Rattle.cm_maps.specs.Pages.{IsPage};
ghost use Rattle.cm_strand.specs.Strand as paper;
ghost use Rattle.cm_strand.specs.Turn as turn;
ghost use Rattle.cm_strand.specs.Seen.{IsStrand, StrandOf, scope_of, fail_of, chain_of, hart_of};

use crate::log::Log;
use crate::scope::Scope;
use cm_hart::Hart;
use cm_isa::convention::{SP, ZERO};
use cm_maps::Chain;
use cm_meaning::Trap;
use cm_text::Memory;

/// How a strand goes on.
#[derive(Clone, Copy, Debug, PartialEq, Eq)]
pub(crate) enum Course {
    /// On its way.
    Going,
    /// On its way to its end: by a trap, or, for `None`, for want of ticks.
    Ending(Option<Trap>),
}

/// What a worker runs of one piece: a hart, what it printed with holes for the ends of its children, and its open scopes.
/// Contracts see by `IsStrand` which strand on paper it is.
#[derive(Drop)]
pub struct Strand {
    pub(crate) hart: Hart,
    pub(crate) start: u32,
    pub(crate) log: Log,
    pub(crate) scopes: Vec<Scope>,
    pub(crate) course: Course,
    pub(crate) chain: Option<Chain>,
}

impl Strand {
    /// Its hart.
    pub fn hart(&self) -> &Hart
        ensures { result.now ≡ hart_of self.now }
    {
        &self.hart
    }

    /// At a service that goes on: x5 takes the word, where there is one, and the instruction behind the `ecall` is next.
    pub fn reply(&mut self, word: Option<u32>)
        ensures strand { StrandOf self.old (λ S. IsStrand self.new (turn.reply S word)) }
        ensures chain { chain_of self.new ≡ chain_of self.old }
    {
        read_registers(&self.hart);
        self.hart.reply(word);
    }

    /// The strand is ending from now on, by this trap or, for `None`, for want of ticks.
    pub fn fail(&mut self, kind: Option<Trap>)
        ensures strand { StrandOf self.old (λ S. IsStrand self.new (turn.fail S (fail_of kind))) }
        ensures chain { chain_of self.new ≡ chain_of self.old }
    {
        self.course = Course::Ending(kind);
    }

    /// Whether it is ending.
    pub fn ending(&self) -> bool
        ensures { StrandOf self.now (λ S. IsTrue result ↔ (S.course ≢ paper.going)) }
    {
        match self.course {
            Course::Going => false,
            Course::Ending(_) => true,
        }
    }

    /// The innermost open scope: `None` exactly where none is open.
    pub fn scope(&self) -> Option<Scope>
        ensures { StrandOf self.now (λ S. MatchOption result (S.scopes ≡ [])
            (λ scope. (s : paper.Scope) × (turn.first_scope S.scopes ≡ Some s) × (scope ≡ scope_of s))) }
    {
        self.scopes.last().copied()
    }

    /// The number goes to the log, and the instruction behind the `ecall` is next. At `Memory` the strand is as before.
    pub fn print(&mut self, number: i32) -> Result<(), Memory>
        ensures ok { OnOk result (StrandOf self.old (λ S. S.counter + 4 < 2 ^ 32 → IsStrand self.new (turn.print S number))) }
        ensures err { OnErr result (self.new ≡ self.old) }
        ensures chain { chain_of self.new ≡ chain_of self.old }
    {
        self.log.number(number)?;
        self.hart.reply(None);
        Ok(())
    }

    /// Puts in a chain. The strand has to have none.
    pub fn hang(&mut self, chain: Chain)
        requires { chain_of self.old ≡ None }
        ensures chain { chain_of self.new ≡ Some chain }
        ensures rest { StrandOf self.old (λ S. IsStrand self.new S) }
    {
        self.chain = Some(chain);
    }

    /// Takes out the chain. The strand has to have one.
    pub fn unhang(&mut self) -> Chain
        requires { IsSome (chain_of self.old) }
        ensures chain { chain_of self.old ≡ Some result }
        ensures none { chain_of self.new ≡ None }
        ensures rest { StrandOf self.old (λ S. IsStrand self.new S) }
    {
        self.chain.take().unwrap()
    }

    /// x2 becomes the low end of the innermost scope, rounded down to a multiple of the page. A scope has to be open.
    pub fn lower(&mut self, page: u32)
        requires page { IsPage page }
        requires scope { vec_len self.old.scopes ≢ 0 }
        ensures strand { StrandOf self.old (λ S. (s : paper.Scope) → turn.first_scope S.scopes ≡ Some s → IsStrand self.new (turn.lower S page s.low)) }
        ensures chain { chain_of self.new ≡ chain_of self.old }
    {
        read_registers(&self.hart);
        let low = self.scopes[self.scopes.len() - 1].low;
        self.hart.regs.set(SP, low - low % page);
    }

    /// The address of the destination of the hole of this number, or 0. The hole has to be there.
    pub fn target(&self, hole: u32) -> u32
        requires { (S : paper.Strand) × (H : paper.Hole) × IsStrand self.now S × turn.HoleAt S.log hole H }
        ensures { StrandOf self.now (λ S. (H : paper.Hole) → turn.HoleAt S.log hole H → result ≡ H.target) }
    {
        self.log.holes[hole as usize].target
    }
}

/// Reads the registers, so that contracts know that there are 32 words.
pub(crate) fn read_registers(hart: &Hart)
    ensures { IsRegisters hart.now.regs }
{
    let _zero = hart.regs.get(ZERO);
}
