//! Spawns: a strand's child, and the hole that it leaves.
ghost use Rattle.std.specs.Prelude.{◌≡◌, ℕ, ◌+◌, ◌<◌, ◌^◌, vec_len, vec_capacity, slice_index, OnOk, OnErr, IfOk};
ghost use Rattle.cm_isa.specs.declared.convention.TheConstants as reg;
ghost use Rattle.cm_strand.specs.Owned.{Owned};
ghost use Rattle.cm_strand.specs.Strand as paper;
ghost use Rattle.cm_strand.specs.Turn as turn;
ghost use Rattle.cm_strand.specs.Seen.{IsStrand, StrandOf, in_scope, chain_of};

use crate::log::Log;
use crate::scope::Scope;
use crate::strand::{Course, Strand, read_registers};
use cm_hart::Hart;
use cm_isa::convention::{FP, LEFT, RA, SP, TICKS, VALUE};
use cm_text::Memory;

impl Strand {
    /// The child of a parent that stands at a spawn service, and the parent behind it: it gets a new hole, in a scope that is
    /// opened where the innermost open one isn't that of x8. At `Memory` the parent is as before.
    pub fn child(parent: &mut Strand) -> Result<Strand, Memory>
        ensures parent { OnOk result (StrandOf parent.old (λ S. (request : paper.Request) (depth : ℕ) (kept : Owned)
            → S.counter + 4 < 2 ^ 32 → IsStrand parent.new (turn.spawn S request depth kept))) }
        ensures child { IfOk result (λ child. StrandOf parent.old (λ S. (lent : Owned) → IsStrand child (turn.child_of S lent))) }
        ensures err { OnErr result (StrandOf parent.old (IsStrand parent.new)) }
        ensures chain { chain_of parent.new ≡ chain_of parent.old }
    {
        parent.scopes.reserve(1)?;
        let used = parent.used();
        let target = parent.hart.regs.get(LEFT);
        let hole = parent.log.hole(used, target)?;
        parent.open(hole);
        let child = parent.called();
        parent.hart.reply(None);
        Ok(child)
    }

    /// The ticks of its own that it used.
    pub(crate) fn used(&self) -> u32
        ensures { StrandOf self.now (λ S. result ≡ turn.used_by S) }
    {
        let left = self.hart.regs.get(TICKS);
        self.start
            .saturating_sub(self.log.paid.saturating_add(left))
    }

    /// Opens a scope with this first hole, where the innermost open one isn't that of x8.
    fn open(&mut self, first: u32)
        requires { vec_len self.old.scopes < vec_capacity self.old.scopes }
        ensures strand { StrandOf self.old (λ S. (depth : ℕ) → IsStrand self.new (in_scope S first depth)) }
        ensures chain { chain_of self.new ≡ chain_of self.old }
        ensures hart { self.new.hart ≡ self.old.hart }
    {
        let frame = self.hart.regs.get(FP);
        let low = self.hart.regs.get(SP);
        let here = match self.scopes.last() {
            Some(scope) => scope.frame == frame,
            None => false,
        };
        if !here {
            self.scopes.push_reserved(Scope { frame, low, first });
        }
    }

    /// The child before its first instruction.
    fn called(&self) -> Strand
        ensures { (S : paper.Strand) (lent : Owned) → S.registers ≡ slice_index self.now.hart.regs → IsStrand result (turn.child_of S lent) }
    {
        let mut regs = self.hart.regs.clone().unwrap();
        regs.set(RA, 0);
        let alloc = *self.scopes.allocator();
        Strand {
            hart: Hart {
                pc: regs.get(VALUE),
                regs,
            },
            start: self.hart.regs.get(TICKS),
            log: Log::new(alloc),
            scopes: Vec::new(alloc),
            course: Course::Going,
            chain: None,
        }
    }
}
