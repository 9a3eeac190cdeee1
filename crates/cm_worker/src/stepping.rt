//! One step of a hart over the words of a grant.
ghost use Rattle.std.specs.Prelude.{◌≡◌, ◌≢◌, ◌↔◌, ℕ};
ghost use Rattle.cm_isa.specs.Address.{InstructionAt, IsCodeAddress};
ghost use Rattle.cm_isa.specs.Machine.{IsMap, Machine, StepsTo};
ghost use Rattle.cm_isa.specs.Operation.{Operation};
ghost use Rattle.cm_hart.specs.Address.{IsStranger};
ghost use Rattle.cm_hart.specs.Step.{HasHartOutcome, MayStep, hart_machine, hart_outcome};
ghost use Rattle.cm_words.specs.RegionOf.{region_of};
ghost use Rattle.cm_worker.specs.GrantView.{grant_view, shares};

use crate::grant_words::GrantWords;
use cm_hart::{Code, Halt, Hart, step};
use cm_isa::FaultKind;
use cm_maps::Map;
use cm_words::{Grant, Region};

/// One instruction of a hart over the words of a grant, as `cm_hart::step` says, in a stack that has the addresses from
/// `low` up to `STACK_TOP`. The grant is then still one of the region, with the shares that it had: the caller may go on
/// with both, and unite the grant with others.
pub fn step_over(
    hart: &mut Hart,
    code: &Code,
    region: &Region,
    grant: &mut Grant,
    map: &Map,
    low: u32,
) -> Halt
    requires here { grant.old.region ≡ region_of region.now }
    requires may { MayStep (grant_view low map.now grant.old.cells) code.now hart.old }
    ensures outcome { (i : Operation) → InstructionAt code.now hart.old.pc i →
        let after = hart_outcome (grant_view low map.now grant.old.cells) i hart.old in
        HasHartOutcome after hart.old result hart.new (grant_view low map.now grant.new.cells) }
    ensures jump { (result ≡ Halt.Fault FaultKind.Jump hart.old.pc) ↔
        (¬ IsCodeAddress code.now hart.old.pc) }
    ensures word { (a : ℕ) → (result ≡ Halt.Fault FaultKind.Word a) ↔
        ((a ≡ hart.old.pc) × IsStranger code.now hart.old.pc) }
    ensures halts { result ≢ Halt.Going →
        (hart.new ≡ hart.old) ×
        (grant_view low map.now grant.new.cells ≡ grant_view low map.now grant.old.cells) }
    ensures machine { IsMap (grant_view low map.now grant.old.cells) → (m : Machine) →
        StepsTo (InstructionAt code.now) (hart_machine (grant_view low map.now grant.old.cells) hart.old) m ↔
        ((result ≡ Halt.Going) × (m ≡ hart_machine (grant_view low map.now grant.new.cells) hart.new)) }
    ensures here { grant.new.region ≡ grant.old.region }
    ensures shares { shares grant.new.cells ≡ shares grant.old.cells }
{
    let mut words = GrantWords {
        region,
        grant,
        map,
        low,
    };
    step(hart, code, &mut words)
}
