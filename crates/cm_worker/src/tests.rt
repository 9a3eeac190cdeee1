//! Steps of a hart over one page, of which a grant has the whole of each word.
ghost use Rattle.std.specs.Prelude.{◌≡◌, [], ◌∷◌, true};
ghost use Rattle.cm_words.specs.Every.{every};
ghost use Rattle.cm_words.specs.Held.{is_whole};
ghost use Rattle.cm_words.specs.RegionOf.{region_of};

use super::{grants_are_maps, step_over};
use cm_asm::Image;
use cm_hart::{Code, Halt, Hart};
use cm_isa::{FaultKind, Regs};
use cm_maps::{Map, STACK_TOP};
use cm_text::List;
use cm_words::{Grant, Region, Span};
use std::test::Fail;

/// A program as an assembler makes it.
const PROGRAM: [u32; 7] = [
    0x4000_02b7, // 0: lui x5, 0x40000
    0x0070_0313, // 4: addi x6, x0, 7
    0xfe62_ac23, // 8: sw x6, -8(x5)
    0xff82_a383, // 12: lw x7, -8(x5)
    0xefc2_a383, // 16: lw x7, -260(x5)
    0xdfc2_a383, // 20: lw x7, -516(x5)
    0x0062_a023, // 24: sw x6, 0(x5)
];

/// One step in a stack of two pages of 256 bytes, where the map shows page 1.
fn step_page(hart: &mut Hart, code: &Code, region: &Region, grant: &mut Grant, map: &Map) -> Halt
    requires here { grant.old.region ≡ region_of region.now }
    requires whole { every is_whole 1 64 64 grant.old.cells ≡ true }
    requires page { map.now.page ≡ 256 }
    requires pages { map.now.pages ≡ 1 ∷ [] }
    ensures here { grant.new.region ≡ grant.old.region }
    ensures whole { every is_whole 1 64 64 grant.new.cells ≡ true }
{
    step_over(hart, code, region, grant, map, STACK_TOP - 512)
}

#[test]
fn steps_over_a_page(rt: HostRuntime) -> Result<(), Fail> {
    let image = Image {
        words: List::from_vec(PROGRAM.to_vec(rt.alloc())?),
    };
    let code = Code::of(rt.alloc(), &image)?;
    let mut map = Map::make(rt.alloc(), 256, 2)?;
    map.add(1);
    let (region, mut others) = Region::make(rt.alloc(), 128)?;
    let page = Span {
        first: 64,
        count: 64,
    };
    let mut grant = region.part(&mut others, page);
    let mut hart = Hart {
        regs: Regs::zero(),
        pc: 0,
    };
    for (pc, halt) in [
        (0, Halt::Going),
        (4, Halt::Going),
        (8, Halt::Going),
        (12, Halt::Going),
        (
            16,
            Halt::PageFault {
                address: STACK_TOP - 260,
            },
        ),
        (
            20,
            Halt::Fault {
                kind: FaultKind::Place,
                address: STACK_TOP - 516,
            },
        ),
        (
            24,
            Halt::Fault {
                kind: FaultKind::Place,
                address: STACK_TOP,
            },
        ),
    ] {
        hart.pc = pc;
        assert_eq!(rt;
            step_page(&mut hart, &code, &region, &mut grant, &map),
            halt,
            "at {pc}"
        );
    }
    assert_eq!(rt; hart.regs.get(7), 7);
    region.unite(&mut others, grant);
    assert_eq!(rt; region.load(&mut others, 126), 7);
    grants_are_maps();
    Ok(())
}
