//! A listing from outside, and items whose labels are missing, doubled or far.
ghost use Rattle.std.specs.Prelude.{◌+◌, ◌≤◌, IfOk};
ghost use Rattle.cm_asm.specs.Assembly.{AreItems, IsItem};

use super::*;
use cm_isa::{Instr, Kind};
use cm_text::{List, Memory};
use std::alloc::Global;
use std::test::Fail;

// A program of 29 words.
const PROGRAM: &[u8] =
    b"00000000 00000f93\n00000004 00000073\n00000008 0040006f\n0000000c 00021663\n00000010 00600f93\n00000014 00000073\n00000018 fff20213\n0000001c 01000393\n00000020 0071f663\n00000024 00900f93\n00000028 00000073\n0000002c 407181b3\n00000030 01000393\n00000034 40710133\n00000038 00012023\n0000003c 007103b3\n00000040 fe13ae23\n00000044 fe83ac23\n00000048 00038413\n0000004c 00e00293\n00000050 0080006f\n00000054 00000293\n00000058 01000393\n0000005c 007181b3\n00000060 00028513\n00000064 ffc42083\n00000068 00040113\n0000006c ff842403\n00000070 00008067\n";

fn refusal_of(alloc: Global, text: &[u8]) -> Option<ListRefusal> {
    unlist(alloc, text).err()
}

#[test]
fn listings(rt: HostRuntime) -> Result<(), Fail> {
    let alloc = rt.alloc();
    let image = unlist(alloc, PROGRAM)?;
    assert_eq!(rt; image.words.len(), 29);
    let text = list(alloc, &image)?;
    assert_eq!(rt; text.items(), PROGRAM);
    one_image_per_listing();
    assert_eq!(rt; refusal_of(alloc, b""), None);
    // An upper-case digit, an end inside a line, a gap in the addresses, and a byte after a line.
    assert_eq!(rt;
        refusal_of(alloc, b"00000000 00000F93\n"),
        Some(ListRefusal::Line { at: 14 })
    );
    assert_eq!(rt;
        refusal_of(alloc, b"00000000 00000f93"),
        Some(ListRefusal::Line { at: 17 })
    );
    assert_eq!(rt;
        refusal_of(alloc, b"00000000 00000f93\n00000008 00000073\n"),
        Some(ListRefusal::Line { at: 25 })
    );
    assert_eq!(rt;
        refusal_of(alloc, b"00000000 00000f93\n\n"),
        Some(ListRefusal::Line { at: 18 })
    );
    Ok(())
}

// Two items with so many others between them.
fn apart(alloc: Global, first: Item, between: usize, last: Item) -> Result<List<Item>, Memory>
    requires first { IsItem first }
    requires last { IsItem last }
    requires few { between ≤ 1000000 }
    ensures { IfOk result (λ items. AreItems items) }
{
    let mut items = List::new(alloc);
    items.push(first)?;
    for _ in 0..between {
        items.push(Item::Jump { rd: 0, label: 1 })?;
    }
    items.push(last)?;
    Ok(items)
}

// The refusal of two items with so many others between them.
fn refusal(alloc: Global, first: Item, between: usize, last: Item) -> Option<AsmRefusal>
    requires first { IsItem first }
    requires last { IsItem last }
    requires few { between ≤ 1000000 }
{
    let items = apart(alloc, first, between, last).ok()?;
    assemble(alloc, items.items()).err()
}

fn branch() -> Item
    ensures { IsItem result }
{
    Item::Branch {
        kind: Kind::Bgeu,
        rs1: 5,
        rs2: 6,
        label: 1,
    }
}

fn jump() -> Item
    ensures { IsItem result }
{
    Item::Jump { rd: 0, label: 1 }
}

#[test]
fn assembly(rt: HostRuntime) -> Result<(), Fail> {
    let alloc = rt.alloc();
    let addi = Instr::of(Kind::Addi, 31, 0, 0, 6).ok_or("fields")?;
    let items = [
        Item::Jump { rd: 0, label: 1 },
        Item::Plain(addi),
        Item::Label(1),
        Item::Plain(addi),
        Item::Branch {
            kind: Kind::Bne,
            rs1: 5,
            rs2: 6,
            label: 1,
        },
    ];
    let image = assemble(alloc, &items)?;
    let words = [0x0080_006f, 0x0060_0f93, 0x0060_0f93, 0xfe62_9ee3];
    assert_eq!(rt; image.words.items(), words.as_slice());

    // A missing label, a doubled one, and the first of two refusals.
    let items = [Item::Label(1), Item::Jump { rd: 1, label: 2 }];
    assert_eq!(rt;
        assemble(alloc, &items).err(),
        Some(AsmRefusal::Label { at: 1 })
    );
    let items = [
        Item::Label(1),
        Item::Jump { rd: 0, label: 1 },
        Item::Label(1),
    ];
    assert_eq!(rt;
        assemble(alloc, &items).err(),
        Some(AsmRefusal::Label { at: 2 })
    );
    let items = [
        Item::Label(1),
        Item::Label(1),
        Item::Jump { rd: 1, label: 2 },
    ];
    assert_eq!(rt;
        assemble(alloc, &items).err(),
        Some(AsmRefusal::Label { at: 1 })
    );
    Ok(())
}

// The last distances that fit, and the first that don't.
#[test]
fn distances(rt: HostRuntime) -> Result<(), Fail> {
    let alloc = rt.alloc();
    assert_eq!(rt; refusal(alloc, branch(), 1022, Item::Label(1)), None);
    assert_eq!(rt;
        refusal(alloc, branch(), 1023, Item::Label(1)),
        Some(AsmRefusal::Range {
            at: 0,
            distance: 4096
        })
    );
    assert_eq!(rt; refusal(alloc, Item::Label(1), 1024, branch()), None);
    assert_eq!(rt;
        refusal(alloc, Item::Label(1), 1025, branch()),
        Some(AsmRefusal::Range {
            at: 1026,
            distance: -4100
        })
    );
    assert_eq!(rt; refusal(alloc, jump(), 262_142, Item::Label(1)), None);
    assert_eq!(rt;
        refusal(alloc, jump(), 262_143, Item::Label(1)),
        Some(AsmRefusal::Range {
            at: 0,
            distance: 1_048_576
        })
    );
    assert_eq!(rt; refusal(alloc, Item::Label(1), 262_144, jump()), None);
    assert_eq!(rt;
        refusal(alloc, Item::Label(1), 262_145, jump()),
        Some(AsmRefusal::Range {
            at: 262_146,
            distance: -1_048_580
        })
    );
    Ok(())
}
