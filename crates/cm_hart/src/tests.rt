//! Steps of a short program to its `ecall`, and each way to stop; and steps over words whose owner knows
//! more of them than a step sees.
ghost use Rattle.std.specs.Prelude.{◌≡◌, length, slice_index};
ghost use Rattle.cm_isa.specs.Address.{InstructionAt};
ghost use Rattle.cm_isa.specs.Operation.{Operation};
ghost use Rattle.cm_isa.specs.View.{slice_view};
ghost use Rattle.cm_hart.specs.Step.{HasHartOutcome, MayStep, hart_outcome};

use super::{Code, Halt, Hart, machine_steps_are_allowed, step};
use cm_asm::Image;
use cm_isa::{FaultKind, Regs, Shown, Words};
use cm_text::List;
use std::test::Fail;

/// Four words at 256 to 271, a page that is not mapped up to 287, and nothing else.
#[derive(Drop)]
struct Memory {
    words: [u32; 4],
}

impl Words for Memory {
    ghost use Rattle.std.specs.Prelude.{ℕ, ◌-◌, ◌/◌, nat_lt, if◌then◌else◌, length, slice_index};
    ghost use Rattle.cm_isa.specs.View.{full_where};
    ghost use Rattle.cm_isa.specs.declared.memory.Shown.TheVariants.{Place, Page, Outside};

    ghost view = { λ m. record {
      shown = λ a. if nat_lt a 256 then Outside
          else (if nat_lt a 272 then Place ((a - 256) / 4)
          else (if nat_lt a 288 then Page else Outside));
      access = λ p. full_where (nat_lt p 4);
      word_at = slice_index m.words;
    } };

    ghost Rest = { ℕ };

    ghost rest = { λ m. length m.words };

    fn show(&self, address: u32) -> Shown {
        if address < 256 {
            Shown::Outside
        } else if address < 272 {
            Shown::Place((address - 256) / 4)
        } else if address < 288 {
            Shown::Page
        } else {
            Shown::Outside
        }
    }

    fn load(&mut self, place: u32) -> u32 {
        self.words[place as usize]
    }

    fn store(&mut self, place: u32, word: u32) {
        self.words[place as usize] = word;
    }
}

/// A program as an assembler makes it.
const PROGRAM: [u32; 12] = [
    0x0060_0f93, // 0: addi x31, x0, 6
    0x1000_0293, // 4: addi x5, x0, 256
    0x01f2_a223, // 8: sw x31, 4(x5)
    0x0042_a303, // 12: lw x6, 4(x5)
    0x0080_00ef, // 16: jal x1, 8
    0x0010_0073, // 20: ebreak
    0x0000_0073, // 24: ecall
    0x0000_0000, // 28: no instruction
    0x0022_a303, // 32: lw x6, 2(x5)
    0xffc2_a303, // 36: lw x6, -4(x5)
    0x0062_a823, // 40: sw x6, 16(x5)
    0x0020_006f, // 44: jal x0, 2
];

/// The fault of this kind and address.
const fn fault(kind: FaultKind, address: u32) -> Halt {
    Halt::Fault { kind, address }
}

/// One step over these words, which any instruction may read and write.
fn step_over(hart: &mut Hart, code: &Code, memory: &mut Memory) -> Halt {
    step(hart, code, memory)
}

#[test]
fn steps(rt: HostRuntime) -> Result<(), Fail> {
    let image = Image {
        words: List::from_vec(PROGRAM.to_vec(rt.alloc())?),
    };
    let code = Code::of(rt.alloc(), &image)?;
    let mut memory = Memory { words: [9; 4] };
    let mut hart = Hart {
        regs: Regs::zero(),
        pc: 0,
    };
    for next in [4, 8, 12, 16, 24] {
        assert_eq!(rt; step_over(&mut hart, &code, &mut memory), Halt::Going);
        assert_eq!(rt; hart.pc, next);
    }
    // what each address gives then; no step changes anything
    for (pc, halt) in [
        (24, Halt::Service(6)),
        (20, fault(FaultKind::Break, 20)),
        (28, fault(FaultKind::Word, 28)),
        (32, fault(FaultKind::Align, 258)),
        (36, fault(FaultKind::Place, 252)),
        (40, Halt::PageFault { address: 272 }),
        (44, fault(FaultKind::Jump, 46)),
        (2, fault(FaultKind::Jump, 2)),
        (48, fault(FaultKind::Jump, 48)),
        (0xffff_fffc, fault(FaultKind::Jump, 0xffff_fffc)),
    ] {
        hart.pc = pc;
        assert_eq!(rt; step_over(&mut hart, &code, &mut memory), halt, "at {pc}");
        assert_eq!(rt; hart.pc, pc);
        assert_eq!(rt; (hart.regs.get(1), hart.regs.get(6)), (20, 6));
        assert_eq!(rt; memory.words, [9, 6, 9, 9]);
    }
    // a reply with a word and one without, and the registers of a child
    hart.pc = 24;
    hart.reply(Some(77));
    assert_eq!(rt; (hart.pc, hart.regs.get(5)), (28, 77));
    hart.reply(None);
    assert_eq!(rt; (hart.pc, hart.regs.get(5)), (32, 77));
    let child = hart.regs.clone()?;
    assert_eq!(rt; (child.get(5), child.get(31)), (77, 6));
    machine_steps_are_allowed();
    Ok(())
}

/// Words in pages of four, which a list of page numbers shows in its order, from address 0 on. The list
/// and the tag are the owner's.
#[derive(Drop)]
struct Paged {
    pages: Vec<u8>,
    tag: u32,
    words: [u32; 16],
}

impl Words for Paged {
    ghost use Rattle.std.specs.Prelude.{ℕ, List, ◌+◌, ◌*◌, ◌/◌, ◌%◌, nat_lt, if◌then◌else◌, length, slice_index};
    ghost use Rattle.cm_isa.specs.View.{full_where};
    ghost use Rattle.cm_isa.specs.declared.memory.Shown.TheVariants.{Place, Page};

    ghost view = { λ m. record {
      shown = λ a. if nat_lt (a / 16) (length m.pages.items)
          then Place (slice_index m.pages.items (a / 16) * 4 + a / 4 % 4) else Page;
      access = λ p. full_where (nat_lt p 16);
      word_at = slice_index m.words;
    } };

    ghost Rest = { List ℕ × ℕ };

    ghost rest = { λ m. (m.pages.items, m.tag) };

    fn show(&self, address: u32) -> Shown {
        let index = (address / 16) as usize;
        if index < self.pages.len() {
            Shown::Place(u32::from(self.pages[index]) * 4 + address / 4 % 4)
        } else {
            Shown::Page
        }
    }

    fn load(&mut self, place: u32) -> u32 {
        self.words[place as usize]
    }

    fn store(&mut self, place: u32, word: u32) {
        self.words[place as usize] = word;
    }
}

/// One step over words in pages. The words are then those of the outcome, and the pages and the tag as
/// before.
fn step_paged(hart: &mut Hart, code: &Code, memory: &mut Paged) -> Halt
    requires { MayStep (⟦<Paged as Words>⟧.view memory.old) code.now hart.old }
    ensures outcome { (i : Operation) → InstructionAt code.now hart.old.pc i →
        let after = hart_outcome (⟦<Paged as Words>⟧.view memory.old) i hart.old in
        HasHartOutcome after hart.old result hart.new (⟦<Paged as Words>⟧.view memory.new) }
    ensures pages { memory.new.pages.items ≡ memory.old.pages.items }
    ensures tag { memory.new.tag ≡ memory.old.tag }
{
    step(hart, code, memory)
}

/// The words of a slice, from address 0 on.
#[derive(Drop)]
struct Lent<'a> {
    words: &'a mut [u32],
}

impl Words for Lent<'_> {
    ghost use Rattle.std.specs.Prelude.{ℕ, length};
    ghost use Rattle.cm_isa.specs.View.{slice_view};

    ghost view = { λ m. slice_view m.words.now };

    ghost Rest = { ℕ × ℕ };

    ghost rest = { λ m. (m.words.ghost_name, length m.words.now) };

    fn show(&self, address: u32) -> Shown {
        if ((address / 4) as usize) < self.words.len() {
            Shown::Place(address / 4)
        } else {
            Shown::Outside
        }
    }

    fn load(&mut self, place: u32) -> u32 {
        self.words[place as usize]
    }

    fn store(&mut self, place: u32, word: u32) {
        self.words[place as usize] = word;
    }
}

/// One step over a slice that is borrowed for it. The owner then has the words of the outcome.
fn step_lent(hart: &mut Hart, code: &Code, words: &mut [u32]) -> Halt
    requires { MayStep (slice_view words.old) code.now hart.old }
    ensures outcome { (i : Operation) → InstructionAt code.now hart.old.pc i →
        let after = hart_outcome (slice_view words.old) i hart.old in
        HasHartOutcome after hart.old result hart.new (slice_view words.new) }
    ensures count { length words.new ≡ length words.old }
{
    step(hart, code, &mut Lent { words })
}
