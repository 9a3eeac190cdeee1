//! Words as an assembler makes them, and effects at corner values.

use super::*;
use std::test::Fail;

/// A word as LLVM's assembler makes it, with the fields of its instruction, rd, rs1, rs2 and imm; and the
/// word with one of its fixed fields changed, which no instruction has.
type Row = (u32, Kind, u8, u8, u8, i32, u32);

const ROWS: [Row; 50] = [
    (0xffff_f2b7, Kind::Lui, 5, 0, 0, -4096, 0xffff_f2f7),
    (0x1234_5317, Kind::Auipc, 6, 0, 0, 305418240, 0x1234_5357),
    (0xffff_f0ef, Kind::Jal, 1, 0, 0, -2, 0xffff_f0af),
    (0x0010_00ef, Kind::Jal, 1, 0, 0, 2048, 0x0010_00af),
    (0xffc4_00e7, Kind::Jalr, 1, 8, 0, -4, 0xffc4_30e7),
    (0x8062_8063, Kind::Beq, 0, 5, 6, -4096, 0x8062_b063),
    (0x0002_9663, Kind::Bne, 0, 5, 0, 12, 0x0002_b663),
    (0x00b5_40e3, Kind::Blt, 0, 10, 11, 2048, 0x00b5_30e3),
    (0x7eb5_5fe3, Kind::Bge, 0, 10, 11, 4094, 0x7eb5_3fe3),
    (0xfe72_efe3, Kind::Bltu, 0, 5, 7, -2, 0xfe72_bfe3),
    (0x0071_ff63, Kind::Bgeu, 0, 3, 7, 30, 0x0071_bf63),
    (0xfff3_0283, Kind::Lb, 5, 6, 0, -1, 0xfff3_3283),
    (0x0023_1283, Kind::Lh, 5, 6, 0, 2, 0x0023_3283),
    (0xffc4_2083, Kind::Lw, 1, 8, 0, -4, 0xffc4_3083),
    (0x7ff3_4283, Kind::Lbu, 5, 6, 0, 2047, 0x7ff3_3283),
    (0x8003_5283, Kind::Lhu, 5, 6, 0, -2048, 0x8003_3283),
    (0xfe73_0fa3, Kind::Sb, 0, 6, 7, -1, 0xfe73_3fa3),
    (0x0273_10a3, Kind::Sh, 0, 6, 7, 33, 0x0273_30a3),
    (0x80a4_2023, Kind::Sw, 0, 8, 10, -2048, 0x80a4_3023),
    (0x0000_0013, Kind::Addi, 0, 0, 0, 0, 0x0000_0053),
    (0xfff2_0213, Kind::Addi, 4, 4, 0, -1, 0xfff2_0253),
    (0x8003_2293, Kind::Slti, 5, 6, 0, -2048, 0x8003_22d3),
    (0x0012_b293, Kind::Sltiu, 5, 5, 0, 1, 0x0012_b2d3),
    (0xfff2_c293, Kind::Xori, 5, 5, 0, -1, 0xfff2_c2d3),
    (0x7ff3_6293, Kind::Ori, 5, 6, 0, 2047, 0x7ff3_62d3),
    (0x00f3_7293, Kind::Andi, 5, 6, 0, 15, 0x00f3_72d3),
    (0x0022_9293, Kind::Slli, 5, 5, 0, 2, 0x8222_9293),
    (0x01f3_5293, Kind::Srli, 5, 6, 0, 31, 0x83f3_5293),
    (0x41f3_5293, Kind::Srai, 5, 6, 0, 31, 0x83f3_5293),
    (0x0062_82b3, Kind::Add, 5, 5, 6, 0, 0x8262_82b3),
    (0x4071_81b3, Kind::Sub, 3, 3, 7, 0, 0x8271_81b3),
    (0x01df_1fb3, Kind::Sll, 31, 30, 29, 0, 0x41df_1fb3),
    (0x0073_22b3, Kind::Slt, 5, 6, 7, 0, 0x4073_22b3),
    (0x0073_32b3, Kind::Sltu, 5, 6, 7, 0, 0x4073_32b3),
    (0x0073_42b3, Kind::Xor, 5, 6, 7, 0, 0x4073_42b3),
    (0x0073_52b3, Kind::Srl, 5, 6, 7, 0, 0x8273_52b3),
    (0x4073_52b3, Kind::Sra, 5, 6, 7, 0, 0x8273_52b3),
    (0x0073_62b3, Kind::Or, 5, 6, 7, 0, 0x4073_62b3),
    (0x0073_72b3, Kind::And, 5, 6, 7, 0, 0x4073_72b3),
    (0x0ff0_000f, Kind::Fence, 0, 0, 0, 255, 0x0ff0_300f),
    (0x0000_0073, Kind::Ecall, 0, 0, 0, 0, 0x0020_0073),
    (0x0010_0073, Kind::Ebreak, 0, 0, 0, 0, 0x0030_0073),
    (0x0273_02b3, Kind::Mul, 5, 6, 7, 0, 0x8273_02b3),
    (0x0273_12b3, Kind::Mulh, 5, 6, 7, 0, 0x8273_12b3),
    (0x0273_22b3, Kind::Mulhsu, 5, 6, 7, 0, 0x8273_22b3),
    (0x0273_32b3, Kind::Mulhu, 5, 6, 7, 0, 0x8273_32b3),
    (0x02c5_c533, Kind::Div, 10, 11, 12, 0, 0x82c5_c533),
    (0x02c5_d533, Kind::Divu, 10, 11, 12, 0, 0x82c5_d533),
    (0x02c5_e533, Kind::Rem, 10, 11, 12, 0, 0x82c5_e533),
    (0x02c5_f533, Kind::Remu, 10, 11, 12, 0, 0x82c5_f533),
];

/// Further words that no instruction has.
const STRANGERS: [u32; 6] = [
    0x0000_0000,
    0xffff_ffff,
    0x0462_82b3,
    0x1050_0073,
    0x3000_1073,
    0x8000_0033,
];

#[test]
fn rows(rt: HostRuntime) -> Result<(), Fail> {
    for (word, kind, rd, rs1, rs2, imm, stranger) in ROWS {
        let instr = decode(word).ok_or("a word of the assembler")?;
        assert_eq!(rt; instr.kind(), kind, "at {word}");
        assert_eq!(rt;
            (instr.rd(), instr.rs1(), instr.rs2()),
            (rd, rs1, rs2),
            "at {word}"
        );
        assert_eq!(rt; instr.imm(), imm, "at {word}");
        let made = Instr::of(kind, rd, rs1, rs2, imm).ok_or("fields of the assembler")?;
        assert_eq!(rt; encode(made), word);
        assert!(rt; decode(stranger).is_none(), "at {stranger}");
    }
    for word in STRANGERS {
        assert!(rt; decode(word).is_none(), "at {word}");
    }
    // the laws, each of which does nothing
    one_instruction_per_word(0x73);
    one_word_per_instruction(0x73, 0x73);
    runs_join_and_split();
    replies_determine_runs();
    runs_keep_more_words();
    machines_do_what_outcomes_say();
    Ok(())
}

/// Four words at 0 to 15, a page that is not mapped up to 31, and nothing above.
#[derive(Drop)]
struct Memory {
    words: [u32; 4],
}

impl Words for Memory {
    ghost use Rattle.std.specs.Prelude.{ℕ, ◌/◌, nat_lt, if◌then◌else◌, length, slice_index};
    ghost use Rattle.cm_isa.specs.View.{full_where};
    ghost use Rattle.cm_isa.specs.declared.memory.Shown.TheVariants.{Place, Page, Outside};

    ghost view = { λ m. record {
      shown = λ a. if nat_lt a 16 then Place (a / 4) else (if nat_lt a 32 then Page else Outside);
      access = λ p. full_where (nat_lt p 4);
      word_at = slice_index m.words;
    } };

    ghost Rest = { ℕ };

    ghost rest = { λ m. length m.words };

    fn show(&self, address: u32) -> Shown {
        if address < 16 {
            Shown::Place(address / 4)
        } else if address < 32 {
            Shown::Page
        } else {
            Shown::Outside
        }
    }

    fn load(&mut self, place: u32) -> u32 {
        self.words[place as usize]
    }

    fn store(&mut self, place: u32, word: u32) {
        self.words[place as usize] = word;
    }
}

/// What is left after the instruction of this word at 96, with x5 = 1, x6 and x7 as given, and these
/// words of memory: what comes next, x5, and the words.
fn run(word: u32, first: u32, second: u32, words: [u32; 4]) -> Result<(Next, u32, [u32; 4]), Fail> {
    let mut memory = Memory { words };
    let mut regs = Regs::zero();
    regs.set(5, 1);
    regs.set(6, first);
    regs.set(7, second);
    let instr = decode(word).ok_or("a word of the assembler")?;
    let next = effect(instr, &mut regs, 96, &mut memory);
    Ok((next, regs.get(5), memory.words))
}

/// Words of `op x5, x6, x7` as an assembler makes them, x6, x7, and what x5 is then.
const RESULTS: [(u32, u32, u32, u32); 38] = [
    // div, by zero, -2^31 by -1, and -7 by 2
    (0x0273_42b3, 7, 0, 0xffff_ffff),
    (0x0273_42b3, 0x8000_0000, 0xffff_ffff, 0x8000_0000),
    (0x0273_42b3, 0xffff_fff9, 2, 0xffff_fffd),
    // divu, by zero, and of a large number
    (0x0273_52b3, 7, 0, 0xffff_ffff),
    (0x0273_52b3, 0xffff_fff9, 2, 0x7fff_fffc),
    // rem, by zero, -2^31 by -1, -7 by 2, and 7 by -2
    (0x0273_62b3, 7, 0, 7),
    (0x0273_62b3, 0x8000_0000, 0xffff_ffff, 0),
    (0x0273_62b3, 0xffff_fff9, 2, 0xffff_ffff),
    (0x0273_62b3, 7, 0xffff_fffe, 1),
    // remu, by zero, and of a large number
    (0x0273_72b3, 7, 0, 7),
    (0x0273_72b3, 0xffff_fff9, 2, 1),
    // mul, mulh, mulhsu and mulhu
    (0x0273_02b3, 0xffff_ffff, 0xffff_ffff, 1),
    (0x0273_12b3, 0xffff_ffff, 0xffff_ffff, 0),
    (0x0273_12b3, 0x8000_0000, 0x8000_0000, 0x4000_0000),
    (0x0273_22b3, 0xffff_ffff, 0xffff_ffff, 0xffff_ffff),
    (0x0273_22b3, 1, 0xffff_ffff, 0),
    (0x0273_32b3, 0xffff_ffff, 0xffff_ffff, 0xffff_fffe),
    // sra by 31 and by 33, srl by 33, sub, slt and sltu
    (0x4073_52b3, 0x8000_0000, 31, 0xffff_ffff),
    (0x4073_52b3, 0x8000_0000, 33, 0xc000_0000),
    (0x0073_52b3, 0x8000_0000, 33, 0x4000_0000),
    (0x4073_02b3, 0, 1, 0xffff_ffff),
    (0x0073_22b3, 0xffff_ffff, 0, 1),
    (0x0073_32b3, 0xffff_ffff, 0, 0),
    (0x0073_12b3, 1, 33, 2),
    // add that wraps, xor, or, and
    (0x0073_02b3, 0xffff_ffff, 1, 0),
    (0x0073_42b3, 0xff00_ff00, 0x0ff0_0ff0, 0xf0f0_f0f0),
    (0x0073_62b3, 0xff00_ff00, 0x0ff0_0ff0, 0xfff0_fff0),
    (0x0073_72b3, 0xff00_ff00, 0x0ff0_0ff0, 0x0f00_0f00),
    // addi -1, slti -1 at -2^31 and at 0, sltiu -1, xori -1, ori -2048, andi 15, slli 31, srli 31
    (0xfff3_0293, 0, 0, 0xffff_ffff),
    (0xfff3_2293, 0x8000_0000, 0, 1),
    (0xfff3_2293, 0, 0, 0),
    (0xfff3_3293, 0xffff_fffe, 0, 1),
    (0xfff3_4293, 0x0f0f_0f0f, 0, 0xf0f0_f0f0),
    (0x8003_6293, 1, 0, 0xffff_f801),
    (0x00f3_7293, 0xffff_fff5, 0, 5),
    (0x01f3_1293, 3, 0, 0x8000_0000),
    (0x01f3_5293, 0x8000_0000, 0, 1),
    // fence leaves x5 as it was
    (0x0ff0_000f, 7, 9, 1),
];

/// The words of memory before each step: the bytes at 0 are 0x81, 0x82, 3 and 4.
const WORDS: [u32; 4] = [0x0403_8281, 0x1122_3344, 0, 0];

/// Loads and the rest: the word as an assembler makes it, x6, x7, what comes next, and x5 then.
const STEPS: [(u32, u32, u32, Next, u32); 30] = [
    // lb 0(x6), lbu 1(x6), lh 0(x6), lhu 0(x6), lh 2(x6) and lw 4(x6)
    (0x0003_0283, 0, 0, Next::At(100), 0xffff_ff81),
    (0x0013_4283, 0, 0, Next::At(100), 0x82),
    (0x0003_1283, 0, 0, Next::At(100), 0xffff_8281),
    (0x0003_5283, 0, 0, Next::At(100), 0x8281),
    (0x0023_1283, 0, 0, Next::At(100), 0x0403),
    (0x0043_2283, 0, 0, Next::At(100), 0x1122_3344),
    // lw 2(x6) and sh x7, 1(x6) in the page that is not mapped: the address comes first
    (
        0x0023_2283,
        16,
        0,
        Next::Fault {
            kind: FaultKind::Align,
            address: 18,
        },
        1,
    ),
    (
        0x0073_10a3,
        16,
        0,
        Next::Fault {
            kind: FaultKind::Align,
            address: 17,
        },
        1,
    ),
    // lw 0(x6) and sw x7, 0(x6) there, lw 0(x6) above it, and lb -1(x6) below 0
    (0x0003_2283, 16, 0, Next::PageFault { address: 16 }, 1),
    (0x0073_2023, 28, 0, Next::PageFault { address: 28 }, 1),
    (
        0x0003_2283,
        32,
        0,
        Next::Fault {
            kind: FaultKind::Place,
            address: 32,
        },
        1,
    ),
    (
        0xfff3_0283,
        0,
        0,
        Next::Fault {
            kind: FaultKind::Place,
            address: 0xffff_ffff,
        },
        1,
    ),
    // jalr x5, 1(x6) and 2(x6): bit 0 of the target is cleared, bit 1 is not
    (0x0013_02e7, 200, 0, Next::At(200), 100),
    (
        0x0023_02e7,
        200,
        0,
        Next::Fault {
            kind: FaultKind::Jump,
            address: 202,
        },
        1,
    ),
    // blt, bltu and bge x6, x7, 16 at -1 and 0
    (0x0073_4863, 0xffff_ffff, 0, Next::At(112), 1),
    (0x0073_6863, 0xffff_ffff, 0, Next::At(100), 1),
    (0x0073_5863, 0xffff_ffff, 0, Next::At(100), 1),
    // bge at equal words; bne and bgeu x6, x7, 16
    (0x0073_5863, 5, 5, Next::At(112), 1),
    (0x0073_1863, 1, 0, Next::At(112), 1),
    (0x0073_1863, 5, 5, Next::At(100), 1),
    (0x0073_7863, 0xffff_ffff, 0, Next::At(112), 1),
    (0x0073_7863, 0, 1, Next::At(100), 1),
    // beq x6, x7, 2: only a branch that is taken is a fault
    (
        0x0073_0163,
        5,
        5,
        Next::Fault {
            kind: FaultKind::Jump,
            address: 98,
        },
        1,
    ),
    (0x0073_0163, 5, 6, Next::At(100), 1),
    // jal x5, -96; auipc x5, 1; lui x5, 0x80000; and srai x5, x6, 4
    (0xfa1f_f2ef, 0, 0, Next::At(0), 100),
    (0x0000_1297, 0, 0, Next::At(100), 4192),
    (0x8000_02b7, 0, 0, Next::At(100), 0x8000_0000),
    (0x4043_5293, 0x8000_0000, 0, Next::At(100), 0xf800_0000),
    // ecall and ebreak
    (0x0000_0073, 0, 0, Next::Service, 1),
    (
        0x0010_0073,
        0,
        0,
        Next::Fault {
            kind: FaultKind::Break,
            address: 96,
        },
        1,
    ),
];

#[test]
fn effects(rt: HostRuntime) -> Result<(), Fail> {
    for (word, first, second, value) in RESULTS {
        let (next, x5, after) = run(word, first, second, WORDS)?;
        assert_eq!(rt;
            (next, x5, after),
            (Next::At(100), value, WORDS),
            "{word}: {first} {second}"
        );
    }
    for (word, first, second, wanted, value) in STEPS {
        let (next, x5, after) = run(word, first, second, WORDS)?;
        assert_eq!(rt;
            (next, x5, after),
            (wanted, value, WORDS),
            "{word}: {first} {second}"
        );
    }
    // sb x7, 5(x6); sh x7, 6(x6); and sw x7, 8(x6)
    for (word, after) in [
        (0x0073_02a3, [0x0403_8281, 0x1122_ef44, 0, 0]),
        (0x0073_1323, [0x0403_8281, 0xbeef_3344, 0, 0]),
        (0x0073_2423, [0x0403_8281, 0x1122_3344, 0xdead_beef, 0]),
    ] {
        assert_eq!(rt;
            run(word, 0, 0xdead_beef, WORDS)?,
            (Next::At(100), 1, after)
        );
    }
    Ok(())
}
