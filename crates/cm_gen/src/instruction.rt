//! The instructions of the code patterns, by the names of the assembler.
ghost use Rattle.std.specs.Prelude.{◌≡◌, ◌<◌, ◌%◌, pos, unsigned_abs};
ghost use Rattle.cm_isa.specs.Bits.{IsSigned};
ghost use Rattle.cm_isa.specs.Operation as instruction;
ghost use Rattle.cm_gen.specs.Assembler as code;

use cm_isa::{Instr, Kind};

/// `lui rd, imm`, where the low 12 bits of the immediate are 0.
pub(crate) fn lui(rd: u8, imm: i32) -> Instr
    requires register { rd < 32 }
    requires upper { unsigned_abs imm % 4096 ≡ 0 }
    ensures { result ≡ code.lui rd imm }
{
    Instr::of(Kind::Lui, rd, 0, 0, imm).unwrap()
}

/// `addi rd, rs1, imm`.
pub(crate) fn addi(rd: u8, rs1: u8, imm: i32) -> Instr
    requires registers { (rd < 32) × (rs1 < 32) }
    requires near { IsSigned 12 imm }
    ensures { result ≡ code.addi rd rs1 imm }
{
    Instr::of(Kind::Addi, rd, rs1, 0, imm).unwrap()
}

/// `add rd, rs1, rs2`.
pub(crate) fn add(rd: u8, rs1: u8, rs2: u8) -> Instr
    requires registers { (rd < 32) × (rs1 < 32) × (rs2 < 32) }
    ensures { result ≡ code.add rd rs1 rs2 }
{
    Instr::of(Kind::Add, rd, rs1, rs2, 0).unwrap()
}

/// `sub rd, rs1, rs2`.
pub(crate) fn sub(rd: u8, rs1: u8, rs2: u8) -> Instr
    requires registers { (rd < 32) × (rs1 < 32) × (rs2 < 32) }
    ensures { result ≡ code.sub rd rs1 rs2 }
{
    Instr::of(Kind::Sub, rd, rs1, rs2, 0).unwrap()
}

/// `mul rd, rs1, rs2`.
pub(crate) fn mul(rd: u8, rs1: u8, rs2: u8) -> Instr
    requires registers { (rd < 32) × (rs1 < 32) × (rs2 < 32) }
    ensures { result ≡ code.mul rd rs1 rs2 }
{
    Instr::of(Kind::Mul, rd, rs1, rs2, 0).unwrap()
}

/// `lw rd, offset(base)`.
pub(crate) fn lw(rd: u8, base: u8, offset: i32) -> Instr
    requires registers { (rd < 32) × (base < 32) }
    requires near { IsSigned 12 offset }
    ensures { result ≡ code.lw rd base offset }
{
    Instr::of(Kind::Lw, rd, base, 0, offset).unwrap()
}

/// `sw source, offset(base)`.
pub(crate) fn sw(source: u8, base: u8, offset: i32) -> Instr
    requires registers { (source < 32) × (base < 32) }
    requires near { IsSigned 12 offset }
    ensures { result ≡ code.sw source base offset }
{
    Instr::of(Kind::Sw, 0, base, source, offset).unwrap()
}

/// `jal rd, distance`, in bytes.
pub(crate) fn jal(rd: u8, distance: i32) -> Instr
    requires register { rd < 32 }
    requires fits { IsSigned 21 distance }
    requires even { unsigned_abs distance % 2 ≡ 0 }
    ensures { result ≡ code.jal rd distance }
{
    Instr::of(Kind::Jal, rd, 0, 0, distance).unwrap()
}

/// `jalr rd, offset(base)`.
pub(crate) fn jalr(rd: u8, base: u8, offset: i32) -> Instr
    requires registers { (rd < 32) × (base < 32) }
    requires near { IsSigned 12 offset }
    ensures { result ≡ code.jalr rd base offset }
{
    Instr::of(Kind::Jalr, rd, base, 0, offset).unwrap()
}

/// `bne rs1, rs2, distance`, in bytes.
pub(crate) fn bne(rs1: u8, rs2: u8, distance: i32) -> Instr
    requires registers { (rs1 < 32) × (rs2 < 32) }
    requires fits { IsSigned 13 distance }
    requires even { unsigned_abs distance % 2 ≡ 0 }
    ensures { result ≡ code.bne rs1 rs2 distance }
{
    Instr::of(Kind::Bne, 0, rs1, rs2, distance).unwrap()
}

/// `bgeu rs1, rs2, distance`, in bytes.
pub(crate) fn bgeu(rs1: u8, rs2: u8, distance: i32) -> Instr
    requires registers { (rs1 < 32) × (rs2 < 32) }
    requires fits { IsSigned 13 distance }
    requires even { unsigned_abs distance % 2 ≡ 0 }
    ensures { result ≡ code.bgeu rs1 rs2 distance }
{
    Instr::of(Kind::Bgeu, 0, rs1, rs2, distance).unwrap()
}

/// `div rd, rs1, rs2`.
pub(crate) fn div(rd: u8, rs1: u8, rs2: u8) -> Instr
    requires registers { (rd < 32) × (rs1 < 32) × (rs2 < 32) }
    ensures { result ≡ code.div rd rs1 rs2 }
{
    Instr::of(Kind::Div, rd, rs1, rs2, 0).unwrap()
}

/// `rem rd, rs1, rs2`.
pub(crate) fn rem(rd: u8, rs1: u8, rs2: u8) -> Instr
    requires registers { (rd < 32) × (rs1 < 32) × (rs2 < 32) }
    ensures { result ≡ code.rem rd rs1 rs2 }
{
    Instr::of(Kind::Rem, rd, rs1, rs2, 0).unwrap()
}

/// `and rd, rs1, rs2`.
pub(crate) fn and(rd: u8, rs1: u8, rs2: u8) -> Instr
    requires registers { (rd < 32) × (rs1 < 32) × (rs2 < 32) }
    ensures { result ≡ code.and rd rs1 rs2 }
{
    Instr::of(Kind::And, rd, rs1, rs2, 0).unwrap()
}

/// `or rd, rs1, rs2`.
pub(crate) fn or(rd: u8, rs1: u8, rs2: u8) -> Instr
    requires registers { (rd < 32) × (rs1 < 32) × (rs2 < 32) }
    ensures { result ≡ code.or rd rs1 rs2 }
{
    Instr::of(Kind::Or, rd, rs1, rs2, 0).unwrap()
}

/// `xor rd, rs1, rs2`.
pub(crate) fn xor(rd: u8, rs1: u8, rs2: u8) -> Instr
    requires registers { (rd < 32) × (rs1 < 32) × (rs2 < 32) }
    ensures { result ≡ code.xor rd rs1 rs2 }
{
    Instr::of(Kind::Xor, rd, rs1, rs2, 0).unwrap()
}

/// `sll rd, rs1, rs2`.
pub(crate) fn sll(rd: u8, rs1: u8, rs2: u8) -> Instr
    requires registers { (rd < 32) × (rs1 < 32) × (rs2 < 32) }
    ensures { result ≡ code.sll rd rs1 rs2 }
{
    Instr::of(Kind::Sll, rd, rs1, rs2, 0).unwrap()
}

/// `sra rd, rs1, rs2`.
pub(crate) fn sra(rd: u8, rs1: u8, rs2: u8) -> Instr
    requires registers { (rd < 32) × (rs1 < 32) × (rs2 < 32) }
    ensures { result ≡ code.sra rd rs1 rs2 }
{
    Instr::of(Kind::Sra, rd, rs1, rs2, 0).unwrap()
}

/// `slt rd, rs1, rs2`.
pub(crate) fn slt(rd: u8, rs1: u8, rs2: u8) -> Instr
    requires registers { (rd < 32) × (rs1 < 32) × (rs2 < 32) }
    ensures { result ≡ code.slt rd rs1 rs2 }
{
    Instr::of(Kind::Slt, rd, rs1, rs2, 0).unwrap()
}

/// `sltu rd, rs1, rs2`.
pub(crate) fn sltu(rd: u8, rs1: u8, rs2: u8) -> Instr
    requires registers { (rd < 32) × (rs1 < 32) × (rs2 < 32) }
    ensures { result ≡ code.sltu rd rs1 rs2 }
{
    Instr::of(Kind::Sltu, rd, rs1, rs2, 0).unwrap()
}

/// `xori rd, rs1, imm`.
pub(crate) fn xori(rd: u8, rs1: u8, imm: i32) -> Instr
    requires registers { (rd < 32) × (rs1 < 32) }
    requires near { IsSigned 12 imm }
    ensures { result ≡ code.xori rd rs1 imm }
{
    Instr::of(Kind::Xori, rd, rs1, 0, imm).unwrap()
}

/// `sltiu rd, rs1, imm`.
pub(crate) fn sltiu(rd: u8, rs1: u8, imm: i32) -> Instr
    requires registers { (rd < 32) × (rs1 < 32) }
    requires near { IsSigned 12 imm }
    ensures { result ≡ code.sltiu rd rs1 imm }
{
    Instr::of(Kind::Sltiu, rd, rs1, 0, imm).unwrap()
}

/// `beq rs1, rs2, distance`, in bytes.
pub(crate) fn beq(rs1: u8, rs2: u8, distance: i32) -> Instr
    requires registers { (rs1 < 32) × (rs2 < 32) }
    requires fits { IsSigned 13 distance }
    requires even { unsigned_abs distance % 2 ≡ 0 }
    ensures { result ≡ code.beq rs1 rs2 distance }
{
    Instr::of(Kind::Beq, 0, rs1, rs2, distance).unwrap()
}

/// `bltu rs1, rs2, distance`, in bytes.
pub(crate) fn bltu(rs1: u8, rs2: u8, distance: i32) -> Instr
    requires registers { (rs1 < 32) × (rs2 < 32) }
    requires fits { IsSigned 13 distance }
    requires even { unsigned_abs distance % 2 ≡ 0 }
    ensures { result ≡ code.bltu rs1 rs2 distance }
{
    Instr::of(Kind::Bltu, 0, rs1, rs2, distance).unwrap()
}

/// `slli rd, rs1, amount`.
pub(crate) fn slli(rd: u8, rs1: u8, amount: u8) -> Instr
    requires registers { (rd < 32) × (rs1 < 32) }
    requires short { amount < 32 }
    ensures { result ≡ code.slli rd rs1 (pos amount) }
{
    Instr::of(Kind::Slli, rd, rs1, 0, amount as i32).unwrap()
}

/// `ecall`.
pub(crate) fn ecall() -> Instr
    ensures { result ≡ instruction.ecall }
{
    Instr::of(Kind::Ecall, 0, 0, 0, 0).unwrap()
}
