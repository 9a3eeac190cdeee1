//! What of a number fits the immediate of an instruction.
#![tactic(auto)]

ghost use Rattle.std.specs.Prelude.{◌≡◌, ◌%◌, IsTrue, unsigned_abs};
ghost use Rattle.cm_isa.specs.Bits.{IsSigned};
ghost use Rattle.cm_gen.specs.Code as code;

/// Whether a number fits an immediate of 12 bits.
pub(crate) fn is_near(number: i32) -> bool
    ensures value { result ≡ code.is_near number }
    ensures fits { IsTrue result → IsSigned 12 number }
{
    -2048 <= number && number <= 2047
}

/// The low 12 bits of a number, as a signed number.
pub(crate) fn low_part(number: i32) -> i32
    ensures value { result ≡ code.low_part number }
    ensures fits { IsSigned 12 result }
{
    number.wrapping_add(2048).rem_euclid(4096) - 2048
}

/// What is left of a number above its low part, modulo 2^32: its low 12 bits are 0.
pub(crate) fn high_part(number: i32) -> i32
    ensures value { result ≡ code.high_part number }
    ensures upper { unsigned_abs result % 4096 ≡ 0 }
{
    number.wrapping_sub(low_part(number))
}
