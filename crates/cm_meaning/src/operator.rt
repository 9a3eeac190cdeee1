//! What the operators give.
ghost use Rattle.std.specs.Prelude.{◌≡◌};
ghost use Rattle.cm_syntax.specs.declared.expr.Op.TheVariants as op;
ghost use Rattle.cm_syntax.specs.Operator.{binary_value, unary_value, truth_value};

use cm_syntax::Op;

/// What a binary operator gives of its operands; None where it divides by 0, and for an operator that isn't binary or
/// may stop early.
pub(crate) fn binary(op: Op, left: i32, right: i32) -> Option<i32>
    ensures { result ≡ binary_value op left right }
{
    match op {
        Op::Mul => Some(left.wrapping_mul(right)),
        Op::Div => quotient(left, right),
        Op::Rem => remainder(left, right),
        Op::Add => Some(left.wrapping_add(right)),
        Op::Sub => Some(left.wrapping_sub(right)),
        Op::Shl => Some(left.wrapping_shl(right.cast_unsigned())),
        Op::Shr => Some(left.wrapping_shr(right.cast_unsigned())),
        Op::Lt => Some(truth(left < right)),
        Op::Le => Some(truth(left <= right)),
        Op::Gt => Some(truth(left > right)),
        Op::Ge => Some(truth(left >= right)),
        Op::Eq => Some(truth(left == right)),
        Op::Ne => Some(truth(left != right)),
        Op::And => Some(left & right),
        Op::Xor => Some(left ^ right),
        Op::Or => Some(left | right),
        _ => None,
    }
}

/// What a unary operator gives of its operand; None for an operator that isn't unary.
pub(crate) fn unary(op: Op, operand: i32) -> Option<i32>
    ensures { result ≡ unary_value op operand }
{
    match op {
        Op::Neg => Some(operand.wrapping_neg()),
        Op::Not => Some(truth(operand == 0)),
        Op::Flip => Some(!operand),
        _ => None,
    }
}

/// The quotient, truncated towards 0; None where the right operand is 0.
fn quotient(left: i32, right: i32) -> Option<i32>
    ensures { result ≡ binary_value op.Div left right }
{
    if right == 0 {
        None
    } else {
        Some(left.wrapping_div(right))
    }
}

/// The remainder of that quotient; None where the right operand is 0.
fn remainder(left: i32, right: i32) -> Option<i32>
    ensures { result ≡ binary_value op.Rem left right }
{
    if right == 0 {
        None
    } else {
        Some(left.wrapping_rem(right))
    }
}

/// 1 for true and 0 for false.
pub(crate) fn truth(holds: bool) -> i32
    ensures { result ≡ truth_value holds }
{
    if holds { 1 } else { 0 }
}
