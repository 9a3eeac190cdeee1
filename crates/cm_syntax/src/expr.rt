//! Expressions of the source language, and calls.

use cm_text::List;
use sqlite_items::Boxed;

/// A mention of a name, and the offset in the source where it stands.
#[derive(Debug, Drop)]
pub struct Mark<N> {
    /// The name in a tree, or its number in a resolved program.
    pub name: N,
    /// The number of source bytes before the first byte of the mention.
    pub at: u32,
}

/// An operator of the source language: three unary ones, and then the binary ones.
#[derive(Clone, Copy, Debug, PartialEq, Eq)]
pub enum Op {
    /// `-` before an operand, the negation.
    Neg,
    /// `!`, whether the operand is 0.
    Not,
    /// `~`, each bit the other way.
    Flip,
    /// `*`, the product.
    Mul,
    /// `/`, the quotient.
    Div,
    /// `%`, the remainder.
    Rem,
    /// `+`, the sum.
    Add,
    /// `-` between two operands, the difference.
    Sub,
    /// `<<`, the shift to the left.
    Shl,
    /// `>>`, the arithmetic shift to the right.
    Shr,
    /// `<`, whether the left operand is less.
    Lt,
    /// `<=`, whether the left operand is not greater.
    Le,
    /// `>`, whether the left operand is greater.
    Gt,
    /// `>=`, whether the left operand is not less.
    Ge,
    /// `==`, whether the operands are equal.
    Eq,
    /// `!=`, whether the operands differ.
    Ne,
    /// `&`, bit by bit.
    And,
    /// `^`, bit by bit.
    Xor,
    /// `|`, bit by bit.
    Or,
    /// `&&`, which stops early where the left operand is 0.
    Both,
    /// `||`, which stops early where the left operand isn't 0.
    Either,
}

/// An expression, whose names are of type `N`: their bytes before they are resolved, numbers after it.
/// Parentheses are not in it.
#[cycle(expr)]
#[derive(Debug, Drop)]
pub enum Expr<N> {
    /// A literal.
    Number(i32),
    /// A bare name, the value of a scalar variable.
    Scalar(Mark<N>),
    /// An element of an array or a slice, `a[e]`; `*p` is `p[0]`.
    Index(Mark<N>, Boxed<Expr<N>>),
    /// The words of an array or a slice, `len(a)`.
    Len(Mark<N>),
    /// A number of the input, `input(e)`.
    Input(Boxed<Expr<N>>),
    /// How many numbers the input has, `inputs()`.
    Inputs,
    /// An operand with a unary operator before it.
    Unary(Op, Boxed<Expr<N>>),
    /// Two operands, the left one evaluated first, and the operator between them.
    Binary(Op, Boxed<Expr<N>>, Boxed<Expr<N>>),
    /// The value that a function returns.
    Call(Call<N>),
}

/// An argument of a call.
#[cycle(expr)]
#[derive(Debug, Drop)]
pub enum Arg<N> {
    /// A value. In a tree also a bare name that turns out to be an array or a slice.
    Value(Expr<N>),
    /// The slice that an array or a slice is; only in a resolved program.
    Slice(Mark<N>),
    /// The slice of one scalar, `&x`.
    Address(Mark<N>),
}

/// A function's name and its arguments.
#[cycle(expr)]
#[derive(Debug, Drop)]
pub struct Call<N> {
    /// The function that is called.
    pub function: Mark<N>,
    /// Its arguments, evaluated in this order.
    pub arguments: List<Arg<N>>,
}
