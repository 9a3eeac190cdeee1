//! What a run has still to do, and what is at hand.

use crate::ended::Trap;
use cm_syntax::{Arg, Expr, Item, Op, Stmt};

/// What the arguments of a call are for.
#[derive(Clone, Copy, Debug)]
pub(crate) enum Purpose {
    /// A call.
    Called,
    /// A spawn, with the slot of its destination.
    Spawned(Option<u32>),
}

/// A scalar of a frame.
#[derive(Clone, Copy, Debug)]
pub(crate) struct Scalar {
    /// How many frames stand before the frame.
    pub(crate) depth: u32,
    /// The slot.
    pub(crate) slot: u32,
}

/// One thing that is still to do.
#[derive(Clone, Copy, Debug)]
pub(crate) enum Work<'a> {
    /// An expression, whose value becomes the value at hand.
    Evaluate(&'a Expr<u32>),
    /// The value at hand is the left operand, and this is the right one.
    Right(Op, &'a Expr<u32>),
    /// The value at hand is the right operand, and this is the left one.
    Apply(Op, i32),
    /// The value at hand is the only operand.
    Prefix(Op),
    /// The value at hand is the left operand of `&&`, and this is the right one.
    Both(&'a Expr<u32>),
    /// The same of `||`.
    Either(&'a Expr<u32>),
    /// The value at hand becomes 1 where it isn't 0.
    Truth,
    /// The value at hand is an index into this slot.
    Element(u32),
    /// The value at hand is an index into the input.
    Read,
    /// A call of this function: how many of its arguments are known, and those to come.
    Arguments(Purpose, u32, usize, &'a [Arg<u32>]),
    /// The same where the value at hand is the next argument.
    Pass(Purpose, u32, usize, &'a [Arg<u32>]),
    /// What a call came back with becomes the value at hand.
    TakeBack,
    /// What a call came back with is dropped.
    Discard,
    /// What a call came back with goes to the destination of its spawn.
    Deliver(Option<Scalar>),
    /// A statement.
    Perform(&'a Stmt<u32>),
    /// The statements of a block.
    Sequence(&'a [Stmt<u32>]),
    /// The statements of a function's body.
    Body(&'a [Stmt<u32>]),
    /// The items of a declaration.
    Declare(&'a [Item<u32>]),
    /// The value at hand goes into a scalar.
    Assign(u32),
    /// The value at hand is the right operand of an update of a scalar.
    Update(u32, Op),
    /// The value at hand is the index of an element, and this is what is written to it.
    Locate(u32, Option<Op>, &'a Expr<u32>),
    /// The value at hand goes into the element of this index.
    Store(u32, u32, Option<Op>),
    /// The value at hand chooses between this statement and another one.
    Branch(&'a Stmt<u32>, Option<&'a Stmt<u32>>),
    /// A loop before its condition: the condition, what is done behind a turn, and its body.
    Turn(Option<&'a Expr<u32>>, Option<&'a Stmt<u32>>, &'a Stmt<u32>),
    /// What is done behind a turn of a loop.
    Behind(Option<&'a Stmt<u32>>),
    /// A loop with its condition at hand.
    Test(&'a Expr<u32>, Option<&'a Stmt<u32>>, &'a Stmt<u32>),
    /// The value at hand is where a row is split, the slots of the row and of its parts, and the block.
    Part(u32, u32, u32, &'a [Stmt<u32>]),
    /// A tick.
    Tick,
    /// The value at hand is printed.
    Show,
    /// A completed `return`.
    Exit,
    /// The end of a body that falls off.
    Fall,
    /// The join.
    Join,
    /// The end of a call.
    End,
}

/// What is at hand.
#[derive(Clone, Copy, Debug)]
pub(crate) enum Hand {
    /// Nothing.
    Idle,
    /// A value.
    Value(i32),
    /// What a call came back with.
    Returned(Option<i32>),
    /// A call of this function with so many arguments, before its tick.
    Entering(u32, usize),
    /// The same before its frame.
    Framing(u32, usize),
}

/// What a step did.
#[derive(Clone, Copy, Debug)]
pub(crate) enum Outcome {
    /// It goes on.
    Going,
    /// It took a tick and goes on.
    Tick,
    /// It printed a number and goes on.
    Printed(i32),
    /// A trap.
    Trapped(Trap),
    /// Nothing is left to do, and main gave this value.
    Ended(i32),
}
