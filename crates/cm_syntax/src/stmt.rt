//! Statements, and the functions that they make up.

ghost use Rattle.std.specs.Prelude.{◌≡◌};
ghost use Rattle.cm_syntax.specs.Extent.{extent_of};

use crate::expr::{Call, Expr, Mark, Op};
use crate::name::Name;
use cm_text::List;
use sqlite_items::Boxed;

/// What a variable is, and so how many words of a frame it has.
#[derive(Clone, Copy, Debug, PartialEq, Eq)]
pub enum Slot {
    /// One word.
    Scalar,
    /// So many words.
    Array(u32),
    /// An address and a length, two words.
    Slice,
}

/// What a slot has, however it was declared. Frames, the meaning and the code ask for this alone.
#[derive(Clone, Copy, Debug, PartialEq, Eq)]
pub enum Extent {
    /// One word of its own.
    Word,
    /// So many words of its own.
    Words(u32),
    /// A reference to words elsewhere: an address and a length, two words.
    Reference,
}

impl Slot {
    /// What a slot of this kind has.
    pub fn extent(self) -> Extent
        ensures { result ≡ extent_of self }
    {
        match self {
            Slot::Scalar => Extent::Word,
            Slot::Array(words) => Extent::Words(words),
            Slot::Slice => Extent::Reference,
        }
    }
}

/// A variable that is declared, or a parameter.
#[derive(Debug, Drop)]
pub struct Item<N> {
    /// Its name, or its slot.
    pub name: Mark<N>,
    /// What it is.
    pub slot: Slot,
    /// The value that it begins with. Only a declared scalar may have one.
    pub first: Option<Expr<N>>,
}

/// What an assignment writes.
#[derive(Debug, Drop)]
pub enum Target<N> {
    /// A scalar variable.
    Scalar(Mark<N>),
    /// An element, `a[e]`; `*p` is `p[0]`.
    Index(Mark<N>, Expr<N>),
}

/// A statement, whose names are of type `N`.
#[derive(Debug, Drop)]
pub enum Stmt<N> {
    /// `;`, or an empty part of a `for`.
    Empty,
    /// `int a, b = 1, c[2];`
    Declare(List<Item<N>>),
    /// `t = e;`, or with an operator `t op= e;`. `t++` and `++t` are `t += 1`, and likewise `--`.
    Assign {
        /// What is written.
        target: Target<N>,
        /// The binary operator of an update.
        op: Option<Op>,
        /// The value, or the operator's right operand.
        value: Expr<N>,
    },
    /// `f(..);`
    Call(Call<N>),
    /// `spawn f(..);` or `x = spawn f(..);`
    Spawn {
        /// The offset of the word `spawn`.
        at: u32,
        /// The scalar that takes the value, the destination.
        target: Option<Mark<N>>,
        /// The call that is spawned.
        call: Call<N>,
    },
    /// `sync;`
    Sync {
        /// The offset of the word.
        at: u32,
    },
    /// `if (test) then` or `if (test) then else other`.
    If {
        /// The condition.
        test: Expr<N>,
        /// What is done where it isn't 0.
        then: Boxed<Stmt<N>>,
        /// What is done where it is 0.
        other: Option<Boxed<Stmt<N>>>,
    },
    /// `while (test) body`
    While {
        /// The condition of each turn.
        test: Expr<N>,
        /// What a turn does.
        body: Boxed<Stmt<N>>,
    },
    /// `for (first; test; step) body`, with `Empty` for a part that isn't there.
    For {
        /// What is done before: a declaration, an assignment, a call or nothing.
        first: Boxed<Stmt<N>>,
        /// The condition of each turn; without one it goes on.
        test: Option<Expr<N>>,
        /// What is done after each turn: an assignment, a call or nothing.
        step: Boxed<Stmt<N>>,
        /// What a turn does.
        body: Boxed<Stmt<N>>,
    },
    /// `split whole at place as left, right { body }`
    Split {
        /// The array or slice that is parted.
        whole: Mark<N>,
        /// The words of its left part.
        place: Expr<N>,
        /// The name of the left part.
        left: Mark<N>,
        /// The name of the right part.
        right: Mark<N>,
        /// The block in which the parts are known and the whole isn't.
        body: List<Stmt<N>>,
        /// The offset of the block's closing brace.
        close: u32,
    },
    /// `return;` or `return value;`
    Return {
        /// The offset of the word.
        at: u32,
        /// The value that is returned.
        value: Option<Expr<N>>,
    },
    /// `print(e);`
    Print(Expr<N>),
    /// `{ .. }`
    Block(List<Stmt<N>>),
}

/// A function.
#[derive(Debug, Drop)]
pub struct Function<N> {
    /// Its name, or its index among the functions.
    pub name: Mark<N>,
    /// Whether it is marked `cilk`.
    pub cilk: bool,
    /// Whether it returns a value: `int`, and not `void`.
    pub gives: bool,
    /// Its parameters, scalars and slices.
    pub parameters: List<Item<N>>,
    /// The statements of its block.
    pub body: List<Stmt<N>>,
    /// What its variables are: the parameters, then the declared names and the parts of splits in the
    /// order of the text. Empty in a tree, where names aren't resolved.
    pub slots: List<Slot>,
}

/// The tree of a source text, with its names as they are written.
#[derive(Debug, Drop)]
pub struct Tree {
    /// The functions in their order.
    pub functions: List<Function<Name>>,
    /// The bytes of the source.
    pub length: u32,
}

/// A program: a tree whose names are numbers. The number of a variable is its slot, the number of a
/// function its index.
#[derive(Debug, Drop)]
pub struct Program {
    /// The functions in their order.
    pub functions: List<Function<u32>>,
    /// The index of the function that is run.
    pub main: u32,
}
