//! What a seat at a board knows. No value of these types is made, but for `Content`.
use std::collections::LinkedList;

/// What a scope was started with.
#[derive(Drop)]
pub struct Scope<H> {
    /// Where its pages and tasks lie.
    pub home: H,
    /// How many pages surplus has.
    pub pages: u32,
}

/// What an owner knows.
pub struct Lead<A> {
    /// Whether children may still be out.
    pub is_open: bool,
    /// The ask of each place in use.
    pub asks: LinkedList<Option<A>>,
    /// How often it spawned.
    pub spawned: u64,
    /// What its takes and its arrival found: the word and the number, the latest first.
    pub log: LinkedList<(u64, u64)>,
}

/// What a seat is in its scope.
pub enum Role<A> {
    /// A seat with no part in the scope any more.
    Spent,
    /// A child that has a place, and has not begun its deposit.
    Child(u64, A),
    /// A child that holds its slot.
    Filling(u64, A),
    /// A child that has deposited, and has not arrived.
    Deposited,
    /// An owner between two calls.
    Owner(Lead<A>),
    /// An owner that counted a child, which has no seat yet.
    Adding(u64, A, Lead<A>),
    /// An owner that took a child back, which is still counted, with what it knew before.
    Backing(u64, A, Lead<A>),
    /// An owner that holds the slot of a place.
    Emptying(u64, A, Lead<A>),
    /// An owner that holds the task's slot.
    Moving(Lead<A>),
    /// An owner that has put its task down, and has not arrived.
    Parked(Lead<A>),
    /// The last to arrive, which has not taken the task.
    Last(Lead<A>),
    /// An owner that holds a surplus slot.
    Posting(u64, Lead<A>),
    /// A leaver, with what its steps found.
    Left(LinkedList<(u64, u64)>),
    /// A leaver that holds a surplus slot.
    Fetching(u64, LinkedList<(u64, u64)>),
}

/// What a seat knows.
pub struct View<H, A> {
    /// The scope, which each seat that is not spent names.
    pub scope: Option<Scope<H>>,
    /// What it is there.
    pub role: Role<A>,
}

/// A parked task, with the places that its owner has in use.
#[derive(Drop)]
pub struct Parked<T> {
    /// What the owner left.
    pub task: T,
    /// Whether each place is in use.
    pub marks: [bool; 16],
}

/// What lies in the task's slot, and in a surplus slot.
#[derive(Drop)]
pub enum Cargo<T, S> {
    /// In the task's slot.
    Task(Parked<T>),
    /// In a surplus slot.
    Surplus(S),
}

/// What lies in a slot.
#[derive(Drop)]
pub enum Content<B, T> {
    /// In the slot of a place.
    Answer(B),
    /// In the task's slot, or a surplus slot.
    Task(T),
}
