//! A rack, its hands, and the tickets for what lies in it.
ghost use Rattle.std.specs.Prelude.{◌≡◌, ◌+◌, ◌<◌, Some};
ghost use Rattle.cm_rack.specs.Views.{IsIdle, place_of};

use crate::racked::Racked;
use crate::rule::RackRule;
use crate::view::View;
use atomic_table::{Badge, Seat, Table};
use std::alloc::Global;

/// Places for tasks: word i and slot i are those of the place i. One word more is never written.
#[derive(Drop)]
pub struct Rack<T: Drop + Racked> {
    pub(crate) table: Table<Option<T>, View<T::Tag>, (), RackRule<T>, Global>,
    ghost sized: { table.shared.table_id.words ≡ table.shared.table_id.slots + 1 },
}

/// The right to put tasks into a rack.
#[derive(Drop)]
pub struct Hand<T: Drop + Racked> {
    pub(crate) seat: Seat<Option<T>, View<T::Tag>>,
    ghost idle: { IsIdle seat.me },
}

/// The right to take one task. Its type does not name the task's.
#[derive(Drop)]
pub struct Ticket<G> {
    pub(crate) badge: Badge<View<G>>,
    pub(crate) place: u32,
    ghost named: { place_of badge.views ≡ Some place },
    ghost inside: { place < badge.table_id.slots },
}

/// The place was not empty.
#[derive(Drop)]
pub struct Busy<T: Drop> {
    /// What was to be put there.
    pub task: T,
}
