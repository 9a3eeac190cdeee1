//! The rule of a board's table.
use crate::job::Job;
use crate::view::{Cargo, Content, Scope, View};
use atomic_table::TableRule;
use std::marker::PhantomData;

/// The join counter is the sum of what the seats weigh, and each place, the task and each surplus slot is empty, filled with what fits, or with exactly one seat, which says so.
pub struct BoardRule<J> {
    job: PhantomData<J>,
}

impl<J: Job> TableRule<
    Option<Content<J::Answer, Cargo<J::Task, J::Surplus>>>,
    View<J::Home, J::Ask>,
    Scope<J::Home>,
> for BoardRule<J> {
    ghost use Rattle.cm_board.specs.Rule.{Ruled, opening_view};
    ghost use Rattle.cm_board.specs.Slots.{cargo_fits, cargo_lies_in};

    ghost holds = { Ruled J.answers (cargo_fits J.belongs) (cargo_lies_in J.lies_in) };

    ghost first = { opening_view };
}
