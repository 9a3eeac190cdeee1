//! What the threads of a scope hold: its owner, its children, and those that have left.
ghost use Rattle.std.specs.Prelude.{◌≡◌, ◌<◌, [], map, length};
ghost use Rattle.std.specs.Arc.{arc_value};
ghost use Rattle.cm_board.specs.Rule.{view};
ghost use Rattle.cm_board.specs.Slots.{IsOwner, IsLeaver, lead_at, is_used, child_stage};

use crate::board::{Board, Place};
use crate::job::Job;
use std::alloc::Global;
use std::sync::Arc;

/// The one who spawns, parks and collects.
#[derive(Drop)]
pub struct Owner<J: Job> {
    pub(crate) board: Arc<Board<J>, Global>,
    pub(crate) seat: Place<J::Answer, J::Task, J::Surplus, J::Home, J::Ask>,
    /// Whether it may spawn, post and park: until it is handed out by Last.
    pub is_open: bool,
    /// How often it spawned. The join counter is at most one more.
    pub spawned: u64,
    pub(crate) marks: [bool; 16],
    ghost whole: { length marks ≡ 16 },
    ghost seated: { seat.table_id ≡ (arc_value board).table.shared.table_id },
    ghost leads: { IsOwner (arc_value board).table.shared.key seat.me },
    ghost opened: { (lead_at seat.me).is_open ≡ is_open },
    ghost counted: { (lead_at seat.me).spawned ≡ spawned },
    ghost marked: { marks ≡ map is_used (lead_at seat.me).asks },
}

/// A spawned child, until it arrives.
#[derive(Drop)]
pub struct Child<J: Job> {
    pub(crate) board: Arc<Board<J>, Global>,
    pub(crate) seat: Place<J::Answer, J::Task, J::Surplus, J::Home, J::Ask>,
    pub(crate) place: u32,
    /// What it is to answer.
    pub ask: J::Ask,
    /// Whether it has deposited.
    pub is_full: bool,
    ghost seated: { seat.table_id ≡ (arc_value board).table.shared.table_id },
    ghost stands: { seat.me ≡ (view (arc_value board).table.shared.key (child_stage is_full place ask), []) },
    ghost inside: { place < 16 },
}

/// One that has arrived, and was not the last.
#[derive(Drop)]
pub struct Leave<J: Job> {
    pub(crate) board: Arc<Board<J>, Global>,
    pub(crate) seat: Place<J::Answer, J::Task, J::Surplus, J::Home, J::Ask>,
    /// Whether it has fetched surplus.
    pub is_spent: bool,
    ghost seated: { seat.table_id ≡ (arc_value board).table.shared.table_id },
    ghost stands: { IsLeaver (arc_value board).table.shared.key is_spent seat.me },
}

/// What arriving answers.
#[derive(Drop)]
pub enum Arrived<J: Job> {
    /// Others are still to arrive.
    Earlier(Leave<J>),
    /// All have arrived: the owner, with an answer in every place in use, and the task that was parked.
    Last(Owner<J>, J::Task),
}
