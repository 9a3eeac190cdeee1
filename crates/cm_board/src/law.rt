//! What the rule says of every moment.
ghost use Rattle.cm_board.specs.Law.{OneLeads, NoneArrives, OneHolder, IsHeld, TaskWaits, AsksAgree, IsIn};
ghost use Rattle.cm_board.specs.Slots.{cargo_fits, cargo_lies_in};

use crate::job::Job;

/// Last comes once: at every moment at most one seat of a scope leads, and beside one that is not open none may arrive.
pub fn last_comes_once<J: Job>()
    ensures one { OneLeads J.answers (cargo_fits J.belongs) (cargo_lies_in J.lies_in) }
    ensures none { NoneArrives J.answers (cargo_fits J.belongs) (cargo_lies_in J.lies_in) }
{}

/// What lies in the slots at every moment. A word is 1 exactly while one seat holds its slot, and the task is there exactly while no seat is an owner and none holds its slot. A child and the owner name one ask, and a place in use that neither of them has is filled with an answer to it.
pub fn each_slot_is_accounted_for<J: Job>()
    ensures holder { OneHolder J.answers (cargo_fits J.belongs) (cargo_lies_in J.lies_in) }
    ensures held { IsHeld J.answers (cargo_fits J.belongs) (cargo_lies_in J.lies_in) }
    ensures task { TaskWaits J.answers (cargo_fits J.belongs) (cargo_lies_in J.lies_in) }
    ensures asks { AsksAgree J.answers (cargo_fits J.belongs) (cargo_lies_in J.lies_in) }
    ensures filled { IsIn J.answers (cargo_fits J.belongs) (cargo_lies_in J.lies_in) }
{}
