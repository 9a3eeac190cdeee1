//! The meaning of programs: the serial elision with its end and its measures, and fork and join with the ends that
//! they allow, as definitions with their laws. The evaluator finds the end of the elision by the definitions' single
//! steps. And what a run gives: its output, how it ended, and the text of that.
//!
//! The code of a program is not looked at here, and no machine.
#![tactic(auto)]

mod activation_law;
mod call;
mod elision;
mod ended;
mod ended_text;
mod evaluator;
mod expression;
mod fork_law;
mod frames;
mod law;
mod lead_law;
mod loan_law;
mod mark_law;
mod operator;
mod output;
mod piece_row;
mod reference;
mod row;
mod statement;
mod work;

pub use activation_law::{accounts_of_pieces, steps_shift_calls};
pub use elision::{elide, measure};
pub use ended::{Ended, Limits, Measure, Trap};
pub use ended_text::text;
pub use fork_law::{
    checked_pieces_return, checked_programs_fork, checked_programs_go_on, children_give_back,
    forks_end, reached_pieces_return, shares_come_back_once, sound_programs_see,
};
pub use law::{
    accounts_of_calls, forks_mean_elisions, more_ticks_same_end, one_serial_end, runs_beside_words,
    runs_inside_callers, sound_programs_are_typed, sound_programs_end, spawns_are_calls,
    spawns_part_stacks, states_stay_settled, steps_beside_words, steps_inside_callers,
    steps_lower_weight, typed_programs_go_on,
};
pub use lead_law::{answers_are_heard, done_children_join, pieces_find_ends, pieces_lead_on};
pub use loan_law::{frames_go_without_children, loans_make_one_stack};
pub use mark_law::{marked_functions_spawn, marks_allow_rests};
pub use output::Output;
pub use piece_row::{
    answer_of_child, asks_with_or_without_ticks, decides_or_goes_on, later_child_heard_first,
    traps_beside_awaited,
};
pub use row::{
    calls_to_the_account, cilk_calls_take_pages, early_stops, first_child_decides,
    index_before_value, joins_count_once, left_operand_first, loop_ticks, measures_of_runs,
    one_trap_of_each_kind, operators_at_corners, prints_in_the_order_of_spawns, prints_take_ticks,
    readers_share_a_word, returned_before_waiting, spawns_as_calls, splits_at_ends,
    sums_and_products, traps_beside_loops, traps_hide_later_prints, unset_words_unread,
    updates_read_last,
};
