//! The machine on paper: the state of workers, scopes and strands, one turn of one worker by the machine's table, the run
//! of a list of pairs, and the laws of every run. What a strand is inside is left open.
#![tactic(auto)]

mod law;
mod row;
mod strand;

pub use law::{
    closed_scopes_owe_posts, common_scopes_show_common_pages, pages_stand_once, shares_move,
    turns_are_rows, turns_keep,
};
pub use row::{a_fork, a_park_and_resume, a_steal};
pub use strand::Strand;
