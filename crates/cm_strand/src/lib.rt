//! Strands: what a worker runs of one piece, and what each event does to it, as laws of the definitions.
#![tactic(auto)]

mod answer;
mod ending;
mod law;
mod log;
mod owned_law;
mod root;
mod row;
mod scope;
mod spawn;
mod step;
mod strand;
mod taking;

pub use answer::{fallen_children_end_their_parent, join, merge};
pub use ending::resolve;
pub use law::{
    events_go_on, frames_of_strands_fit, frames_of_strands_stay, free_words_stay,
    no_word_is_shared_yet, strands_answer, strands_ask, strands_fail, strands_give_answers,
    strands_go_on, strands_hear, strands_join, strands_own, strands_spawn, strands_start,
    the_root_ends_as_the_elision,
};
pub use owned_law::{claims_come_together, owned_words_are_seen, owned_words_come_together};
pub use row::{logs_decide, scopes_open_once, ticks_are_taken_once};
pub use scope::Scope;
pub use strand::Strand;
