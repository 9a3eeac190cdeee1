//! The source language: its trees, and the definitions of its tokens, grammar, names and frames with their laws.
//!
//! This crate holds data and definitions, and counts the words of frames: it reads no text, makes no code and
//! prints nothing.
#![tactic(auto)]

mod cell_law;
mod checked;
mod expr;
mod frame;
mod law;
mod name;
mod stmt;
mod token;

pub use cell_law::{cells_come_together, loans_part_cells};
pub use checked::Checked;
pub use expr::{Arg, Call, Expr, Mark, Op};
pub use frame::{checked_frame_words, checked_slots_words, frame_bytes, frame_words, slot_words};
pub use law::{
    answers_of_parser, canonical_source, every_text_is_answered, faulty_sources, frame_words_agree,
    frames_of_sound_programs, frames_of_sources, grammar_members, levels_of_operators,
    mentions_of_sources, numbers_of_names, numbers_of_sources, one_answer, one_count,
    one_function_too_many, one_syntax_offset, one_token_list, one_tree, refused_bodies,
    refused_sources, slots_of_mentions, sound_sources, sources_at_limits,
    temporaries_of_expressions, tokens_of_texts, trees_of_sources, updates_of_source,
};
pub use name::Name;
pub use stmt::{Extent, Function, Item, Program, Slot, Stmt, Target, Tree};
pub use token::{Keyword, Sign};
