//! The code generator: from a program to the words that compute it.
//!
//! It reads no text and runs nothing. Its definitions say what code each pattern is, in both builds of a program.
//! The code of a whole program is put down from its end to its beginning, and then laid out as words: `make` makes the
//! build of a program. What the code does is said in laws: a machine that stands for a state of the program's meaning
//! comes by instructions to the state's next step, in both builds.
#![tactic(auto)]

mod ahead_law;
mod build;
mod builder;
mod evaluation;
mod form;
mod front;
mod function_code;
mod immediate;
mod instruction;
mod law;
mod laying;
mod layout;
mod making;
mod reached_law;
mod row;
mod simple;
mod standing;
mod statement;
mod straight;

pub use ahead_law::{
    each_word_has_turns, functions_are_shorter_than_images, jumps_back_are_paid, turns_ahead,
};
pub use build::{Build, MAX_IMAGE_WORDS};
pub use form::{Form, Part};
pub use law::{
    code_sizes, frames_hold_temporaries, images_are_bounded, loops_are_alike,
    serial_parts_are_alike, sound_programs_fit,
};
pub use making::{GenRefusal, make};
pub use reached_law::{children_give_words, destinations_are_written, reached_states_are_formed};
pub use row::{
    arrays_and_slices, cilk_functions, expressions, first_image, jumps, numbers_and_places,
    operators, spawns,
};
pub use standing::{
    calls_come_back, code_takes_each_step, each_instruction_keeps_standing, first_machine_stands,
    images_are_compiled, passing_is_the_elision, services_tell_steps,
    standing_keeps_with_more_words, standing_needs_its_words, standing_takes_what_is_joined,
    steps_keep_states_formed, ticks_and_places_are_registers,
};
