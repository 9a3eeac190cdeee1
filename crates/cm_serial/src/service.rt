//! What the environment of one hart does at a service.
ghost use Rattle.std.specs.Prelude.{◌≡◌, ◌≤◌, length, slice_get};
ghost use Rattle.cm_meaning.specs.Range.{max_input_numbers};
ghost use Rattle.cm_serial.specs.Service.{answer_at, number_answer};

use cm_meaning::Trap;

/// How a service ends a run.
#[derive(Clone, Copy, Debug, PartialEq, Eq)]
pub enum Stop {
    /// By the value of main.
    Value,
    /// By the program's own error.
    Trap(Trap),
    /// There was no tick left.
    Spent,
}

/// What the environment does at a service.
#[derive(Clone, Copy, Debug, PartialEq, Eq)]
pub enum Answer {
    /// The number in x5 is printed.
    Prints,
    /// The reply is this word.
    Replies(u32),
    /// The run ends.
    Stops(Stop),
    /// There is no such service.
    Nothing,
}

/// What is done at the service of this number, where x5 has this word.
pub(crate) fn answer_to(service: u32, value: u32, input: &[i32]) -> Answer
    requires { length input.now ≤ max_input_numbers }
    ensures { result ≡ answer_at input.now service value }
{
    match service {
        0 => Answer::Stops(Stop::Value),
        1 => Answer::Prints,
        2 => number_at(input, value),
        3 => Answer::Replies(input.len() as u32),
        6 => Answer::Stops(Stop::Spent),
        7 => Answer::Stops(Stop::Trap(Trap::Divide)),
        8 => Answer::Stops(Stop::Trap(Trap::Index)),
        9 => Answer::Stops(Stop::Trap(Trap::Stack)),
        _ => Answer::Nothing,
    }
}

/// The reply with the number of the input at this index.
fn number_at(input: &[i32], index: u32) -> Answer
    ensures { result ≡ number_answer (slice_get input.now index) }
{
    match input.get(index as usize) {
        Some(number) => Answer::Replies(number.cast_unsigned()),
        None => Answer::Stops(Stop::Trap(Trap::Input)),
    }
}
