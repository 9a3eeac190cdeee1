//! The text of an end: its numbers, one a line, and how it came.
ghost use Rattle.std.specs.Prelude.{◌≡◌, ◌++◌, ◌∷◌, [], IfOk, OnOk};
ghost use Rattle.std.specs.String.{string_bytes};
ghost use Rattle.cm_meaning.specs.Output.{numbers_of};
ghost use Rattle.cm_meaning.specs.Printed.{entries_of, entry_of};
ghost use Rattle.cm_meaning.specs.Ended.{ended_text, lines, trap_line};

use crate::ended::{Ended, Trap};
use crate::output::{Hole, Printed};
use cm_text::{Bytes, List, Memory};
use std::alloc::{AllocError, Global};

/// The text of an end: the printed numbers in decimal, one a line, and then a line `value N`, or one with the trap,
/// `trap divide`, `trap index`, `trap input` or `trap stack`; of a run whose ticks were spent only the line `budget`.
/// Each line ends with a line feed. A hole that isn't filled gives nothing. It takes time by the length of the text
/// and the number of holes. `Memory` is want of memory.
pub fn text(alloc: Global, ended: &Ended) -> Result<Bytes, Memory>
    ensures { IfOk result (λ text. text ≡ ended_text ended.now) }
{
    let mut text = String::new(alloc);
    put_ended(&mut text, ended)?;
    Ok(List::from_vec(text.into_bytes()))
}

/// Puts the text of an end last.
fn put_ended(text: &mut String, ended: &Ended) -> Result<(), AllocError>
    ensures { OnOk result (string_bytes text.new ≡ string_bytes text.old ++ ended_text ended.now) }
{
    match ended {
        Ended::Done { output, value, .. } => {
            put_printed(text, output.printed())?;
            write!(text, "value {value}\n")?;
            Ok(())
        }
        Ended::Trap { output, kind, .. } => {
            put_printed(text, output.printed())?;
            put_trap(text, *kind)?;
            Ok(())
        }
        Ended::Spent => {
            text.push_str("budget\n")?;
            Ok(())
        }
    }
}

/// Puts the line of a trap last.
fn put_trap(text: &mut String, kind: Trap) -> Result<(), AllocError>
    ensures { OnOk result (string_bytes text.new ≡ string_bytes text.old ++ trap_line kind) }
{
    match kind {
        Trap::Divide => text.push_str("trap divide\n"),
        Trap::Index => text.push_str("trap index\n"),
        Trap::Input => text.push_str("trap input\n"),
        Trap::Stack => text.push_str("trap stack\n"),
    }
}

/// Puts the lines of what was printed last.
#[cycle(lines)]
fn put_printed(text: &mut String, printed: &Printed) -> Result<(), AllocError>
    ensures { OnOk result (string_bytes text.new ≡ string_bytes text.old ++ lines (numbers_of (entries_of printed.now))) }
{
    let mut rest = printed.numbers.as_slice();
    let mut at = 0;
    for hole in &printed.holes {
        let before = hole.before();
        let count = before.saturating_sub(at).min(rest.len());
        put_lines(text, &rest[..count])?;
        put_hole(text, hole)?;
        rest = &rest[count..];
        at = before;
    }
    put_lines(text, rest)?;
    Ok(())
}

/// Puts the lines of a hole's piece last: none where it isn't filled.
#[cycle(lines)]
fn put_hole(text: &mut String, hole: &Hole) -> Result<(), AllocError>
    ensures { OnOk result (string_bytes text.new ≡ string_bytes text.old ++ lines (numbers_of (entry_of hole.now ∷ []))) }
{
    match hole {
        Hole::Open(_) => Ok(()),
        Hole::Filled(_, piece) => put_printed(text, piece),
    }
}

/// Puts a line for each number last.
fn put_lines(text: &mut String, numbers: &[i32]) -> Result<(), AllocError>
    ensures { OnOk result (string_bytes text.new ≡ string_bytes text.old ++ lines numbers.now) }
{
    for number in numbers {
        write!(text, "{number}\n")?;
    }
    Ok(())
}
