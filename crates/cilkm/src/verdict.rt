//! What the program answers: its verdicts, their texts and statuses.
ghost use Rattle.std.specs.Prelude.{◌≡◌, ◌++◌, ℕ, List as ListOf, Option, codes, IfOk};
ghost use Rattle.std.specs.Fmt.{decimal};
ghost use Rattle.cm_meaning.specs.Ended.{ended_text as text_of_end};
ghost use Rattle.cilkm.specs.declared.command.Command.{Command};
ghost use Rattle.cilkm.specs.declared.verdict.Verdict.{Verdict};
ghost use Rattle.cilkm.specs.Verdict.{Means, AnswersSame, refusal_text, steps_line, ended_status as status_of_end};

use crate::built::BuiltImage;
use crate::refusal::Refusal;
use cm_meaning::{Ended, text as ended_text};
use cm_text::{Bytes, List, Memory};
use std::alloc::Global;

/// What the words and standard input come to.
#[derive(Debug, Drop)]
pub enum Verdict {
    /// The words after the program's name are no command.
    Usage,
    /// Standard input couldn't be read.
    Read,
    /// Standard input has more than 4,194,304 bytes.
    Long,
    /// The source is refused at an offset, in bytes from its start, for a reason.
    Refused(u32, Refusal),
    /// The piece of standard input behind so many bytes is no number, or one too many.
    Input(u32),
    /// The source is accepted.
    Accepted,
    /// The source was compiled, and this is the image of its program.
    Listing(BuiltImage),
    /// The source's serial elision ends so.
    Ended(Ended),
    /// The source's serial elision ends so, and the run of its code has so many steps.
    Counted(Ended, u64),
    /// There was no memory left.
    Memory,
}

impl Verdict {
    ghost use Rattle.std.specs.Prelude.{◌≡◌, IfOk};
    ghost use Rattle.cilkm.specs.Verdict.{verdict_status, verdict_text};

    /// The status with which the program ends.
    pub fn status(&self) -> u8
        ensures { result ≡ verdict_status self.now }
    {
        match self {
            Verdict::Usage => 2,
            Verdict::Read => 5,
            Verdict::Long => 8,
            Verdict::Refused(..) => 1,
            Verdict::Input(_) => 10,
            Verdict::Accepted => 0,
            Verdict::Listing(_) => 0,
            Verdict::Ended(ended) | Verdict::Counted(ended, _) => ended_status(ended),
            Verdict::Memory => 7,
        }
    }

    /// What the program prints.
    pub fn text(&self, alloc: Global) -> Result<Bytes, Memory>
        ensures { IfOk result (λ text. text ≡ verdict_text self.now) }
    {
        match self {
            Verdict::Usage => line(alloc, "usage\n"),
            Verdict::Read => line(alloc, "read\n"),
            Verdict::Long => line(alloc, "long\n"),
            Verdict::Refused(offset, refusal) => refusal_line(alloc, *offset, *refusal),
            Verdict::Input(offset) => input_line(alloc, *offset),
            Verdict::Accepted => line(alloc, "accepted\n"),
            Verdict::Listing(image) => image.listing(alloc),
            Verdict::Ended(ended) => ended_text(alloc, ended),
            Verdict::Counted(ended, steps) => counted_text(alloc, ended, *steps),
            Verdict::Memory => line(alloc, "memory\n"),
        }
    }
}

/// The status of an end.
fn ended_status(ended: &Ended) -> u8
    ensures { result ≡ status_of_end ended.now }
{
    match ended {
        Ended::Done { .. } => 0,
        Ended::Trap { .. } => 3,
        Ended::Spent => 4,
    }
}

/// The bytes of a line that is a constant.
fn line(alloc: Global, line: &str) -> Result<Bytes, Memory>
    ensures { IfOk result (λ text. text ≡ line.now) }
{
    let text = String::from_str(alloc, line)?;
    Ok(List::from_vec(text.into_bytes()))
}

/// The line of a refusal at an offset.
fn refusal_line(alloc: Global, offset: u32, refusal: Refusal) -> Result<Bytes, Memory>
    ensures { IfOk result (λ text. text ≡ refusal_text offset refusal) }
{
    let word = refusal.word();
    let text = match refusal {
        Refusal::Lent(spawn) => format!(in alloc; "refused {offset} {word} {spawn}\n")?,
        _ => format!(in alloc; "refused {offset} {word}\n")?,
    };
    Ok(List::from_vec(text.into_bytes()))
}

/// The line of a piece that is no number, or one too many, at an offset.
fn input_line(alloc: Global, offset: u32) -> Result<Bytes, Memory>
    ensures { IfOk result (λ text. text ≡ codes "input " ++ (decimal offset ++ codes "\n")) }
{
    let text = format!(in alloc; "input {offset}\n")?;
    Ok(List::from_vec(text.into_bytes()))
}

/// The text of an end, and behind it the line of a number of steps.
fn counted_text(alloc: Global, ended: &Ended, steps: u64) -> Result<Bytes, Memory>
    ensures { IfOk result (λ text. text ≡ text_of_end ended.now ++ steps_line steps) }
{
    let mut text = ended_text(alloc, ended)?;
    let line = format!(in alloc; "steps {steps}\n")?;
    text.append(line.as_bytes())?;
    Ok(text)
}

/// The words and standard input come to one answer at most.
pub fn one_answer()
    ensures { (command : Option Command) (input : ListOf ℕ) (a b : Verdict) → Means command input a
        → Means command input b → AnswersSame a b }
{}
