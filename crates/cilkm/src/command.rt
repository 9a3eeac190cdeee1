//! The words after the program's name.
ghost use Rattle.std.specs.Prelude.{◌≡◌, List, ℕ, IfSome, Option};
ghost use Rattle.cilkm.specs.Asked.{texts, AsksOrNot, IsWithin, command_with};
ghost use Rattle.cilkm.specs.Setting.{given_by};
ghost use Rattle.cilkm.specs.declared.setting.Setting.{Setting};
ghost use Rattle.cilkm.specs.declared.command.Command.{Command};

use crate::setting::{Given, Key, read_settings};
use cm_gen::Form;
use cm_meaning::Limits;

/// What the program is asked to do.
#[derive(Clone, Copy, Debug, PartialEq, Eq)]
pub enum Command {
    /// `check`: read the source of standard input, resolve its names, and see that it obeys the lending rule.
    Check,
    /// `serial`: compile the source of standard input, and run its words on one hart, within limits.
    Serial {
        /// The limits.
        limits: Limits,
        /// Whether the number of steps is told.
        stat: bool,
    },
    /// `build`: compile the source of standard input, and list its words.
    Build {
        /// Which build.
        form: Form,
        /// The bytes of a page: 256, 1024 or 4096.
        page: u32,
    },
    /// `mean`: find the end of the serial elision of the source of standard input, within limits.
    Mean(Limits),
}

/// The name of a command.
#[derive(Clone, Copy, Debug, PartialEq, Eq)]
pub enum Name {
    /// `check`.
    Check,
    /// `build`.
    Build,
    /// `serial`.
    Serial,
    /// `mean`.
    Mean,
}

impl Name {
    ghost use Rattle.std.specs.Prelude.{◌≡◌};
    ghost use Rattle.cilkm.specs.Asked.{name_of};
    ghost use Rattle.cilkm.specs.Setting.{takes};

    /// The name that a word is, exactly where it is one.
    fn of(word: &str) -> Option<Name>
        ensures { result ≡ name_of word.now }
    {
        match word {
            "check" => Some(Name::Check),
            "build" => Some(Name::Build),
            "serial" => Some(Name::Serial),
            "mean" => Some(Name::Mean),
            _ => None,
        }
    }

    /// Whether the command has a key.
    pub fn takes(self, key: Key) -> bool
        ensures { result ≡ takes self key }
    {
        match self {
            Name::Check => false,
            Name::Build => match key {
                Key::Page | Key::Serial => true,
                Key::Ticks | Key::Stack | Key::Stat => false,
            },
            Name::Serial => match key {
                Key::Ticks | Key::Stack | Key::Page | Key::Stat => true,
                Key::Serial => false,
            },
            Name::Mean => match key {
                Key::Ticks | Key::Stack | Key::Page => true,
                Key::Serial | Key::Stat => false,
            },
        }
    }
}

/// The command of the words after the program's name, or None exactly where they are no command.
pub fn parse(words: &[&str]) -> Option<Command>
    ensures asked { AsksOrNot (texts words.now) result }
    ensures within { IfSome result IsWithin }
{
    let [first, more @ ..] = words else {
        return None;
    };
    let Some(name) = Name::of(first) else {
        return None;
    };
    match read_settings(name, more) {
        Some(given) => Some(command_with(name, &given)),
        None => None,
    }
}

/// The command of a name, with what its settings give.
fn command_with(name: Name, given: &Given) -> Command
    ensures { (settings : List Setting) → given.now ≡ given_by settings → result ≡ command_with name settings }
{
    match name {
        Name::Check => Command::Check,
        Name::Build => Command::Build {
            form: given.form(),
            page: given.page(),
        },
        Name::Serial => Command::Serial {
            limits: given.limits(),
            stat: given.stat(),
        },
        Name::Mean => Command::Mean(given.limits()),
    }
}

/// The words are one command at most.
pub fn one_command()
    ensures { (words : List (List ℕ)) (a b : Option Command) → AsksOrNot words a → AsksOrNot words b → a ≡ b }
{}
