//! The settings that words give: a key, `=` and a number.
ghost use Rattle.std.specs.Prelude.{◌≡◌, ℕ, ◌<◌, ◌^◌, List, IfSome, IsSome, IsTrue, ◌↔◌, Some};
ghost use Rattle.std.specs.Fmt.{decimal};
ghost use Rattle.cilkm.specs.Asked.{texts};
ghost use Rattle.cilkm.specs.Setting.{AreSettings, IsPlain, IsWordOf, given_by};
ghost use Rattle.cilkm.specs.declared.setting.Setting.{Setting};

use crate::command::Name;
use cm_gen::Form;
use cm_meaning::Limits;

/// The ticks where no word gives them.
const DEFAULT_TICKS: u32 = 10_000_000;

/// The most ticks.
const MAX_TICKS: u32 = 100_000_000;

/// The pages of the stack account where no word gives them.
const DEFAULT_STACK: u32 = 64;

/// The bytes of a page where no word gives them.
const DEFAULT_PAGE: u32 = 4096;

/// The number of the form where no word gives it.
const DEFAULT_SERIAL: u32 = 0;

/// Whether the number of steps is told, where no word says it.
const DEFAULT_STAT: u32 = 0;

/// What a setting is for.
#[derive(Clone, Copy, Debug, PartialEq, Eq)]
pub enum Key {
    /// `ticks`: the ticks of a run.
    Ticks,
    /// `stack`: the pages of the stack account.
    Stack,
    /// `page`: the bytes of a page.
    Page,
    /// `serial`: 1 for the serial build, 0 for the Cilk build.
    Serial,
    /// `stat`: 1 where the number of steps is told, and else 0.
    Stat,
}

impl Key {
    ghost use Rattle.std.specs.Prelude.{◌≡◌, ◌↔◌, IsTrue};
    ghost use Rattle.cilkm.specs.Setting.{IsInRange, key_of};

    /// The key of a text, exactly where it is one.
    fn of(text: &str) -> Option<Key>
        ensures { result ≡ key_of text.now }
    {
        match text {
            "ticks" => Some(Key::Ticks),
            "stack" => Some(Key::Stack),
            "page" => Some(Key::Page),
            "serial" => Some(Key::Serial),
            "stat" => Some(Key::Stat),
            _ => None,
        }
    }

    /// Whether the key may have this number.
    fn allows(self, number: u32) -> bool
        ensures { IsTrue result ↔ IsInRange self number }
    {
        match self {
            Key::Ticks => 1 <= number && number <= MAX_TICKS,
            Key::Stack => 16 <= number && number <= 256,
            Key::Page => number == 256 || number == 1024 || number == 4096,
            Key::Serial | Key::Stat => number <= 1,
        }
    }
}

/// A number for a key.
#[derive(Clone, Copy, Debug, PartialEq, Eq)]
pub struct Setting {
    /// The key.
    pub key: Key,
    /// The number.
    pub number: u32,
}

/// The numbers that words give, by their keys.
#[derive(Clone, Copy, Debug, PartialEq, Eq)]
pub struct Given {
    /// The ticks of a run.
    pub ticks: Option<u32>,
    /// The pages of the stack account.
    pub stack: Option<u32>,
    /// The bytes of a page.
    pub page: Option<u32>,
    /// 1 for the serial build, 0 for the Cilk build.
    pub serial: Option<u32>,
    /// 1 where the number of steps is told, and else 0.
    pub stat: Option<u32>,
}

impl Given {
    ghost use Rattle.std.specs.Prelude.{◌≡◌, [], List};
    ghost use Rattle.cilkm.specs.Setting.{form_given, given_by, given_number, limits_given, page_given, stat_given, with_number};
    ghost use Rattle.cilkm.specs.declared.setting.Setting.{Setting};

    /// No number for any key.
    fn nothing() -> Given
        ensures { result ≡ given_by [] }
    {
        Given {
            ticks: None,
            stack: None,
            page: None,
            serial: None,
            stat: None,
        }
    }

    /// The number for a key.
    fn number(&self, key: Key) -> Option<u32>
        ensures { result ≡ given_number self.now key }
    {
        match key {
            Key::Ticks => self.ticks,
            Key::Stack => self.stack,
            Key::Page => self.page,
            Key::Serial => self.serial,
            Key::Stat => self.stat,
        }
    }

    /// Takes a number for one more key.
    fn put(&mut self, setting: Setting)
        ensures { self.new ≡ with_number self.old setting.key setting.number }
    {
        match setting.key {
            Key::Ticks => self.ticks = Some(setting.number),
            Key::Stack => self.stack = Some(setting.number),
            Key::Page => self.page = Some(setting.number),
            Key::Serial => self.serial = Some(setting.number),
            Key::Stat => self.stat = Some(setting.number),
        }
    }

    /// The limits of a run: what is given, and else the defaults.
    pub fn limits(&self) -> Limits
        ensures { (settings : List Setting) → self.now ≡ given_by settings → result ≡ limits_given settings }
    {
        Limits {
            ticks: self.ticks.unwrap_or(DEFAULT_TICKS),
            stack: self.stack.unwrap_or(DEFAULT_STACK),
            page: self.page(),
        }
    }

    /// The bytes of a page: what is given, and else the default.
    pub fn page(&self) -> u32
        ensures { (settings : List Setting) → self.now ≡ given_by settings → result ≡ page_given settings }
    {
        self.page.unwrap_or(DEFAULT_PAGE)
    }

    /// Whether the number of steps is told: what is given, and else the default.
    pub fn stat(&self) -> bool
        ensures { (settings : List Setting) → self.now ≡ given_by settings → result ≡ stat_given settings }
    {
        self.stat.unwrap_or(DEFAULT_STAT) == 1
    }

    /// The form of a build: what is given, and else the default.
    pub fn form(&self) -> Form
        ensures { (settings : List Setting) → self.now ≡ given_by settings → result ≡ form_given settings }
    {
        if self.serial.unwrap_or(DEFAULT_SERIAL) == 1 {
            Form::Serial
        } else {
            Form::Cilk
        }
    }
}

/// The numbers that the words behind a command's name give, exactly where each word is a key of the command, `=` and a
/// number of the key's range in decimal, and no key stands twice.
pub fn read_settings(command: Name, words: &[&str]) -> Option<Given>
    ensures some { IfSome result (λ given. (settings : List Setting) × AreSettings command (texts words.now) settings × (given ≡ given_by settings)) }
    ensures none { (settings : List Setting) → AreSettings command (texts words.now) settings → IsSome result }
{
    let mut given = Given::nothing();
    let mut at = words.len();
    while at > 0 {
        at -= 1;
        let Some(setting) = setting_of(command, words[at]) else {
            return None;
        };
        if given.number(setting.key).is_some() {
            return None;
        }
        given.put(setting);
    }
    Some(given)
}

/// The setting of a word, exactly where it has one that is allowed to the command.
fn setting_of(command: Name, word: &str) -> Option<Setting>
    ensures some { IfSome result (IsWordOf command word.now) }
    ensures none { (setting : Setting) → IsWordOf command word.now setting → IsSome result }
{
    let Some((name, digits)) = word.split_once('=') else {
        return None;
    };
    let Some(key) = Key::of(name) else {
        return None;
    };
    let Some(number) = decimal_number(digits) else {
        return None;
    };
    if command.takes(key) && key.allows(number) {
        Some(Setting { key, number })
    } else {
        None
    }
}

/// The number of 32 bits that a text writes in decimal, exactly where it does: `0`, or digits that don't begin with 0.
fn decimal_number(text: &str) -> Option<u32>
    ensures some { IfSome result (λ number. text.now ≡ decimal number) }
    ensures none { (number : ℕ) → number < 2 ^ 32 → text.now ≡ decimal number → result ≡ Some number }
{
    if is_plain(text.as_bytes()) {
        text.parse::<u32>().ok()
    } else {
        None
    }
}

/// Whether no plus stands first, and a 0 that stands first stands alone.
fn is_plain(digits: &[u8]) -> bool
    ensures { IsTrue result ↔ IsPlain digits.now }
{
    match digits.first() {
        Some(first) => *first != b'+' && (*first != b'0' || digits.len() == 1),
        None => true,
    }
}
