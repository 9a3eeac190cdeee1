//! The bytes at the front of a text.
ghost use Rattle.std.specs.Prelude.{◌≡◌, ◌≤◌, ◌+◌, ◌*◌, true, length, drop, min, if◌then◌else◌, Some, None};
ghost use Rattle.std.specs.List.{list_all};
ghost use Rattle.std.specs.Char.{is_ascii_digit, digit_value};
ghost use Rattle.std.specs.Str.Parse.{digits_value};
ghost use Rattle.cm_syntax.specs.Text as text;
ghost use Rattle.cm_syntax.specs.Token.{begins};
ghost use Rattle.cm_syntax.specs.Lexer as lexer;

/// Whether a text begins with white space.
pub(crate) fn begins_space(bytes: &[u8]) -> bool
    ensures { result ≡ begins text.is_space bytes.now }
{
    match bytes.split_first() {
        None => false,
        Some((first, _)) => is_space(*first),
    }
}

/// Whether a text begins with a letter or `_`.
pub(crate) fn begins_letter(bytes: &[u8]) -> bool
    ensures { result ≡ begins text.is_letter bytes.now }
{
    match bytes.split_first() {
        None => false,
        Some((first, _)) => is_letter(*first),
    }
}

/// Whether a text begins with a letter, a digit or `_`.
pub(crate) fn begins_word(bytes: &[u8]) -> bool
    ensures { result ≡ begins text.is_word_byte bytes.now }
{
    match bytes.split_first() {
        None => false,
        Some((first, _)) => is_word_byte(*first),
    }
}

/// Whether a text begins with these two bytes.
pub(crate) fn is_pair(bytes: &[u8], first: u8, second: u8) -> bool
    ensures { result ≡ lexer.is_pair first second bytes.now }
{
    bytes.len() >= 2 && bytes[0] == first && bytes[1] == second
}

/// How many letters, digits and `_` a text begins with.
pub(crate) fn run_length(bytes: &[u8]) -> usize
    ensures { result ≡ length (lexer.front text.is_word_byte bytes.now) }
{
    for (index, byte) in bytes.iter().enumerate() {
        if !is_word_byte(*byte) {
            return index;
        }
    }
    bytes.len()
}

/// How many bytes the line comment has that a text begins with.
pub(crate) fn line_length(bytes: &[u8]) -> usize
    requires { lexer.opens_line bytes.now ≡ true }
    ensures { result ≡ lexer.line_length bytes.now }
{
    for index in 2..bytes.len() {
        if bytes[index] == b'\n' {
            return index;
        }
    }
    bytes.len()
}

/// How many bytes the block comment has that a text begins with, where it has an end.
pub(crate) fn block_length(bytes: &[u8]) -> Option<usize>
    ensures { result ≡ if lexer.has_end (drop 2 bytes.now) then Some (lexer.block_length bytes.now) else None }
{
    for index in 2..bytes.len() {
        if is_pair(&bytes[index..], b'*', b'/') {
            return Some(index + 2);
        }
    }
    None
}

/// The value of digits, or 2,147,483,648 where it is beyond each limit.
pub(crate) fn digits_value(digits: &[u8]) -> u32
    requires { list_all is_ascii_digit digits.now ≡ true }
    ensures { result ≡ min (digits_value 10 digits.now) 2147483648 }
{
    let mut value = 0;
    for digit in digits {
        value = with_digit(value, *digit);
    }
    value
}

/// A number with one more digit, or 2,147,483,648.
fn with_digit(value: u32, digit: u8) -> u32
    requires digit { is_ascii_digit digit ≡ true }
    requires value { value ≤ 2147483648 }
    ensures { result ≡ min (value * 10 + digit_value digit) 2147483648 }
{
    let longer = u64::from(value) * 10 + u64::from(digit - b'0');
    longer.min(2_147_483_648) as u32
}

/// Whether a text is `0`, or digits that don't begin with `0`.
pub(crate) fn is_number(text: &[u8]) -> bool
    ensures { result ≡ lexer.is_number text.now }
{
    are_digits(text) && (text.is_empty() || text[0] != b'0' || text.len() == 1)
}

/// Whether all bytes of a text are digits.
fn are_digits(text: &[u8]) -> bool
    ensures { result ≡ list_all is_ascii_digit text.now }
{
    text.iter().all(|byte| byte.is_ascii_digit())
}

fn is_space(byte: u8) -> bool
    ensures { result ≡ text.is_space byte }
{
    byte == b' ' || byte == b'\t' || byte == b'\r' || byte == b'\n'
}

fn is_letter(byte: u8) -> bool
    ensures { result ≡ text.is_letter byte }
{
    byte.is_ascii_alphabetic() || byte == b'_'
}

fn is_word_byte(byte: u8) -> bool
    ensures { result ≡ text.is_word_byte byte }
{
    is_letter(byte) || byte.is_ascii_digit()
}
