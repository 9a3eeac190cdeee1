//! The numbers of standard input.
ghost use Rattle.std.specs.Option.{SomeIff};
ghost use Rattle.cm_text.specs.Numeral.{IsNumber, number_value};

/// The value of a piece of input: an optional `-` and one or more digits, with a value from -2147483648
/// to 2147483647. `None` exactly where the piece is no such number.
pub fn number(bytes: &[u8]) -> Option<i32>
    ensures { SomeIff result (IsNumber bytes.now) (number_value bytes.now) }
{
    if let [b'+', ..] = bytes {
        return None;
    }
    let Ok(text) = str::from_utf8(bytes) else {
        return None;
    };
    text.parse::<i32>().ok()
}
