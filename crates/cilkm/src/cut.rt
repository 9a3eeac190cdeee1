//! Which bytes of standard input are the source.
ghost use Rattle.std.specs.Prelude.{◌≡◌, ◌≤◌, ◌↔◌, ℕ, IsTrue, List, length, take};
ghost use Rattle.cilkm.specs.Cut.{AreLines, EndsLine, BeginsMark, IsCut};

/// The source in standard input: the bytes before the first line whose bytes are `%%`, with or without a carriage
/// return at its end, and all bytes where there is no such line. The time is linear in the input.
pub fn source_of(input: &[u8]) -> &[u8]
    ensures { IsCut input.now result.now }
{
    for at in 0..input.len() {
        if begins_line(input, at) && begins_mark(&input[at..]) {
            return &input[..at];
        }
    }
    input
}

/// Whether a line begins behind so many bytes.
fn begins_line(input: &[u8], at: usize) -> bool
    requires { at ≤ length input.now }
    ensures { IsTrue result ↔ AreLines (take at input.now) }
{
    at == 0 || input[at - 1] == b'\n'
}

/// Whether the bytes begin with a line of `%%`, with or without a carriage return at its end.
fn begins_mark(bytes: &[u8]) -> bool
    ensures { IsTrue result ↔ BeginsMark bytes.now }
{
    let Some(rest) = bytes.strip_prefix(b"%%") else {
        return false;
    };
    match rest.strip_prefix(b"\r") {
        Some(end) => ends_line(end),
        None => ends_line(rest),
    }
}

/// Whether a line ends here: nothing follows, or a line feed does.
fn ends_line(bytes: &[u8]) -> bool
    ensures { IsTrue result ↔ EndsLine bytes.now }
{
    match bytes {
        [] => true,
        [first, ..] => *first == b'\n',
    }
}

/// A text has one source at most.
pub fn one_source()
    ensures { (input a b : List ℕ) → IsCut input a → IsCut input b → a ≡ b }
{}
