//! The numbers of standard input, which stand behind the source.
ghost use Rattle.std.specs.Prelude.{◌≡◌, ◌+◌, ◌≤◌, ◌++◌, [], ℕ, List as ListOf, IfOk, IfErr, codes, length, take, drop, true};
ghost use Rattle.cilkm.specs.Pieces.{HaveValues, IsNext, IsNotNext, StopsReading, is_separator, pieces, pieces_behind, up_to_separator};
ghost use Rattle.cilkm.specs.Cut.{max_input};
ghost use Rattle.cilkm.specs.declared.pieces.PieceStop.TheVariants as stops;

use cm_text::{List, Memory, number};
use std::alloc::Global;

/// The most numbers.
const MAX_NUMBERS: usize = 65536;

/// Why there are no numbers.
#[derive(Clone, Copy, Debug, PartialEq, Eq)]
pub enum PieceStop {
    /// A piece is no number, or one too many.
    Piece {
        /// How many bytes stand before it.
        at: u32,
    },

    /// There was no memory for the numbers.
    Memory,
}

impl From<Memory> for PieceStop {
    ghost use Rattle.std.specs.Prelude.{◌≡◌};
    ghost use Rattle.cilkm.specs.declared.pieces.PieceStop.TheVariants.{Memory as OutOfMemory};

    ghost from_gives = { λ _ stop. stop ≡ OutOfMemory };

    fn from(_error: Memory) -> PieceStop {
        PieceStop::Memory
    }
}

/// The numbers of the pieces behind so many bytes of the input. The time is linear in the input.
///
/// # Errors
/// `Piece` where the first piece stands that is no number, or the 65,537th; `Memory` is want of memory.
pub fn numbers(alloc: Global, input: &[u8], start: usize) -> Result<List<i32>, PieceStop>
    requires short { length input.now ≤ max_input }
    ensures values { IfOk result (HaveValues (pieces start true (drop start input.now))) }
    ensures stop { IfErr result (StopsReading (pieces start true (drop start input.now))) }
{
    let mut numbers = List::new(alloc);
    let mut at = start;
    while at < input.len() {
        if is_separator(input[at]) {
            at += 1;
        } else {
            let count = piece_length(&input[at..]);
            let value = value_of(&input[at..at + count], numbers.len(), at as u32)?;
            numbers.push(value)?;
            at += count;
        }
    }
    Ok(numbers)
}

/// The number of a piece before which so many pieces and so many bytes stand.
fn value_of(piece: &[u8], count: usize, at: u32) -> Result<i32, PieceStop>
    ensures value { IfOk result (IsNext piece.now count) }
    ensures stop { IfErr result (λ stop. (stop ≡ stops.Piece at) × IsNotNext piece.now count) }
{
    let Some(value) = number(piece) else {
        return Err(PieceStop::Piece { at });
    };
    if count < MAX_NUMBERS {
        Ok(value)
    } else {
        Err(PieceStop::Piece { at })
    }
}

/// How many bytes stand before the first separator.
fn piece_length(bytes: &[u8]) -> usize
    ensures within { result ≤ length bytes.now }
    ensures piece { take result bytes.now ≡ up_to_separator bytes.now }
{
    for at in 0..bytes.len() {
        if is_separator(bytes[at]) {
            return at;
        }
    }
    bytes.len()
}

/// Whether a byte is a space, a tab, a line feed or a carriage return.
fn is_separator(byte: u8) -> bool
    ensures { result ≡ is_separator byte }
{
    byte == b' ' || byte == b'\t' || byte == b'\n' || byte == b'\r'
}

/// The line of `%%` ends with separators, so the pieces of an input are those behind that line, and none where it isn't
/// there.
pub fn pieces_behind_the_line()
    ensures feed { (source more : ListOf ℕ) → pieces_behind (source ++ (codes "%%\n" ++ more)) source ≡ pieces (length source + 3) true more }
    ensures both { (source more : ListOf ℕ) → pieces_behind (source ++ (codes "%%\r\n" ++ more)) source ≡ pieces (length source + 4) true more }
    ensures last { (source : ListOf ℕ) → pieces_behind (source ++ codes "%%") source ≡ [] }
    ensures returned { (source : ListOf ℕ) → pieces_behind (source ++ codes "%%\r") source ≡ [] }
    ensures none { (source : ListOf ℕ) → pieces_behind source source ≡ [] }
{}
