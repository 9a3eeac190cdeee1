//! Reading a listing back.
ghost use Rattle.std.specs.Prelude.{◌≡◌, ℕ, ◌<◌, take, IfOk, IfErr, IfSome, IfNone};
ghost use Rattle.cm_asm.specs.Listing.{AreWords, LeavesAt, hex, hex_digit, line, listing};
ghost use Rattle.cm_asm.specs.Reading.{Agrees, IsHexByte, IsNumberFront, LeavesLine, ReadsEach, Refuses, RefusesAt};

use crate::image::{Image, MAX_WORDS};
use crate::listing::hex_digit;
use cm_text::{List, Memory};
use std::alloc::Global;

/// Why there is no image of a text.
#[derive(Clone, Copy, Debug, PartialEq, Eq)]
pub enum ListRefusal {
    /// The text is no listing of at most 4,194,304 words.
    Line {
        /// The first byte that no listing has there, counted from 0; the length of a text that ends inside
        /// a line.
        at: u32,
    },

    /// There was no memory for the words.
    Memory,
}

impl From<Memory> for ListRefusal {
    ghost use Rattle.std.specs.Prelude.{◌≡◌};
    ghost use Rattle.cm_asm.specs.declared.reading.ListRefusal.TheVariants.{Memory as OutOfMemory};

    ghost from_gives = { λ _ refusal. refusal ≡ OutOfMemory };

    fn from(_error: Memory) -> ListRefusal {
        ListRefusal::Memory
    }
}

/// The image whose listing the text is. `Line` comes exactly where the text is the listing of no image, at the
/// first byte that no listing of at most 4,194,304 words has there; a text that ends inside a line is refused
/// at its length. `Memory` is want of memory.
pub fn unlist(alloc: Global, text: &[u8]) -> Result<Image, ListRefusal>
    ensures words { IfOk result (λ image. AreWords image.words) }
    ensures listing { IfOk result (λ image. text.now ≡ listing image.words) }
    ensures each_listing { ReadsEach text.now result }

    ensures line { IfErr result (λ refusal. Refuses text.now refusal) }
    ensures each_line { (at : ℕ) → LeavesAt text.now at → RefusesAt at result }
{
    let mut words = List::new(alloc);
    let mut at = 0;
    while at < text.len() {
        if words.len() == MAX_WORDS {
            return Err(ListRefusal::Line { at: at as u32 });
        }
        match read_line(&text[at..], 4 * words.len() as u32) {
            Ok(word) => words.push(word)?,
            Err(count) => {
                return Err(ListRefusal::Line {
                    at: (at + count) as u32,
                });
            }
        }
        at += 18;
    }
    Ok(Image { words })
}

/// The word of the line that the text begins with, at this address, or how many bytes of the text begin
/// such a line.
fn read_line(text: &[u8], address: u32) -> Result<u32, usize>
    ensures ok { IfOk result (λ word. take 18 text.now ≡ line address word) }
    ensures err { IfErr result (λ count. LeavesLine address text.now count) }
{
    let matched = agreeing(text, address, 8);
    if matched < 8 || text.len() == 8 || text[8] != b' ' {
        return Err(matched);
    }
    let (count, word) = number_front(&text[9..]);
    if count < 8 || text.len() == 17 || text[17] != b'\n' {
        return Err(9 + count);
    }
    Ok(word)
}

/// How many of the first bytes of the text are those of the number, in so many hexadecimal digits.
fn agreeing(text: &[u8], number: u32, digits: usize) -> usize
    ensures { Agrees text.now (hex digits number) result }
{
    if digits == 0 {
        return 0;
    }
    let count = agreeing(text, number / 16, digits - 1);
    if count < digits - 1 || count == text.len() {
        return count;
    }
    if text[count] != hex_digit((number % 16) as u8) {
        return count;
    }
    digits
}

/// The hexadecimal digits that the text begins with, at most eight: how many they are, and their value.
fn number_front(text: &[u8]) -> (usize, u32)
    ensures { IsNumberFront text.now result.0 result.1 }
{
    let mut value: u32 = 0;
    for count in 0..8 {
        if count == text.len() {
            return (count, value);
        }
        let Some(digit) = digit_value(text[count]) else {
            return (count, value);
        };
        value = value * 16 + u32::from(digit);
    }
    (8, value)
}

/// The value of a hexadecimal digit in lower case.
fn digit_value(byte: u8) -> Option<u8>
    ensures some { IfSome result (λ digit. digit < 16) }
    ensures value { IfSome result (λ digit. byte ≡ hex_digit digit) }
    ensures none { IfNone result (IsHexByte byte → ⊥) }
{
    match byte {
        b'0'..=b'9' => Some(byte - b'0'),
        b'a'..=b'f' => Some(byte - b'a' + 10),
        _ => None,
    }
}
