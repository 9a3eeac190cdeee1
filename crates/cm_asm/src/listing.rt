//! The listing of an image as text.
ghost use Rattle.std.specs.Prelude.{◌≡◌, ◌<◌, ◌≤◌, ◌++◌, length, IfOk, OnOk};
ghost use Rattle.cm_asm.specs.Listing.{AreWords, hex, hex_digit, line, listing};

use crate::image::{Image, MAX_WORDS};
use cm_text::{Bytes, List, Memory};
use std::alloc::Global;

/// The listing of an image: a line for each word, with its address, a space, the word and a line feed.
/// Both numbers have eight hexadecimal digits in lower case. `Memory` is want of memory.
pub fn list(alloc: Global, image: &Image) -> Result<Bytes, Memory>
    requires { length image.now.words ≤ MAX_WORDS }
    ensures text { IfOk result (λ text. text ≡ listing image.now.words) }
    ensures words { AreWords image.now.words }
{
    let mut text = List::new(alloc);
    let mut address = 0;
    for word in image.words.items() {
        put_line(&mut text, address, *word)?;
        address += 4;
    }
    Ok(text)
}

/// Puts the line of a word last.
fn put_line(text: &mut Bytes, address: u32, word: u32) -> Result<(), Memory>
    ensures { OnOk result (text.new ≡ text.old ++ line address word) }
{
    put_hex(text, address, 8)?;
    text.push(b' ')?;
    put_hex(text, word, 8)?;
    text.push(b'\n')?;
    Ok(())
}

/// Puts a number last, in so many hexadecimal digits.
fn put_hex(text: &mut Bytes, number: u32, digits: u8) -> Result<(), Memory>
    ensures { OnOk result (text.new ≡ text.old ++ hex digits number) }
{
    if digits == 0 {
        return Ok(());
    }
    put_hex(text, number / 16, digits - 1)?;
    text.push(hex_digit((number % 16) as u8))?;
    Ok(())
}

/// The character of a hexadecimal digit.
pub(crate) fn hex_digit(digit: u8) -> u8
    requires { digit < 16 }
    ensures { result ≡ hex_digit digit }
{
    if digit < 10 {
        b'0' + digit
    } else {
        b'a' + (digit - 10)
    }
}
