//! Where the words of a function's frame are.
ghost use Rattle.std.specs.Prelude.{◌≡◌, ◌+◌, ◌*◌, ◌≤◌, ◌^◌, pos, ◌≤ℤ◌, IfOk, IfSome, slice_get};
ghost use Rattle.cm_syntax.specs.Frame as frame;
ghost use Rattle.cm_syntax.specs.Frame.{slots_words};
ghost use Rattle.cm_syntax.specs.Limit.{max_frame_words};
ghost use Rattle.cm_isa.specs.Bits.{minus};
ghost use Rattle.cm_gen.specs.Expression.{words_through, slot_offset, temporary_offset};

use cm_syntax::{Slot, slot_words};
use cm_text::{List, Memory};
use std::alloc::Global;
use std::marker::Model;

/// The slots of a function, with the places of their words in its frame. Contracts see the slots.
#[derive(Debug, Drop)]
pub struct Layout {
    slots: List<Slot>,
    // The words of the slots up to each one, this one with them.
    ends: List<u32>,
    // The words of all slots.
    words: u32,
}

impl Model for Layout {
    ghost use Rattle.std.specs.Prelude.{◌≡◌, ◌≤◌, List};
    ghost use Rattle.cm_syntax.specs.declared.stmt.Slot.{Slot};
    ghost use Rattle.cm_syntax.specs.Frame.{slots_words};
    ghost use Rattle.cm_syntax.specs.Limit.{max_frame_words};
    ghost use Rattle.cm_gen.specs.Builder.{ends_of};

    ghost Value = { List Slot };

    ghost view = { λ l. l.slots };

    ghost invariant = { λ l. (l.ends ≡ ends_of 0 l.slots) × (l.words ≡ slots_words l.slots)
        × (slots_words l.slots ≤ max_frame_words) };
}

impl Layout {
    /// The layout of these slots, whose words fit a frame.
    pub fn of(alloc: Global, slots: &[Slot]) -> Result<Layout, Memory>
        requires { slots_words slots.now ≤ max_frame_words }
        ensures { IfOk result (λ layout. layout ≡ slots.now) }
    {
        let mut copies = List::new(alloc);
        copies.append(slots)?;
        let mut ends = List::new(alloc);
        let mut words: u32 = 0;
        for slot in slots {
            words += slot_words(*slot);
            ends.push(words)?;
        }
        Ok(Layout {
            slots: copies,
            ends,
            words,
        })
    }

    /// What a slot is, or `None` where there is none of this number.
    pub fn kind(&self, slot: u32) -> Option<Slot>
        ensures value { result ≡ slice_get self.now slot }
        ensures small { IfSome result (λ kind. frame.slot_words kind ≤ max_frame_words) }
    {
        self.find(slot)
    }

    // The same, found in the list.
    fn find(&self, slot: u32) -> Option<Slot>
        ensures value { result ≡ slice_get self.now slot }
        ensures fits { slots_words self.now ≤ max_frame_words }
    {
        self.slots.items().get(slot as usize).copied()
    }

    /// The words of the slots up to one, this one with them.
    fn end(&self, slot: u32) -> u32
        ensures value { result ≡ words_through self.now slot }
        ensures small { result ≤ max_frame_words }
    {
        let ends = self.ends.items();
        let at = slot as usize;
        if at < ends.len() {
            ends[at]
        } else {
            self.words
        }
    }

    /// The offset of a slot's lowest word from the frame pointer, in bytes.
    pub fn offset(&self, slot: u32) -> i32
        ensures value { result ≡ slot_offset self.now slot }
        ensures below { result ≤ℤ pos 0 }
    {
        word_offset(2 + self.end(slot))
    }

    /// The offset of a temporary from the frame pointer, in bytes.
    pub fn temporary(&self, number: u32) -> i32
        requires { number ≤ 2 ^ 20 }
        ensures { result ≡ temporary_offset self.now number }
    {
        word_offset(3 + self.words + number)
    }
}

/// The offset of a word of a frame from the frame pointer, in bytes, with the words of the frame counted downwards.
fn word_offset(number: u32) -> i32
    requires { number ≤ 2 ^ 28 }
    ensures value { result ≡ minus (4 * number) }
    ensures below { result ≤ℤ pos 0 }
{
    -4 * (number as i32)
}
