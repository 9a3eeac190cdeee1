//! Lists of pages that no map has.
ghost use Rattle.std.specs.Prelude.{◌≡◌, ◌+◌, ◌<◌, ◌≤◌, ◌++◌, ◌∷◌, [], length, IfOk, IfSome, MatchOption};

use cm_text::Memory;
use std::alloc::Global;
use std::marker::Model;

/// Pages, with room for a number of them. Contracts see this room and the list of page numbers.
#[derive(Debug, Drop)]
pub struct PageList {
    room: u32,
    pages: Vec<u16>,
}

impl Model for PageList {
    ghost use Rattle.std.specs.Prelude.{◌≤◌, vec_len, vec_capacity};
    ghost use Rattle.cm_maps.specs.Pages.{ListState};

    ghost Value = { ListState };

    ghost view = { λ list. record { room = list.room; pages = list.pages.items } };

    ghost invariant = { λ list. (vec_len list.pages ≤ list.room) × (list.room ≤ vec_capacity list.pages) };
}

impl PageList {
    /// An empty list with room for `room` pages. Only this takes memory: `Memory` comes for want of it.
    pub fn make(alloc: Global, room: u32) -> Result<PageList, Memory>
        ensures { IfOk result (λ list. list ≡ record { room = room; pages = [] }) }
    {
        let pages = Vec::with_capacity(alloc, room as usize)?;
        Ok(PageList { room, pages })
    }

    /// Puts a page last. There has to be room for it.
    pub fn put(&mut self, number: u32)
        requires room { length self.old.pages < self.old.room }
        requires number { number < 65536 }
        ensures { self.new ≡ record self.old { pages = self.old.pages ++ number ∷ [] } }
    {
        self.pages.push_reserved(number as u16);
    }

    /// Takes out the last page: `None` exactly where the list is empty.
    pub fn pull(&mut self) -> Option<u32>
        ensures last { MatchOption result ((self.old.pages ≡ []) × (self.new.pages ≡ []))
            (λ number. self.old.pages ≡ self.new.pages ++ number ∷ []) }
        ensures number { IfSome result (λ number. number < 65536) }
        ensures room { self.new.room ≡ self.old.room }
    {
        match self.pages.pop() {
            Some(number) => Some(u32::from(number)),
            None => None,
        }
    }

    // Puts pages last, in order. There has to be room for them.
    pub(crate) fn append(&mut self, more: &[u16])
        requires { length self.old.pages + length more.now ≤ self.old.room }
        ensures { self.new ≡ record self.old { pages = self.old.pages ++ more.now } }
    {
        self.pages.extend_from_slice(more).unwrap();
    }
}
