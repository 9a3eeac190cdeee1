//! Stores of pages.
ghost use Rattle.std.specs.Prelude.{◌≡◌, ◌<◌, ◌≤◌, ◌+◌, ◌++◌, List, [], ◌∷◌, length, reverse, IfOk};
ghost use Rattle.cm_store.specs.PageWords.{PageState};

use crate::page::Page;
use cm_text::Memory;
use std::alloc::Global;
use std::marker::Model;

/// Pages in order, with room for a number of them. Contracts see this room and the list of pages.
#[derive(Drop)]
pub struct Store {
    room: u32,
    pages: Vec<Page>,
}

impl Model for Store {
    ghost use Rattle.std.specs.Prelude.{◌≤◌, vec_len, vec_capacity};
    ghost use Rattle.cm_store.specs.StoreState.{StoreState, store_coded};

    ghost Value = { StoreState };

    ghost coded = { store_coded };

    ghost view = { λ store. record { room = store.room; pages = store.pages.items } };

    ghost invariant = { λ store. (vec_len store.pages ≤ store.room) × (store.room ≤ vec_capacity store.pages) };
}

impl Store {
    /// An empty store with room for `room` pages. Only this takes memory: `Memory` comes for want of it.
    pub fn make(alloc: Global, room: u32) -> Result<Store, Memory>
        ensures { IfOk result (λ store. store ≡ record { room = room; pages = [] }) }
    {
        let pages = Vec::with_capacity(alloc, room as usize)?;
        Ok(Store { room, pages })
    }

    /// How many pages there are.
    pub fn count(&self) -> u32
        ensures { result ≡ length self.now.pages }
    {
        let _room = self.room;
        self.pages.len() as u32
    }

    /// Takes out the last page. There has to be one.
    pub fn take(&mut self) -> Page
        requires some_page { 0 < length self.old.pages }
        ensures taken { self.old.pages ≡ self.new.pages ++ result ∷ [] }
        ensures room { self.new.room ≡ self.old.room }
    {
        self.pages.pop().unwrap()
    }

    /// Puts a page last. There has to be room for it.
    pub fn give(&mut self, page: Page)
        requires room { length self.old.pages < self.old.room }
        ensures { self.new ≡ record self.old { pages = self.old.pages ++ page ∷ [] } }
    {
        self.pages.push_reserved(page);
    }

    /// Moves the last pages to the end of another store, the last one first. There have to be as many, and room.
    pub fn cut(&mut self, count: u32, into: &mut Store)
        requires pages { count ≤ length self.old.pages }
        requires room { length into.old.pages + count ≤ into.old.room }
        ensures moved { (moved : List PageState) × (length moved ≡ count) × (self.old.pages ≡ self.new.pages ++ moved) × (into.new.pages ≡ into.old.pages ++ reverse moved) }
        ensures room { (self.new.room ≡ self.old.room) × (into.new.room ≡ into.old.room) }
    {
        for _ in 0..count {
            let page = self.take();
            into.give(page);
        }
    }
}
