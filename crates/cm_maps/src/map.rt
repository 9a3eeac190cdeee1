//! Page maps: which page each part of a worker's stack is in.
ghost use Rattle.std.specs.Prelude.{◌≡◌, ℕ, ◌+◌, ◌-◌, ◌<◌, ◌≤◌, ◌++◌, ◌∷◌, [], length, take, drop, IfOk, MatchOption};
ghost use Rattle.cm_maps.specs.Pages.{IsPage};
ghost use Rattle.cm_maps.specs.Shown.{Shows};

use crate::chain::Chain;
use crate::page_list::PageList;
use cm_text::Memory;
use std::alloc::Global;
use std::marker::Model;

/// The address just above the stack, which grows downwards from it.
pub const STACK_TOP: u32 = 0x4000_0000;

/// The pages of a stack, from its top down. With pages of `page` bytes the i-th of them, from 0, shows the addresses
/// from `STACK_TOP - (i + 1) * page` up to `STACK_TOP - i * page`. Contracts see the bytes of a page, for how many
/// pages there is room, and the list of page numbers.
#[derive(Debug, Drop)]
pub struct Map {
    page: u32,
    room: u32,
    pages: Vec<u16>,
}

impl Model for Map {
    ghost use Rattle.std.specs.Prelude.{◌≤◌, vec_len, vec_capacity};
    ghost use Rattle.cm_maps.specs.Pages.{IsPage, MapState};

    ghost Value = { MapState };

    ghost view = { λ map. record { page = map.page; room = map.room; pages = map.pages.items } };

    ghost invariant = { λ map. IsPage map.page × (vec_len map.pages ≤ map.room) × (map.room ≤ vec_capacity map.pages) };
}

impl Map {
    /// An empty map of pages of 256, 1024 or 4096 bytes, with room for at most 1,024 of them. `Memory` comes for want
    /// of memory alone.
    pub fn make(alloc: Global, page: u32, room: u32) -> Result<Map, Memory>
        requires page { IsPage page }
        requires room { room ≤ 1024 }
        ensures { IfOk result (λ map. map ≡ record { page = page; room = room; pages = [] }) }
    {
        let pages = Vec::with_capacity(alloc, room as usize)?;
        Ok(Map { page, room, pages })
    }

    /// The place of the word that holds an address: `None` exactly where no page of the map shows the address. The
    /// words of page n have the places from `n * (page / 4)` on.
    pub fn translate(&self, address: u32) -> Option<u32>
        ensures { MatchOption result ((place : ℕ) → Shows self.now address place → ⊥) (λ place. Shows self.now address place) }
    {
        if address >= STACK_TOP {
            return None;
        }
        let index = (STACK_TOP - 1 - address) / self.page;
        match self.pages.as_slice().get(index as usize) {
            Some(number) => Some(u32::from(*number) * (self.page / 4) + address % self.page / 4),
            None => None,
        }
    }

    /// Puts a page last, below the others. There has to be room for it.
    pub fn add(&mut self, number: u32)
        requires room { length self.old.pages < self.old.room }
        requires number { number < 65536 }
        ensures { self.new ≡ record self.old { pages = self.old.pages ++ number ∷ [] } }
    {
        self.pages.push_reserved(number as u16);
    }

    /// Keeps the first `keep` pages and puts the others last in `into`, in order. There has to be room in it.
    pub fn cut(&mut self, keep: u32, into: &mut PageList)
        requires keep { keep ≤ length self.old.pages }
        requires room { length into.old.pages + (length self.old.pages - keep) ≤ into.old.room }
        ensures kept { self.new ≡ record self.old { pages = take keep self.old.pages } }
        ensures moved { into.new ≡ record into.old { pages = into.old.pages ++ drop keep self.old.pages } }
    {
        into.append(&self.pages.as_slice()[keep as usize..]);
        self.pages.truncate(keep as usize);
    }

    /// Leaves the map empty.
    pub fn drop_all(&mut self)
        ensures { self.new ≡ record self.old { pages = [] } }
    {
        self.pages.clear();
    }

    /// The first `keep` pages. `Memory` comes for want of memory alone.
    pub fn chain(&self, alloc: Global, keep: u32) -> Result<Chain, Memory>
        requires { keep ≤ length self.now.pages }
        ensures { IfOk result (λ chain. chain ≡ take keep self.now.pages) }
    {
        Chain::of(alloc, &self.pages.as_slice()[..keep as usize])
    }

    /// Turns an empty map into the chain. There has to be room for it.
    pub fn install(&mut self, chain: &Chain)
        requires empty { self.old.pages ≡ [] }
        requires room { length chain.now ≤ self.old.room }
        ensures { self.new ≡ record self.old { pages = chain.now } }
    {
        self.pages.extend_from_slice(chain.pages()).unwrap();
    }
}
