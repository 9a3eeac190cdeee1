//! The first pages of a page map, kept for another worker.
ghost use Rattle.std.specs.Prelude.{◌≡◌, IfOk};

use cm_text::Memory;
use std::alloc::Global;
use std::marker::Model;

/// Pages from the top of the stack down, which an empty map may become. Contracts see the list of their numbers.
#[derive(Debug, Drop)]
pub struct Chain {
    pages: Vec<u16>,
}

impl Model for Chain {
    ghost use Rattle.std.specs.Prelude.{ℕ, List};

    ghost Value = { List ℕ };

    ghost view = { λ chain. chain.pages.items };
}

impl Chain {
    // A chain of these pages.
    pub(crate) fn of(alloc: Global, pages: &[u16]) -> Result<Chain, Memory>
        ensures { IfOk result (λ chain. chain ≡ pages.now) }
    {
        let pages = Vec::from_slice(alloc, pages)?;
        Ok(Chain { pages })
    }

    // The pages, lent.
    pub(crate) fn pages(&self) -> &[u16]
        ensures { result.now ≡ self.now }
    {
        self.pages.as_slice()
    }
}
