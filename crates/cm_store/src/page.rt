//! Pages of words.
ghost use Rattle.std.specs.Prelude.{◌≡◌, ◌<◌};
ghost use Rattle.cm_maps.specs.Pages.{IsPage};
ghost use Rattle.cm_store.specs.PageWords.{IsExact, HoldsPage};

use cm_words::Grant;
use std::marker::Model;

/// A page number, the bytes of a page, and the grant of all the page's words. Contracts see these three.
#[derive(Drop)]
pub struct Page {
    number: u32,
    page: u32,
    words: Grant,
}

impl Model for Page {
    ghost use Rattle.cm_store.specs.PageWords.{PageState, page_coded, IsExact};

    ghost Value = { PageState };

    ghost coded = { page_coded };

    ghost view = { λ p. record { number = p.number; page = p.page; words = p.words } };

    ghost invariant = { λ p. IsExact (record { number = p.number; page = p.page; words = p.words }) };
}

impl Page {
    /// The page of this number, with `page` bytes, 256, 1024 or 4096. The grant has the whole of each of the page's
    /// places, and no others.
    pub fn of(number: u32, page: u32, words: Grant) -> Page
        requires number { number < 65536 }
        requires page { IsPage page }
        requires exact { HoldsPage number page words.cells }
        ensures { result ≡ record { number = number; page = page; words = words } }
    {
        Page {
            number,
            page,
            words,
        }
    }

    /// Its number, and the grant, which still has exactly the words of the page.
    pub fn split(self) -> (u32, Grant)
        ensures parts { (result.0 ≡ self.number) × (result.1 ≡ self.words) }
        ensures exact { IsExact self }
    {
        (self.number, self.words)
    }
}
